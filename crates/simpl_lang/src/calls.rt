//! Calls of functions of a unit.

ghost use Rattle.std.specs.Prelude.{◌≡◌, map, string_bytes};
ghost use Rattle.std.specs.Option.{option_map};
ghost use Rattle.expression_lang.specs.Sort.{Of, word_sort_of};
ghost use Rattle.expression_lang.specs.Signature.{signature};
ghost use Rattle.expression_lang.specs.Sorted.{scalars_of, call_scalars};
ghost use Rattle.expression_lang.specs.CodeExpression.{exp_of, kind_of};
ghost use Rattle.expression_lang.specs.CodeSort.{names_of};
ghost use Rattle.program_sorts.specs.Sorts.{is_scalar_of};
ghost use Rattle.simpl_lang.specs.Sorted.{fits_target};
ghost use Rattle.simpl_lang.specs.CodeForms.{scope_in, signatures_in, may_go_to};

use crate::units::SimplUnit;
use expression_lang::{Exp, Kind, Names, scalar_of_kind};
use program_sorts::{Phase, may_take, signature};

/// Whether a call is of a function of the unit, with arguments and a target of its kinds.
#[tactic(auto, using(crate::proofs::Targets::calls_none, crate::proofs::Targets::calls_one))]
pub(crate) fn is_call_sorted(
    u: &SimplUnit,
    names: &Names<'_>,
    target: &Option<String>,
    function: &str,
    arguments: &[Exp],
) -> bool
    ensures { let g = scope_in u.now names.now in
        result ≡ fits_target g (option_map string_bytes target.now)
        (call_scalars word_sort_of (signature (signatures_in u.now) function.now)
        (scalars_of g (map exp_of arguments.now))) }
{
    match signature(&u.signatures, function) {
        Some(signature) => {
            may_take(
                &signature.params,
                arguments,
                Phase::OnWords,
                names,
                &u.layout,
                &u.globals,
            ) && may_go_to(names, target, signature.result)
        }
        None => false,
    }
}

// Whether a function's result may go there: to a local of its kind, or nowhere where there is none.
fn may_go_to(names: &Names<'_>, target: &Option<String>, kind: Option<Kind>) -> bool
    ensures { result ≡ may_go_to (names_of names.now) (option_map string_bytes target.now)
        (option_map kind_of kind) }
{
    match target {
        None => kind.is_none(),
        Some(name) => match kind {
            Some(kind) => is_local_of(names, name.as_str(), kind),
            None => false,
        },
    }
}

// Whether it is a local of the kind.
fn is_local_of(names: &Names<'_>, name: &str, kind: Kind) -> bool
    ensures { result ≡ is_scalar_of (names_of names.now name.now)
        (Some (Of (word_sort_of (kind_of kind)))) }
{
    match names.get(name) {
        Some(scalar) => scalar == scalar_of_kind(kind),
        None => false,
    }
}
