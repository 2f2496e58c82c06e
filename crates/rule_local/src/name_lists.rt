//! Lists of names, and names in lists.

ghost use Rattle.std.specs.Prelude.{◌≡◌, ◌↔◌, IsTrue, [], ◌∷◌, map, string_bytes};
ghost use Rattle.expression_lang.specs.CodeSignature.{binder_of};
ghost use Rattle.expression_lang.specs.Signature.{names_of};
ghost use Rattle.rule_local.specs.Table.{AreNone};

use expression_lang::Binder;
use simpl_lang::is_bound;

/// Whether none of the names is a binder's.
#[tactic(auto, using(crate::proofs::Unbound::unbound_end, crate::proofs::Unbound::unbound_on, crate::proofs::Unbound::unbound_off))]
pub(crate) fn are_unbound(names: &[String], binders: &[Binder]) -> bool
    ensures { IsTrue result
        ↔ AreNone (map string_bytes names.now) (names_of (map binder_of binders.now)) }
{
    let mut rest = names;
    'along: while let Some((name, others)) = rest.split_first() {
        if is_bound(name.as_str(), binders) {
            return false;
        }
        rest = others;
    }
    true
}

/// Whether there are no names.
pub(crate) fn is_none(names: &[String]) -> bool
    ensures { IsTrue result ↔ (map string_bytes names.now ≡ []) }
{
    names.is_empty()
}

/// Whether this is the only name.
pub(crate) fn is_only(names: &[String], name: &str) -> bool
    ensures { IsTrue result ↔ (map string_bytes names.now ≡ name.now ∷ []) }
{
    match names.split_first() {
        Some((first, rest)) => first.as_str() == name && is_none(rest),
        None => false,
    }
}
