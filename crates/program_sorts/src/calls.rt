//! Arguments of calls.

ghost use Rattle.std.specs.Prelude.{◌≡◌, map};
ghost use Rattle.std.specs.Option.{option_map};
ghost use Rattle.expression_lang.specs.Signature.{signature, kinds_of};
ghost use Rattle.expression_lang.specs.Sorted.{scalars_of};
ghost use Rattle.expression_lang.specs.CodeExpression.{exp_of};
ghost use Rattle.expression_lang.specs.CodeSignature.{binder_of, signature_of};
ghost use Rattle.expression_lang.specs.CodeSort.{scope_by};
ghost use Rattle.program_sorts.specs.Sorts.{may_take};
ghost use Rattle.program_sorts.specs.CodeSorts.{sort_for};

use crate::expressions::program_sort;
use crate::phases::Phase;
use crate::scalars::is_of;
use c_values::{GlobalVar, Layout};
use expression_lang::{Binder, Exp, Scope, Signature};

/// The signature of a function, where there is one of the name.
pub fn signature<'a>(signatures: &'a [Signature], name: &str) -> Option<&'a Signature>
    ensures { option_map (λ s. signature_of s.now) result
        ≡ signature (map signature_of signatures.now) name.now }
{
    'signatures: for signature in signatures {
        if signature.name.as_str() == name {
            return Some(signature);
        }
    }
    None
}

/// Whether there are as many arguments as parameters, each of its parameter's kind.
#[tactic(auto, using(crate::proofs::Arguments::takes_one, crate::proofs::Arguments::takes_rest))]
pub fn may_take<N: Scope>(
    params: &[Binder],
    arguments: &[Exp],
    phase: Phase,
    names: &N,
    l: &Layout,
    globals: &[GlobalVar],
) -> bool
    ensures { let g = scope_by l.now (N.scalars names.now) globals.now in
        result ≡ may_take (sort_for phase) (kinds_of (map binder_of params.now))
        (scalars_of g (map exp_of arguments.now)) }
{
    let mut left = params;
    let mut right = arguments;
    'arguments: while let Some((param, params)) = left.split_first() {
        let Some((argument, arguments)) = right.split_first() else {
            return false;
        };
        if !is_of(
            phase.scalar(param.kind),
            program_sort(argument, names, l, globals),
        ) {
            return false;
        }
        left = params;
        right = arguments;
    }
    right.is_empty()
}
