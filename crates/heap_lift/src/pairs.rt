//! A test that a pointer may point, directly before that of its tag.

ghost use Rattle.std.specs.Prelude.{◌≡◌, ◌<◌, false, [], map, string_bytes, IfSome, IfNone};
ghost use Rattle.c_values.specs.CodeTypes.{type_of};
ghost use Rattle.expression_lang.specs.Expression as E;
ghost use Rattle.expression_lang.specs.CodeExpression.{exp_of};
ghost use Rattle.monad_lang.specs.declared.program.Mon.{size-Mon};
ghost use Rattle.monad_lang.specs.Program as M;
ghost use Rattle.monad_lang.specs.CodeProgram.{mon_of};
ghost use Rattle.rule_heap.specs.HeapLifted.{is_pair};
ghost use Rattle.heap_lift.specs.CodeLifted.{IsPair, IsNoPointerTest, IsNoTagTest};

use c_values::CType;
use expression_lang::{Exp, equal_types};
use monad_lang::Mon;

/// What the tests look at, and what comes then.
#[derive(Clone, Copy)]
pub(crate) struct Pair<'a> {
    pub(crate) ty: &'a CType,
    pub(crate) pointer: &'a Exp,
    pub(crate) rest: &'a Mon,
}

/// The pair of tests that the first part of a Bind and the beginning of its second are, if they are
/// one.
#[tactic(auto, using(crate::proofs::PairLaws::names_no_pair, crate::proofs::PairLaws::no_pointer_no_pair, crate::proofs::PairLaws::no_tag_no_pair))]
pub(crate) fn pair_of<'a>(first: &'a Mon, names: &[String], last: &'a Mon) -> Option<Pair<'a>>
    ensures some { IfSome result (λ pair.
        IsPair pair (mon_of first.now) (map string_bytes names.now) (mon_of last.now)) }
    ensures smaller { IfSome result (λ pair. size-Mon pair.rest.now < size-Mon last.now) }
    ensures none { IfNone result
        (is_pair (mon_of first.now) (map string_bytes names.now) (mon_of last.now) ≡ false) }
{
    if !names.is_empty() {
        return None;
    }
    let (ty, pointer) = pointer_test(first)?;
    let tag = tag_test(last)?;
    if !equal_types(tag.ty, ty) {
        return None;
    }
    if !tag.pointer.same(pointer) {
        return None;
    }
    Some(Pair {
        ty,
        pointer,
        rest: tag.rest,
    })
}

fn pointer_test(m: &Mon) -> Option<(&CType, &Exp)>
    ensures some { IfSome result (λ (ty, pointer).
        mon_of m.now ≡ M.Guard (E.PtrOk (type_of ty.now) (exp_of pointer.now))) }
    ensures none { IfNone result (IsNoPointerTest (mon_of m.now)) }
{
    match m {
        Mon::Guard(Exp::PtrOk(ty, pointer)) => Some((ty, &**pointer)),
        _ => None,
    }
}

fn tag_test(m: &Mon) -> Option<Pair<'_>>
    ensures some { IfSome result (λ tag. mon_of m.now
        ≡ M.Bind (M.Guard (E.Tagged (type_of tag.ty.now) (exp_of tag.pointer.now))) []
        (mon_of tag.rest.now)) }
    ensures smaller { IfSome result (λ tag. size-Mon tag.rest.now < size-Mon m.now) }
    ensures none { IfNone result (IsNoTagTest (mon_of m.now)) }
{
    match m {
        Mon::Bind(first, names, rest) => match &**first {
            Mon::Guard(Exp::Tagged(ty, pointer)) if names.is_empty() => Some(Pair {
                ty,
                pointer: &**pointer,
                rest: &**rest,
            }),
            _ => None,
        },
        _ => None,
    }
}
