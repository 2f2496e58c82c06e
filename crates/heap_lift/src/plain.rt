//! Whether nothing is to be done: there is no load, no store and no test that a pointer may point.

ghost use Rattle.std.specs.Prelude.{◌≡◌, map};
ghost use Rattle.expression_lang.specs.CodeExpression.{exp_of};
ghost use Rattle.monad_lang.specs.CodeProgram.{mon_of, start_of};
ghost use Rattle.rule_heap.specs.HeapLifted.{is_plain, is_ptrok};
ghost use Rattle.heap_lift.specs.Lifted.{is_plain_exp, are_plain_starts};

use expression_lang::{Exp, IsLoad, Test};
use monad_lang::{Mon, NoPlace, Start};

/// A test that a pointer may point.
#[derive(Clone, Copy)]
struct IsPtrOk;

impl Test for IsPtrOk {
    ghost holds = { λ _ e. is_ptrok e };

    fn holds(&self, e: &Exp) -> bool {
        matches!(e, Exp::PtrOk(_, _))
    }
}

/// Of a program. It walks the whole, so it is for programs without programs in them.
pub(crate) fn is_plain(m: &Mon) -> bool
    ensures { result ≡ is_plain (mon_of m.now) }
{
    m.is_heaps() && !m.any(&IsPtrOk, &NoPlace)
}

/// Of an expression.
pub(crate) fn is_plain_exp(e: &Exp) -> bool
    ensures { result ≡ is_plain_exp (exp_of e.now) }
{
    !e.any(&IsLoad) && !e.any(&IsPtrOk)
}

/// Of the expressions that names begin with.
#[tactic(auto, using(crate::proofs::PlainLaws::plain_later, crate::proofs::PlainLaws::plain_ends))]
pub(crate) fn are_plain_starts(starts: &[Start]) -> bool
    ensures { result ≡ are_plain_starts (map start_of starts.now) }
{
    let mut rest = starts;
    'along: while let Some((first, others)) = rest.split_first() {
        if !is_plain_exp(&first.exp) {
            return false;
        }
        rest = others;
    }
    true
}
