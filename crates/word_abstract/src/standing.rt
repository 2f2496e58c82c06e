//! What an expression stands for before it is seen one way.

ghost use Rattle.std.specs.Prelude.{◌≡◌, ◌↔◌, IfOk, IsTrue};
ghost use Rattle.expression_lang.specs.CodeExpression.{exp_of};
ghost use Rattle.word_abstract.specs.CodeMeaning.{meaning, base_at};
ghost use Rattle.word_abstract.specs.CodeViews.{seen_of, base_of};
ghost use Rattle.word_abstract.specs.CodeAbstracted.{abstracted_in};
ghost use Rattle.word_abstract.specs.CodeStanding.{standing_in};

use crate::abstracted::{Abstracted, chosen, constant_seen, extended_seen, seen_at};
use crate::comparing::{is_constant_seen, is_extended_seen, is_seen_at};
use crate::views::{Base, Seen};
use c_values::Word;
use expression_lang::Exp;
use std::alloc::{AllocError, Global};

/// What an expression stands for: each is abstracted once, and not once for each way in which it
/// may be seen.
pub(crate) enum Standing {
    /// A word of the width, at a base.
    At(Base, u8, Abstracted),
    /// A word's constant.
    Constant(Word),
    /// The same however it is seen.
    Fixed(Abstracted),
    /// One of two that are seen alike.
    Chosen(Abstracted, Box<Standing>, Box<Standing>),
    /// A word that is extended to the width, of the number that its operand stands for.
    Extended(u8, Abstracted),
}

impl Drop for Standing {
    fn drop(mut self) {
        match self {
            Standing::At(_, _, _x) => {}
            Standing::Constant(_) => {}
            Standing::Fixed(_x) => {}
            Standing::Chosen(_test, _first, _last) => {}
            Standing::Extended(_, _x) => {}
        }
    }
}

impl Standing {
    /// Seen so.
    pub(crate) fn seen(self, alloc: Global, view: Seen) -> Result<Abstracted, AllocError>
        ensures { IfOk result (λ x. abstracted_in x ≡ meaning (standing_in self) (seen_of view)) }
    {
        match self {
            Standing::At(base, width, x) => seen_at(alloc, base, width, view, x),
            Standing::Constant(word) => constant_seen(alloc, view, word),
            Standing::Fixed(x) => Ok(x),
            Standing::Chosen(test, first, last) => {
                let first = Box::into_inner(first).seen(alloc, view)?;
                let last = Box::into_inner(last).seen(alloc, view)?;
                chosen(alloc, test, first, last)
            }
            Standing::Extended(width, x) => extended_seen(alloc, view, width, x),
        }
    }

    /// Whether it is this expression, seen so. Nothing is built.
    pub(crate) fn is_seen(&self, view: Seen, e: &Exp) -> bool
        ensures { IsTrue result
            ↔ (exp_of e.now ≡ (meaning (standing_in self.now) (seen_of view)).right) }
    {
        match self {
            Standing::At(base, width, x) => is_seen_at(*base, *width, view, &x.right, e),
            Standing::Constant(word) => is_constant_seen(view, *word, e),
            Standing::Fixed(x) => e.same(&x.right),
            Standing::Chosen(test, first, last) => match e {
                Exp::If(c, a, b) => {
                    c.same(&test.right) && first.is_seen(view, a) && last.is_seen(view, b)
                }
                _ => false,
            },
            Standing::Extended(width, x) => is_extended_seen(view, *width, &x.right, e),
        }
    }

    /// The base of a word.
    pub(crate) fn base(&self) -> Base
        ensures { base_of result ≡ base_at (standing_in self.now) }
    {
        match self {
            Standing::At(base, _, _) => *base,
            Standing::Extended(_, _) => Base::Naturals,
            Standing::Constant(_) | Standing::Fixed(_) => Base::Words,
            Standing::Chosen(_, _, _) => Base::Words,
        }
    }
}

/// A standing of its own on the heap.
pub(crate) fn boxed(alloc: Global, s: Standing) -> Result<Box<Standing>, AllocError>
    ensures { IfOk result (λ boxed. boxed.value ≡ s) }
{
    Ok(Box::new(alloc, s)?)
}

/// As the word that it is.
pub(crate) fn word_of(alloc: Global, s: Box<Standing>) -> Result<Abstracted, AllocError>
    ensures { IfOk result (λ x. abstracted_in x
        ≡ meaning (standing_in s.value) Rattle.word_abstract.specs.CodeMeaning.AsWord) }
{
    Box::into_inner(s).seen(alloc, Seen::AsWord)
}
