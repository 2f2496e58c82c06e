//! Whether an expression is another one that is made anew from its parts. Nothing is built.

ghost use Rattle.std.specs.Prelude.{◌≡◌, ◌↔◌, [], ◌∷◌, IsTrue, IfNone, IfSome};
ghost use Rattle.expression_lang.specs.Expression as plain;
ghost use Rattle.expression_lang.specs.CodeExpression.{exp_of};
ghost use Rattle.ac_expr.specs.Heads.{children, head};
ghost use Rattle.assertion_walks.specs.Rebuilt.{IsRebuilt};
ghost use Rattle.assertion_walks.specs.CodeRebuilt.{IsUnmade, IsNever, parts_in};

use crate::peeling::next_index;
use ac_expr::{Children, children_of, same_head};
use expression_lang::{Exp, Path};

/// Parts of an expression, one after the other.
#[derive(Clone, Copy)]
pub(crate) enum Parts<'a> {
    Children(Children<'a>),
    /// The indexes of the steps around a part of a value, those of the path.
    Steps(&'a Path, &'a Exp),
}

impl<'a> Parts<'a> {
    /// The first, and those behind it.
    pub(crate) fn next(self) -> Option<(&'a Exp, Parts<'a>)>
        ensures some { IfSome result (λ (first, rest). parts_in self.entry
            ≡ exp_of first.now ∷ parts_in rest) }
        ensures none { IfNone result (parts_in self.entry ≡ []) }
    {
        match self {
            Parts::Children(children) => match children.next() {
                Some((first, rest)) => Some((first, Parts::Children(rest))),
                None => None,
            },
            Parts::Steps(way, e) => match next_index(way, e) {
                Some((first, rest)) => Some((first, Parts::Steps(rest, e))),
                None => None,
            },
        }
    }

    // Whether there are none.
    fn is_empty(self) -> bool
        ensures { IsTrue result ↔ (parts_in self.entry ≡ []) }
    {
        self.next().is_none()
    }
}

/// How expressions that have their new parts change.
pub(crate) trait Remaking {
    ghost Changes: { Self → plain.Exp → plain.Exp → Type 0 };

    /// The new parts with which the first expression becomes the second, where it does with some.
    fn unmade<'a>(&self, e: &'a Exp, other: &'a Exp) -> Option<Parts<'a>>
        ensures some { IfSome result (λ parts.
            IsUnmade (Changes self.now) (exp_of e.now) (exp_of other.now) (parts_in parts)) }
        ensures none { IfNone result
            (IsNever (Changes self.now) (exp_of e.now) (exp_of other.now)) };
}

/// The parts of the second expression, where it has the head of the first.
pub(crate) fn own_parts<'a>(e: &Exp, other: &'a Exp) -> Option<Parts<'a>>
    ensures some { IfSome result (λ parts. (head (exp_of other.now) ≡ head (exp_of e.now))
        × (parts_in parts ≡ children (exp_of other.now))) }
    ensures none { IfNone result (head (exp_of other.now) ≡ head (exp_of e.now) → ⊥) }
{
    if same_head(e, other) {
        Some(Parts::Children(children_of(other)))
    } else {
        None
    }
}

/// Whether the second expression is the first made anew.
pub(crate) fn is_rebuilt<R: Remaking>(remaking: &R, e: &Exp, other: &Exp) -> bool
    ensures { IsTrue result
        ↔ IsRebuilt (R.Changes remaking.now) (exp_of e.now) (exp_of other.now) }
{
    let Some(parts) = remaking.unmade(e, other) else {
        return false;
    };
    let mut ones = children_of(e);
    let mut others = parts;
    'along: loop {
        let Some((a, behind)) = ones.next() else {
            return others.is_empty();
        };
        let Some((b, rest)) = others.next() else {
            return false;
        };
        if !is_rebuilt(remaking, a, b) {
            return false;
        }
        ones = behind;
        others = rest;
    }
}
