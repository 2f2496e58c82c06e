//! Claims of two sides, one of which may be built at the place.

ghost use Rattle.std.specs.Prelude.{◌≡◌, ◌↔◌, IsTrue, IfSome, IfNone};
ghost use Rattle.expression_lang.specs.Expression as plain;
ghost use Rattle.expression_lang.specs.CodeExpression.{exp_of};
ghost use Rattle.ac_expr.specs.Heads.{head};
ghost use Rattle.entailment.specs.CodeSides.{AreEqual, related, sides_of};

use expression_lang::Exp;

/// What is claimed of two sides.
#[derive(Clone, Copy)]
pub(crate) enum Relation {
    /// The first is at most the second.
    AtMost,
    /// Both are equal.
    Equal,
}

/// A claim of two sides.
#[derive(Clone, Copy)]
pub(crate) struct Sides<'a> {
    pub relation: Relation,
    pub first: &'a Exp,
    pub second: &'a Exp,
}

/// Two expressions.
pub(crate) type Pair<'a> = (&'a Exp, &'a Exp);

/// The sides of an expression that claims this of them.
pub(crate) fn sides_in<'a>(relation: Relation, e: &'a Exp) -> Option<Pair<'a>>
    ensures some { IfSome result (λ (first, second).
        exp_of e.now ≡ related relation (exp_of first.now) (exp_of second.now)) }
    ensures none { (a b : plain.Exp) → IfNone result
        (head (exp_of e.now) ≡ head (related relation a b) → ⊥) }
{
    match relation {
        Relation::AtMost => match e {
            Exp::Le(a, b) => Some((a, b)),
            _ => None,
        },
        Relation::Equal => match e {
            Exp::Eq(a, b) => Some((a, b)),
            _ => None,
        },
    }
}

impl<'a> Sides<'a> {
    /// That the first is at most the second.
    pub(crate) fn at_most(first: &'a Exp, second: &'a Exp) -> Sides<'a>
        ensures { sides_of result ≡ plain.Le (exp_of first.now) (exp_of second.now) }
    {
        Sides {
            relation: Relation::AtMost,
            first,
            second,
        }
    }

    /// That both are equal.
    pub(crate) fn equal(first: &'a Exp, second: &'a Exp) -> Sides<'a>
        ensures { sides_of result ≡ plain.Eq (exp_of first.now) (exp_of second.now) }
    {
        Sides {
            relation: Relation::Equal,
            first,
            second,
        }
    }

    /// Whether an expression is the claim.
    pub(crate) fn are_of(&self, e: &Exp) -> bool
        ensures { IsTrue result ↔ (sides_of self.now ≡ exp_of e.now) }
    {
        match self.relation {
            Relation::AtMost => match e {
                Exp::Le(a, b) => a.same(self.first) && b.same(self.second),
                _ => false,
            },
            Relation::Equal => match e {
                Exp::Eq(a, b) => a.same(self.first) && b.same(self.second),
                _ => false,
            },
        }
    }

    /// Whether it is an equation of an expression and itself.
    pub(crate) fn are_equal(&self) -> bool
        ensures { IsTrue result ↔ AreEqual self.now.relation (exp_of self.now.first.now)
            (exp_of self.now.second.now) }
    {
        match self.relation {
            Relation::AtMost => false,
            Relation::Equal => self.second.same(self.first),
        }
    }
}
