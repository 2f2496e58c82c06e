//! Whether two facts are the same, and what a fact gives at once.

ghost use Rattle.std.specs.Prelude.{◌≡◌, ◌↔◌, ◌⊎◌, IsTrue};
ghost use Rattle.expression_lang.specs.CodeExpression.{exp_of};
ghost use Rattle.expression_lang.specs.Expression.{NumberLit, Le};
ghost use Rattle.ac_expr.specs.Fact.{stands_for};
ghost use Rattle.ac_expr.specs.Known.{GivesAtOnce};
ghost use Rattle.ac_expr.specs.CodeFacts.{fact_of};

use crate::facts::Fact;
use crate::first_sides::is_same;
use c_values::{Number, same_number};
use expression_lang::{Exp, equal_types};

// Whether an expression is a number's numeral.
fn is_numeral(e: &Exp, n: Number) -> bool
    ensures { IsTrue result ↔ (exp_of e.now ≡ NumberLit n) }
{
    match e {
        Exp::Number(m) => same_number(*m, n),
        _ => false,
    }
}

/// Whether an expression is the one that a fact stands for.
pub(crate) fn is_claimed(e: &Exp, claim: &Fact<'_>) -> bool
    ensures { IsTrue result ↔ (stands_for (fact_of claim.now) ≡ exp_of e.now) }
{
    match claim {
        Fact::Whole(whole) => is_same(whole, e),
        Fact::Not(inner) => match e {
            Exp::Not(own) => is_same(inner, own),
            _ => false,
        },
        Fact::Tagged(t, p) => match e {
            Exp::Tagged(u, q) => equal_types(t, u) && is_same(p, q),
            _ => false,
        },
        Fact::Between(low, x, high) => match e {
            Exp::Between(least, y, greatest) => {
                same_number(*low, *least) && same_number(*high, *greatest) && is_same(x, y)
            }
            _ => false,
        },
        Fact::AtLeast(x, low) => match e {
            Exp::Le(a, b) => is_numeral(a, *low) && is_same(x, b),
            _ => false,
        },
        Fact::AtMost(x, high) => match e {
            Exp::Le(a, b) => is_numeral(b, *high) && is_same(x, a),
            _ => false,
        },
        Fact::Equal(x, y) => match e {
            Exp::Eq(a, b) => is_same(x, a) && is_same(y, b),
            _ => false,
        },
    }
}

// Whether the claim is that the number is at least this.
fn is_at_least(x: &Exp, low: Number, claim: &Fact<'_>) -> bool
    ensures { IsTrue result
        ↔ (stands_for (fact_of claim.now) ≡ Le (NumberLit low) (exp_of x.now)) }
{
    match claim {
        Fact::Whole(Exp::Le(a, b)) => is_numeral(a, low) && is_same(x, b),
        Fact::AtLeast(y, least) => same_number(low, *least) && is_same(x, *y),
        Fact::AtMost(y, high) => is_numeral(*y, low) && is_numeral(x, *high),
        _ => false,
    }
}

// Whether the claim is that the number is at most this.
fn is_at_most(x: &Exp, high: Number, claim: &Fact<'_>) -> bool
    ensures { IsTrue result
        ↔ (stands_for (fact_of claim.now) ≡ Le (exp_of x.now) (NumberLit high)) }
{
    match claim {
        Fact::Whole(Exp::Le(a, b)) => is_numeral(b, high) && is_same(x, a),
        Fact::AtMost(y, most) => same_number(high, *most) && is_same(x, *y),
        Fact::AtLeast(y, low) => is_numeral(*y, high) && is_numeral(x, *low),
        _ => false,
    }
}

/// Whether the claim is one of a range's ends.
pub(crate) fn is_end(low: Number, x: &Exp, high: Number, claim: &Fact<'_>) -> bool
    ensures { IsTrue result
        ↔ ((stands_for (fact_of claim.now) ≡ Le (NumberLit low) (exp_of x.now))
        ⊎ (stands_for (fact_of claim.now) ≡ Le (exp_of x.now) (NumberLit high))) }
{
    is_at_least(x, low, claim) || is_at_most(x, high, claim)
}

/// Whether two facts stand for the same expression.
pub(crate) fn same_fact(fact: &Fact<'_>, claim: &Fact<'_>) -> bool
    ensures { IsTrue result ↔ (stands_for (fact_of claim.now) ≡ stands_for (fact_of fact.now)) }
{
    match fact {
        Fact::Whole(e) => is_claimed(*e, claim),
        Fact::Not(x) => match claim {
            Fact::Whole(e) => is_claimed(*e, fact),
            Fact::Not(y) => is_same(x, *y),
            _ => false,
        },
        Fact::Tagged(t, p) => match claim {
            Fact::Whole(e) => is_claimed(*e, fact),
            Fact::Tagged(u, q) => equal_types(*t, *u) && is_same(p, *q),
            _ => false,
        },
        Fact::Between(low, x, high) => match claim {
            Fact::Whole(e) => is_claimed(*e, fact),
            Fact::Between(least, y, greatest) => {
                same_number(*low, *least) && same_number(*high, *greatest) && is_same(x, *y)
            }
            _ => false,
        },
        Fact::AtLeast(x, low) => is_at_least(*x, *low, claim),
        Fact::AtMost(x, high) => is_at_most(*x, *high, claim),
        Fact::Equal(a, b) => match claim {
            Fact::Whole(e) => is_claimed(*e, fact),
            Fact::Equal(x, y) => is_same(a, *x) && is_same(b, *y),
            _ => false,
        },
    }
}

// Whether an expression that holds gives the claim at once. It goes along the last parts by a loop.
#[tactic(auto, using(crate::proofs::GivesLaws::gives_itself_at_once))]
fn exp_gives_at_once(e: &Exp, claim: &Fact<'_>) -> bool
    ensures { IsTrue result ↔ GivesAtOnce (exp_of e.now) (stands_for (fact_of claim.now)) }
{
    let mut rest = e;
    'along: loop {
        if is_claimed(rest, claim) {
            return true;
        }
        match rest {
            Exp::And(a, b) => {
                if exp_gives_at_once(a, claim) {
                    return true;
                }
                rest = &**b;
            }
            Exp::Between(low, x, high) => return is_end(*low, x, *high, claim),
            _ => return false,
        }
    }
}

/// Whether a fact gives the claim at once.
pub(crate) fn gives_at_once(fact: &Fact<'_>, claim: &Fact<'_>) -> bool
    ensures { IsTrue result
        ↔ GivesAtOnce (stands_for (fact_of fact.now)) (stands_for (fact_of claim.now)) }
{
    match fact {
        Fact::Whole(e) => exp_gives_at_once(e, claim),
        Fact::Between(low, x, high) => same_fact(fact, claim) || is_end(*low, *x, *high, claim),
        _ => same_fact(fact, claim),
    }
}
