//! What is known from facts.

ghost use Rattle.std.specs.Prelude.{◌≡◌, ◌↔◌, IsTrue, true, map, string_bytes};
ghost use Rattle.expression_lang.specs.Expression as plain;
ghost use Rattle.expression_lang.specs.Expression.{TruthLit};
ghost use Rattle.expression_lang.specs.CodeExpression.{exp_of};
ghost use Rattle.ac_expr.specs.Fact.{stands_for};
ghost use Rattle.ac_expr.specs.Known.{SomeFact, Gives, GivesAtOnce, IsKnown};
ghost use Rattle.ac_expr.specs.CodeFacts.{fact_of};
ghost use Rattle.ac_expr.specs.CodeChain.{facts_of};
ghost use Rattle.ac_expr.specs.CodeLasting.{lasts};
ghost use Rattle.ac_expr.specs.Guarded.{GuardHas, Kept, Lasting, SomeGuard};

use crate::chain::{Facts, Sequence, Split};
use crate::claims::{gives_at_once, is_claimed, is_end, same_fact};
use crate::facts::Fact;
use crate::lasting::{After, is_unnamed, lasts, lasts_passed};
use expression_lang::Exp;

// A test of facts.
trait FactTest {
    ghost Passes: { Self → plain.Exp → Type 0 };

    // Whether a fact passes.
    fn passes(&self, fact: &Fact<'_>) -> bool
        ensures { IsTrue result ↔ Passes self.now (stands_for (fact_of fact.now)) };
}

// That a fact gives a claim at once.
#[derive(Clone, Copy)]
struct AtOnce<'a> {
    claim: &'a Fact<'a>,
}

impl FactTest for AtOnce<'_> {
    ghost Passes = { λ test e. GivesAtOnce e (stands_for (fact_of test.claim.now)) };

    fn passes(&self, fact: &Fact<'_>) -> bool {
        gives_at_once(fact, self.claim)
    }
}

// That a fact gives a claim, where the conditions of its implications are looked for among these
// facts.
#[derive(Clone, Copy)]
struct Among<'a, S: Sequence> {
    claim: &'a Fact<'a>,
    facts: &'a Facts<'a, S>,
}

impl<S: Sequence> FactTest for Among<'_, S> {
    ghost Passes = { λ test e. Gives (facts_of (S.parts) test.facts.now) e
        (stands_for (fact_of test.claim.now)) };

    fn passes(&self, fact: &Fact<'_>) -> bool {
        gives(self.facts, fact, self.claim)
    }
}

// Whether some fact passes the test, and lasts through what comes after the facts.
fn some<'x, S: Sequence, T: FactTest>(
    facts: &'x Facts<'x, S>,
    test: &T,
    after: &'x After<'x, S>,
) -> bool
    ensures { IsTrue result
        ↔ SomeFact (Lasting (T.Passes test.now) (lasts (S.parts) after.now))
        (facts_of (S.parts) facts.now) }
{
    let mut rest = facts;
    'links: loop {
        match rest {
            Facts::None(_, _, _) => return false,
            Facts::With(older, fact) => {
                if test.passes(fact) && lasts(fact, after) {
                    return true;
                }
                rest = *older;
            }
            Facts::Bound(older, name, _) => {
                return some(*older, test, &After::Bound(after, *name));
            }
            Facts::WithoutReads(older) => {
                return some(*older, test, &After::WithoutReads(after));
            }
            Facts::Passed(older, parts, count) => {
                return some_guard(*parts, *count, test, after)
                    || some(*older, test, &After::Passed(after, *parts, *count));
            }
        }
    }
}

// Whether a fact passes the test, and lasts through its part's names, so many parts behind it and
// what comes after.
fn is_kept<S: Sequence, T: FactTest>(
    fact: &Fact<'_>,
    names: &[String],
    others: S,
    left: u32,
    test: &T,
    after: &After<'_, S>,
) -> bool
    ensures { IsTrue result ↔ Kept (Lasting (T.Passes test.now) (lasts (S.parts) after.now)) left
        (map string_bytes names.now) (S.parts others) (stands_for (fact_of fact.now)) }
{
    test.passes(fact)
        && lasts(fact, after)
        && is_unnamed(fact, names)
        && lasts_passed(fact, others, left)
}

// The same of a part's guard, where it is one.
fn is_guard_kept<S: Sequence, T: FactTest>(
    split: &Split<'_, S>,
    left: u32,
    test: &T,
    after: &After<'_, S>,
) -> bool
    ensures { IsTrue result
        ↔ GuardHas (Kept (Lasting (T.Passes test.now) (lasts (S.parts) after.now)) left
        (map string_bytes split.now.names.now) (S.parts split.now.rest))
        (S.guard_in split.now.first) }
{
    match split.first.guard() {
        Some(guard) => {
            let fact = Fact::Whole(guard);
            is_kept(&fact, split.names, split.rest, left, test, after)
        }
        None => false,
    }
}

// Whether the guard of one of the first so many parts is kept.
#[tactic(auto, using(crate::proofs::LastingParts::no_guard, crate::proofs::LastingParts::guard_here, crate::proofs::LastingParts::guard_later))]
fn some_guard<S: Sequence, T: FactTest>(
    parts: S,
    count: u32,
    test: &T,
    after: &After<'_, S>,
) -> bool
    ensures { IsTrue result
        ↔ SomeGuard (Lasting (T.Passes test.now) (lasts (S.parts) after.now)) count
        (S.parts parts) }
{
    let mut rest = parts;
    let mut left = count;
    'along: while left > 0 {
        let Some(split) = rest.split() else {
            return false;
        };
        left -= 1;
        if is_guard_kept(&split, left, test, after) {
            return true;
        }
        rest = split.rest;
    }
    false
}

// Whether some fact gives the claim at once.
fn some_gives_at_once<S: Sequence>(facts: &Facts<'_, S>, claim: &Fact<'_>) -> bool
    ensures { IsTrue result
        ↔ SomeFact (λ e. GivesAtOnce e (stands_for (fact_of claim.now)))
        (facts_of (S.parts) facts.now) }
{
    some(facts, &AtOnce { claim }, &After::Nothing)
}

// Whether an expression that holds gives the claim, where these facts are known. It goes along the
// last parts by a loop.
#[tactic(auto, using(crate::proofs::GivesLaws::gives_itself))]
fn exp_gives<S: Sequence>(facts: &Facts<'_, S>, e: &Exp, claim: &Fact<'_>) -> bool
    ensures { IsTrue result
        ↔ Gives (facts_of (S.parts) facts.now) (exp_of e.now) (stands_for (fact_of claim.now)) }
{
    let mut rest = e;
    'along: loop {
        if is_claimed(rest, claim) {
            return true;
        }
        match rest {
            Exp::And(a, b) => {
                if exp_gives(facts, a, claim) {
                    return true;
                }
                rest = &**b;
            }
            Exp::Between(low, x, high) => return is_end(*low, x, *high, claim),
            Exp::Imp(c, d) => {
                return exp_gives(facts, d, claim) && some_gives_at_once(facts, &Fact::Whole(c));
            }
            _ => return false,
        }
    }
}

// Whether a fact gives the claim, where these facts are known.
fn gives<S: Sequence>(facts: &Facts<'_, S>, fact: &Fact<'_>, claim: &Fact<'_>) -> bool
    ensures { IsTrue result
        ↔ Gives (facts_of (S.parts) facts.now) (stands_for (fact_of fact.now))
        (stands_for (fact_of claim.now)) }
{
    match fact {
        Fact::Whole(e) => exp_gives(facts, e, claim),
        Fact::Between(low, x, high) => same_fact(fact, claim) || is_end(*low, *x, *high, claim),
        _ => same_fact(fact, claim),
    }
}

// Whether some fact gives the claim.
fn some_gives<S: Sequence>(facts: &Facts<'_, S>, claim: &Fact<'_>) -> bool
    ensures { IsTrue result
        ↔ SomeFact (λ e. Gives (facts_of (S.parts) facts.now) e (stands_for (fact_of claim.now)))
        (facts_of (S.parts) facts.now) }
{
    some(facts, &Among { claim, facts }, &After::Nothing)
}

// Whether a claim is the constant that holds.
fn is_true(claim: &Fact<'_>) -> bool
    ensures { IsTrue result ↔ (stands_for (fact_of claim.now) ≡ TruthLit true) }
{
    matches!(claim, Fact::Whole(Exp::Truth(true)))
}

/// Whether a claim is known from facts, as `specs/Known` has it: no more than one look at each
/// fact, the newest first, but for the conditions of implications that would give it. It takes no
/// memory.
pub fn known<S: Sequence>(facts: &Facts<'_, S>, claim: &Fact<'_>) -> bool
    ensures { IsTrue result
        ↔ IsKnown (facts_of (S.parts) facts.now) (stands_for (fact_of claim.now)) }
{
    is_true(claim) || some_gives(facts, claim)
}
