//! Which facts last through what came after them.

ghost use Rattle.std.specs.Prelude.{◌≡◌, ◌&&◌, map, string_bytes};
ghost use Rattle.expression_lang.specs.Mentions.{reads};
ghost use Rattle.ac_expr.specs.Fact.{stands_for};
ghost use Rattle.ac_expr.specs.Lasting.{is_unnamed, lasts_part, lasts_passed};
ghost use Rattle.ac_expr.specs.CodeFacts.{fact_of};
ghost use Rattle.ac_expr.specs.CodeLasting.{lasts};

use crate::chain::Sequence;
use crate::facts::Fact;

/// What came after a fact, the newest last.
#[derive(Drop)]
pub(crate) enum After<'a, S: Sequence> {
    Nothing,
    Bound(&'a After<'a, S>, &'a str),
    WithoutReads(&'a After<'a, S>),
    Passed(&'a After<'a, S>, S, u32),
}

/// Whether a fact has none of the names.
pub(crate) fn is_unnamed(fact: &Fact<'_>, names: &[String]) -> bool
    ensures { result ≡ is_unnamed (map string_bytes names.now) (stands_for (fact_of fact.now)) }
{
    let mut rest = names;
    'along: while let Some((name, others)) = rest.split_first() {
        if fact.names(name) {
            return false;
        }
        rest = others;
    }
    true
}

// Whether a fact may not last since it reads what the part may change. What is cheap to tell is
// asked first.
#[tactic(auto, using(crate::proofs::LastingParts::both_ways))]
fn is_outdated<S: Sequence>(fact: &Fact<'_>, first: S) -> bool
    ensures { result ≡ (reads (stands_for (fact_of fact.now)) && S.changes first) }
{
    first.changes_state() && fact.reads()
}

// Whether a fact lasts through a part.
fn lasts_part<S: Sequence>(fact: &Fact<'_>, first: S, names: &[String]) -> bool
    ensures { result ≡ lasts_part (record {
      guard = S.guard_in first;
      names = map string_bytes names.now;
      changes = S.changes first;
    }) (stands_for (fact_of fact.now)) }
{
    is_unnamed(fact, names) && !is_outdated(fact, first)
}

/// Whether a fact lasts through the first so many parts.
#[tactic(auto, using(crate::proofs::LastingParts::through_none, crate::proofs::LastingParts::through_one, crate::proofs::LastingParts::not_through_one))]
pub(crate) fn lasts_passed<S: Sequence>(fact: &Fact<'_>, parts: S, count: u32) -> bool
    ensures { result ≡ lasts_passed count (S.parts parts) (stands_for (fact_of fact.now)) }
{
    let mut rest = parts;
    let mut left = count;
    'along: while left > 0 {
        let Some(split) = rest.split() else {
            return true;
        };
        if !lasts_part(fact, split.first, split.names) {
            return false;
        }
        rest = split.rest;
        left -= 1;
    }
    true
}

/// Whether a fact lasts through all that came after it.
pub(crate) fn lasts<S: Sequence>(fact: &Fact<'_>, after: &After<'_, S>) -> bool
    ensures { result ≡ lasts (S.parts) after.now (stands_for (fact_of fact.now)) }
{
    let mut rest = after;
    'links: loop {
        match rest {
            After::Nothing => return true,
            After::Bound(later, name) => {
                if fact.names(*name) {
                    return false;
                }
                rest = *later;
            }
            After::WithoutReads(later) => {
                if fact.reads() {
                    return false;
                }
                rest = *later;
            }
            After::Passed(later, parts, count) => {
                if !lasts_passed(fact, *parts, *count) {
                    return false;
                }
                rest = *later;
            }
        }
    }
}
