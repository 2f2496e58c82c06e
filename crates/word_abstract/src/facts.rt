//! What is known where an expression stands.

ghost use Rattle.std.specs.Prelude.{◌≡◌, ◌&&◌, [], map, string_bytes, IfOk, List};
ghost use Rattle.expression_lang.specs.CodeExpression.{exp_of};
ghost use Rattle.ac_expr.specs.Fact.{Fact as Plain, stands_for};
ghost use Rattle.ac_expr.specs.Passed.{without_names, where_unchanged};
ghost use Rattle.word_abstract.specs.CodeKnown.{newest_first, lasts};
ghost use Rattle.word_abstract.specs.CodeFacts.{fact_in, whole, known_in};

use expression_lang::{Exp, IsReading};
use rule_parts::is_unnamed;
use std::alloc::{AllocError, Global};

/// That an expression holds, or that it doesn't.
#[derive(Clone, Copy)]
pub(crate) struct Fact<'a> {
    pub(crate) exp: &'a Exp,
    pub(crate) holds: bool,
}

/// What is known at a place of a program, the oldest first: from outside its sequence, and from the
/// guards in it.
#[derive(Clone, Copy)]
pub(crate) struct Known<'a> {
    pub(crate) outer: &'a [Fact<'a>],
    pub(crate) own: &'a [Exp],
}

/// The conditions of an expression under which a part of it stands, the newest first.
#[derive(Drop)]
pub(crate) enum Conditions<'a> {
    None,
    With(&'a Conditions<'a>, Fact<'a>),
}

/// Whether a fact of an expression lasts where the names are bound, and where the state may change.
fn lasts(e: &Exp, names: &[String], changes: bool) -> bool
    ensures { result ≡ lasts (map string_bytes names.now) changes (exp_of e.now) }
{
    is_unnamed(names, e) && !(changes && e.any(&IsReading))
}

// Whether a fact does.
#[tactic(auto, using(crate::proofs::KnownLaws::lasts_alike))]
fn fact_lasts(fact: Fact<'_>, names: &[String], changes: bool) -> bool
    ensures { result
        ≡ lasts (map string_bytes names.now) changes (stands_for (fact_in fact.entry)) }
{
    lasts(fact.exp, names, changes)
}

/// The facts that last.
#[tactic(auto, using(crate::proofs::KnownLaws::lasts_more, crate::proofs::KnownLaws::ends_there))]
pub(crate) fn lasting<'a>(
    alloc: Global,
    facts: Vec<Fact<'a>>,
    names: &[String],
    changes: bool,
) -> Result<Vec<Fact<'a>>, AllocError>
    ensures { IfOk result (λ new. (older : List Plain) →
        newest_first (map fact_in new.items)
        (without_names (map string_bytes names.now) (where_unchanged changes older))
        ≡ without_names (map string_bytes names.now)
        (where_unchanged changes (newest_first (map fact_in facts.entry.items) older))) }
{
    let mut kept = Vec::new(alloc);
    'along: for fact in facts {
        if fact_lasts(fact, names, changes) {
            kept.push(fact)?;
        }
    }
    Ok(kept)
}

/// The guards whose facts last.
#[tactic(auto, using(crate::proofs::KnownLaws::lasts_more, crate::proofs::KnownLaws::ends_there))]
pub(crate) fn lasting_guards(
    alloc: Global,
    guards: Vec<Exp>,
    names: &[String],
    changes: bool,
) -> Result<Vec<Exp>, AllocError>
    ensures { IfOk result (λ new. (older : List Plain) →
        newest_first (map whole new.items)
        (without_names (map string_bytes names.now) (where_unchanged changes older))
        ≡ without_names (map string_bytes names.now)
        (where_unchanged changes (newest_first (map whole guards.items) older))) }
{
    let mut kept = Vec::new(alloc);
    'along: for guard in guards {
        if lasts(&guard, names, changes) {
            kept.push(guard)?;
        }
    }
    Ok(kept)
}

impl<'a> Known<'a> {
    /// Nothing.
    pub(crate) fn none() -> Known<'a>
        ensures { known_in result ≡ [] }
    {
        Known {
            outer: &[],
            own: &[],
        }
    }

    /// The same in one list, for what stands in a part.
    #[tactic(auto, using(crate::proofs::KnownLaws::newest_push, crate::proofs::KnownLaws::newest_taken))]
    pub(crate) fn all(&self, alloc: Global) -> Result<Vec<Fact<'a>>, AllocError>
        ensures { IfOk result (λ facts. newest_first (map fact_in facts.items) []
            ≡ known_in self.now) }
    {
        let mut facts = Vec::new(alloc);
        let mut count = 0;
        'outer: while count < self.outer.len() {
            facts.push(self.outer[count])?;
            count += 1;
        }
        let mut guards = 0;
        'own: while guards < self.own.len() {
            facts.push(Fact {
                exp: &self.own[guards],
                holds: true,
            })?;
            guards += 1;
        }
        Ok(facts)
    }
}
