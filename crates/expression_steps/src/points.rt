//! Points of programs: what may be named there, and what is known.

ghost use Rattle.std.specs.Prelude.{◌≡◌, ◌∷◌, List, IfOk, IfSome, map, string_bytes};
ghost use Rattle.std.specs.Option.{option_map};
ghost use Rattle.c_values.specs.Name.{Name};
ghost use Rattle.expression_lang.specs.Sort as plain;
ghost use Rattle.expression_lang.specs.CodeSort.{scalar_of, sort_value};
ghost use Rattle.expression_lang.specs.CodeExpression.{exp_of};
ghost use Rattle.expression_lang.specs.Sorted.{names_with, scalar_in, program_sort};
ghost use Rattle.monad_lang.specs.CodeProgram.{start_of};
ghost use Rattle.monad_lang.specs.Run.{start_names};
ghost use Rattle.monad_lang.specs.Sorted.{start_scalars};
ghost use Rattle.expression_steps.specs.CodePoint.{names_of, scalars_of, names_behind, names_in, scope_in, known_in, facts_behind};

use ac_expr::{Facts, Sequence, Split};
use c_values::{GlobalVar, Layout};
use expression_lang::{Exp, Scalar, Scope, Sort};
use monad_lang::{Mon, Start};
use program_facts::changes_state;
use program_sorts::program_sort;
use std::alloc::{AllocError, Global};

/// A name in scope, with what its values are.
#[derive(Drop)]
pub struct Binding {
    pub name: String,
    pub scalar: Scalar,
}

/// Names in scope, of which the last one of a name counts.
#[derive(Drop)]
pub enum Scoped<'a> {
    Empty,
    Within(&'a Scoped<'a>, &'a [Binding]),
    /// One link for any number of parts of a sequence, since a chain with a link for each takes as
    /// much of the stack.
    Behind(&'a Scoped<'a>, &'a [PassedPart]),
}

impl Scoped<'_> {
    // The scalar of a name. It calls itself once for each list of names around.
    #[tactic(auto, using(crate::proofs::NamesFound::found_within, crate::proofs::NamesFound::found_behind))]
    fn named(&self, name: &str) -> Option<Scalar>
        ensures { option_map scalar_of result ≡ names_in self.now name.now }
    {
        match self {
            Scoped::Empty => None,
            Scoped::Within(outer, bindings) => {
                let found = outer.named(name);
                among(bindings, name, found)
            }
            Scoped::Behind(outer, parts) => {
                let found = outer.named(name);
                among_parts(parts, name, found)
            }
        }
    }
}

impl Scope for Scoped<'_> {
    ghost use Rattle.expression_steps.specs.CodePoint.{names_in};

    ghost scalars = { λ names x. names_in names x };

    fn scalar(&self, name: &str) -> Option<Scalar> {
        self.named(name)
    }
}

// The scalar of the last of the names that is this one, or else what was found before.
fn among(bindings: &[Binding], name: &str, before: Option<Scalar>) -> Option<Scalar>
    ensures { option_map scalar_of result ≡ names_with (names_of bindings.now)
        (scalars_of bindings.now) (λ _. option_map scalar_of before) name.now }
{
    let mut found = before;
    let mut rest = bindings;
    'along: while let Some((first, others)) = rest.split_first() {
        found = after_name(first.name.as_str(), first.scalar, name, found);
        rest = others;
    }
    found
}

// What is found after one name more.
#[tactic(auto, using(crate::proofs::NamesFound::name_there, crate::proofs::NamesFound::name_elsewhere))]
fn after_name(own: &str, scalar: Scalar, name: &str, found: Option<Scalar>) -> Option<Scalar>
    ensures { (xs : List Name) (ss : List plain.Scalar) →
        names_with (own.now ∷ xs) (scalar_of scalar ∷ ss) (λ _. option_map scalar_of found) name.now
        ≡ names_with xs ss (λ _. option_map scalar_of result) name.now }
{
    if own == name { Some(scalar) } else { found }
}

// The same of names with a scalar for each.
#[tactic(auto, using(crate::proofs::NamesFound::names_told))]
fn among_names(
    names: &[String],
    scalars: &[Scalar],
    name: &str,
    before: Option<Scalar>,
) -> Option<Scalar>
    ensures { option_map scalar_of result ≡ names_with (map string_bytes names.now)
        (map scalar_of scalars.now) (λ _. option_map scalar_of before) name.now }
{
    let mut found = before;
    let mut rest = names;
    let mut left = scalars;
    'along: while let Some((first, others)) = rest.split_first() {
        let Some((scalar, behind)) = left.split_first() else {
            return found;
        };
        found = after_name(first.as_str(), *scalar, name, found);
        rest = others;
        left = behind;
    }
    found
}

// The same of the names of parts that were passed.
#[tactic(auto, using(crate::proofs::NamesFound::part_after))]
fn among_parts(parts: &[PassedPart], name: &str, before: Option<Scalar>) -> Option<Scalar>
    ensures { option_map scalar_of result
        ≡ names_behind parts.now (λ _. option_map scalar_of before) name.now }
{
    let mut found = before;
    let mut rest = parts;
    'along: while let Some((first, others)) = rest.split_first() {
        found = among_names(&first.names, &first.scalars, name, found);
        rest = others;
    }
    found
}

/// What may be named at a point.
#[derive(Clone, Copy)]
pub struct Context<'a> {
    pub layout: &'a Layout,
    pub globals: &'a [GlobalVar],
    pub scope: &'a Scoped<'a>,
}

fn scalar_in(sort: Option<Sort<'_>>) -> Option<Scalar>
    ensures { option_map scalar_of result ≡ scalar_in (option_map sort_value sort.entry) }
{
    match sort {
        Some(Sort::Of(scalar)) => Some(scalar),
        _ => None,
    }
}

/// The scalar of an expression of a program.
pub fn scalar_of(context: &Context<'_>, e: &Exp) -> Option<Scalar>
    ensures { option_map scalar_of result
        ≡ scalar_in (program_sort (scope_in context.now) (exp_of e.now)) }
{
    scalar_in(program_sort(e, context.scope, context.layout, context.globals))
}

/// The names of a loop with the scalars of what it begins with, where each has one.
#[tactic(auto, using(crate::proofs::NamesFound::one_bound, crate::proofs::NamesFound::none_bound, crate::proofs::NamesFound::all_bound, crate::proofs::NamesFound::bound_push))]
pub fn bindings_of(
    alloc: Global,
    context: &Context<'_>,
    starts: &[Start],
) -> Result<Option<Vec<Binding>>, AllocError>
    ensures scalars { IfOk result (λ bound. option_map (λ bs. scalars_of bs.items) bound
        ≡ start_scalars (scope_in context.now) (map start_of starts.now)) }
    ensures names { IfOk result (λ bound. IfSome bound (λ bs.
        names_of bs.items ≡ start_names (map start_of starts.now))) }
{
    let mut all = Vec::new(alloc);
    let mut rest = starts;
    'along: while let Some((start, others)) = rest.split_first() {
        let Some(scalar) = scalar_of(context, &start.exp) else {
            return Ok(None);
        };
        let name = start.name.clone()?;
        all.push(Binding { name, scalar })?;
        rest = others;
    }
    Ok(Some(all))
}

/// A part of a sequence that was passed, with the names of its values and their scalars.
#[derive(Drop)]
pub struct PassedPart {
    pub first: Box<Mon>,
    pub names: Vec<String>,
    pub scalars: Vec<Scalar>,
}

/// The parts that were passed, the first one first, or one of them.
#[derive(Clone, Copy)]
pub enum Passed<'a> {
    Parts(&'a [PassedPart]),
    Part(&'a PassedPart),
}

impl Sequence for Passed<'_> {
    ghost use Rattle.expression_steps.specs.CodePoint.{parts_in, guard_at, changes_at};

    ghost parts = { λ it. parts_in it };

    ghost guard_in = { λ it. guard_at it };

    ghost changes = { λ it. changes_at it };

    fn split(&self) -> Option<Split<'_, Self>> {
        match self {
            Passed::Part(_) => None,
            Passed::Parts(parts) => match parts.split_first() {
                Some((part, rest)) => Some(Split {
                    first: Passed::Part(part),
                    names: &part.names,
                    rest: Passed::Parts(rest),
                }),
                None => None,
            },
        }
    }

    fn guard(&self) -> Option<&Exp> {
        match self {
            Passed::Parts(_) => None,
            Passed::Part(part) => match &*part.first {
                Mon::Guard(e) => Some(e),
                _ => None,
            },
        }
    }

    fn changes_state(&self) -> bool {
        match self {
            Passed::Parts(_) => false,
            Passed::Part(part) => changes_state(&part.first),
        }
    }
}

/// What is known behind the parts. More of them than a `u32` counts don't stand in memory.
#[tactic(auto, using(crate::proofs::PartsPassed::passed_behind))]
pub fn facts_behind<'a>(
    facts: &'a Facts<'a, Passed<'a>>,
    parts: &'a [PassedPart],
) -> Result<Facts<'a, Passed<'a>>, AllocError>
    ensures { IfOk result (λ inner. known_in inner ≡ facts_behind parts.now (known_in facts.now)) }
{
    let Ok(count) = u32::try_from(parts.len()) else {
        return Err(AllocError);
    };
    Ok(facts.pass(Passed::Parts(parts), count))
}
