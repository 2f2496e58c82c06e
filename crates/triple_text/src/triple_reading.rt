//! Trees read as triples.
ghost use Rattle.std.specs.Prelude.{◌≡◌, Some, map};
ghost use Rattle.ac_sx.specs.CodeSx.{tree_of, trees_in, first_of};
ghost use Rattle.expression_text.specs.CodeFault.{Gives};
ghost use Rattle.expression_text.specs.Lists.{list_at};
ghost use Rattle.triple_lang.specs.CodeDeriv.{triple_of};
ghost use Rattle.triple_text.specs.Parts.{five_of};
ghost use Rattle.triple_text.specs.TripleReading as reading;

use crate::deriv_reading::deriv_at;
use crate::logicals::logicals_at;
use crate::parts::five;
use ac_sx::{Sx, first, headed};
use expression_text::{TextFault, exp_at, name_at, next};
use std::alloc::Global;
use triple_lang::Triple;

/// The triples that a tree is.
pub(crate) fn triples_at(alloc: Global, tree: &Sx, at: u32) -> Result<(Vec<Triple>, u32), TextFault>
    ensures { Gives (λ triples. map triple_of triples.items) result
        (reading.triples_at at (tree_of tree.now)) }
{
    let Some((word, parts)) = headed(tree) else {
        return Err(TextFault::Shape(at));
    };
    if word == "triples" {
        version_row(alloc, parts, at)
    } else {
        Err(TextFault::Shape(at))
    }
}

// The triples of a list at a number, behind its head.
fn version_row(alloc: Global, parts: &[Sx], at: u32) -> Result<(Vec<Triple>, u32), TextFault>
    ensures { Gives (λ triples. map triple_of triples.items) result
        (reading.version_row at (first_of (trees_in parts.now))) }
{
    let Some((version, others)) = first(parts) else {
        return Err(TextFault::Shape(at));
    };
    let here = next(next(at));
    let Some(version) = version.word() else {
        return Err(TextFault::Shape(here));
    };
    version_by(alloc, version, others, here)
}

// The triples behind a version at a number.
fn version_by(
    alloc: Global,
    version: &str,
    parts: &[Sx],
    at: u32,
) -> Result<(Vec<Triple>, u32), TextFault>
    ensures { Gives (λ triples. map triple_of triples.items) result
        (reading.version_by at (Some version.now) (trees_in parts.now)) }
{
    if version == "1" {
        each_triple_at(alloc, parts, next(at))
    } else {
        Err(TextFault::Shape(at))
    }
}

fn each_triple_at(alloc: Global, parts: &[Sx], at: u32) -> Result<(Vec<Triple>, u32), TextFault>
    ensures { Gives (λ triples. map triple_of triples.items) result
        (list_at reading.triple_at at (trees_in parts.now)) }
{
    let mut triples = Vec::new(alloc);
    let mut here = at;
    'parts: for part in parts {
        let (triple, behind) = triple_at(alloc, part, here)?;
        triples.push(triple)?;
        here = behind;
    }
    Ok((triples, here))
}

/// The triple that a tree is.
pub(crate) fn triple_at(alloc: Global, tree: &Sx, at: u32) -> Result<(Triple, u32), TextFault>
    ensures { Gives triple_of result (reading.triple_at at (tree_of tree.now)) }
{
    let Some((word, parts)) = headed(tree) else {
        return Err(TextFault::Shape(at));
    };
    if word == "triple" {
        triple_row(alloc, parts, at, next(next(at)))
    } else {
        Err(TextFault::Shape(at))
    }
}

// The triple of a list at a number, whose parts begin at the inner one.
fn triple_row(alloc: Global, parts: &[Sx], at: u32, inner: u32) -> Result<(Triple, u32), TextFault>
    ensures { Gives triple_of result
        (reading.triple_row at inner (five_of (trees_in parts.now))) }
{
    let Some((function, logicals, before, after, derivation)) = five(parts) else {
        return Err(TextFault::Shape(at));
    };
    let (function, here) = name_at(alloc, function, inner)?;
    let (logicals, here) = logicals_at(alloc, logicals, here)?;
    let (before, here) = exp_at(alloc, before, here)?;
    let (after, here) = exp_at(alloc, after, here)?;
    let (derivation, here) = deriv_at(alloc, derivation, here)?;
    let derivation = Box::into_inner(derivation);
    Ok((
        Triple {
            function,
            logicals,
            before,
            after,
            derivation,
        },
        here,
    ))
}
