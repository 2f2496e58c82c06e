//! The part of what a step takes that a place of a function is about.

ghost use Rattle.std.specs.Prelude.{◌≡◌, ◌<◌, Err, IfOk, MatchOption};
ghost use Rattle.std.specs.Option.{option_map};
ghost use Rattle.expression_lang.specs.Signature as signatures;
ghost use Rattle.simpl_lang.specs.Command as commands;
ghost use Rattle.simpl_lang.specs.CodeCommand.{simpl_of};
ghost use Rattle.monad_lang.specs.CodeProgram.{mon_of};
ghost use Rattle.rule_trees.specs.RuleTree.{last_number};
ghost use Rattle.acceptance.specs.CodeCertificate.{steps_of};
ghost use Rattle.acceptance.specs.CodePlace.{place_of};
ghost use Rattle.acceptance.specs.Verdict.{IsFunctionVerdict};
ghost use Rattle.refused_parts.specs.Parts as parts;
ghost use Rattle.refused_parts.specs.Parts.{IsPartAt};
ghost use Rattle.refused_parts.specs.CodeParts.{part_of};

use crate::walks::numbered;
use acceptance::{Phase, Place, Steps};
use monad_lang::Mon;
use simpl_lang::Simpl;
use std::alloc::{AllocError, Global};

/// A part of what a step takes.
#[derive(Clone, Copy)]
pub enum Part<'a> {
    Command(&'a Simpl),
    Program(&'a Mon),
}

/// The part that the node at a place of a function is about: of what the place's step takes, or of
/// a program between. The function's body and its steps are given; the place is one where they
/// aren't accepted. Of an expression's node it is the program that the expression stands in.
///
/// Past the last number of 32 bits every node has that number, and the part is that of one of them.
pub fn part_at<'a>(
    alloc: Global,
    body: &'a Simpl,
    steps: &'a Steps,
    place: Place,
) -> Result<Option<Part<'a>>, AllocError>
    // Where the place is the verdict on the function, the part is there, and the node is about it.
    ensures { (u : commands.SimplUnit) (f : commands.SimplFn) (s : signatures.Signature) →
        f.body ≡ simpl_of body.now →
        IsFunctionVerdict u f s (steps_of steps.now) (Err (place_of place)) →
        place.node < last_number → IfOk result (λ found. MatchOption (option_map part_of found) ⊥
        (IsPartAt u f s (steps_of steps.now) (place_of place))) }
{
    let node = place.node;
    match place.phase {
        Phase::Level => Ok(Some(Part::Command(body))),
        Phase::Exception => Ok(command(numbered(alloc, &steps.exception.tree, body, node)?)),
        Phase::Local => {
            let left = &*steps.exception.program;
            Ok(command(numbered(alloc, &steps.local.tree, left, node)?))
        }
        Phase::Heap => match &steps.heap {
            Some(step) => {
                let left = &*steps.local.program;
                Ok(program(numbered(alloc, &step.tree, left, node)?))
            }
            None => Ok(Some(Part::Program(&*steps.local.program))),
        },
        Phase::Word => {
            let left = steps.before_words();
            Ok(program(numbered(alloc, &steps.word.tree, left, node)?))
        }
        Phase::Equal => {
            let left = &*steps.word.program;
            Ok(program(numbered(alloc, &steps.equal.tree, left, node)?))
        }
    }
}

fn command(found: Option<&Simpl>) -> Option<Part<'_>>
    ensures { option_map part_of result
        ≡ option_map (λ m. parts.Command m) (option_map (λ c. simpl_of c.now) found.entry) }
{
    match found {
        Some(c) => Some(Part::Command(c)),
        None => None,
    }
}

fn program(found: Option<&Mon>) -> Option<Part<'_>>
    ensures { option_map part_of result
        ≡ option_map (λ m. parts.Program m) (option_map (λ m. mon_of m.now) found.entry) }
{
    match found {
        Some(m) => Some(Part::Program(m)),
        None => None,
    }
}
