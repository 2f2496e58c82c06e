//! Trees read as certificates.

ghost use Rattle.std.specs.Prelude.{◌≡◌, ◌≢◌, Some, IfSome, IfNone, map, option_map};
ghost use Rattle.c_values.specs.Types as types;
ghost use Rattle.c_values.specs.CodeTypes.{target_of};
ghost use Rattle.ac_sx.specs.CodeSx.{tree_of, trees_in, word_in, first_of};
ghost use Rattle.expression_text.specs.CodeFault.{Gives};
ghost use Rattle.expression_text.specs.Lists.{list_at};
ghost use Rattle.acceptance.specs.CodeCertificate.{steps_of};
ghost use Rattle.certificate_text.specs.CertificateText as texts;
ghost use Rattle.certificate_text.specs.CertificateReading as reading;
ghost use Rattle.certificate_text.specs.CodeCertificate.{version_of, certificate_of};

use crate::certificate::{Certificate, Version};
use crate::function_reading::function_at;
use ac_sx::{Sx, first, headed};
use acceptance::Steps;
use c_values::Target;
use expression_text::{TextFault, next};
use std::alloc::Global;

/// The certificate that a tree is.
pub fn certificate_at(alloc: Global, tree: &Sx, at: u32) -> Result<(Certificate, u32), TextFault>
    ensures { Gives certificate_of result (reading.certificate_at at (tree_of tree.now)) }
{
    let Some((word, parts)) = headed(tree) else {
        return Err(TextFault::Shape(at));
    };
    if word == "cert" {
        certificate_row(alloc, parts, at)
    } else {
        Err(TextFault::Shape(at))
    }
}

// The certificate of a list at a number, behind its head.
fn certificate_row(alloc: Global, parts: &[Sx], at: u32) -> Result<(Certificate, u32), TextFault>
    ensures { Gives certificate_of result
        (reading.certificate_row at (first_of (trees_in parts.now))) }
{
    let Some((version, others)) = first(parts) else {
        return Err(TextFault::Shape(at));
    };
    let Some(version) = version.word() else {
        return Err(TextFault::Shape(next(next(at))));
    };
    version_by(alloc, version, others, at)
}

fn version_by(
    alloc: Global,
    version: &str,
    parts: &[Sx],
    at: u32,
) -> Result<(Certificate, u32), TextFault>
    ensures { Gives certificate_of result
        (reading.version_by at (Some version.now) (trees_in parts.now)) }
{
    let here = next(next(at));
    if version == "1" {
        functions_at(alloc, Version::One, parts, next(here))
    } else if version == "2" {
        second_row(alloc, parts, at, next(here))
    } else {
        Err(TextFault::Shape(here))
    }
}

// The certificate of a list at a number, whose target is at the inner one.
fn second_row(
    alloc: Global,
    parts: &[Sx],
    at: u32,
    inner: u32,
) -> Result<(Certificate, u32), TextFault>
    ensures { Gives certificate_of result
        (reading.second_row at inner (first_of (trees_in parts.now))) }
{
    let Some((target, others)) = first(parts) else {
        return Err(TextFault::Shape(at));
    };
    let (target, here) = target_at(target, inner)?;
    functions_at(alloc, Version::Two(target), others, here)
}

fn target_at(tree: &Sx, at: u32) -> Result<(Target, u32), TextFault>
    ensures { Gives target_of result (reading.target_at at (tree_of tree.now)) }
{
    match target_in(tree) {
        Some(target) => Ok((target, next(at))),
        None => Err(TextFault::Shape(at)),
    }
}

fn target_in(tree: &Sx) -> Option<Target>
    ensures { option_map target_of result
        ≡ reading.found_in texts.target_word texts.targets (word_in (tree_of tree.now)) }
{
    target_named(tree.word()?)
}

fn target_named(word: &str) -> Option<Target>
    ensures some { IfSome result (λ t. word.now ≡ texts.target_word (target_of t)) }
    ensures none { IfNone result ((t : types.Target) → word.now ≢ texts.target_word t) }
{
    match word {
        "ilp32" => Some(Target::Ilp32),
        "lp64" => Some(Target::Lp64),
        _ => None,
    }
}

fn functions_at(
    alloc: Global,
    version: Version,
    parts: &[Sx],
    at: u32,
) -> Result<(Certificate, u32), TextFault>
    ensures { Gives certificate_of result
        (reading.functions_at (version_of version) at (trees_in parts.now)) }
{
    let (functions, behind) = each_function_at(alloc, parts, at)?;
    Ok((Certificate { version, functions }, behind))
}

fn each_function_at(alloc: Global, parts: &[Sx], at: u32) -> Result<(Vec<Steps>, u32), TextFault>
    ensures { Gives (λ functions. map steps_of functions.items) result
        (list_at reading.function_at at (trees_in parts.now)) }
{
    let mut functions = Vec::new(alloc);
    let mut here = at;
    'parts: for part in parts {
        let (steps, behind) = function_at(alloc, part, here)?;
        functions.push(steps)?;
        here = behind;
    }
    Ok((functions, here))
}
