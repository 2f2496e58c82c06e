//! What the node is about at which a certificate isn't accepted.

ghost use Rattle.std.specs.Prelude.{◌≡◌, ◌<◌, ◌^◌, None, Err, IfOk, OnOk, length};
ghost use Rattle.std.specs.Option.{option_map};
ghost use Rattle.c_values.specs.CodeTypes as types;
ghost use Rattle.simpl_lang.specs.CodeCommand.{simpl_unit_of};
ghost use Rattle.c_lang.specs.CodeTyped.{unit_of};
ghost use Rattle.c_lang.specs.WellTyped.{IsWellTyped};
ghost use Rattle.ac_sx.specs.Writing.{written};
ghost use Rattle.acceptance.specs.CodePlace as places;
ghost use Rattle.acceptance.specs.CodePlace.{place_of};
ghost use Rattle.refused_parts.specs.CodeParts.{part_of};
ghost use Rattle.certificate_text.specs.CertificateText as texts;
ghost use Rattle.certificate_text.specs.CodeIndex.{index_in};
ghost use Rattle.certificate_text.specs.Answer.{IsCertificateText};
ghost use Rattle.certificate_text.specs.IndexAnswer.{IsIndexOf};
ghost use Rattle.checking.specs.Checked.{apart, target_for};
ghost use Rattle.checking.specs.Refused.{names_apart, AreAtLevels, IsAnswer};
ghost use Rattle.checking.specs.CodeRefused.{phase_of, refused_of};
ghost use Rattle.checking.specs.CodeParts.{IsShownOf, asked_in, place_in};
ghost use Rattle.checking.specs.RefusedPart.{IsShown, part_text, part_tree};

use crate::names::apart;
use crate::refused::{Phase, Refused};
use crate::trials::try_listed;
use crate::verdicts::is_for;
use ac_base::Nobody;
use ac_sx::{Speller, Terms, TreeWriter};
use acceptance::Place;
use c_lang::tree::TypedUnit;
use c_values::Target;
use certificate_text::{CertIndex, read_function, scan};
use command_text::command_into;
use expression_text::TextFault;
use program_text::mon_into;
use refused_parts::{Part, part_at};
use simpl_lang::SimplUnit;
use std::alloc::{AllocError, Global};

/// The part of what a step takes that the node is about at which a certificate isn't accepted for a
/// typed text, as text, with the line's end behind it. It is none where the text isn't that of a
/// certificate for the target with the functions of the C text, and where that is accepted.
///
/// No more is held of the certificate than its index and one function. A text of 2^32 bytes or more
/// is answered as where memory runs out.
pub fn refused_part(
    alloc: Global,
    unit: &TypedUnit,
    target: Target,
    text: &[u8],
) -> Result<Option<Vec<u8>>, AllocError>
    requires typed { IsWellTyped (unit_of unit.now) }
    ensures { IfOk result (λ found. IsShown (types.target_of target) text.now (unit_of unit.now)
        (option_map (λ shown. shown.items) found)) }
{
    if text.len() > u32::MAX as usize {
        return Err(AllocError);
    }
    match scan(alloc, text) {
        Ok(index) => part_by_index(alloc, unit, target, text, index),
        Err(TextFault::Memory) => Err(AllocError),
        Err(TextFault::NotText | TextFault::Deep | TextFault::Shape(_)) => Ok(None),
    }
}

// The same of a certificate's text, by its index.
fn part_by_index(
    alloc: Global,
    unit: &TypedUnit,
    target: Target,
    text: &[u8],
    index: CertIndex,
) -> Result<Option<Vec<u8>>, AllocError>
    requires typed { IsWellTyped (unit_of unit.now) }
    requires scanned { IsIndexOf text.now (index_in index) }
    requires short { length text.now < 2 ^ 32 }
    ensures { IfOk result (λ found. IsShown (types.target_of target) text.now (unit_of unit.now)
        (option_map (λ shown. shown.items) found)) }
{
    if !is_for(index.version, target) {
        return Ok(None);
    }
    match apart(&unit.functions, &index.functions) {
        Some((_at, _name)) => Ok(None),
        None => part_of_listed(alloc, unit, target, text, index),
    }
}

// The same of a certificate for the target whose functions are the unit's in its order.
fn part_of_listed(
    alloc: Global,
    unit: &TypedUnit,
    target: Target,
    text: &[u8],
    index: CertIndex,
) -> Result<Option<Vec<u8>>, AllocError>
    requires typed { IsWellTyped (unit_of unit.now) }
    requires scanned { IsIndexOf text.now (index_in index) }
    requires short { length text.now < 2 ^ 32 }
    requires for_target { (c : texts.Certificate) → IsCertificateText text.now c →
        target_for c.version ≡ types.target_of target }
    requires listed { (c : texts.Certificate) → IsCertificateText text.now c →
        apart (unit_of unit.now) c.functions ≡ None }
    ensures { IfOk result (λ found. IsShown (types.target_of target) text.now (unit_of unit.now)
        (option_map (λ shown. shown.items) found)) }
{
    let tried = try_listed(alloc, unit, text, index, &Nobody)?;
    match tried.answer {
        Ok(()) => Ok(None),
        Err(refused) => part_in(alloc, &tried.generated, text, &tried.index, refused),
    }
}

// The part at the place where a certificate isn't accepted for a unit.
fn part_in(
    alloc: Global,
    u: &SimplUnit,
    text: &[u8],
    index: &CertIndex,
    refused: Refused,
) -> Result<Option<Vec<u8>>, AllocError>
    requires scanned { IsIndexOf text.now (index_in index.now) }
    requires short { length text.now < 2 ^ 32 }
    requires listed { (c : texts.Certificate) → IsCertificateText text.now c →
        names_apart (simpl_unit_of u.now) c.functions ≡ None }
    requires at_levels { (c : texts.Certificate) → IsCertificateText text.now c →
        AreAtLevels (simpl_unit_of u.now) c.functions }
    requires refused { (c : texts.Certificate) → IsCertificateText text.now c →
        IsAnswer (simpl_unit_of u.now) c.functions (Err (refused_of refused)) }
    ensures { (c : texts.Certificate) → IsCertificateText text.now c → IfOk result
        (λ found. IsShownOf (simpl_unit_of u.now) c.functions
        (option_map (λ shown. shown.items) found)) }
{
    let Some(place) = place_in(refused) else {
        return Ok(None);
    };
    let function = &u.functions[refused.function as usize];
    let mut terms = Terms::new(alloc);
    let steps = read_function(alloc, text, index, refused.function, &mut terms)?;
    match part_at(alloc, &function.body, &steps, place)? {
        Some(part) => Ok(Some(spelt(alloc, part)?)),
        None => Ok(None),
    }
}

// The place in a function, where a refusal is of one.
fn place_in(refused: Refused) -> Option<Place>
    ensures { option_map place_of result ≡ place_in (refused_of refused) }
{
    let phase = asked_in(refused.phase)?;
    Some(Place {
        phase,
        node: refused.node,
    })
}

// What is asked of a function, where that isn't as it should be.
fn asked_in(phase: Phase) -> Option<acceptance::Phase>
    ensures { option_map places.phase_of result ≡ asked_in (phase_of phase) }
{
    match phase {
        Phase::List => None,
        Phase::Level => Some(acceptance::Phase::Level),
        Phase::Exception => Some(acceptance::Phase::Exception),
        Phase::Local => Some(acceptance::Phase::Local),
        Phase::Heap => Some(acceptance::Phase::Heap),
        Phase::Word => Some(acceptance::Phase::Word),
        Phase::Equal => Some(acceptance::Phase::Equal),
    }
}

// The text of a part.
fn spelt(alloc: Global, part: Part<'_>) -> Result<Vec<u8>, AllocError>
    ensures { IfOk result (λ text. text.items ≡ part_text (part_of part.entry)) }
{
    let mut text = Speller::new(alloc);
    part_into(alloc, &mut text, part)?;
    text.finish()
}

fn part_into<W: TreeWriter>(alloc: Global, out: &mut W, part: Part<'_>) -> Result<(), AllocError>
    ensures { OnOk result (W.state out.new
        ≡ written W.writing (W.state out.old) (part_tree (part_of part.entry))) }
{
    match part {
        Part::Command(c) => command_into(alloc, out, c),
        Part::Program(m) => mon_into(alloc, out, m),
    }
}
