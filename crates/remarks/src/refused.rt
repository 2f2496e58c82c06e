//! What is said of a certificate that isn't accepted.

ghost use Rattle.std.specs.Prelude.{◌≡◌, ◌≤◌, ℕ, List, IfOk};
ghost use Rattle.std.specs.Option.{option_map};
ghost use Rattle.c_values.specs.CodeTypes.{target_of};
ghost use Rattle.remarks.specs.Remark as specs;
ghost use Rattle.remarks.specs.Remark.{Again, IsSeen, OfFiles, OfRefused, certificate_limit, refused_lines};
ghost use Rattle.remarks.specs.CodeRefused.{IsTold, told_part};

use crate::files::{SOURCE_LIMIT, about};
use ac_base::{ReadTrouble, Shelf, read_whole};
use answers::{Answer, Status, push};
use c_lang::tree::TypedUnit;
use c_values::Target;
use checking::refused_part;
use std::alloc::{AllocError, Global};
use text_answers::{Task, answer_text};

/// Bytes of a certificate that are read.
const CERTIFICATE_LIMIT: u64 = 67_108_864;

const NOT_ACCEPTED: &str =
    "the certificate isn't accepted for this C file: the answer names the function, the step and the node";

const NODE_IS_ABOUT: &str = "the node is about ";

/// What is said of a certificate that isn't accepted for a C file on a target: that it isn't, and
/// the part that the refused node is about, where the files, read again, still have it.
pub(crate) fn of_files<H: Shelf>(
    alloc: Global,
    target: Target,
    file: &str,
    certificate: &str,
    shelf: &mut H,
) -> Result<Vec<u8>, AllocError>
    ensures said { IfOk result (λ v. OfFiles (H.contents shelf.old) (H.faults shelf.old)
        (H.faults shelf.new) (target_of target) file.now certificate.now v.items) }
    ensures contents { (name : List ℕ) → H.contents shelf.new name ≡ H.contents shelf.old name }
    ensures counts { (name : List ℕ) → H.faults shelf.old name ≤ H.faults shelf.new name }
{
    match read_whole(alloc, shelf, file, SOURCE_LIMIT) {
        Ok(text) => of_certificate(alloc, target, &text, certificate, shelf),
        Err(ReadTrouble::ReadFault) => about(alloc, certificate, NOT_ACCEPTED),
        Err(ReadTrouble::Limit) => about(alloc, certificate, NOT_ACCEPTED),
        Err(ReadTrouble::Memory) => Err(AllocError),
    }
}

// The same for a C text.
fn of_certificate<H: Shelf>(
    alloc: Global,
    target: Target,
    text: &[u8],
    file: &str,
    shelf: &mut H,
) -> Result<Vec<u8>, AllocError>
    ensures said { IfOk result (λ v. Again (H.contents shelf.old) (H.faults shelf.old)
        (H.faults shelf.new) file.now certificate_limit (specs.about file.now specs.not_accepted)
        (specs.about file.now specs.not_accepted)
        (OfRefused (target_of target) file.now text.now) v.items) }
    ensures contents { (name : List ℕ) → H.contents shelf.new name ≡ H.contents shelf.old name }
    ensures counts { (name : List ℕ) → H.faults shelf.old name ≤ H.faults shelf.new name }
{
    match read_whole(alloc, shelf, file, CERTIFICATE_LIMIT) {
        Ok(certificate) => of_texts(alloc, target, text, file, &certificate),
        Err(ReadTrouble::ReadFault) => about(alloc, file, NOT_ACCEPTED),
        Err(ReadTrouble::Limit) => about(alloc, file, NOT_ACCEPTED),
        Err(ReadTrouble::Memory) => Err(AllocError),
    }
}

// The same for a C text and the text of a certificate.
fn of_texts(
    alloc: Global,
    target: Target,
    text: &[u8],
    file: &str,
    certificate: &[u8],
) -> Result<Vec<u8>, AllocError>
    ensures { IfOk result
        (λ v. OfRefused (target_of target) file.now text.now certificate.now v.items) }
{
    let shown = shown_part(alloc, target, text, certificate)?;
    lines(alloc, file, shown)
}

// The sentence, and a part that is shown.
fn lines(alloc: Global, file: &str, shown: Option<Vec<u8>>) -> Result<Vec<u8>, AllocError>
    ensures { IfOk result (λ v. v.items
        ≡ refused_lines file.now (option_map (λ part. part.items) shown)) }
{
    let mut lines = about(alloc, file, NOT_ACCEPTED)?;
    match shown {
        Some(shown) => {
            push(&mut lines, NODE_IS_ABOUT)?;
            lines.extend_from_slice(&shown)?;
            Ok(lines)
        }
        None => Ok(lines),
    }
}

// What is shown of the node at which a certificate isn't accepted for a C text.
fn shown_part(
    alloc: Global,
    target: Target,
    text: &[u8],
    certificate: &[u8],
) -> Result<Option<Vec<u8>>, AllocError>
    ensures { IfOk result (λ found. IsSeen (target_of target) text.now certificate.now
        (option_map (λ part. part.items) found)) }
{
    let task = Shows {
        target,
        certificate,
    };
    let answer = answer_text(alloc, text, &task)?;
    Ok(part_of(answer))
}

fn part_of(answer: Answer) -> Option<Vec<u8>>
    ensures { option_map (λ part. part.items) result ≡ told_part answer.status answer.lines.items }
{
    match answer.status {
        Status::No => Some(answer.lines),
        _ => None,
    }
}

/// The part is told that is shown of the node at which a certificate isn't accepted for it.
#[derive(Clone, Copy)]
struct Shows<'a> {
    target: Target,
    certificate: &'a [u8],
}

impl Task for Shows<'_> {
    ghost use Rattle.c_values.specs.CodeTypes.{target_of};
    ghost use Rattle.remarks.specs.CodeRefused.{IsToldOf};

    ghost target_for = { λ task. target_of task.target };

    ghost answers = { λ task. IsToldOf (target_of task.target) task.certificate.now };

    fn target(&self) -> Target {
        self.target
    }

    fn answer(&self, alloc: Global, unit: TypedUnit) -> Result<Answer, AllocError> {
        told(
            alloc,
            refused_part(alloc, &unit, self.target, self.certificate)?,
        )
    }
}

// A part as an answer.
fn told(alloc: Global, part: Option<Vec<u8>>) -> Result<Answer, AllocError>
    ensures { IfOk result (λ a. IsTold a.status a.lines.items
        (option_map (λ shown. shown.items) part)) }
{
    match part {
        Some(lines) => Ok(Answer {
            status: Status::No,
            lines,
        }),
        None => Ok(Answer {
            status: Status::Done,
            lines: Vec::new(alloc),
        }),
    }
}
