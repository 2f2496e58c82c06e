//! What is said of a C file that is looked at again.

ghost use Rattle.std.specs.Prelude.{◌≡◌, ◌≤◌, ℕ, List, IfOk, OnOk};
ghost use Rattle.c_values.specs.CodeTypes.{target_of};
ghost use Rattle.remarks.specs.Remark as specs;
ghost use Rattle.remarks.specs.Remark.{OfFile, OfText, fault_lines};

use crate::fault::Fault;
use crate::look::first_fault;
use crate::sentences::sentence;
use ac_base::{ReadTrouble, Shelf, read_whole};
use answers::push;
use c_values::Target;
use itoa::Buffer;
use std::alloc::{AllocError, Global};
use text_places::{place_of, push_marked_line};

/// Bytes of C text that are read.
pub(crate) const SOURCE_LIMIT: u64 = 262_144;

pub(crate) const CHANGED: &str =
    "the file has changed since it was read, so no place in it is shown";

const LONG_FILE: &str = "the file has more than 262144 bytes";

/// What is said of a C file that is typed: a sentence about it, or about another file.
#[derive(Clone, Copy)]
pub(crate) struct Otherwise<'a> {
    pub(crate) file: &'a str,
    pub(crate) sentence: &'a str,
}

/// A sentence about a file, in a line.
pub(crate) fn about(alloc: Global, file: &str, sentence: &str) -> Result<Vec<u8>, AllocError>
    ensures { IfOk result (λ v. v.items ≡ specs.about file.now sentence.now) }
{
    let mut lines = Vec::from_slice(alloc, file.as_bytes())?;
    push_sentence(&mut lines, sentence)?;
    Ok(lines)
}

/// A sentence behind what it is about.
pub(crate) fn push_sentence(lines: &mut Vec<u8>, sentence: &str) -> Result<(), AllocError>
    ensures { OnOk result (lines.new.items ≡ specs.about lines.old.items sentence.now) }
{
    push(lines, ": ")?;
    push(lines, sentence)?;
    push(lines, "\n")
}

/// What is said of a C file for a target: its first fault, with its place; or this where it is typed.
pub(crate) fn of_file<H: Shelf>(
    alloc: Global,
    target: Target,
    file: &str,
    otherwise: Otherwise<'_>,
    shelf: &mut H,
) -> Result<Vec<u8>, AllocError>
    ensures said { IfOk result (λ v. OfFile (H.contents shelf.old) (H.faults shelf.old)
        (H.faults shelf.new) (target_of target) file.now
        (specs.about otherwise.entry.file.now otherwise.entry.sentence.now) v.items) }
    ensures contents { (name : List ℕ) → H.contents shelf.new name ≡ H.contents shelf.old name }
    ensures counts { (name : List ℕ) → H.faults shelf.old name ≤ H.faults shelf.new name }
{
    match read_whole(alloc, shelf, file, SOURCE_LIMIT) {
        Ok(text) => of_text(alloc, target, file, otherwise, &text),
        Err(ReadTrouble::ReadFault) => about(alloc, file, CHANGED),
        Err(ReadTrouble::Limit) => about(alloc, file, LONG_FILE),
        Err(ReadTrouble::Memory) => Err(AllocError),
    }
}

// What is said of the text of a C file.
fn of_text(
    alloc: Global,
    target: Target,
    file: &str,
    otherwise: Otherwise<'_>,
    text: &[u8],
) -> Result<Vec<u8>, AllocError>
    ensures { IfOk result (λ v. OfText (target_of target) file.now
        (specs.about otherwise.entry.file.now otherwise.entry.sentence.now) text.now v.items) }
{
    match first_fault(alloc, target, text)? {
        Some(fault) => fault_lines(alloc, file, text, fault),
        None => about(alloc, otherwise.file, otherwise.sentence),
    }
}

// The place of a fault with what is wrong, and its line.
fn fault_lines(alloc: Global, file: &str, text: &[u8], fault: Fault) -> Result<Vec<u8>, AllocError>
    ensures { IfOk result
        (λ v. v.items ≡ fault_lines file.now text.now fault.cause fault.at) }
{
    let mut lines = Vec::from_slice(alloc, file.as_bytes())?;
    push_place(&mut lines, text, fault.at)?;
    push_sentence(&mut lines, sentence(fault.cause))?;
    push_marked_line(&mut lines, text, fault.at)?;
    Ok(lines)
}

// The line and the column of an offset.
fn push_place(lines: &mut Vec<u8>, text: &[u8], at: usize) -> Result<(), AllocError>
    ensures { OnOk result (lines.new.items ≡ specs.place lines.old.items text.now at) }
{
    let place = place_of(text, at);
    push(lines, ":")?;
    push(lines, Buffer::new().format(place.line))?;
    push(lines, ":")?;
    push(lines, Buffer::new().format(place.column))
}
