//! Answers: a status with the lines that go to the sink, made whole before the first byte is
//! written.

ghost use Rattle.std.specs.Prelude.{◌≡◌, ◌++◌, IfOk, OnOk, codes};
ghost use Rattle.answers.specs.declared.status.Status.{Status};

use crate::status::Status;
use std::alloc::{AllocError, Global};

/// A status with the lines of the answer.
#[derive(Drop)]
pub struct Answer {
    pub status: Status,
    pub lines: Vec<u8>,
}

/// An answer of this text.
pub fn line(alloc: Global, status: Status, text: &str) -> Result<Answer, AllocError>
    ensures { IfOk result (λ a. (a.status ≡ status) × (a.lines.items ≡ text.now)) }
{
    Ok(Answer {
        status,
        lines: Vec::from_slice(alloc, text.as_bytes())?,
    })
}

/// The answer to a file that couldn't be read.
pub fn read_fault(alloc: Global, file: &str) -> Result<Answer, AllocError>
    ensures { IfOk result
        (λ a. (a.status ≡ Status.ReadFault)
        × (a.lines.items ≡ codes "read fault: " ++ (file.now ++ codes "\n"))) }
{
    let mut lines = Vec::from_slice(alloc, b"read fault: ")?;
    push(&mut lines, file)?;
    push(&mut lines, "\n")?;
    Ok(Answer {
        status: Status::ReadFault,
        lines,
    })
}

/// Some text behind the lines so far.
pub fn push(lines: &mut Vec<u8>, text: &str) -> Result<(), AllocError>
    ensures { OnOk result (lines.new.items ≡ lines.old.items ++ text.now) }
{
    lines.extend_from_slice(text.as_bytes())
}
