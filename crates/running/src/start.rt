//! Where both sides of a run begin.

use c_lang::tree::{TypedFn, TypedUnit};
use c_memory::ByteHeap;
use memory_text::MemoryText;

/// A function of a typed text, where it stands among its functions, and a memory of the text with the
/// heap that is made of it.
#[derive(Clone, Copy)]
pub(crate) struct Start<'a> {
    pub(crate) unit: &'a TypedUnit,
    pub(crate) function: &'a TypedFn,
    pub(crate) position: u32,
    pub(crate) memory: &'a MemoryText,
    pub(crate) heap: &'a ByteHeap,
}

/// What a side came to, as the verdict asks for it.
#[derive(Clone, Copy)]
pub(crate) enum Came {
    Value,
    /// The program fails.
    Failed,
    /// Any other end.
    Stopped,
}
