//! Why a C text is refused.

use c_lex::Unsupported;
use c_limits::Limit;
use typing_rules::TypeKind;

/// Why a C text is refused.
#[derive(Clone, Copy, Debug, PartialEq, Eq)]
pub enum Cause {
    /// A byte that begins no token, or a quote that begins no character constant.
    BadByte,
    /// A digit that begins no number, or a number that no type holds.
    BadNumber,
    /// A comment without its end.
    OpenComment,
    /// A word or a mark of C that isn't taken.
    Unsupported(Unsupported),
    /// A name of more than 63 bytes.
    LongName,
    /// No tree spells the tokens.
    Syntax,
    /// The tree passes a limit.
    Limit(Limit),
    /// The first bad node.
    Typing(TypeKind),
}

/// The first fault of a C text.
#[derive(Clone, Copy, Debug, PartialEq, Eq)]
pub struct Fault {
    /// What it is.
    pub cause: Cause,
    /// The offset of its place.
    pub at: usize,
}
