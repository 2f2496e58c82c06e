//! Why a text has no tokens.
ghost use Rattle.std.specs.Prelude.{◌≡◌, Some};
ghost use Rattle.c_lex.specs.Unsupported.{unsupported_text};
ghost use Rattle.c_lex.specs.declared.fault.LexFault.TheVariants.{Memory};

use std::alloc::{AllocError, AllocFailed};
use std::fmt;
use thiserror::Error;

/// Why a text has no tokens: what stands at the first place where no token does, and the offset of that place.
#[derive(Clone, Copy, Debug, PartialEq, Eq, Error)]
pub enum LexFault {
    /// A byte that begins no token, or a quote that begins no character constant.
    #[error("bad byte at {0}")]
    BadByte(usize),
    /// A digit that begins no number, or a number whose value no type of its suffix holds.
    #[error("bad number at {0}")]
    BadNumber(usize),
    /// A `/*` without its end.
    #[error("open comment at {0}")]
    OpenComment(usize),
    /// A word or a mark of C that the program doesn't take.
    #[error("unsupported {0} at {1}")]
    Unsupported(Unsupported, usize),
    /// A name of more than 63 bytes.
    #[error("long name at {0}")]
    LongName(usize),
    /// Memory ran out.
    #[error("out of memory")]
    Memory,
}

impl From<AllocError> for LexFault {
    ghost from_gives = { λ _ e. e ≡ Memory };

    fn from(_error: AllocError) -> LexFault {
        LexFault::Memory
    }
}

impl<T: Drop> From<AllocFailed<T>> for LexFault {
    ghost from_gives = { λ _ e. e ≡ Memory };

    fn from(_error: AllocFailed<T>) -> LexFault {
        LexFault::Memory
    }
}

/// The words and marks of C that the program doesn't take.
#[derive(Clone, Copy, Debug, PartialEq, Eq)]
pub enum Unsupported {
    /// `asm`
    Asm,
    /// `auto`
    Auto,
    /// `double`
    Double,
    /// `float`
    Float,
    /// `goto`
    Goto,
    /// `register`
    Register,
    /// `restrict`
    Restrict,
    /// `union`
    Union,
    /// `volatile`
    Volatile,
    /// `_Bool`
    Bool,
    /// `_Complex`
    Complex,
    /// `_Imaginary`
    Imaginary,
    /// `__asm__`
    GnuAsm,
    /// `__attribute__`
    Attribute,
    /// `__extension__`
    Extension,
    /// `"`
    StringQuote,
    /// `...`
    Ellipsis,
    /// `#`
    Hash,
}

impl Unsupported {
    /// How it is written.
    pub fn text(self) -> &'static str
        ensures { result.now ≡ unsupported_text self }
    {
        match self {
            Unsupported::Asm => "asm",
            Unsupported::Auto => "auto",
            Unsupported::Double => "double",
            Unsupported::Float => "float",
            Unsupported::Goto => "goto",
            Unsupported::Register => "register",
            Unsupported::Restrict => "restrict",
            Unsupported::Union => "union",
            Unsupported::Volatile => "volatile",
            Unsupported::Bool => "_Bool",
            Unsupported::Complex => "_Complex",
            Unsupported::Imaginary => "_Imaginary",
            Unsupported::GnuAsm => "__asm__",
            Unsupported::Attribute => "__attribute__",
            Unsupported::Extension => "__extension__",
            Unsupported::StringQuote => "\"",
            Unsupported::Ellipsis => "...",
            Unsupported::Hash => "#",
        }
    }
}

impl fmt::Display for Unsupported {
    ghost output = { λ u. Some (unsupported_text u) };

    fn fmt<W: fmt::Write>(&self, f: &mut fmt::Formatter<W>) -> fmt::Result {
        f.write_str(self.text())
    }
}
