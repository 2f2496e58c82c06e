//! Targets and C types.

ghost use Rattle.std.specs.Prelude.{◌≡◌};
ghost use Rattle.c_values.specs.Types.{width_of, is_signed, address_width};
ghost use Rattle.c_values.specs.Width.{IsWidth};
ghost use Rattle.c_values.specs.CodeTypes.{target_of, int_type_of};

/// The data model: how many bits `long` and pointers have. Both are little-endian.
#[derive(Clone, Copy, Debug, PartialEq, Eq)]
pub enum Target {
    /// `int`, `long` and pointers of 32 bits.
    Ilp32,
    /// `long` and pointers of 64 bits.
    Lp64,
}

/// An integer type. `Char` is unsigned, and differs from `UChar` in name alone.
#[derive(Clone, Copy, Debug, PartialEq, Eq)]
pub enum IntType {
    Char,
    SChar,
    UChar,
    Short,
    UShort,
    Int,
    UInt,
    Long,
    ULong,
    LLong,
    ULLong,
}

/// A type.
#[derive(Debug)]
pub enum CType {
    Int(IntType),
    Void,
    /// A pointer to the type.
    Ptr(Box<CType>),
    /// The struct of the name.
    Struct(String),
    /// So many elements of the type.
    Array(Box<CType>, u32),
}

// A derived drop would call itself once for each level, and a text may nest types deeply.
impl Drop for CType {
    fn drop(mut self) {
        loop {
            match self {
                CType::Int(_) | CType::Void | CType::Struct(_) => return,
                CType::Ptr(inner) | CType::Array(inner, _) => self = Box::into_inner(inner),
            }
        }
    }
}

/// The bits of an integer type.
pub fn width_of(target: Target, ty: IntType) -> u8
    ensures value { result ≡ width_of (target_of target) (int_type_of ty) }
    ensures width { IsWidth result }
{
    match ty {
        IntType::Char | IntType::SChar | IntType::UChar => 8,
        IntType::Short | IntType::UShort => 16,
        IntType::Int | IntType::UInt => 32,
        IntType::Long | IntType::ULong => address_width(target),
        IntType::LLong | IntType::ULLong => 64,
    }
}

/// Whether an integer type is signed.
pub fn is_signed(ty: IntType) -> bool
    ensures { result ≡ is_signed (int_type_of ty) }
{
    matches!(
        ty,
        IntType::SChar | IntType::Short | IntType::Int | IntType::Long | IntType::LLong
    )
}

/// The bits of a pointer.
pub fn address_width(target: Target) -> u8
    ensures value { result ≡ address_width (target_of target) }
    ensures width { IsWidth result }
{
    match target {
        Target::Ilp32 => 32,
        Target::Lp64 => 64,
    }
}
