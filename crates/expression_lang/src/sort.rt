//! Sorts of values, levels of programs and kinds of names.

ghost use Rattle.std.specs.Prelude.{◌≡◌};
ghost use Rattle.expression_lang.specs.Sort.{word_sort_of};
ghost use Rattle.expression_lang.specs.CodeExpression.{kind_of};
ghost use Rattle.expression_lang.specs.CodeSort.{scalar_of};

use c_values::CType;

/// What a value is that has no parts.
#[derive(Clone, Copy, Debug, PartialEq, Eq)]
pub enum Scalar {
    /// A word of so many bits.
    Word(u8),
    Num,
    Truth,
}

/// What a value is: a scalar, or the parts of a struct or an array.
#[derive(Clone, Copy)]
pub enum Sort<'a> {
    Of(Scalar),
    Parts(&'a CType),
}

/// What a function's program works on.
#[derive(Clone, Copy, Debug, PartialEq, Eq)]
pub enum Level {
    /// Bytes and words.
    Bytes,
    /// One heap for each type, and words.
    Words,
    /// One heap for each type, and numbers.
    Numbers,
}

/// How a word of so many bits is seen: as itself, by its unsigned or by its signed value; or a
/// truth value.
#[derive(Clone, Copy, Debug, PartialEq, Eq)]
pub enum Kind {
    Word(u8),
    Nat(u8),
    Int(u8),
    Bool,
}

/// What the values of a kind are before words become numbers.
pub fn scalar_of_kind(kind: Kind) -> Scalar
    ensures { scalar_of result ≡ word_sort_of (kind_of kind) }
{
    match kind {
        Kind::Word(width) | Kind::Nat(width) | Kind::Int(width) => Scalar::Word(width),
        Kind::Bool => Scalar::Truth,
    }
}
