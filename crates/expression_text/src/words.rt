//! Words that stand for one thing each.
ghost use Rattle.std.specs.Prelude.{◌≡◌, ◌≢◌, IfSome, IfNone};
ghost use Rattle.c_values.specs.Types as T;
ghost use Rattle.c_values.specs.CodeTypes.{int_type_of};
ghost use Rattle.expression_text.specs.Words as W;
ghost use Rattle.expression_text.specs.Words.{int_type_word, type_head_word};
ghost use Rattle.expression_text.specs.CodeWords.{type_head_of};

use c_values::IntType;

/// The integer type that a word names.
pub(crate) fn int_type(word: &str) -> Option<IntType>
    ensures some { IfSome result (λ i. word.now ≡ int_type_word (int_type_of i)) }
    ensures none { IfNone result ((i : T.IntType) → word.now ≢ int_type_word i) }
{
    match word {
        "char" => Some(IntType::Char),
        "schar" => Some(IntType::SChar),
        "uchar" => Some(IntType::UChar),
        "short" => Some(IntType::Short),
        "ushort" => Some(IntType::UShort),
        "int" => Some(IntType::Int),
        "uint" => Some(IntType::UInt),
        "long" => Some(IntType::Long),
        "ulong" => Some(IntType::ULong),
        "llong" => Some(IntType::LLong),
        "ullong" => Some(IntType::ULLong),
        _ => None,
    }
}

/// What a list that is a type begins with.
#[derive(Clone, Copy)]
pub(crate) enum TypeHead {
    Ptr,
    Struct,
    Array,
}

/// The head that a word is.
pub(crate) fn type_head(word: &str) -> Option<TypeHead>
    ensures some { IfSome result (λ h. word.now ≡ type_head_word (type_head_of h)) }
    ensures none { IfNone result ((h : W.TypeHead) → word.now ≢ type_head_word h) }
{
    match word {
        "ptr" => Some(TypeHead::Ptr),
        "struct" => Some(TypeHead::Struct),
        "array" => Some(TypeHead::Array),
        _ => None,
    }
}

/// The word of an integer type.
pub fn int_type_word(integer: IntType) -> &'static str
    ensures { result.now ≡ int_type_word (int_type_of integer) }
{
    match integer {
        IntType::Char => "char",
        IntType::SChar => "schar",
        IntType::UChar => "uchar",
        IntType::Short => "short",
        IntType::UShort => "ushort",
        IntType::Int => "int",
        IntType::UInt => "uint",
        IntType::Long => "long",
        IntType::ULong => "ulong",
        IntType::LLong => "llong",
        IntType::ULLong => "ullong",
    }
}
