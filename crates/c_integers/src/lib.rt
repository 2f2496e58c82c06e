//! Integer types among each other: ranks, promotion, the usual conversions, and the types of numbers.
#![tactic(auto)]

ghost use Rattle.std.specs.Prelude.{◌≡◌, Bool, true, false, find, map, pos};
ghost use Rattle.std.specs.Option.{option_map};
ghost use Rattle.c_values.specs.CodeTypes.{target_of, int_type_of};
ghost use Rattle.c_values.specs.Types.{is_signed};
ghost use Rattle.c_values.specs.Number.{is_of_type};
ghost use Rattle.c_integers.specs.Integers as integers;
ghost use Rattle.c_lex.specs.Number as lex;

use c_values::{IntType, Number, Target, is_of_type, is_signed, width_of};

// Types of higher rank hold more.
fn rank(ty: IntType) -> u8
    ensures { result ≡ integers.rank (int_type_of ty) }
{
    match ty {
        IntType::Char | IntType::SChar | IntType::UChar => 1,
        IntType::Short | IntType::UShort => 2,
        IntType::Int | IntType::UInt => 3,
        IntType::Long | IntType::ULong => 4,
        IntType::LLong | IntType::ULLong => 5,
    }
}

/// The type that an operand is promoted to.
pub fn promoted(ty: IntType) -> IntType
    ensures { int_type_of result ≡ integers.promoted (int_type_of ty) }
{
    if rank(ty) < 3 { IntType::Int } else { ty }
}

// The unsigned type of the same rank.
fn unsigned_of(ty: IntType) -> IntType
    ensures { int_type_of result ≡ integers.unsigned_of (int_type_of ty) }
{
    match ty {
        IntType::Int => IntType::UInt,
        IntType::Long => IntType::ULong,
        IntType::LLong => IntType::ULLong,
        IntType::Char
        | IntType::SChar
        | IntType::UChar
        | IntType::Short
        | IntType::UShort
        | IntType::UInt
        | IntType::ULong
        | IntType::ULLong => ty,
    }
}

// The common type of a signed type and an unsigned one, both promoted.
fn mixed(target: Target, signed: IntType, unsigned: IntType) -> IntType
    ensures { int_type_of result ≡ integers.mixed (target_of target) (int_type_of signed)
        (int_type_of unsigned) }
{
    if rank(signed) <= rank(unsigned) {
        unsigned
    } else if width_of(target, unsigned) < width_of(target, signed) {
        signed
    } else {
        unsigned_of(signed)
    }
}

// The common type of two promoted types.
fn common(target: Target, first: IntType, second: IntType) -> IntType
    ensures { int_type_of result
        ≡ integers.common (target_of target) (is_signed (int_type_of first))
        (is_signed (int_type_of second)) (int_type_of first) (int_type_of second) }
{
    match (is_signed(first), is_signed(second)) {
        (true, false) => mixed(target, first, second),
        (false, true) => mixed(target, second, first),
        _ => higher(first, second),
    }
}

// The one of higher rank.
fn higher(first: IntType, second: IntType) -> IntType
    ensures { int_type_of result ≡ integers.higher (int_type_of first) (int_type_of second) }
{
    if rank(first) < rank(second) {
        second
    } else {
        first
    }
}

/// The type at which two operands meet: that of the usual arithmetic conversions.
pub fn usual(target: Target, first: IntType, second: IntType) -> IntType
    ensures { int_type_of result ≡ integers.usual (target_of target) (int_type_of first)
        (int_type_of second) }
{
    common(target, promoted(first), promoted(second))
}

/// The type of a number: the first one that holds it, by whether it is decimal, whether it has a `u`, and how many `l`.
pub fn number_type(
    target: Target,
    value: u64,
    decimal: bool,
    unsigned: bool,
    longs: u8,
) -> Option<IntType>
    ensures { option_map int_type_of result
        ≡ integers.number_type (target_of target) value decimal unsigned longs }
{
    first_holding(target, candidates(decimal, unsigned, longs), value)
}

// The first type that holds a value.
fn first_holding(target: Target, types: &[IntType], value: u64) -> Option<IntType>
    ensures { result ≡ find
        (λ ty. is_of_type (target_of target) (int_type_of ty) (pos value)) types.now }
{
    types.iter().copied().find(|ty| holds(target, *ty, value))
}

fn holds(target: Target, ty: IntType, value: u64) -> bool
    ensures { result ≡ is_of_type (target_of target) (int_type_of ty) (pos value) }
{
    is_of_type(target, ty, Number::new(false, u128::from(value)))
}

// The types that a number may have, in the order in which they are tried.
fn candidates(decimal: bool, unsigned: bool, longs: u8) -> &'static [IntType]
    ensures { map int_type_of result.now
        ≡ map integers.integer_type (lex.types_of decimal unsigned longs) }
{
    if unsigned {
        unsigned_candidates(longs)
    } else if decimal {
        decimal_candidates(longs)
    } else {
        other_candidates(longs)
    }
}

fn decimal_candidates(longs: u8) -> &'static [IntType]
    ensures { map int_type_of result.now
        ≡ map integers.integer_type (lex.types_of true false longs) }
{
    match longs {
        0 => &[IntType::Int, IntType::Long, IntType::LLong],
        1 => &[IntType::Long, IntType::LLong],
        _ => &[IntType::LLong],
    }
}

fn unsigned_candidates(longs: u8) -> &'static [IntType]
    ensures { (decimal : Bool) → map int_type_of result.now
        ≡ map integers.integer_type (lex.types_of decimal true longs) }
{
    match longs {
        0 => &[IntType::UInt, IntType::ULong, IntType::ULLong],
        1 => &[IntType::ULong, IntType::ULLong],
        _ => &[IntType::ULLong],
    }
}

// Octal and hexadecimal ones may be unsigned without a `u`.
fn other_candidates(longs: u8) -> &'static [IntType]
    ensures { map int_type_of result.now
        ≡ map integers.integer_type (lex.types_of false false longs) }
{
    match longs {
        0 => &[
            IntType::Int,
            IntType::UInt,
            IntType::Long,
            IntType::ULong,
            IntType::LLong,
            IntType::ULLong,
        ],
        1 => &[
            IntType::Long,
            IntType::ULong,
            IntType::LLong,
            IntType::ULLong,
        ],
        _ => &[IntType::LLong, IntType::ULLong],
    }
}
