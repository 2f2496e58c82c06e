//! Tables of conversions.

ghost use Rattle.std.specs.Prelude.{◌<◌};

use c_integers::{number_type, usual};
use c_values::{IntType, Target};

const TYPES: [IntType; 11] = [
    IntType::Char,
    IntType::SChar,
    IntType::UChar,
    IntType::Short,
    IntType::UShort,
    IntType::Int,
    IntType::UInt,
    IntType::Long,
    IntType::ULong,
    IntType::LLong,
    IntType::ULLong,
];

// Which row and column of the tables a type has.
fn class(ty: IntType) -> usize
    ensures { result < 6 }
{
    match ty {
        IntType::UInt => 1,
        IntType::Long => 2,
        IntType::ULong => 3,
        IntType::LLong => 4,
        IntType::ULLong => 5,
        IntType::Char
        | IntType::SChar
        | IntType::UChar
        | IntType::Short
        | IntType::UShort
        | IntType::Int => 0,
    }
}

// The types at which int, unsigned, long, unsigned long, long long and unsigned long long meet each
// other, by C99 6.3.1.8.
fn table(target: Target) -> [[IntType; 6]; 6] {
    let int = IntType::Int;
    let uint = IntType::UInt;
    let long = IntType::Long;
    let ulong = IntType::ULong;
    let llong = IntType::LLong;
    let ullong = IntType::ULLong;
    match target {
        Target::Ilp32 => [
            [int, uint, long, ulong, llong, ullong],
            [uint, uint, ulong, ulong, llong, ullong],
            [long, ulong, long, ulong, llong, ullong],
            [ulong, ulong, ulong, ulong, llong, ullong],
            [llong, llong, llong, llong, llong, ullong],
            [ullong, ullong, ullong, ullong, ullong, ullong],
        ],
        Target::Lp64 => [
            [int, uint, long, ulong, llong, ullong],
            [uint, uint, long, ulong, llong, ullong],
            [long, long, long, ulong, llong, ullong],
            [ulong, ulong, ulong, ulong, ullong, ullong],
            [llong, llong, llong, ullong, llong, ullong],
            [ullong, ullong, ullong, ullong, ullong, ullong],
        ],
    }
}

#[test]
fn usual_conversions(rt: HostRuntime) {
    for target in [Target::Ilp32, Target::Lp64] {
        let expected = table(target);
        for first in TYPES {
            for second in TYPES {
                assert!(rt; usual(target, first, second) == expected[class(first)][class(second)]);
            }
        }
    }
}

// Numbers without suffixes.
#[test]
fn numbers(rt: HostRuntime) {
    for (target, value, is_decimal, expected) in [
        (Target::Lp64, 2_147_483_648, true, Some(IntType::Long)),
        (Target::Ilp32, 2_147_483_648, true, Some(IntType::LLong)),
        (Target::Ilp32, 2_147_483_648, false, Some(IntType::UInt)),
        (Target::Lp64, 9_223_372_036_854_775_808, true, None),
    ] {
        assert!(rt;
            number_type(target, value, is_decimal, false, 0) == expected,
            "{value}"
        );
    }
}
