//! Words, numbers and layouts at values that are known from elsewhere.

ghost use Rattle.std.specs.Prelude.{◌≡◌, ◌<◌, true, [], map, IfOk};
ghost use Rattle.c_values.specs.Types as types;
ghost use Rattle.c_values.specs.Layout.{Incomplete, are_built};
ghost use Rattle.c_values.specs.CodeLayout.{struct_def_of};

use c_values::views::word;
use c_values::{
    CType, IntType, Layout, LayoutFault, Number, NumberOp, PathStep, ShiftOp, StructDef, Target,
    UnaryOp, Value, Word, WordOp, WordTest, align_of, cast, fits, int, is_object, nat, number_op,
    offset_of, size_of, width_of, word_op, word_shift, word_test, word_unary, zeros,
};
use std::alloc::{AllocError, Global};
use std::test::Fail;

const LEAST: i64 = -2147483648;

fn number(n: i64) -> Number {
    Number::new(n < 0, u128::from(n.unsigned_abs()))
}

// The word of 32 bits.
fn int_word(n: i64) -> Word
    ensures { result.width ≡ 32 }
{
    word(32, number(n))
}

#[test]
fn operations_on_words(rt: HostRuntime) {
    let rows = [
        (WordOp::Wsdiv, -7, 2, -3),
        (WordOp::Wsdiv, 7, -2, -3),
        (WordOp::Wsdiv, 7, 0, 0),
        (WordOp::Wsdiv, LEAST, -1, LEAST),
        (WordOp::Wsmod, -7, 2, -1),
        (WordOp::Wsmod, 7, -2, 1),
        (WordOp::Wsmod, 7, 0, 7),
        (WordOp::Wsmod, LEAST, -1, 0),
        (WordOp::Wudiv, -2, 2, 2147483647),
        (WordOp::Wumod, -1, 10, 5),
        (WordOp::Wadd, -1, 1, 0),
        (WordOp::Wsub, 0, 1, -1),
        (WordOp::Wmul, 65536, 65536, 0),
        (WordOp::Wand, 12, 10, 8),
        (WordOp::Wor, 12, 10, 14),
        (WordOp::Wxor, 12, 10, 6),
    ];
    for (op, a, b, want) in rows {
        assert!(rt;
            word_op(op, int_word(a), int_word(b)) == int_word(want),
            "{op:?} {a} {b}"
        );
    }
    let shifts = [
        (ShiftOp::Wshl, 1, 31, LEAST),
        (ShiftOp::Wshl, 1, 32, 0),
        (ShiftOp::Wshl, 1, -1, 0),
        (ShiftOp::Wushr, -1, 31, 1),
        (ShiftOp::Wsshr, -1, 1, -1),
        (ShiftOp::Wsshr, -8, 2, -2),
        (ShiftOp::Wsshr, -8, 32, -1),
        (ShiftOp::Wsshr, 8, 32, 0),
    ];
    for (op, a, n, want) in shifts {
        assert!(rt;
            word_shift(op, int_word(a), number(n)) == int_word(want),
            "{op:?} {a} {n}"
        );
    }
    assert!(rt; word_unary(UnaryOp::Wneg, int_word(LEAST)) == int_word(LEAST));
    assert!(rt; word_unary(UnaryOp::Wnot, int_word(5)) == int_word(-6));
    let tests = [
        (WordTest::Wult, -1, 1, false),
        (WordTest::Wule, 1, 1, true),
        (WordTest::Wslt, -1, 1, true),
        (WordTest::Wsle, 1, -1, false),
    ];
    for (test, a, b, want) in tests {
        assert!(rt;
            word_test(test, int_word(a), int_word(b)) == want,
            "{test:?} {a} {b}"
        );
    }
}

#[test]
fn words_as_numbers(rt: HostRuntime) {
    // 255 and 1 as ints, and their sum as an unsigned char.
    let sum = word_op(WordOp::Wadd, int_word(255), int_word(1));
    assert!(rt; cast(false, 8, sum).bits() == 0);
    assert!(rt; cast(true, 64, int_word(-2)).bits() == u64::MAX - 1);
    assert!(rt; cast(false, 64, int_word(-2)).bits() == 4294967294);
    assert!(rt; nat(int_word(-1)) == number(4294967295));
    assert!(rt; int(int_word(-1)) == number(-1));
    assert!(rt; word(16, number(-1)).bits() == 65535);
    assert!(rt; word(64, Number::new(true, u128::MAX)).bits() == 1);
    assert!(rt; word(16, number(7)).width() == 16);
}

#[test]
fn operations_on_numbers(rt: HostRuntime) {
    let rows = [
        (NumberOp::Add, 5, -7, -2),
        (NumberOp::Sub, -5, -7, 2),
        (NumberOp::Mul, -3, 4, -12),
        (NumberOp::Div, -7, 2, -3),
        (NumberOp::Div, -1, 2, 0),
        (NumberOp::Div, 7, 0, 0),
        (NumberOp::Mod, -7, 2, -1),
        (NumberOp::Mod, 7, 0, 7),
        (NumberOp::Neg, 0, 9, 0),
    ];
    for (op, a, b, want) in rows {
        assert!(rt;
            number_op(op, number(a), number(b)) == Some(number(want)),
            "{op:?} {a} {b}"
        );
    }
    let greatest = Number::new(false, u128::MAX);
    assert!(rt; number_op(NumberOp::Add, greatest, number(1)) == None);
    assert!(rt;
        number_op(NumberOp::Mul, greatest, number(-1)) == Some(Number::new(true, u128::MAX))
    );
    assert!(rt; number_op(NumberOp::Neg, greatest, greatest).map(|n| n.negative()) == Some(true));
}

#[test]
fn exact_results(rt: HostRuntime) {
    let rows = [
        (NumberOp::Add, IntType::UInt, -1, 1, false),
        (NumberOp::Add, IntType::UInt, -2, 1, true),
        (NumberOp::Sub, IntType::UInt, 0, 1, false),
        (NumberOp::Add, IntType::Int, 2147483647, 1, false),
        (NumberOp::Sub, IntType::Int, LEAST, 1, false),
        (NumberOp::Sub, IntType::Int, -2147483647, 1, true),
        (NumberOp::Div, IntType::Int, LEAST, -1, false),
        (NumberOp::Neg, IntType::Int, LEAST, 0, false),
        (NumberOp::Neg, IntType::Int, 2147483647, 0, true),
        (NumberOp::Mul, IntType::Int, 65536, 32768, false),
    ];
    for (op, ty, a, b, want) in rows {
        let width = width_of(Target::Ilp32, ty);
        let (first, second) = (word(width, number(a)), word(width, number(b)));
        assert!(rt;
            fits(Target::Ilp32, op, ty, first, second) == want,
            "{op:?} {a} {b}"
        );
    }
    let long = width_of(Target::Lp64, IntType::Long);
    assert!(rt; long == 64);
    let (most, one) = (word(long, number(2147483647)), word(long, number(1)));
    assert!(rt; fits(Target::Lp64, NumberOp::Add, IntType::Long, most, one));
}

// A byte `a` and an `unsigned` `b`; then an array of so many `unsigned` and a pointer to the first
// struct.
fn structs(alloc: Global, length: u32) -> Result<Vec<StructDef>, AllocError>
    requires { 0 < length }
    ensures { IfOk result (λ ds. (t : types.Target) →
        are_built t (λ x. Incomplete) [] (map struct_def_of ds.items) ≡ true) }
{
    let mut small = Vec::new(alloc);
    small.push((String::from_str(alloc, "a")?, CType::Int(IntType::UChar)))?;
    small.push((String::from_str(alloc, "b")?, CType::Int(IntType::UInt)))?;
    let mut large = Vec::new(alloc);
    let element = Box::new(alloc, CType::Int(IntType::UInt))?;
    large.push((
        String::from_str(alloc, "all")?,
        CType::Array(element, length),
    ))?;
    let mut structs = Vec::new(alloc);
    structs.push(StructDef {
        name: String::from_str(alloc, "p")?,
        members: small,
    })?;
    structs.push(StructDef {
        name: String::from_str(alloc, "q")?,
        members: large,
    })?;
    Ok(structs)
}

// The size and the alignment of a type, where it is an object's.
fn measured(l: &Layout, t: &CType) -> Option<(u32, u32)> {
    if is_object(l, t) {
        Some((size_of(l, t), align_of(l, t)))
    } else {
        None
    }
}

#[test]
fn places_in_structs(rt: HostRuntime) -> Result<(), Fail> {
    let alloc = rt.alloc();
    let layout = Layout::build(Target::Ilp32, structs(alloc, 16384)?)?;
    assert!(rt; layout.target() == Target::Ilp32);
    assert!(rt; layout.structs().len() == 2);
    let small = CType::Struct(String::from_str(alloc, "p")?);
    assert!(rt; measured(&layout, &small) == Some((8, 4)));
    let row = CType::Array(Box::new(alloc, small)?, 3);
    assert!(rt; is_object(&layout, &row));
    let paths = [
        ([PathStep::Index(0), PathStep::Field(0)], Some(0)),
        ([PathStep::Index(0), PathStep::Field(1)], Some(4)),
        ([PathStep::Index(2), PathStep::Field(1)], Some(20)),
        ([PathStep::Index(3), PathStep::Field(0)], None),
        ([PathStep::Index(0), PathStep::Field(2)], None),
        ([PathStep::Index(0), PathStep::Index(0)], None),
        ([PathStep::Field(0), PathStep::Index(0)], None),
    ];
    for (path, want) in paths {
        assert!(rt; offset_of(&layout, &row, &path) == want, "{path:?}");
    }
    Ok(())
}

#[test]
fn sizes_of_types(rt: HostRuntime) -> Result<(), Fail> {
    let alloc = rt.alloc();
    for (target, bytes) in [(Target::Ilp32, 4), (Target::Lp64, 8)] {
        let layout = Layout::build(target, structs(alloc, 16384)?)?;
        let large = CType::Struct(String::from_str(alloc, "q")?);
        assert!(rt; measured(&layout, &large) == Some((65536, 4)));
        let pointer = CType::Ptr(Box::new(alloc, large)?);
        assert!(rt; measured(&layout, &pointer) == Some((bytes, bytes)));
        let unknown = CType::Struct(String::from_str(alloc, "r")?);
        assert!(rt; measured(&layout, &unknown) == None);
        assert!(rt; measured(&layout, &CType::Void) == None);
    }
    Ok(())
}

#[test]
fn structs_too_large(rt: HostRuntime) -> Result<(), Fail> {
    let alloc = rt.alloc();
    match Layout::build(Target::Ilp32, structs(alloc, 16385)?) {
        Ok(_) => assert!(rt; false, "65,540 bytes have a layout"),
        Err(fault) => assert!(rt; fault == LayoutFault::Large(1)),
    }
    Ok(())
}

#[test]
fn nested_arrays(rt: HostRuntime) -> Result<(), Fail> {
    let alloc = rt.alloc();
    let layout = Layout::build(Target::Lp64, Vec::new(alloc))?;
    let mut t = CType::Int(IntType::UInt);
    for _ in 0..100000 {
        t = CType::Array(Box::new(alloc, t)?, u32::MAX);
    }
    assert!(rt; !is_object(&layout, &t));
    Ok(())
}

#[test]
fn zeros_of_nested_arrays(rt: HostRuntime) -> Result<(), Fail> {
    let alloc = rt.alloc();
    let layout = Layout::build(Target::Lp64, structs(alloc, 3)?)?;
    let mut t = CType::Struct(String::from_str(alloc, "q")?);
    for _ in 0..100000 {
        t = CType::Array(Box::new(alloc, t)?, 1);
    }
    let value = zeros(alloc, &layout, &t)?;
    assert!(rt; matches!(&value, Value::Parts(parts) if parts.len() == 1));
    Ok(())
}
