//! Sorts and values of expressions that are known from elsewhere.

ghost use Rattle.std.specs.Prelude.{◌≡◌, true, []};
ghost use Rattle.std.specs.Option.{IsSome};
ghost use Rattle.expression_lang.specs.Sort.{sort_of};
ghost use Rattle.expression_lang.specs.CodeExpression.{exp_of};
ghost use Rattle.expression_lang.specs.CodeState.{scope_in};

use c_memory::ByteHeap;
use c_values::{CType, IntType, Layout, Number, NumberOp, Target, Value, Word};
use expression_lang::{
    Binder, Env, EvalFault, Exp, Kind, Names, Path, Scalar, Sort, eval, sort_of,
};
use std::alloc::{AllocError, Global};
use std::test::Fail;

fn truth(alloc: Global, truth: bool) -> Result<Box<Exp>, AllocError> {
    Ok(Box::new(alloc, Exp::Truth(truth))?)
}

fn operation(alloc: Global, op: NumberOp, a: u128, b: u128) -> Result<Box<Exp>, AllocError> {
    let a = Box::new(alloc, Exp::Number(Number::new(false, a)))?;
    let b = Box::new(alloc, Exp::Number(Number::new(false, b)))?;
    Ok(Box::new(alloc, Exp::Arith(op, a, b))?)
}

// A test that adds two numbers to 2^128.
fn wide_test(alloc: Global) -> Result<Box<Exp>, AllocError> {
    let sum = operation(alloc, NumberOp::Add, u128::MAX, 1)?;
    let zero = Box::new(alloc, Exp::Number(Number::new(false, 0)))?;
    Ok(Box::new(alloc, Exp::Lt(sum, zero))?)
}

// Whether an expression without names is well-sorted.
fn is_sorted(e: &Exp, l: &Layout) -> bool
    ensures { result ≡ true → IsSome (sort_of (scope_in l.now [] []) (exp_of e.now)) }
{
    let names = Names::new();
    sort_of(e, &names, l, &[]).is_some()
}

// The value of an expression without names, in a heap whose words at 4096 are 7 and 8.
fn value_of(alloc: Global, e: &Exp) -> Result<Result<Value, EvalFault>, Fail> {
    let l = Layout::build(Target::Ilp32, Vec::new(alloc))?;
    let words = Vec::from_slice(alloc, &[7, 0, 0, 0, 8, 0, 0, 0])?;
    let heap = ByteHeap::new(alloc, &l, &[(4096, words)], &[])?;
    let env: Env = Vec::new(alloc);
    if is_sorted(e, &l) {
        Ok(eval(alloc, e, &env, &heap, &l, &[], &[]))
    } else {
        Err(Fail::from("not well-sorted"))
    }
}

fn is_wide(alloc: Global, e: &Exp) -> Result<bool, Fail> {
    let value = value_of(alloc, e)?;
    Ok(matches!(value, Err(EvalFault::Wide(_, _, _))))
}

#[test]
fn operations_at_the_limit(rt: HostRuntime) -> Result<(), Fail> {
    let rows = [
        (NumberOp::Add, u128::MAX, 0, false),
        (NumberOp::Add, u128::MAX, 1, true),
        (NumberOp::Sub, 0, u128::MAX, false),
        (NumberOp::Mul, 1 << 64, u128::from(u64::MAX), false),
        (NumberOp::Mul, 1 << 64, 1 << 64, true),
    ];
    for (op, a, b, wide) in rows {
        let e = operation(rt.alloc(), op, a, b)?;
        assert!(rt; is_wide(rt.alloc(), &e)? == wide, "{op:?}");
    }
    Ok(())
}

// Whether a test that is too wide is evaluated behind this truth value.
fn is_evaluated(alloc: Global, left: bool, head: &str) -> Result<bool, Fail> {
    let left = truth(alloc, left)?;
    let right = wide_test(alloc)?;
    match head {
        "and" => is_wide(alloc, &Exp::And(left, right)),
        "or" => is_wide(alloc, &Exp::Or(left, right)),
        "imp" => is_wide(alloc, &Exp::Imp(left, right)),
        "if" => is_wide(alloc, &Exp::If(left, right, truth(alloc, true)?)),
        _ => Err(Fail::from("no such head")),
    }
}

#[test]
fn operands_that_are_left_open(rt: HostRuntime) -> Result<(), Fail> {
    for (head, left) in [("and", true), ("or", false), ("imp", true), ("if", true)] {
        assert!(rt; is_evaluated(rt.alloc(), left, head)?, "{head}");
        assert!(rt; !is_evaluated(rt.alloc(), !left, head)?, "{head}");
    }
    Ok(())
}

// An array of two `unsigned`, which are at 4096.
fn pair(alloc: Global) -> Result<(CType, Box<Exp>), AllocError> {
    let word = Box::new(alloc, CType::Int(IntType::UInt))?;
    let pointer = Box::new(alloc, Exp::Word(Word::new(32, 4096)))?;
    Ok((CType::Array(word, 2), pointer))
}

// The number of a sign and a magnitude; zero has none.
fn number(negative: bool, magnitude: u128) -> Number {
    Number::new(negative && magnitude != 0, magnitude)
}

// A path to an element.
fn element(alloc: Global, negative: bool, magnitude: u128) -> Result<Path, AllocError> {
    let index = Exp::Number(number(negative, magnitude));
    let here = Box::new(alloc, Path::Here)?;
    Ok(Path::Index(Box::new(alloc, index)?, here))
}

// The value at a path from there.
fn load(alloc: Global, path: Path) -> Result<Exp, AllocError> {
    let (ty, pointer) = pair(alloc)?;
    Ok(Exp::Load(ty, pointer, path))
}

// The address of a path from there.
fn at(alloc: Global, path: Path) -> Result<Exp, AllocError> {
    let (ty, pointer) = pair(alloc)?;
    Ok(Exp::At(ty, pointer, path))
}

// The address so many words from there.
fn padd(alloc: Global, count: Number) -> Result<Exp, AllocError> {
    let (_, pointer) = pair(alloc)?;
    let count = Box::new(alloc, Exp::Number(count))?;
    Ok(Exp::Padd(CType::Int(IntType::UInt), pointer, count))
}

// Whether an expression without names is that word of 32 bits.
fn is_word(alloc: Global, e: &Exp, bits: u32) -> Result<bool, Fail> {
    let value = value_of(alloc, e)?.ok().ok_or("no value")?;
    Ok(value == Value::Word(Word::new(32, u64::from(bits))))
}

#[test]
fn indices_of_any_size(rt: HostRuntime) -> Result<(), Fail> {
    let alloc = rt.alloc();
    // 4 * 2^127 is 0 modulo 2^32, and 4 * -(2^127 - 1) is 4.
    let rows = [
        (false, 1, 4100, 8),
        (false, 1 << 127, 4096, 7),
        (true, 1 << 127, 4096, 7),
        (true, (1 << 127) - 1, 4100, 8),
    ];
    for (negative, magnitude, address, bits) in rows {
        let path = element(alloc, negative, magnitude)?;
        assert!(rt; is_word(alloc, &load(alloc, path)?, bits)?, "{magnitude}");
        let path = element(alloc, negative, magnitude)?;
        assert!(rt; is_word(alloc, &at(alloc, path)?, address)?, "{magnitude}");
        let index = number(negative, magnitude);
        assert!(rt;
            is_word(alloc, &padd(alloc, index)?, address)?,
            "{magnitude}"
        );
    }
    Ok(())
}

#[test]
fn types_of_any_size(rt: HostRuntime) -> Result<(), Fail> {
    let alloc = rt.alloc();
    let l = Layout::build(Target::Lp64, Vec::new(alloc))?;
    let mut ty = CType::Int(IntType::UInt);
    for _ in 0..1000u32 {
        ty = CType::Array(Box::new(alloc, ty)?, u32::MAX);
    }
    let pointer = Box::new(alloc, Exp::Word(Word::new(64, 4096)))?;
    let e = Exp::PtrOk(ty, pointer);
    assert!(rt; sort_of(&e, &Names::new(), &l, &[]).is_none());
    Ok(())
}

#[test]
fn names_that_hide_others(rt: HostRuntime) -> Result<(), Fail> {
    let alloc = rt.alloc();
    let l = Layout::build(Target::Lp64, Vec::new(alloc))?;
    let outer = Names::new();
    let outer = outer.push("x", Scalar::Word(8));
    let inner = outer.push("x", Scalar::Truth);
    let e = Exp::Var(String::from_str(alloc, "x")?);
    let sort = sort_of(&e, &inner, &l, &[]);
    assert!(rt; matches!(sort, Some(Sort::Of(Scalar::Truth))));
    Ok(())
}

#[test]
fn names_of_binders(rt: HostRuntime) -> Result<(), Fail> {
    let alloc = rt.alloc();
    let mut binders = Vec::new(alloc);
    for (name, kind) in [
        ("x", Kind::Bool),
        ("y", Kind::Int(32)),
        ("x", Kind::Word(16)),
    ] {
        let name = String::from_str(alloc, name)?;
        binders.push(Binder { name, kind })?;
    }
    let outer = Names::new();
    let outer = outer.push("y", Scalar::Truth);
    let outer = outer.push("z", Scalar::Num);
    let inner = outer.push_all(&binders);
    assert!(rt; inner.get("x") == Some(Scalar::Word(16)));
    assert!(rt; inner.get("y") == Some(Scalar::Word(32)));
    assert!(rt; inner.get("z") == Some(Scalar::Num));
    assert!(rt; inner.get("w") == None);
    Ok(())
}

#[test]
fn long_paths(rt: HostRuntime) -> Result<(), Fail> {
    let alloc = rt.alloc();
    let mut path = Path::Here;
    for _ in 0..100000u32 {
        path = Path::Field(0, Box::new(alloc, path)?);
    }
    let e = Exp::Global(String::from_str(alloc, "g")?, path);
    let copy = e.copy(alloc)?;
    let l = Layout::build(Target::Lp64, Vec::new(alloc))?;
    assert!(rt; sort_of(&copy, &Names::new(), &l, &[]).is_none());
    Ok(())
}

#[test]
fn deep_expressions(rt: HostRuntime) -> Result<(), Fail> {
    let alloc = rt.alloc();
    let mut e = truth(alloc, true)?;
    for _ in 0..4096u32 {
        e = Box::new(alloc, Exp::Not(e))?;
    }
    let copy = e.copy(alloc)?;
    assert!(rt; copy.same(&e));
    let value = value_of(alloc, &copy)?.ok().ok_or("no value")?;
    assert!(rt; value == Value::Truth(true));
    Ok(())
}

// The test of a switch is such an `or`, and may have as many labels.
#[test]
fn long_disjunctions(rt: HostRuntime) -> Result<(), Fail> {
    let alloc = rt.alloc();
    let mut e = truth(alloc, true)?;
    for _ in 1..32768u32 {
        e = Box::new(alloc, Exp::Or(truth(alloc, false)?, e))?;
    }
    let copy = e.copy(alloc)?;
    let value = value_of(alloc, &copy)?.ok().ok_or("no value")?;
    assert!(rt; value == Value::Truth(true));
    Ok(())
}
