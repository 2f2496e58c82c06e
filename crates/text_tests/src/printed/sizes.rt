//! Tests of long and of deep programs.

use crate::printed::units::unit_of;
use abs_print::print;
use c_values::CType;
use expression_lang::{Exp, Path};
use monad_lang::Mon;
use std::alloc::{AllocError, Global};
use std::process::Abort;
use std::test::Fail;

// The first line.
const HEAD: usize = 9;

fn is_so_long(rt: &impl Abort, alloc: Global, body: Mon, length: usize) -> Result<(), Fail> {
    let text = print(alloc, &unit_of(alloc, body)?)?;
    assert!(rt; text.len() == length, "{} instead of {length}", text.len());
    Ok(())
}

// So many guards that hold, and then nothing.
fn guards(alloc: Global, count: u32) -> Result<Mon, AllocError> {
    let mut m = Mon::Ret(Vec::new(alloc));
    for _ in 0..count {
        let first = Box::new(alloc, Mon::Guard(Exp::Truth(true)))?;
        m = Mon::Bind(first, Vec::new(alloc), Box::new(alloc, m)?);
    }
    Ok(m)
}

// So many conjunctions, each the last part of the one before.
fn conjunction(alloc: Global, count: u32) -> Result<Exp, AllocError> {
    let mut e = Exp::Truth(false);
    for _ in 0..count {
        let first = Box::new(alloc, Exp::Truth(true))?;
        e = Exp::And(first, Box::new(alloc, e)?);
    }
    Ok(e)
}

// A part of a global by so many steps.
fn part(alloc: Global, count: u32) -> Result<Exp, AllocError> {
    let mut path = Path::Here;
    for _ in 0..count {
        path = Path::Field(5, Box::new(alloc, path)?);
    }
    Ok(Exp::Global(String::from_str(alloc, "g")?, path))
}

// Whether an array of so many layers is there.
fn tagged(alloc: Global, count: u32) -> Result<Exp, AllocError> {
    let mut ty = CType::Void;
    for _ in 0..count {
        ty = CType::Array(Box::new(alloc, ty)?, 1);
    }
    Ok(Exp::Tagged(ty, Box::new(alloc, Exp::Truth(true))?))
}

#[test]
fn long_texts_are_printed(rt: HostRuntime) -> Result<(), Fail> {
    let alloc = rt.alloc();
    is_so_long(&rt, alloc, guards(alloc, 1_000_000)?, HEAD + 11_000_000 + 9)?;
    let e = conjunction(alloc, 1_000_000)?;
    is_so_long(&rt, alloc, Mon::Guard(e), HEAD + 7_000_000 + 11)?;
    let e = part(alloc, 1_000_000)?;
    is_so_long(&rt, alloc, Mon::Guard(e), HEAD + 6_000_000 + 19)?;
    let e = tagged(alloc, 80_000)?;
    is_so_long(&rt, alloc, Mon::Guard(e), HEAD + 10 * 80_000 + 25)?;
    Ok(())
}

// So many equations, each the first part of the one before.
fn deep_expression(alloc: Global, count: u32) -> Result<Exp, AllocError> {
    let mut e = Exp::Truth(false);
    for _ in 0..count {
        let first = Box::new(alloc, e)?;
        e = Exp::Eq(first, Box::new(alloc, Exp::Truth(true))?);
    }
    Ok(e)
}

// So many choices, each the first part of the one before.
fn deep_program(alloc: Global, count: u32) -> Result<Mon, AllocError> {
    let mut m = Mon::Ret(Vec::new(alloc));
    for _ in 0..count {
        let done = Box::new(alloc, Mon::Ret(Vec::new(alloc)))?;
        m = Mon::If(Exp::Truth(true), Box::new(alloc, m)?, done);
    }
    Ok(m)
}

// So many sequences, each the first part of the one before.
fn deep_sequence(alloc: Global, count: u32) -> Result<Mon, AllocError> {
    let mut m = Mon::Ret(Vec::new(alloc));
    for _ in 0..count {
        let last = Box::new(alloc, Mon::Ret(Vec::new(alloc)))?;
        m = Mon::Bind(Box::new(alloc, m)?, Vec::new(alloc), last);
    }
    Ok(m)
}

#[test]
fn deep_expressions_are_printed(rt: HostRuntime) -> Result<(), Fail> {
    let alloc = rt.alloc();
    let e = deep_expression(alloc, 4096)?;
    is_so_long(&rt, alloc, Mon::Guard(e), HEAD + 7 * 4096 + 11)
}

// At each level `if #t`, `else` and `return`, and within all of them `return`.
#[test]
fn deep_choices_are_printed(rt: HostRuntime) -> Result<(), Fail> {
    let alloc = rt.alloc();
    let m = deep_program(alloc, 4096)?;
    is_so_long(&rt, alloc, m, HEAD + 3 * 4096 * 4096 + 25 * 4096 + 9)
}

// At each level but one `do`, at each level `return`, and within all of them `return`.
#[test]
fn deep_sequences_are_printed(rt: HostRuntime) -> Result<(), Fail> {
    let alloc = rt.alloc();
    let m = deep_sequence(alloc, 4096)?;
    is_so_long(&rt, alloc, m, HEAD + 2 * 4096 * 4096 + 12 * 4096 + 4)
}
