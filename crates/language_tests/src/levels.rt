//! Tests of levels and of reasons.

ghost use Rattle.std.specs.Prelude.{◌≡◌, IfOk};

use c_lang::tree::{Destination, Expr, Statement, Statements, TypedFn, TypedUnit, Use};
use c_levels::reasons::reason;
use c_levels::{Modes, Reason, default_modes};
use c_values::{CType, IntType, Layout, Target};
use expression_lang::Level;
use std::alloc::{AllocError, Global};
use std::test::Fail;

fn text(alloc: Global, text: &str) -> Result<String, AllocError> {
    String::from_str(alloc, text)
}

fn pointer_to(alloc: Global, ty: CType) -> Result<CType, AllocError> {
    Ok(CType::Ptr(Box::new(alloc, ty)?))
}

fn local(alloc: Global, name: &str, ty: CType) -> Result<Expr, AllocError> {
    Ok(Expr::Local(text(alloc, name)?, ty))
}

fn next(alloc: Global, first: Statement, rest: Statements) -> Result<Statements, AllocError> {
    let first = Box::new(alloc, first)?;
    Ok(Statements::Next(first, Box::new(alloc, rest)?))
}

// A function without result, parameters and locals.
fn function(alloc: Global, name: &str, body: Statements) -> Result<TypedFn, AllocError> {
    Ok(TypedFn {
        name: text(alloc, name)?,
        result: None,
        params: Vec::new(alloc),
        locals: Vec::new(alloc),
        folds_cast: false,
        body,
    })
}

// A text of these functions, without structs and globals.
fn unit(alloc: Global, functions: Vec<TypedFn>) -> Result<TypedUnit, Fail>
    ensures { IfOk result (λ u. u.functions.items ≡ functions.items) }
{
    Ok(TypedUnit {
        layout: Layout::build(Target::Ilp32, Vec::new(alloc))?,
        globals: Vec::new(alloc),
        functions,
    })
}

// unsigned char *c; c = (unsigned char *)p;
fn casting(alloc: Global, name: &str) -> Result<TypedFn, AllocError> {
    let p = local(alloc, "p", pointer_to(alloc, CType::Int(IntType::UInt))?)?;
    let cast = Expr::Convert(
        pointer_to(alloc, CType::Int(IntType::UChar))?,
        Box::new(alloc, p)?,
    );
    let target = Destination::ToLocal(
        text(alloc, "c")?,
        pointer_to(alloc, CType::Int(IntType::UChar))?,
    );
    let body = next(alloc, Statement::Assign(target, cast), Statements::None)?;
    function(alloc, name, body)
}

// A call of a function, and nothing else.
fn calling(alloc: Global, name: &str, callee: &str) -> Result<TypedFn, AllocError> {
    let call = Statement::Call(1, text(alloc, callee)?, Vec::new(alloc), Use::NoResult);
    let body = next(alloc, call, Statements::None)?;
    function(alloc, name, body)
}

// b1 calls b0, which casts; b2 calls b1; n calls w, which calls itself.
fn levels_unit(alloc: Global) -> Result<TypedUnit, Fail> {
    let mut functions = Vec::new(alloc);
    functions.push(calling(alloc, "b2", "b1")?)?;
    functions.push(calling(alloc, "b1", "b0")?)?;
    functions.push(casting(alloc, "b0")?)?;
    functions.push(calling(alloc, "n", "w")?)?;
    functions.push(calling(alloc, "w", "w")?)?;
    unit(alloc, functions)
}

// The names of a line.
fn names(alloc: Global, line: &str) -> Result<Vec<String>, AllocError> {
    let mut names = Vec::new(alloc);
    for name in line.split(' ') {
        names.push(text(alloc, name)?)?;
    }
    Ok(names)
}

// Whether the functions have these levels.
fn are_shown(alloc: Global, modes: &Modes, levels: &str) -> Result<bool, Fail> {
    Ok(format!(in alloc; "{:?}", modes.levels)?.as_str() == levels)
}

#[test]
fn default_levels_and_reasons(rt: HostRuntime) -> Result<(), Fail> {
    let alloc = rt.alloc();
    let u = levels_unit(alloc)?;
    let modes = default_modes(alloc, &u, &[], &names(alloc, "w b0")?)?;
    assert!(rt; are_shown(alloc, &modes, "[Bytes, Bytes, Bytes, Numbers, Words]")?);
    assert!(rt; u.functions.len() == 5);
    assert!(rt; reason(&u, &modes, 0) == Reason::Calls(1));
    assert!(rt; reason(&u, &modes, 1) == Reason::Calls(2));
    assert!(rt; reason(&u, &modes, 2) == Reason::Cast);
    Ok(())
}

#[test]
fn chosen_levels_and_reasons(rt: HostRuntime) -> Result<(), Fail> {
    let alloc = rt.alloc();
    let u = levels_unit(alloc)?;
    let bytes = names(alloc, "n w")?;
    let modes = default_modes(alloc, &u, &bytes, &bytes)?;
    assert!(rt; are_shown(alloc, &modes, "[Bytes, Bytes, Bytes, Bytes, Bytes]")?);
    assert!(rt; u.functions.len() == 5);
    assert!(rt; reason(&u, &modes, 3) == Reason::Calls(4));
    assert!(rt; reason(&u, &modes, 4) == Reason::Calls(4));
    Ok(())
}

#[test]
fn a_chosen_level_and_its_reason(rt: HostRuntime) -> Result<(), Fail> {
    let alloc = rt.alloc();
    let u = levels_unit(alloc)?;
    let modes = default_modes(alloc, &u, &names(alloc, "n")?, &[])?;
    assert!(rt; are_shown(alloc, &modes, "[Bytes, Bytes, Bytes, Bytes, Numbers]")?);
    assert!(rt; u.functions.len() == 5);
    assert!(rt; reason(&u, &modes, 3) == Reason::Chosen);
    Ok(())
}

// The function of a number, which calls another.
fn link(alloc: Global, own: u32, other: u32) -> Result<TypedFn, AllocError> {
    let name = format!(in alloc; "f{own}")?;
    let callee = format!(in alloc; "f{other}")?;
    calling(alloc, name.as_str(), callee.as_str())
}

// So many functions, each of which calls the next; the last casts.
fn rising(alloc: Global, count: u32) -> Result<TypedUnit, Fail> {
    let mut functions = Vec::new(alloc);
    for k in 0..count {
        functions.push(link(alloc, k, k.saturating_add(1))?)?;
    }
    let last = format!(in alloc; "f{count}")?;
    functions.push(casting(alloc, last.as_str())?)?;
    unit(alloc, functions)
}

// The first casts, and each of so many others calls the one before.
fn falling(alloc: Global, count: u32) -> Result<TypedUnit, Fail> {
    let mut functions = Vec::new(alloc);
    functions.push(casting(alloc, "f0")?)?;
    for k in 0..count {
        functions.push(link(alloc, k.saturating_add(1), k)?)?;
    }
    unit(alloc, functions)
}

// How many functions work on bytes.
fn on_bytes(alloc: Global, u: &TypedUnit) -> Result<usize, AllocError> {
    let modes = default_modes(alloc, u, &[], &[])?;
    Ok(
        modes
            .levels
            .iter()
            .filter(|level| **level == Level::Bytes)
            .count(),
    )
}

#[test]
fn long_chains_of_callers(rt: HostRuntime) -> Result<(), Fail> {
    assert!(rt; on_bytes(rt.alloc(), &rising(rt.alloc(), 1023)?)? == 1024);
    assert!(rt; on_bytes(rt.alloc(), &falling(rt.alloc(), 1023)?)? == 1024);
    Ok(())
}
