//! Units made by hand.

use c_values::{Layout, Target};
use expression_lang::{Binder, Kind, Level};
use monad_lang::{FinalFn, FinalUnit, Mon};
use std::alloc::{AllocError, Global};
use std::test::Fail;
use test_texts::program;

// What functions of a level take and give.
fn kind_at(level: Level) -> Kind {
    match level {
        Level::Bytes | Level::Words => Kind::Word(32),
        Level::Numbers => Kind::Nat(32),
    }
}

// The parameter `p`, of a kind.
fn parameter(alloc: Global, kind: Kind) -> Result<Vec<Binder>, AllocError> {
    let name = String::from_str(alloc, "p")?;
    let mut parameters = Vec::new(alloc);
    parameters.push(Binder { name, kind })?;
    Ok(parameters)
}

// A function that takes `p` and gives a value of its kind.
fn function(alloc: Global, name: String, level: Level, body: Mon) -> Result<FinalFn, AllocError> {
    let kind = kind_at(level);
    let results = vec![in alloc; kind]?;
    let params = parameter(alloc, kind)?;
    Ok(FinalFn {
        name,
        level,
        params,
        results,
        body,
    })
}

// A unit of these functions.
fn unit(alloc: Global, functions: Vec<FinalFn>) -> Result<FinalUnit, Fail> {
    let layout = Layout::build(Target::Ilp32, Vec::new(alloc))?;
    Ok(FinalUnit {
        layout,
        globals: Vec::new(alloc),
        functions,
    })
}

/// The unit of one function `f`.
pub(crate) fn unit_of(alloc: Global, level: Level, body: Mon) -> Result<FinalUnit, Fail> {
    let name = String::from_str(alloc, "f")?;
    let f = function(alloc, name, level, body)?;
    unit(alloc, vec![in alloc; f]?)
}

// What the function at a place in a chain of so many does.
fn link_text(alloc: Global, k: u32, count: u32) -> Result<String, Fail> {
    if k < count {
        return Ok(format!(in alloc; "(call f{} p)", u64::from(k) + 1)?);
    }
    Ok(String::from_str(alloc, "(ret p)")?)
}

// The function at a place in a chain of so many.
fn link(alloc: Global, k: u32, count: u32) -> Result<FinalFn, Fail> {
    let text = link_text(alloc, k, count)?;
    let body = program(alloc, text.as_str())?;
    let name = format!(in alloc; "f{k}")?;
    Ok(function(alloc, name, Level::Words, body)?)
}

/// A unit of so many functions, of which each calls the next and the last gives what it is given.
pub(crate) fn chain(alloc: Global, count: u32) -> Result<FinalUnit, Fail> {
    let mut functions = Vec::new(alloc);
    for k in 1..=count {
        functions.push(link(alloc, k, count)?)?;
    }
    unit(alloc, functions)
}

// A program that gives 7.
fn seven(alloc: Global) -> Result<Box<Mon>, Fail> {
    Ok(Box::new(alloc, program(alloc, "(ret (w 32 7))")?)?)
}

// A program, its value under the name `x`, and another one.
fn bound(alloc: Global, first: Box<Mon>, last: Box<Mon>) -> Result<Box<Mon>, AllocError> {
    let x = String::from_str(alloc, "x")?;
    let names = vec![in alloc; x]?;
    Ok(Box::new(alloc, Mon::Bind(first, names, last))?)
}

/// Programs that give 7, so many in turn under the name `x`, each in the one that is next to the
/// left or to the right. They are deeper than texts come.
pub(crate) fn nested(alloc: Global, count: u32, to_the_left: bool) -> Result<Mon, Fail> {
    let mut program = seven(alloc)?;
    for _ in 0..count {
        let other = seven(alloc)?;
        program = if to_the_left {
            bound(alloc, program, other)?
        } else {
            bound(alloc, other, program)?
        };
    }
    Ok(Box::into_inner(program))
}
