//! Units around programs.

use c_values::{Layout, Target};
use expression_lang::{Binder, Kind, Level};
use monad_lang::{FinalFn, FinalUnit, Mon};
use std::alloc::{AllocError, Global};
use std::test::Fail;

/// A unit of these functions.
pub fn unit(alloc: Global, functions: Vec<FinalFn>) -> Result<FinalUnit, Fail> {
    Ok(FinalUnit {
        layout: Layout::build(Target::Ilp32, Vec::new(alloc))?,
        globals: Vec::new(alloc),
        functions,
    })
}

/// A function of this name and body, without parameters and results.
pub fn function(alloc: Global, name: &str, body: Mon) -> Result<FinalFn, AllocError> {
    Ok(FinalFn {
        name: String::from_str(alloc, name)?,
        level: Level::Numbers,
        params: Vec::new(alloc),
        results: Vec::new(alloc),
        body,
    })
}

/// A parameter.
pub fn parameter(alloc: Global, name: &str, kind: Kind) -> Result<Binder, AllocError> {
    Ok(Binder {
        name: String::from_str(alloc, name)?,
        kind,
    })
}

/// The unit of one function `f` of this body.
pub fn unit_of(alloc: Global, body: Mon) -> Result<FinalUnit, Fail> {
    let mut functions = Vec::new(alloc);
    functions.push(function(alloc, "f", body)?)?;
    unit(alloc, functions)
}
