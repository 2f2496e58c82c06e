//! What tests write as text, in the spelling that `docs/PROGRAMS.md` says.
#![tactic(auto)]

use ac_sx::{Sx, read};
use c_values::CType;
use command_text::read_simpl;
use expression_lang::Exp;
use expression_text::{read_exp, type_at};
use monad_lang::Mon;
use program_text::read_mon;
use simpl_lang::Simpl;
use std::alloc::{AllocError, Global};
use std::test::Fail;

/// The tree of a text without the line's end.
pub fn tree_of(alloc: Global, text: &str) -> Result<Sx, Fail> {
    let mut line = text.as_bytes().to_vec(alloc)?;
    line.push(b'\n')?;
    Ok(read(alloc, &line)?)
}

/// The type of a text.
pub fn c_type(alloc: Global, text: &str) -> Result<CType, Fail> {
    let (ty, _behind) = type_at(alloc, &tree_of(alloc, text)?, 0)?;
    Ok(ty)
}

/// The expression of a text.
pub fn expression(alloc: Global, text: &str) -> Result<Exp, Fail> {
    Ok(read_exp(alloc, &tree_of(alloc, text)?)?)
}

/// The command of a text.
pub fn command(alloc: Global, text: &str) -> Result<Simpl, Fail> {
    Ok(read_simpl(alloc, &tree_of(alloc, text)?)?)
}

/// The program of a text.
pub fn program(alloc: Global, text: &str) -> Result<Mon, Fail> {
    Ok(read_mon(alloc, &tree_of(alloc, text)?)?)
}

/// One text so many times around another.
pub fn around(
    alloc: Global,
    before: &str,
    inner: &str,
    behind: &str,
    times: u32,
) -> Result<String, AllocError> {
    let mut text = String::new(alloc);
    for _ in 0..times {
        text.push_str(before)?;
    }
    text.push_str(inner)?;
    for _ in 0..times {
        text.push_str(behind)?;
    }
    Ok(text)
}
