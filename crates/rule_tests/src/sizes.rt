//! Long commands, and deep ones.

use expression_lang::Exp;
use simpl_lang::Simpl;
use std::alloc::{AllocError, Global};
use std::test::Fail;
use test_texts::{around, command};

// A command around another. No text nests a million loops, nor 4,096 commands around one that is a
// list.
fn one_more(alloc: Global, head: &str, part: Box<Simpl>) -> Result<Simpl, AllocError> {
    if head == "while" {
        return Ok(Simpl::While(Vec::new(alloc), Exp::Truth(true), part));
    }
    if head == "cond_left" {
        let test = Exp::Var(String::from_str(alloc, "e")?);
        return Ok(Simpl::Cond(test, part, Box::new(alloc, Simpl::Skip)?));
    }
    let throws = head == "seq_throw" || head == "catch_throw";
    let other = Box::new(alloc, if throws { Simpl::Throw } else { Simpl::Skip })?;
    Ok(match head {
        "seq" | "seq_throw" => Simpl::Seq(other, part),
        "seq_left" => Simpl::Seq(part, other),
        _ => Simpl::Catch(part, other),
    })
}

/// A command around another, so many times.
pub(crate) fn nested(alloc: Global, head: &str, count: u32, inner: &str) -> Result<Simpl, Fail> {
    let mut c = command(alloc, inner)?;
    for _ in 0..count {
        let part = Box::new(alloc, c)?;
        c = one_more(alloc, head, part)?;
    }
    Ok(c)
}

/// The command of a text, in which `A*B*C*D` stands for so many A, one B, so many C and one D.
pub(crate) fn repeated(alloc: Global, text: &str, count: u32) -> Result<Simpl, Fail> {
    let mut whole = String::new(alloc);
    for (k, part) in text.split('*').enumerate() {
        let times = if k % 2 == 0 { count } else { 1 };
        whole.push_str(around(alloc, part, "", "", times)?.as_str())?;
    }
    command(alloc, whole.as_str())
}
