//! Tests of the texts of expressions that are printed as certificates spell them, and of a place.

use crate::printed::units::unit_of;
use abs_print::print;
use c_values::NumberOp;
use expression_lang::Exp;
use monad_lang::Mon;
use std::alloc::{AllocError, Global};
use std::test::Fail;
use test_texts::program;

const SPELT: &str = "\
(global g (f 0) (i i) (f 3))
(global g)
(at (struct node) p (f 0) (i i) (f 3))
(sel v (f 7))
(upd v ((f 0) (i i) (f 3)) x)
(upd v () x)
(upd v ((i i)) x)
(tagged (array (ptr (array (ptr void) 12)) 345) p)
(padd ullong p n)
(wsshr a n)";

// Whether the text of a function with this body has this line.
fn is_printed(alloc: Global, body: Mon, line: &str) -> Result<bool, Fail> {
    let found = print(alloc, &unit_of(alloc, body)?)?;
    let expected = format!(in alloc; "f : unit\n  {line}\n")?;
    Ok(found.as_slice() == expected.as_bytes())
}

fn is_printed_as_spelt(alloc: Global, e: &str) -> Result<bool, Fail> {
    let body = program(alloc, format!(in alloc; "(ret {e})")?.as_str())?;
    is_printed(alloc, body, format!(in alloc; "return {e}")?.as_str())
}

#[test]
fn expressions_are_printed_as_they_are_spelt(rt: HostRuntime) -> Result<(), Fail> {
    for e in SPELT.lines() {
        assert!(rt; is_printed_as_spelt(rt.alloc(), e)?, "{e}");
    }
    Ok(())
}

#[test]
fn globals_are_set(rt: HostRuntime) -> Result<(), Fail> {
    let body = program(rt.alloc(), "(gset g ((f 0) (i i) (f 3)) #f)")?;
    assert!(rt; is_printed(rt.alloc(), body, "g (f 0) (i i) (f 3) := #f")?);
    Ok(())
}

fn variable(alloc: Global, name: &str) -> Result<Box<Exp>, AllocError> {
    Ok(Box::new(alloc, Exp::Var(String::from_str(alloc, name)?))?)
}

// The negation of two numbers, which no well-sorted expression is and no text spells.
fn negation_of_two(alloc: Global) -> Result<Mon, AllocError> {
    let mut values = Vec::new(alloc);
    let a = variable(alloc, "a")?;
    values.push(Exp::Arith(NumberOp::Neg, a, variable(alloc, "b")?))?;
    Ok(Mon::Ret(values))
}

#[test]
fn a_negation_of_two_has_no_sign(rt: HostRuntime) -> Result<(), Fail> {
    let body = negation_of_two(rt.alloc())?;
    assert!(rt; is_printed(rt.alloc(), body, "return (neg a b)")?);
    Ok(())
}
