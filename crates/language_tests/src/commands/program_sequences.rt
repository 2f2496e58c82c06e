//! Tests of long sequences of programs.

use monad_lang::Mon;
use std::alloc::{AllocError, Global};
use std::test::Fail;
use test_texts::{around, program};

// Many guards that hold, and then a program.
fn guards(alloc: Global, last: &str) -> Result<Mon, Fail> {
    let parts = around(alloc, "() (guard #t) ", last, "", 1_000_000)?;
    let text = around(alloc, "(do ", parts.as_str(), ")", 1)?;
    program(alloc, text.as_str())
}

// Whether a copy is the same, and not the same as another program.
fn is_copied(alloc: Global, m: &Mon, other: &Mon) -> Result<bool, AllocError> {
    let copy = m.copy(alloc)?;
    Ok(m.same(&copy) && !copy.same(other))
}

#[test]
fn long_programs_are_walked_copied_compared_and_dropped(rt: HostRuntime) -> Result<(), Fail> {
    let alloc = rt.alloc();
    let one = guards(alloc, "(ret 1)")?;
    assert!(rt; one.is_bytes() && one.is_numbers());
    let two = guards(alloc, "(ret 2)")?;
    assert!(rt; is_copied(alloc, &one, &two)?);
    Ok(())
}
