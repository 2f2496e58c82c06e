//! Expressions that nest deeply are read and written.

use ac_sx::write;
use expression_text::{read_exp, write_exp};
use std::alloc::Global;
use std::process::Abort;
use std::test::Fail;
use test_texts::{around, tree_of};

// What is read is written again as it was.
fn is_read(rt: &impl Abort, alloc: Global, text: &str) -> Result<(), Fail> {
    let e = read_exp(alloc, &tree_of(alloc, text)?)?;
    let again = write(alloc, &write_exp(alloc, &e)?)?;
    assert!(rt;
        again.strip_suffix(b"\n") == Some(text.as_bytes()),
        "{text}"
    );
    Ok(())
}

#[test]
fn deep_expressions_are_read(rt: HostRuntime) -> Result<(), Fail> {
    let alloc = rt.alloc();
    for (before, behind) in [
        ("(not ", ")"),
        ("(zext 32 ", ")"),
        ("(add x ", ")"),
        ("(add ", " x)"),
        ("(between 0 ", " 9)"),
        ("(if c ", " x)"),
        ("(padd uint ", " 1)"),
        ("(tagged uint ", ")"),
        ("(load uint ", " (f 0))"),
        ("(sel ", " (i k))"),
        ("(upd x () ", ")"),
    ] {
        is_read(&rt, alloc, &around(alloc, before, "x", behind, 4095)?)?;
    }
    for (before, behind) in [("(global g (i ", "))"), ("(upd ", " ((i (neg 1))) x)")] {
        is_read(&rt, alloc, &around(alloc, before, "x", behind, 2047)?)?;
    }
    Ok(())
}
