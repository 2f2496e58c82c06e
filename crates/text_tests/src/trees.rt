//! Trees are read and written, and texts that are none are refused at their place.

use ac_sx::{Sx, SxFault, read, write};
use std::alloc::{AllocError, Global};
use std::process::Abort;
use std::test::Fail;

// What is read is written again as it was.
fn is_read(rt: &impl Abort, alloc: Global, text: &[u8]) -> Result<(), Fail> {
    let again = write(alloc, &read(alloc, text)?)?;
    assert!(rt; again.as_slice() == text);
    Ok(())
}

fn is_refused(rt: &impl Abort, alloc: Global, text: &[u8], fault: SxFault) {
    match read(alloc, text) {
        Ok(_) => panic!(rt; "read"),
        Err(found) => assert!(rt; found == fault, "{found:?}"),
    }
}

#[test]
fn texts_are_read(rt: HostRuntime) -> Result<(), Fail> {
    let alloc = rt.alloc();
    for text in [
        "a\n",
        "()\n",
        "(a)\n",
        "(() (a bc) #t -5 $ret ~!)\n",
        "((((x)) ()) y)\n",
    ] {
        is_read(&rt, alloc, text.as_bytes())?;
    }
    Ok(())
}

#[test]
fn other_texts_are_refused(rt: HostRuntime) -> Result<(), Fail> {
    let alloc = rt.alloc();
    for (text, at) in [
        ("", 0),
        ("\n", 0),
        (" a\n", 0),
        (")\n", 0),
        ("a", 1),
        ("a\r\n", 1),
        ("a b\n", 1),
        ("a\n\n", 2),
        ("a()\n", 1),
        ("( a)\n", 1),
        ("(a )\n", 3),
        ("(a  b)\n", 3),
        ("(a(b))\n", 2),
        ("(a\nb)\n", 2),
        ("((a)\n", 4),
        ("(a))\n", 3),
        ("(a\tb)\n", 2),
        ("(\u{e9})\n", 1),
        ("(a)", 3),
    ] {
        is_refused(&rt, alloc, text.as_bytes(), SxFault::NotText(at));
    }
    Ok(())
}

// So many lists, one in the other.
fn nested(alloc: Global, depth: usize) -> Result<Vec<u8>, AllocError> {
    let mut text = Vec::new(alloc);
    for _i in 0..depth {
        text.push(b'(')?;
    }
    for _i in 0..depth {
        text.push(b')')?;
    }
    text.push(b'\n')?;
    Ok(text)
}

#[test]
fn nesting_has_a_limit(rt: HostRuntime) -> Result<(), Fail> {
    let alloc = rt.alloc();
    is_read(&rt, alloc, &nested(alloc, 4096)?)?;
    is_refused(&rt, alloc, &nested(alloc, 4097)?, SxFault::Deep(4096));
    is_refused(&rt, alloc, &nested(alloc, 1_000_000)?, SxFault::Deep(4096));
    Ok(())
}

// A tree that nests so deep in its last parts, and as deep in its first parts.
fn deep(alloc: Global, depth: usize) -> Result<Sx, AllocError> {
    let mut tree = Sx::list(Vec::new(alloc));
    for _i in 0..depth {
        let mut parts = Vec::new(alloc);
        parts.push(Sx::list(Vec::new(alloc)))?;
        parts.push(tree)?;
        tree = Sx::list(parts);
    }
    for _i in 0..depth {
        let mut parts = Vec::new(alloc);
        parts.push(tree)?;
        parts.push(Sx::list(Vec::new(alloc)))?;
        tree = Sx::list(parts);
    }
    Ok(tree)
}

#[test]
fn deep_and_wide_trees_take_no_stack(rt: HostRuntime) -> Result<(), Fail> {
    let alloc = rt.alloc();
    let text = write(alloc, &deep(alloc, 500_000)?)?;
    assert!(rt; text.len() == 5_000_003);
    is_refused(&rt, alloc, &text, SxFault::Deep(4096));
    let mut wide = Vec::new(alloc);
    wide.extend_from_slice(b"(x")?;
    for _i in 0..1_000_000 {
        wide.extend_from_slice(b" (y)")?;
    }
    wide.extend_from_slice(b")\n")?;
    is_read(&rt, alloc, &wide)
}
