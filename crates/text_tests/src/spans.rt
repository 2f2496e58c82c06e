//! The parts of a root list are found at their offsets, each with the number of its nodes.

use ac_sx::{SxFault, SxPart, parts};
use std::alloc::Global;
use std::process::Abort;
use std::test::Fail;

fn part(start: u32, end: u32, nodes: u32) -> SxPart {
    SxPart { start, end, nodes }
}

fn has_parts(rt: &impl Abort, alloc: Global, text: &[u8], expected: &[SxPart]) -> Result<(), Fail> {
    assert!(rt; text.len() < 1_000_000);
    assert!(rt; parts(alloc, text)?.as_slice() == expected);
    Ok(())
}

#[test]
fn parts_have_their_offsets(rt: HostRuntime) -> Result<(), Fail> {
    let alloc = rt.alloc();
    has_parts(&rt, alloc, b"a\n", &[])?;
    has_parts(&rt, alloc, b"()\n", &[])?;
    has_parts(&rt, alloc, b"(a)\n", &[part(1, 2, 1)])?;
    has_parts(&rt, alloc, b"(())\n", &[part(1, 3, 1)])?;
    has_parts(&rt, alloc, b"(ab cde)\n", &[part(1, 3, 1), part(4, 7, 1)])?;
    has_parts(
        &rt,
        alloc,
        b"(a (b c) ())\n",
        &[part(1, 2, 1), part(3, 8, 3), part(9, 11, 1)],
    )?;
    has_parts(
        &rt,
        alloc,
        b"((((x)) ()) y)\n",
        &[part(1, 11, 5), part(12, 13, 1)],
    )
}

// A list of so many lists `(y)`, as wide as texts come.
#[test]
fn a_wide_list_has_its_parts(rt: HostRuntime) -> Result<(), Fail> {
    let alloc = rt.alloc();
    let mut wide = Vec::new(alloc);
    wide.extend_from_slice(b"(x")?;
    for _i in 0..1_000_000 {
        wide.extend_from_slice(b" (y)")?;
    }
    wide.extend_from_slice(b")\n")?;
    assert!(rt; wide.len() < 5_000_000);
    let found = parts(alloc, &wide)?;
    assert!(rt; found.len() == 1_000_001);
    assert!(rt; found[0] == part(1, 2, 1));
    assert!(rt; found[1_000_000] == part(3_999_999, 4_000_002, 2));
    Ok(())
}

#[test]
fn a_list_too_deep_has_none(rt: HostRuntime) -> Result<(), Fail> {
    let alloc = rt.alloc();
    let mut text = Vec::new(alloc);
    for _i in 0..4097 {
        text.push(b'(')?;
    }
    assert!(rt; text.len() < 1_000_000);
    match parts(alloc, &text) {
        Ok(_) => panic!(rt; "found"),
        Err(fault) => assert!(rt; fault == SxFault::Deep(4096)),
    }
    Ok(())
}
