//! Tests of long sequences.

use simpl_lang::{Simpl, commands, is_flat};
use std::alloc::{AllocError, Global};
use std::test::Fail;
use test_texts::{around, command};

// Many skips, and then a command.
fn skips(alloc: Global, last: &str) -> Result<Simpl, Fail> {
    let parts = around(alloc, "skip ", last, "", 1_000_000)?;
    let text = around(alloc, "(seq ", parts.as_str(), ")", 1)?;
    command(alloc, text.as_str())
}

fn is_as_long(s: &Simpl) -> bool {
    commands(s) == 2_000_001
}

// Whether a copy is the same, and not the same as another command.
fn is_copied(alloc: Global, s: &Simpl, other: &Simpl) -> Result<bool, AllocError> {
    let copy = s.copy(alloc)?;
    Ok(s.same(&copy) && !copy.same(other))
}

#[test]
fn long_sequences_are_walked_copied_compared_and_dropped(rt: HostRuntime) -> Result<(), Fail> {
    let alloc = rt.alloc();
    let flat = skips(alloc, "skip")?;
    assert!(rt; is_flat(&flat) && is_as_long(&flat));
    let thrown = skips(alloc, "throw")?;
    assert!(rt; !is_flat(&thrown) && is_as_long(&thrown));
    assert!(rt; is_copied(alloc, &flat, &thrown)?);
    Ok(())
}
