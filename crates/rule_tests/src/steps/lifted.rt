//! Tests of what lifts programs to typed heaps: a program of each kind, and long and deep ones.
//! `test_programs` says what the words are, and in `sizes` stands what `*` is.

use crate::rows::repeated;
use heap_lift::translate;
use rule_heap::Rule;
use rule_trees::Tree;
use std::alloc::Global;
use std::test::Fail;
use test_programs::program_of;

// The nodes along the last parts.
fn depth(tree: &Tree<Rule>) -> u32 {
    let mut count = 1u32;
    let mut rest = tree;
    while let Some(last) = rest.parts.last() {
        count = count.saturating_add(1);
        rest = last;
    }
    count
}

fn root(tree: &Tree<Rule>) -> &'static str {
    match tree.rule {
        Rule::Pointer => "pointer",
        Rule::Bind => "bind",
        Rule::Same => "same",
        _ => "another",
    }
}

// Whether a program becomes another one by a tree with this root and depth.
fn becomes(alloc: Global, told: &str, left: &str, right: &str) -> Result<bool, Fail> {
    let (found, tree) = translate(alloc, &program_of(alloc, left)?)?;
    let wanted = program_of(alloc, right)?;
    let rules = format!(in alloc; "{} {}", root(&tree), depth(&tree))?;
    Ok(found.same(&wanted) && rules.as_str() == told)
}

// The same of a line.
fn is_so(alloc: Global, line: &str) -> Result<bool, Fail> {
    let mut cells = line.split(" | ");
    match (cells.next(), cells.next(), cells.next()) {
        (Some(told), Some(left), Some(right)) => becomes(alloc, told, left, right),
        _ => Err(Fail::from("a row has too few cells")),
    }
}

// A store behind a pair of tests, one behind a test alone, and nothing to do.
const LIFTED: &str = "\
pointer 4 | bind guard ptrok p bind guard tagged p store p load p | \
    bind guard tagged p write p read p
bind 4 | bind guard ptrok p store p load p | bind guard ptrok p write p read p
same 1 | bind guard tagged p ret | bind guard tagged p ret";

#[test]
fn programs_are_lifted(rt: HostRuntime) -> Result<(), Fail> {
    for line in LIFTED.lines() {
        assert!(rt; is_so(rt.alloc(), line)?, "{line}");
    }
    Ok(())
}

// The depth of the rules for a program of so many parts, where it is lifted.
fn depth_for(alloc: Global, cell: &str, count: u32) -> Result<Option<u32>, Fail> {
    let words = repeated(alloc, cell, count)?;
    let (right, tree) = translate(alloc, &program_of(alloc, words.as_str())?)?;
    Ok(if right.is_heaps() {
        Some(depth(&tree))
    } else {
        None
    })
}

// Stores, pairs of tests, and what stays.
#[test]
fn long_programs_are_lifted(rt: HostRuntime) -> Result<(), Fail> {
    let alloc = rt.alloc();
    for (cell, wanted) in [
        ("bind store p load p *ret", 1_000_001u32),
        ("bind guard ptrok p bind guard tagged p *ret", 1_000_001),
        ("bind guard tagged p *ret", 1),
    ] {
        assert!(rt;
            depth_for(alloc, cell, 1_000_000)? == Some(wanted),
            "{cell}"
        );
    }
    Ok(())
}

// Whether a program of so many parts is lifted by rules over parts.
fn is_lifted(alloc: Global, cell: &str, count: u32) -> Result<bool, Fail> {
    let words = repeated(alloc, cell, count)?;
    let (right, tree) = translate(alloc, &program_of(alloc, words.as_str())?)?;
    Ok(right.is_heaps() && !tree.parts.is_empty())
}

#[test]
fn deep_programs_are_lifted(rt: HostRuntime) -> Result<(), Fail> {
    for cell in [
        "bind *store p load p* ret",
        "if load p *store p load p* ret",
        "loop true load p *store p load p*",
    ] {
        assert!(rt; is_lifted(rt.alloc(), cell, 4_095)?, "{cell}");
    }
    Ok(())
}

#[test]
fn deep_expressions_are_lifted(rt: HostRuntime) -> Result<(), Fail> {
    for (cell, count) in [
        ("*guard *and *load p* true", 4_096u32),
        ("*guard *and true *load p", 1_000_000),
        ("*guard *load *load p", 4_096),
    ] {
        assert!(rt; is_lifted(rt.alloc(), cell, count)?, "{cell}");
    }
    Ok(())
}
