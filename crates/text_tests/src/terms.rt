//! Trees are read into a table, each once, and shown again as they were.

ghost use Rattle.std.specs.Prelude.{◌<◌, length};

use ac_sx::{SxFault, TermId, Terms, parts, read, write};
use std::alloc::{AllocError, Global};
use std::process::Abort;
use std::test::Fail;

fn number(rt: &impl Abort, terms: &mut Terms, line: &[u8]) -> Result<TermId, SxFault> {
    assert!(rt; line.len() < 10_000_000 && terms.len() < 10_000_000);
    terms.read(line)
}

// The line that the tree of a number is written as.
fn line_of(alloc: Global, terms: &Terms, id: TermId) -> Result<Vec<u8>, AllocError>
    requires { id.0 < length terms.now }
{
    let mut text = write(alloc, &terms.tree(alloc, id)?)?;
    let _end = text.pop();
    Ok(text)
}

// Reads each line, and shows it again.
fn are_shown(rt: &impl Abort, alloc: Global, lines: &[&str]) -> Result<(), Fail> {
    let mut terms = Terms::new(alloc);
    for line in lines {
        let bytes = line.as_bytes();
        assert!(rt; bytes.len() < 10_000_000 && terms.len() < 10_000_000);
        let id = terms.read(bytes)?;
        assert!(rt; line_of(alloc, &terms, id)?.as_slice() == bytes);
    }
    Ok(())
}

#[test]
fn lines_are_shown(rt: HostRuntime) -> Result<(), Fail> {
    are_shown(
        &rt,
        rt.alloc(),
        &[
            "a",
            "()",
            "(a)",
            "(() (a bc) #t -5 $ret ~!)",
            "((((x)) ()) y)",
            "(a)",
            "bc",
        ],
    )
}

// Eight nodes, of which four differ.
#[test]
fn what_is_shared_is_put_once(rt: HostRuntime) -> Result<(), Fail> {
    let mut terms = Terms::new(rt.alloc());
    assert!(rt; terms.len() == 0);
    let whole = number(&rt, &mut terms, b"((a b) (a b) a)")?;
    assert!(rt; terms.len() == 4);
    let part = number(&rt, &mut terms, b"(a b)")?;
    assert!(rt; terms.len() == 4 && part != whole);
    assert!(rt; number(&rt, &mut terms, b"(a b)")? == part);
    assert!(rt; number(&rt, &mut terms, b"((a b) (a b) a)")? == whole);
    let _other = number(&rt, &mut terms, b"(b a)")?;
    assert!(rt; terms.len() == 5);
    assert!(rt; number(&rt, &mut terms, b"(a b").is_err());
    assert!(rt; terms.len() == 5);
    assert!(rt; number(&rt, &mut terms, b"((a b) (a b) a)")? == whole);
    Ok(())
}

fn fault_of<T: Drop>(answer: Result<T, SxFault>) -> Option<SxFault> {
    answer.err()
}

// The fault of a text with the line's end behind it is the reader's, in the other two as well.
#[test]
fn faults_are_the_readers(rt: HostRuntime) -> Result<(), Fail> {
    let alloc = rt.alloc();
    let mut terms = Terms::new(alloc);
    for line in [
        "",
        "a",
        "(a)",
        "\n",
        " a",
        ")",
        "a\r",
        "a b",
        "a\n",
        "a()",
        "( a)",
        "(a )",
        "(a  b)",
        "(a(b))",
        "(a\nb)",
        "((a)",
        "(a))",
        "(a\tb)",
        "(\u{e9})",
        "(a",
        "(",
        "()",
        "() ",
        "(() (a bc) x)",
    ] {
        let mut text = line.as_bytes().to_vec(alloc)?;
        text.push(b'\n')?;
        assert!(rt; text.len() < 1_000_000);
        let fault = fault_of(read(alloc, &text));
        assert!(rt; fault_of(parts(alloc, &text)) == fault);
        assert!(rt; fault_of(number(&rt, &mut terms, line.as_bytes())) == fault);
    }
    Ok(())
}

// So many lists, one in the other.
fn nested(alloc: Global, depth: usize) -> Result<Vec<u8>, AllocError> {
    let mut line = Vec::new(alloc);
    for _i in 0..depth {
        line.push(b'(')?;
    }
    for _i in 0..depth {
        line.push(b')')?;
    }
    Ok(line)
}

#[test]
fn nesting_has_a_limit(rt: HostRuntime) -> Result<(), Fail> {
    let alloc = rt.alloc();
    let mut terms = Terms::new(alloc);
    let line = nested(alloc, 4096)?;
    assert!(rt; line.len() < 1_000_000 && terms.len() < 1_000_000);
    let id = terms.read(&line)?;
    assert!(rt; terms.len() == 4096);
    assert!(rt; line_of(alloc, &terms, id)? == line);
    let fault = fault_of(number(&rt, &mut terms, &nested(alloc, 4097)?));
    assert!(rt; fault == Some(SxFault::Deep(4096)));
    assert!(rt; terms.len() == 4096);
    Ok(())
}

#[test]
fn a_wide_list_is_short(rt: HostRuntime) -> Result<(), Fail> {
    let alloc = rt.alloc();
    let mut terms = Terms::new(alloc);
    let mut wide = Vec::new(alloc);
    wide.extend_from_slice(b"(x")?;
    for _i in 0..100_000 {
        wide.extend_from_slice(b" (y)")?;
    }
    wide.extend_from_slice(b")")?;
    assert!(rt; wide.len() < 5_000_000 && terms.len() < 5_000_000);
    let id = terms.read(&wide)?;
    assert!(rt; terms.len() == 4);
    assert!(rt; line_of(alloc, &terms, id)? == wide);
    Ok(())
}
