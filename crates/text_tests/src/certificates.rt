//! Texts of certificates are read and written, whole and function by function, and texts that are none
//! are refused at their place.
ghost use Rattle.std.specs.Prelude.{IfOk};
ghost use Rattle.certificate_text.specs.CodeIndex.{index_in};
ghost use Rattle.certificate_text.specs.IndexAnswer.{IsIndexOf};

use ac_sx::{SxFault, Terms, parts};
use certificate_text::{
    CertIndex, Certificate, FunCert, Version, read, read_function, scan, write,
};
use expression_text::TextFault;
use std::alloc::{AllocError, Global};
use std::test::Fail;

// The steps of a function that gives seven, which stand in the rows by their names.
static STEPS: [(&str, &str); 5] = [
    (
        "EXCEPTION",
        "(exception (seq (seq (seq (set $ret (w 32 7)) (set $exn (w 32 1)) (set $thrown #t)) (cond $thrown skip (guard unreached #f skip))) (set $thrown #f)) (catch_skip (seq_test (seq_plain set (seq_plain set throw)) (guard skip))))",
    ),
    (
        "LOCAL",
        "(local (do ($ret) (do ($ret $thrown) (do ($ret) (ret (w 32 7)) () (ret) (ret $ret #t)) (if $thrown (ret $ret) (do () (guard #f) (ret $ret)))) (ret $ret)) (seq (seq (seq set (seq dead set)) (cond skip (guard skip))) dead))",
    ),
    (
        "HEAP",
        "(heap (do ($ret) (do ($ret $thrown) (do ($ret) (ret (w 32 7)) () (ret) (ret $ret #t)) (if $thrown (ret $ret) (do () (guard #f) (ret $ret)))) (ret $ret)) same)",
    ),
    (
        "WORD",
        "(word (do ($ret) (do ($ret $thrown) (do ($ret) (ret 7) () (ret) (ret $ret #t)) (if $thrown (ret $ret) (do () (guard #f) (ret $ret)))) (ret $ret)) (bind ((nat 32)) (bind ((nat 32) bool) (bind ((nat 32)) (ret const) (bind () ret (ret var const))) (if var (ret var) (bind () (guard const) (ret var)))) (ret var)))",
    ),
    (
        "EQUAL",
        "(equal (do ($ret) (do ($ret $thrown) (do ($ret) (ret 7) () (ret) (ret $ret #t)) (if $thrown (ret $ret) (do () (guard #f) (ret $ret)))) (ret $ret)) refl)",
    ),
];

// The line of a row.
fn line_of(alloc: Global, row: &str) -> Result<Vec<u8>, AllocError> {
    let mut text = String::from_str(alloc, row)?;
    for (name, step) in &STEPS {
        text = text.as_str().replace(alloc, *name, step)?;
    }
    let mut line = Vec::from_slice(alloc, text.as_bytes())?;
    line.push(b'\n')?;
    Ok(line)
}

// What is read is written again as it was.
fn is_read(alloc: Global, row: &str) -> Result<bool, Fail> {
    let line = line_of(alloc, row)?;
    let certificate = read(alloc, &line)?;
    let again = write(alloc, &certificate)?;
    Ok(again == line)
}

const CERTIFICATES: &str = "\
(cert 1)
(cert 2 lp64)
(cert 1 (fun f numbers EXCEPTION LOCAL HEAP WORD EQUAL))
(cert 2 ilp32 (fun g bytes EXCEPTION LOCAL WORD EQUAL) (fun f numbers EXCEPTION LOCAL HEAP WORD EQUAL))";

#[test]
fn certificates_are_read(rt: HostRuntime) -> Result<(), Fail> {
    for row in CERTIFICATES.lines() {
        assert!(rt; is_read(rt.alloc(), row)?, "{row}");
    }
    Ok(())
}

// The text of the certificate of this function alone.
fn alone(alloc: Global, function: FunCert) -> Result<Vec<u8>, AllocError> {
    let mut functions = Vec::new(alloc);
    functions.push(function)?;
    let certificate = Certificate {
        version: Version::One,
        functions,
    };
    write(alloc, &certificate)
}

// The same of a part of a line.
fn around(alloc: Global, part: &[u8]) -> Result<Vec<u8>, AllocError> {
    let mut text = Vec::from_slice(alloc, b"(cert 1 ")?;
    text.extend_from_slice(part)?;
    text.extend_from_slice(b")\n")?;
    Ok(text)
}

// The index of a line, which isn't longer than the tests' are.
fn index_of(alloc: Global, line: &[u8]) -> Result<CertIndex, TextFault>
    ensures { IfOk result (λ index. IsIndexOf line.now (index_in index)) }
{
    if line.len() > 1_000_000 {
        return Err(TextFault::Memory);
    }
    scan(alloc, line)
}

// The function of this position, read by the index and written in a certificate of its own.
fn function_of(
    alloc: Global,
    line: &[u8],
    index: &CertIndex,
    k: u32,
    terms: &mut Terms,
) -> Result<Vec<u8>, AllocError>
    requires { IsIndexOf line.now (index_in index.now) }
{
    if k as usize >= index.functions.len() || line.len() > 1_000_000 || terms.len() > 1_000_000 {
        return Ok(Vec::new(alloc));
    }
    let function = read_function(alloc, line, index, k, terms)?;
    alone(alloc, function)
}

// The text of the function of this position, as the index tells where it stands.
fn part_of<'a>(line: &'a [u8], index: &CertIndex, k: u32) -> Option<&'a [u8]> {
    let entry = index.functions.get(k as usize)?;
    line.get(entry.start as usize..entry.end as usize)
}

// Appends a function behind a space, where it is read by the index from where it stands.
fn push(alloc: Global, text: &mut Vec<u8>, function: &[u8], part: &[u8]) -> Result<(), AllocError> {
    if function == around(alloc, part)?.as_slice() {
        text.push(b' ')?;
        text.extend_from_slice(part)?;
    }
    Ok(())
}

// The line that the functions of a line make behind a head.
fn again(alloc: Global, line: &[u8], head: &str) -> Result<Vec<u8>, TextFault> {
    let index = index_of(alloc, line)?;
    let mut terms = Terms::new(alloc);
    let mut text = Vec::from_slice(alloc, head.as_bytes())?;
    for k in 0..1_000u32 {
        let Some(part) = part_of(line, &index, k) else {
            break;
        };
        let function = function_of(alloc, line, &index, k, &mut terms)?;
        push(alloc, &mut text, &function, part)?;
    }
    text.extend_from_slice(b")\n")?;
    Ok(text)
}

// Whether the index tells where the text of each function stands, and by it each is read.
fn is_indexed(alloc: Global, row: &str) -> Result<bool, TextFault> {
    let (head, _) = row.split_once(" (fun").unwrap_or(("(cert 1", ""));
    let line = line_of(alloc, row)?;
    Ok(again(alloc, &line, head)? == line)
}

const INDEXED: &str = "\
(cert 1)
(cert 1 (fun f numbers EXCEPTION LOCAL HEAP WORD EQUAL) (fun g bytes EXCEPTION LOCAL WORD EQUAL))
(cert 2 lp64 (fun g bytes EXCEPTION LOCAL WORD EQUAL) (fun f numbers EXCEPTION LOCAL HEAP WORD EQUAL) (fun g bytes EXCEPTION LOCAL WORD EQUAL))";

#[test]
fn functions_are_read_one_by_one(rt: HostRuntime) -> Result<(), Fail> {
    for row in INDEXED.lines() {
        assert!(rt; is_indexed(rt.alloc(), row)?, "{row}");
    }
    Ok(())
}

// How many nodes a line's tree has.
fn nodes(alloc: Global, line: &[u8]) -> Result<u32, SxFault> {
    let mut nodes = 1_u32;
    if line.len() < 1_000_000 {
        for part in parts(alloc, line)? {
            nodes = nodes.saturating_add(part.nodes);
        }
    }
    Ok(nodes)
}

// How many trees a table has that holds the tree of a text.
fn trees(alloc: Global, text: &[u8]) -> Result<u32, SxFault> {
    let mut terms = Terms::new(alloc);
    if text.len() < 1_000_000 {
        let _whole = terms.read(text)?;
    }
    Ok(terms.len())
}

// Equal parts of a text are put into the table once, so that it has fewer nodes than the tree.
#[test]
fn equal_parts_are_shared(rt: HostRuntime) -> Result<(), Fail> {
    let row = "(cert 1 (fun f numbers EXCEPTION LOCAL HEAP WORD EQUAL))";
    let line = line_of(rt.alloc(), row)?;
    let all = nodes(rt.alloc(), &line)?;
    let text = line.strip_suffix(b"\n").ok_or("no line")?;
    let found = trees(rt.alloc(), text)?;
    assert!(rt; 1 < found && found < all / 2, "{found} of {all}");
    Ok(())
}

// Rows that are no certificates, and their faults.
const OTHERS: &str = "\
cert => Shape(0)
(cert) => Shape(0)
(cert 2) => Shape(0)
(cert 3) => Shape(2)
(cert 2 x) => Shape(3)
(cert 1 x) => Shape(3)
(cert 1 (fun f)) => Shape(3)
(cert 1 => NotText
(cert 1 (fun f bytes EXCEPTION LOCAL HEAP WORD EQUAL)) => Shape(3)
(cert 1 (fun f words EXCEPTION LOCAL WORD EQUAL)) => Shape(3)
(cert 1 (fun f best EXCEPTION LOCAL HEAP WORD EQUAL)) => Shape(6)
(cert 1 (fun 1 best EXCEPTION LOCAL WORD EQUAL)) => Shape(5)";

// The fault for which a row is neither read nor scanned.
fn fault_of(alloc: Global, row: &str) -> Result<Option<TextFault>, AllocError> {
    let line = line_of(alloc, row)?;
    let fault = read(alloc, &line).err();
    let scanned = index_of(alloc, &line).err();
    Ok(if scanned == fault { fault } else { None })
}

// Whether a row is refused for the fault of this name.
fn is_refused(alloc: Global, row: &str, name: &str) -> Result<bool, AllocError> {
    let Some(fault) = fault_of(alloc, row)? else {
        return Ok(false);
    };
    Ok(format!(in alloc; "{fault:?}")?.as_str() == name)
}

#[test]
fn other_texts_are_no_certificates(rt: HostRuntime) -> Result<(), Fail> {
    for line in OTHERS.lines() {
        let (row, name) = line.split_once(" => ").ok_or("no row")?;
        assert!(rt; is_refused(rt.alloc(), row, name)?, "{line}");
    }
    Ok(())
}
