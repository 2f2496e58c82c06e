//! Certificates that are checked: one that is accepted, what becomes of it where a word is changed or
//! the text is cut, and those that the program writes itself.

use crate::tests::calls::{Answer, Files, NO_FILES, Outside, SOUND, answer_of, said, writes};
use ac_core::Status;
use std::alloc::{AllocError, Global};
use std::test::Fail;

pub(crate) const SEVEN: &str = "unsigned f(void){return 7;}";

/// A certificate for it that changes nothing in its last step, so it differs from the one that is
/// written.
pub(crate) const CERTIFICATE: &str =
    "(cert 1 (fun f numbers (exception (seq (seq (seq (set $ret (w 32 7)) (set $exn (w 32 1)) (set $thrown #t)) (cond $thrown skip (guard unreached #f skip))) (set $thrown #f)) (catch_skip (seq_test (seq_plain set (seq_plain set throw)) (guard skip)))) (local (do ($ret) (do ($ret $thrown) (do ($ret) (ret (w 32 7)) () (ret) (ret $ret #t)) (if $thrown (ret $ret) (do () (guard #f) (ret $ret)))) (ret $ret)) (seq (seq (seq set (seq dead set)) (cond skip (guard skip))) dead)) (heap (do ($ret) (do ($ret $thrown) (do ($ret) (ret (w 32 7)) () (ret) (ret $ret #t)) (if $thrown (ret $ret) (do () (guard #f) (ret $ret)))) (ret $ret)) same) (word (do ($ret) (do ($ret $thrown) (do ($ret) (ret 7) () (ret) (ret $ret #t)) (if $thrown (ret $ret) (do () (guard #f) (ret $ret)))) (ret $ret)) (bind ((nat 32)) (bind ((nat 32) bool) (bind ((nat 32)) (ret const) (bind () ret (ret var const))) (if var (ret var) (bind () (guard const) (ret var)))) (ret var))) (equal (do ($ret) (do ($ret $thrown) (do ($ret) (ret 7) () (ret) (ret $ret #t)) (if $thrown (ret $ret) (do () (guard #f) (ret $ret)))) (ret $ret)) refl)))";

const ACCEPTED: &str = "f numbers\naccepted 1";

/// The text with its first such part made another, and a line's end.
pub(crate) fn changed(
    alloc: Global,
    text: &str,
    old: &str,
    new: &str,
) -> Result<Vec<u8>, AllocError> {
    let (before, after) = text.split_once(old).unwrap_or((text, ""));
    let mut made = Vec::from_slice(alloc, before.as_bytes())?;
    made.extend_from_slice(new.as_bytes())?;
    made.extend_from_slice(after.as_bytes())?;
    made.push(b'\n')?;
    Ok(made)
}

/// The text with a line's end.
pub(crate) fn line_of(alloc: Global, text: &str) -> Result<Vec<u8>, AllocError> {
    let mut line = Vec::from_slice(alloc, text.as_bytes())?;
    line.push(b'\n')?;
    Ok(line)
}

/// The certificate that is written for a text by the words of a line.
pub(crate) fn written(alloc: Global, line: &str, text: &str) -> Result<Vec<u8>, AllocError> {
    Ok(said(alloc, line, &Files::of(text.as_bytes()))?.taken)
}

/// Whether `check` says so of a certificate for a text.
pub(crate) fn is_checked(
    alloc: Global,
    text: &str,
    certificate: &[u8],
    lines: &str,
) -> Result<bool, AllocError> {
    let files = Files::of(text.as_bytes()).with(certificate);
    Ok(said(alloc, "check a.c c.cert", &files)?.is(lines))
}

// Whether that is said where a part of the certificate is another.
fn is_changed(alloc: Global, old: &str, new: &str, lines: &str) -> Result<bool, AllocError> {
    let certificate = changed(alloc, CERTIFICATE, old, new)?;
    is_checked(alloc, SEVEN, &certificate, lines)
}

// Words of the certificate, what each is made, and what is said of that.
const CHANGES: &str = "\
(guard unreached #f skip) | skip | no: f exception 7
(w 32 7) | (w 32 8) | no: f exception 3
seq_test | seq_plain | no: f exception 1
dead set | set set | no: f local 5
same | ret | no: f heap 0
(ret const) | (ret var) | no: f word 4
(ret 7) | (ret 8) | no: f word 4
refl | bind_ret | no: f equal 0
(fun f  | (fun g  | no: f list 0
(cert 1 | (cert  1 | text: certificate not text
(w 32 7) | (w 32 07) | text: certificate shape at 21
(cert 1 | (cert 2 lp64 | text: certificate other target";

#[test]
fn changed_certificates_are_refused(rt: HostRuntime) -> Result<(), Fail> {
    for row in CHANGES.lines() {
        let (old, rest) = row.split_once(" | ").ok_or("no row")?;
        let (new, line) = rest.split_once(" | ").ok_or("no row")?;
        assert!(rt; is_changed(rt.alloc(), old, new, line)?, "{row}");
    }
    Ok(())
}

#[test]
fn a_certificate_is_one_line(rt: HostRuntime) -> Result<(), Fail> {
    let alloc = rt.alloc();
    assert!(rt; is_changed(alloc, "7", "7", ACCEPTED)?);
    let two = is_changed(alloc, "refl)))", "refl)))\n", "text: certificate not text")?;
    assert!(rt; two);
    Ok(())
}

// Texts, certificates, and what is said of them.
const OTHERS: &str = "\
unsigned f(void){return 7;} | (cert 1) | no: f list 0
 | (cert 1) | accepted 0
 | (cert 3) | text: certificate shape at 2
int f( | (cert 1) | source: syntax at 6";

// Whether that is said of a text and the line of a certificate.
fn is_said(alloc: Global, text: &str, certificate: &str, lines: &str) -> Result<bool, AllocError> {
    let certificate = line_of(alloc, certificate)?;
    is_checked(alloc, text, &certificate, lines)
}

#[test]
fn other_certificates_are_refused(rt: HostRuntime) -> Result<(), Fail> {
    for row in OTHERS.lines() {
        let (text, rest) = row.split_once(" | ").ok_or("no row")?;
        let (certificate, line) = rest.split_once(" | ").ok_or("no row")?;
        assert!(rt; is_said(rt.alloc(), text, certificate, line)?, "{row}");
    }
    Ok(())
}

// Each beginning of the text is no certificate's.
#[test]
fn cut_certificates_are_no_text(rt: HostRuntime) -> Result<(), Fail> {
    let line = "text: certificate not text";
    for length in 0..CERTIFICATE.len() {
        let cut = CERTIFICATE.as_bytes().get(..length).ok_or("no cut")?;
        assert!(rt; is_checked(rt.alloc(), SEVEN, cut, line)?, "{length}");
    }
    Ok(())
}

// Words behind which a target may stand, and what is said.
const WORDS: &str = "\
check a.c c.cert target=lp64 => text: certificate other target
check a.c c.cert target=x => words: no command of this form
check a.c d.cert => read fault: d.cert";

#[test]
fn targets_are_asked(rt: HostRuntime) -> Result<(), Fail> {
    let certificate = line_of(rt.alloc(), CERTIFICATE)?;
    let files = Files::of(SEVEN.as_bytes()).with(&certificate);
    for row in WORDS.lines() {
        let (words, line) = row.split_once(" => ").ok_or("no row")?;
        assert!(rt; said(rt.alloc(), words, &files)?.is(line), "{row}");
    }
    let found = said(rt.alloc(), "check a.c c.cert target=ilp32", &files)?;
    assert!(rt; found.is(ACCEPTED));
    Ok(())
}

// Words that write a certificate, the text, and what is said of them together: functions at each
// level, with the reason for bytes.
const WRITTEN: &str = "\
translate a.c
unsigned char b0(unsigned *p){unsigned char *c=(unsigned char *)p; return *c;} unsigned char b1(unsigned *p){unsigned char r; r=b0(p); return r;}
b0 bytes cast
b1 bytes calls b0
accepted 2

translate a.c words=w bytes=z
int d(int a,int b){return a/b;} unsigned w(unsigned x){return x+x;} unsigned z(void){return 1;}
d numbers
w words
z bytes chosen
accepted 3

translate a.c
struct node { unsigned v; struct node *next; }; unsigned cnt(struct node *p, unsigned n){unsigned c=0; while(p->v<n){c=c+1; p=p->next;} return c;}
cnt numbers
accepted 1";

/// Whether the certificate that the words write for a text is accepted so.
pub(crate) fn is_accepted(
    alloc: Global,
    words: &str,
    text: &str,
    lines: &str,
) -> Result<bool, AllocError> {
    let answer = said(alloc, words, &Files::of(text.as_bytes()))?;
    Ok(answer.status == Status::Done && is_checked(alloc, text, &answer.taken, lines)?)
}

#[test]
fn written_certificates_are_accepted(rt: HostRuntime) -> Result<(), Fail> {
    for record in WRITTEN.split("\n\n") {
        let (words, rest) = record.split_once('\n').ok_or("no words")?;
        let (text, lines) = rest.split_once('\n').ok_or("no text")?;
        assert!(rt; is_accepted(rt.alloc(), words, text, lines)?, "{text}");
    }
    Ok(())
}

// What is said where this call of the shelf fails.
fn fails(alloc: Global, files: &Files, call: u64, lines: &str) -> Result<bool, AllocError> {
    let outside = Outside {
        shelf_fails: call,
        ..SOUND
    };
    Ok(answer_of(alloc, "check a.c c.cert", files, &outside)?.is(lines))
}

// The calls on the shelf fail in turn until none does.
#[test]
fn each_failure_of_the_shelf_is_told(rt: HostRuntime) -> Result<(), Fail> {
    let certificate = line_of(rt.alloc(), CERTIFICATE)?;
    let files = Files::of(SEVEN.as_bytes()).with(&certificate);
    for (call, lines) in [
        (0, "read fault: a.c"),
        (1, "read fault: a.c"),
        (2, "read fault: c.cert"),
        (3, "read fault: c.cert"),
        (4, ACCEPTED),
    ] {
        assert!(rt; fails(rt.alloc(), &files, call, lines)?, "{call}");
    }
    Ok(())
}

// And so do those on the sink.
#[test]
fn each_failure_of_the_sink_is_told(rt: HostRuntime) -> Result<(), Fail> {
    let certificate = line_of(rt.alloc(), CERTIFICATE)?;
    let files = Files::of(SEVEN.as_bytes()).with(&certificate);
    for (step, calls) in [(1, 21), (4, 6)] {
        let found = writes(rt.alloc(), "check a.c c.cert", &files, step, ACCEPTED)?;
        assert!(rt; found == Some(calls), "{found:?}");
    }
    Ok(())
}

// Whether what a trial tells of a sample is what the other commands make of its text.
fn is_tried(alloc: Global, count: u32) -> Result<bool, AllocError> {
    let sample = format!(in alloc; "sample {count}")?;
    let text = said(alloc, sample.as_str(), &NO_FILES)?.taken;
    let certificate = said(alloc, "translate a.c", &Files::of(&text))?.taken;
    let files = Files::of(&text).with(&certificate);
    let accepted = said(alloc, "check a.c c.cert", &files)?;
    Ok(is_told_so(alloc, count, certificate.len())? && ends_so(alloc, &accepted, count)?)
}

// Whether the last line says that so many are accepted.
fn ends_so(alloc: Global, answer: &Answer, count: u32) -> Result<bool, AllocError> {
    let line = format!(in alloc; "accepted {count}\n")?;
    Ok(answer.taken.ends_with(line.as_bytes()))
}

// Whether a trial of so many functions tells a certificate of this length.
fn is_told_so(alloc: Global, count: u32, length: usize) -> Result<bool, AllocError> {
    let lines = format!(in alloc;
        "functions {count}\nnumbers {count}\nbytes 0\ncertificate {length}\naccepted {count}"
    )?;
    let words = format!(in alloc; "trial {count}")?;
    Ok(said(alloc, words.as_str(), &NO_FILES)?.is(lines.as_str()))
}

#[test]
fn trials_tell_what_is_written(rt: HostRuntime) -> Result<(), Fail> {
    for count in [0, 1, 200] {
        assert!(rt; is_tried(rt.alloc(), count)?, "{count}");
    }
    Ok(())
}
