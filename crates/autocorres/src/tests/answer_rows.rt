//! Answers of the top call to C texts.

use crate::tests::calls::{Files, NO_FILES, SOUND, answer_to, reads, said, writes};
use crate::tests::type_rows::{READ, ROWS};
use certificate_text::read;
use std::alloc::{AllocError, Global};
use std::test::Fail;

const SUM: &str = "unsigned f(unsigned a, unsigned b){return a+b;}";

const SUM_SHOWN: &str =
    "(program (f numbers ((a (nat 32)) (b (nat 32))) ((nat 32)) (do () (guard (between 0 (add a b) 4294967295)) (ret (add a b)))))";

const SUM_PRINTED: &str =
    "f (a : nat 32) (b : nat 32) : nat 32\n  guard (0 <= (a + b) <= 4294967295)\n  return (a + b)";

// Whether a text is shown so.
fn is_shown(alloc: Global, text: &[u8], lines: &str) -> Result<bool, AllocError> {
    Ok(said(alloc, "show a.c", &Files::of(text))?.is(lines))
}

#[test]
fn texts_are_typed(rt: HostRuntime) -> Result<(), Fail> {
    for row in ROWS.lines() {
        let (text, line) = row.split_once(" => ").ok_or("no row")?;
        assert!(rt; is_shown(rt.alloc(), text.as_bytes(), line)?, "{row}");
    }
    Ok(())
}

#[test]
fn texts_are_answered(rt: HostRuntime) -> Result<(), Fail> {
    for row in READ.lines() {
        let (text, line) = row.split_once(" => ").ok_or("no row")?;
        assert!(rt; is_shown(rt.alloc(), text.as_bytes(), line)?, "{row}");
    }
    Ok(())
}

#[test]
fn texts_have_lines(rt: HostRuntime) -> Result<(), Fail> {
    for (text, line) in [
        (
            "unsigned\tf(unsigned a) // one\n{ return /* two */ 4294967295u ; }\n",
            "(program (f numbers ((a (nat 32))) ((nat 32)) (ret 4294967295)))",
        ),
        (
            "# 1 \"a.c\"\nunsigned f(unsigned f){return ((0x80000000))+f;}",
            "(program (f numbers ((f (nat 32))) ((nat 32)) (do () (guard (between 0 (add 2147483648 f) 4294967295)) (ret (add 2147483648 f)))))",
        ),
    ] {
        assert!(rt; is_shown(rt.alloc(), text.as_bytes(), line)?, "{text}");
    }
    Ok(())
}

// Counts, texts that have each second part between the bars as often, and their answers, at limits.
const LIMITS: &str = "\
63 int |n|; => (program..
64 int |n|; => source: long name at 4
1024 |void f(void){}| => source: twice at 19
1025 |void f(void){}| => limit: functions
200 void f(void){|;|} => (program..
201 void f(void){|;|} => limit: statements
196 void f(void){int a|,a|;for(int b;;);} => source: twice at 19
197 void f(void){int a|,a|;for(int b;;);} => limit: statements
32 void f(void){|{||}|} => (program..
33 void f(void){|{||}|} => limit: blocks
30 void f(int a){if(a);|else if(a);|else;} => (program..
31 void f(int a){if(a);|else if(a);|} => limit: blocks
31 unsigned f(unsigned a){return a|+a|;} => (program (f numbers ((a (nat 32))) ((nat 32)) (do () (guard (between 0 (add a a) 4294967295))..
32 unsigned f(unsigned a){return a|+a|;} => limit: depth
24 unsigned f(unsigned a){return (a+a)|+(a+a)|+a+a;} => (program (f numbers ..
24 unsigned f(unsigned a){return (a+a)|+(a+a)|+a+(a);} => limit: nodes
30 int a[sizeof(struct{int b[|(|1|)|];})]; => (program..";

// The same of deep and long texts.
const DEEP: &str = "\
31 int a[sizeof(struct{int b[|(|1|)|];})]; => limit: depth
31 void f(void){switch(a){case 1:|{||}|}} => source: unknown at 20
32 void f(void){switch(a){case 1:|{||}|}} => limit: blocks
31 int a=|!|x; => source: unknown at 37
32 int a=|!|x; => limit: depth
31 void g(void){f(x|+x|);} => source: unknown at 15
32 void g(void){f(x|+x|);} => limit: depth
32 void f(void){a=x|+x|;|{|{|}|}} => limit: depth
100000 int f(void){return |(|1|)|;} => limit: depth
99999 int f(void){return |(|(1|)|;} => source: syntax at 200019
100000 void f(void){|{||}|} => limit: blocks
100000 void f(void){|{||}| => source: syntax at 200013
100000 enum{a|,a|}; => source: twice at 7
80000 int a|[1]|; => (program..
262144 |;| => source: syntax at 0
262144 |(| => source: syntax at 0
131072 |/*| => source: open comment at 262140
262144 |n| => source: long name at 0";

// Appends so many copies of a part.
fn repeat(text: &mut Vec<u8>, part: &str, count: usize) -> Result<(), AllocError> {
    for _ in 0..count {
        text.extend_from_slice(part.as_bytes())?;
    }
    Ok(())
}

// The text of a pattern.
fn text_of(alloc: Global, pattern: &str, count: usize) -> Result<Vec<u8>, AllocError> {
    let mut text = Vec::new(alloc);
    let mut is_repeated = false;
    for part in pattern.split('|') {
        repeat(&mut text, part, if is_repeated { count } else { 1 })?;
        is_repeated = !is_repeated;
    }
    Ok(text)
}

// Whether a row's text is shown as the row says.
fn is_row(alloc: Global, row: &str) -> Result<bool, Fail> {
    let (count, rest) = row.split_once(' ').ok_or("no count")?;
    let (pattern, line) = rest.split_once(" => ").ok_or("no row")?;
    let count = count.parse::<usize>().ok().ok_or("no number")?;
    let text = text_of(alloc, pattern, count)?;
    Ok(is_shown(alloc, &text, line)?)
}

#[test]
fn limits_are_told(rt: HostRuntime) -> Result<(), Fail> {
    for row in LIMITS.lines() {
        assert!(rt; is_row(rt.alloc(), row)?, "{row}");
    }
    Ok(())
}

#[test]
fn deep_texts_are_answered(rt: HostRuntime) -> Result<(), Fail> {
    for row in DEEP.lines() {
        assert!(rt; is_row(rt.alloc(), row)?, "{row}");
    }
    Ok(())
}

#[test]
fn long_texts_pass_the_limit(rt: HostRuntime) -> Result<(), Fail> {
    let mut text = vec![in rt.alloc(); b' '; 262_144]?;
    assert!(rt; is_shown(rt.alloc(), &text, "(program)")?);
    text.push(b' ')?;
    assert!(rt; is_shown(rt.alloc(), &text, "limit: source")?);
    Ok(())
}

// Words about the sum, and what is said.
const WORDS: &str = "\
show => words: no command of this form
show a.c bytes => words: no command of this form
--help => words: no command of this form
show a.c words=g => words: unknown g
show a.c bytes=f words= bytes=g => words: unknown\x20
translate a.c words=g => words: unknown g
check a.c c.cert => read fault: c.cert
trial 201 target=lp64 => limit: count
show b.c => read fault: b.c";

// Whether that is said of the sum.
fn is_said(alloc: Global, words: &str, lines: &str) -> Result<bool, AllocError> {
    Ok(said(alloc, words, &Files::of(SUM.as_bytes()))?.is(lines))
}

#[test]
fn words_have_forms(rt: HostRuntime) -> Result<(), Fail> {
    for row in WORDS.lines() {
        let (words, line) = row.split_once(" => ").ok_or("no row")?;
        assert!(rt; is_said(rt.alloc(), words, line)?, "{row}");
    }
    let none = answer_to(rt.alloc(), &[], &Files::of(SUM.as_bytes()), &SOUND)?;
    assert!(rt; none.is("words: no command of this form"));
    Ok(())
}

#[test]
fn a_sum_is_shown_and_printed(rt: HostRuntime) -> Result<(), Fail> {
    for (words, lines) in [
        ("show a.c target=ilp32", SUM_SHOWN),
        ("print a.c", SUM_PRINTED),
        ("show a.c", SUM_SHOWN),
    ] {
        assert!(rt; is_said(rt.alloc(), words, lines)?, "{words}");
    }
    Ok(())
}

// Words that write the certificate of the sum, and how it begins.
const CERTIFICATES: &str = "\
translate a.c target=ilp32 => (cert 2 ilp32 (fun f numbers (exception ..
translate a.c target=lp64 => (cert 2 lp64 (fun f numbers (exception ..
translate a.c bytes=f => (cert 2 ilp32 (fun f bytes (exception ..";

// Whether the words write a certificate that begins so.
fn is_certificate(alloc: Global, words: &str, start: &str) -> Result<bool, AllocError> {
    let answer = said(alloc, words, &Files::of(SUM.as_bytes()))?;
    Ok(answer.is(start) && read(alloc, &answer.taken).is_ok())
}

#[test]
fn certificates_are_written(rt: HostRuntime) -> Result<(), Fail> {
    for row in CERTIFICATES.lines() {
        let (words, start) = row.split_once(" => ").ok_or("no row")?;
        assert!(rt; is_certificate(rt.alloc(), words, start)?, "{row}");
    }
    Ok(())
}

const SAMPLE: &str = "\
struct node { unsigned v; struct node *next; };
unsigned f0(unsigned a, unsigned b) { return a + b * 3u; }
int f1(int a, int b) { if (b == 0) return 11; return a / b; }
unsigned f2(struct node *p) { unsigned n = 0; while (p) { n = n + p->v; p = p->next; } return n; }
void f3(unsigned *p, unsigned *q) { unsigned t = *p; *p = *q; *q = t + 33u; }
unsigned f4(unsigned a, unsigned b) { unsigned r; r = f0(a, b); return r; }
unsigned f5(unsigned a, unsigned b) { return a + b * 63u; }";

// A sample's first functions, of each shape, which are shown, and that the largest one is written.
#[test]
fn samples_are_shown(rt: HostRuntime) -> Result<(), Fail> {
    assert!(rt; said(rt.alloc(), "sample 6", &NO_FILES)?.is(SAMPLE));
    assert!(rt; said(rt.alloc(), "sample 200", &NO_FILES)?.is("struct node .."));
    assert!(rt; is_shown(rt.alloc(), SAMPLE.as_bytes(), "(program (f0 numbers ..")?);
    Ok(())
}

// How the function begins that options choose a level or the target of.
const LEVELS: &str = "\
show a.c => (program (f numbers ((a (nat 32))) ((nat 32)) ..
show a.c target=lp64 => (program (f numbers ((a (nat 64))) ((nat 64)) ..
show a.c words=f => (program (f words ((a (w 32))) ((w 32)) ..
show a.c words=f target=lp64 => (program (f words ((a (w 64))) ((w 64)) ..
show a.c bytes=f words=f => (program (f bytes ((a (w 32))) ((w 32)) ..";

#[test]
fn options_choose_levels_and_the_target(rt: HostRuntime) -> Result<(), Fail> {
    let long = Files::of(b"unsigned long f(unsigned long a){return a+a;}");
    for row in LEVELS.lines() {
        let (words, start) = row.split_once(" => ").ok_or("no row")?;
        assert!(rt; said(rt.alloc(), words, &long)?.is(start), "{row}");
    }
    Ok(())
}

// What is said of a function of 200 stores, each of which is four commands, and on bytes three,
// since no tag is watched there. The names in options are asked before.
const STORES: &str = "\
show a.c => limit: commands
print a.c => limit: commands
translate a.c => limit: commands
show a.c bytes=w => (program..
show a.c words=v => words: unknown v";

#[test]
fn functions_have_a_limit_of_commands(rt: HostRuntime) -> Result<(), Fail> {
    let pattern = "void w(unsigned *p){|*p=0;|}";
    let fits = text_of(rt.alloc(), pattern, 199)?;
    assert!(rt; is_shown(rt.alloc(), &fits, "(program..")?);
    let long = text_of(rt.alloc(), pattern, 200)?;
    for row in STORES.lines() {
        let (words, line) = row.split_once(" => ").ok_or("no row")?;
        assert!(rt;
            said(rt.alloc(), words, &Files::of(&long))?.is(line),
            "{row}"
        );
    }
    Ok(())
}

// At a step, each call that is made fails in turn: so many on the shelf, and so many on the sink.
#[test]
fn each_failure_outside_is_told(rt: HostRuntime) -> Result<(), Fail> {
    let sum = Files::of(SUM.as_bytes());
    for (step, read, written) in [(1, 48, 126), (4, 13, 32), (u64::MAX, 2, 1)] {
        let found = reads(rt.alloc(), "show a.c", &sum, step, SUM_SHOWN)?;
        assert!(rt; found == Some(read), "{found:?}");
        let found = writes(rt.alloc(), "show a.c", &sum, step, SUM_SHOWN)?;
        assert!(rt; found == Some(written), "{found:?}");
    }
    Ok(())
}
