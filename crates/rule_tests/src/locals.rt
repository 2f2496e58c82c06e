//! Tests of the rules that lift locals. In front of a row stands the output that the program
//! gives; `test_tables` says what else is in it.

use crate::sizes::{nested, repeated};
use expression_lang::{Binder, Kind};
use local_lift::translate;
use monad_lang::Mon;
use rule_local::{Context, Rule, check};
use rule_trees::{At, Tree};
use simpl_lang::Simpl;
use std::alloc::{AllocError, Global};
use std::test::Fail;
use test_tables::{Row, Rules, is_remark, tree};
use test_texts::{command, program};

// The rules by name.
struct LocalRules;

impl Rules for LocalRules {
    type Rule = Rule;

    fn named(_: Global, name: &str) -> Result<Rule, Fail> {
        Ok(match name {
            "skip" => Rule::Skip,
            "set" => Rule::Set,
            "dead" => Rule::Dead,
            "global" => Rule::Global,
            "memory" => Rule::Memory,
            "pick" => Rule::Pick,
            "seq" => Rule::Seq,
            "cond" => Rule::Cond,
            "guard" => Rule::Guard,
            "while" => Rule::While,
            "call" => Rule::Call,
            "void" => Rule::Void,
            "start" => Rule::Start,
            _ => return Err(Fail::from("no such rule")),
        })
    }
}

// The names of words, of this kind.
fn push_names(
    alloc: Global,
    words: &str,
    kind: Kind,
    binders: &mut Vec<Binder>,
) -> Result<(), AllocError> {
    for word in words.split(' ') {
        let name = String::from_str(alloc, word)?;
        binders.push(Binder { name, kind })?;
    }
    Ok(())
}

// The parameters: a word, a pointer, and truth values for tests and guards.
fn parameters(alloc: Global) -> Result<Vec<Binder>, AllocError> {
    let mut parameters = Vec::new(alloc);
    push_names(alloc, "a p", Kind::Word(32), &mut parameters)?;
    push_names(alloc, "e g h", Kind::Bool, &mut parameters)?;
    Ok(parameters)
}

// All locals.
fn locals(alloc: Global) -> Result<Vec<Binder>, AllocError> {
    let mut locals = parameters(alloc)?;
    push_names(alloc, "x y $ret $exn", Kind::Word(32), &mut locals)?;
    push_names(alloc, "$thrown", Kind::Bool, &mut locals)?;
    Ok(locals)
}

fn outputs(alloc: Global, name: &str) -> Result<Vec<String>, AllocError> {
    let mut outputs = Vec::new(alloc);
    outputs.push(String::from_str(alloc, name)?)?;
    Ok(outputs)
}

// What the kernel says, where this is the output.
fn verdict(
    alloc: Global,
    output: &str,
    t: &Tree<Rule>,
    left: &Simpl,
    right: &Mon,
) -> Result<Result<(), At>, AllocError> {
    let locals = locals(alloc)?;
    let parameters = parameters(alloc)?;
    let outputs = outputs(alloc, output)?;
    let context = Context {
        locals: &locals,
        parameters: &parameters,
    };
    Ok(check(t, left, right, &outputs, context))
}

// Whether it says what a row does.
fn agrees(alloc: Global, output: &str, row: &Row<'_>) -> Result<bool, Fail> {
    let t = tree::<LocalRules>(alloc, row.rules)?;
    let left = command(alloc, row.left)?;
    let right = program(alloc, row.right)?;
    Ok(row.says(verdict(alloc, output, &t, &left, &right)?))
}

// The same of a line.
fn is_so(alloc: Global, line: &str) -> Result<bool, Fail> {
    match line.split_once(" | ") {
        Some((output, cells)) => agrees(alloc, output, &Row::read(cells)?),
        None => Ok(is_remark(line)),
    }
}

const INSTANCES: &str = "\
a | skip | skip | (ret a) | ok
x | set | (set x (w 32 1)) | (ret (w 32 1)) | ok
a | dead | (set x (w 32 1)) | (ret a) | ok
a | global | (gset x () (w 32 1)) | (do () (gset x () (w 32 1)) (ret a)) | ok
a | memory | (store uint p () (w 32 1)) | (do () (store uint p () (w 32 1)) (ret a)) | ok
x | pick | (pick x) | (do (x) (pick (w 32)) (ret x)) | ok
x | 2seq set skip | (seq (set x (w 32 1)) skip) | (do (x) (ret (w 32 1)) (ret x)) | ok
a | 2seq dead skip | (seq (set x (w 32 1)) skip) | (do () (ret) (ret a)) | ok
x | 2cond set pick | (cond e (set x (w 32 1)) (pick x)) | \
    (if e (ret (w 32 1)) (do (x) (pick (w 32)) (ret x))) | ok
x | 1guard set | (guard div g (set x (w 32 1))) | (do () (guard g) (ret (w 32 1))) | ok
x | 1start 1while set | (while ((pointer g) (bounds g)) e (set x (w 32 1))) | \
    (do (x) (ret (w 32 0)) (x) (loop ((x x)) (and g g) e (ret (w 32 1))) (ret x)) | ok
a | 1while dead | (while ((pointer g) (bounds g)) e (set x (w 32 1))) | \
    (do () (loop () (and g g) e (ret)) (ret a)) | ok
x | 1start call | (call x f x) | (do (x) (ret (w 32 0)) (x) (call f x) (ret x)) | ok
x | 1start skip | skip | (do (x) (ret (w 32 0)) (ret x)) | ok
# the body of a function that returns a constant, once exceptions are taken out of it
$ret | 2seq 2seq 2seq set 2seq dead set 2cond skip 1guard skip dead | \
    (seq (seq (seq (set $ret (w 32 1)) (set $exn (w 32 1)) (set $thrown #t)) (cond $thrown skip \
    (guard unreached #f skip))) (set $thrown #f)) | \
    (do ($ret) (do ($ret $thrown) (do ($ret) (ret (w 32 1)) () (ret) (ret $ret #t)) (if $thrown \
    (ret $ret) (do () (guard #f) (ret $ret)))) (ret $ret)) | ok";

#[test]
fn instances_of_each_rule(rt: HostRuntime) -> Result<(), Fail> {
    for line in INSTANCES.lines() {
        assert!(rt; is_so(rt.alloc(), line)?, "{line}");
    }
    Ok(())
}

const OTHERS: &str = "\
a | set | skip | (ret a) | 0
a | skip | skip | (ret p) | 0
a | skip | skip | (ret a a) | 0
a | 1skip skip | skip | (ret a) | 0
x | dead | (set x (w 32 1)) | (ret (w 32 1)) | 0
a | set | (set x (w 32 1)) | (ret a) | 0
x | set | (set x (w 32 1)) | (ret (w 32 0)) | 0
a | memory | (gset x () (w 32 1)) | (do () (gset x () (w 32 1)) (ret a)) | 0
a | global | (gset x () (w 32 1)) | (do () (store uint p () (w 32 1)) (ret a)) | 0
x | pick | (pick x) | (do (y) (pick (w 32)) (ret x)) | 0
x | 2seq dead skip | (seq (set x (w 32 1)) skip) | (do () (ret) (ret x)) | 0
x | 2seq skip set | (seq (set x (w 32 1)) (set x (w 32 1))) | \
    (do (x) (ret (w 32 1)) (ret (w 32 1))) | 1
x | 2seq set skip | (seq (set x (w 32 1)) (set x (w 32 1))) | \
    (do (x) (ret (w 32 1)) (ret (w 32 1))) | 2
x | 1seq set | (seq (set x (w 32 1)) skip) | (do (x) (ret (w 32 1)) (ret x)) | 0
x | 2cond set pick | (cond e (set x (w 32 1)) (pick x)) | \
    (if g (ret (w 32 1)) (do (x) (pick (w 32)) (ret x))) | 0
x | 1guard set | (guard div g (set x (w 32 1))) | (do () (guard h) (ret (w 32 1))) | 0
# a loop that leaves out a live local
x | 1start 1while dead | (while ((pointer g) (bounds g)) e (set x (w 32 1))) | \
    (do (x) (ret (w 32 0)) () (loop () (and g g) e (ret)) (ret x)) | 1
# a start that sets a parameter to zero, and one with another value
a | 1start skip | skip | (do (a) (ret (w 32 0)) (ret a)) | 0
x | 1start skip | skip | (do (x) (ret (w 32 1)) (ret x)) | 0
# no start, and one that isn't at the root
x | skip | skip | (ret x) | 0
x | 1guard 1start skip | (guard div g skip) | (do () (guard g) (x) (ret (w 32 0)) (ret x)) | 1";

#[test]
fn nodes_that_are_no_instances(rt: HostRuntime) -> Result<(), Fail> {
    for line in OTHERS.lines() {
        assert!(rt; is_so(rt.alloc(), line)?, "{line}");
    }
    Ok(())
}

// Whether the rules take a command to what its locals are lifted to, which is in bytes form.
fn is_lifted(
    left: &Simpl,
    context: Context<'_>,
    outputs: &[String],
    alloc: Global,
) -> Result<bool, Fail> {
    let (right, tree) = translate(alloc, left, context, outputs)?;
    Ok(check(&tree, left, &right, outputs, context).is_ok() && right.is_bytes())
}

// The same in a function with the locals above, which gives `x`.
fn is_lifted_here(alloc: Global, left: &Simpl) -> Result<bool, Fail> {
    let locals = locals(alloc)?;
    let parameters = parameters(alloc)?;
    let outputs = outputs(alloc, "x")?;
    let context = Context {
        locals: &locals,
        parameters: &parameters,
    };
    is_lifted(left, context, &outputs, alloc)
}

#[test]
fn long_spines_are_lifted_and_checked(rt: HostRuntime) -> Result<(), Fail> {
    let alloc = rt.alloc();
    let c = nested(alloc, "seq", 1_000_000, "(call x f x)")?;
    assert!(rt; is_lifted_here(alloc, &c)?);
    Ok(())
}

#[test]
fn deep_nesting_is_lifted_and_checked(rt: HostRuntime) -> Result<(), Fail> {
    let alloc = rt.alloc();
    for head in ["seq_left", "cond_left", "while"] {
        let c = nested(alloc, head, 4_096, "(set x (w 32 1))")?;
        assert!(rt; is_lifted_here(alloc, &c)?, "{head}");
    }
    Ok(())
}

// A straight line, nested loops, and nested choices, of 100, 200, 400 and 800 commands.
const SIZES: &str = "\
50 100 200 400 | *(seq *(set x (w 32 1)) *(set x (w 32 1)))
25 50 100 200 | (while ((pointer g) (bounds g)) e (seq (set x (w 32 1)) *(set x (w 32 1))*))
25 50 100 200 | (cond e (seq (set x (w 32 1)) *(set x (w 32 1))*) skip)";

// Whether the commands of a line are lifted at each size.
fn are_lifted(alloc: Global, line: &str) -> Result<bool, Fail> {
    let (sizes, text) = line.split_once(" | ").ok_or("no sizes")?;
    for size in sizes.split(' ') {
        let c = repeated(alloc, text, size.parse::<u32>()?)?;
        if !is_lifted_here(alloc, &c)? {
            return Ok(false);
        }
    }
    Ok(true)
}

#[test]
fn commands_of_many_sizes(rt: HostRuntime) -> Result<(), Fail> {
    for line in SIZES.lines() {
        assert!(rt; are_lifted(rt.alloc(), line)?, "{line}");
    }
    Ok(())
}

// The names of 32 words.
fn many_names(alloc: Global) -> Result<Vec<Binder>, AllocError> {
    let mut names = Vec::new(alloc);
    for k in 0..32u32 {
        let name = format!(in alloc; "v{k}")?;
        push_names(alloc, name.as_str(), Kind::Word(32), &mut names)?;
    }
    Ok(names)
}

// A straight line of sets, as many as are asked, each of one of these names to another.
fn sets(alloc: Global, count: u32) -> Result<Simpl, Fail> {
    let mut text = String::from_str(alloc, "(seq ")?;
    for k in (0..count).rev() {
        let set = format!(in alloc; "(set v{} v{}) ", k % 32, k % 32 * 5 % 32)?;
        text.push_str(set.as_str())?;
    }
    text.push_str("skip)")?;
    command(alloc, text.as_str())
}

// Whether it is lifted.
fn is_line_lifted(alloc: Global, count: u32) -> Result<bool, Fail> {
    let locals = many_names(alloc)?;
    let outputs = outputs(alloc, "v0")?;
    let context = Context {
        locals: &locals,
        parameters: &[],
    };
    is_lifted(&sets(alloc, count)?, context, &outputs, alloc)
}

#[test]
fn sequences_over_many_locals(rt: HostRuntime) -> Result<(), Fail> {
    for count in [50, 100, 200, 400] {
        assert!(rt; is_line_lifted(rt.alloc(), count)?, "{count}");
    }
    Ok(())
}
