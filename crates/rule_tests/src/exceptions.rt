//! Tests of the rules that take exceptions out of commands. `test_tables` says
//! what is in a row.

use crate::sizes::{nested, repeated};
use exception_elim::translate;
use rule_exn::{Rule, check};
use simpl_lang::{Simpl, is_flat};
use std::alloc::Global;
use std::test::Fail;
use test_tables::{Row, Rules, is_remark, tree};
use test_texts::command;

// The rules by name.
struct ExceptionRules;

impl Rules for ExceptionRules {
    type Rule = Rule;

    fn named(_: Global, name: &str) -> Result<Rule, Fail> {
        Ok(match name {
            "skip" => Rule::Skip,
            "set" => Rule::Set,
            "pick" => Rule::Pick,
            "call" => Rule::Call,
            "throw" => Rule::Throw,
            "seq_plain" => Rule::SeqPlain,
            "seq_test" => Rule::SeqTest,
            "cond" => Rule::Cond,
            "guard" => Rule::Guard,
            "while_plain" => Rule::WhilePlain,
            "while_test" => Rule::WhileTest,
            "catch_plain" => Rule::CatchPlain,
            "catch_test" => Rule::CatchTest,
            "catch_skip" => Rule::CatchSkip,
            _ => return Err(Fail::from("no such rule")),
        })
    }
}

// Whether the kernel says what a row does.
fn agrees(alloc: Global, row: &Row<'_>) -> Result<bool, Fail> {
    let t = tree::<ExceptionRules>(alloc, row.rules)?;
    let left = command(alloc, row.left)?;
    let right = command(alloc, row.right)?;
    Ok(row.says(check(&t, &left, &right)))
}

// The same of a line.
fn is_so(alloc: Global, line: &str) -> Result<bool, Fail> {
    if is_remark(line) {
        return Ok(true);
    }
    agrees(alloc, &Row::read(line)?)
}

const INSTANCES: &str = "\
skip | skip | skip | ok
set | (set x (w 32 1)) | (set x (w 32 1)) | ok
set | (gset x () (w 32 1)) | (gset x () (w 32 1)) | ok
set | (store uint p () (w 32 1)) | (store uint p () (w 32 1)) | ok
pick | (pick x) | (pick x) | ok
call | (call x f x) | (call x f x) | ok
throw | throw | (set $thrown #t) | ok
2seq_plain set throw | (seq (set x (w 32 1)) throw) | (seq (set x (w 32 1)) (set $thrown #t)) | ok
2seq_test throw set | (seq throw (set x (w 32 1))) | \
    (seq (set $thrown #t) (cond $thrown skip (set x (w 32 1)))) | ok
2seq_test set set | (seq (set x (w 32 1)) (set x (w 32 1))) | \
    (seq (set x (w 32 1)) (cond $thrown skip (set x (w 32 1)))) | ok
2cond throw set | (cond e throw (set x (w 32 1))) | (cond e (set $thrown #t) (set x (w 32 1))) | ok
1guard throw | (guard div g throw) | (guard div g (set $thrown #t)) | ok
1while_plain set | (while ((pointer g) (bounds g)) e (set x (w 32 1))) | \
    (while ((pointer g) (bounds g)) e (set x (w 32 1))) | ok
1while_test throw | (while ((pointer g) (bounds g)) e throw) | \
    (while ((pointer (imp (not $thrown) g)) (bounds (imp (not $thrown) g))) (and (not $thrown) e) \
    (set $thrown #t)) | ok
1while_test set | (while ((pointer g) (bounds g)) e (set x (w 32 1))) | \
    (while ((pointer (imp (not $thrown) g)) (bounds (imp (not $thrown) g))) (and (not $thrown) e) \
    (set x (w 32 1))) | ok
1catch_plain set | (catch (set x (w 32 1)) throw) | (set x (w 32 1)) | ok
2catch_test throw set | (catch throw (set x (w 32 1))) | \
    (seq (set $thrown #t) (cond $thrown (seq (set $thrown #f) (set x (w 32 1))) skip)) | ok
1catch_skip throw | (catch throw skip) | (seq (set $thrown #t) (set $thrown #f)) | ok
1catch_skip set | (catch (set x (w 32 1)) skip) | (seq (set x (w 32 1)) (set $thrown #f)) | ok
2seq_plain 1catch_skip throw throw | (seq (catch throw skip) throw) | \
    (seq (seq (set $thrown #t) (set $thrown #f)) (set $thrown #t)) | ok
# the body of a function that returns a constant
1catch_skip 2seq_test 2seq_plain set 2seq_plain set throw 1guard skip | \
    (catch (seq (seq (set x (w 32 1)) (set x (w 32 1)) throw) (guard div g skip)) skip) | \
    (seq (seq (seq (set x (w 32 1)) (set x (w 32 1)) (set $thrown #t)) (cond $thrown skip (guard \
    div g skip))) (set $thrown #f)) | ok";

#[test]
fn instances_of_each_rule(rt: HostRuntime) -> Result<(), Fail> {
    for line in INSTANCES.lines() {
        assert!(rt; is_so(rt.alloc(), line)?, "{line}");
    }
    Ok(())
}

const OTHERS: &str = "\
set | skip | skip | 0
skip | (set x (w 32 1)) | (set x (w 32 1)) | 0
skip | skip | (set x (w 32 1)) | 0
set | (set x (w 32 1)) | (set x (w 32 2)) | 0
set | (set x (w 32 1)) | (gset x () (w 32 1)) | 0
set | (pick x) | (pick x) | 0
pick | (pick x) | (pick y) | 0
call | (call x f x) | (call x g x) | 0
throw | throw | throw | 0
throw | throw | (set $thrown #f) | 0
1skip skip | skip | skip | 0
2seq_plain throw skip | (seq throw skip) | (seq (set $thrown #t) skip) | 0
1seq_plain set | (seq (set x (w 32 1)) (set x (w 32 1))) | \
    (seq (set x (w 32 1)) (set x (w 32 1))) | 0
3seq_plain set set set | (seq (set x (w 32 1)) (set x (w 32 1))) | \
    (seq (set x (w 32 1)) (set x (w 32 1))) | 0
2seq_plain skip set | (seq (set x (w 32 1)) (set x (w 32 1))) | \
    (seq (set x (w 32 1)) (set x (w 32 1))) | 1
2seq_plain set skip | (seq (set x (w 32 1)) (set x (w 32 1))) | \
    (seq (set x (w 32 1)) (set x (w 32 1))) | 2
2seq_plain set pick | (seq (set x (w 32 1)) (pick x)) | (seq (pick x) (set x (w 32 1))) | 1
2seq_test throw set | (seq throw (set x (w 32 1))) | \
    (seq (set $thrown #t) (cond $thrown (set x (w 32 1)) skip)) | 0
2seq_test throw set | (seq throw (set x (w 32 1))) | \
    (seq (set $thrown #t) (cond e skip (set x (w 32 1)))) | 0
2seq_test throw set | (seq throw (set x (w 32 1))) | (seq (set $thrown #t) (set x (w 32 1))) | 0
2cond set set | (cond e (set x (w 32 1)) (set x (w 32 1))) | \
    (cond $thrown (set x (w 32 1)) (set x (w 32 1))) | 0
2cond 1guard set pick | (cond e (guard div g (set x (w 32 1))) (pick x)) | \
    (cond e (guard div g (set x (w 32 1))) (set x (w 32 1))) | 3
1guard set | (guard div g (set x (w 32 1))) | (guard div h (set x (w 32 1))) | 0
1guard set | (guard div g (set x (w 32 1))) | (guard tag g (set x (w 32 1))) | 0
1while_plain throw | (while ((pointer g) (bounds g)) e throw) | \
    (while ((pointer g) (bounds g)) e (set $thrown #t)) | 0
1while_plain set | (while ((pointer g) (bounds g)) e (set x (w 32 1))) | \
    (while ((pointer (imp (not $thrown) g)) (bounds (imp (not $thrown) g))) (and (not $thrown) e) \
    (set x (w 32 1))) | 0
1while_test throw | (while ((pointer g) (bounds g)) e throw) | \
    (while ((pointer g) (bounds g)) (and (not $thrown) e) (set $thrown #t)) | 0
1while_test throw | (while ((pointer g) (bounds g)) e throw) | \
    (while ((pointer (imp (not $thrown) g)) (bounds (imp (not $thrown) g))) e (set $thrown #t)) | 0
1catch_plain throw | (catch throw (set x (w 32 1))) | (set $thrown #t) | 0
2catch_plain set throw | (catch (set x (w 32 1)) throw) | (set x (w 32 1)) | 0
2catch_test throw set | (catch throw (set x (w 32 1))) | \
    (seq (set $thrown #t) (cond $thrown (seq (set $thrown #t) (set x (w 32 1))) skip)) | 0
2catch_test throw set | (catch throw (set x (w 32 1))) | \
    (seq (set $thrown #t) (cond $thrown (set x (w 32 1)) skip)) | 0
1catch_skip throw | (catch throw (set x (w 32 1))) | (seq (set $thrown #t) (set $thrown #f)) | 0
1catch_skip throw | (catch throw skip) | (seq (set $thrown #t) (set $thrown #t)) | 0
1catch_skip throw | (catch throw skip) | (set $thrown #t) | 0
# the body of a function that returns a constant, and its guard left out
1catch_skip 2seq_test 2seq_plain set 2seq_plain set throw 1guard skip | \
    (catch (seq (seq (set x (w 32 1)) (set x (w 32 1)) throw) (guard div g skip)) skip) | \
    (seq (seq (seq (set x (w 32 1)) (set x (w 32 1)) (set $thrown #t)) (cond $thrown skip skip)) \
    (set $thrown #f)) | 7";

#[test]
fn nodes_that_are_no_instances(rt: HostRuntime) -> Result<(), Fail> {
    for line in OTHERS.lines() {
        assert!(rt; is_so(rt.alloc(), line)?, "{line}");
    }
    Ok(())
}

// Whether the rules take a command to its translation, which is flat.
fn is_taken(alloc: Global, left: &Simpl) -> Result<bool, Fail> {
    let (right, tree) = translate(alloc, left)?;
    Ok(check(&tree, left, &right).is_ok() && is_flat(&right))
}

#[test]
fn long_spines_are_translated_and_checked(rt: HostRuntime) -> Result<(), Fail> {
    let alloc = rt.alloc();
    for head in ["seq", "seq_throw", "while"] {
        for inner in ["skip", "throw"] {
            let c = nested(alloc, head, 1_000_000, inner)?;
            assert!(rt; is_taken(alloc, &c)?, "{head} {inner}");
        }
    }
    Ok(())
}

#[test]
fn deep_nesting_is_translated_and_checked(rt: HostRuntime) -> Result<(), Fail> {
    let alloc = rt.alloc();
    for head in ["seq_left", "catch_left", "catch_throw"] {
        for inner in ["skip", "throw"] {
            let c = nested(alloc, head, 4_096, inner)?;
            assert!(rt; is_taken(alloc, &c)?, "{head} {inner}");
        }
    }
    Ok(())
}

// A straight line, nested loops that are left, and nested choices, of 100, 200, 400 and 800
// commands.
const SIZES: &str = "\
50 100 200 400 | *(seq *(set x (w 32 1)) *(set x (w 32 1)))
11 22 44 89 | (catch (while ((pointer g) (bounds g)) e (catch (seq (cond e throw skip) \
    *(set x (w 32 1))*) skip)) skip)
25 50 100 200 | (cond e (seq (set x (w 32 1)) *(set x (w 32 1))*) skip)";

// Whether the commands of a line are taken at each size.
fn are_taken(alloc: Global, line: &str) -> Result<bool, Fail> {
    let (sizes, text) = line.split_once(" | ").ok_or("no sizes")?;
    for size in sizes.split(' ') {
        let c = repeated(alloc, text, size.parse::<u32>()?)?;
        if !is_taken(alloc, &c)? {
            return Ok(false);
        }
    }
    Ok(true)
}

#[test]
fn commands_of_many_sizes(rt: HostRuntime) -> Result<(), Fail> {
    for line in SIZES.lines() {
        assert!(rt; are_taken(rt.alloc(), line)?, "{line}");
    }
    Ok(())
}
