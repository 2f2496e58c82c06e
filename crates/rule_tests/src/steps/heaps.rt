//! Tests of the rules that take programs on bytes to typed heaps. `test_tables` says
//! what is in a row, and `test_programs` what the words are. Nothing is known at first.

use ac_expr::Facts;
use c_values::{Layout, Target};
use expression_lang::{Exp, Names};
use monad_lang::Mon;
use program_facts::Parts;
use rule_heap::{Context, Rule, check};
use rule_trees::{At, Tree};
use std::alloc::{AllocError, Global};
use std::test::Fail;
use test_programs::program_of;
use test_tables::{Row, Rules, is_remark, tree};

// An address that a rule says, by its name.
fn address(alloc: Global, name: &str) -> Result<Box<Exp>, AllocError> {
    Ok(Box::new(alloc, Exp::Var(String::from_str(alloc, name)?))?)
}

// The rules by name.
struct HeapRules;

impl Rules for HeapRules {
    type Rule = Rule;

    fn named(alloc: Global, name: &str) -> Result<Rule, Fail> {
        Ok(match name {
            "ret" => Rule::Ret,
            "bind" => Rule::Bind,
            "guard" => Rule::Guard,
            "if" => Rule::If,
            "global" => Rule::Global,
            "loop" => Rule::Loop,
            "call" => Rule::Call,
            "pick" => Rule::Pick,
            "write" => Rule::Write,
            "pointer" => Rule::Pointer,
            "drop_p" => Rule::Drop(address(alloc, "p")?),
            "drop_q" => Rule::Drop(address(alloc, "q")?),
            "same" => Rule::Same,
            "leaf" => Rule::Leaf,
            "load" => Rule::Load,
            "tagged" => Rule::Tagged,
            "ptrok" => Rule::PtrOk,
            "op" => Rule::Op,
            "and" => Rule::And,
            "or" => Rule::Or,
            "imp" => Rule::Imp,
            "cond" => Rule::Cond,
            "known_p" => Rule::Known(address(alloc, "p")?),
            "known_q" => Rule::Known(address(alloc, "q")?),
            _ => return Err(Fail::from("no such rule")),
        })
    }
}

// What the kernel says, where nothing is known.
fn verdict(l: &Layout, t: &Tree<Rule>, left: &Mon, right: &Mon) -> Result<(), At> {
    let names = Names::new();
    let facts: Facts<'_, Parts<'_>> = Facts::new(l, &[], &names);
    let context = Context {
        facts: &facts,
        layout: l,
    };
    check(t, left, right, context)
}

// Whether the kernel says what a row does.
fn agrees(alloc: Global, row: &Row<'_>) -> Result<bool, Fail> {
    let t = tree::<HeapRules>(alloc, row.rules)?;
    let left = program_of(alloc, row.left)?;
    let right = program_of(alloc, row.right)?;
    let l = Layout::build(Target::Ilp32, Vec::new(alloc))?;
    Ok(row.says(verdict(&l, &t, &left, &right)))
}

/// The same of a line.
pub(crate) fn is_so(alloc: Global, line: &str) -> Result<bool, Fail> {
    if is_remark(line) {
        return Ok(true);
    }
    agrees(alloc, &Row::read(line)?)
}

const INSTANCES: &str = "\
# what becomes of `return 7;`, with r for the result and u for the flag of exceptions
same | 1bind 2bind 1bind 1ret seven r bind ret 2ret r true r u \
    if u 1ret r bind guard false 1ret r r 1ret r | \
    1bind 2bind 1bind 1ret seven r bind ret 2ret r true r u \
    if u 1ret r bind guard false 1ret r r 1ret r | ok
# each rule
1ret leaf | 1ret a | 1ret a | ok
same | bind guard tagged p 1ret read p | bind guard tagged p 1ret read p | ok
1ret 2op leaf leaf | 1ret wadd a b | 1ret wadd a b | ok
2bind 1guard 1tagged leaf 1ret 1load leaf | bind guard tagged p 1ret load p | \
    bind guard tagged p 1ret read p | ok
3if 1tagged leaf 1ret 1load leaf 1ret leaf | if tagged p 1ret load p 1ret a | \
    if tagged p 1ret read p 1ret a | ok
1global leaf | set g one | set g one | ok
4loop leaf leaf leaf 1ret leaf | 1loop x a true b 1ret x | 1loop x a true b 1ret x | ok
3loop 1tagged leaf 2op 1load leaf leaf ret | loop tagged p wult load p a ret | \
    loop tagged p wult read p a ret | ok
1call leaf | 1call f a | 1call f a | ok
pick | pick | pick | ok
2bind 1guard 1tagged leaf 2write leaf 1load leaf | bind guard tagged p store p load p | \
    bind guard tagged p write p read p | ok
2pointer leaf 1ret 1load leaf | bind guard ptrok p bind guard tagged p 1ret load p | \
    bind guard tagged p 1ret read p | ok
2bind 1guard 1tagged leaf 2drop_p leaf 1ret leaf | \
    bind guard tagged p bind guard ptrok p 1ret a | bind guard tagged p 1ret a | ok
1ret 2and 1tagged leaf 2op 1load leaf leaf | 1ret and tagged p wult load p a | \
    1ret and tagged p wult read p a | ok
1ret 2or leaf leaf | 1ret or a b | 1ret or a b | ok
1ret 2imp 1tagged leaf 2op 1load leaf leaf | 1ret imp tagged p wult load p a | \
    1ret imp tagged p wult read p a | ok
1ret 3cond 1tagged leaf 1load leaf leaf | 1ret choose tagged p load p a | \
    1ret choose tagged p read p a | ok
2bind 1guard 1tagged leaf 1guard 1known_p leaf | bind guard tagged p guard ptrok p | \
    bind guard tagged p guard true | ok
2bind 1guard 1tagged leaf 2bind 1guard 1op 1op leaf 1ret 2load leaf 1op leaf | \
    bind guard tagged_row p bind guard index nat i 1ret load_at p nat i | \
    bind guard tagged_row p bind guard index nat i 1ret read_at p nat i | ok
2bind 1guard 1tagged leaf 2bind 1guard 1tagged 1load leaf 1ret 1load 1load leaf | \
    bind guard tagged p bind guard tagged load p 1ret load load p | \
    bind guard tagged p bind guard tagged read p 1ret read read p | ok";

#[test]
fn instances_of_each_rule(rt: HostRuntime) -> Result<(), Fail> {
    for line in INSTANCES.lines() {
        assert!(rt; is_so(rt.alloc(), line)?, "{line}");
    }
    Ok(())
}

const OTHERS: &str = "\
pick | 1ret a | 1ret a | 0
2ret leaf leaf | 1ret a | 1ret a | 0
1ret leaf | 1ret a | 2ret a a | 0
1ret leaf | 1ret a | 1ret b | 1
1ret leaf | 1ret load p | 1ret load p | 1
1ret 1op leaf | 1ret load p | 1ret load p | 1
same | 1ret load p | 1ret load p | 0
same | 1ret a | 1ret b | 0
pick | pick | pick_nat | 0
1call leaf | 1call f a | 1call g a | 0
1global leaf | set g one | set h one | 0
2bind 2ret leaf leaf ret | 2bind 2ret a b x y ret | 2bind 2ret a b y x ret | 0
4loop leaf leaf leaf 1ret leaf | 1loop x a true b 1ret x | 1loop y a true b 1ret x | 0
# the tag isn't known, or it is that of another address, or of another type
1ret 1load leaf | 1ret load p | 1ret read p | 1
2bind 1guard 1tagged leaf 1ret 1load leaf | bind guard tagged q 1ret load p | \
    bind guard tagged q 1ret read p | 5
2bind 1guard 1tagged leaf 1ret 1load leaf | bind guard tagged_row p 1ret load p | \
    bind guard tagged_row p 1ret read p | 5
# what may point isn't tagged
2bind 1guard 1ptrok leaf 1ret 1load leaf | bind guard ptrok p 1ret load p | \
    bind guard ptrok p 1ret read p | 5
# one side of an `or` doesn't give the other, nor a test what is done where it fails
1ret 2or 1tagged leaf 2op 1load leaf leaf | 1ret or tagged p wult load p a | \
    1ret or tagged p wult read p a | 5
3if 1tagged leaf 1ret leaf 1ret 1load leaf | if tagged p 1ret a 1ret load p | \
    if tagged p 1ret a 1ret read p | 6
# a fact goes where its name is bound again, where it reads and something is written, and in a loop
2bind 1guard 1tagged leaf 2bind 1ret leaf 1ret 1load leaf | \
    bind guard tagged p 1bind 1ret q p 1ret load p | \
    bind guard tagged p 1bind 1ret q p 1ret read p | 8
2bind 1guard 1tagged leaf 2bind 1guard 1tagged 1load leaf 2bind 2write leaf leaf 1ret 1load 1load leaf | \
    bind guard tagged p bind guard tagged load p bind store p a 1ret load load p | \
    bind guard tagged p bind guard tagged read p bind write p a 1ret read read p | 14
2bind 1guard 1tagged leaf 3loop leaf 2op 1load leaf leaf ret | \
    bind guard tagged p loop true wult load p a ret | \
    bind guard tagged p loop true wult read p a ret | 7
# an index isn't known to be of an element
2bind 1guard 1tagged leaf 1ret 2load leaf 1op leaf | \
    bind guard tagged_row p 1ret load_at p nat i | bind guard tagged_row p 1ret read_at p nat i | 5
2pointer leaf 1ret leaf | bind guard ptrok p bind guard tagged q 1ret a | \
    bind guard tagged q 1ret a | 0
2drop_p leaf 1ret leaf | bind guard ptrok p 1ret a | 1ret a | 0
2bind 1guard 1tagged leaf 2drop_q leaf 1ret leaf | \
    bind guard tagged p bind guard ptrok p 1ret a | bind guard tagged p 1ret a | 4
2bind 1guard 1tagged leaf 1guard 1known_p leaf | bind guard tagged p guard ptrok q | \
    bind guard tagged p guard true | 6
2bind 1guard 1tagged leaf 2write leaf leaf | bind guard tagged p store p a | \
    bind guard tagged p write q a | 4";

#[test]
fn nodes_that_are_no_instances(rt: HostRuntime) -> Result<(), Fail> {
    for line in OTHERS.lines() {
        assert!(rt; is_so(rt.alloc(), line)?, "{line}");
    }
    Ok(())
}
