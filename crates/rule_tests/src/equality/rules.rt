//! Tests of the rules of equality. `test_tables` says what is in a row, and `test_programs` what
//! the words are. The function has the natural numbers `a` and `b`, the words `p` and `q` and the
//! truth value `t`; it may call `f`, which takes a natural number and gives one, and write the
//! global `g`. Nothing is known at first.

use ac_expr::Facts;
use c_values::{GlobalVar, Layout, Target, Value, Word};
use expression_lang::{Binder, Kind, Level, Names, Signature};
use monad_lang::Mon;
use monad_sorts::{Functions, Inside, Setting, give_same};
use program_facts::Parts;
use program_sorts::Phase;
use rule_eq::{Rule, check};
use rule_trees::{At, Tree};
use std::alloc::{AllocError, Global};
use std::test::Fail;
use test_programs::{int, program_of};
use test_tables::{Row, Rules, is_remark, tree};

// The rules by name.
struct EqualityRules;

// The rule of a program between.
fn through(alloc: Global, words: &str) -> Result<Rule, Fail> {
    Ok(Rule::Trans(Box::new(alloc, program_of(alloc, words)?)?))
}

impl Rules for EqualityRules {
    type Rule = Rule;

    fn named(alloc: Global, name: &str) -> Result<Rule, Fail> {
        Ok(match name {
            "refl" => Rule::Refl,
            "through_x" => return through(alloc, "1bind 1ret a x 1ret x"),
            "through_a" => return through(alloc, "1ret a"),
            "through_t" => return through(alloc, "1ret t"),
            "through_both" => return through(alloc, "2ret a a"),
            "through_ill" => return through(alloc, "1ret add t a"),
            "bind" => Rule::Bind,
            "if" => Rule::If,
            "loop" => Rule::Loop,
            "ret_first" => Rule::RetOne(0),
            "ret_second" => Rule::RetOne(1),
            "ret_third" => Rule::RetOne(2),
            "ret_far" => Rule::RetOne(u32::MAX),
            "bind_ret" => Rule::BindRet,
            "assoc" => Rule::Assoc,
            "if_const" => Rule::IfConst,
            "guard_known" => Rule::GuardKnown,
            "exp" => Rule::Exp,
            _ => return Err(Fail::from("no such rule")),
        })
    }
}

fn binder(alloc: Global, name: &str, kind: Kind) -> Result<Binder, AllocError> {
    Ok(Binder {
        name: String::from_str(alloc, name)?,
        kind,
    })
}

// The names in scope.
fn parameters(alloc: Global) -> Result<Vec<Binder>, AllocError> {
    let mut params = Vec::new(alloc);
    for (name, kind) in [
        ("a", Kind::Nat(32)),
        ("b", Kind::Nat(32)),
        ("p", Kind::Word(32)),
        ("q", Kind::Word(32)),
        ("t", Kind::Bool),
    ] {
        params.push(binder(alloc, name, kind)?)?;
    }
    Ok(params)
}

// What may be called.
fn functions(alloc: Global) -> Result<Vec<Signature>, AllocError> {
    let mut params = Vec::new(alloc);
    params.push(binder(alloc, "x", Kind::Nat(32))?)?;
    let mut functions = Vec::new(alloc);
    functions.push(Signature {
        name: String::from_str(alloc, "f")?,
        level: Level::Numbers,
        params,
        result: Some(Kind::Nat(32)),
    })?;
    Ok(functions)
}

fn globals(alloc: Global) -> Result<Vec<GlobalVar>, AllocError> {
    let mut globals = Vec::new(alloc);
    globals.push(GlobalVar {
        name: String::from_str(alloc, "g")?,
        ty: int(),
        initial: Value::Word(Word::new(32, 0)),
    })?;
    Ok(globals)
}

// What the kernel says, where both sides are well-sorted.
fn verdict(
    setting: Setting<'_>,
    inside: &Inside<'_>,
    t: &Tree<Rule>,
    left: &Mon,
    right: &Mon,
) -> Result<Result<(), At>, Fail> {
    if !give_same(left, left, inside, setting) || !give_same(right, right, inside, setting) {
        return Err(Fail::from("a side is not well-sorted"));
    }
    let names = Names::new();
    let facts: Facts<'_, Parts<'_>> = Facts::new(setting.layout, setting.globals, &names);
    Ok(check(t, left, right, setting, &facts, inside))
}

// Whether it says what a row does.
fn agrees(
    alloc: Global,
    row: &Row<'_>,
    setting: Setting<'_>,
    inside: &Inside<'_>,
) -> Result<bool, Fail> {
    let t = tree::<EqualityRules>(alloc, row.rules)?;
    let left = program_of(alloc, row.left)?;
    let right = program_of(alloc, row.right)?;
    Ok(row.says(verdict(setting, inside, &t, &left, &right)?))
}

/// Whether the kernel says what the row of a line does.
pub(crate) fn is_so(alloc: Global, line: &str) -> Result<bool, Fail> {
    if is_remark(line) {
        return Ok(true);
    }
    let row = Row::read(line)?;
    let layout = Layout::build(Target::Ilp32, Vec::new(alloc))?;
    let globals = globals(alloc)?;
    let functions = functions(alloc)?;
    let parameters = parameters(alloc)?;
    let callable = Functions::Signatures(&functions);
    let setting = Setting {
        layout: &layout,
        globals: &globals,
        functions: callable,
        phase: Phase::OnNumbers,
    };
    let inside = Inside::Parameters(&parameters, Phase::OnNumbers);
    agrees(alloc, &row, setting, &inside)
}

const INSTANCES: &str = "\
refl | 1ret a | 1ret a | ok
2through_x if_const ret_first | if true 1bind 1ret a x 1ret x 1ret b | 1ret a | ok
2bind exp refl | bind guard not not t 1ret a | bind guard t 1ret a | ok
2if exp refl | if t 1ret add a n0 1ret b | if t 1ret a 1ret b | ok
1loop exp | 1loop x a true t 1ret add x n0 | 1loop x a true t 1ret x | ok
# a value that is put in, alone or beside others
ret_first | 1bind 1ret a x 1ret x | 1ret a | ok
ret_first | 2bind 2ret a b x y 2ret x y | 1bind 1ret b y 2ret a y | ok
ret_second | 2bind 2ret a b x y 2ret x y | 1bind 1ret a x 2ret x b | ok
ret_second | 3bind 3ret a b t x y z 2ret x y | 2bind 2ret a t x z 2ret x b | ok
ret_first | 1bind 1ret add a b x 1loop y x lt y x lt x y 1ret add y x | \
    1loop y add a b lt y add a b lt add a b y 1ret add y add a b | ok
ret_first | 1bind 1ret p x bind write x q bind write q x bind set g x 1call f nat x | \
    bind write p q bind write q p bind set g p 1call f nat p | ok
ret_first | 1bind 1ret t x if x 1ret x 1bind pick_truth y 1ret eq x y | \
    if t 1ret t 1bind pick_truth y 1ret eq t y | ok
# it reads, but nothing asks for it
ret_first | 1bind 1ret read p x 1ret a | 1ret a | ok
ret_first | 1bind 1ret read p x 1bind 1ret a x 1ret x | 1bind 1ret a x 1ret x | ok
# what is bound again stays as it is
ret_first | 1bind 1ret a x 1bind 1ret add x n1 x 1ret x | 1bind 1ret add a n1 x 1ret x | ok
ret_first | 1bind 1ret a x 1loop x x t t 1ret x | 1loop x a t t 1ret x | ok
# a name of it is bound where nothing asks for it, or in what doesn't reach there
ret_first | 1bind 1ret b x 1bind 1ret a b 1ret b | 1bind 1ret a b 1ret b | ok
ret_first | 1bind 1ret b x 1bind 1ret x b 1ret b | 1bind 1ret b b 1ret b | ok
ret_first | 1bind 1ret b x 1bind 1ret a x 1bind 1ret a b 1ret x | \
    1bind 1ret a x 1bind 1ret a b 1ret x | ok
ret_first | 1bind 1ret b x 1loop b x t t 1ret b | 1loop b b t t 1ret b | ok
ret_first | 1bind 1ret b x if t 1bind 1ret a b 1ret b 1ret x | \
    if t 1bind 1ret a b 1ret b 1ret b | ok
bind_ret | 1bind 1call f a x 1ret x | 1call f a | ok
bind_ret | 2bind 2ret a t x y 2ret x y | 2ret a t | ok
bind_ret | bind ret 1ret a | 1ret a | ok
assoc | 1bind 1bind 1call f a x 1ret x y 1ret y | 1bind 1call f a x 1bind 1ret x y 1ret y | ok
assoc | 1bind 1bind 1call f b a 1ret a a 1ret a | 1bind 1call f b a 1bind 1ret a a 1ret a | ok
if_const | if true 1ret a 1ret b | 1ret a | ok
if_const | if false 1ret a 1ret b | 1ret b | ok
guard_known | bind guard true 1ret a | 1ret a | ok
2bind refl guard_known | bind guard t bind guard t 1ret a | bind guard t 1ret a | ok
2bind refl 2bind refl guard_known | bind guard and t lt a b bind set g q bind guard lt a b ret | \
    bind guard and t lt a b bind set g q ret | ok
2if guard_known refl | if t bind guard t 1ret a 1ret b | if t 1ret a 1ret b | ok
2if refl guard_known | if t 1ret a bind guard not t 1ret b | if t 1ret a 1ret b | ok
1loop guard_known | 1loop x a lt x b t bind guard lt x b 1ret x | \
    1loop x a lt x b t 1ret x | ok
1loop guard_known | 1loop x a t lt x b bind guard lt x b 1ret x | \
    1loop x a t lt x b 1ret x | ok
# an expression, each place of a program
exp | 1ret not not t | 1ret t | ok
exp | 1ret t | 1ret not not t | ok
exp | 2ret a and t true | 2ret a t | ok
exp | 1ret n1 | 1ret n1 | ok
exp | guard or false t | guard t | ok
exp | if imp true t 1ret a 1ret b | if t 1ret a 1ret b | ok
exp | write word nat p q | write p q | ok
exp | write p word nat q | write p q | ok
exp | set g word nat q | set g q | ok
exp | 1call f choose t a a | 1call f a | ok
exp | 2loop x a y add b n0 t t 2ret x y | 2loop x a y b t t 2ret x y | ok
exp | 1loop x a not not t t 1ret x | 1loop x a t t 1ret x | ok
exp | 1loop x a t not not t 1ret x | 1loop x a t t 1ret x | ok
exp | 1loop x a natural x lt nat word x b 1ret x | 1loop x a natural x lt x b 1ret x | ok
2bind refl exp | bind guard natural a 1ret nat word a | bind guard natural a 1ret a | ok
exp | 1ret and natural a lt nat word a b | 1ret and natural a lt a b | ok";

#[test]
fn instances_of_each_rule(rt: HostRuntime) -> Result<(), Fail> {
    for line in INSTANCES.lines() {
        assert!(rt; is_so(rt.alloc(), line)?, "{line}");
    }
    Ok(())
}

const OTHERS: &str = "\
refl | 1ret a | 1ret b | 0
1refl refl | 1ret a | 1ret a | 0
# the middle program gives other values, or isn't well-sorted, or a part is bad
2through_t refl refl | 1ret a | 1ret a | 0
2through_both refl refl | 1ret a | 1ret a | 0
2through_ill refl refl | 1ret a | 1ret a | 0
1through_a refl | 1ret a | 1ret a | 0
2through_x refl ret_first | if true 1bind 1ret a x 1ret x 1ret b | 1ret a | 1
2through_x if_const refl | if true 1bind 1ret a x 1ret x 1ret b | 1ret a | 2
2bind refl refl | 1bind 1ret a x 1ret x | 1bind 1ret a y 1ret y | 0
2bind refl refl | bind guard t 1ret a | 1ret a | 0
2bind refl refl | 1ret a | bind guard t 1ret a | 0
1bind refl | bind guard t 1ret a | bind guard t 1ret a | 0
3bind refl refl refl | bind guard t 1ret a | bind guard t 1ret a | 0
2bind refl refl | bind guard not not t 1ret a | bind guard t 1ret a | 1
2bind refl refl | bind guard t 1ret a | bind guard t 1ret b | 2
2bind 2bind refl refl refl | bind bind guard t guard t ret | bind bind guard t guard not t ret | 3
2if refl refl | if t 1ret a 1ret b | if not t 1ret a 1ret b | 0
2if refl refl | 1ret a | if t 1ret a 1ret b | 0
2if refl refl | if t 1ret a 1ret b | 1ret a | 0
1if refl | if t 1ret a 1ret b | if t 1ret a 1ret b | 0
2if refl refl | if t 1ret a 1ret b | if t 1ret b 1ret b | 1
2if refl refl | if t 1ret a 1ret b | if t 1ret a 1ret a | 2
1loop refl | 1loop x a t t 1ret x | 1loop y a t t 1ret y | 0
1loop refl | 1loop x a t t 1ret x | 1loop x b t t 1ret x | 0
1loop refl | 1loop x a t t 1ret x | 1loop x a true t 1ret x | 0
1loop refl | 1loop x a t t 1ret x | 1loop x a t true 1ret x | 0
1loop refl | 1loop x a t t 1ret x | 1ret a | 0
1loop refl | 1ret a | 1loop x a t t 1ret x | 0
loop | 1loop x a t t 1ret x | 1loop x a t t 1ret x | 0
2loop refl refl | 1loop x a t t 1ret x | 1loop x a t t 1ret x | 0
1loop refl | 1loop x a t t 1ret x | 1loop x a t t 1ret a | 1
# no value at the position, or no value at all
ret_second | 1bind 1ret a x 1ret x | 1ret a | 0
ret_third | 2bind 2ret a b x y 2ret x y | 1bind 1ret a x 2ret x b | 0
ret_far | 1bind 1ret a x 1ret x | 1ret a | 0
ret_first | 1bind 1call f a x 1ret x | 1ret a | 0
ret_first | 1ret a | 1ret a | 0
1ret_first refl | 1bind 1ret a x 1ret x | 1ret a | 0
# another program than the one with the value in it
ret_first | 1bind 1ret a x 1ret x | 1ret b | 0
ret_first | 1bind 1ret a x 2ret x x | 2ret a b | 0
ret_first | 2bind 2ret a b x y 2ret x y | 2ret a b | 0
ret_first | 2bind 2ret a b x y 2ret x y | 1bind 1ret b x 2ret a x | 0
ret_first | 1bind 1ret a x 1loop x x t t 1ret x | 1loop x a t t 1ret a | 0
# it reads, and is asked for
ret_first | 1bind 1ret read p x 1ret x | 1ret read p | 0
ret_first | 1bind 1ret read p x bind write p q 1ret x | bind write p q 1ret read p | 0
# one of its names is bound beside it
ret_first | 2bind 2ret b a a b 2ret a b | 1bind 1ret a b 2ret b b | 0
# a binder has one of its names, above where it would stand: behind, in the first part, in a branch
ret_first | 1bind 1ret b x 1bind 1ret a b 1ret x | 1bind 1ret a b 1ret b | 0
ret_first | 1bind 1ret b x 1bind 1ret a b 2ret x b | 1bind 1ret a b 2ret b b | 0
ret_first | 1bind 1ret add a b x 1bind 1call f a b 1ret x | 1bind 1call f a b 1ret add a b | 0
ret_first | 1bind 1ret b x 1bind 1bind 1ret a b 1ret x y 1ret y | \
    1bind 1bind 1ret a b 1ret b y 1ret y | 0
ret_first | 1bind 1ret b x if t 1bind 1ret a b 1ret x 1ret a | \
    if t 1bind 1ret a b 1ret b 1ret a | 0
ret_first | 1bind 1ret b x if t 1ret a 1bind 1ret a b 1ret x | \
    if t 1ret a 1bind 1ret a b 1ret b | 0
# and so has a loop, where its guard, its test or its body asks for it
ret_first | 1bind 1ret b x 1loop b a lt x a t 1ret b | 1loop b a lt b a t 1ret b | 0
ret_first | 1bind 1ret b x 1loop b a t lt x a 1ret b | 1loop b a t lt b a 1ret b | 0
ret_first | 1bind 1ret b x 1loop b a t t 1ret x | 1loop b a t t 1ret b | 0
ret_first | 1bind 1ret b x 1loop y a t t 1bind 1ret y b 1ret x | \
    1loop y a t t 1bind 1ret y b 1ret b | 0
# beside other values that stay, and on the right side of a sequence
ret_first | 2bind 2ret b a x y 1bind 1ret y b 1ret x | 1bind 1ret a y 1bind 1ret y b 1ret b | 0
2bind refl ret_first | bind guard t 1bind 1ret b x 1bind 1ret a b 1ret x | \
    bind guard t 1bind 1ret a b 1ret b | 2
2bind ret_first refl | bind 1bind 1ret t x 1bind 1ret t t guard x ret | \
    bind 1bind 1ret t t guard t ret | 1
bind_ret | 1bind 1call f a x 1ret a | 1call f a | 0
bind_ret | 2bind 2ret a b x y 2ret y x | 2ret a b | 0
bind_ret | 1bind 1call f a x 1ret x | 1call f b | 0
bind_ret | bind ret 1ret a | 1ret b | 0
bind_ret | 1bind 1ret a x 1ret b | 1ret b | 0
bind_ret | 1ret a | 1ret a | 0
# a name that the inner program bound is asked for behind it
assoc | 1bind 1bind 1call f b a 1ret a x 1ret add a x | \
    1bind 1call f b a 1bind 1ret a x 1ret add a x | 0
assoc | 1bind 1call f a y 1ret y | 1bind 1call f a y 1ret y | 0
assoc | 1bind 1bind 1call f a x 1ret x y 1ret y | 1bind 1call f a y 1bind 1ret y y 1ret y | 0
assoc | 1bind 1bind 1call f a x 1ret x y 1ret y | 1bind 1call f a x 1ret x | 0
if_const | if true 1ret a 1ret b | 1ret b | 0
if_const | if false 1ret a 1ret b | 1ret a | 0
if_const | if t 1ret a 1ret a | 1ret a | 0
if_const | 1ret a | 1ret a | 0
1if_const refl | if true 1ret a 1ret b | 1ret a | 0
# what is guarded isn't known: at first, of the other branch, where its name is bound again, where it reads and something is
# written, and in a loop
guard_known | bind guard t 1ret a | 1ret a | 0
guard_known | bind guard true 1ret a | 1ret b | 0
guard_known | guard true | ret | 0
guard_known | bind ret 1ret a | 1ret a | 0
2if refl guard_known | if t 1ret a bind guard t 1ret b | if t 1ret a 1ret b | 2
2bind refl 2bind refl guard_known | bind guard lt a b 1bind 1ret b a bind guard lt a b ret | \
    bind guard lt a b 1bind 1ret b a ret | 4
2bind refl 2bind refl guard_known | bind guard eq read p q bind write p q bind guard eq read p q ret | \
    bind guard eq read p q bind write p q ret | 4
2if 1loop guard_known refl | if t 1loop x a true true bind guard t 1ret x 1ret b | \
    if t 1loop x a true true 1ret x 1ret b | 2
# no step, two steps, one step and another program, or what isn't known there
exp | 1ret a | 1ret a | 0
exp | 1ret a | 1ret b | 0
exp | 1ret not not not not t | 1ret t | 0
exp | 2ret not not t not not t | 2ret t t | 0
exp | 2ret a t | 1ret a | 0
exp | guard not not t | 1ret t | 0
exp | if not not t 1ret a 1ret b | if t 1ret a 1ret a | 0
exp | write word nat p word nat q | write p q | 0
exp | write word nat p q | store p q | 0
exp | 1call f add a n0 | 1ret a | 0
exp | pick_truth | pick_truth | 0
exp | guard or t false | guard t | 0
exp | 1loop x add a n0 t t 1ret x | 1loop y a t t 1ret y | 0
exp | 1loop x add a n0 not not t t 1ret x | 1loop x a t t 1ret x | 0
exp | 1loop x a not not t not not t 1ret x | 1loop x a t t 1ret x | 0
exp | 1loop x a not not t t 1ret x | 1loop x a t t 1ret a | 0
exp | 1loop x a lt nat word x b natural x 1ret x | 1loop x a lt x b natural x 1ret x | 0
1loop exp | 1loop x a t t 1ret nat word x | 1loop x a t t 1ret x | 1
exp | 1ret nat word a | 1ret a | 0";

#[test]
fn nodes_that_are_no_instances(rt: HostRuntime) -> Result<(), Fail> {
    for line in OTHERS.lines() {
        assert!(rt; is_so(rt.alloc(), line)?, "{line}");
    }
    Ok(())
}
