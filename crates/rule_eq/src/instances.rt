//! What a rule asks of two programs. One function for each rule.

ghost use Rattle.std.specs.Prelude.{◌≡◌, ◌↔◌, [], map, string_bytes, IsTrue};
ghost use Rattle.expression_lang.specs.Expression as plain;
ghost use Rattle.expression_lang.specs.CodeExpression.{exp_of};
ghost use Rattle.ac_expr.specs.Known.{IsKnown};
ghost use Rattle.monad_lang.specs.Program as programs;
ghost use Rattle.monad_lang.specs.CodeProgram.{mon_of, start_of};
ghost use Rattle.rule_eq.specs.Rule as names;
ghost use Rattle.monad_lang.specs.Sorted.{Setting as Sorts};
ghost use Rattle.rule_eq.specs.Table.{row, point, IsBetween};
ghost use Rattle.rule_eq.specs.CodeFits.{Fits, IsSorted};
ghost use Rattle.rule_eq.specs.CodeRule.{rule_of, point_in, known_in};

use crate::exp_instances::is_exp_apart;
use crate::rule::Rule;
use crate::taken::is_taken;
use ac_expr::{Fact, Facts, known};
use expression_lang::{Exp, same_names};
use monad_lang::{Mon, Start, all_kept};
use monad_sorts::{Inside, Setting, gives_as};
use program_facts::Parts;

/// Whether what a rule asks of two programs holds.
#[inline(never)]
pub(crate) fn is_asked(
    rule: &Rule,
    left: &Mon,
    right: &Mon,
    setting: Setting<'_>,
    facts: &Facts<'_, Parts<'_>>,
    inside: &Inside<'_>,
) -> bool
    requires { Fits (point_in setting facts.now inside.now).setting (mon_of left.now)
        (mon_of right.now) }
    ensures { IsTrue result ↔ (row (point_in setting.entry facts.now inside.now)
        (rule_of rule.now) (mon_of left.now) (mon_of right.now)).holds }
{
    match rule {
        Rule::Refl => right.same(left),
        Rule::Trans(between) => is_between(between, right, setting, facts, inside),
        Rule::Bind => is_bind(left, right),
        Rule::If => is_if(left, right),
        Rule::Loop => is_loop(left, right),
        Rule::RetOne(position) => is_ret_one(*position, left, right),
        Rule::BindRet => is_bind_ret(left, right),
        Rule::Assoc => is_assoc(left, right),
        Rule::IfConst => is_if_const(left, right),
        Rule::GuardKnown => is_guard_known(left, right, facts),
        Rule::Exp => is_exp_apart(left, right, setting, facts, inside),
    }
}

// Whether the program between is well-sorted, and gives the right side's scalars.
fn is_between(
    between: &Mon,
    right: &Mon,
    setting: Setting<'_>,
    facts: &Facts<'_, Parts<'_>>,
    inside: &Inside<'_>,
) -> bool
    requires { IsSorted (point_in setting facts.now inside.now).setting (mon_of right.now) }
    ensures { IsTrue result
        ↔ IsBetween (point_in setting.entry facts.now inside.now) (mon_of between.now)
        (mon_of right.now) }
{
    gives_as(between, right, inside, setting)
}

fn is_bind(left: &Mon, right: &Mon) -> bool
    ensures { (at : names.Point) → IsTrue result
        ↔ (row at names.Bind (mon_of left.now) (mon_of right.now)).holds }
{
    match left {
        Mon::Bind(_, names, _) => match right {
            Mon::Bind(_, others, _) => same_names(others, names),
            _ => false,
        },
        _ => false,
    }
}

fn is_if(left: &Mon, right: &Mon) -> bool
    ensures { (at : names.Point) → IsTrue result
        ↔ (row at names.If (mon_of left.now) (mon_of right.now)).holds }
{
    match left {
        Mon::If(test, _, _) => match right {
            Mon::If(other, _, _) => other.same(test),
            _ => false,
        },
        _ => false,
    }
}

fn is_loop(left: &Mon, right: &Mon) -> bool
    ensures { (at : names.Point) → IsTrue result
        ↔ (row at names.Loop (mon_of left.now) (mon_of right.now)).holds }
{
    match left {
        Mon::Loop(starts, guard, test, _) => match right {
            Mon::Loop(others, other_guard, other_test, _) => {
                same_starts(starts, others) && other_guard.same(guard) && other_test.same(test)
            }
            _ => false,
        },
        _ => false,
    }
}

/// Whether two lists have the same names with the same expressions.
#[tactic(auto, using(expression_lang::proofs::SameLists::maps_end, expression_lang::proofs::SameLists::maps_go_on))]
pub(crate) fn same_starts(starts: &[Start], others: &[Start]) -> bool
    ensures { IsTrue result ↔ (map start_of others.now ≡ map start_of starts.now) }
{
    let mut left = others;
    let mut right = starts;
    'along: while let Some((first, rest)) = left.split_first() {
        let Some((other, behind)) = right.split_first() else {
            return false;
        };
        if !same_start(first, other) {
            return false;
        }
        left = rest;
        right = behind;
    }
    right.is_empty()
}

fn same_start(start: &Start, other: &Start) -> bool
    ensures { IsTrue result ↔ (start_of start.now ≡ start_of other.now) }
{
    start.name.as_str() == other.name.as_str() && start.exp.same(&other.exp)
}

fn is_ret_one(position: u32, left: &Mon, right: &Mon) -> bool
    ensures { (at : names.Point) → IsTrue result
        ↔ (row at (names.RetOne position) (mon_of left.now) (mon_of right.now)).holds }
{
    match left {
        Mon::Bind(first, names, last) => match &**first {
            Mon::Ret(values) => is_taken(position as usize, values, names, last, right),
            _ => false,
        },
        _ => false,
    }
}

fn is_bind_ret(left: &Mon, right: &Mon) -> bool
    ensures { (at : names.Point) → IsTrue result
        ↔ (row at names.BindRet (mon_of left.now) (mon_of right.now)).holds }
{
    match left {
        Mon::Bind(first, names, last) => {
            is_given_back(names, last) && right.same(first)
                || is_nothing(first) && names.is_empty() && right.same(last)
        }
        _ => false,
    }
}

// Whether a program gives what the names hold.
fn is_given_back(names: &[String], m: &Mon) -> bool
    ensures { IsTrue result ↔ (mon_of m.now
        ≡ programs.Ret (map (λ x. plain.Var x) (map string_bytes names.now))) }
{
    match m {
        Mon::Ret(values) => are_vars(names, values),
        _ => false,
    }
}

// Whether expressions are these names.
#[tactic(auto, using(crate::proofs::Simpler::vars_end, crate::proofs::Simpler::vars_go_on))]
fn are_vars(names: &[String], values: &[Exp]) -> bool
    ensures { IsTrue result ↔ (map exp_of values.now
        ≡ map (λ x. plain.Var x) (map string_bytes names.now)) }
{
    let mut left = names;
    let mut right = values;
    'along: while let Some((name, rest)) = left.split_first() {
        let Some((value, behind)) = right.split_first() else {
            return false;
        };
        if !is_var(name, value) {
            return false;
        }
        left = rest;
        right = behind;
    }
    right.is_empty()
}

fn is_var(name: &str, e: &Exp) -> bool
    ensures { IsTrue result ↔ (exp_of e.now ≡ plain.Var name.now) }
{
    match e {
        Exp::Var(other) => other.as_str() == name,
        _ => false,
    }
}

// Whether a program gives no values and does nothing else.
fn is_nothing(m: &Mon) -> bool
    ensures { IsTrue result ↔ (mon_of m.now ≡ programs.Ret []) }
{
    match m {
        Mon::Ret(values) => values.is_empty(),
        _ => false,
    }
}

fn is_assoc(left: &Mon, right: &Mon) -> bool
    ensures { (at : names.Point) → IsTrue result
        ↔ (row at names.Assoc (mon_of left.now) (mon_of right.now)).holds }
{
    match left {
        Mon::Bind(first, names, last) => match &**first {
            Mon::Bind(a, inner, b) => {
                all_kept(inner, names, last) && is_turned(a, inner, b, names, last, right)
            }
            _ => false,
        },
        _ => false,
    }
}

// Whether a program is these, one after the other.
fn is_turned(a: &Mon, inner: &[String], b: &Mon, names: &[String], c: &Mon, right: &Mon) -> bool
    ensures { IsTrue result ↔ (mon_of right.now
        ≡ programs.Bind (mon_of a.now) (map string_bytes inner.now)
        (programs.Bind (mon_of b.now) (map string_bytes names.now) (mon_of c.now))) }
{
    match right {
        Mon::Bind(first, others, last) => {
            first.same(a) && same_names(others, inner) && is_pair(b, names, c, last)
        }
        _ => false,
    }
}

// Whether a program is these two.
fn is_pair(b: &Mon, names: &[String], c: &Mon, right: &Mon) -> bool
    ensures { IsTrue result ↔ (mon_of right.now
        ≡ programs.Bind (mon_of b.now) (map string_bytes names.now) (mon_of c.now)) }
{
    match right {
        Mon::Bind(first, others, last) => {
            first.same(b) && same_names(others, names) && last.same(c)
        }
        _ => false,
    }
}

fn is_if_const(left: &Mon, right: &Mon) -> bool
    ensures { (at : names.Point) → IsTrue result
        ↔ (row at names.IfConst (mon_of left.now) (mon_of right.now)).holds }
{
    match left {
        Mon::If(Exp::Truth(truth), first, last) => {
            if *truth {
                right.same(first)
            } else {
                right.same(last)
            }
        }
        _ => false,
    }
}

fn is_guard_known(left: &Mon, right: &Mon, facts: &Facts<'_, Parts<'_>>) -> bool
    ensures { (t : Sorts) → IsTrue result
        ↔ (row (point (known_in facts.now) t) names.GuardKnown
        (mon_of left.now) (mon_of right.now)).holds }
{
    match left {
        Mon::Bind(first, names, last) => match &**first {
            Mon::Guard(e) => { names.is_empty() && right.same(last) && is_known(e, facts) }
            _ => false,
        },
        _ => false,
    }
}

// Whether an expression is known to hold.
fn is_known(e: &Exp, facts: &Facts<'_, Parts<'_>>) -> bool
    ensures { IsTrue result ↔ IsKnown (known_in facts.now) (exp_of e.now) }
{
    let fact = Fact::Whole(e);
    let here = (&*facts).pass(Parts::None, 0);
    known(&here, &fact)
}
