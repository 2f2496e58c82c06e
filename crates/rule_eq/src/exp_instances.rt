//! Whether two programs are the same but for one place of one expression.

ghost use Rattle.std.specs.Prelude.{◌↔◌, [], ◌∷◌, map, IsTrue};
ghost use Rattle.expression_lang.specs.CodeExpression.{exp_of};
ghost use Rattle.ac_expr.specs.Fact.{Whole};
ghost use Rattle.ac_expr.specs.CodeApart.{IsSomeSorted};
ghost use Rattle.monad_lang.specs.Program as programs;
ghost use Rattle.monad_lang.specs.CodeProgram.{mon_of, start_of, place_of};
ghost use Rattle.rule_eq.specs.Table.{ExpApart, OneApart, StepApart};
ghost use Rattle.rule_parts.specs.Starts.{start_exps};
ghost use Rattle.rule_eq.specs.CodeExps.{write_exps, AreSomewhereSorted, BeginApart, GuardApart, TestApart};
ghost use Rattle.rule_eq.specs.CodeFits.{Fits, IsSorted};
ghost use Rattle.rule_eq.specs.CodeRule.{point_in};
ghost use Rattle.rule_eq.specs.CodeSteps.{IsTurn, turn_of};

use crate::exps::{are_apart, is_apart, same_place_head, write_exps};
use crate::instances::same_starts;
use ac_expr::{Children, Fact, Facts};
use expression_lang::Exp;
use monad_lang::{Mon, Place, Start};
use monad_sorts::{Inside, Setting};
use program_facts::Parts;
use rule_parts::{Exps, no_facts, same_start_names};

/// Whether two programs are the same but for one place of one expression that stands in them
/// directly, which is one step away.
#[inline(never)]
pub(crate) fn is_exp_apart(
    left: &Mon,
    right: &Mon,
    setting: Setting<'_>,
    facts: &Facts<'_, Parts<'_>>,
    inside: &Inside<'_>,
) -> bool
    requires { Fits (point_in setting facts.now inside.now).setting (mon_of left.now)
        (mon_of right.now) }
    ensures { IsTrue result ↔ ExpApart (point_in setting.entry facts.now inside.now)
        (mon_of left.now) (mon_of right.now) }
{
    match left {
        Mon::Ret(exps) => is_ret_apart(exps, right, setting, facts, inside),
        Mon::Guard(e) => is_guard_apart(e, right, setting, facts, inside),
        Mon::If(e, m, n) => is_choice_apart(e, m, n, right, setting, facts, inside),
        Mon::Write(place, e) => is_write_apart(place, e, right, setting, facts, inside),
        Mon::Call(function, exps) => {
            is_call_apart(function, exps, right, setting, facts, inside)
        }
        Mon::Loop(starts, guard, test, m) => {
            is_turn_apart(starts, guard, test, m, right, setting, facts, inside)
        }
        Mon::Bind(_, _, _) | Mon::Pick(_) => false,
    }
}

// The same of values that are given, and a program.
fn is_ret_apart(
    exps: &[Exp],
    right: &Mon,
    setting: Setting<'_>,
    facts: &Facts<'_, Parts<'_>>,
    inside: &Inside<'_>,
) -> bool
    requires { Fits (point_in setting facts.now inside.now).setting
        (programs.Ret (map exp_of exps.now)) (mon_of right.now) }
    ensures { IsTrue result ↔ ExpApart (point_in setting.entry facts.now inside.now)
        (programs.Ret (map exp_of exps.now)) (mon_of right.now) }
{
    match right {
        Mon::Ret(others) => are_listed_apart(exps, others, setting, facts, inside),
        _ => false,
    }
}

// The same of what is guarded.
fn is_guard_apart(
    e: &Exp,
    right: &Mon,
    setting: Setting<'_>,
    facts: &Facts<'_, Parts<'_>>,
    inside: &Inside<'_>,
) -> bool
    requires { Fits (point_in setting facts.now inside.now).setting
        (programs.Guard (exp_of e.now)) (mon_of right.now) }
    ensures { IsTrue result ↔ ExpApart (point_in setting.entry facts.now inside.now)
        (programs.Guard (exp_of e.now)) (mon_of right.now) }
{
    match right {
        Mon::Guard(other) => is_apart(e, other, setting, facts, inside),
        _ => false,
    }
}

// The same of a choice.
fn is_choice_apart(
    e: &Exp,
    m: &Mon,
    n: &Mon,
    right: &Mon,
    setting: Setting<'_>,
    facts: &Facts<'_, Parts<'_>>,
    inside: &Inside<'_>,
) -> bool
    requires { Fits (point_in setting facts.now inside.now).setting
        (programs.If (exp_of e.now) (mon_of m.now) (mon_of n.now)) (mon_of right.now) }
    ensures { IsTrue result ↔ ExpApart (point_in setting.entry facts.now inside.now)
        (programs.If (exp_of e.now) (mon_of m.now) (mon_of n.now)) (mon_of right.now) }
{
    match right {
        Mon::If(other, first, last) => {
            first.same(m) && last.same(n) && is_apart(e, other, setting, facts, inside)
        }
        _ => false,
    }
}

// The same of what is written, and where.
fn is_write_apart(
    place: &Place,
    e: &Exp,
    right: &Mon,
    setting: Setting<'_>,
    facts: &Facts<'_, Parts<'_>>,
    inside: &Inside<'_>,
) -> bool
    requires { Fits (point_in setting facts.now inside.now).setting
        (programs.Write (place_of place.now) (exp_of e.now)) (mon_of right.now) }
    ensures { IsTrue result ↔ ExpApart (point_in setting.entry facts.now inside.now)
        (programs.Write (place_of place.now) (exp_of e.now)) (mon_of right.now) }
{
    match right {
        Mon::Write(other_place, other) => {
            same_place_head(place, other_place)
                && are_written_apart(place, e, other_place, other, setting, facts, inside)
        }
        _ => false,
    }
}

// The same of a call.
fn is_call_apart(
    function: &str,
    exps: &[Exp],
    right: &Mon,
    setting: Setting<'_>,
    facts: &Facts<'_, Parts<'_>>,
    inside: &Inside<'_>,
) -> bool
    requires { Fits (point_in setting facts.now inside.now).setting
        (programs.Call function.now (map exp_of exps.now)) (mon_of right.now) }
    ensures { IsTrue result ↔ ExpApart (point_in setting.entry facts.now inside.now)
        (programs.Call function.now (map exp_of exps.now)) (mon_of right.now) }
{
    match right {
        Mon::Call(other, others) => {
            other.as_str() == function && are_listed_apart(exps, others, setting, facts, inside)
        }
        _ => false,
    }
}

// Whether two rows are the same but for one, which is one step away.
fn are_listed_apart(
    exps: &[Exp],
    others: &[Exp],
    setting: Setting<'_>,
    facts: &Facts<'_, Parts<'_>>,
    inside: &Inside<'_>,
) -> bool
    requires left { AreSomewhereSorted (point_in setting facts.now inside.now).setting.scope
        (map exp_of exps.now) }
    requires right { AreSomewhereSorted (point_in setting facts.now inside.now).setting.scope
        (map exp_of others.now) }
    ensures { IsTrue result ↔ OneApart (point_in setting.entry facts.now inside.now)
        (map exp_of exps.now) (map exp_of others.now) }
{
    are_apart(
        Exps::Children(Children::Listed(exps)),
        Exps::Children(Children::Listed(others)),
        setting,
        facts,
        inside,
    )
}

// The same of what is written, and where.
fn are_written_apart(
    place: &Place,
    e: &Exp,
    other_place: &Place,
    other: &Exp,
    setting: Setting<'_>,
    facts: &Facts<'_, Parts<'_>>,
    inside: &Inside<'_>,
) -> bool
    requires left { AreSomewhereSorted (point_in setting facts.now inside.now).setting.scope
        (write_exps (place_of place.now) (exp_of e.now)) }
    requires right { AreSomewhereSorted (point_in setting facts.now inside.now).setting.scope
        (write_exps (place_of other_place.now) (exp_of other.now)) }
    ensures { IsTrue result ↔ OneApart (point_in setting.entry facts.now inside.now)
        (write_exps (place_of place.now) (exp_of e.now))
        (write_exps (place_of other_place.now) (exp_of other.now)) }
{
    let left = write_exps(place, e);
    let right = write_exps(other_place, other);
    are_apart(
        Exps::Children(left),
        Exps::Children(right),
        setting,
        facts,
        inside,
    )
}

// The same of a loop, and a program.
#[inline(never)]
fn is_turn_apart(
    starts: &[Start],
    guard: &Exp,
    test: &Exp,
    m: &Mon,
    right: &Mon,
    setting: Setting<'_>,
    facts: &Facts<'_, Parts<'_>>,
    inside: &Inside<'_>,
) -> bool
    requires { Fits (point_in setting facts.now inside.now).setting
        (programs.Loop (map start_of starts.now) (exp_of guard.now) (exp_of test.now)
        (mon_of m.now))
        (mon_of right.now) }
    ensures { IsTrue result ↔ ExpApart (point_in setting.entry facts.now inside.now)
        (programs.Loop (map start_of starts.now) (exp_of guard.now) (exp_of test.now)
        (mon_of m.now))
        (mon_of right.now) }
{
    match right {
        Mon::Loop(_, _, _, n) => {
            n.same(m)
                && (is_apart_before(starts, guard, test, right, setting, facts, inside)
                    || is_apart_at_guard(starts, guard, test, right, setting, facts, inside)
                    || is_apart_at_test(starts, guard, test, right, setting, facts, inside))
        }
        _ => false,
    }
}

// Whether loops are one step apart in what their names begin with.
fn is_apart_before(
    starts: &[Start],
    guard: &Exp,
    test: &Exp,
    right: &Mon,
    setting: Setting<'_>,
    facts: &Facts<'_, Parts<'_>>,
    inside: &Inside<'_>,
) -> bool
    requires left { AreSomewhereSorted (point_in setting facts.now inside.now).setting.scope
        (start_exps (map start_of starts.now)) }
    requires right { IsSorted (point_in setting facts.now inside.now).setting (mon_of right.now) }
    ensures { IsTrue result ↔ BeginApart (point_in setting.entry facts.now inside.now)
        (map start_of starts.now) (exp_of guard.now) (exp_of test.now) (mon_of right.now) }
{
    match right {
        Mon::Loop(others, other_guard, other_test, _body) => {
            same_start_names(starts, others)
                && other_guard.same(guard)
                && other_test.same(test)
                && are_starts_apart(starts, others, setting, facts, inside)
        }
        _ => false,
    }
}

// Whether what the names begin with is the same but for one place.
fn are_starts_apart(
    starts: &[Start],
    others: &[Start],
    setting: Setting<'_>,
    facts: &Facts<'_, Parts<'_>>,
    inside: &Inside<'_>,
) -> bool
    requires left { AreSomewhereSorted (point_in setting facts.now inside.now).setting.scope
        (start_exps (map start_of starts.now)) }
    requires right { AreSomewhereSorted (point_in setting facts.now inside.now).setting.scope
        (start_exps (map start_of others.now)) }
    ensures { IsTrue result ↔ OneApart (point_in setting.entry facts.now inside.now)
        (start_exps (map start_of starts.now)) (start_exps (map start_of others.now)) }
{
    are_apart(
        Exps::Starts(starts),
        Exps::Starts(others),
        setting,
        facts,
        inside,
    )
}

// Whether loops are one step apart in their guards.
fn is_apart_at_guard(
    starts: &[Start],
    guard: &Exp,
    test: &Exp,
    right: &Mon,
    setting: Setting<'_>,
    facts: &Facts<'_, Parts<'_>>,
    inside: &Inside<'_>,
) -> bool
    requires left { IsSomeSorted (point_in setting facts.now inside.now).setting.scope
        (exp_of guard.now) }
    requires right { IsSorted (point_in setting facts.now inside.now).setting (mon_of right.now) }
    ensures { IsTrue result ↔ GuardApart (point_in setting.entry facts.now inside.now)
        (map start_of starts.now) (exp_of guard.now) (exp_of test.now) (mon_of right.now) }
{
    match right {
        Mon::Loop(others, other_guard, other_test, _body) => {
            same_starts(starts, others)
                && other_test.same(test)
                && are_guards_apart(guard, other_guard, right, setting, facts, inside)
        }
        _ => false,
    }
}

// Whether loops are one step apart in their tests.
fn is_apart_at_test(
    starts: &[Start],
    guard: &Exp,
    test: &Exp,
    right: &Mon,
    setting: Setting<'_>,
    facts: &Facts<'_, Parts<'_>>,
    inside: &Inside<'_>,
) -> bool
    requires left { IsSomeSorted (point_in setting facts.now inside.now).setting.scope
        (exp_of test.now) }
    requires right { IsSorted (point_in setting facts.now inside.now).setting (mon_of right.now) }
    ensures { IsTrue result ↔ TestApart (point_in setting.entry facts.now inside.now)
        (map start_of starts.now) (exp_of guard.now) (exp_of test.now) (mon_of right.now) }
{
    match right {
        Mon::Loop(others, other_guard, other_test, _body) => {
            same_starts(starts, others)
                && other_guard.same(guard)
                && are_tests_apart(guard, test, other_test, right, setting, facts, inside)
        }
        _ => false,
    }
}

// Whether guards are one step apart, in a loop.
fn are_guards_apart(
    guard: &Exp,
    other: &Exp,
    turn: &Mon,
    setting: Setting<'_>,
    facts: &Facts<'_, Parts<'_>>,
    inside: &Inside<'_>,
) -> bool
    requires turn { IsTurn (mon_of turn.now) }
    requires sorted { IsSorted (point_in setting facts.now inside.now).setting (mon_of turn.now) }
    requires left { IsSomeSorted (point_in setting facts.now inside.now).setting.scope
        (exp_of guard.now) }
    requires right { IsSomeSorted (point_in setting facts.now inside.now).setting.scope
        (exp_of other.now) }
    ensures { IsTrue result
        ↔ StepApart (turn_of (mon_of turn.now) [] (point_in setting.entry facts.now inside.now))
        (exp_of guard.now) (exp_of other.now) }
{
    let names = (&*inside).pass(setting, turn, 1);
    is_apart(guard, other, setting, no_facts(&*facts), &names)
}

// Whether tests are one step apart, in a loop with the guard.
fn are_tests_apart(
    guard: &Exp,
    test: &Exp,
    other: &Exp,
    turn: &Mon,
    setting: Setting<'_>,
    facts: &Facts<'_, Parts<'_>>,
    inside: &Inside<'_>,
) -> bool
    requires turn { IsTurn (mon_of turn.now) }
    requires sorted { IsSorted (point_in setting facts.now inside.now).setting (mon_of turn.now) }
    requires left { IsSomeSorted (point_in setting facts.now inside.now).setting.scope
        (exp_of test.now) }
    requires right { IsSomeSorted (point_in setting facts.now inside.now).setting.scope
        (exp_of other.now) }
    ensures { IsTrue result
        ↔ StepApart (turn_of (mon_of turn.now) (Whole (exp_of guard.now) ∷ [])
        (point_in setting.entry facts.now inside.now)) (exp_of test.now) (exp_of other.now) }
{
    let fact = Fact::Whole(guard);
    let guarded = no_facts(&*facts).with(&fact);
    let names = (&*inside).pass(setting, turn, 1);
    is_apart(test, other, setting, &guarded, &names)
}
