//! Which two commands are an instance of a rule. One function for each rule that asks more than
//! that the sides are the same.

ghost use Rattle.std.specs.Prelude.{◌≡◌, ◌↔◌, true, IsTrue};
ghost use Rattle.simpl_lang.specs.CodeCommand.{simpl_of};
ghost use Rattle.rule_exn.specs.Quiet.{quiet};
ghost use Rattle.rule_exn.specs.Rule as rules;
ghost use Rattle.rule_exn.specs.Table.{row};
ghost use Rattle.rule_exn.specs.CodeRule.{rule_of};

use crate::flags::{
    are_conditions_unless_thrown, is_cleared, is_handled, is_raised, is_skipped_where_thrown,
    is_test_unless_thrown,
};
use crate::quiet_commands::quiet;
use crate::rule::Rule;
use simpl_lang::{Simpl, same_condition, same_conditions};

/// Whether what a rule asks of two commands holds. It may be known that the left side is quiet.
pub(crate) fn is_instance(rule: Rule, left: &Simpl, right: &Simpl, known_quiet: bool) -> bool
    requires { known_quiet ≡ true → quiet (simpl_of left.now) ≡ true }
    ensures { IsTrue result ↔ (row (rule_of rule) (simpl_of left.now) (simpl_of right.now)).holds }
{
    match rule {
        Rule::Skip => matches!(left, Simpl::Skip) && matches!(right, Simpl::Skip),
        Rule::Set => is_set(left, right),
        Rule::Pick => matches!(left, Simpl::Pick(_)) && right.same(left),
        Rule::Call => matches!(left, Simpl::Call(_, _, _)) && right.same(left),
        Rule::Throw => matches!(left, Simpl::Throw) && is_raised(right),
        Rule::SeqPlain => is_plain_sequence(left, right, known_quiet),
        Rule::SeqTest => is_tested_sequence(left, right),
        Rule::Cond => is_conditional(left, right),
        Rule::Guard => is_guard(left, right),
        Rule::WhilePlain => is_plain_loop(left, right, known_quiet),
        Rule::WhileTest => is_tested_loop(left, right),
        Rule::CatchPlain => is_plain_catch(left, right),
        Rule::CatchTest => is_tested_catch(left, right),
        Rule::CatchSkip => is_skipped_catch(left, right),
    }
}

fn is_set(left: &Simpl, right: &Simpl) -> bool
    ensures { IsTrue result ↔ (row rules.Set (simpl_of left.now) (simpl_of right.now)).holds }
{
    match left {
        Simpl::Set(_, _) | Simpl::SetGlobal(_, _, _) | Simpl::Store(_, _, _, _) => right.same(left),
        _ => false,
    }
}

fn is_plain_sequence(left: &Simpl, right: &Simpl, known_quiet: bool) -> bool
    requires { known_quiet ≡ true → quiet (simpl_of left.now) ≡ true }
    ensures { IsTrue result ↔ (row rules.SeqPlain (simpl_of left.now) (simpl_of right.now)).holds }
{
    match left {
        Simpl::Seq(first, _) => {
            matches!(right, Simpl::Seq(_, _)) && (known_quiet || quiet(first))
        }
        _ => false,
    }
}

fn is_tested_sequence(left: &Simpl, right: &Simpl) -> bool
    ensures { IsTrue result ↔ (row rules.SeqTest (simpl_of left.now) (simpl_of right.now)).holds }
{
    match right {
        Simpl::Seq(_, last) => matches!(left, Simpl::Seq(_, _)) && is_skipped_where_thrown(last),
        _ => false,
    }
}

fn is_conditional(left: &Simpl, right: &Simpl) -> bool
    ensures { IsTrue result ↔ (row rules.Cond (simpl_of left.now) (simpl_of right.now)).holds }
{
    match left {
        Simpl::Cond(test, _, _) => match right {
            Simpl::Cond(other, _, _) => other.same(test),
            _ => false,
        },
        _ => false,
    }
}

fn is_guard(left: &Simpl, right: &Simpl) -> bool
    ensures { IsTrue result ↔ (row rules.Guard (simpl_of left.now) (simpl_of right.now)).holds }
{
    match left {
        Simpl::Guard(condition, _) => match right {
            Simpl::Guard(other, _) => same_condition(other, condition),
            _ => false,
        },
        _ => false,
    }
}

fn is_plain_loop(left: &Simpl, right: &Simpl, known_quiet: bool) -> bool
    requires { known_quiet ≡ true → quiet (simpl_of left.now) ≡ true }
    ensures { IsTrue result
        ↔ (row rules.WhilePlain (simpl_of left.now) (simpl_of right.now)).holds }
{
    match left {
        Simpl::While(conditions, test, body) => match right {
            Simpl::While(others, other, _) => {
                same_conditions(others, conditions)
                    && other.same(test)
                    && (known_quiet || quiet(body))
            }
            _ => false,
        },
        _ => false,
    }
}

fn is_tested_loop(left: &Simpl, right: &Simpl) -> bool
    ensures { IsTrue result ↔ (row rules.WhileTest (simpl_of left.now) (simpl_of right.now)).holds }
{
    match left {
        Simpl::While(conditions, test, _) => match right {
            Simpl::While(others, other, _) => {
                are_conditions_unless_thrown(others, conditions)
                    && is_test_unless_thrown(other, test)
            }
            _ => false,
        },
        _ => false,
    }
}

fn is_plain_catch(left: &Simpl, right: &Simpl) -> bool
    ensures { IsTrue result
        ↔ (row rules.CatchPlain (simpl_of left.now) (simpl_of right.now)).holds }
{
    match left {
        Simpl::Catch(body, _) => quiet(body),
        _ => false,
    }
}

fn is_tested_catch(left: &Simpl, right: &Simpl) -> bool
    ensures { IsTrue result ↔ (row rules.CatchTest (simpl_of left.now) (simpl_of right.now)).holds }
{
    match right {
        Simpl::Seq(_, last) => matches!(left, Simpl::Catch(_, _)) && is_handled(last),
        _ => false,
    }
}

fn is_skipped_catch(left: &Simpl, right: &Simpl) -> bool
    ensures { IsTrue result ↔ (row rules.CatchSkip (simpl_of left.now) (simpl_of right.now)).holds }
{
    match left {
        Simpl::Catch(_, handler) => match right {
            Simpl::Seq(_, last) => matches!(&**handler, Simpl::Skip) && is_cleared(last),
            _ => false,
        },
        _ => false,
    }
}
