//! Expressions and commands over the flag.

ghost use Rattle.std.specs.Prelude.{◌≡◌, ◌↔◌, IsTrue, map};
ghost use Rattle.expression_lang.specs.Expression.{And, Not};
ghost use Rattle.expression_lang.specs.CodeExpression.{exp_of};
ghost use Rattle.simpl_lang.specs.Command.{Skip};
ghost use Rattle.simpl_lang.specs.CodeCommand.{condition_of, simpl_of};
ghost use Rattle.rule_exn.specs.Table.{is_thrown, raised, cleared, asked_unless_thrown, unless_thrown};
ghost use Rattle.rule_exn.specs.CodeRow.{IsSkippedWhereThrown, BeginsCleared, IsHandled};

use expression_lang::Exp;
use simpl_lang::{Condition, Simpl, same_guard_kind};

/// The local that is true where something was thrown.
const THROWN: &str = "$thrown";

// Whether an expression is the flag.
fn is_flag(e: &Exp) -> bool
    ensures { IsTrue result ↔ (exp_of e.now ≡ is_thrown) }
{
    match e {
        Exp::Var(name) => name.as_str() == THROWN,
        _ => false,
    }
}

// Whether an expression holds where nothing was thrown.
fn is_no_flag(e: &Exp) -> bool
    ensures { IsTrue result ↔ (exp_of e.now ≡ Not is_thrown) }
{
    match e {
        Exp::Not(flag) => is_flag(flag),
        _ => false,
    }
}

/// Whether a command raises the flag.
pub(crate) fn is_raised(c: &Simpl) -> bool
    ensures { IsTrue result ↔ (simpl_of c.now ≡ raised) }
{
    match c {
        Simpl::Set(name, Exp::Truth(true)) => name.as_str() == THROWN,
        _ => false,
    }
}

/// Whether a command clears the flag.
pub(crate) fn is_cleared(c: &Simpl) -> bool
    ensures { IsTrue result ↔ (simpl_of c.now ≡ cleared) }
{
    match c {
        Simpl::Set(name, Exp::Truth(false)) => name.as_str() == THROWN,
        _ => false,
    }
}

/// Whether a command does nothing where something was thrown.
pub(crate) fn is_skipped_where_thrown(c: &Simpl) -> bool
    ensures { IsTrue result ↔ IsSkippedWhereThrown (simpl_of c.now) }
{
    match c {
        Simpl::Cond(test, first, _) => is_flag(test) && matches!(&**first, Simpl::Skip),
        _ => false,
    }
}

/// Whether a command clears the flag where something was thrown and goes on then, and does nothing
/// else.
pub(crate) fn is_handled(c: &Simpl) -> bool
    ensures { IsTrue result ↔ IsHandled (simpl_of c.now) }
{
    match c {
        Simpl::Cond(test, first, last) => {
            is_flag(test) && begins_cleared(first) && matches!(&**last, Simpl::Skip)
        }
        _ => false,
    }
}

// Whether a command clears the flag first.
fn begins_cleared(c: &Simpl) -> bool
    ensures { IsTrue result ↔ BeginsCleared (simpl_of c.now) }
{
    match c {
        Simpl::Seq(first, _) => is_cleared(first),
        _ => false,
    }
}

/// Whether a test is another one, asked only where nothing was thrown.
pub(crate) fn is_test_unless_thrown(test: &Exp, other: &Exp) -> bool
    ensures { IsTrue result ↔ (exp_of test.now ≡ And (Not is_thrown) (exp_of other.now)) }
{
    match test {
        Exp::And(no_flag, last) => is_no_flag(no_flag) && last.same(other),
        _ => false,
    }
}

// Whether a condition is another one, asked only where nothing was thrown.
fn is_condition_unless_thrown(condition: &Condition, other: &Condition) -> bool
    ensures { IsTrue result
        ↔ (condition_of condition.now ≡ asked_unless_thrown (condition_of other.now)) }
{
    match &condition.exp {
        Exp::Imp(no_flag, last) => {
            same_guard_kind(condition.kind, other.kind)
                && is_no_flag(no_flag)
                && last.same(&other.exp)
        }
        _ => false,
    }
}

/// Whether conditions are others, each asked only where nothing was thrown.
#[tactic(auto, using(crate::proofs::UnlessThrown::asked_end, crate::proofs::UnlessThrown::asked_on))]
pub(crate) fn are_conditions_unless_thrown(conditions: &[Condition], others: &[Condition]) -> bool
    ensures { IsTrue result
        ↔ (map condition_of conditions.now ≡ unless_thrown (map condition_of others.now)) }
{
    let mut left = conditions;
    let mut right = others;
    'along: while let Some((first, rest)) = left.split_first() {
        let Some((other, other_rest)) = right.split_first() else {
            return false;
        };
        if !is_condition_unless_thrown(first, other) {
            return false;
        }
        left = rest;
        right = other_rest;
    }
    right.is_empty()
}
