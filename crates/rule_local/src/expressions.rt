//! Expressions that a program of a rule has.

ghost use Rattle.std.specs.Prelude.{◌≡◌, ◌↔◌, IsTrue, Some, map, string_bytes, if◌then◌else◌};
ghost use Rattle.std.specs.Option.{option_map};
ghost use Rattle.c_values.specs.Name.{same_name};
ghost use Rattle.expression_lang.specs.Expression.{Var, WordLit};
ghost use Rattle.expression_lang.specs.CodeExpression.{exp_of, kind_of};
ghost use Rattle.expression_lang.specs.CodeSignature.{binder_of};
ghost use Rattle.simpl_lang.specs.CodeCommand.{condition_of};
ghost use Rattle.monad_lang.specs.CodeProgram.{start_of};
ghost use Rattle.rule_local.specs.Table.{vars, vars_with, as_starts, conj, zeros};
ghost use Rattle.rule_local.specs.CodeRow.{IsZeroOf};

use expression_lang::{Binder, Exp, Kind};
use monad_lang::Start;
use simpl_lang::{Condition, kind_in};

// Whether an expression is a name.
fn is_var(e: &Exp, name: &str) -> bool
    ensures { IsTrue result ↔ (exp_of e.now ≡ Var name.now) }
{
    match e {
        Exp::Var(other) => other.as_str() == name,
        _ => false,
    }
}

/// Whether the expressions are the names.
#[tactic(auto, using(crate::proofs::ExpressionLists::vars_end, crate::proofs::ExpressionLists::vars_on))]
pub(crate) fn are_vars(exps: &[Exp], names: &[String]) -> bool
    ensures { IsTrue result ↔ (map exp_of exps.now ≡ vars (map string_bytes names.now)) }
{
    let mut left = exps;
    let mut right = names;
    'along: while let Some((first, rest)) = left.split_first() {
        let Some((name, names)) = right.split_first() else {
            return false;
        };
        if !is_var(first, name.as_str()) {
            return false;
        }
        left = rest;
        right = names;
    }
    right.is_empty()
}

// Whether an expression is a name, or the value where the name is the one that takes it.
fn is_var_with(e: &Exp, taking: &str, value: &Exp, name: &str) -> bool
    ensures { IsTrue result ↔ (exp_of e.now
        ≡ (if same_name taking.now name.now then exp_of value.now else Var name.now)) }
{
    if taking == name {
        e.same(value)
    } else {
        is_var(e, name)
    }
}

/// Whether the expressions are the names, with the value for the one that takes it.
#[tactic(auto, using(crate::proofs::ExpressionLists::with_end, crate::proofs::ExpressionLists::with_on))]
pub(crate) fn are_vars_with(exps: &[Exp], taking: &str, value: &Exp, names: &[String]) -> bool
    ensures { IsTrue result ↔ (map exp_of exps.now
        ≡ vars_with taking.now (exp_of value.now) (map string_bytes names.now)) }
{
    let mut left = exps;
    let mut right = names;
    'along: while let Some((first, rest)) = left.split_first() {
        let Some((name, names)) = right.split_first() else {
            return false;
        };
        if !is_var_with(first, taking, value, name.as_str()) {
            return false;
        }
        left = rest;
        right = names;
    }
    right.is_empty()
}

// Whether a start is of the name, with what it holds.
fn is_start_of(start: &Start, name: &str) -> bool
    ensures { IsTrue result
        ↔ (start_of start.now ≡ record { name = name.now; exp = Var name.now }) }
{
    start.name.as_str() == name && is_var(&start.exp, name)
}

/// Whether the starts are of the names, each with what it holds.
#[tactic(auto, using(crate::proofs::ExpressionLists::starts_end, crate::proofs::ExpressionLists::starts_on))]
pub(crate) fn are_starts_of(starts: &[Start], names: &[String]) -> bool
    ensures { IsTrue result ↔ (map start_of starts.now ≡ as_starts (map string_bytes names.now)) }
{
    let mut left = starts;
    let mut right = names;
    'along: while let Some((first, rest)) = left.split_first() {
        let Some((name, names)) = right.split_first() else {
            return false;
        };
        if !is_start_of(first, name.as_str()) {
            return false;
        }
        left = rest;
        right = names;
    }
    right.is_empty()
}

/// Whether an expression is the conditions as one.
#[tactic(auto, using(crate::proofs::Conjunctions::conj_none, crate::proofs::Conjunctions::conj_only, crate::proofs::Conjunctions::conj_on))]
pub(crate) fn is_conjunction(e: &Exp, conditions: &[Condition]) -> bool
    ensures { IsTrue result ↔ (exp_of e.now ≡ conj (map condition_of conditions.now)) }
{
    let mut e = e;
    let mut rest = conditions;
    'along: while let Some((first, others)) = rest.split_first() {
        if others.is_empty() {
            return e.same(&first.exp);
        }
        match e {
            Exp::And(this, last) => {
                if !this.same(&first.exp) {
                    return false;
                }
                e = &**last;
            }
            _ => return false,
        }
        rest = others;
    }
    matches!(e, Exp::Truth(true))
}

// Whether an expression is the zero of a kind.
fn is_zero_of(kind: Option<Kind>, e: &Exp) -> bool
    ensures { IsTrue result ↔ IsZeroOf (option_map kind_of kind) (exp_of e.now) }
{
    match kind {
        Some(Kind::Word(width) | Kind::Nat(width) | Kind::Int(width)) => is_zero_word(width, e),
        Some(Kind::Bool) => matches!(e, Exp::Truth(false)),
        None => false,
    }
}

// Whether an expression is the zero of a width.
fn is_zero_word(width: u8, e: &Exp) -> bool
    ensures { IsTrue result ↔ (exp_of e.now ≡ WordLit (record { width = width; bits = 0 })) }
{
    match e {
        Exp::Word(word) => word.width() == width && word.bits() == 0,
        _ => false,
    }
}

/// Whether the expressions are the zeros of locals.
#[tactic(auto, using(crate::proofs::Zeros::zeros_end, crate::proofs::Zeros::zeros_short, crate::proofs::Zeros::zeros_on, crate::proofs::Zeros::zeros_off))]
pub(crate) fn are_zeros(exps: &[Exp], locals: &[Binder], names: &[String]) -> bool
    ensures { IsTrue result ↔ (zeros (map binder_of locals.now) (map string_bytes names.now)
        ≡ Some (map exp_of exps.now)) }
{
    let mut left = names;
    let mut right = exps;
    'along: while let Some((name, names)) = left.split_first() {
        let Some((first, rest)) = right.split_first() else {
            return false;
        };
        if !is_zero_of(kind_in(locals, name.as_str()), first) {
            return false;
        }
        left = names;
        right = rest;
    }
    right.is_empty()
}
