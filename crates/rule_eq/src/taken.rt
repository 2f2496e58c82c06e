//! What the rule for one value asks: the value that is taken, and the program with it in place.

ghost use Rattle.std.specs.Prelude.{◌≡◌, ◌↔◌, List, map, string_bytes, IsTrue, IfSome, IfNone, Some, None};
ghost use Rattle.expression_lang.specs.CodeExpression.{exp_of};
ghost use Rattle.monad_lang.specs.CodeProgram.{mon_of};
ghost use Rattle.monad_lang.specs.Program as programs;
ghost use Rattle.ac_expr.specs.Lasting.{is_unnamed};
ghost use Rattle.expression_lang.specs.Expression as plain;
ghost use Rattle.rule_eq.specs.Table.{taken_at, CanStand, with_values, AreTaken};
ghost use Rattle.rule_eq.specs.CodeTaken.{without, at_position};
ghost use Rattle.program_facts.specs.Substituted.{program_substituted};

use crate::program_putting::is_program_put;
use expression_lang::{Exp, IsReading, same_exps, same_names};
use monad_lang::{Mon, is_free, is_in};
use rule_parts::{captures, is_unnamed};

/// Whether the value at a position may stand in a program in place of its name, and the right side
/// is the program with it.
#[tactic(auto, using(crate::proofs::Taking::found, crate::proofs::Taking::taken_is, crate::proofs::Taking::no_value, crate::proofs::Taking::no_name, crate::proofs::Taking::not_taken))]
pub(crate) fn is_taken(
    position: usize,
    values: &[Exp],
    names: &[String],
    m: &Mon,
    right: &Mon,
) -> bool
    ensures { IsTrue result
        ↔ AreTaken (taken_at position (map exp_of values.now) (map string_bytes names.now))
        (mon_of m.now) (mon_of right.now) }
{
    let Some(value) = value_at(values, position) else {
        return false;
    };
    let Some(held) = name_at(names, position) else {
        return false;
    };
    let name = held.as_str();
    can_stand(value, name, names, position, m)
        && is_right(value, name, values, names, position, m, right)
}

// The value at a position.
fn value_at(values: &[Exp], position: usize) -> Option<&Exp>
    ensures some { IfSome result (λ value.
        at_position position (map exp_of values.now) ≡ Some (exp_of value.now)) }
    ensures none { IfNone result (at_position position (map exp_of values.now) ≡ None) }
{
    values.get(position)
}

// The name at a position.
fn name_at(names: &[String], position: usize) -> Option<&String>
    ensures some { IfSome result (λ name.
        at_position position (map string_bytes names.now) ≡ Some (string_bytes name.now)) }
    ensures none { IfNone result (at_position position (map string_bytes names.now) ≡ None) }
{
    names.get(position)
}

// Whether the value may stand in the program in place of its name.
#[tactic(auto, using(crate::proofs::Taking::stands, crate::proofs::Taking::stands_uncaptured, crate::proofs::Taking::stands_apart))]
fn can_stand(value: &Exp, name: &str, names: &[String], position: usize, m: &Mon) -> bool
    ensures { (exps : List plain.Exp) → IsTrue result ↔ CanStand (record {
      exp = exp_of value.now;
      name = name.now;
      exps = exps;
      names = without position (map string_bytes names.now);
    }) (mon_of m.now) }
{
    if !is_unnamed_but(names, position, value) {
        return false;
    }
    if captures(value, name, m) {
        return false;
    }
    if !value.any(&IsReading) {
        return true;
    }
    !is_free(name, m)
}

// Whether an expression has none of the names but the one at a position.
fn is_unnamed_but(names: &[String], position: usize, e: &Exp) -> bool
    ensures { result ≡ is_unnamed (without position (map string_bytes names.now)) (exp_of e.now) }
{
    let mut rest = names;
    let mut left = position;
    'along: while let Some((name, others)) = rest.split_first() {
        if left == 0 {
            return is_unnamed(others, e);
        }
        if is_in(name, e) {
            return false;
        }
        left -= 1;
        rest = others;
    }
    true
}

// Whether the right side is the program with the value in place, under the other values.
#[tactic(auto, using(crate::proofs::Taking::alone_iff, crate::proofs::Taking::others_iff))]
fn is_right(
    value: &Exp,
    name: &str,
    values: &[Exp],
    names: &[String],
    position: usize,
    m: &Mon,
    right: &Mon,
) -> bool
    requires { at_position position (map exp_of values.now) ≡ Some (exp_of value.now) }
    ensures { IsTrue result ↔ (mon_of right.now
        ≡ with_values (without position (map exp_of values.now)) (without position
        (map string_bytes names.now))
        (program_substituted name.now (exp_of value.now) (mon_of m.now))) }
{
    if values.len() == 1 {
        is_program_put(name, value, m, right)
    } else {
        is_under_others(value, name, values, names, position, m, right)
    }
}

// Whether the right side gives all values but one, and then is the program with that in place.
fn is_under_others(
    value: &Exp,
    name: &str,
    values: &[Exp],
    names: &[String],
    position: usize,
    m: &Mon,
    right: &Mon,
) -> bool
    ensures { IsTrue result ↔ (mon_of right.now
        ≡ programs.Bind (programs.Ret (without position (map exp_of values.now)))
        (without position (map string_bytes names.now))
        (program_substituted name.now (exp_of value.now) (mon_of m.now))) }
{
    match right {
        Mon::Bind(first, others, last) => {
            are_others(values, position, first)
                && same_names_but(names, position, others)
                && is_program_put(name, value, m, last)
        }
        _ => false,
    }
}

// Whether a program gives these values without the one at a position.
fn are_others(values: &[Exp], position: usize, first: &Mon) -> bool
    ensures { IsTrue result ↔ (mon_of first.now
        ≡ programs.Ret (without position (map exp_of values.now))) }
{
    match first {
        Mon::Ret(exps) => same_exps_but(values, position, exps),
        _ => false,
    }
}

// Whether expressions are these without the one at a position.
#[tactic(auto, using(crate::proofs::Taking::without_end, crate::proofs::Taking::without_other, crate::proofs::Taking::without_more, crate::proofs::Taking::without_short))]
fn same_exps_but(exps: &[Exp], position: usize, others: &[Exp]) -> bool
    ensures { IsTrue result ↔ (map exp_of others.now ≡ without position (map exp_of exps.now)) }
{
    let mut left = exps;
    let mut right = others;
    let mut count = position;
    'along: while let Some((first, rest)) = left.split_first() {
        if count == 0 {
            return same_exps(right, rest);
        }
        let Some((other, behind)) = right.split_first() else {
            return false;
        };
        if !other.same(first) {
            return false;
        }
        count -= 1;
        left = rest;
        right = behind;
    }
    right.is_empty()
}

// The same of names.
#[tactic(auto, using(crate::proofs::Taking::without_end, crate::proofs::Taking::without_other, crate::proofs::Taking::without_more, crate::proofs::Taking::without_short))]
fn same_names_but(names: &[String], position: usize, others: &[String]) -> bool
    ensures { IsTrue result
        ↔ (map string_bytes others.now ≡ without position (map string_bytes names.now)) }
{
    let mut left = names;
    let mut right = others;
    let mut count = position;
    'along: while let Some((first, rest)) = left.split_first() {
        if count == 0 {
            return same_names(right, rest);
        }
        let Some((other, behind)) = right.split_first() else {
            return false;
        };
        if other.as_str() != first.as_str() {
            return false;
        }
        count -= 1;
        left = rest;
        right = behind;
    }
    right.is_empty()
}
