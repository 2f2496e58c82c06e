//! What a rule asks of two programs. One function for each rule.

ghost use Rattle.std.specs.Prelude.{◌≡◌, ◌↔◌, [], IsTrue, IfSome, IfNone};
ghost use Rattle.c_values.specs.CodeTypes.{type_of};
ghost use Rattle.c_values.specs.Types as types;
ghost use Rattle.expression_lang.specs.Expression as plain;
ghost use Rattle.expression_lang.specs.CodeExpression.{exp_of, kind_of};
ghost use Rattle.monad_lang.specs.Program as programs;
ghost use Rattle.monad_lang.specs.CodeProgram.{mon_of};
ghost use Rattle.rule_heap.specs.Rule as names;
ghost use Rattle.rule_heap.specs.Table.{row};
ghost use Rattle.rule_heap.specs.CodeRule.{rule_of, facts_at};

use crate::ranges::{is_covered, is_place};
use crate::rule::{Context, Rule};
use ac_expr::same_steps;
use c_values::CType;
use expression_lang::{Exp, Kind, equal_types, same_names};
use monad_lang::{Mon, Place};
use rule_parts::same_start_names;

/// Whether what a rule asks of two programs holds.
#[inline(never)]
pub(crate) fn is_asked(rule: &Rule, left: &Mon, right: &Mon, context: Context<'_>) -> bool
    ensures { IsTrue result ↔ (row context.entry.layout.now (facts_at context.entry)
        (rule_of rule.now) (mon_of left.now) (mon_of right.now)).holds }
{
    match rule {
        Rule::Ret => is_ret(left, right, context),
        Rule::Bind => is_bind(left, right, context),
        Rule::Guard => is_guard(left, right, context),
        Rule::If => is_if(left, right, context),
        Rule::Global => is_global(left, right, context),
        Rule::Loop => is_loop(left, right, context),
        Rule::Call => is_call(left, right, context),
        Rule::Pick => is_pick(left, right, context),
        Rule::Write => is_write(left, right, context),
        Rule::Pointer => is_pointer(left, right, context),
        Rule::Drop(q) => is_drop(q, left, right, context),
        Rule::Same => is_same(left, right, context),
        Rule::Leaf | Rule::Load | Rule::Tagged | Rule::PtrOk | Rule::Op | Rule::And => false,
        Rule::Or | Rule::Imp | Rule::Cond | Rule::Known(_) => false,
    }
}

fn is_ret(left: &Mon, right: &Mon, context: Context<'_>) -> bool
    ensures { IsTrue result ↔ (row context.entry.layout.now (facts_at context.entry)
        names.Ret (mon_of left.now) (mon_of right.now)).holds }
{
    match left {
        Mon::Ret(exps) => match right {
            Mon::Ret(others) => others.len() == exps.len(),
            _ => false,
        },
        _ => false,
    }
}

fn is_bind(left: &Mon, right: &Mon, context: Context<'_>) -> bool
    ensures { IsTrue result ↔ (row context.entry.layout.now (facts_at context.entry)
        names.Bind (mon_of left.now) (mon_of right.now)).holds }
{
    match left {
        Mon::Bind(_, names, _) => match right {
            Mon::Bind(_, others, _) => same_names(others, names),
            _ => false,
        },
        _ => false,
    }
}

fn is_guard(left: &Mon, right: &Mon, context: Context<'_>) -> bool
    ensures { IsTrue result ↔ (row context.entry.layout.now (facts_at context.entry)
        names.Guard (mon_of left.now) (mon_of right.now)).holds }
{
    match left {
        Mon::Guard(_) => matches!(right, Mon::Guard(_)),
        _ => false,
    }
}

fn is_if(left: &Mon, right: &Mon, context: Context<'_>) -> bool
    ensures { IsTrue result ↔ (row context.entry.layout.now (facts_at context.entry)
        names.If (mon_of left.now) (mon_of right.now)).holds }
{
    match left {
        Mon::If(_, _, _) => matches!(right, Mon::If(_, _, _)),
        _ => false,
    }
}

fn is_global(left: &Mon, right: &Mon, context: Context<'_>) -> bool
    ensures { IsTrue result ↔ (row context.entry.layout.now (facts_at context.entry)
        names.Global (mon_of left.now) (mon_of right.now)).holds }
{
    match left {
        Mon::Write(Place::Global(name, path), _) => match right {
            Mon::Write(Place::Global(other, way), _) => {
                other.as_str() == name.as_str() && same_steps(path, way)
            }
            _ => false,
        },
        _ => false,
    }
}

fn is_loop(left: &Mon, right: &Mon, context: Context<'_>) -> bool
    ensures { IsTrue result ↔ (row context.entry.layout.now (facts_at context.entry)
        names.Loop (mon_of left.now) (mon_of right.now)).holds }
{
    match left {
        Mon::Loop(starts, _, _, _) => match right {
            Mon::Loop(others, _, _, _) => same_start_names(starts, others),
            _ => false,
        },
        _ => false,
    }
}

fn is_call(left: &Mon, right: &Mon, context: Context<'_>) -> bool
    ensures { IsTrue result ↔ (row context.entry.layout.now (facts_at context.entry)
        names.Call (mon_of left.now) (mon_of right.now)).holds }
{
    match left {
        Mon::Call(name, exps) => match right {
            Mon::Call(other, others) => {
                other.as_str() == name.as_str() && others.len() == exps.len()
            }
            _ => false,
        },
        _ => false,
    }
}

fn same_kind(k: Kind, j: Kind) -> bool
    ensures { IsTrue result ↔ (kind_of j ≡ kind_of k) }
{
    k == j
}

fn is_pick(left: &Mon, right: &Mon, context: Context<'_>) -> bool
    ensures { IsTrue result ↔ (row context.entry.layout.now (facts_at context.entry)
        names.Pick (mon_of left.now) (mon_of right.now)).holds }
{
    match left {
        Mon::Pick(kind) => match right {
            Mon::Pick(other) => same_kind(*kind, *other),
            _ => false,
        },
        _ => false,
    }
}

fn is_write(left: &Mon, right: &Mon, context: Context<'_>) -> bool
    ensures { IsTrue result ↔ (row context.entry.layout.now (facts_at context.entry)
        names.Write (mon_of left.now) (mon_of right.now)).holds }
{
    match left {
        Mon::Write(Place::Stored(t, _, path), _) => match right {
            Mon::Write(Place::Written(u, q, way), _) => {
                equal_types(u, t) && same_steps(path, way) && is_place(t, q, way, context)
            }
            _ => false,
        },
        _ => false,
    }
}

// The guard of a pointer that a program begins with, and what is behind it.
pub(crate) fn ptr_ok_first(m: &Mon) -> Option<(&CType, &Exp, &Box<Mon>)>
    ensures some { IfSome result (λ (t, p, n). mon_of m.now
        ≡ programs.Bind (programs.Guard (plain.PtrOk (type_of t.now) (exp_of p.now))) []
        (mon_of n.now.value)) }
    ensures none { (t : types.CType) (p : plain.Exp) (n : programs.Mon) → IfNone result
        (mon_of m.now ≡ programs.Bind (programs.Guard (plain.PtrOk t p)) [] n → ⊥) }
{
    match m {
        Mon::Bind(first, names, rest) => {
            if !names.is_empty() {
                return None;
            }
            match &**first {
                Mon::Guard(Exp::PtrOk(t, p)) => Some((t, &**p, rest)),
                _ => None,
            }
        }
        _ => None,
    }
}

// The same of the guard that a root is covered.
pub(crate) fn tagged_first(m: &Mon) -> Option<(&CType, &Exp, &Box<Mon>)>
    ensures some { IfSome result (λ (t, p, n). mon_of m.now
        ≡ programs.Bind (programs.Guard (plain.Tagged (type_of t.now) (exp_of p.now))) []
        (mon_of n.now.value)) }
    ensures none { (t : types.CType) (p : plain.Exp) (n : programs.Mon) → IfNone result
        (mon_of m.now ≡ programs.Bind (programs.Guard (plain.Tagged t p)) [] n → ⊥) }
{
    match m {
        Mon::Bind(first, names, rest) => {
            if !names.is_empty() {
                return None;
            }
            match &**first {
                Mon::Guard(Exp::Tagged(t, p)) => Some((t, &**p, rest)),
                _ => None,
            }
        }
        _ => None,
    }
}

fn is_same(left: &Mon, right: &Mon, context: Context<'_>) -> bool
    ensures { IsTrue result ↔ (row context.entry.layout.now (facts_at context.entry)
        names.Same (mon_of left.now) (mon_of right.now)).holds }
{
    right.same(left) && left.is_heaps()
}

fn is_drop(q: &Exp, left: &Mon, right: &Mon, context: Context<'_>) -> bool
    ensures { IsTrue result ↔ (row context.entry.layout.now (facts_at context.entry)
        (names.Drop (exp_of q.now)) (mon_of left.now) (mon_of right.now)).holds }
{
    match ptr_ok_first(left) {
        Some((t, _, _)) => is_covered(t, q, context),
        None => false,
    }
}

fn is_pointer(left: &Mon, right: &Mon, context: Context<'_>) -> bool
    ensures { IsTrue result ↔ (row context.entry.layout.now (facts_at context.entry)
        names.Pointer (mon_of left.now) (mon_of right.now)).holds }
{
    let Some((t, p, rest)) = ptr_ok_first(left) else {
        return false;
    };
    let Some((u, q, _)) = tagged_first(rest) else {
        return false;
    };
    match tagged_first(right) {
        Some((v, _, _)) => equal_types(u, t) && q.same(p) && equal_types(v, t),
        None => false,
    }
}
