//! What a rule asks of two expressions. One function for each rule.

ghost use Rattle.std.specs.Prelude.{◌≡◌, ◌↔◌, [], IsTrue};
ghost use Rattle.expression_lang.specs.CodeExpression.{exp_of};
ghost use Rattle.ac_expr.specs.Heads.{children};
ghost use Rattle.rule_heap.specs.Rule as names;
ghost use Rattle.rule_heap.specs.Table.{exp_row, has_rule};
ghost use Rattle.rule_heap.specs.CodeRule.{rule_of, facts_at};

use crate::ranges::{is_covered, is_place};
use crate::rule::{Context, Rule};
use ac_expr::{children_of, same_head, same_steps};
use expression_lang::{Exp, equal_types};

/// Whether what a rule asks of two expressions holds.
#[inline(never)]
pub(crate) fn is_exp_asked(rule: &Rule, left: &Exp, right: &Exp, context: Context<'_>) -> bool
    ensures { IsTrue result ↔ (exp_row context.entry.layout.now (facts_at context.entry)
        (rule_of rule.now) (exp_of left.now) (exp_of right.now)).holds }
{
    match rule {
        Rule::Leaf => is_leaf(left, right, context),
        Rule::Load => is_load(left, right, context),
        Rule::Tagged => is_tagged(left, right, context),
        Rule::PtrOk => is_ptr_ok(left, right, context),
        Rule::Op => is_op(left, right, context),
        Rule::And => is_and(left, right, context),
        Rule::Or => is_or(left, right, context),
        Rule::Imp => is_imp(left, right, context),
        Rule::Cond => is_cond(left, right, context),
        Rule::Known(q) => is_known(q, left, right, context),
        Rule::Ret | Rule::Bind | Rule::Guard | Rule::If | Rule::Global | Rule::Loop => false,
        Rule::Call | Rule::Pick | Rule::Write | Rule::Pointer | Rule::Drop(_) | Rule::Same => false,
    }
}

// Whether an expression has no children.
fn is_bare(e: &Exp) -> bool
    ensures { IsTrue result ↔ (children (exp_of e.now) ≡ []) }
{
    match children_of(e).next() {
        Some(_) => false,
        None => true,
    }
}

fn is_leaf(left: &Exp, right: &Exp, context: Context<'_>) -> bool
    ensures { IsTrue result ↔ (exp_row context.entry.layout.now (facts_at context.entry)
        names.Leaf (exp_of left.now) (exp_of right.now)).holds }
{
    is_bare(left) && right.same(left)
}

fn is_load(left: &Exp, right: &Exp, context: Context<'_>) -> bool
    ensures { IsTrue result ↔ (exp_row context.entry.layout.now (facts_at context.entry)
        names.Load (exp_of left.now) (exp_of right.now)).holds }
{
    match left {
        Exp::Load(t, _, path) => match right {
            Exp::Read(u, q, way) => {
                equal_types(u, t) && same_steps(path, way) && is_place(t, q, way, context)
            }
            _ => false,
        },
        _ => false,
    }
}

fn is_tagged(left: &Exp, right: &Exp, context: Context<'_>) -> bool
    ensures { IsTrue result ↔ (exp_row context.entry.layout.now (facts_at context.entry)
        names.Tagged (exp_of left.now) (exp_of right.now)).holds }
{
    match left {
        Exp::Tagged(t, _) => match right {
            Exp::Tagged(u, _) => equal_types(u, t),
            _ => false,
        },
        _ => false,
    }
}

fn is_ptr_ok(left: &Exp, right: &Exp, context: Context<'_>) -> bool
    ensures { IsTrue result ↔ (exp_row context.entry.layout.now (facts_at context.entry)
        names.PtrOk (exp_of left.now) (exp_of right.now)).holds }
{
    match left {
        Exp::PtrOk(t, _) => match right {
            Exp::PtrOk(u, _) => equal_types(u, t),
            _ => false,
        },
        _ => false,
    }
}

// Whether an expression's head has a rule of its own.
fn has_rule(e: &Exp) -> bool
    ensures { result ≡ has_rule (exp_of e.now) }
{
    match e {
        Exp::Load(_, _, _) | Exp::Read(_, _, _) | Exp::Tagged(_, _) | Exp::PtrOk(_, _) => true,
        Exp::And(_, _) | Exp::Or(_, _) | Exp::Imp(_, _) | Exp::If(_, _, _) => true,
        _ => false,
    }
}

fn is_op(left: &Exp, right: &Exp, context: Context<'_>) -> bool
    ensures { IsTrue result ↔ (exp_row context.entry.layout.now (facts_at context.entry)
        names.Op (exp_of left.now) (exp_of right.now)).holds }
{
    !has_rule(left) && !is_bare(left) && same_head(left, right)
}

fn is_and(left: &Exp, right: &Exp, context: Context<'_>) -> bool
    ensures { IsTrue result ↔ (exp_row context.entry.layout.now (facts_at context.entry)
        names.And (exp_of left.now) (exp_of right.now)).holds }
{
    match left {
        Exp::And(_, _) => matches!(right, Exp::And(_, _)),
        _ => false,
    }
}

fn is_or(left: &Exp, right: &Exp, context: Context<'_>) -> bool
    ensures { IsTrue result ↔ (exp_row context.entry.layout.now (facts_at context.entry)
        names.Or (exp_of left.now) (exp_of right.now)).holds }
{
    match left {
        Exp::Or(_, _) => matches!(right, Exp::Or(_, _)),
        _ => false,
    }
}

fn is_imp(left: &Exp, right: &Exp, context: Context<'_>) -> bool
    ensures { IsTrue result ↔ (exp_row context.entry.layout.now (facts_at context.entry)
        names.Imp (exp_of left.now) (exp_of right.now)).holds }
{
    match left {
        Exp::Imp(_, _) => matches!(right, Exp::Imp(_, _)),
        _ => false,
    }
}

fn is_cond(left: &Exp, right: &Exp, context: Context<'_>) -> bool
    ensures { IsTrue result ↔ (exp_row context.entry.layout.now (facts_at context.entry)
        names.Cond (exp_of left.now) (exp_of right.now)).holds }
{
    match left {
        Exp::If(_, _, _) => matches!(right, Exp::If(_, _, _)),
        _ => false,
    }
}

fn is_known(q: &Exp, left: &Exp, right: &Exp, context: Context<'_>) -> bool
    ensures { IsTrue result ↔ (exp_row context.entry.layout.now (facts_at context.entry)
        (names.Known (exp_of q.now)) (exp_of left.now) (exp_of right.now)).holds }
{
    match left {
        Exp::PtrOk(t, _) => match right {
            Exp::Truth(true) => is_covered(t, q, context),
            _ => false,
        },
        _ => false,
    }
}
