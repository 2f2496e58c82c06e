//! Switches: their operands and labels.

ghost use Rattle.std.specs.Prelude.{◌≡◌, IfOk};
ghost use Rattle.c_values.specs.CodeTypes.{target_of, int_type_of};
ghost use Rattle.c_lang.specs.CodeTyped as typed;
ghost use Rattle.expression_lang.specs.CodeExpression.{exp_of, level_of};
ghost use Rattle.simpl_lang.specs.Command.{Set, Seq, Catch};
ghost use Rattle.simpl_lang.specs.CodeCommand.{simpl_of};
ghost use Rattle.expression_lang.specs.Expression.{Eq, Var};
ghost use Rattle.generation.specs.Guards as values;
ghost use Rattle.generation.specs.Generate as rules;

use crate::commands::{sequence, set, with_guards};
use crate::jumps::until_break;
use crate::names::switch_local;
use c_lang::tree::Expr;
use c_values::{IntType, Layout, Number, Target};
use expression_lang::{Exp, Level};
use simpl_expressions::terms::{equal, or, truth_literal, variable, word_of};
use simpl_expressions::{add_guards, value};
use simpl_lang::Simpl;
use std::alloc::{AllocError, Global};

/// A switch with its number over its operand, its groups being a command.
pub(crate) fn switch(
    alloc: Global,
    l: &Layout,
    level: Level,
    n: u64,
    e: &Expr,
    groups: Box<Simpl>,
) -> Result<Box<Simpl>, AllocError>
    ensures { IfOk result
        (λ s. simpl_of s.value
        ≡ rules.guarded (values.guards l.now (level_of level) (typed.expr_of e.now))
        (Seq (Set (rules.switch_local n) (values.exp l.now (typed.expr_of e.now)))
        (Catch (simpl_of groups.value) (rules.stops_at rules.broken)))) }
{
    let mut guards = Vec::new(alloc);
    add_guards(alloc, l, level, e, &mut guards)?;
    let operand = set(alloc, switch_local(alloc, n)?, value(alloc, l, e)?)?;
    let groups = until_break(alloc, groups)?;
    let switch = sequence(alloc, operand, groups)?;
    with_guards(alloc, guards, switch)
}

/// Whether the operand is one of the labels. It goes over the labels by a loop, since a text may
/// have many.
#[tactic(auto, using(crate::proofs::Labelled::one_label_more, crate::proofs::Labelled::last_label))]
pub(crate) fn is_one_of(
    alloc: Global,
    target: Target,
    ty: IntType,
    n: u64,
    labels: &[Number],
) -> Result<Box<Exp>, AllocError>
    ensures { IfOk result
        (λ e. exp_of e.value ≡ rules.is_one_of (target_of target) (int_type_of ty) n labels.now) }
{
    if labels.is_empty() {
        return truth_literal(alloc, false);
    }
    let mut k = labels.len() - 1;
    let mut test = is_label(alloc, target, ty, n, labels[k])?;
    'labels: while k > 0 {
        k -= 1;
        let first = is_label(alloc, target, ty, n, labels[k])?;
        test = or(alloc, first, test)?;
    }
    Ok(test)
}

// Whether the operand is a label.
fn is_label(
    alloc: Global,
    target: Target,
    ty: IntType,
    n: u64,
    label: Number,
) -> Result<Box<Exp>, AllocError>
    ensures { IfOk result
        (λ e. exp_of e.value
        ≡ Eq (Var (rules.switch_local n))
        (values.word_of (target_of target) (int_type_of ty) label)) }
{
    let operand = variable(alloc, switch_local(alloc, n)?)?;
    equal(alloc, operand, word_of(alloc, target, ty, label)?)
}
