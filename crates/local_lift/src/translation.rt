//! Locals lifted out of the body of a function.

ghost use Rattle.std.specs.Prelude.{◌≡◌, true, List, Option, Some, map, string_bytes, IfOk};
ghost use Rattle.std.specs.Option.{option_map};
ghost use Rattle.expression_lang.specs.Expression as plain;
ghost use Rattle.expression_lang.specs.Expression.{WordLit};
ghost use Rattle.expression_lang.specs.CodeExpression.{exp_of, kind_of};
ghost use Rattle.expression_lang.specs.CodeSignature.{binder_of};
ghost use Rattle.expression_lang.specs.Signature.{kinds_of};
ghost use Rattle.expression_lang.specs.Sort as sorts;
ghost use Rattle.expression_lang.specs.Sort.{is_width, is_kind, are_kinds};
ghost use Rattle.rule_local.specs.Table.{zero_exp, zeros};
ghost use Rattle.simpl_lang.specs.CodeCommand.{simpl_of};
ghost use Rattle.simpl_lang.specs.Form.{is_flat};
ghost use Rattle.monad_lang.specs.CodeProgram.{mon_of};
ghost use Rattle.monad_lang.specs.Form.{is_bytes};
ghost use Rattle.rule_local.specs.Table.{TakesWhole};
ghost use Rattle.rule_local.specs.CommandForm.{is_bytes_command};
ghost use Rattle.rule_local.specs.Lifted.{locals_lifted};
ghost use Rattle.rule_local.specs.CodeRule.{tree_of, context_of};
ghost use Rattle.local_lift.specs.LiftedByLive.{whole_by_live};
ghost use Rattle.local_lift.specs.Ready.{IsReady, SameLifted};
ghost use Rattle.local_lift.specs.CodeLifted.{lifted_of};
ghost use Rattle.local_lift.specs.CodeLists.{begun_in};

use crate::lifted::{Lifted, starting};
use crate::lifting::lift;
use crate::planning::plan_of;
use crate::rows::Row;
use c_values::Word;
use expression_lang::{Binder, Exp, Kind};
use monad_lang::Mon;
use rule_local::{Context, Rule};
use rule_trees::Tree;
use simpl_lang::{Simpl, is_bound, kind_in};
use std::alloc::{AllocError, Global};

/// Locals lifted out of the body of a function, for these outputs, and the tree of rules that shows
/// it: what
/// `specs/Lifted` of the rules has, where the function is ready for it, as in a well-formed unit.
/// There is no answer only where memory is wanting. It takes the commands times the locals; a
/// command in a loop takes the square of the locals, and a loop their cube.
pub fn translate(
    alloc: Global,
    left: &Simpl,
    context: Context<'_>,
    outputs: &[String],
) -> Result<(Box<Mon>, Tree<Rule>), AllocError>
    ensures lifted { IfOk result (λ (right, tree).
        IsReady (context_of context.entry) (simpl_of left.now) (map string_bytes outputs.now) →
        SameLifted (mon_of right.value) (tree_of tree)
        (locals_lifted (context_of context.entry) (simpl_of left.now)
        (map string_bytes outputs.now))) }
    ensures taken { IfOk result (λ (right, tree).
        IsReady (context_of context.entry) (simpl_of left.now) (map string_bytes outputs.now) →
        is_flat (simpl_of left.now) ≡ true →
        TakesWhole (context_of context.entry) (tree_of tree) (simpl_of left.now)
        (mon_of right.value)
        (map string_bytes outputs.now)) }
    ensures bytes { IfOk result (λ (right, tree).
        IsReady (context_of context.entry) (simpl_of left.now) (map string_bytes outputs.now) →
        is_bytes_command (simpl_of left.now) ≡ true → is_bytes (mon_of right.value) ≡ true) }
{
    let Lifted { right, tree } = lifted_body(alloc, left, context, outputs)?;
    Ok((right, tree))
}

fn lifted_body(
    alloc: Global,
    left: &Simpl,
    context: Context<'_>,
    outputs: &[String],
) -> Result<Lifted, AllocError>
    ensures { IfOk result (λ l. are_kinds (kinds_of (map binder_of context.entry.locals.now))
        ≡ true →
        lifted_of l
        ≡ whole_by_live (context_of context.entry) (simpl_of left.now)
        (map string_bytes outputs.now)) }
{
    let command = plan_of(alloc, context.locals, left)?;
    let inner = lift(alloc, context.locals, &command.plan, outputs)?;
    let names = begun_names(alloc, context, &inner.before)?;
    let given = names.as_slice();
    if given.is_empty() {
        return Ok(inner.lifted);
    }
    let values = zeros(alloc, context.locals, given)?;
    let whole = starting(alloc, names, values, inner.lifted)?;
    Ok(whole)
}

// The zero of a width.
fn zero_word(width: u8) -> Exp
    ensures { is_width width ≡ true → exp_of result ≡ WordLit (record { width = width; bits = 0 }) }
{
    if width == 8 || width == 16 || width == 32 || width == 64 {
        Exp::Word(Word::new(width, 0))
    } else {
        Exp::Truth(false)
    }
}

// The zero of a kind.
fn zero_of(kind: Option<Kind>) -> Exp
    ensures { (k : sorts.Kind) → option_map kind_of kind ≡ Some k → is_kind k ≡ true →
        exp_of result ≡ zero_exp k }
{
    match kind {
        Some(Kind::Word(width)) => zero_word(width),
        Some(Kind::Nat(width)) => zero_word(width),
        Some(Kind::Int(width)) => zero_word(width),
        Some(Kind::Bool) => Exp::Truth(false),
        None => Exp::Truth(false),
    }
}

// The zeros of locals.
fn zeros(alloc: Global, locals: &[Binder], names: &[String]) -> Result<Vec<Exp>, AllocError>
    ensures { IfOk result (λ exps. (es : List plain.Exp) →
        zeros (map binder_of locals.now) (map string_bytes names.now) ≡ Some es →
        are_kinds (kinds_of (map binder_of locals.now)) ≡ true → map exp_of exps.items ≡ es) }
{
    let mut exps = Vec::new(alloc);
    let mut rest = names;
    'along: while let Some((name, others)) = rest.split_first() {
        exps.push(zero_of(kind_in(locals, name.as_str())))?;
        rest = others;
    }
    Ok(exps)
}

// The locals of a row that are no parameters.
#[tactic(auto, using(crate::proofs::ListLaws::mapped_push, crate::proofs::ListLaws::begun_here, crate::proofs::ListLaws::begun_later))]
fn begun_names(alloc: Global, context: Context<'_>, row: &Row) -> Result<Vec<String>, AllocError>
    ensures { IfOk result (λ names. map string_bytes names.items
        ≡ begun_in (context_of context.entry).parameters context.entry.locals.now
        row.now.flags.items) }
{
    let mut names = Vec::new(alloc);
    let mut left = context.locals;
    let mut right = row.flags.as_slice();
    'along: while let Some((local, others)) = left.split_first() {
        let Some((flag, rest)) = right.split_first() else {
            return Ok(names);
        };
        if *flag && !is_bound(local.name.as_str(), context.parameters) {
            names.push(local.name.clone()?)?;
        }
        left = others;
        right = rest;
    }
    Ok(names)
}
