//! Conditions as trees, both ways.
ghost use Rattle.std.specs.Prelude.{◌≡◌, ◌≢◌, OnOk, IfSome, IfNone, map};
ghost use Rattle.ac_sx.specs.Tree.{Node};
ghost use Rattle.ac_sx.specs.CodeSx.{tree_of, trees_in, two_of};
ghost use Rattle.ac_sx.specs.Writing.{written};
ghost use Rattle.expression_lang.specs.GuardKind as plain;
ghost use Rattle.expression_text.specs.CodeFault.{Gives};
ghost use Rattle.expression_text.specs.Lists.{trees_for, list_at};
ghost use Rattle.simpl_lang.specs.CodeCommand.{guard_kind_of, condition_of};
ghost use Rattle.command_text.specs.CommandText.{guard_word, condition_tree};
ghost use Rattle.command_text.specs.CommandReading as rows;
ghost use Rattle.command_text.specs.CommandReading.{guard_kind_at, guarded_at, condition_at, conditions_at};

use ac_sx::{Sx, TreeWriter, two};
use expression_text::{TextFault, exp_at, exp_into, next};
use simpl_lang::{Condition, GuardKind};
use std::alloc::{AllocError, Global};

/// The word of a condition's kind.
pub(crate) fn guard_word(kind: GuardKind) -> &'static str
    ensures { result.now ≡ guard_word (guard_kind_of kind) }
{
    match kind {
        GuardKind::Div => "div",
        GuardKind::Signed => "signed",
        GuardKind::Shift => "shift",
        GuardKind::Pointer => "pointer",
        GuardKind::Bounds => "bounds",
        GuardKind::Unreached => "unreached",
        GuardKind::Tag => "tag",
        GuardKind::Wrap => "wrap",
    }
}

fn guard_kind(word: &str) -> Option<GuardKind>
    ensures some { IfSome result (λ k. word.now ≡ guard_word (guard_kind_of k)) }
    ensures none { IfNone result ((k : plain.GuardKind) → word.now ≢ guard_word k) }
{
    match word {
        "div" => Some(GuardKind::Div),
        "signed" => Some(GuardKind::Signed),
        "shift" => Some(GuardKind::Shift),
        "pointer" => Some(GuardKind::Pointer),
        "bounds" => Some(GuardKind::Bounds),
        "unreached" => Some(GuardKind::Unreached),
        "tag" => Some(GuardKind::Tag),
        "wrap" => Some(GuardKind::Wrap),
        _ => None,
    }
}

fn guard_kind_at(tree: &Sx, at: u32) -> Result<(GuardKind, u32), TextFault>
    ensures { Gives guard_kind_of result (guard_kind_at at (tree_of tree.now)) }
{
    let Some(word) = tree.word() else {
        return Err(TextFault::Shape(at));
    };
    match guard_kind(word) {
        Some(kind) => Ok((kind, next(at))),
        None => Err(TextFault::Shape(at)),
    }
}

/// The condition of a kind and an expression.
fn guarded_at(alloc: Global, kind: &Sx, exp: &Sx, at: u32) -> Result<(Condition, u32), TextFault>
    ensures { Gives condition_of result (guarded_at at (tree_of kind.now) (tree_of exp.now)) }
{
    let (kind, at) = guard_kind_at(kind, at)?;
    let (exp, at) = exp_at(alloc, exp, at)?;
    Ok((Condition { kind, exp }, at))
}

/// The same, on the heap: what is read inside one another is to take little of the stack.
#[inline(never)]
pub(crate) fn boxed_guarded_at(
    alloc: Global,
    kind: &Sx,
    exp: &Sx,
    at: u32,
) -> Result<(Box<Condition>, u32), TextFault>
    ensures { Gives (λ c. condition_of c.value) result
        (guarded_at at (tree_of kind.now) (tree_of exp.now)) }
{
    let (condition, at) = guarded_at(alloc, kind, exp, at)?;
    Ok((Box::new(alloc, condition)?, at))
}

fn condition_at(alloc: Global, tree: &Sx, at: u32) -> Result<(Condition, u32), TextFault>
    ensures { Gives condition_of result (condition_at at (tree_of tree.now)) }
{
    match tree.parts() {
        Some(parts) => condition_row(alloc, at, parts),
        None => Err(TextFault::Shape(at)),
    }
}

fn condition_row(alloc: Global, at: u32, parts: &[Sx]) -> Result<(Condition, u32), TextFault>
    ensures { Gives condition_of result (rows.condition_row at (two_of (trees_in parts.now))) }
{
    let Some((kind, exp)) = two(parts) else {
        return Err(TextFault::Shape(at));
    };
    guarded_at(alloc, kind, exp, next(at))
}

/// The conditions that a list is.
pub(crate) fn conditions_at(
    alloc: Global,
    tree: &Sx,
    at: u32,
) -> Result<(Vec<Condition>, u32), TextFault>
    ensures { Gives (λ conditions. map condition_of conditions.items) result
        (conditions_at at (tree_of tree.now)) }
{
    match tree.parts() {
        Some(parts) => each_condition_at(alloc, parts, next(at)),
        None => Err(TextFault::Shape(at)),
    }
}

fn each_condition_at(
    alloc: Global,
    parts: &[Sx],
    at: u32,
) -> Result<(Vec<Condition>, u32), TextFault>
    ensures { Gives (λ conditions. map condition_of conditions.items) result
        (list_at condition_at at (trees_in parts.now)) }
{
    let mut conditions = Vec::new(alloc);
    let mut at = at;
    'parts: for part in parts {
        let (condition, behind) = condition_at(alloc, part, at)?;
        conditions.push(condition)?;
        at = behind;
    }
    Ok((conditions, at))
}

fn condition_into<W: TreeWriter>(
    alloc: Global,
    out: &mut W,
    condition: &Condition,
) -> Result<(), AllocError>
    ensures { OnOk result (W.state out.new
        ≡ written W.writing (W.state out.old) (condition_tree (condition_of condition.now))) }
{
    out.enter()?;
    out.atom(guard_word(condition.kind))?;
    exp_into(alloc, out, &condition.exp)?;
    out.leave()
}

/// Writes the list of these conditions.
pub(crate) fn conditions_into<W: TreeWriter>(
    alloc: Global,
    out: &mut W,
    conditions: &[Condition],
) -> Result<(), AllocError>
    ensures { OnOk result (W.state out.new ≡ written W.writing (W.state out.old)
        (Node (trees_for condition_tree (map condition_of conditions.now)))) }
{
    out.enter()?;
    let mut rest = conditions;
    'conditions: while let Some((condition, others)) = rest.split_first() {
        condition_into(alloc, out, condition)?;
        rest = others;
    }
    out.leave()
}
