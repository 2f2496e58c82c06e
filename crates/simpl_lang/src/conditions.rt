//! Conditions that are compared and copied.

ghost use Rattle.std.specs.Prelude.{◌≡◌, ◌↔◌, IsTrue, IfOk, map};
ghost use Rattle.simpl_lang.specs.CodeCommand.{guard_kind_of, condition_of};

use crate::command::{Condition, GuardKind};
use std::alloc::{AllocError, Global};

/// Whether two guards are of one kind.
pub fn same_guard_kind(kind: GuardKind, other: GuardKind) -> bool
    ensures { IsTrue result ↔ (guard_kind_of kind ≡ guard_kind_of other) }
{
    kind == other
}

/// Whether two conditions are the same.
pub fn same_condition(condition: &Condition, other: &Condition) -> bool
    ensures { IsTrue result ↔ (condition_of condition.now ≡ condition_of other.now) }
{
    same_guard_kind(condition.kind, other.kind) && condition.exp.same(&other.exp)
}

/// Whether two lists have the same conditions.
#[tactic(auto, using(expression_lang::proofs::SameLists::maps_end, expression_lang::proofs::SameLists::maps_go_on))]
pub fn same_conditions(conditions: &[Condition], others: &[Condition]) -> bool
    ensures { IsTrue result ↔ (map condition_of conditions.now ≡ map condition_of others.now) }
{
    let mut left = conditions;
    let mut right = others;
    'along: while let Some((first, rest)) = left.split_first() {
        let Some((other, other_rest)) = right.split_first() else {
            return false;
        };
        if !same_condition(first, other) {
            return false;
        }
        left = rest;
        right = other_rest;
    }
    right.is_empty()
}

/// A copy of a condition.
pub fn copy_of_condition(alloc: Global, condition: &Condition) -> Result<Condition, AllocError>
    ensures { IfOk result (λ copy. condition_of copy ≡ condition_of condition.now) }
{
    let exp = condition.exp.boxed_copy(alloc)?;
    Ok(Condition {
        kind: condition.kind,
        exp: Box::into_inner(exp),
    })
}

/// Copies of conditions.
pub fn copy_of_conditions(
    alloc: Global,
    conditions: &[Condition],
) -> Result<Vec<Condition>, AllocError>
    ensures { IfOk result (λ copies.
        map condition_of copies.items ≡ map condition_of conditions.now) }
{
    let mut copies = Vec::new(alloc);
    for condition in conditions {
        copies.push(copy_of_condition(alloc, condition)?)?;
    }
    Ok(copies)
}
