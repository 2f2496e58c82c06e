//! The offsets of nodes in preorder, up to the first one past a limit.

ghost use Rattle.std.specs.Prelude.{◌≡◌, ◌∷◌, ◌++◌, ◌+◌, IfOk, take};
ghost use Rattle.c_limits.specs.Limits as limits;

use super::Limit;
use std::alloc::AllocError;

/// Keeps the nodes up to the first one past a limit.
pub(super) fn shorten(offsets: &mut Vec<usize>, limit: Limit)
    ensures { offsets.new.items ≡ take (limits.most limit + 1) offsets.old.items }
{
    offsets.truncate(limit.most() + 1);
}

/// A node before others.
pub(super) fn before(at: usize, others: &mut Vec<usize>, limit: Limit) -> Result<(), AllocError>
    ensures { IfOk result
        (λ _. others.new.items ≡ take (limits.most limit + 1) (at ∷ others.old.items)) }
{
    others.insert(0, at)?;
    others.truncate(limit.most() + 1);
    Ok(())
}

/// The nodes of two parts.
pub(super) fn joined(
    left: &mut Vec<usize>,
    right: Vec<usize>,
    limit: Limit,
) -> Result<(), AllocError>
    ensures { IfOk result
        (λ _. left.new.items ≡ take (limits.most limit + 1) (left.old.items ++ right.items)) }
{
    if left.is_empty() {
        *left = right;
    } else {
        left.extend_from_slice(&right)?;
    }
    left.truncate(limit.most() + 1);
    Ok(())
}

/// The first node on each level of two parts.
pub(super) fn leftmost(
    left: &mut Vec<usize>,
    right: Vec<usize>,
    limit: Limit,
) -> Result<(), AllocError>
    ensures { IfOk result
        (λ _. left.new.items
        ≡ take (limits.most limit + 1) (limits.leftmost left.old.items right.items)) }
{
    if left.is_empty() {
        *left = right;
    } else if left.len() < right.len() {
        left.extend_from_slice(&right[left.len()..])?;
    }
    left.truncate(limit.most() + 1);
    Ok(())
}
