//! The nearest keys of a map of numbers.

ghost use Rattle.std.specs.Prelude.{◌≡◌, ◌<◌, ◌≤◌, ℕ, None, IfNone, IfSome};
ghost use Rattle.std.specs.Ordering.{nat_cmp};
ghost use Rattle.std.specs.BTreeMap.{get};
ghost use Rattle.c_memory.specs.CodeNearest.{IsLastAt, IsFirstAfter};

use std::collections::BTreeMap;
use std::ops::Bound;

/// The value of the last key at or below a number.
pub(crate) fn last_at(places: &BTreeMap<u64, usize>, number: u64) -> Option<usize>
    ensures none { IfNone result ((k : ℕ) → k ≤ number → get nat_cmp places.now k ≡ None) }
    ensures some { IfSome result (IsLastAt places.now number) }
{
    match places.range(..=number).next_back() {
        Some((_, value)) => Some(*value),
        None => None,
    }
}

/// The value of the first key after a number.
pub(crate) fn first_after(places: &BTreeMap<u64, usize>, number: u64) -> Option<usize>
    ensures none { IfNone result ((k : ℕ) → number < k → get nat_cmp places.now k ≡ None) }
    ensures some { IfSome result (IsFirstAfter places.now number) }
{
    let after = (Bound::Excluded(number), Bound::Unbounded);
    match places.range(after).next() {
        Some((_, value)) => Some(*value),
        None => None,
    }
}
