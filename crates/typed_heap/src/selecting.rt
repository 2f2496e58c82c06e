//! Parts of values.

ghost use Rattle.std.specs.Prelude.{◌≡◌, ◌≢◌, ◌≤◌, ◌∷◌, IsSome, IsSomeAnd, IfSome, MatchBool, MatchOption};
ghost use Rattle.std.specs.Bool.{OnFalse};
ghost use Rattle.c_values.specs.Value.{word_in};
ghost use Rattle.c_values.specs.Value as values;
ghost use Rattle.c_values.specs.CodeLone.{lone};
ghost use Rattle.c_values.specs.Path.{sel, upd};
ghost use Rattle.c_values.specs.CodeValue.{value_of};
ghost use Rattle.c_memory.specs.CodeStep.{step_of};
ghost use Rattle.c_values.specs.Layout.{IsLayout};
ghost use Rattle.c_values.specs.CodeFollow.{CanFollow};
ghost use Rattle.typed_heap.specs.CodeWays.{steps_of, many_steps, IsWay};
ghost use Rattle.typed_heap.specs.CodeTurned.{turned_back, replaced, LeadToOne};

use crate::ways::{Way, first_step};
use c_memory::{Step, part_by, place_of};
use c_values::{Layout, Value, Word};
use std::mem;

/// The part of an object's value at the end of a way. An index that is out of range leads to the first element.
pub(crate) fn select<'a>(l: &Layout, value: &'a Value, way: Way) -> &'a Value
    requires layout { IsLayout l.now }
    requires object { IsWay l.now way }
    requires follows { IsSomeAnd (steps_of l.now way) (CanFollow (value_of value.now)) }
    ensures { IfSome (steps_of l.now way.entry)
        (λ steps. value_of result.now ≡ sel (value_of value.now) steps) }
{
    let mut part = value;
    let mut way = way;
    'steps: while let Some((step, rest)) = first_step(l, way) {
        part = part_by(part, step);
        way = rest;
    }
    part
}

/// Replaces the part at the end of a way. An index that is out of range leads to no part. A text may nest values of one
/// part deeply, so loops go through those: the recursion is as deep as other values nest.
#[cycle(replace)]
pub(crate) fn replace<'a>(l: &'a Layout, whole: &mut Value, way: Way<'a>, value: Value)
    requires layout { IsLayout l.now }
    requires object { IsWay l.now way }
    requires some { IsSome (steps_of l.now way) }
    ensures { IfSome (steps_of l.now way.entry)
        (λ steps. value_of whole.new ≡ upd (value_of whole.old) steps (value_of value)) }
{
    let mut outer = Value::Truth(false);
    let way = take_out(l, whole, way, &mut outer);
    replace_there(l, whole, way, value);
    put_back(whole, outer);
}

// The same where the way doesn't lead to the one part of a value.
#[cycle(replace)]
fn replace_there<'a>(l: &'a Layout, whole: &mut Value, way: Way<'a>, value: Value)
    requires layout { IsLayout l.now }
    requires object { IsWay l.now way }
    requires some { IsSome (steps_of l.now way) }
    ensures { IfSome (steps_of l.now way.entry)
        (λ steps. value_of whole.new ≡ upd (value_of whole.old) steps (value_of value)) }
{
    match first_step(l, way) {
        None => *whole = value,
        Some((step, rest)) => replace_in(l, whole, step, rest, value),
    }
}

// The same, from a first step on.
#[cycle(replace)]
fn replace_in<'a>(l: &'a Layout, whole: &mut Value, step: Step, rest: Way<'a>, value: Value)
    requires layout { IsLayout l.now }
    requires object { IsWay l.now rest }
    requires some { IsSome (steps_of l.now rest) }
    ensures { IfSome (steps_of l.now rest.entry) (λ steps. value_of whole.new
        ≡ upd (value_of whole.old) (step_of step ∷ steps) (value_of value)) }
{
    if let Value::Parts(parts) = whole {
        if let Some(k) = place_of(step, parts.len()) {
            replace(l, &mut parts[k], rest, value);
        }
    }
}

// Takes a value out of those in which it is the one part, along a way, and turns those inside out around another value.
// The result is the way from there.
fn take_out<'a>(l: &'a Layout, whole: &mut Value, way: Way<'a>, outer: &mut Value) -> Way<'a>
    requires layout { IsLayout l.now }
    requires object { IsWay l.now way }
    requires some { IsSome (steps_of l.now way) }
    ensures object { IsWay l.now result }
    ensures some { IsSome (steps_of l.now result) }
    ensures shorter { many_steps (steps_of l.now result) ≤ many_steps (steps_of l.now way.entry) }
    ensures whole { (w : values.Value) →
        turned_back (value_of outer.new)
        (replaced (value_of whole.new) (steps_of l.now result) w)
        ≡ turned_back (value_of outer.old)
        (replaced (value_of whole.old) (steps_of l.now way.entry) w) }
{
    let mut way = way;
    'inwards: while let Some(rest) = move_along(l, way, whole, outer) {
        way = rest;
    }
    way
}

// Moves a value around its one part, to which the first step of a way leads, to around another value. The result is the
// way from there.
fn move_along<'a>(
    l: &'a Layout,
    way: Way<'a>,
    whole: &mut Value,
    other: &mut Value,
) -> Option<Way<'a>>
    requires layout { IsLayout l.now }
    requires object { IsWay l.now way }
    ensures object { IfSome result (λ rest. IsWay l.now rest) }
    ensures way { IfSome result
        (λ rest. LeadToOne (steps_of l.now way.entry) (steps_of l.now rest)) }
    ensures whole { MatchOption result (whole.new ≡ whole.old)
        (λ _. value_of whole.old ≡ lone (value_of whole.new)) }
    ensures other { MatchOption result (other.new ≡ other.old)
        (λ _. value_of other.new ≡ lone (value_of other.old)) }
{
    let Some((step, rest)) = first_step(l, way) else {
        return None;
    };
    if place_of(step, 1).is_some() && move_around(whole, other) {
        Some(rest)
    } else {
        None
    }
}

// Puts a value back into those from which it was taken.
fn put_back(whole: &mut Value, outer: Value)
    ensures { value_of whole.new ≡ turned_back (value_of outer) (value_of whole.old) }
{
    let mut outer = outer;
    'outwards: while move_around(&mut outer, whole) {}
}

// Takes the outermost value from around its one part, and puts it around another value.
fn move_around(whole: &mut Value, other: &mut Value) -> bool
    ensures whole { MatchBool result (value_of whole.old ≡ lone (value_of whole.new))
        (whole.new ≡ whole.old) }
    ensures other { MatchBool result (value_of other.new ≡ lone (value_of other.old))
        (other.new ≡ other.old) }
    ensures none { OnFalse result ((v : values.Value) → value_of whole.old ≢ lone v) }
{
    if !swap_one_part(whole, other) {
        return false;
    }
    mem::swap(whole, other);
    true
}

// Swaps the one part of a value for another value.
fn swap_one_part(whole: &mut Value, other: &mut Value) -> bool
    ensures part { MatchBool result (value_of whole.old ≡ lone (value_of other.new))
        (other.new ≡ other.old) }
    ensures whole { MatchBool result (value_of whole.new ≡ lone (value_of other.old))
        (whole.new ≡ whole.old) }
    ensures none { OnFalse result ((v : values.Value) → value_of whole.old ≢ lone v) }
{
    let Value::Parts(parts) = whole else {
        return false;
    };
    if parts.len() != 1 {
        return false;
    }
    mem::swap(&mut parts[0], other);
    true
}

/// The word that a value is.
pub(crate) fn word_in(value: &Value) -> Word
    ensures { result ≡ word_in (value_of value.now) }
{
    match value {
        Value::Word(word) => *word,
        Value::Number(_) | Value::Truth(_) | Value::Parts(_) => Word::new(8, 0),
    }
}
