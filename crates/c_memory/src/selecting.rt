//! Parts of values.

ghost use Rattle.std.specs.Prelude.{◌≡◌, [], ◌∷◌, map};
ghost use Rattle.c_values.specs.Path.{Index, place_of, sel, upd};
ghost use Rattle.c_values.specs.CodeValue.{value_of};
ghost use Rattle.c_memory.specs.CodeStep.{step_of};
ghost use Rattle.c_values.specs.CodeFollow.{CanFollow};

use crate::parts_of_values::parts_of;
use crate::steps::Step;
use c_values::{Number, Value};

/// The part of a value at the end of a path. An index that is out of range leads to the first element.
pub fn select<'a>(value: &'a Value, path: &[Step]) -> &'a Value
    requires { CanFollow (value_of value.now) (map step_of path.now) }
    ensures { value_of result.now ≡ sel (value_of value.now) (map step_of path.now) }
{
    let mut part = value;
    for step in path {
        part = part_by(part, *step);
    }
    part
}

/// The part to which one step leads.
pub fn part_by(whole: &Value, step: Step) -> &Value
    requires { CanFollow (value_of whole.now) (step_of step ∷ []) }
    ensures { value_of result.now ≡ sel (value_of whole.now) (step_of step ∷ []) }
{
    let parts = parts_of(whole).unwrap();
    let k = place_of(step, parts.len()).unwrap_or(0);
    &parts[k]
}

/// Replaces the part at the end of a path. An index that is out of range leads to no part.
#[cycle(replace)]
pub fn replace(whole: &mut Value, path: &[Step], value: Value)
    ensures { value_of whole.new ≡ upd (value_of whole.old) (map step_of path.now)
        (value_of value) }
{
    match path.split_first() {
        None => *whole = value,
        Some((step, rest)) => replace_in(whole, *step, rest, value),
    }
}

// The same, from a first step on.
#[cycle(replace)]
fn replace_in(whole: &mut Value, step: Step, rest: &[Step], value: Value)
    ensures { value_of whole.new
        ≡ upd (value_of whole.old) (step_of step ∷ map step_of rest.now) (value_of value) }
{
    if let Value::Parts(parts) = whole {
        if let Some(k) = place_of(step, parts.len()) {
            replace(&mut parts[k], rest, value);
        }
    }
}

/// The place of a step among parts, where it is one.
pub fn place_of(step: Step, parts: usize) -> Option<usize>
    ensures { result ≡ place_of (step_of step) parts }
{
    match step {
        Step::Field(k) => {
            let k = k as usize;
            if k < parts { Some(k) } else { None }
        }
        Step::Index(index) => element_of(index, parts),
    }
}

fn element_of(index: Number, parts: usize) -> Option<usize>
    ensures { result ≡ place_of (Index index) parts }
{
    if index.negative() || index.magnitude() >= parts as u128 {
        None
    } else {
        Some(index.magnitude() as usize)
    }
}
