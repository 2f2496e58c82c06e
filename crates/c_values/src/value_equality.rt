//! Values that are compared. A value may be as deep as a type, so this goes down along the last parts by a loop.

ghost use Rattle.std.specs.Prelude.{◌≡◌, ℕ};
ghost use Rattle.std.specs.Ordering.{int_eq};
ghost use Rattle.c_values.specs.Value.{same_truth, same_value, same_values};
ghost use Rattle.c_values.specs.CodeValue.{value_of};
ghost use Rattle.c_values.specs.CodeParts.{values_in, rank, ranks};
ghost use Rattle.c_values.specs.CodeComparison.{verdict, IsSmaller};

use crate::numbers::Number;
use crate::values::Value;

impl PartialEq for Value {
    ghost use Rattle.std.specs.Ordering.{on};
    ghost use Rattle.std.specs.Cmp.{partial_equiv_from_equiv};
    ghost use Rattle.std.proofs.lemmas.Cmp.{on_equiv};
    ghost use Rattle.c_values.specs.Value.{same_value};
    ghost use Rattle.c_values.specs.CodeValue.{value_of};
    ghost use Rattle.c_values.specs.CodeSameValue.{same_value-equiv};

    ghost eq = { on value_of same_value };

    ghost laws = { partial_equiv_from_equiv (on_equiv value_of same_value-equiv) };

    fn eq(&self, other: &Value) -> bool {
        same_value(self, other)
    }
}

impl Eq for Value {
    ghost use Rattle.std.proofs.lemmas.Cmp.{on_equiv};
    ghost use Rattle.c_values.specs.CodeValue.{value_of};
    ghost use Rattle.c_values.specs.CodeSameValue.{same_value-equiv};

    ghost laws = { on_equiv value_of same_value-equiv };
}

// What a comparison of two values comes to.
enum Comparison<'a> {
    Same,
    Differ,
    // As that of their last parts.
    AsLast(&'a Value, &'a Value),
}

#[cycle(same)]
fn same_value(a: &Value, b: &Value) -> bool
    ensures { result ≡ same_value (value_of a.now) (value_of b.now) }
{
    let mut left = a;
    let mut right = b;
    'last: loop {
        match compared(left, right) {
            Comparison::Same => return true,
            Comparison::Differ => return false,
            Comparison::AsLast(x, y) => {
                left = x;
                right = y;
            }
        }
    }
}

#[cycle(same)]
fn compared<'a>(a: &'a Value, b: &'a Value) -> Comparison<'a>
    ensures verdict { verdict result ≡ same_value (value_of a.now) (value_of b.now) }
    ensures smaller { IsSmaller (rank (value_of a.now)) result }
{
    match a {
        Value::Word(word) => match b {
            Value::Word(other) => {
                decided(word.width() == other.width() && word.bits() == other.bits())
            }
            Value::Number(_) | Value::Truth(_) | Value::Parts(_) => Comparison::Differ,
        },
        Value::Number(number) => match b {
            Value::Number(other) => decided(same_number(*number, *other)),
            Value::Word(_) | Value::Truth(_) | Value::Parts(_) => Comparison::Differ,
        },
        Value::Truth(truth) => match b {
            Value::Truth(other) => decided(same_truth(*truth, *other)),
            Value::Word(_) | Value::Number(_) | Value::Parts(_) => Comparison::Differ,
        },
        Value::Parts(parts) => match b {
            Value::Parts(others) => compared_parts(parts, others),
            Value::Word(_) | Value::Number(_) | Value::Truth(_) => Comparison::Differ,
        },
    }
}

// The comparison of lists of parts.
#[cycle(same)]
fn compared_parts<'a>(xs: &'a [Value], ys: &'a [Value]) -> Comparison<'a>
    ensures verdict { verdict result ≡ same_values (values_in xs.now) (values_in ys.now) }
    ensures smaller { IsSmaller (ranks (values_in xs.now)) result }
{
    if xs.len() != ys.len() {
        return Comparison::Differ;
    }
    if xs.is_empty() {
        return Comparison::Same;
    }
    let last = xs.len() - 1;
    'front: for k in 0..last {
        if !same_value(&xs[k], &ys[k]) {
            return Comparison::Differ;
        }
    }
    Comparison::AsLast(&xs[last], &ys[last])
}

fn decided<'a>(same: bool) -> Comparison<'a>
    ensures verdict { verdict result ≡ same }
    ensures smaller { (n : ℕ) → IsSmaller n result }
{
    if same {
        Comparison::Same
    } else {
        Comparison::Differ
    }
}

/// Whether two numbers are equal.
pub fn same_number(a: Number, b: Number) -> bool
    ensures { result ≡ int_eq a b }
{
    a.negative() == b.negative() && a.magnitude() == b.magnitude()
}

/// Whether two truth values are equal.
pub fn same_truth(a: bool, b: bool) -> bool
    ensures { result ≡ same_truth a b }
{
    if a { b } else { !b }
}
