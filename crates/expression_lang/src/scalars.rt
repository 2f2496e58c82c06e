//! Words, numbers and truth values in values.

ghost use Rattle.std.specs.Prelude.{◌≡◌, false, neg_ℤ, int_lt, int_le};
ghost use Rattle.c_values.specs.Number.{is_between};
ghost use Rattle.c_values.specs.Value.{word_in, number_in, truth_in};
ghost use Rattle.c_values.specs.CodeValue.{value_of};

use c_values::{Number, Value, Word};

/// The word that a value is, or one of zeros.
pub(crate) fn word_in(value: &Value) -> Word
    ensures { result ≡ word_in (value_of value.now) }
{
    match value {
        Value::Word(word) => *word,
        Value::Number(_) | Value::Truth(_) | Value::Parts(_) => Word::new(8, 0),
    }
}

/// The number that a value is, or 0.
pub(crate) fn number_in(value: &Value) -> Number
    ensures { result ≡ number_in (value_of value.now) }
{
    match value {
        Value::Number(number) => *number,
        Value::Word(_) | Value::Truth(_) | Value::Parts(_) => Number::new(false, 0),
    }
}

/// The truth value that a value is, or false.
pub(crate) fn truth_in(value: &Value) -> bool
    ensures { result ≡ truth_in (value_of value.now) }
{
    match value {
        Value::Truth(truth) => *truth,
        Value::Word(_) | Value::Number(_) | Value::Parts(_) => false,
    }
}

/// Whether a number is less than another.
pub(crate) fn is_less(a: Number, b: Number) -> bool
    ensures { result ≡ int_lt a b }
{
    if a.negative() {
        !b.negative() || b.magnitude() < a.magnitude()
    } else {
        !b.negative() && a.magnitude() < b.magnitude()
    }
}

/// Whether a number is at most another.
pub(crate) fn is_at_most(a: Number, b: Number) -> bool
    ensures { result ≡ int_le a b }
{
    if a.negative() {
        !b.negative() || b.magnitude() <= a.magnitude()
    } else {
        !b.negative() && a.magnitude() <= b.magnitude()
    }
}

/// Whether a number lies between two others, both included.
pub(crate) fn is_between(low: Number, n: Number, high: Number) -> bool
    ensures { result ≡ is_between low n high }
{
    is_at_most(low, n) && is_at_most(n, high)
}

/// The number with the other sign.
pub(crate) fn negated(n: Number) -> Number
    ensures { result ≡ neg_ℤ n }
{
    Number::new(!n.negative() && n.magnitude() > 0, n.magnitude())
}
