//! Whole numbers of a magnitude below 2^128, and their operations.

ghost use Rattle.std.specs.Prelude.{◌≡◌, ◌^◌, ◌<◌, ◌≤◌, ◌↔◌, true, ◌+ℤ◌, ◌*ℤ◌, IsNone, IfSome, pos, neg_ℤ, int_lt, unsigned_abs, if◌then◌else◌};
ghost use Rattle.c_values.specs.Number.{number_op, quotient, remainder};
ghost use Rattle.c_values.specs.CodeNumber.{number_op_of};

use std::marker::Model;

/// A whole number of a magnitude below 2^128. Contracts see it as the number; zero isn't negative.
#[derive(Clone, Copy, Debug, PartialEq, Eq)]
pub struct Number {
    negative: bool,
    magnitude: u128,
}

impl Model for Number {
    ghost use Rattle.std.specs.Prelude.{◌≡◌, ◌<◌, true, ℤ, pos, neg_ℤ, if◌then◌else◌};

    ghost Value = { ℤ };

    ghost use Rattle.c_values.specs.CodeSignAndMagnitude.{inside_of, inside_of-number};

    ghost view = { λ n. if n.negative then neg_ℤ (pos n.magnitude) else pos n.magnitude };

    ghost invariant = { λ n. n.negative ≡ true → 0 < n.magnitude };

    ghost inverse = { inside_of };

    ghost inverse_ok = { inside_of-number };
}

impl Number {
    /// The number of this sign and magnitude.
    pub fn new(negative: bool, magnitude: u128) -> Number
        requires { negative ≡ true → 0 < magnitude }
        ensures { result ≡ (if negative then neg_ℤ (pos magnitude) else pos magnitude) }
    {
        Number {
            negative,
            magnitude,
        }
    }

    /// Whether it is below zero.
    pub fn negative(self) -> bool
        ensures { result ≡ int_lt self (pos 0) }
    {
        self.negative
    }

    /// The number without its sign.
    pub fn magnitude(self) -> u128
        ensures { result ≡ unsigned_abs self }
    {
        self.magnitude
    }

    // The number of this magnitude, negated where asked.
    pub(crate) fn of_magnitude(negative: bool, magnitude: u128) -> Number
        ensures { result ≡ (if negative then neg_ℤ (pos magnitude) else pos magnitude) }
    {
        Number {
            negative: negative && magnitude != 0,
            magnitude,
        }
    }
}

/// An operation on numbers. `Div` truncates toward zero, and by zero it is 0; `Mod` has the dividend's sign, and by zero
/// it is the dividend; `Neg` doesn't look at its second operand.
#[derive(Clone, Copy, Debug, PartialEq, Eq)]
pub enum NumberOp {
    Add,
    Sub,
    Mul,
    Div,
    Mod,
    Neg,
}

/// The exact result of an operation. There is none exactly where its magnitude is 2^128 or more.
pub fn number_op(op: NumberOp, a: Number, b: Number) -> Option<Number>
    ensures wide { IsNone result ↔ (2 ^ 128 ≤ unsigned_abs (number_op (number_op_of op) a b)) }
    ensures exact { IfSome result (λ n. n ≡ number_op (number_op_of op) a b) }
{
    match op {
        NumberOp::Add => sum(a, b),
        NumberOp::Sub => sum(a, negation(b)),
        NumberOp::Mul => product(a, b),
        NumberOp::Div => Some(quotient(a, b)),
        NumberOp::Mod => Some(remainder(a, b)),
        NumberOp::Neg => Some(negation(a)),
    }
}

fn sum(a: Number, b: Number) -> Option<Number>
    ensures wide { IsNone result ↔ (2 ^ 128 ≤ unsigned_abs (a +ℤ b)) }
    ensures exact { IfSome result (λ n. n ≡ a +ℤ b) }
{
    if a.negative == b.negative {
        let magnitude = a.magnitude.checked_add(b.magnitude)?;
        Some(Number::of_magnitude(a.negative, magnitude))
    } else if b.magnitude <= a.magnitude {
        Some(Number::of_magnitude(a.negative, a.magnitude - b.magnitude))
    } else {
        Some(Number::of_magnitude(b.negative, b.magnitude - a.magnitude))
    }
}

fn product(a: Number, b: Number) -> Option<Number>
    ensures wide { IsNone result ↔ (2 ^ 128 ≤ unsigned_abs (a *ℤ b)) }
    ensures exact { IfSome result (λ n. n ≡ a *ℤ b) }
{
    let magnitude = a.magnitude.checked_mul(b.magnitude)?;
    Some(Number::of_magnitude(a.negative != b.negative, magnitude))
}

fn quotient(a: Number, b: Number) -> Number
    ensures { result ≡ quotient a b }
{
    if b.magnitude == 0 {
        b
    } else {
        Number::of_magnitude(a.negative != b.negative, a.magnitude / b.magnitude)
    }
}

fn remainder(a: Number, b: Number) -> Number
    ensures { result ≡ remainder a b }
{
    if b.magnitude == 0 {
        a
    } else {
        Number::of_magnitude(a.negative, a.magnitude % b.magnitude)
    }
}

fn negation(a: Number) -> Number
    ensures { result ≡ neg_ℤ a }
{
    Number::of_magnitude(!a.negative, a.magnitude)
}
