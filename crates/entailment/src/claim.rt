//! What is to be shown.

use c_values::Number;
use expression_lang::Exp;

/// An assertion that is to be shown: an expression, or one that isn't built.
#[derive(Clone, Copy)]
pub enum Claim<'a> {
    /// The expression itself.
    Whole(&'a Exp),
    /// That the number is at least the second.
    AtLeast(&'a Exp, Number),
    /// That the number is at most the second.
    AtMost(&'a Exp, Number),
    /// That both are equal.
    Equal(&'a Exp, &'a Exp),
    /// That nothing holds.
    Nothing,
}
