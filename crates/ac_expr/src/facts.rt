//! Facts: what is known at a place of a program.

ghost use Rattle.std.specs.Prelude.{◌≡◌};
ghost use Rattle.expression_lang.specs.Mentions.{names, reads};
ghost use Rattle.ac_expr.specs.Fact.{stands_for};
ghost use Rattle.ac_expr.specs.CodeFacts.{fact_of};

use c_values::{CType, Number};
use expression_lang::{Exp, IsName, IsReading};

/// A fact stands for an expression, which isn't built.
#[derive(Drop)]
pub enum Fact<'a> {
    /// The expression itself.
    Whole(&'a Exp),
    /// That it doesn't hold.
    Not(&'a Exp),
    /// That the root is covered.
    Tagged(&'a CType, &'a Exp),
    /// That the number is from the first to the last.
    Between(Number, &'a Exp, Number),
    /// That the number is at least the second.
    AtLeast(&'a Exp, Number),
    /// That the number is at most the second.
    AtMost(&'a Exp, Number),
    /// That both are equal.
    Equal(&'a Exp, &'a Exp),
}

impl Fact<'_> {
    /// Whether it has the name.
    pub(crate) fn names(&self, name: &str) -> bool
        ensures { result ≡ names name.now (stands_for (fact_of self.now)) }
    {
        let test = IsName { name };
        match self {
            Fact::Whole(e) => e.any(&test),
            Fact::Not(e) => e.any(&test),
            Fact::Tagged(_, p) => p.any(&test),
            Fact::Between(_, x, _) => x.any(&test),
            Fact::AtLeast(x, _) => x.any(&test),
            Fact::AtMost(x, _) => x.any(&test),
            Fact::Equal(a, b) => a.any(&test) || b.any(&test),
        }
    }

    /// Whether it looks at the state.
    pub(crate) fn reads(&self) -> bool
        ensures { result ≡ reads (stands_for (fact_of self.now)) }
    {
        match self {
            Fact::Whole(e) => e.any(&IsReading),
            Fact::Not(e) => e.any(&IsReading),
            Fact::Tagged(_, p) => p.any(&IsReading),
            Fact::Between(_, x, _) => x.any(&IsReading),
            Fact::AtLeast(x, _) => x.any(&IsReading),
            Fact::AtMost(x, _) => x.any(&IsReading),
            Fact::Equal(a, b) => a.any(&IsReading) || b.any(&IsReading),
        }
    }
}
