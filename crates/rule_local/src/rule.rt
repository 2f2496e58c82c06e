//! The rules that lift locals, by name, and the function that they are taken in.

ghost use Rattle.std.specs.Prelude.{◌≡◌};
ghost use Rattle.rule_local.specs.CodeRow.{arity, parts_of};
ghost use Rattle.rule_local.specs.CodeRule.{rule_of};

use expression_lang::Binder;

/// A rule. What it asks of a command and a program is defined in `specs/Table`.
#[derive(Clone, Copy, Debug, PartialEq, Eq)]
pub enum Rule {
    Skip,
    Set,
    Dead,
    Global,
    Memory,
    Pick,
    Seq,
    Cond,
    Guard,
    While,
    Call,
    Void,
    Start,
}

/// The function: its locals with their kinds, and which of them are its parameters.
#[derive(Clone, Copy)]
pub struct Context<'a> {
    pub locals: &'a [Binder],
    pub parameters: &'a [Binder],
}

/// How many parts a rule leaves to check.
#[derive(Clone, Copy)]
pub(crate) enum Parts {
    None,
    One,
    Two,
}

/// What is asked of the nodes of a tree.
#[derive(Clone, Copy)]
pub(crate) enum Asks {
    /// All that the table asks.
    All,
    /// The same, but for the names that a part hands on, and for those that are free.
    Forms,
}

impl Rule {
    pub(crate) fn parts(self) -> Parts
        ensures { parts_of result ≡ arity (rule_of self) }
    {
        match self {
            Rule::Guard | Rule::While | Rule::Start => Parts::One,
            Rule::Seq | Rule::Cond => Parts::Two,
            _ => Parts::None,
        }
    }
}
