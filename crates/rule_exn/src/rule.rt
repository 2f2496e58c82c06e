//! The rules that take exceptions out of commands, by name.

ghost use Rattle.std.specs.Prelude.{◌≡◌};
ghost use Rattle.rule_exn.specs.CodeRow.{arity, parts_of};
ghost use Rattle.rule_exn.specs.CodeRule.{rule_of};

/// A rule. What it asks of two commands is defined in `specs/Table`.
#[derive(Clone, Copy, Debug, PartialEq, Eq)]
pub enum Rule {
    Skip,
    Set,
    Pick,
    Call,
    Throw,
    SeqPlain,
    SeqTest,
    Cond,
    Guard,
    WhilePlain,
    WhileTest,
    CatchPlain,
    CatchTest,
    CatchSkip,
}

/// How many parts a rule leaves to check.
#[derive(Clone, Copy)]
pub(crate) enum Parts {
    None,
    One,
    Two,
}

impl Rule {
    pub(crate) fn parts(self) -> Parts
        ensures { parts_of result ≡ arity (rule_of self) }
    {
        match self {
            Rule::Skip | Rule::Set | Rule::Pick | Rule::Call | Rule::Throw => Parts::None,
            Rule::Guard | Rule::WhilePlain | Rule::WhileTest | Rule::CatchPlain | Rule::CatchSkip =>
                Parts::One,
            Rule::SeqPlain | Rule::SeqTest | Rule::Cond | Rule::CatchTest => Parts::Two,
        }
    }
}
