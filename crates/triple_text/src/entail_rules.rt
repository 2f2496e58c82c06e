//! Rules of assertions that are read alike.
ghost use Rattle.std.specs.Prelude.{◌≡◌};
ghost use Rattle.expression_lang.specs.CodeExpression.{exp_of};
ghost use Rattle.triple_lang.specs.CodeEntail.{over, over_both};
ghost use Rattle.triple_lang.specs.CodeEntail as entails;
ghost use Rattle.triple_text.specs.CodeEntailRows.{one_rule, two_rule, split_rule};

use expression_lang::Exp;
use triple_lang::Entail;

/// A rule of one part.
#[derive(Clone, Copy)]
pub(crate) enum OneRule {
    Imp,
    Or,
    Not,
    Absurd,
}

impl OneRule {
    pub(crate) fn over(self, part: Box<Entail>) -> Entail
        ensures { entails.tree_of result ≡ over (one_rule self) (entails.tree_of part.value) }
    {
        match self {
            OneRule::Imp => Entail::Imp(part),
            OneRule::Or => Entail::Or(part),
            OneRule::Not => Entail::Not(part),
            OneRule::Absurd => Entail::Absurd(part),
        }
    }
}

/// A rule of two parts.
#[derive(Clone, Copy)]
pub(crate) enum TwoRule {
    And,
    Between,
}

impl TwoRule {
    pub(crate) fn over(self, first: Box<Entail>, last: Box<Entail>) -> Entail
        ensures { entails.tree_of result ≡ over_both (two_rule self)
            (entails.tree_of first.value) (entails.tree_of last.value) }
    {
        match self {
            TwoRule::And => Entail::And(first, last),
            TwoRule::Between => Entail::Between(first, last),
        }
    }
}

/// A rule of two parts that an assertion stands before.
#[derive(Clone, Copy)]
pub(crate) enum SplitRule {
    Case,
    Cut,
}

impl SplitRule {
    pub(crate) fn over(self, exp: Box<Exp>, first: Box<Entail>, last: Box<Entail>) -> Entail
        ensures { entails.tree_of result ≡ over_both (split_rule self (exp_of exp.value))
            (entails.tree_of first.value) (entails.tree_of last.value) }
    {
        match self {
            SplitRule::Case => Entail::Case(exp, first, last),
            SplitRule::Cut => Entail::Cut(exp, first, last),
        }
    }
}
