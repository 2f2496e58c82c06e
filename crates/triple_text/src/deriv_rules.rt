//! Rules of programs that are read alike.
ghost use Rattle.std.specs.Prelude.{◌≡◌};
ghost use Rattle.expression_lang.specs.CodeExpression.{exp_of};
ghost use Rattle.rule_trees.specs.RuleTree.{node, tree, no_trees};
ghost use Rattle.triple_lang.specs.CodeDeriv as derivs;
ghost use Rattle.triple_text.specs.CodeDerivRows.{given_rule};

use expression_lang::Exp;
use triple_lang::{Deriv, Entail};

/// A rule of an assertion and a derivation of it.
#[derive(Clone, Copy)]
pub(crate) enum GivenRule {
    Ret,
    Write,
    Gset,
}

impl GivenRule {
    pub(crate) fn over(self, exp: Box<Exp>, shown: Box<Entail>) -> Deriv
        ensures { derivs.tree_of result ≡ node (given_rule self (exp_of exp.value))
            (tree (derivs.shows shown.value) no_trees) }
    {
        match self {
            GivenRule::Ret => Deriv::Ret(exp, shown),
            GivenRule::Write => Deriv::Write(exp, shown),
            GivenRule::Gset => Deriv::Gset(exp, shown),
        }
    }
}
