//! Names among the locals, and tests of names.

ghost use Rattle.std.specs.Prelude.{◌≡◌, map};
ghost use Rattle.simpl_lang.specs.CodeCommand.{condition_of};
ghost use Rattle.simpl_lang.specs.Names.{conditions_name};

use expression_lang::{Exp, IsName, Path};
use monad_lang::{NameTest, is_among, is_in, is_in_some};
use simpl_lang::Condition;

/// No name.
#[derive(Clone, Copy)]
pub(crate) struct IsNone;

impl NameTest for IsNone {
    ghost use Rattle.local_lift.specs.Live.{none};

    ghost holds = { λ _ y. none y };

    fn holds(&self, _name: &str) -> bool {
        false
    }
}

/// This name.
#[derive(Clone, Copy)]
pub(crate) struct IsThis<'a> {
    pub(crate) name: &'a str,
}

impl NameTest for IsThis<'_> {
    ghost use Rattle.c_values.specs.Name.{same_name};

    ghost holds = { λ test y. same_name test.name.now y };

    fn holds(&self, name: &str) -> bool {
        self.name == name
    }
}

/// A name that is this one, as a set's.
#[derive(Clone, Copy)]
pub(crate) struct IsSet<'a> {
    pub(crate) name: &'a str,
}

impl NameTest for IsSet<'_> {
    ghost use Rattle.c_values.specs.Name.{same_name};

    ghost holds = { λ test y. same_name y test.name.now };

    fn holds(&self, name: &str) -> bool {
        name == self.name
    }
}

/// One of these names.
#[derive(Clone, Copy)]
pub(crate) struct IsOutput<'a> {
    pub(crate) outputs: &'a [String],
}

impl NameTest for IsOutput<'_> {
    ghost use Rattle.std.specs.Prelude.{map, string_bytes};
    ghost use Rattle.local_lift.specs.LiftedByLive.{among};

    ghost holds = { λ test y. among (map string_bytes test.outputs.now) y };

    fn holds(&self, name: &str) -> bool {
        is_among(name, self.outputs)
    }
}

/// A name of an expression.
#[derive(Clone, Copy)]
pub(crate) struct IsNamed<'a> {
    pub(crate) exp: &'a Exp,
}

impl NameTest for IsNamed<'_> {
    ghost use Rattle.expression_lang.specs.CodeExpression.{exp_of};
    ghost use Rattle.expression_lang.specs.Mentions.{names};

    ghost holds = { λ test y. names y (exp_of test.exp.now) };

    fn holds(&self, name: &str) -> bool {
        is_in(name, self.exp)
    }
}

/// A name of a path or of an expression.
#[derive(Clone, Copy)]
pub(crate) struct IsNamedByWrite<'a> {
    pub(crate) path: &'a Path,
    pub(crate) value: &'a Exp,
}

impl NameTest for IsNamedByWrite<'_> {
    ghost use Rattle.std.specs.Prelude.{◌||◌};
    ghost use Rattle.expression_lang.specs.CodeExpression.{exp_of, path_of};
    ghost use Rattle.expression_lang.specs.Mentions.{names};
    ghost use Rattle.simpl_lang.specs.Names.{path_names};

    ghost holds = { λ test y.
        path_names y (path_of test.path.now) || names y (exp_of test.value.now) };

    fn holds(&self, name: &str) -> bool {
        self.path.any(&IsName { name }) || is_in(name, self.value)
    }
}

/// A name of a pointer, of a path or of an expression.
#[derive(Clone, Copy)]
pub(crate) struct IsNamedByStore<'a> {
    pub(crate) pointer: &'a Exp,
    pub(crate) path: &'a Path,
    pub(crate) value: &'a Exp,
}

impl NameTest for IsNamedByStore<'_> {
    ghost use Rattle.std.specs.Prelude.{◌||◌};
    ghost use Rattle.expression_lang.specs.CodeExpression.{exp_of, path_of};
    ghost use Rattle.expression_lang.specs.Mentions.{names};
    ghost use Rattle.simpl_lang.specs.Names.{path_names};

    ghost holds = { λ test y.
        names y (exp_of test.pointer.now) || path_names y (path_of test.path.now)
        || names y (exp_of test.value.now) };

    fn holds(&self, name: &str) -> bool {
        is_in(name, self.pointer) || self.path.any(&IsName { name }) || is_in(name, self.value)
    }
}

/// A name of an argument.
#[derive(Clone, Copy)]
pub(crate) struct IsNamedByArguments<'a> {
    pub(crate) arguments: &'a [Exp],
}

impl NameTest for IsNamedByArguments<'_> {
    ghost use Rattle.std.specs.Prelude.{map};
    ghost use Rattle.expression_lang.specs.CodeExpression.{exp_of};
    ghost use Rattle.monad_lang.specs.Names.{is_in_some};

    ghost holds = { λ test y. is_in_some y (map exp_of test.arguments.now) };

    fn holds(&self, name: &str) -> bool {
        is_in_some(name, self.arguments)
    }
}

// Whether one of the conditions has the name.
fn is_in_conditions(name: &str, conditions: &[Condition]) -> bool
    ensures { result ≡ conditions_name name.now (map condition_of conditions.now) }
{
    let mut rest = conditions;
    'along: while let Some((first, others)) = rest.split_first() {
        if is_in(name, &first.exp) {
            return true;
        }
        rest = others;
    }
    false
}

/// A name of a loop's conditions or of its test.
#[derive(Clone, Copy)]
pub(crate) struct IsNamedByTurn<'a> {
    pub(crate) conditions: &'a [Condition],
    pub(crate) test: &'a Exp,
}

impl NameTest for IsNamedByTurn<'_> {
    ghost use Rattle.std.specs.Prelude.{◌||◌, map};
    ghost use Rattle.expression_lang.specs.CodeExpression.{exp_of};
    ghost use Rattle.expression_lang.specs.Mentions.{names};
    ghost use Rattle.simpl_lang.specs.CodeCommand.{condition_of};
    ghost use Rattle.rule_local.specs.Table.{conj};

    ghost holds = { λ turn y.
        names y (conj (map condition_of turn.conditions.now)) || names y (exp_of turn.test.now) };

    #[tactic(auto, using(crate::proofs::ConjNames::conj_names))]
    fn holds(&self, name: &str) -> bool {
        is_in_conditions(name, self.conditions) || is_in(name, self.test)
    }
}
