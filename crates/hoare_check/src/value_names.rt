//! The names of a program's values, as they come from their place.

ghost use Rattle.std.specs.Prelude.{◌≡◌, ◌≢◌, [], ◌∷◌, map, length, IfSome, IfNone};
ghost use Rattle.c_values.specs.Name.{is_among};
ghost use Rattle.expression_lang.specs.CodeExpression.{exp_of};
ghost use Rattle.monad_lang.specs.CodeProgram.{final_fn_of};
ghost use Rattle.exactness.specs.Triple.{result_names};
ghost use Rattle.hoare_check.specs.DeriveTable.{are_free_for, variables};
ghost use Rattle.assertion_walks.specs.Put.{exp_for};
ghost use Rattle.hoare_check.specs.CodeResults.{names_of};

use assertion_walks::{Value, Values};
use expression_lang::{Binder, Exp, IsName};
use monad_lang::{FinalFn, Start};
use triple_lang::Logical;

/// The names of a program's values, or those that stand for values in a triple.
#[derive(Clone, Copy)]
pub(crate) enum Results<'a> {
    Names(&'a [String]),
    /// Those of a loop.
    Starts(&'a [Start]),
    /// Those of a function's parameters.
    Parameters(&'a [Binder]),
    /// Those of a triple's logical variables.
    Logicals(&'a [Logical]),
    /// That of a function's result.
    Result,
    /// The program gives no values.
    None,
}

impl<'a> Results<'a> {
    /// The first, and those behind it.
    pub fn next(self) -> Option<(&'a str, Results<'a>)>
        ensures some { IfSome result (λ (first, rest). names_of self.entry
            ≡ first.now ∷ names_of rest) }
        ensures none { IfNone result (names_of self.entry ≡ []) }
    {
        match self {
            Results::Names(names) => match names.split_first() {
                Some((first, rest)) => Some((first.as_str(), Results::Names(rest))),
                None => None,
            },
            Results::Starts(starts) => match starts.split_first() {
                Some((first, rest)) => Some((first.name.as_str(), Results::Starts(rest))),
                None => None,
            },
            Results::Parameters(binders) => match binders.split_first() {
                Some((first, rest)) => Some((first.name.as_str(), Results::Parameters(rest))),
                None => None,
            },
            Results::Logicals(logicals) => match logicals.split_first() {
                Some((first, rest)) => Some((first.name.as_str(), Results::Logicals(rest))),
                None => None,
            },
            Results::Result => Some(("result", Results::None)),
            Results::None => None,
        }
    }

    /// The only one.
    pub fn only(self) -> Option<&'a str>
        ensures some { IfSome result (λ name. names_of self.entry ≡ name.now ∷ []) }
        ensures none { IfNone result (length (names_of self.entry) ≢ 1) }
    {
        let (first, rest) = self.next()?;
        match rest.next() {
            Some((_second, _others)) => None,
            None => Some(first),
        }
    }

    /// Whether the name is one of them.
    pub fn has(self, name: &str) -> bool
        ensures { result ≡ is_among name.now (names_of self.entry) }
    {
        let mut rest = self;
        'along: while let Some((own, others)) = rest.next() {
            if name == own {
                return true;
            }
            rest = others;
        }
        false
    }
}

/// The name of a function's result, where it has one.
pub(crate) fn result_of<'a>(function: &FinalFn) -> Results<'a>
    ensures { names_of result ≡ result_names (final_fn_of function.now).results }
{
    if function.results.is_empty() {
        Results::None
    } else {
        Results::Result
    }
}

/// Whether no name is in the assertion, but those of the results.
pub(crate) fn are_free_for(names: Results<'_>, results: Results<'_>, e: &Exp) -> bool
    ensures { result
        ≡ are_free_for (names_of names.entry) (names_of results.entry) (exp_of e.now) }
{
    let mut rest = names;
    'along: while let Some((name, others)) = rest.next() {
        if !results.has(name) && e.any(&IsName { name }) {
            return false;
        }
        rest = others;
    }
    true
}

/// Each expression for the name at the same place.
#[derive(Clone, Copy)]
pub(crate) struct ResultValues<'a> {
    pub(crate) results: Results<'a>,
    pub(crate) exps: &'a [Exp],
}

impl Values for ResultValues<'_> {
    ghost value_of = { λ it x. exp_for (names_of it.results) (map exp_of it.exps.now) x };

    fn value(&self, name: &str) -> Option<Value<'_>> {
        let mut names = self.results;
        let mut exps = self.exps;
        'along: loop {
            let Some((first, other_names)) = names.next() else {
                return None;
            };
            let Some((exp, other_exps)) = exps.split_first() else {
                return None;
            };
            if first == name {
                return Some(Value::Exp(exp));
            }
            names = other_names;
            exps = other_exps;
        }
    }
}

/// The variable of each other name for the name at the same place.
#[derive(Clone, Copy)]
pub(crate) struct ResultVariables<'a> {
    pub(crate) results: Results<'a>,
    pub(crate) others: Results<'a>,
}

impl Values for ResultVariables<'_> {
    ghost value_of = { λ it x. exp_for (names_of it.results) (variables (names_of it.others)) x };

    fn value(&self, name: &str) -> Option<Value<'_>> {
        let mut names = self.results;
        let mut variables = self.others;
        'along: loop {
            let Some((first, other_names)) = names.next() else {
                return None;
            };
            let Some((variable, other_variables)) = variables.next() else {
                return None;
            };
            if first == name {
                return Some(Value::Name(variable));
            }
            names = other_names;
            variables = other_variables;
        }
    }
}
