//! Tables of values that are to stand in place of names.

ghost use Rattle.std.specs.Prelude.{◌≡◌, Option, map, string_bytes};
ghost use Rattle.std.specs.Option.{option_map};
ghost use Rattle.c_values.specs.Name.{Name};
ghost use Rattle.expression_lang.specs.Expression as plain;
ghost use Rattle.expression_lang.specs.CodeExpression.{exp_of};
ghost use Rattle.monad_lang.specs.Run.{start_names};
ghost use Rattle.monad_lang.specs.CodeProgram.{start_of};
ghost use Rattle.rule_parts.specs.Starts.{start_exps};
ghost use Rattle.assertion_walks.specs.Put.{exp_for};
ghost use Rattle.assertion_walks.specs.CodePut.{value_in, variables, or_else};

use crate::putting::{Value, Values};
use expression_lang::Exp;
use monad_lang::Start;

/// Each expression for the name at the same place.
#[derive(Clone, Copy)]
pub struct ValuesFor<'a> {
    pub names: &'a [String],
    pub exps: &'a [Exp],
}

impl Values for ValuesFor<'_> {
    ghost value_of = { λ it x. exp_for (map string_bytes it.names.now) (map exp_of it.exps.now) x };

    fn value(&self, name: &str) -> Option<Value<'_>> {
        let mut names = self.names;
        let mut exps = self.exps;
        'along: loop {
            let Some((first, other_names)) = names.split_first() else {
                return None;
            };
            let Some((exp, other_exps)) = exps.split_first() else {
                return None;
            };
            if first.as_str() == name {
                return Some(Value::Exp(exp));
            }
            names = other_names;
            exps = other_exps;
        }
    }
}

/// The variable of each name that a loop begins with, for the name at the same place.
#[derive(Clone, Copy)]
pub struct NamesFor<'a> {
    pub names: &'a [String],
    pub starts: &'a [Start],
}

impl Values for NamesFor<'_> {
    ghost value_of = { λ it x. exp_for (map string_bytes it.names.now)
        (variables (start_names (map start_of it.starts.now))) x };

    fn value(&self, name: &str) -> Option<Value<'_>> {
        let mut names = self.names;
        let mut starts = self.starts;
        'along: loop {
            let Some((first, other_names)) = names.split_first() else {
                return None;
            };
            let Some((start, other_starts)) = starts.split_first() else {
                return None;
            };
            if first.as_str() == name {
                return Some(Value::Name(start.name.as_str()));
            }
            names = other_names;
            starts = other_starts;
        }
    }
}

/// What a loop begins with, for its names.
#[derive(Clone, Copy)]
pub struct StartsFor<'a> {
    pub starts: &'a [Start],
}

impl Values for StartsFor<'_> {
    ghost value_of = { λ it x. exp_for (start_names (map start_of it.starts.now))
        (start_exps (map start_of it.starts.now)) x };

    fn value(&self, name: &str) -> Option<Value<'_>> {
        let mut starts = self.starts;
        'along: while let Some((start, others)) = starts.split_first() {
            if start.name.as_str() == name {
                return Some(Value::Exp(&start.exp));
            }
            starts = others;
        }
        None
    }
}

/// The values of the first table, and those of the second for names that the first doesn't have.
#[derive(Clone, Copy)]
pub struct Both<'a, A, B> {
    pub first: &'a A,
    pub second: &'a B,
}

impl<A: Values, B: Values> Values for Both<'_, A, B> {
    ghost value_of = { λ it x. or_else (A.value_of it.first.now x) (B.value_of it.second.now x) };

    fn value(&self, name: &str) -> Option<Value<'_>> {
        match self.first.value(name) {
            Some(value) => Some(value),
            None => self.second.value(name),
        }
    }
}
