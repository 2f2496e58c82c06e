//! The names in a triple.

ghost use Rattle.std.specs.Prelude.{◌≡◌, ◌++◌, true, map};
ghost use Rattle.c_values.specs.Name.{are_distinct};
ghost use Rattle.expression_lang.specs.CodeSort.{names_of as names_among, no_names};
ghost use Rattle.expression_lang.specs.Sort.{sort_of_kind};
ghost use Rattle.expression_lang.specs.Sorted.{names_with};
ghost use Rattle.monad_lang.specs.CodeProgram.{final_fn_of};
ghost use Rattle.exactness.specs.Triple.{result_names};
ghost use Rattle.triple_lang.specs.CodeDeriv.{logical_of};
ghost use Rattle.hoare_check.specs.CodeNames.{with_logicals};
ghost use Rattle.hoare_check.specs.CodeResults.{names_of};

use crate::value_names::Results;
use expression_lang::{Binder, Names, Scalar, Scope};
use monad_lang::FinalFn;
use program_sorts::Phase;
use triple_lang::Logical;

// Whether no two of the names are one.
fn are_distinct(names: Results<'_>) -> bool
    ensures { result ≡ are_distinct (names_of names.entry) }
{
    let mut rest = names;
    'along: while let Some((name, others)) = rest.next() {
        if others.has(name) {
            return false;
        }
        rest = others;
    }
    true
}

/// Whether no two of names and others are one, where no two of the first are.
pub(crate) fn are_distinct_together(names: Results<'_>, others: Results<'_>) -> bool
    requires { are_distinct (names_of names) ≡ true }
    ensures { result ≡ are_distinct (names_of names.entry ++ names_of others.entry) }
{
    let mut rest = names;
    'along: while let Some((name, behind)) = rest.next() {
        if others.has(name) {
            return false;
        }
        rest = behind;
    }
    are_distinct(others)
}

/// The name of a function's result, where it has one, and no other.
pub(crate) fn only_result<'a>(none: &'a Names<'a>, function: &FinalFn) -> Names<'a>
    requires { names_among none.now ≡ no_names }
    ensures { let kinds = (final_fn_of function.now).results in
        names_among result ≡ names_with (result_names kinds) (map sort_of_kind kinds) no_names }
{
    match function.results.first() {
        Some(kind) => none.push("result", Phase::OnNumbers.scalar(*kind)),
        None => Names::new(),
    }
}

/// A function's parameters, with what stands for their kinds.
#[derive(Clone, Copy)]
pub(crate) struct Parameters<'a> {
    pub binders: &'a [Binder],
}

impl Scope for Parameters<'_> {
    ghost use Rattle.program_sorts.specs.declared.phases.Phase.TheVariants.{OnNumbers};
    ghost use Rattle.monad_sorts.specs.CodeInside.{parameters_in};

    ghost scalars = { λ it x. parameters_in OnNumbers it.binders.now no_names x };

    fn scalar(&self, name: &str) -> Option<Scalar> {
        let mut rest = self.binders;
        'along: while let Some((last, others)) = rest.split_last() {
            if last.name.as_str() == name {
                return Some(Phase::OnNumbers.scalar(last.kind));
            }
            rest = others;
        }
        None
    }
}

/// What is in scope in an assertion: logical variables, and other names.
#[derive(Clone, Copy)]
pub(crate) struct WithLogicals<'a, N: Scope> {
    pub logicals: &'a [Logical],
    pub outer: &'a N,
}

impl<N: Scope> Scope for WithLogicals<'_, N> {
    ghost scalars = { λ it x. with_logicals (map logical_of it.logicals.now)
        (λ y. N.scalars it.outer.now y) x };

    fn scalar(&self, name: &str) -> Option<Scalar> {
        let mut rest = self.logicals;
        'along: while let Some((last, others)) = rest.split_last() {
            if last.name.as_str() == name {
                return Some(last.scalar);
            }
            rest = others;
        }
        self.outer.scalar(name)
    }
}
