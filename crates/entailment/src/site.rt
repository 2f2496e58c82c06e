//! Where an assertion is to be shown.

ghost use Rattle.std.specs.Prelude.{◌≡◌, map};
ghost use Rattle.c_values.specs.Layout.{global_type};
ghost use Rattle.c_values.specs.CodeValue.{global_of};
ghost use Rattle.ac_expr.specs.CodeChain.{scope_of_facts};

use ac_expr::{Facts, Sequence};
use c_values::{GlobalVar, Layout};
use expression_lang::{Scalar, Scope};

/// What is in scope, and whether assertions speak of typed heaps.
#[derive(Clone, Copy)]
pub struct Site<'a, N: Scope> {
    pub lifted: bool,
    pub names: &'a N,
    pub layout: &'a Layout,
    pub globals: &'a [GlobalVar],
}

/// The names in scope where these facts are known.
#[derive(Clone, Copy)]
pub(crate) struct NamesOf<'a, S: Sequence> {
    pub facts: &'a Facts<'a, S>,
}

impl<S: Sequence> Scope for NamesOf<'_, S> {
    ghost scalars = { λ it x. (scope_of_facts it.facts.now).names x };

    fn scalar(&self, name: &str) -> Option<Scalar> {
        let mut rest = self.facts;
        'links: loop {
            match rest {
                Facts::None(_, _, names) => return names.get(name),
                Facts::Bound(older, own, scalar) => {
                    if *own == name {
                        return Some(*scalar);
                    }
                    rest = *older;
                }
                Facts::With(older, _) | Facts::WithoutReads(older) | Facts::Passed(older, _, _) => {
                    rest = *older;
                }
            }
        }
    }
}

/// The layout where facts are known.
pub(crate) fn layout_of<'a, S: Sequence>(facts: &'a Facts<'a, S>) -> &'a Layout
    ensures { result.now ≡ (scope_of_facts facts.now).layout }
{
    let mut rest = facts;
    'links: loop {
        match rest {
            Facts::None(layout, _, _) => return *layout,
            Facts::Bound(older, _, _) | Facts::With(older, _) => rest = *older,
            Facts::WithoutReads(older) | Facts::Passed(older, _, _) => rest = *older,
        }
    }
}

/// The globals where facts are known.
pub(crate) fn globals_of<'a, S: Sequence>(facts: &'a Facts<'a, S>) -> &'a [GlobalVar]
    ensures { global_type (map global_of result.now) ≡ (scope_of_facts facts.now).globals }
{
    let mut rest = facts;
    'links: loop {
        match rest {
            Facts::None(_, globals, _) => return *globals,
            Facts::Bound(older, _, _) | Facts::With(older, _) => rest = *older,
            Facts::WithoutReads(older) | Facts::Passed(older, _, _) => rest = *older,
        }
    }
}
