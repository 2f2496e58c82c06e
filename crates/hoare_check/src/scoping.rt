//! What is in scope at a place of a derivation.

ghost use Rattle.std.specs.Prelude.{◌≡◌};
ghost use Rattle.std.specs.Option.{option_map};
ghost use Rattle.expression_lang.specs.CodeSort.{scalar_of};
ghost use Rattle.hoare_check.specs.CodeScoping.{names_in};

use expression_lang::{Scalar, Scope};
use monad_lang::Mon;
use monad_sorts::{Setting, Told, look_back};

/// What is in scope: a chain, each link of which borrows the one before.
#[derive(Drop)]
pub(crate) enum InScope<'a, N: Scope> {
    /// What is in scope where the derivation begins.
    Outer(&'a N),
    /// Behind the first part of a program, or in a loop.
    Passed(&'a InScope<'a, N>, Setting<'a>, &'a Mon),
    Named(&'a InScope<'a, N>, &'a str, Scalar),
}

impl<'a, N: Scope> InScope<'a, N> {
    // The scalar of a name.
    fn scalar_named(&'a self, name: &'a str) -> Option<Scalar>
        ensures { option_map scalar_of result ≡ names_in (N.scalars) self.now name.now }
    {
        let mut inside = self;
        let mut name = name;
        'links: loop {
            match inside {
                InScope::Outer(names) => return names.scalar(name),
                InScope::Passed(outer, setting, m) => {
                    match look_back(m, 1, Told::AsName(name), *setting) {
                        Told::Known(scalar) => return scalar,
                        Told::AsName(other) => {
                            name = other;
                            inside = *outer;
                        }
                    }
                }
                InScope::Named(outer, own, scalar) => {
                    if *own == name {
                        return Some(*scalar);
                    }
                    inside = *outer;
                }
            }
        }
    }
}

impl<N: Scope> Scope for InScope<'_, N> {
    ghost scalars = { λ it x. names_in (N.scalars) it x };

    fn scalar(&self, name: &str) -> Option<Scalar> {
        (&*self).scalar_named(&*name)
    }
}
