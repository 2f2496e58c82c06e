//! Names in scope.

ghost use Rattle.std.specs.Prelude.{◌≡◌, Option, Some, None, IfSome, IfNone};
ghost use Rattle.std.specs.Option.{option_map};
ghost use Rattle.c_values.specs.Name.{Name, with_name};
ghost use Rattle.expression_lang.specs.Sort as plain;
ghost use Rattle.expression_lang.specs.CodeSort.{names_of, scalar_of, no_names, names_with_all, IsScalarAmong, IsAmongNone};

use crate::signatures::Binder;
use crate::sort::{Scalar, scalar_of_kind};

/// What is in scope: names, with what their values are.
pub trait Scope {
    ghost scalars: { Self → Name → Option plain.Scalar };

    /// What the values of a name are.
    fn scalar(&self, name: &str) -> Option<Scalar>
        ensures { option_map scalar_of result ≡ scalars self.now name.now };
}

/// Names with what their values are: a chain, each link of which borrows the one before. The last
/// of two with one name counts.
#[derive(Drop)]
pub enum Names<'a> {
    Empty,
    Named(&'a Names<'a>, &'a str, Scalar),
    /// One link for any number of binders, since a chain with a link for each takes as much of the
    /// stack.
    AllOf(&'a Names<'a>, &'a [Binder]),
}

impl<'a> Names<'a> {
    /// No names.
    pub fn new() -> Names<'a>
        ensures { names_of result ≡ no_names }
    {
        Names::Empty
    }

    /// The same names, and one more.
    pub fn push(&'a self, name: &'a str, scalar: Scalar) -> Names<'a>
        ensures { names_of result ≡ with_name name.now (Some (scalar_of scalar))
            (names_of self.now) }
    {
        Names::Named(self, name, scalar)
    }

    /// The same names, and those of binders in their order, whose values are words or truth values
    /// by their kinds.
    pub fn push_all(&'a self, binders: &'a [Binder]) -> Names<'a>
        ensures { names_of result ≡ names_with_all binders.now (names_of self.now) }
    {
        Names::AllOf(self, binders)
    }

    /// What the values of a name are.
    pub fn get(&self, name: &str) -> Option<Scalar>
        ensures { option_map scalar_of result ≡ names_of self.now name.now }
    {
        let mut names = self;
        'links: loop {
            match names {
                Names::Empty => return None,
                Names::Named(outer, own, scalar) => {
                    if *own == name {
                        return Some(*scalar);
                    }
                    names = *outer;
                }
                Names::AllOf(outer, binders) => {
                    if let Some(scalar) = scalar_among(binders, name) {
                        return Some(scalar);
                    }
                    names = *outer;
                }
            }
        }
    }
}

impl Scope for Names<'_> {
    ghost scalars = { λ names x. names_of names x };

    fn scalar(&self, name: &str) -> Option<Scalar> {
        self.get(name)
    }
}

// What the values of the last binder of a name are, where there is one.
fn scalar_among(binders: &[Binder], name: &str) -> Option<Scalar>
    ensures some { IfSome result (λ s. IsScalarAmong binders.now name.now (scalar_of s)) }
    ensures none { IfNone result (IsAmongNone binders.now name.now) }
{
    let mut rest = binders;
    'binders: while let Some((last, others)) = rest.split_last() {
        if last.name.as_str() == name {
            return Some(scalar_of_kind(last.kind));
        }
        rest = others;
    }
    None
}
