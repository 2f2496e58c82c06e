//! The names of a program, those around it and its own.

ghost use Rattle.std.specs.Prelude.{◌≡◌, Option, Some, IfSome, IfNone};
ghost use Rattle.c_values.specs.Name.{Name};
ghost use Rattle.expression_lang.specs.Sort as plain;
ghost use Rattle.expression_lang.specs.Sorted.{names_with};
ghost use Rattle.expression_lang.specs.CodeSort.{scalar_of};
ghost use Rattle.expression_steps.specs.CodePoint.{names_of, scalars_of};
ghost use Rattle.given_scalars.specs.CodeScalars.{names_in};

use expression_lang::{Scalar, Scope};
use expression_steps::Binding;

/// Names with what their values are: those around a program, and then its own. The last of two
/// with one name counts.
#[derive(Drop)]
pub(crate) enum Around<'a, N: Scope> {
    Outer(&'a N),
    Within(&'a Around<'a, N>, &'a [Binding]),
}

// What the values of the last of the names are that is this one.
#[tactic(auto, using(crate::proofs::PointLaws::last_bound))]
fn last_bound(names: &[Binding], name: &str) -> Option<Scalar>
    ensures some { IfSome result (λ s. (others : Name → Option plain.Scalar) →
        names_with (names_of names.now) (scalars_of names.now) others name.now
        ≡ Some (scalar_of s)) }
    ensures none { IfNone result ((others : Name → Option plain.Scalar) →
        names_with (names_of names.now) (scalars_of names.now) others name.now
        ≡ others name.now) }
{
    let mut rest = names;
    'names: while let Some((last, others)) = rest.split_last() {
        if last.name.as_str() == name {
            return Some(last.scalar);
        }
        rest = others;
    }
    None
}

impl<N: Scope> Scope for Around<'_, N> {
    ghost use Rattle.given_scalars.specs.CodeScalars.{names_in};

    ghost scalars = { λ it x. names_in (N.scalars) it x };

    fn scalar(&self, name: &str) -> Option<Scalar> {
        let mut names = self;
        'links: loop {
            match names {
                Around::Outer(outer) => return outer.scalar(name),
                Around::Within(outer, own) => {
                    if let Some(scalar) = last_bound(own, name) {
                        return Some(scalar);
                    }
                    names = *outer;
                }
            }
        }
    }
}
