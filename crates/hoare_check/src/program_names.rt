//! The names in scope behind a program.

ghost use Rattle.std.specs.Prelude.{◌≡◌, map, string_bytes};
ghost use Rattle.std.specs.Option.{option_map};
ghost use Rattle.expression_lang.specs.CodeSort.{scalar_of};
ghost use Rattle.monad_lang.specs.CodeProgram.{mon_of};
ghost use Rattle.monad_sorts.specs.CodeInside.{scalar_by, setting_in};
ghost use Rattle.hoare_check.specs.CodeNames.{names_told};

use expression_lang::{Scalar, Scope};
use monad_lang::Mon;
use monad_sorts::{Setting, Told, tell_value};

/// What is in scope behind a program, under the names of its values.
#[derive(Clone, Copy)]
pub(crate) struct Behind<'a, N: Scope> {
    pub outer: &'a N,
    pub setting: Setting<'a>,
    pub program: &'a Mon,
    pub results: &'a [String],
}

impl<N: Scope> Behind<'_, N> {
    // The scalar that is told of a value.
    fn scalar_told(&self, told: Told<'_>) -> Option<Scalar>
        ensures { option_map scalar_of result
            ≡ scalar_by (λ x. N.scalars self.now.outer.now x) told.entry }
    {
        match told {
            Told::Known(scalar) => scalar,
            Told::AsName(name) => self.outer.scalar(name),
        }
    }
}

impl<N: Scope> Scope for Behind<'_, N> {
    ghost scalars = { λ it x. names_told
        (setting_in it.setting (λ y. N.scalars it.outer.now y)) (mon_of it.program.now)
        (map string_bytes it.results.now) (λ y. N.scalars it.outer.now y) x };

    fn scalar(&self, name: &str) -> Option<Scalar> {
        let mut rest = self.results;
        'along: while let Some((last, others)) = rest.split_last() {
            if last.as_str() == name {
                return (&*self).scalar_told(tell_value(self.program, others.len(), self.setting));
            }
            rest = others;
        }
        self.outer.scalar(name)
    }
}
