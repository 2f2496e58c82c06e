//! What is in scope in a part of a program.

ghost use Rattle.std.specs.Prelude.{◌≡◌};
ghost use Rattle.std.specs.Option.{option_map};
ghost use Rattle.expression_lang.specs.CodeSort.{scalar_of};
ghost use Rattle.monad_lang.specs.CodeProgram.{mon_of};
ghost use Rattle.monad_sorts.specs.CodeTold.{values_told, told_at, names_after};
ghost use Rattle.monad_sorts.specs.CodeInside.{setting_in, scalar_by, parameters_in, no_names, scalars_in};

use crate::settings::Setting;
use crate::tell::Told;
use crate::values::{look_back, tell_value};
use expression_lang::{Binder, Scalar, Scope};
use monad_lang::Mon;
use program_sorts::Phase;

/// What is in scope: a function's parameters, or what is in scope in a program with the names of so
/// many last parts of it.
#[derive(Drop)]
pub enum Inside<'a> {
    Parameters(&'a [Binder], Phase),
    /// One link for any number of parts, since a chain with a link for each takes as much of the
    /// stack.
    Passed(&'a Inside<'a>, Setting<'a>, &'a Mon, usize),
}

impl<'a> Inside<'a> {
    /// What is in scope after so many last parts of a program that stands here.
    pub fn pass(&'a self, setting: Setting<'a>, m: &'a Mon, steps: usize) -> Inside<'a>
        ensures { scalars_in result
            ≡ names_after (setting_in setting.entry no_names) steps (scalars_in self.now)
            (mon_of m.now) }
    {
        Inside::Passed(self, setting, m, steps)
    }

    /// What is told, with the names in scope.
    pub(crate) fn scalar_told(&self, told: Told<'_>) -> Option<Scalar>
        ensures { option_map scalar_of result ≡ scalar_by (scalars_in self.now) told.entry }
    {
        match told {
            Told::Known(scalar) => scalar,
            Told::AsName(name) => (&*self).scalar_named(&*name),
        }
    }

    // The scalar of a name.
    fn scalar_named(&'a self, name: &'a str) -> Option<Scalar>
        ensures { option_map scalar_of result ≡ scalars_in self.now name.now }
    {
        let mut inside = self;
        let mut name = name;
        'links: loop {
            match inside {
                Inside::Parameters(binders, phase) => return parameter(binders, name, *phase),
                Inside::Passed(outer, setting, m, steps) => {
                    match look_back(m, *steps, Told::AsName(name), *setting) {
                        Told::Known(scalar) => return scalar,
                        Told::AsName(other) => {
                            name = other;
                            inside = *outer;
                        }
                    }
                }
            }
        }
    }

    /// The scalar of one of a program's values, if it is well-sorted here.
    pub(crate) fn scalar_of_value(
        &self,
        m: &Mon,
        position: usize,
        setting: Setting<'_>,
    ) -> Option<Scalar>
        ensures { let t = setting_in setting.entry (scalars_in self.now) in
            option_map scalar_of result ≡ told_at (values_told t (mon_of m.now)) position }
    {
        self.scalar_told(tell_value(m, position, setting))
    }
}

impl Scope for Inside<'_> {
    ghost scalars = { λ inside x. scalars_in inside x };

    fn scalar(&self, name: &str) -> Option<Scalar> {
        (&*self).scalar_named(&*name)
    }
}

// What a parameter's kind has in the phase, of the last of the name.
fn parameter(binders: &[Binder], name: &str, phase: Phase) -> Option<Scalar>
    ensures { option_map scalar_of result ≡ parameters_in phase binders.now no_names name.now }
{
    let mut rest = binders;
    'binders: while let Some((last, others)) = rest.split_last() {
        if last.name.as_str() == name {
            return Some(phase.scalar(last.kind));
        }
        rest = others;
    }
    None
}
