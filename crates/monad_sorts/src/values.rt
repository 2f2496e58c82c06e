//! What can be told of the scalars of a program's values without the names in scope.

ghost use Rattle.std.specs.Prelude.{◌≡◌, Option, None};
ghost use Rattle.c_values.specs.Name.{Name};
ghost use Rattle.expression_lang.specs.Sort as plain;
ghost use Rattle.monad_lang.specs.CodeProgram.{mon_of};
ghost use Rattle.monad_sorts.specs.CodeTold.{values_told, told_at, giver_of, names_into, names_after};
ghost use Rattle.monad_sorts.specs.CodeInside.{setting_in, scalar_by, no_names};

use crate::counts::tell_result;
use crate::names::{position, start_position};
use crate::parts::{giver_of, part_after};
use crate::settings::Setting;
use crate::tell::{Told, tell_exp, tell_start};
use monad_lang::Mon;
use program_sorts::Phase;

/// The scalar of one of a program's values, if it is well-sorted. It goes along the sequence by a
/// loop, and then back over the parts whose names it leads to. It takes some 200 bytes of the stack
/// at each level of the program.
#[cycle(told)]
pub fn tell_value<'a>(m: &'a Mon, position: usize, setting: Setting<'_>) -> Told<'a>
    ensures { (names : Name → Option plain.Scalar) → scalar_by names result
        ≡ told_at (values_told (setting_in setting.entry names) (mon_of m.now)) position }
{
    let mut rest = m;
    let mut steps: usize = 0;
    'along: while let Some(giver) = giver_of(rest) {
        if steps == usize::MAX {
            return look_back(m, steps, tell_value(rest, position, setting), setting);
        }
        rest = giver;
        steps += 1;
    }
    look_back(m, steps, tell_own(rest, position, setting), setting)
}

// The same of a program that has none of a part's values.
fn tell_own<'a>(m: &'a Mon, position: usize, setting: Setting<'_>) -> Told<'a>
    requires { giver_of (mon_of m.now) ≡ None }
    ensures { (names : Name → Option plain.Scalar) → scalar_by names result
        ≡ told_at (values_told (setting_in setting.entry names) (mon_of m.now)) position }
{
    match m {
        Mon::Ret(values) => tell_exp(values, position, setting),
        Mon::Loop(starts, _, _, _) => tell_start(starts, position, setting),
        Mon::Call(function, _) => tell_result(function.as_str(), position, setting),
        Mon::Pick(kind) => {
            if position == 0 {
                Told::Known(Some(Phase::OnNumbers.scalar(*kind)))
            } else {
                Told::Known(None)
            }
        }
        Mon::Guard(_) | Mon::Write(_, _) => Told::Known(None),
        _ => unreachable!(),
    }
}

/// What is told where so many last parts of a program were passed, told where it begins. It looks
/// at the later half of them first, so it takes some 250 bytes of the stack for each halving of
/// their number.
#[cycle(told)]
pub fn look_back<'a>(m: &'a Mon, steps: usize, told: Told<'a>, setting: Setting<'_>) -> Told<'a>
    ensures { (names : Name → Option plain.Scalar) → scalar_by names result
        ≡ scalar_by (names_after (setting_in setting.entry no_names) steps names (mon_of m.now))
        told.entry }
{
    let Told::AsName(name) = told else {
        return told;
    };
    if steps == 0 {
        return told;
    }
    if steps == 1 {
        return look_through(m, name, setting);
    }
    let half = steps / 2;
    let later = look_back(part_after(m, half), steps - half, told, setting);
    look_back(m, half, later, setting)
}

// What a name of the last part of a program is told, where the program begins.
#[cycle(told)]
fn look_through<'a>(m: &'a Mon, name: &'a str, setting: Setting<'_>) -> Told<'a>
    ensures { (names : Name → Option plain.Scalar) → scalar_by names result
        ≡ names_into (setting_in setting.entry no_names) names (mon_of m.now) name.now }
{
    match m {
        Mon::Bind(first, names, _) => match position(names, name) {
            Some(k) => tell_value(first, k, setting),
            None => Told::AsName(name),
        },
        Mon::Loop(starts, _, _, _) => match start_position(starts, name) {
            Some(k) => tell_start(starts, k, setting),
            None => Told::AsName(name),
        },
        _ => Told::AsName(name),
    }
}
