//! Which programs are well-sorted.

ghost use Rattle.std.specs.Prelude.{◌≡◌, ◌&&◌, [], ◌∷◌, map, Some};
ghost use Rattle.std.specs.Option.{option_map};
ghost use Rattle.c_values.specs.Name.{are_distinct};
ghost use Rattle.expression_lang.specs.Sorted.{program_sort, fits_place};
ghost use Rattle.expression_lang.specs.Signature.{signature};
ghost use Rattle.expression_lang.specs.CodeExpression.{exp_of, kind_of};
ghost use Rattle.expression_lang.specs.CodeSort.{scalar_of};
ghost use Rattle.monad_lang.specs.Run.{start_names};
ghost use Rattle.monad_lang.specs.Sorted.{place_sort, has_few};
ghost use Rattle.monad_lang.specs.CodeProgram.{place_of, start_of, mon_of};
ghost use Rattle.monad_sorts.specs.CodeTold.{values_told};
ghost use Rattle.monad_sorts.specs.CodeSorted.{all_scalars, starts_scalars, is_same, same_told, can_call, is_sorted, is_front_sorted, gives};
ghost use Rattle.monad_sorts.specs.CodeInside.{setting_in, scalars_in, IsLoop};

use crate::counts::{count_of, function};
use crate::inside::Inside;
use crate::names::are_starts_distinct;
use crate::parts::last_of;
use crate::scoped::{fits_global_in, fits_object_in, has_scalar, is_test_in, may_take_in};
use crate::settings::{Functions, Setting};
use expression_lang::{Exp, Kind, Scalar, are_distinct};
use monad_lang::{Mon, Place, Start};
use program_sorts::{is_kind, signature};

/// Whether a program is well-sorted there. It goes along the last parts by a loop, since a text may
/// have long sequences.
#[cycle(sorted)]
pub(crate) fn is_sorted(m: &Mon, inside: &Inside<'_>, setting: Setting<'_>) -> bool
    ensures { let t = setting_in setting.entry (scalars_in inside.now) in
        result ≡ is_sorted t (mon_of m.now) }
{
    let mut rest = m;
    let mut steps: usize = 0;
    'along: loop {
        let here = Inside::Passed(&*inside, setting, m, steps);
        let Some(last) = last_of(rest) else {
            return is_front_sorted(rest, &here, setting);
        };
        if !is_front_sorted(rest, &here, setting) {
            return false;
        }
        if steps == usize::MAX {
            let inner = Inside::Passed(&here, setting, rest, 1);
            return is_sorted(last, &inner, setting);
        }
        rest = last;
        steps += 1;
    }
}

// The same but that its last part is well-sorted.
#[cycle(sorted)]
#[inline(never)]
fn is_front_sorted(m: &Mon, inside: &Inside<'_>, setting: Setting<'_>) -> bool
    ensures { let t = setting_in setting.entry (scalars_in inside.now) in
        result ≡ is_front_sorted t (mon_of m.now) }
{
    match m {
        Mon::Ret(values) => have_scalars(values, inside, setting),
        Mon::Bind(first, names, _) => {
            is_sorted(first, inside, setting)
                && names.len() == count_of(first, setting)
                && are_distinct(names)
        }
        Mon::Guard(condition) => is_test_in(condition, inside, setting),
        Mon::If(test, first, last) => {
            let inner = Inside::Passed(&*inside, setting, m, 1);
            is_sorted(first, inside, setting)
                && is_test_in(test, inside, setting)
                && same_values(first, inside, last, &inner, setting)
        }
        Mon::Write(place, value) => is_write_sorted(place, value, inside, setting),
        Mon::Loop(_, _, _, _) => is_turn_sorted(m, inside, setting),
        Mon::Call(function, arguments) => {
            is_call_sorted(function.as_str(), arguments, inside, setting)
        }
        Mon::Pick(kind) => is_kind(*kind),
    }
}

// What is asked of a loop but that its body is well-sorted.
#[inline(never)]
fn is_turn_sorted(m: &Mon, inside: &Inside<'_>, setting: Setting<'_>) -> bool
    requires { IsLoop (mon_of m.now) }
    ensures { let t = setting_in setting.entry (scalars_in inside.now) in
        result ≡ is_front_sorted t (mon_of m.now) }
{
    let Mon::Loop(starts, guard, test, body) = m else {
        unreachable!()
    };
    let turn = Inside::Passed(&*inside, setting, m, 1);
    if !are_starts_sorted(starts, inside, setting) {
        return false;
    }
    if !is_test_in(guard, &turn, setting) {
        return false;
    }
    if !is_test_in(test, &turn, setting) {
        return false;
    }
    same_values(m, inside, body, &turn, setting)
}

// Whether names are distinct, and each begins with an expression that has a scalar.
fn are_starts_sorted(starts: &[Start], inside: &Inside<'_>, setting: Setting<'_>) -> bool
    ensures { let g = (setting_in setting.entry (scalars_in inside.now)).scope in
        let plain = map start_of starts.now in
        result ≡ (starts_scalars g plain && are_distinct (start_names plain)) }
{
    have_starts_scalars(starts, inside, setting) && are_starts_distinct(starts)
}

// Whether each expression has a scalar.
fn have_scalars(es: &[Exp], inside: &Inside<'_>, setting: Setting<'_>) -> bool
    ensures { result ≡ all_scalars (setting_in setting.entry (scalars_in inside.now)).scope
        (map exp_of es.now) }
{
    'values: for e in es {
        if !has_scalar(e, inside, setting) {
            return false;
        }
    }
    true
}

// Whether each name begins with an expression that has a scalar.
fn have_starts_scalars(starts: &[Start], inside: &Inside<'_>, setting: Setting<'_>) -> bool
    ensures { result ≡ starts_scalars (setting_in setting.entry (scalars_in inside.now)).scope
        (map start_of starts.now) }
{
    'starts: for start in starts {
        if !has_scalar(&start.exp, inside, setting) {
            return false;
        }
    }
    true
}

// Whether a value may go to a place.
#[inline(never)]
fn is_write_sorted(place: &Place, value: &Exp, inside: &Inside<'_>, setting: Setting<'_>) -> bool
    ensures { let g = (setting_in setting.entry (scalars_in inside.now)).scope in
        result ≡ fits_place (place_sort g (place_of place.now))
        (program_sort g (exp_of value.now)) }
{
    match place {
        Place::Stored(ty, pointer, path) => {
            fits_object_in(ty, pointer, path, value, inside, setting)
        }
        Place::Written(ty, pointer, path) => {
            fits_object_in(ty, pointer, path, value, inside, setting)
        }
        Place::Global(name, path) => fits_global_in(name.as_str(), path, value, inside, setting),
    }
}

// Whether a call is of a function of the unit, with arguments of its parameters' kinds.
#[inline(never)]
fn is_call_sorted(name: &str, arguments: &[Exp], inside: &Inside<'_>, setting: Setting<'_>) -> bool
    ensures { let t = setting_in setting.entry (scalars_in inside.now) in
        result ≡ can_call t (signature t.functions name.now) (map exp_of arguments.now) }
{
    match setting.functions {
        Functions::Programs(functions) => match function(functions, name) {
            Some(f) => may_take_in(&f.params, arguments, inside, setting),
            None => false,
        },
        Functions::Signatures(signatures) => match signature(signatures, name) {
            Some(s) => may_take_in(&s.params, arguments, inside, setting),
            None => false,
        },
    }
}

/// Whether two programs give as many values, of the same scalars.
#[inline(never)]
pub(crate) fn same_values(
    m: &Mon,
    inside: &Inside<'_>,
    other: &Mon,
    other_inside: &Inside<'_>,
    setting: Setting<'_>,
) -> bool
    ensures { result ≡ same_told
        (values_told (setting_in setting.entry (scalars_in inside.now)) (mon_of m.now))
        (values_told (setting_in setting.entry (scalars_in other_inside.now)) (mon_of other.now)) }
{
    let count = count_of(m, setting);
    if count != count_of(other, setting) {
        return false;
    }
    'positions: for k in 0..count {
        let scalar = inside.scalar_of_value(m, k, setting);
        if !is_same(scalar, other_inside.scalar_of_value(other, k, setting)) {
            return false;
        }
    }
    true
}

// Whether there are two scalars, and they are the same.
fn is_same(scalar: Option<Scalar>, other: Option<Scalar>) -> bool
    ensures { result ≡ is_same (option_map scalar_of scalar) (option_map scalar_of other) }
{
    match scalar {
        Some(scalar) => match other {
            Some(other) => scalar == other,
            None => false,
        },
        None => false,
    }
}

/// Whether a program is well-sorted there, and gives values of these kinds, of which there is at
/// most one.
pub(crate) fn gives(m: &Mon, kinds: &[Kind], inside: &Inside<'_>, setting: Setting<'_>) -> bool
    ensures { let t = setting_in setting.entry (scalars_in inside.now) in
        result ≡ (has_few (map kind_of kinds.now)
        && gives t (map t.sort_for (map kind_of kinds.now)) (mon_of m.now)) }
{
    match kinds {
        [] => is_sorted(m, inside, setting) && gives_none(m, inside, setting),
        [kind] => is_sorted(m, inside, setting) && gives_one(m, *kind, inside, setting),
        _ => false,
    }
}

// Whether a program gives no values.
fn gives_none(m: &Mon, inside: &Inside<'_>, setting: Setting<'_>) -> bool
    ensures { let t = setting_in setting.entry (scalars_in inside.now) in
        result ≡ same_told [] (values_told t (mon_of m.now)) }
{
    count_of(m, setting) == 0
}

// Whether a program gives one value, of this kind.
fn gives_one(m: &Mon, kind: Kind, inside: &Inside<'_>, setting: Setting<'_>) -> bool
    ensures { let t = setting_in setting.entry (scalars_in inside.now) in
        result ≡ same_told (Some (t.sort_for (kind_of kind)) ∷ []) (values_told t (mon_of m.now)) }
{
    if count_of(m, setting) != 1 {
        return false;
    }
    is_same(
        Some(setting.phase.scalar(kind)),
        inside.scalar_of_value(m, 0, setting),
    )
}
