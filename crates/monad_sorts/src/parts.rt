//! Parts of programs.

ghost use Rattle.std.specs.Prelude.{◌≡◌, ◌<◌, ◌≤◌, IfSome};
ghost use Rattle.std.specs.Option.{option_map};
ghost use Rattle.monad_lang.specs.declared.program.Mon.{size-Mon};
ghost use Rattle.monad_lang.specs.CodeProgram.{mon_of};
ghost use Rattle.monad_sorts.specs.CodeTold.{giver_of, last_of, last_part, part_after};

use monad_lang::Mon;

/// The part that has a program's values.
pub(crate) fn giver_of(m: &Mon) -> Option<&Mon>
    ensures same { option_map (λ n. mon_of n.now) result ≡ giver_of (mon_of m.now) }
    ensures smaller { IfSome result (λ n. size-Mon n.now < size-Mon m.now) }
{
    match m {
        Mon::Bind(_, _, last) | Mon::If(_, _, last) => Some(&**last),
        _ => None,
    }
}

/// The last part of a program that has programs in it.
pub(crate) fn last_of(m: &Mon) -> Option<&Mon>
    ensures same { option_map (λ n. mon_of n.now) result ≡ last_of (mon_of m.now) }
    ensures smaller { IfSome result (λ n. size-Mon n.now < size-Mon m.now) }
{
    match m {
        Mon::Bind(_, _, last) | Mon::If(_, _, last) | Mon::Loop(_, _, _, last) => Some(&**last),
        _ => None,
    }
}

// The last part of a program, or itself where there is none.
fn last_part(m: &Mon) -> &Mon
    ensures same { mon_of result.now ≡ last_part (mon_of m.now) }
    ensures smaller { size-Mon result.now ≤ size-Mon m.now }
{
    match m {
        Mon::Bind(_, _, last) | Mon::If(_, _, last) | Mon::Loop(_, _, _, last) => &**last,
        _ => m,
    }
}

/// What is left of a program after so many last parts.
pub(crate) fn part_after(m: &Mon, steps: usize) -> &Mon
    ensures same { mon_of result.now ≡ part_after steps (mon_of m.now) }
    ensures smaller { size-Mon result.now ≤ size-Mon m.now }
{
    let mut rest = m;
    'parts: for step in 0..steps {
        rest = last_part(rest);
    }
    rest
}
