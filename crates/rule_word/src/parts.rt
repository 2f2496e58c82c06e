//! The parts of a sequence.

ghost use Rattle.std.specs.Prelude.{◌≡◌, map, string_bytes};
ghost use Rattle.monad_lang.specs.CodeProgram.{mon_of};
ghost use Rattle.rule_word.specs.CodeClaims.{first_of, behind, names_bound};

use monad_lang::Mon;

/// The first of two programs, or the program itself.
pub(crate) fn first_of(m: &Mon) -> &Mon
    ensures { mon_of result.now ≡ first_of (mon_of m.now) }
{
    match m {
        Mon::Bind(first, _, _) => &**first,
        _ => m,
    }
}

/// The names that a program binds to its first part's values.
pub(crate) fn named(m: &Mon) -> &[String]
    ensures { map string_bytes result.now ≡ names_bound (mon_of m.now) }
{
    match m {
        Mon::Bind(_, names, _) => names,
        _ => &[],
    }
}

/// The second of two programs, or the program itself.
pub(crate) fn behind(m: &Mon) -> &Mon
    ensures { mon_of result.now ≡ behind (mon_of m.now) }
{
    match m {
        Mon::Bind(_, _, last) => &**last,
        _ => m,
    }
}
