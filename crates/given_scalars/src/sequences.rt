//! Programs as a first part and what comes behind it.

ghost use Rattle.std.specs.Prelude.{◌≡◌, ◌<◌, map, string_bytes, IfSome, IfNone};
ghost use Rattle.monad_lang.specs.Program.{Bind};
ghost use Rattle.monad_lang.specs.CodeProgram.{mon_of};
ghost use Rattle.monad_lang.specs.declared.program.Mon.{size-Mon};
ghost use Rattle.given_scalars.specs.CodeScalars.{IsNoBind};

use monad_lang::Mon;

/// A first part with the names of its values, and what comes behind it.
#[derive(Clone, Copy)]
pub struct Sequence<'a> {
    pub first: &'a Mon,
    pub names: &'a [String],
    pub last: &'a Mon,
}

/// The first part of a program and what comes behind it, where it is a sequence.
pub fn split(m: &Mon) -> Option<Sequence<'_>>
    ensures some { IfSome result (λ it. mon_of m.now
        ≡ Bind (mon_of it.first.now) (map string_bytes it.names.now) (mon_of it.last.now)) }
    ensures first { IfSome result (λ it. size-Mon it.first.now < size-Mon m.now) }
    ensures last { IfSome result (λ it. size-Mon it.last.now < size-Mon m.now) }
    ensures none { IfNone result (IsNoBind (mon_of m.now)) }
{
    match m {
        Mon::Bind(first, names, last) => Some(Sequence {
            first: &**first,
            names,
            last: &**last,
        }),
        _ => None,
    }
}
