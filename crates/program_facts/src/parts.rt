//! Programs as sequences of parts, for facts.

ghost use Rattle.std.specs.Prelude.{◌≡◌};
ghost use Rattle.monad_lang.specs.CodeProgram.{mon_of};
ghost use Rattle.program_facts.specs.Flow.{changes_state, parts};
ghost use Rattle.program_facts.specs.CodeParts.{sequence};

use ac_expr::{Exp, Sequence, Split};
use monad_lang::Mon;

/// A program, by its parts that come one after the other. It points at boxes alone: facts with a
/// larger type in them are more than the language's types may reach.
#[derive(Clone, Copy)]
pub enum Parts<'a> {
    /// No part.
    None,
    /// A part, its values' names, and what comes behind it.
    Begins(&'a Box<Mon>, &'a [String], &'a Box<Mon>),
    /// A program that is a part.
    Whole(&'a Box<Mon>),
}

impl<'a> Parts<'a> {
    /// The parts of a program.
    pub fn of(m: &'a Mon) -> Parts<'a>
        ensures { sequence result ≡ parts (mon_of m.now) }
    {
        match m {
            Mon::Bind(first, names, rest) => Parts::Begins(first, names, rest),
            _ => Parts::None,
        }
    }
}

impl Sequence for Parts<'_> {
    ghost use Rattle.program_facts.specs.CodeParts.{sequence, guard_at, changes_at};

    ghost parts = { λ it. sequence it };

    ghost guard_in = { λ it. guard_at it };

    ghost changes = { λ it. changes_at it };

    // Walks over facts call it for each part, and what it gives is large.
    #[inline(always)]
    fn split(&self) -> Option<Split<'_, Self>> {
        match self {
            Parts::None => None,
            Parts::Begins(first, names, rest) => Some(Split {
                first: Parts::Whole(*first),
                names: *names,
                rest: Parts::Whole(*rest),
            }),
            Parts::Whole(program) => match &***program {
                Mon::Bind(first, names, rest) => Some(Split {
                    first: Parts::Whole(first),
                    names,
                    rest: Parts::Whole(rest),
                }),
                _ => None,
            },
        }
    }

    fn guard(&self) -> Option<&Exp> {
        match self {
            Parts::None | Parts::Begins(_, _, _) => None,
            Parts::Whole(program) => match &***program {
                Mon::Guard(e) => Some(e),
                _ => None,
            },
        }
    }

    fn changes_state(&self) -> bool {
        match self {
            Parts::None => false,
            Parts::Begins(first, _, rest) => changes_state(first) || changes_state(rest),
            Parts::Whole(program) => changes_state(program),
        }
    }
}

/// Whether a write or a call stands in a program. It goes along the last parts by a loop, since a
/// text may have long sequences.
pub fn changes_state(m: &Mon) -> bool
    ensures { result ≡ changes_state (mon_of m.now) }
{
    let mut rest = m;
    'along: loop {
        match rest {
            Mon::Ret(_) | Mon::Guard(_) | Mon::Pick(_) => return false,
            Mon::Write(_, _) | Mon::Call(_, _) => return true,
            Mon::Loop(_, _, _, body) => rest = &**body,
            Mon::Bind(first, _, last) => {
                if changes_state(first) {
                    return true;
                }
                rest = &**last;
            }
            Mon::If(_, first, last) => {
                if changes_state(first) {
                    return true;
                }
                rest = &**last;
            }
        }
    }
}
