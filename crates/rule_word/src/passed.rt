//! What stands before a place, as facts see it.

ghost use Rattle.std.specs.Prelude.{◌≡◌};
ghost use Rattle.expression_lang.specs.CodeExpression.{exp_of};
ghost use Rattle.rule_word.specs.CodePassed.{conjuncts, sequence};

use ac_expr::{Exp, Sequence, Split};
use program_facts::Parts;

/// The parts of a program that come one after the other, or the first sides of `and`s.
#[derive(Clone, Copy)]
pub enum Passed<'a> {
    Program(Parts<'a>),
    /// The sides of an `and`.
    Sides(&'a Box<Exp>, &'a Box<Exp>),
    /// A first side, or what is behind it.
    Side(&'a Box<Exp>),
}

impl<'a> Passed<'a> {
    /// The first sides of an `and`, and of that on its right, and so on.
    pub fn sides(e: &'a Exp) -> Passed<'a>
        ensures { sequence result ≡ conjuncts (exp_of e.now) }
    {
        match e {
            Exp::And(first, rest) => Passed::Sides(first, rest),
            _ => Passed::Program(Parts::None),
        }
    }
}

impl Sequence for Passed<'_> {
    ghost use Rattle.rule_word.specs.CodePassed.{sequence, guard_at, changes_at};

    ghost parts = { λ it. sequence it };

    ghost guard_in = { λ it. guard_at it };

    ghost changes = { λ it. changes_at it };

    // Walks over facts call it for each part, and what it gives is large.
    #[inline(always)]
    fn split(&self) -> Option<Split<'_, Self>> {
        match self {
            Passed::Program(parts) => match parts.split() {
                Some(split) => Some(Split {
                    first: Passed::Program(split.first),
                    names: split.names,
                    rest: Passed::Program(split.rest),
                }),
                None => None,
            },
            Passed::Sides(first, rest) => Some(Split {
                first: Passed::Side(*first),
                names: &[],
                rest: Passed::Side(*rest),
            }),
            Passed::Side(whole) => match &***whole {
                Exp::And(first, rest) => Some(Split {
                    first: Passed::Side(first),
                    names: &[],
                    rest: Passed::Side(rest),
                }),
                _ => None,
            },
        }
    }

    fn guard(&self) -> Option<&Exp> {
        match self {
            Passed::Program(parts) => parts.guard(),
            Passed::Sides(_, _) => None,
            Passed::Side(whole) => Some(&***whole),
        }
    }

    fn changes_state(&self) -> bool {
        match self {
            Passed::Program(parts) => parts.changes_state(),
            Passed::Sides(_, _) | Passed::Side(_) => false,
        }
    }
}
