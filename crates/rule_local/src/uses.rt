//! What becomes of names along a command and a program.

ghost use Rattle.std.specs.Prelude.{◌≡◌, ◌<◌, ℕ, map, string_bytes};
ghost use Rattle.c_values.specs.Name.{Name};
ghost use Rattle.expression_lang.specs.CodeSignature.{binder_of};
ghost use Rattle.expression_lang.specs.Signature.{names_of};
ghost use Rattle.simpl_lang.specs.CodeCommand.{simpl_of};
ghost use Rattle.monad_lang.specs.CodeProgram.{mon_of};
ghost use Rattle.rule_local.specs.CodeMarks.{is_marked, IsMarkable};
ghost use Rattle.rule_local.specs.CodePlaces.{uses_at, passed_at};
ghost use Rattle.rule_local.specs.CodeUses as names;

use crate::marks::Marks;
use crate::passing::{among, assigned, free, named, named_in_starts, started};
use expression_lang::Binder;
use monad_lang::Mon;
use simpl_lang::Simpl;

/// Which names a part of a function loses, which its command assigns, and which are free in its
/// program. A name is lost where a part assigns it, doesn't hand it on, and has it looked at
/// behind it.
#[derive(Clone, Copy)]
pub(crate) struct Uses {
    pub(crate) lost: Marks,
    assigned: Marks,
    pub(crate) free: Marks,
}

impl Uses {
    /// Of a program that stands for no command.
    pub(crate) fn only_free(free: Marks) -> Uses
        ensures { (i : ℕ) → uses_at i result ≡ names.only_free (is_marked free.bits i) }
    {
        Uses {
            lost: Marks::none(),
            assigned: Marks::none(),
            free,
        }
    }

    // Under a test that has these names.
    fn under(self, in_test: Marks) -> Uses
        ensures { (i : ℕ) →
            uses_at i result ≡ names.under (is_marked in_test.bits i) (uses_at i self) }
    {
        Uses {
            lost: self.lost,
            assigned: self.assigned,
            free: in_test.or(self.free),
        }
    }

    // Of a loop with this body, under its tests, and of what comes behind it: what its starts have,
    // with which names it starts, which it hands on, and which are looked at behind it.
    fn looped(
        self,
        in_starts: Marks,
        started: Marks,
        handed_on: Marks,
        outputs: Marks,
        in_rest: Marks,
    ) -> Uses
        ensures { (i : ℕ) → i < 64 → uses_at i result
            ≡ names.looped (uses_at i self) (is_marked in_starts.bits i) (is_marked started.bits i)
            (is_marked handed_on.bits i) (is_marked outputs.bits i) (is_marked in_rest.bits i) }
    {
        let needed = self.free.or(outputs);
        let in_turns = in_starts.or(self.free.but(started));
        Uses {
            lost: self.lost.or(self.assigned.but(handed_on).and(needed)),
            assigned: self.assigned,
            free: in_turns.or(in_rest.but(handed_on)),
        }
    }
}

/// What is known where some parts are passed: of them; which names they hide from what is left; and
/// which of them were assigned, and not handed on since.
#[derive(Clone, Copy)]
pub(crate) struct Passed {
    uses: Uses,
    hidden: Marks,
    dropped: Marks,
}

impl Passed {
    /// Where nothing is passed.
    pub(crate) fn none() -> Passed
        ensures { (i : ℕ) → passed_at i result ≡ names.none_passed }
    {
        Passed {
            uses: Uses::only_free(Marks::none()),
            hidden: Marks::none(),
            dropped: Marks::none(),
        }
    }

    /// Of the parts and what is left.
    pub(crate) fn ended(self, last: Uses) -> Uses
        ensures { (i : ℕ) → i < 64 →
            uses_at i result ≡ names.ended (passed_at i self) (uses_at i last) }
    {
        let lost = self.uses.lost.or(last.lost);
        Uses {
            lost: lost.or(self.dropped.and(last.free)),
            assigned: self.uses.assigned.or(last.assigned),
            free: self.uses.free.or(last.free.but(self.hidden)),
        }
    }

    // With one more part, after which nothing else is run.
    fn beside(self, part: Uses) -> Passed
        ensures { (i : ℕ) → i < 64 →
            passed_at i result ≡ names.beside (passed_at i self) (uses_at i part) }
    {
        Passed {
            uses: self.ended(part),
            hidden: self.hidden,
            dropped: self.dropped,
        }
    }

    /// With one more part, which hands on names to what is left.
    pub(crate) fn after(self, part: Uses, handed_on: Marks) -> Passed
        ensures { (i : ℕ) → i < 64 → passed_at i result
            ≡ names.after (passed_at i self) (uses_at i part) (is_marked handed_on.bits i) }
    {
        Passed {
            uses: self.ended(part),
            hidden: self.hidden.or(handed_on),
            dropped: self.dropped.or(part.assigned).but(handed_on),
        }
    }
}

/// What becomes of the first 64 names along a command and a program that gives the outputs. It goes
/// along the last parts by a loop, since a text may have long sequences.
pub(crate) fn uses_along(window: &[Binder], left: &Simpl, right: &Mon, outputs: &[String]) -> Uses
    ensures { (i : ℕ) (y : Name) → IsMarkable (names_of (map binder_of window.now)) i y →
        uses_at i result
        ≡ names.uses y (simpl_of left.now) (mon_of right.now) (map string_bytes outputs.now) }
{
    let mut command = left;
    let mut program = right;
    let mut passed = Passed::none();
    'along: loop {
        match command {
            Simpl::Seq(part, last) => match program {
                Mon::Bind(first, names, rest) => {
                    let uses = uses_along(window, part, first, names);
                    passed = passed.after(uses, among(window, names));
                    command = &**last;
                    program = &**rest;
                }
                _ => return passed.ended(at_once(window, command, program)),
            },
            Simpl::Cond(_, part, last) => match program {
                Mon::If(test, first, rest) => {
                    let uses = uses_along(window, part, first, outputs);
                    passed = passed.beside(uses.under(named(window, test)));
                    command = &**last;
                    program = &**rest;
                }
                _ => return passed.ended(at_once(window, command, program)),
            },
            Simpl::Guard(_, last) => match program {
                Mon::Bind(first, names, rest) => {
                    let uses = Uses::only_free(free(window, first));
                    passed = passed.after(uses, among(window, names));
                    command = &**last;
                    program = &**rest;
                }
                _ => return passed.ended(at_once(window, command, program)),
            },
            Simpl::While(_, _, part) => match program {
                Mon::Bind(first, names, rest) => match &**first {
                    Mon::Loop(starts, guard, turn, body) => {
                        let uses = uses_along(window, part, body, names);
                        let tests = named(window, guard).or(named(window, turn));
                        return passed.ended(
                            uses.under(tests).looped(
                                named_in_starts(window, starts),
                                started(window, starts),
                                among(window, names),
                                among(window, outputs),
                                free(window, rest),
                            ),
                        );
                    }
                    _ => return passed.ended(at_once(window, command, program)),
                },
                _ => return passed.ended(at_once(window, command, program)),
            },
            _ => return passed.ended(at_once(window, command, program)),
        }
    }
}

// Of a command and a program that have no parts, or no parts that belong together.
fn at_once(window: &[Binder], left: &Simpl, right: &Mon) -> Uses
    ensures { (i : ℕ) (y : Name) → IsMarkable (names_of (map binder_of window.now)) i y →
        uses_at i result
        ≡ names.at_once y (simpl_of left.now) (mon_of right.now) }
{
    Uses {
        lost: Marks::none(),
        assigned: assigned(window, left),
        free: free(window, right),
    }
}
