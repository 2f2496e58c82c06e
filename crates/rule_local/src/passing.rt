//! Which of the first names of a list pass a test.

ghost use Rattle.std.specs.Prelude.{◌≡◌, ℕ, map, string_bytes};
ghost use Rattle.c_values.specs.Name.{Name, is_among};
ghost use Rattle.expression_lang.specs.CodeExpression.{exp_of};
ghost use Rattle.expression_lang.specs.CodeSignature.{binder_of};
ghost use Rattle.expression_lang.specs.Signature.{names_of};
ghost use Rattle.expression_lang.specs.Mentions.{names};
ghost use Rattle.simpl_lang.specs.CodeCommand.{simpl_of};
ghost use Rattle.monad_lang.specs.CodeProgram.{start_of, mon_of};
ghost use Rattle.monad_lang.specs.Names.{is_in_start, is_free};
ghost use Rattle.monad_lang.specs.Run.{start_names};
ghost use Rattle.rule_local.specs.Assigned.{assigns};
ghost use Rattle.rule_local.specs.CodeMarks.{is_marked, IsMarkable};

use crate::carried::assigns;
use crate::marks::Marks;
use expression_lang::{Binder, Exp};
use monad_lang::{Mon, NameTest, Start, is_among, is_free, is_in, is_in_start, is_started};
use simpl_lang::{Simpl, is_bound};

// Those of the first 64 names that pass a test.
fn passing<T: NameTest>(window: &[Binder], test: &T) -> Marks
    ensures { (i : ℕ) (y : Name) → IsMarkable (names_of (map binder_of window.now)) i y →
        is_marked result.bits i ≡ T.holds test.now y }
{
    let mut found = Marks::none();
    let mut rest = window;
    'places: for place in 0..64 {
        let Some((binder, others)) = rest.split_first() else {
            return found;
        };
        found = found.with(place, test.holds(binder.name.as_str()));
        rest = others;
    }
    found
}

#[derive(Clone, Copy)]
struct IsAmong<'a> {
    names: &'a [String],
}

impl NameTest for IsAmong<'_> {
    ghost use Rattle.std.specs.Prelude.{map, string_bytes};
    ghost use Rattle.c_values.specs.Name.{is_among};

    ghost holds = { λ test y. is_among y (map string_bytes test.names.now) };

    fn holds(&self, name: &str) -> bool {
        is_among(name, self.names)
    }
}

/// Those that are among names.
pub(crate) fn among(window: &[Binder], names: &[String]) -> Marks
    ensures { (i : ℕ) (y : Name) → IsMarkable (names_of (map binder_of window.now)) i y →
        is_marked result.bits i ≡ is_among y (map string_bytes names.now) }
{
    passing(window, &IsAmong { names })
}

#[derive(Clone, Copy)]
struct IsBound<'a> {
    binders: &'a [Binder],
}

impl NameTest for IsBound<'_> {
    ghost use Rattle.std.specs.Prelude.{map};
    ghost use Rattle.c_values.specs.Name.{is_among};
    ghost use Rattle.expression_lang.specs.CodeSignature.{binder_of};
    ghost use Rattle.expression_lang.specs.Signature.{names_of};

    ghost holds = { λ test y. is_among y (names_of (map binder_of test.binders.now)) };

    fn holds(&self, name: &str) -> bool {
        is_bound(name, self.binders)
    }
}

/// Those that are a binder's.
pub(crate) fn bound(window: &[Binder], binders: &[Binder]) -> Marks
    ensures { (i : ℕ) (y : Name) → IsMarkable (names_of (map binder_of window.now)) i y →
        is_marked result.bits i ≡ is_among y (names_of (map binder_of binders.now)) }
{
    passing(window, &IsBound { binders })
}

#[derive(Clone, Copy)]
struct IsAssigned<'a> {
    command: &'a Simpl,
}

impl NameTest for IsAssigned<'_> {
    ghost use Rattle.simpl_lang.specs.CodeCommand.{simpl_of};
    ghost use Rattle.rule_local.specs.Assigned.{assigns};

    ghost holds = { λ test y. assigns y (simpl_of test.command.now) };

    fn holds(&self, name: &str) -> bool {
        assigns(name, self.command)
    }
}

/// Those that a command assigns.
pub(crate) fn assigned(window: &[Binder], command: &Simpl) -> Marks
    ensures { (i : ℕ) (y : Name) → IsMarkable (names_of (map binder_of window.now)) i y →
        is_marked result.bits i ≡ assigns y (simpl_of command.now) }
{
    passing(window, &IsAssigned { command })
}

#[derive(Clone, Copy)]
struct IsFree<'a> {
    program: &'a Mon,
}

impl NameTest for IsFree<'_> {
    ghost use Rattle.monad_lang.specs.CodeProgram.{mon_of};
    ghost use Rattle.monad_lang.specs.Names.{is_free};

    ghost holds = { λ test y. is_free y (mon_of test.program.now) };

    fn holds(&self, name: &str) -> bool {
        is_free(name, self.program)
    }
}

/// Those that are free in a program.
pub(crate) fn free(window: &[Binder], program: &Mon) -> Marks
    ensures { (i : ℕ) (y : Name) → IsMarkable (names_of (map binder_of window.now)) i y →
        is_marked result.bits i ≡ is_free y (mon_of program.now) }
{
    passing(window, &IsFree { program })
}

#[derive(Clone, Copy)]
struct IsIn<'a> {
    exp: &'a Exp,
}

impl NameTest for IsIn<'_> {
    ghost use Rattle.expression_lang.specs.CodeExpression.{exp_of};
    ghost use Rattle.expression_lang.specs.Mentions.{names};

    ghost holds = { λ test y. names y (exp_of test.exp.now) };

    fn holds(&self, name: &str) -> bool {
        is_in(name, self.exp)
    }
}

/// Those that an expression has.
pub(crate) fn named(window: &[Binder], exp: &Exp) -> Marks
    ensures { (i : ℕ) (y : Name) → IsMarkable (names_of (map binder_of window.now)) i y →
        is_marked result.bits i ≡ names y (exp_of exp.now) }
{
    passing(window, &IsIn { exp })
}

#[derive(Clone, Copy)]
struct IsStarted<'a> {
    starts: &'a [Start],
}

impl NameTest for IsStarted<'_> {
    ghost use Rattle.std.specs.Prelude.{map};
    ghost use Rattle.c_values.specs.Name.{is_among};
    ghost use Rattle.monad_lang.specs.CodeProgram.{start_of};
    ghost use Rattle.monad_lang.specs.Run.{start_names};

    ghost holds = { λ test y. is_among y (start_names (map start_of test.starts.now)) };

    fn holds(&self, name: &str) -> bool {
        is_started(name, self.starts)
    }
}

/// Those that a loop starts with.
pub(crate) fn started(window: &[Binder], starts: &[Start]) -> Marks
    ensures { (i : ℕ) (y : Name) → IsMarkable (names_of (map binder_of window.now)) i y →
        is_marked result.bits i ≡ is_among y (start_names (map start_of starts.now)) }
{
    passing(window, &IsStarted { starts })
}

#[derive(Clone, Copy)]
struct IsInStart<'a> {
    starts: &'a [Start],
}

impl NameTest for IsInStart<'_> {
    ghost use Rattle.std.specs.Prelude.{map};
    ghost use Rattle.monad_lang.specs.CodeProgram.{start_of};
    ghost use Rattle.monad_lang.specs.Names.{is_in_start};

    ghost holds = { λ test y. is_in_start y (map start_of test.starts.now) };

    fn holds(&self, name: &str) -> bool {
        is_in_start(name, self.starts)
    }
}

/// Those that an expression has with which a loop starts.
pub(crate) fn named_in_starts(window: &[Binder], starts: &[Start]) -> Marks
    ensures { (i : ℕ) (y : Name) → IsMarkable (names_of (map binder_of window.now)) i y →
        is_marked result.bits i ≡ is_in_start y (map start_of starts.now) }
{
    passing(window, &IsInStart { starts })
}
