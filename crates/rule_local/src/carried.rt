//! Whether what a command assigns is handed on.

ghost use Rattle.std.specs.Prelude.{◌≡◌, ◌↔◌, IsTrue, true, map, string_bytes};
ghost use Rattle.std.specs.Option.{option_map};
ghost use Rattle.expression_lang.specs.CodeExpression.{exp_of};
ghost use Rattle.expression_lang.specs.CodeSignature.{binder_of};
ghost use Rattle.expression_lang.specs.Signature.{names_of};
ghost use Rattle.simpl_lang.specs.CodeCommand.{simpl_of};
ghost use Rattle.monad_lang.specs.CodeProgram.{mon_of};
ghost use Rattle.monad_lang.specs.Names.{is_free};
ghost use Rattle.rule_local.specs.Assigned.{assigns, Carries};
ghost use Rattle.rule_local.specs.Table.{is_needed};
ghost use Rattle.rule_local.specs.CodeAssigned.{target_passes, assigns_some};

use expression_lang::{Binder, Exp};
use monad_lang::{Mon, NameTest, is_among, is_free, is_in};
use simpl_lang::{Simpl, is_bound};

/// A name that isn't handed on, and that is free in the program.
#[derive(Clone, Copy)]
struct IsLostAfterwards<'a> {
    handed_on: &'a [String],
    program: &'a Mon,
}

impl NameTest for IsLostAfterwards<'_> {
    ghost use Rattle.std.specs.Prelude.{map, string_bytes};
    ghost use Rattle.monad_lang.specs.CodeProgram.{mon_of};
    ghost use Rattle.monad_lang.specs.Names.{is_free};
    ghost use Rattle.rule_local.specs.CodeAssigned.{is_lost};

    ghost holds = { λ test x. is_lost (map string_bytes test.handed_on.now)
        (λ y. is_free y (mon_of test.program.now)) x };

    fn holds(&self, name: &str) -> bool {
        !is_among(name, self.handed_on) && is_free(name, self.program)
    }
}

/// A name that isn't handed on, and that a loop looks at again or that is looked at afterwards.
#[derive(Clone, Copy)]
struct IsLostInTurns<'a> {
    handed_on: &'a [String],
    guard: &'a Exp,
    turn: &'a Exp,
    body: &'a Mon,
    outputs: &'a [String],
}

impl NameTest for IsLostInTurns<'_> {
    ghost use Rattle.std.specs.Prelude.{map, string_bytes};
    ghost use Rattle.expression_lang.specs.CodeExpression.{exp_of};
    ghost use Rattle.monad_lang.specs.CodeProgram.{mon_of};
    ghost use Rattle.rule_local.specs.Table.{is_needed};
    ghost use Rattle.rule_local.specs.CodeAssigned.{is_lost};

    ghost holds = { λ test x. is_lost (map string_bytes test.handed_on.now)
        (is_needed (exp_of test.guard.now) (exp_of test.turn.now) (mon_of test.body.now)
        (map string_bytes test.outputs.now)) x };

    fn holds(&self, name: &str) -> bool {
        !is_among(name, self.handed_on)
            && is_needed(name, self.guard, self.turn, self.body, self.outputs)
    }
}

// Whether a loop looks at a name again: in its guard, its test and its body, or whether it is
// looked at afterwards.
fn is_needed(name: &str, guard: &Exp, turn: &Exp, body: &Mon, outputs: &[String]) -> bool
    ensures { result ≡ is_needed (exp_of guard.now) (exp_of turn.now) (mon_of body.now)
        (map string_bytes outputs.now) name.now }
{
    is_in(name, guard) || is_in(name, turn) || is_free(name, body) || is_among(name, outputs)
}

/// A name that is this one.
#[derive(Clone, Copy)]
struct IsThis<'a> {
    name: &'a str,
}

impl NameTest for IsThis<'_> {
    ghost use Rattle.c_values.specs.Name.{same_name};

    ghost holds = { λ test x. same_name test.name.now x };

    fn holds(&self, name: &str) -> bool {
        self.name == name
    }
}

/// A name that is none of the binders'.
#[derive(Clone, Copy)]
struct IsUnknown<'a> {
    binders: &'a [Binder],
}

impl NameTest for IsUnknown<'_> {
    ghost use Rattle.std.specs.Prelude.{map, true};
    ghost use Rattle.expression_lang.specs.CodeSignature.{binder_of};
    ghost use Rattle.expression_lang.specs.Signature.{names_of};
    ghost use Rattle.rule_local.specs.CodeAssigned.{is_lost};

    ghost holds = { λ test x. is_lost (names_of (map binder_of test.binders.now)) (λ y. true) x };

    fn holds(&self, name: &str) -> bool {
        !is_bound(name, self.binders)
    }
}

// Whether some local that a command assigns passes a test. It goes along the last parts by a loop,
// since a text may have long sequences.
fn assigns_some<T: NameTest>(c: &Simpl, test: &T) -> bool
    ensures { result ≡ assigns_some (T.holds test.now) (simpl_of c.now) }
{
    let mut rest = c;
    'along: loop {
        match rest {
            Simpl::Skip | Simpl::Throw | Simpl::SetGlobal(_, _, _) | Simpl::Store(_, _, _, _) =>
                return false,
            Simpl::Set(name, _) | Simpl::Pick(name) => return test.holds(name.as_str()),
            Simpl::Call(target, _, _) => return target_passes(target, test),
            Simpl::Seq(first, last) | Simpl::Cond(_, first, last) | Simpl::Catch(first, last) => {
                if assigns_some(first, test) {
                    return true;
                }
                rest = &**last;
            }
            Simpl::Guard(_, last) | Simpl::While(_, _, last) => rest = &**last,
        }
    }
}

fn target_passes<T: NameTest>(target: &Option<String>, test: &T) -> bool
    ensures { result ≡ target_passes (T.holds test.now) (option_map string_bytes target.now) }
{
    match target {
        Some(name) => test.holds(name.as_str()),
        None => false,
    }
}

/// Whether each local that a command assigns and that is free in the program is among those handed
/// on.
pub(crate) fn carries_free(handed_on: &[String], c: &Simpl, program: &Mon) -> bool
    ensures { IsTrue result ↔ Carries (map string_bytes handed_on.now) (simpl_of c.now)
        (λ y. is_free y (mon_of program.now)) }
{
    !assigns_some(c, &IsLostAfterwards { handed_on, program })
}

/// Whether each local that a loop's body assigns and that is looked at again or afterwards is among
/// those handed on.
pub(crate) fn carries_needed(
    handed_on: &[String],
    c: &Simpl,
    guard: &Exp,
    turn: &Exp,
    body: &Mon,
    outputs: &[String],
) -> bool
    ensures { IsTrue result ↔ Carries (map string_bytes handed_on.now) (simpl_of c.now)
        (is_needed (exp_of guard.now) (exp_of turn.now) (mon_of body.now)
        (map string_bytes outputs.now)) }
{
    !assigns_some(
        c,
        &IsLostInTurns {
            handed_on,
            guard,
            turn,
            body,
            outputs,
        },
    )
}

/// Whether a command assigns the name.
pub(crate) fn assigns(name: &str, c: &Simpl) -> bool
    ensures { result ≡ assigns name.now (simpl_of c.now) }
{
    assigns_some(c, &IsThis { name })
}

/// Whether each local that a command assigns is a binder's.
pub(crate) fn assigns_only(binders: &[Binder], c: &Simpl) -> bool
    ensures { IsTrue result
        ↔ Carries (names_of (map binder_of binders.now)) (simpl_of c.now) (λ y. true) }
{
    !assigns_some(c, &IsUnknown { binders })
}
