//! Whether the free names of a program are parameters.

ghost use Rattle.std.specs.Prelude.{◌↔◌, IsTrue, map};
ghost use Rattle.expression_lang.specs.CodeSignature.{binder_of};
ghost use Rattle.expression_lang.specs.Signature.{names_of};
ghost use Rattle.monad_lang.specs.CodeProgram.{mon_of};
ghost use Rattle.rule_local.specs.Table.{AllFreeAmong};
ghost use Rattle.rule_local.specs.CodeFree.{is_stray};

use expression_lang::{Binder, Exp, Test};
use monad_lang::{Mon, NoPlace, is_free};
use simpl_lang::is_bound;

/// A name that is no parameter, and free in the program.
#[derive(Clone, Copy)]
struct IsStray<'a> {
    program: &'a Mon,
    parameters: &'a [Binder],
}

impl Test for IsStray<'_> {
    ghost use Rattle.std.specs.Prelude.{map};
    ghost use Rattle.expression_lang.specs.CodeSignature.{binder_of};
    ghost use Rattle.expression_lang.specs.Signature.{names_of};
    ghost use Rattle.monad_lang.specs.CodeProgram.{mon_of};
    ghost use Rattle.rule_local.specs.CodeFree.{is_stray};

    ghost holds = { λ test e.
        is_stray (mon_of test.program.now) (names_of (map binder_of test.parameters.now)) e };

    fn holds(&self, e: &Exp) -> bool {
        match e {
            Exp::Var(name) => {
                !is_bound(name.as_str(), self.parameters) && is_free(name.as_str(), self.program)
            }
            _ => false,
        }
    }
}

/// Whether the free names of a program are parameters. Each name in the program is looked at, since
/// there is no memory to keep names in.
pub(crate) fn are_free_parameters(m: &Mon, parameters: &[Binder]) -> bool
    ensures { IsTrue result
        ↔ AllFreeAmong (names_of (map binder_of parameters.now)) (mon_of m.now) }
{
    !m.any(
        &IsStray {
            program: m,
            parameters,
        },
        &NoPlace,
    )
}

/// A name that is none of the binders'.
#[derive(Clone, Copy)]
struct IsUnknown<'a> {
    binders: &'a [Binder],
}

impl Test for IsUnknown<'_> {
    ghost use Rattle.std.specs.Prelude.{map};
    ghost use Rattle.expression_lang.specs.CodeSignature.{binder_of};
    ghost use Rattle.expression_lang.specs.Signature.{names_of};
    ghost use Rattle.rule_local.specs.CodeFree.{is_unknown};

    ghost holds = { λ test e. is_unknown (names_of (map binder_of test.binders.now)) e };

    fn holds(&self, e: &Exp) -> bool {
        match e {
            Exp::Var(name) => !is_bound(name.as_str(), self.binders),
            _ => false,
        }
    }
}

/// Whether each name in a program is a binder's, free or not.
pub(crate) fn names_only(binders: &[Binder], m: &Mon) -> bool
    ensures { IsTrue result → AllFreeAmong (names_of (map binder_of binders.now)) (mon_of m.now) }
{
    !m.any(&IsUnknown { binders }, &NoPlace)
}
