//! How large generated functions may be.

ghost use Rattle.std.specs.Prelude.{◌≡◌};
ghost use Rattle.simpl_lang.specs.CodeCommand.{simpl_fn_of, simpl_unit_of};
ghost use Rattle.ac_core.specs.Written.{has_long_function, is_long};
ghost use Rattle.ac_core.specs.CodeTasks.{are_few, has_few_locals};

use simpl_lang::{SimplFn, SimplUnit, commands};

/// The most commands that a generated function may have.
const COMMANDS_LIMIT: u64 = 800;

/// Whether some function has more commands than it may have.
pub(crate) fn has_long_function(u: &SimplUnit) -> bool
    ensures { result ≡ has_long_function (simpl_unit_of u.now) }
{
    let mut rest = u.functions.as_slice();
    'functions: while let Some((f, others)) = rest.split_first() {
        if is_long(f) {
            return true;
        }
        rest = others;
    }
    false
}

#[tactic(auto, using(crate::proofs::LongFunctions::beyond_limit))]
fn is_long(f: &SimplFn) -> bool
    ensures { result ≡ is_long (simpl_fn_of f.now) }
{
    commands(&f.body) > COMMANDS_LIMIT
}

/// Whether each function has so few locals that a position among them has 32 bits. More of them don't
/// stand in memory.
pub(crate) fn has_few_locals(u: &SimplUnit) -> bool
    ensures { result ≡ has_few_locals (simpl_unit_of u.now) }
{
    let mut rest = u.functions.as_slice();
    'functions: while let Some((f, others)) = rest.split_first() {
        if !are_few(f) {
            return false;
        }
        rest = others;
    }
    true
}

fn are_few(f: &SimplFn) -> bool
    ensures { result ≡ are_few (simpl_fn_of f.now) }
{
    f.locals.len() <= 0x1_0000_0000
}
