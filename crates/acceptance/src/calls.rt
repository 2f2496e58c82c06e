//! Which functions a command calls.

ghost use Rattle.std.specs.Prelude.{◌≡◌, map};
ghost use Rattle.expression_lang.specs.Signature as plain;
ghost use Rattle.expression_lang.specs.CodeExpression.{level_of};
ghost use Rattle.expression_lang.specs.CodeSignature.{signature_of};
ghost use Rattle.simpl_lang.specs.CodeCommand.{simpl_of, simpl_unit_of};
ghost use Rattle.acceptance.specs.Accepted.{calls_only, calls_lifted, is_lifted_there};

use expression_lang::{Level, Signature};
use program_sorts::signature;
use simpl_lang::{Simpl, SimplUnit};

/// Whether a function of the level may have this body: no function on typed heaps calls one on
/// bytes, or one that isn't there.
pub fn calls_lifted(u: &SimplUnit, level: Level, body: &Simpl) -> bool
    ensures { result ≡ calls_lifted (simpl_unit_of u.now) (level_of level) (simpl_of body.now) }
{
    match level {
        Level::Bytes => true,
        Level::Words | Level::Numbers => calls_only_lifted(&u.signatures, body),
    }
}

fn calls_only_lifted(signatures: &[Signature], body: &Simpl) -> bool
    ensures { result ≡ calls_only (λ f. is_lifted_there
        (plain.signature (map signature_of signatures.now) f)) (simpl_of body.now) }
{
    let mut rest = body;
    'down: loop {
        match rest {
            Simpl::Skip
            | Simpl::Throw
            | Simpl::Set(_, _)
            | Simpl::SetGlobal(_, _, _)
            | Simpl::Store(_, _, _, _)
            | Simpl::Pick(_) => return true,
            Simpl::Call(_, f, _) => return is_lifted(signatures, f.as_str()),
            Simpl::Seq(first, last) | Simpl::Cond(_, first, last) | Simpl::Catch(first, last) => {
                if !calls_only_lifted(signatures, first) {
                    return false;
                }
                rest = &**last;
            }
            Simpl::Guard(_, last) | Simpl::While(_, _, last) => rest = &**last,
        }
    }
}

// Whether there is a function of the name, and it is on typed heaps.
fn is_lifted(signatures: &[Signature], name: &str) -> bool
    ensures { result ≡ is_lifted_there
        (plain.signature (map signature_of signatures.now) name.now) }
{
    match signature(signatures, name) {
        Some(s) => matches!(s.level, Level::Words | Level::Numbers),
        None => false,
    }
}
