//! Whether a value may be put into a program.

ghost use Rattle.std.specs.Prelude.{◌≡◌, ◌++◌, map, string_bytes};
ghost use Rattle.expression_lang.specs.CodeExpression.{exp_of};
ghost use Rattle.monad_lang.specs.CodeProgram.{mon_of};
ghost use Rattle.monad_lang.specs.Form.{can_be_put};

use expression_lang::Exp;
use monad_lang::{Mon, is_among};
use rule_parts::captures;

/// Whether a value can stand in a program in place of its name, which is bound with the names before
/// it and after it: a constant always, a variable where it is none of these and isn't captured.
#[tactic(auto, using(crate::proofs::Putting::variable_put))]
pub fn can_be_put(value: &Exp, name: &str, before: &[String], after: &[String], m: &Mon) -> bool
    ensures { result ≡ can_be_put (exp_of value.now) name.now
        (map string_bytes before.now ++ map string_bytes after.now) (mon_of m.now) }
{
    match value {
        Exp::Word(_) | Exp::Number(_) | Exp::Truth(_) => true,
        Exp::Var(own) => !is_among(own, before)
            && !is_among(own, after)
            && !captures(value, name, m),
        _ => false,
    }
}
