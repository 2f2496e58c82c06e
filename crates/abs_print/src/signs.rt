//! Signs between operands.

ghost use Rattle.std.specs.Prelude.{◌≡◌, Some, MatchOption, None};
ghost use Rattle.c_values.specs.CodeNumber.{number_op_of};
ghost use Rattle.expression_lang.specs.CodeShape.{ArithTwo};
ghost use Rattle.expression_lang.specs.CodeShapeView.{two_in};
ghost use Rattle.abs_print.specs.Expressions.{sign};

use c_values::NumberOp;
use expression_lang::Two;

/// The sign between two operands, where there is one.
pub(crate) fn sign(two: Two) -> Option<&'static str>
    ensures { MatchOption result (sign (two_in two) ≡ None) (λ s. sign (two_in two) ≡ Some s.now) }
{
    match two {
        Two::Arith(op) => number_sign(op),
        Two::Lt => Some("<"),
        Two::Le => Some("<="),
        Two::Eq => Some("="),
        Two::And => Some("&"),
        Two::Or => Some("|"),
        Two::Imp => Some("==>"),
        Two::WordBinary(_) | Two::WordShift(_) | Two::WordCompare(_) => None,
    }
}

fn number_sign(op: NumberOp) -> Option<&'static str>
    ensures { let two = ArithTwo (number_op_of op) in
        MatchOption result (sign two ≡ None) (λ s. sign two ≡ Some s.now) }
{
    match op {
        NumberOp::Add => Some("+"),
        NumberOp::Sub => Some("-"),
        NumberOp::Mul => Some("*"),
        NumberOp::Div => Some("/"),
        NumberOp::Mod => Some("%"),
        NumberOp::Neg => None,
    }
}
