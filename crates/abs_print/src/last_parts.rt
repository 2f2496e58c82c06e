//! The last parts of expressions, and what stands behind them.

ghost use Rattle.std.specs.Prelude.{◌≡◌};
ghost use Rattle.expression_lang.specs.declared.expression.Exp.{size-Exp};
ghost use Rattle.expression_lang.specs.CodeExpression.{exp_of};
ghost use Rattle.expression_lang.specs.CodeShape.{shape_of};
ghost use Rattle.abs_print.specs.CodeFronts.{behind};
ghost use Rattle.abs_print.specs.CodeLast.{last_in, LastIsSmaller};

use crate::endings::Ending;
use expression_lang::{Exp, Shape, shape_of};

/// What stands behind the front of an expression.
#[derive(Clone, Copy)]
pub(crate) enum Left<'a> {
    Nothing,
    /// The last part, and the end of its list.
    Last(&'a Exp, Ending),
}

/// What stands behind an expression's front, which is all of it where there are steps behind the
/// last part, or no part.
pub(crate) fn behind(e: &Exp) -> Left<'_>
    ensures same { last_in result ≡ behind (shape_of (exp_of e.now)) }
    ensures smaller { LastIsSmaller result (size-Exp e.now) }
{
    match shape_of(e) {
        Shape::Leaf(_) | Shape::Place(_, _, _, _) | Shape::Global(_, _) | Shape::Sel(_, _) => {
            Left::Nothing
        }
        Shape::One(_, last) => Left::Last(last, Ending::List),
        Shape::Two(_, _, last) => Left::Last(last, Ending::List),
        Shape::If(_, _, last) => Left::Last(last, Ending::List),
        Shape::Padd(_, _, last) => Left::Last(last, Ending::List),
        Shape::Root(_, _, last) => Left::Last(last, Ending::List),
        Shape::Upd(_, _, last) => Left::Last(last, Ending::List),
        Shape::Between(_, last, high) => Left::Last(last, Ending::AtMost(high)),
    }
}
