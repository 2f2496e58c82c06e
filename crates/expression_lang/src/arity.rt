//! Expressions by what they have as parts.

ghost use Rattle.std.specs.Prelude.{◌≡◌};
ghost use Rattle.expression_lang.specs.CodeArity.{arity_of};
ghost use Rattle.expression_lang.specs.CodeExpression.{exp_of};

use crate::expression::Exp;

/// What an expression has as parts, and how its value comes from theirs.
#[derive(Clone, Copy, Debug, PartialEq, Eq)]
pub(crate) enum Arity {
    /// No part.
    Leaf,
    /// One operand.
    Unary,
    /// Two operands, both of which count.
    Binary,
    /// Two truth values, the first of which may decide.
    Connective,
    /// A truth value that chooses between two operands.
    Choice,
    /// An operand and a path from it.
    Place,
    /// A path from a global.
    Part,
    /// A value, a path from it, and what is put there.
    Update,
}

/// What an expression has as parts.
pub(crate) fn arity_in(e: &Exp) -> Arity
    ensures { result ≡ arity_of (exp_of e.now) }
{
    match e {
        Exp::Var(_) | Exp::Word(_) | Exp::Number(_) | Exp::Truth(_) => Arity::Leaf,
        Exp::WordUnary(_, _) | Exp::Cast(_, _, _) => Arity::Unary,
        Exp::ToNat(_) | Exp::ToInt(_) | Exp::ToWord(_, _) => Arity::Unary,
        Exp::Negate(_) | Exp::Between(_, _, _) | Exp::Not(_) => Arity::Unary,
        Exp::Tagged(_, _) | Exp::PtrOk(_, _) => Arity::Unary,
        Exp::WordBinary(_, _, _) | Exp::WordShift(_, _, _) => Arity::Binary,
        Exp::WordCompare(_, _, _) | Exp::Arith(_, _, _) => Arity::Binary,
        Exp::Lt(_, _) | Exp::Le(_, _) | Exp::Eq(_, _) => Arity::Binary,
        Exp::Padd(_, _, _) => Arity::Binary,
        Exp::And(_, _) | Exp::Or(_, _) | Exp::Imp(_, _) => Arity::Connective,
        Exp::If(_, _, _) => Arity::Choice,
        Exp::At(_, _, _) | Exp::Load(_, _, _) | Exp::Read(_, _, _) => Arity::Place,
        Exp::Sel(_, _) => Arity::Place,
        Exp::Global(_, _) => Arity::Part,
        Exp::Upd(_, _, _) => Arity::Update,
    }
}
