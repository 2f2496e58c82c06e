//! What an expression has at a place: its constant, or the coefficient of an unknown.

ghost use Rattle.std.specs.Prelude.{◌≡◌, pos, if◌then◌else◌};
ghost use Rattle.c_values.specs.Number.{number_op};
ghost use Rattle.c_values.specs.CodeNumber.{number_op_of};
ghost use Rattle.expression_lang.specs.CodeExpression.{exp_of};
ghost use Rattle.ac_expr.specs.SameExp.{same_exp};
ghost use Rattle.entailment.specs.Linear.{of_unknown};
ghost use Rattle.entailment.specs.CodeSums.{at_literal, found, literal, narrow, of_two};
ghost use Rattle.entailment.specs.CodeInequality.{place_of};

use c_values::{Number, NumberOp, number_op};
use expression_lang::Exp;

/// The constant of an expression, or the coefficient of an unknown.
#[derive(Clone, Copy)]
pub(crate) enum Place<'a> {
    Constant,
    Unknown(&'a Exp),
}

// A number, which has 128 bits.
fn narrow(n: Number) -> Option<Number>
    ensures { result ≡ narrow n }
{
    let _magnitude = n.magnitude();
    Some(n)
}

/// The number zero or one.
pub(crate) fn small(one: bool) -> Number
    ensures { result ≡ (if one then pos 1 else pos 0) }
{
    Number::new(false, if one { 1 } else { 0 })
}

/// The exact result of an operation, where it is narrow.
pub(crate) fn calculated(op: NumberOp, a: Number, b: Number) -> Option<Number>
    ensures { result ≡ narrow (number_op (number_op_of op) a b) }
{
    match number_op(op, a, b) {
        Some(exact) => narrow(exact),
        None => None,
    }
}

/// The same of what is found.
pub(crate) fn of_two(op: NumberOp, a: Option<Number>, b: Option<Number>) -> Option<Number>
    ensures { result ≡ of_two (number_op (number_op_of op)) a b }
{
    calculated(op, a?, b?)
}

/// The number that an expression is.
pub(crate) fn literal(e: &Exp) -> Option<Number>
    ensures { result ≡ literal (exp_of e.now) }
{
    match e {
        Exp::Number(n) => Some(*n),
        _ => None,
    }
}

/// What a number has at a place.
pub(crate) fn of_literal(n: Number, place: &Place<'_>) -> Option<Number>
    ensures { result ≡ at_literal (place_of place.now) (narrow n) }
{
    let n = narrow(n)?;
    Some(match place {
        Place::Constant => n,
        Place::Unknown(_) => small(false),
    })
}

// Whether two expressions are the same, as a test.
fn is_same(a: &Exp, b: &Exp) -> bool
    ensures { result ≡ same_exp (exp_of a.now) (exp_of b.now) }
{
    a.same(b)
}

// What an unknown has at a place.
fn of_unknown(e: &Exp, place: &Place<'_>) -> Number
    ensures { result ≡ of_unknown (place_of place.now) (exp_of e.now) }
{
    match place {
        Place::Constant => small(false),
        Place::Unknown(unknown) => small(is_same(*unknown, e)),
    }
}

/// What an expression has at a place. There is none where some part's isn't narrow. It calls itself
/// no deeper than the expression goes.
pub(crate) fn coefficient(e: &Exp, place: &Place<'_>) -> Option<Number>
    ensures { result ≡ found (place_of place.now) (exp_of e.now) }
{
    match e {
        Exp::Number(n) => of_literal(*n, place),
        Exp::Arith(NumberOp::Add, a, b) => {
            of_two(NumberOp::Add, coefficient(a, place), coefficient(b, place))
        }
        Exp::Arith(NumberOp::Sub, a, b) => {
            of_two(NumberOp::Sub, coefficient(a, place), coefficient(b, place))
        }
        Exp::Arith(NumberOp::Mul, a, b) => match literal(a) {
            Some(n) => of_two(NumberOp::Mul, narrow(n), coefficient(b, place)),
            None => match literal(b) {
                Some(n) => of_two(NumberOp::Mul, narrow(n), coefficient(a, place)),
                None => Some(of_unknown(e, place)),
            },
        },
        Exp::Negate(a) => {
            let n = coefficient(a, place)?;
            calculated(NumberOp::Neg, n, n)
        }
        _ => Some(of_unknown(e, place)),
    }
}
