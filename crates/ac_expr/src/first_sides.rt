//! Whether two expressions are the same, where most that are compared are long sums that differ at
//! their bottom: these are told apart by how long they are.

ghost use Rattle.std.specs.Prelude.{◌≡◌, ◌<◌, ◌↔◌, IsTrue, IfSome};
ghost use Rattle.std.specs.Option.{option_map};
ghost use Rattle.expression_lang.specs.declared.expression.Exp.{size-Exp};
ghost use Rattle.expression_lang.specs.CodeExpression.{exp_of};
ghost use Rattle.ac_expr.specs.CodeFirstSides.{first_side};

use expression_lang::Exp;

// The first side of an operation on two.
fn first_side(e: &Exp) -> Option<&Exp>
    ensures same { option_map (λ a. exp_of a.now) result ≡ first_side (exp_of e.now) }
    ensures smaller { IfSome result (λ a. size-Exp a.now < size-Exp e.now) }
{
    match e {
        Exp::WordBinary(_, a, _) | Exp::Arith(_, a, _) | Exp::And(a, _) => Some(&**a),
        _ => None,
    }
}

// Whether the first sides of both go as far down: else they are not the same.
#[tactic(auto, using(crate::proofs::FirstSides::sides_same, crate::proofs::FirstSides::first_alone, crate::proofs::FirstSides::second_alone))]
fn are_as_long(a: &Exp, b: &Exp) -> bool
    ensures { exp_of a.now ≡ exp_of b.now → IsTrue result }
{
    let mut left = a;
    let mut right = b;
    'down: loop {
        match first_side(left) {
            Some(x) => match first_side(right) {
                Some(y) => {
                    left = x;
                    right = y;
                }
                None => return false,
            },
            None => return first_side(right).is_none(),
        }
    }
}

/// Whether two expressions are the same.
pub(crate) fn is_same(a: &Exp, b: &Exp) -> bool
    ensures { IsTrue result ↔ (exp_of a.now ≡ exp_of b.now) }
{
    are_as_long(a, b) && a.same(b)
}
