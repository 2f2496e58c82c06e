//! Whether some part of an expression, itself among them, passes a test.

ghost use Rattle.std.specs.Prelude.{◌≡◌, Bool};
ghost use Rattle.expression_lang.specs.Expression as plain;
ghost use Rattle.expression_lang.specs.CodeExpression.{exp_of, path_of};
ghost use Rattle.expression_lang.specs.Form.{has, path_has};

use crate::expression::Exp;
use crate::paths::Path;
use crate::shape::{Shape, shape_of};

/// A test of expressions.
pub trait Test {
    ghost holds: { Self → plain.Exp → Bool };

    /// Whether an expression passes.
    fn holds(&self, e: &Exp) -> bool
        ensures { result ≡ holds self.now (exp_of e.now) };
}

impl Exp {
    /// Whether some part passes a test, the expression itself included. It goes along the last
    /// parts by a loop.
    #[cycle(any)]
    #[tactic(auto, using(crate::proofs::HasShape::has_shape, crate::proofs::HasShape::has_itself))]
    pub fn any<T: Test>(&self, test: &T) -> bool
        ensures { result ≡ has (T.holds test.now) (exp_of self.now) }
    {
        let mut rest = self;
        'along: loop {
            if test.holds(rest) {
                return true;
            }
            match shape_of(rest) {
                Shape::Leaf(_) => return false,
                Shape::Global(_, path) => return path.any(test),
                Shape::One(_, last) => rest = last,
                Shape::Between(_, last, _) => rest = last,
                Shape::Root(_, _, last) => rest = last,
                Shape::Two(_, a, last) => {
                    if a.any(test) {
                        return true;
                    }
                    rest = last;
                }
                Shape::Padd(_, p, last) => {
                    if p.any(test) {
                        return true;
                    }
                    rest = last;
                }
                Shape::If(c, a, last) => {
                    if c.any(test) || a.any(test) {
                        return true;
                    }
                    rest = last;
                }
                Shape::Place(_, _, last, path) => {
                    if path.any(test) {
                        return true;
                    }
                    rest = last;
                }
                Shape::Sel(last, path) => {
                    if path.any(test) {
                        return true;
                    }
                    rest = last;
                }
                Shape::Upd(whole, path, last) => {
                    if whole.any(test) || path.any(test) {
                        return true;
                    }
                    rest = last;
                }
            }
        }
    }
}

impl Path {
    /// Whether some part of an index passes a test.
    #[cycle(any)]
    pub fn any<T: Test>(&self, test: &T) -> bool
        ensures { result ≡ path_has (T.holds test.now) (path_of self.now) }
    {
        let mut rest = self;
        'along: loop {
            match rest {
                Path::Here => return false,
                Path::Field(_, next) => rest = &**next,
                Path::Index(index, next) => {
                    if index.any(test) {
                        return true;
                    }
                    rest = &**next;
                }
            }
        }
    }
}
