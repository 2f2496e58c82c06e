//! Values with a part replaced.

ghost use Rattle.expression_lang.specs.Expression as plain;
ghost use Rattle.expression_lang.specs.CodeExpression.{exp_of, path_of};
ghost use Rattle.assertion_walks.specs.CodeWritten.{SaysOfWhole};

use expression_lang::{Exp, Path};

/// Of which values an expression is the one with a part replaced.
#[derive(Clone, Copy)]
pub(crate) enum Replaced<'a> {
    Nowhere,
    Anywhere,
    Only(&'a Exp),
}

/// Of which values an expression is the one with the part at the path replaced by this value.
pub(crate) fn replaced_in<'a>(path: &Path, value: &Exp, e: &'a Exp) -> Replaced<'a>
    ensures { (whole : plain.Exp) → SaysOfWhole result (path_of path.now) (exp_of value.now)
        (exp_of e.now) whole }
{
    if let Path::Here = path {
        return if e.same(value) {
            Replaced::Anywhere
        } else {
            Replaced::Nowhere
        };
    }
    match e {
        Exp::Upd(whole, own, part) if own.same(path) && part.same(value) => {
            Replaced::Only(&**whole)
        }
        _ => Replaced::Nowhere,
    }
}
