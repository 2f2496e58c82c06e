//! What an assertion says before a part of a global is written.

ghost use Rattle.std.specs.Prelude.{◌≡◌, ◌↔◌, IsTrue, IfNone, IfSome, true, false};
ghost use Rattle.expression_lang.specs.Expression.{Global, Here};
ghost use Rattle.expression_lang.specs.CodeExpression.{exp_of, path_of};
ghost use Rattle.ac_expr.specs.Heads.{children, head};
ghost use Rattle.assertion_walks.specs.CodeRebuilt.{parts_in};
ghost use Rattle.assertion_walks.specs.CodeWritten.{is_of_global};
ghost use Rattle.assertion_walks.specs.Written.{IsBeforeGlobal, replaced};

use crate::peeling::peeled;
use crate::rebuilding::{Parts, Remaking, is_rebuilt, own_parts};
use crate::replacing::{Replaced, replaced_in};
use expression_lang::{Exp, Path};

// A value that is written to a part of a global.
#[derive(Clone, Copy)]
struct GlobalWriting<'w> {
    name: &'w str,
    path: &'w Path,
    value: &'w Exp,
}

impl GlobalWriting<'_> {
    // The path of a part of the global.
    fn way<'a>(&self, e: &'a Exp) -> Option<&'a Path>
        ensures some { IfSome result (λ way. (y : _) × (exp_of e.now ≡ Global y (path_of way.now))
            × (is_of_global self.now.name.now (exp_of e.now) ≡ true)) }
        ensures none { IfNone result (is_of_global self.now.name.now (exp_of e.now) ≡ false) }
    {
        match e {
            Exp::Global(name, way) if self.name == name.as_str() => Some(way),
            _ => None,
        }
    }

    // Whether an expression is the global with the part replaced.
    fn is_global_after(&self, e: &Exp) -> bool
        ensures { IsTrue result ↔ (exp_of e.now ≡ replaced (Global self.now.name.now Here)
            (path_of self.now.path.now) (exp_of self.now.value.now)) }
    {
        match replaced_in(self.path, self.value, e) {
            Replaced::Nowhere => false,
            Replaced::Anywhere => true,
            Replaced::Only(whole) => match whole {
                Exp::Global(name, Path::Here) => self.name == name.as_str(),
                _ => false,
            },
        }
    }
}

impl Remaking for GlobalWriting<'_> {
    ghost use Rattle.std.specs.Prelude.{◌≡◌};
    ghost use Rattle.expression_lang.specs.CodeExpression.{exp_of, path_of};
    ghost use Rattle.assertion_walks.specs.Written.{global_before};

    ghost Changes = { λ it a b.
        b ≡ global_before it.name.now (path_of it.path.now) (exp_of it.value.now) a };

    fn unmade<'a>(&self, e: &'a Exp, other: &'a Exp) -> Option<Parts<'a>> {
        match self.way(e) {
            Some(way) => match peeled(way, other) {
                Some(whole) => {
                    if self.is_global_after(whole) {
                        Some(Parts::Steps(way, other))
                    } else {
                        None
                    }
                }
                None => None,
            },
            None => own_parts(e, other),
        }
    }
}

/// Whether the second expression is what the first says before the value is written to the part of
/// the global.
pub fn is_before_global(name: &str, path: &Path, value: &Exp, after: &Exp, before: &Exp) -> bool
    ensures { IsTrue result ↔ IsBeforeGlobal name.now (path_of path.now) (exp_of value.now)
        (exp_of after.now) (exp_of before.now) }
{
    is_rebuilt(&GlobalWriting { name, path, value }, after, before)
}
