//! Expressions one after the other.

ghost use Rattle.std.specs.Prelude.{◌≡◌, [], ◌∷◌, IfSome, IfNone};
ghost use Rattle.expression_lang.specs.CodeExpression.{exp_of};
ghost use Rattle.rule_parts.specs.CodeExps.{exps_in};

use ac_expr::Children;
use expression_lang::Exp;
use monad_lang::Start;

/// Expressions one after the other.
#[derive(Clone, Copy)]
pub enum Exps<'a> {
    Children(Children<'a>),
    /// Those that a loop's names begin with.
    Starts(&'a [Start]),
}

impl<'a> Exps<'a> {
    /// The first, and those behind it.
    pub fn next(self) -> Option<(&'a Exp, Exps<'a>)>
        ensures some { IfSome result (λ (first, rest). exps_in self.entry
            ≡ exp_of first.now ∷ exps_in rest) }
        ensures none { IfNone result (exps_in self.entry ≡ []) }
    {
        match self {
            Exps::Children(children) => match children.next() {
                Some((first, rest)) => Some((first, Exps::Children(rest))),
                None => None,
            },
            Exps::Starts(starts) => match starts.split_first() {
                Some((first, rest)) => Some((&first.exp, Exps::Starts(rest))),
                None => None,
            },
        }
    }
}
