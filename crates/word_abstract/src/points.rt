//! Where expressions stand.

ghost use Rattle.std.specs.Prelude.{◌≡◌};
ghost use Rattle.std.specs.Option.{option_map};
ghost use Rattle.expression_lang.specs.CodeExpression.{exp_of, kind_of};
ghost use Rattle.expression_lang.specs.CodeSort.{sort_value};
ghost use Rattle.expression_lang.specs.Sort.{sort_of};
ghost use Rattle.rule_word.specs.Scopes.{names_in, width_in};
ghost use Rattle.rule_word.specs.WordsAbstracted.{or_zero};
ghost use Rattle.word_abstract.specs.CodePoints.{names_at, scope_at};

use crate::facts::{Conditions, Known};
use expression_lang::{Binder, Exp, Kind, Scalar, Sort, sort_of};
use rule_word::{Context, Kinds};

/// What is the same all over a function: whether words are to be numbers, its unit, and the kinds
/// of its locals.
#[derive(Clone, Copy)]
pub(crate) struct Setting<'a> {
    pub(crate) numbers: bool,
    pub(crate) context: Context<'a>,
    pub(crate) locals: &'a [Binder],
}

/// Where an expression stands.
#[derive(Clone, Copy)]
pub(crate) struct Point<'a> {
    pub(crate) setting: &'a Setting<'a>,
    pub(crate) names: &'a Kinds<'a>,
    pub(crate) known: Known<'a>,
    pub(crate) conditions: &'a Conditions<'a>,
}

impl<'a> Point<'a> {
    /// The sort of an expression, with words under the names.
    pub(crate) fn sort_of<'e>(&self, e: &'e Exp) -> Option<Sort<'e>>
    where
        'a: 'e,
        ensures { option_map sort_value result ≡ sort_of (scope_at self.now) (exp_of e.now) }
    {
        let context = self.setting.context;
        sort_of(e, self.names, context.layout, context.globals)
    }

    /// The width of a word, or 0.
    pub(crate) fn width(&self, e: &Exp) -> u8
        ensures { result ≡ or_zero (width_in (scope_at self.now) (exp_of e.now)) }
    {
        match self.sort_of(e) {
            Some(Sort::Of(Scalar::Word(width))) => width,
            _ => 0,
        }
    }

    /// The kind of a name.
    pub(crate) fn kind(&self, name: &str) -> Option<Kind>
        ensures { option_map kind_of result ≡ names_in (λ k. k) (names_at self.now) name.now }
    {
        self.names.get(name)
    }
}

/// Where a program stands.
#[derive(Clone, Copy)]
pub(crate) struct Scene<'a> {
    pub(crate) setting: &'a Setting<'a>,
    pub(crate) names: &'a Kinds<'a>,
    pub(crate) known: Known<'a>,
}
