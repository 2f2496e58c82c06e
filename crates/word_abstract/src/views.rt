//! The ways in which a word is seen, and what it may stand for.

ghost use Rattle.std.specs.Prelude.{◌≡◌};
ghost use Rattle.expression_lang.specs.CodeExpression.{kind_of};
ghost use Rattle.rule_word.specs.Bases.{kind_at_base, first_base};
ghost use Rattle.word_abstract.specs.CodeMeaning.{seen_for};
ghost use Rattle.word_abstract.specs.CodeViews.{seen_of, base_of};

use expression_lang::Kind;

/// How a word is seen.
#[derive(Clone, Copy, PartialEq, Eq)]
pub(crate) enum Seen {
    AsWord,
    AsNatural,
    AsInteger,
}

/// What a word stands for: itself, or one of its two numbers.
#[derive(Clone, Copy, PartialEq, Eq)]
pub(crate) enum Base {
    Words,
    Naturals,
    Integers,
}

/// How what is of a kind is seen.
pub(crate) fn seen_for(kind: Kind) -> Seen
    ensures { seen_of result ≡ seen_for (kind_of kind) }
{
    match kind {
        Kind::Word(_) | Kind::Bool => Seen::AsWord,
        Kind::Nat(_) => Seen::AsNatural,
        Kind::Int(_) => Seen::AsInteger,
    }
}

/// The kind of words of a width at a base.
pub(crate) fn kind_at(base: Base, width: u8) -> Kind
    ensures { kind_of result ≡ kind_at_base (base_of base) width }
{
    match base {
        Base::Words => Kind::Word(width),
        Base::Naturals => Kind::Nat(width),
        Base::Integers => Kind::Int(width),
    }
}

/// The first base at which there are numbers.
pub(crate) fn first_base(a: Base, b: Base) -> Base
    ensures { base_of result ≡ first_base (base_of a) (base_of b) }
{
    match a {
        Base::Words => b,
        Base::Naturals => Base::Naturals,
        Base::Integers => Base::Integers,
    }
}
