//! Whether an expression is what stands for a word, seen so, which isn't built.

ghost use Rattle.std.specs.Prelude.{◌≡◌, ◌↔◌, IsTrue};
ghost use Rattle.expression_lang.specs.Expression as plain;
ghost use Rattle.expression_lang.specs.CodeExpression.{exp_of};
ghost use Rattle.rule_trees.specs.RuleTree.{Tree};
ghost use Rattle.rule_word.specs.Rule.{Rule as Named};
ghost use Rattle.word_abstract.specs.CodeMeaning.{seen_at, constant_seen, extended_seen};
ghost use Rattle.word_abstract.specs.CodeViews.{seen_of, base_of};

use crate::views::{Base, Seen};
use c_values::{Number, Word, int, nat, same_number};
use expression_lang::Exp;

fn is_to_natural(x: &Exp, e: &Exp) -> bool
    ensures { IsTrue result ↔ (exp_of e.now ≡ plain.ToNat (exp_of x.now)) }
{
    match e {
        Exp::ToNat(a) => a.same(x),
        _ => false,
    }
}

fn is_to_integer(x: &Exp, e: &Exp) -> bool
    ensures { IsTrue result ↔ (exp_of e.now ≡ plain.ToInt (exp_of x.now)) }
{
    match e {
        Exp::ToInt(a) => a.same(x),
        _ => false,
    }
}

fn is_to_word(width: u8, x: &Exp, e: &Exp) -> bool
    ensures { IsTrue result ↔ (exp_of e.now ≡ plain.ToWord width (exp_of x.now)) }
{
    match e {
        Exp::ToWord(own, a) => *own == width && a.same(x),
        _ => false,
    }
}

fn is_natural_of_word(width: u8, x: &Exp, e: &Exp) -> bool
    ensures { IsTrue result ↔ (exp_of e.now ≡ plain.ToNat (plain.ToWord width (exp_of x.now))) }
{
    match e {
        Exp::ToNat(a) => is_to_word(width, x, a),
        _ => false,
    }
}

fn is_integer_of_word(width: u8, x: &Exp, e: &Exp) -> bool
    ensures { IsTrue result ↔ (exp_of e.now ≡ plain.ToInt (plain.ToWord width (exp_of x.now))) }
{
    match e {
        Exp::ToInt(a) => is_to_word(width, x, a),
        _ => false,
    }
}

/// Whether it is what stands for a word of the width at a base, seen so.
pub(crate) fn is_seen_at(base: Base, width: u8, view: Seen, x: &Exp, e: &Exp) -> bool
    ensures { (t : Tree Named) → (IsTrue result
        ↔ (exp_of e.now ≡ (seen_at (base_of base) width (seen_of view)
        (record { right = exp_of x.now; tree = t })).right)) }
{
    match base {
        Base::Words => match view {
            Seen::AsWord => e.same(x),
            Seen::AsNatural => is_to_natural(x, e),
            Seen::AsInteger => is_to_integer(x, e),
        },
        Base::Naturals => match view {
            Seen::AsWord => is_to_word(width, x, e),
            Seen::AsNatural => e.same(x),
            Seen::AsInteger => is_integer_of_word(width, x, e),
        },
        Base::Integers => match view {
            Seen::AsWord => is_to_word(width, x, e),
            Seen::AsNatural => is_natural_of_word(width, x, e),
            Seen::AsInteger => e.same(x),
        },
    }
}

/// Whether an expression is a number's numeral.
pub(crate) fn is_numeral(n: Number, e: &Exp) -> bool
    ensures { IsTrue result ↔ (exp_of e.now ≡ plain.NumberLit n) }
{
    match e {
        Exp::Number(m) => same_number(*m, n),
        _ => false,
    }
}

fn is_word(word: Word, e: &Exp) -> bool
    ensures { IsTrue result ↔ (exp_of e.now ≡ plain.WordLit word) }
{
    match e {
        Exp::Word(own) => *own == word,
        _ => false,
    }
}

/// Whether it is a word's constant, seen so.
pub(crate) fn is_constant_seen(view: Seen, word: Word, e: &Exp) -> bool
    ensures { IsTrue result ↔ (exp_of e.now ≡ (constant_seen (seen_of view) word).right) }
{
    match view {
        Seen::AsWord => is_word(word, e),
        Seen::AsNatural => is_numeral(nat(word), e),
        Seen::AsInteger => is_numeral(int(word), e),
    }
}

/// Whether it is an extended word, seen so.
pub(crate) fn is_extended_seen(view: Seen, width: u8, x: &Exp, e: &Exp) -> bool
    ensures { (t : Tree Named) → (IsTrue result
        ↔ (exp_of e.now ≡ (extended_seen (seen_of view) width
        (record { right = exp_of x.now; tree = t })).right)) }
{
    match view {
        Seen::AsWord => is_to_word(width, x, e),
        Seen::AsNatural | Seen::AsInteger => e.same(x),
    }
}
