//! Tests of the heads of expressions.

ghost use Rattle.std.specs.Prelude.{◌≡◌};
ghost use Rattle.c_values.specs.CodeWord.{word_op_of, unary_op_of};
ghost use Rattle.expression_lang.specs.Form.{is_load, is_read, is_part_of_value, is_arithmetic, is_negation, is_word_arithmetic};
ghost use Rattle.expression_lang.specs.Mentions.{is_name, is_reading};

use crate::expression::Exp;
use crate::searching::Test;
use c_values::{UnaryOp, WordOp};

/// A name.
#[derive(Clone, Copy)]
pub struct IsName<'a> {
    pub name: &'a str,
}

impl Test for IsName<'_> {
    ghost holds = { λ test e. is_name test.name.now e };

    fn holds(&self, e: &Exp) -> bool {
        match e {
            Exp::Var(name) => self.name == name.as_str(),
            _ => false,
        }
    }
}

/// A look at the state: a load, a read or a global.
#[derive(Clone, Copy)]
pub struct IsReading;

impl Test for IsReading {
    ghost holds = { λ _ e. is_reading e };

    fn holds(&self, e: &Exp) -> bool {
        matches!(
            e,
            Exp::Load(_, _, _) | Exp::Read(_, _, _) | Exp::Global(_, _)
        )
    }
}

/// A look at bytes.
#[derive(Clone, Copy)]
pub struct IsLoad;

impl Test for IsLoad {
    ghost holds = { λ _ e. is_load e };

    fn holds(&self, e: &Exp) -> bool {
        matches!(e, Exp::Load(_, _, _))
    }
}

/// A look at the typed heaps.
#[derive(Clone, Copy)]
pub struct IsRead;

impl Test for IsRead {
    ghost holds = { λ _ e. is_read e };

    fn holds(&self, e: &Exp) -> bool {
        matches!(e, Exp::Read(_, _, _))
    }
}

/// A part of a value, or a value with a part replaced: in assertions alone.
#[derive(Clone, Copy)]
pub struct IsPartOfValue;

impl Test for IsPartOfValue {
    ghost holds = { λ _ e. is_part_of_value e };

    fn holds(&self, e: &Exp) -> bool {
        matches!(e, Exp::Sel(_, _) | Exp::Upd(_, _, _))
    }
}

/// A sum, difference, product, quotient, remainder, negation or order test of words.
#[derive(Clone, Copy)]
pub struct IsWordArithmetic;

impl Test for IsWordArithmetic {
    ghost holds = { λ _ e. is_word_arithmetic e };

    fn holds(&self, e: &Exp) -> bool {
        match e {
            Exp::WordBinary(op, _, _) => is_arithmetic(*op),
            Exp::WordUnary(op, _) => is_negation(*op),
            Exp::WordCompare(_, _, _) => true,
            _ => false,
        }
    }
}

fn is_arithmetic(op: WordOp) -> bool
    ensures { result ≡ is_arithmetic (word_op_of op) }
{
    !matches!(op, WordOp::Wand | WordOp::Wor | WordOp::Wxor)
}

fn is_negation(op: UnaryOp) -> bool
    ensures { result ≡ is_negation (unary_op_of op) }
{
    matches!(op, UnaryOp::Wneg)
}
