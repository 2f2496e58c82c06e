//! Expressions as programs hold them.

use crate::paths::Path;
use c_values::{CType, Number, NumberOp, ShiftOp, UnaryOp, Word, WordOp, WordTest};

/// To a larger width by the unsigned or the signed value, or to a smaller one.
#[derive(Clone, Copy, Debug, PartialEq, Eq)]
pub enum CastOp {
    Zext,
    Sext,
    Trunc,
}

/// An expression. Each has one value in an environment and a state (`specs/Evaluation`), and a sort
/// where it is well-sorted (`specs/Sort`).
#[derive(Debug)]
#[cycle(exp)]
pub enum Exp {
    /// A name's value.
    Var(String),
    Word(Word),
    Number(Number),
    Truth(bool),
    /// An operation on two words of one width.
    WordBinary(WordOp, Box<Exp>, Box<Exp>),
    /// A word, shifted by a number.
    WordShift(ShiftOp, Box<Exp>, Box<Exp>),
    WordUnary(UnaryOp, Box<Exp>),
    /// An order test of two words of one width.
    WordCompare(WordTest, Box<Exp>, Box<Exp>),
    /// A word at another width.
    Cast(CastOp, u8, Box<Exp>),
    /// The unsigned value of a word.
    ToNat(Box<Exp>),
    /// The signed value of a word.
    ToInt(Box<Exp>),
    /// A number modulo 2 to a width.
    ToWord(u8, Box<Exp>),
    /// An operation on two numbers.
    Arith(NumberOp, Box<Exp>, Box<Exp>),
    Negate(Box<Exp>),
    Lt(Box<Exp>, Box<Exp>),
    Le(Box<Exp>, Box<Exp>),
    /// Whether a number lies between two constants, both included.
    Between(Number, Box<Exp>, Number),
    /// Whether two values of one sort are equal.
    Eq(Box<Exp>, Box<Exp>),
    And(Box<Exp>, Box<Exp>),
    Or(Box<Exp>, Box<Exp>),
    Imp(Box<Exp>, Box<Exp>),
    Not(Box<Exp>),
    /// The second where the first holds, else the third.
    If(Box<Exp>, Box<Exp>, Box<Exp>),
    /// A pointer, and so many objects of a type further on.
    Padd(CType, Box<Exp>, Box<Exp>),
    /// The address of a place: a root of a type and a path into it.
    At(CType, Box<Exp>, Path),
    /// What the bytes at a place are.
    Load(CType, Box<Exp>, Path),
    /// What the heap has at a place.
    Read(CType, Box<Exp>, Path),
    /// Whether a root is covered.
    Tagged(CType, Box<Exp>),
    /// Whether a pointer is aligned, not null, and all of its object in the space.
    PtrOk(CType, Box<Exp>),
    /// A part of a global.
    Global(String, Path),
    /// A part of a value, in assertions alone.
    Sel(Box<Exp>, Path),
    /// A value with a part replaced, in assertions alone.
    Upd(Box<Exp>, Path, Box<Exp>),
}

// A derived drop would call itself once for each last part, and a text may have long chains of
// these.
impl Drop for Exp {
    #[cycle(drop_expression)]
    fn drop(mut self) {
        loop {
            match self {
                Exp::Var(_name) => return,
                Exp::Word(_) | Exp::Number(_) | Exp::Truth(_) => return,
                Exp::WordBinary(_, _a, last) => self = Box::into_inner(last),
                Exp::WordShift(_, _a, last) => self = Box::into_inner(last),
                Exp::WordUnary(_, last) => self = Box::into_inner(last),
                Exp::WordCompare(_, _a, last) => self = Box::into_inner(last),
                Exp::Cast(_, _, last) | Exp::ToWord(_, last) => self = Box::into_inner(last),
                Exp::ToNat(last) | Exp::ToInt(last) | Exp::Negate(last) | Exp::Not(last) => {
                    self = Box::into_inner(last);
                }
                Exp::Arith(_, _a, last) => self = Box::into_inner(last),
                Exp::Lt(_a, last) | Exp::Le(_a, last) | Exp::Eq(_a, last) => self = Box::into_inner(
                    last,
                ),
                Exp::Between(_, last, _) => self = Box::into_inner(last),
                Exp::And(_a, last) | Exp::Or(_a, last) | Exp::Imp(_a, last) => {
                    self = Box::into_inner(last);
                }
                Exp::If(_c, _a, last) => self = Box::into_inner(last),
                Exp::Padd(_ty, _p, last) => self = Box::into_inner(last),
                Exp::At(_ty, last, _path) | Exp::Load(_ty, last, _path) => self = Box::into_inner(
                    last,
                ),
                Exp::Read(_ty, last, _path) => self = Box::into_inner(last),
                Exp::Tagged(_ty, last) | Exp::PtrOk(_ty, last) => self = Box::into_inner(last),
                Exp::Global(_name, _path) => return,
                Exp::Sel(last, _path) => self = Box::into_inner(last),
                Exp::Upd(_whole, _path, last) => self = Box::into_inner(last),
            }
        }
    }
}
