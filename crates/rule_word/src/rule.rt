//! The rules that make numbers of words, by name, and where they are taken.

use crate::kinds::Kinds;
use crate::passed::Passed;
use ac_expr::Facts;
use c_values::{GlobalVar, Layout};
use expression_lang::{Kind, Signature};

/// A rule. What it asks of two programs or of two expressions is defined in `specs/Table`.
#[derive(Debug)]
pub enum Rule {
    Ret,
    Guard,
    If,
    Global,
    Pick,
    Write,
    /// With the kinds of the names.
    Bind(Vec<Kind>),
    /// With the kinds of the names.
    Loop(Vec<Kind>),
    Call,
    PickNat,
    PickInt,
    /// With the kinds before.
    Recast(Vec<Kind>),
    Var,
    Const,
    Nat,
    Int,
    /// With the kind whose number is made a word.
    Word(Kind),
    Unat,
    Sint,
    Add,
    Sub,
    Mul,
    Neg,
    Udiv,
    Umod,
    Sdiv,
    Smod,
    Order,
    /// With the kind that both sides have on the right.
    Eq(Kind),
    Zext,
    Sext,
    Logic,
    Cond,
    Op,
}

// A derived drop would be written out wherever a rule may be let go.
impl Drop for Rule {
    fn drop(self) {
        match self {
            Rule::Bind(_kinds) | Rule::Loop(_kinds) | Rule::Recast(_kinds) => {}
            Rule::Word(_) | Rule::Eq(_) => {}
            Rule::Ret | Rule::Guard | Rule::If | Rule::Global | Rule::Pick | Rule::Write => {}
            Rule::Call | Rule::PickNat | Rule::PickInt | Rule::Var | Rule::Const => {}
            Rule::Nat | Rule::Int | Rule::Unat | Rule::Sint => {}
            Rule::Add | Rule::Sub | Rule::Mul | Rule::Neg => {}
            Rule::Udiv | Rule::Umod | Rule::Sdiv | Rule::Smod => {}
            Rule::Order | Rule::Zext | Rule::Sext | Rule::Logic | Rule::Cond | Rule::Op => {}
        }
    }
}

/// How the value of an expression is seen on the right.
#[derive(Clone, Copy, Debug, PartialEq, Eq)]
pub enum View {
    /// As it is, whatever its sort.
    AsIs,
    /// A word of so many bits by its unsigned value.
    Unsigned(u8),
    /// A word of so many bits by its signed value.
    Signed(u8),
}

/// What is the same all over a unit: its functions are told with the kinds that they have on the
/// right.
#[derive(Clone, Copy)]
pub struct Context<'a> {
    pub layout: &'a Layout,
    pub globals: &'a [GlobalVar],
    pub functions: &'a [Signature],
}

/// What is known where the two sides stand, and the names in scope there.
#[derive(Clone, Copy)]
pub struct Point<'a> {
    pub facts: &'a Facts<'a, Passed<'a>>,
    pub names: &'a Kinds<'a>,
}
