//! The rules that take programs on bytes to programs on typed heaps, by name, and where they are
//! taken.

use ac_expr::Facts;
use c_values::Layout;
use expression_lang::Exp;
use program_facts::Parts;

/// A rule. What it asks of two programs or of two expressions is defined in `specs/Table`.
#[derive(Debug)]
pub enum Rule {
    Ret,
    Bind,
    Guard,
    If,
    Global,
    Loop,
    Call,
    Pick,
    Write,
    Pointer,
    /// With the right side of the address.
    Drop(Box<Exp>),
    Same,
    Leaf,
    Load,
    Tagged,
    PtrOk,
    Op,
    And,
    Or,
    Imp,
    Cond,
    /// With the right side of the address.
    Known(Box<Exp>),
}

// A derived drop would be written out wherever a rule may be let go.
impl Drop for Rule {
    fn drop(self) {
        match self {
            Rule::Drop(_address) | Rule::Known(_address) => {}
            Rule::Ret | Rule::Bind | Rule::Guard | Rule::If | Rule::Global | Rule::Loop => {}
            Rule::Call | Rule::Pick | Rule::Write | Rule::Pointer | Rule::Same => {}
            Rule::Leaf | Rule::Load | Rule::Tagged | Rule::PtrOk | Rule::Op => {}
            Rule::And | Rule::Or | Rule::Imp | Rule::Cond => {}
        }
    }
}

/// What is known where the two sides stand, and the layout.
#[derive(Clone, Copy)]
pub struct Context<'a> {
    pub facts: &'a Facts<'a, Parts<'a>>,
    pub layout: &'a Layout,
}
