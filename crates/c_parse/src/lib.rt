//! The parser of the C subset: the tree that spells a list of tokens, within the limits of a tree.
#![tactic(auto)]

mod fault;
mod parser;

pub use c_grammar::operator::{BinaryOperator, StepOperator, UnaryOperator};
pub use c_grammar::tree;
pub use c_limits::Limit;
pub use fault::ParseFault;
pub use parser::parse;
