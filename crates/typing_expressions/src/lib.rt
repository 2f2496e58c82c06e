//! The typing of expressions, with the types, members, enumerators and lengths that stand among them.
#![tactic(auto)]

mod at_nodes;
mod expressions;
mod names;
mod noted;

pub use expressions::{base, declarator, first, integer_constant, place, value};
