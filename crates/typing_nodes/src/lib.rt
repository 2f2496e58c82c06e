//! The typing of an expression's node whose parts are typed, where the target and the structs are all that it needs of the text.
#![tactic(auto)]

mod addresses;
mod nodes;

pub use nodes::{
    binary_operand, cast_operand, character, chosen_operand, element, member, number,
    pointer_member, size_constant, size_of_operand, unary, unary_demand,
};
