//! The typing rules of C: which trees are typed, and how, is defined in `specs`. Here are the rules of nodes whose parts are typed:
//! operands, operators, constants, and the words of a type.
#![tactic(auto)]

pub mod casts;
pub mod constants;
pub mod copies;
pub mod fault;
pub mod folding;
pub mod operands;
pub mod operators;
pub mod progress;
pub mod rulings;
pub mod specifiers;
pub mod types;

pub use fault::TypeKind;
