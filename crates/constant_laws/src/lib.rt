//! The law that the two definitions of a constant expression's value are one: the number that a
//! text asks for where it wants a constant, and what the expression gives where it is run.
#![tactic(auto)]

mod laws;

pub use laws::constants_have_their_values;
