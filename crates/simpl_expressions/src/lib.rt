//! C expressions in Simpl: the value of each as an expression of Simpl, and what has to hold before
//! it has one, in C's order.
#![tactic(auto)]

mod checks;
mod guards;
mod operators;
mod ranges;
pub mod scalars;
pub mod terms;
mod values;

pub use checks::add_accesses;
pub use guards::{add_guards, add_place_guards};
pub use values::{path_to, truth, value};
