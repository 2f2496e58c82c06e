//! The rules that take programs on bytes to programs on typed heaps: their table, that what they
//! take a program to is exact, and the kernel that decides whether a tree of rules takes the one to
//! the other.
#![tactic(auto)]

mod claims;
mod exp_instances;
mod instances;
mod kernel;
mod laws;
mod ranges;
mod rule;

pub use kernel::check;
pub use laws::{programs_are_lifted_to_heaps, taken_stands_for, units_taken_keep_heaps};
pub use rule::{Context, Rule};
