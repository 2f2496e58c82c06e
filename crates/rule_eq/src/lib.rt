//! The rules that take programs to programs that mean the same: their table, that what they take a
//! program to is exact, and the kernel that decides whether a tree of rules takes the one to the
//! other.
#![tactic(auto)]

mod exp_instances;
mod exps;
mod instances;
mod kernel;
mod laws;
mod program_putting;
mod putting;
mod rule;
mod taken;

pub use kernel::check;
pub use laws::{
    simplifying_keeps_sorts, substitution_is_exact, taken_is_exact, taken_units_keep_equal,
    tidy_is_exact,
};
pub use rule::Rule;
