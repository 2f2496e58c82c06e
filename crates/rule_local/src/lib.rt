//! The rules that lift locals into bound names: their table, that what they take a command to is
//! exact, and the kernel that decides whether a tree of rules takes a command to a program.
#![tactic(auto)]

mod carried;
mod expressions;
mod instances;
mod kernel;
mod laws;
mod marks;
mod name_lists;
mod part_claims;
mod passing;
mod rule;
mod strays;
mod taken;
mod uses;

pub use kernel::check;
pub use laws::{
    lifted_units_keep_locals, locals_are_lifted, loops_hand_on_the_least, taken_is_exact,
};
pub use rule::{Context, Rule};
