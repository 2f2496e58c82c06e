//! The rules that take exceptions out of commands: their table, that what they take a command to is
//! exact, and the kernel that decides whether a tree of rules takes one command to another.
#![tactic(auto)]

mod flags;
mod instances;
mod kernel;
mod laws;
mod parts;
mod quiet_commands;
mod rule;

pub use kernel::check;
pub use laws::{eliminated_is_taken, taken_is_exact, taken_units_run_alike};
pub use quiet_commands::quiet;
pub use rule::Rule;
