//! The words of the command line: what they ask for, and what options choose.
#![tactic(auto)]

mod command;
mod counts;
mod options;

pub use command::{Command, Writing, asked_for};
pub use options::{first_unknown, names_after, target_of};
