//! Texts of commands as trees, both ways.
#![tactic(auto)]

mod command_reading;
mod command_writing;
mod conditions;
mod heads;
mod steps;
mod targets;
mod texts;

pub use command_reading::command_at;
pub use command_writing::command_into;
pub use texts::{read_simpl, write_simpl};
