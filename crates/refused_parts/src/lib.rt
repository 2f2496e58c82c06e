//! Which part of what a step takes a node of the step's tree of rules is about.
#![tactic(auto)]

mod commands;
mod parts;
mod programs;
mod walks;
mod ways;

pub use parts::{Part, part_at};
pub use ways::way_to;
