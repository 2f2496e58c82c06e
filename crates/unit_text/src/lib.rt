//! The programs of a unit, written as one tree.
#![tactic(auto)]

mod writing;

pub use writing::write_program;
