//! Runs of a function of the C and of its program, side by side, and what is said of them.
#![tactic(auto)]

mod answer;
mod c_side;
mod faults;
mod program_side;
mod sides;
mod start;

pub use answer::ran;
