//! Runs of commands: what a function of a Simpl unit does under a fill number, at a bound of turns.
//! What is still to do lies on a stack in memory, so that neither deep commands nor nested calls take
//! the program's.
#![tactic(auto)]

mod assignments;
mod calls;
mod ends;
mod evaluation;
mod frame;
mod functions;
mod kinds;
mod locals;
mod machine;
mod outcome;
mod runs;
mod simpl;
mod steps;

pub use outcome::{COutcome, CState};
pub use simpl::run_simpl;
