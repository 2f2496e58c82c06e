//! Interpreters: what a function of a unit does under a fill number, at a bound of turns.
#![tactic(auto)]

mod abstract_runs;

pub use abstract_runs::{Ran, run_abstract};
pub use command_runs::{COutcome, CState, run_simpl};
pub use program_runs::{AOutcome, run_final};
