//! Runs of programs: what a function of a unit does under a fill number, at a bound of turns.
#![tactic(auto)]

mod calling;
mod ends;
mod evaluation;
mod finals;
mod functions;
pub mod laws;
mod leaves;
mod machine;
mod names;
mod paths;
mod picks;
mod resuming;
mod running;
mod stepping;
mod turning;
mod writing;

pub use ends::AOutcome;
pub use finals::run_final;
