//! What is said on standard error of a call, beside its answer: for people, with the place in the C
//! file and the line.
#![tactic(auto)]

mod calls;
mod fault;
mod files;
mod look;
mod refused;
mod rows;
mod sentences;
mod usage;

pub use calls::remark;
pub use fault::{Cause, Fault};
pub use look::first_fault;
pub use rows::worked_remarks;
