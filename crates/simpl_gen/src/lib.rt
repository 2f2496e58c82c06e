//! The Simpl program of a typed unit.
#![tactic(auto)]

mod assignments;
mod calls;
mod commands;
mod functions;
mod jumps;
mod kinds;
mod layout_copies;
mod locals;
mod loops;
mod names;
mod statements;
mod switches;

pub use c_levels::{Modes, Reason, default_modes, reasons};
pub use functions::generate;
pub use layout_copies::{copy_of_globals, copy_of_layout};
