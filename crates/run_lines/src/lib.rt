//! The lines that say how a run of a C function and that of its program end.
#![tactic(auto)]

mod ends;
mod groups;
pub mod laws;
mod lines;
mod states;
mod text;
mod values;

pub use ends::{CStop, ProgramStop, Verdict};
pub use groups::{
    write_c_stop, write_c_value, write_program_stop, write_program_value, write_verdict,
};
pub use states::RunHeap;
