//! A C unit translated: the steps of each function, and its last programs.
#![tactic(auto)]

mod functions;
mod steps;
mod units;

pub use functions::last_function;
pub use units::{last_programs, translate_functions, translate_generated};
