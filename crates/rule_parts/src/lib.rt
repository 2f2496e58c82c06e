//! What the rules of several steps ask of the parts of programs.
#![tactic(auto)]

mod captured;
mod exps;
mod facts;
mod starts;

pub use captured::{captures, is_unnamed};
pub use exps::Exps;
pub use facts::no_facts;
pub use starts::same_start_names;
