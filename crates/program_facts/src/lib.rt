//! What goes along programs: facts, from part to part, and what every run keeps.
#![tactic(auto)]

mod flow_laws;
mod lasting_laws;
mod parts;

pub use flow_laws::facts_hold_after;
pub use lasting_laws::{runs_keep_tags, sorted_units_last};
pub use parts::{Parts, changes_state};
