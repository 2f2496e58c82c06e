//! What the checker makes of a text of C is well-typed.
#![tactic(auto)]

mod laws;

pub use laws::{texts_are_written, typed_units_are_well_typed};
