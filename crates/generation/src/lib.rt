//! The Simpl that stands for a typed unit, as a definition, and the laws that it has exactly the
//! ends of the C and is well-formed.
#![tactic(auto)]

mod laws;

pub use laws::{
    generated_has_the_same_ends, generated_locals_are_different, generated_units_are_well_formed,
    generated_units_leave_the_flag,
};
