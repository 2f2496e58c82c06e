//! That what is generated for well-typed C stays in 128 bits.
#![tactic(auto)]

mod laws;

pub use laws::generated_units_are_narrow;
