//! What is generated for a typed unit whose names and types have texts has texts itself.
#![tactic(auto)]

mod laws;

pub use laws::generated_units_have_texts;
