//! What the checker makes of a text of C has names and types that texts have.
#![tactic(auto)]

mod laws;

pub use laws::typed_units_have_names;
