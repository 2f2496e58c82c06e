//! That certificates that have texts are read back from these.
#![tactic(auto)]

mod laws;

pub use laws::{certificates_have_texts, programs_have_trees};
