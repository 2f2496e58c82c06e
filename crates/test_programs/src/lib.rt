//! Programs from words, for the tests.
#![tactic(auto)]

mod notation;

pub use notation::{int, program_of};
