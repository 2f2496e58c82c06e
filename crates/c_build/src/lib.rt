//! Trees from the script of a text, on one stack of values.
#![tactic(auto)]

pub mod build;
