//! The rules that make numbers of words: their table, that what they take a program to is exact,
//! and the kernel that decides whether a tree of rules takes the one to the other.
#![tactic(auto)]

mod claims;
mod exp_instances;
mod instances;
mod kernel;
mod kinds;
mod laws;
mod parts;
mod passed;
mod ranges;
mod rule;
mod sorts;
mod stretch;
mod views;

pub use kernel::check;
pub use kinds::Kinds;
pub use laws::{
    abstracted_units_are_formed, abstracted_units_keep_words, kinds_fit, taken_is_exact,
    units_are_abstracted, words_are_abstracted, words_are_seen,
};
pub use passed::Passed;
pub use rule::{Context, Point, Rule, View};
pub use stretch::Stretch;
