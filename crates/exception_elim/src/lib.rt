//! Exceptions taken out of commands, with the tree of rules that shows it.
#![tactic(auto)]

mod eliminated;
mod flags;
mod fronts;
mod translation;

pub use translation::translate;
