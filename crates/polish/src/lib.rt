//! How programs are made tidy, with the tree of rules that takes a program to the tidy one.
#![tactic(auto)]

mod branches;
mod descent;
mod entering;
mod following;
mod laws;
mod polishing;
mod putting;
mod rewriting;
mod settling;
mod translation;
mod turning;

pub use laws::{programs_are_made_tidy, steps_are_made};
pub use translation::translate;
