//! Programs on words made programs on what stands for them, with the tree of rules that shows it.
#![tactic(auto)]

mod abstracted;
mod comparing;
mod exps;
mod facts;
mod kinds;
mod lists;
mod operations;
mod passing;
mod paths;
mod points;
mod programs;
mod ranges;
mod standing;
mod steps;
mod translated;
mod translation;
mod trees;
mod views;

pub use translation::{FunctionKinds, translate};
