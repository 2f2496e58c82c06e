//! Programs on bytes lifted to typed heaps, with the tree of rules that shows it.
#![tactic(auto)]

mod exp_fronts;
mod exps;
mod fronts;
mod lists;
mod pairs;
mod plain;
mod programs;
mod translation;
mod trees;

pub use translation::translate;
