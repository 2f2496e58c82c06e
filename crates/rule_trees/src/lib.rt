//! Trees of rules, for any table of rules: which are accepted, which node is the first that is no
//! instance of its rule, and what holds of every accepted tree.
#![tactic(auto)]

mod numbers;
mod tree;

pub use numbers::{At, next};
pub use tree::{Tree, both, only};
