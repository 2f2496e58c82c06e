//! Tables of rules for the tests: what stands in a row, and trees of rules from words.
#![tactic(auto)]

mod rows;
mod trees;

pub use rows::{Row, is_remark};
pub use trees::{Rules, counted, tree};
