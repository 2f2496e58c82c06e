//! The texts of trees of rules, as trees of words and lists, both ways.
#![tactic(auto)]

mod arity;
mod equality;
mod exceptions;
mod heaps;
mod locals;
mod numbers;
mod reading;
mod texts;
mod writing;

pub use equality::{equality_into, equality_tree_at};
pub use exceptions::{exception_into, exception_tree_at};
pub use heaps::{heap_into, heap_tree_at};
pub use locals::{local_into, local_tree_at};
pub use numbers::{word_into, word_tree_at};
pub use texts::{read_heap_tree, write_heap_tree};
