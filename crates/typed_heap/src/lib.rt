//! Typed heaps: for each tag the value that lies there, in place of bytes.
#![tactic(auto)]

mod heap;
pub mod laws;
mod places;
mod selecting;
mod tagged_values;
mod types_at;
mod viewing;
mod ways;
mod zero_words;

pub use heap::TypedHeap;
pub use types_at::type_at;
pub use viewing::view;
