//! The levels that functions have by default, and why they work on bytes.
#![tactic(auto)]

mod called;
mod casts;
mod levels;
mod modes;
pub mod reasons;
mod spreading;

pub use levels::default_modes;
pub use modes::{Modes, Reason};
