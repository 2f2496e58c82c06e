//! The scalars of what programs give, whatever names are around them.
#![tactic(auto)]

mod around;
mod sequences;
mod sorted;
mod unit;

pub use sequences::{Sequence, split};
pub use sorted::scalars_given;
pub use unit::Unit;
