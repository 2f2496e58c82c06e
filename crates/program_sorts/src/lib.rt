//! The sorts of what commands and monadic programs hold: their expressions, the places that they
//! write to, and the arguments of their calls.
#![tactic(auto)]

mod calls;
mod expressions;
mod phases;
mod places;
mod scalars;

pub use calls::{may_take, signature};
pub use expressions::{is_test, program_sort};
pub use phases::Phase;
pub use places::{fits_global, fits_object};
pub use scalars::{are_kinds, is_kind, is_of};
