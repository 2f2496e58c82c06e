//! Where runs of functions begin, from memories that are read for a typed unit.
#![tactic(auto)]

mod arguments;
mod functions;
mod globals;
mod heap;
pub mod laws;
mod views;
mod words;

pub use arguments::arguments_of;
pub use functions::position_of;
pub use globals::globals_of;
pub use heap::heap_of;
pub use views::views_of;
