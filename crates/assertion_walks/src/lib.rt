//! Whether an assertion is another one with expressions in place of names, or what another one says
//! before a global or an object of a typed heap is written. Both assertions are gone through at
//! once, and nothing is built.
#![tactic(auto)]

mod global_written;
mod heap_written;
mod peeling;
mod putting;
mod rebuilding;
mod related;
mod replacing;
mod scalars;
mod typed_places;
mod value_tables;

pub use global_written::is_before_global;
pub use heap_written::is_before_write;
pub use putting::{Value, Values, is_put};
pub use typed_places::Place;
pub use value_tables::{Both, NamesFor, StartsFor, ValuesFor};
