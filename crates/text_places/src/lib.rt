//! Places in a text as people count them: lines, and columns in bytes.
#![tactic(auto)]

mod place;
mod rows;
mod shown;

pub use place::{Place, place_of};
pub use rows::worked_places;
pub use shown::push_marked_line;
