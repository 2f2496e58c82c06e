//! Monadic programs over expressions: what they do, which are well-formed, and their forms.
#![tactic(auto)]

mod comparison;
mod copies;
mod forms;
mod free_names;
mod fronts;
mod program;
mod run_laws;
mod starts;

pub use forms::{IsStored, IsWritten, NoPlace, PlaceTest};
pub use free_names::{
    NameTest, all_kept, is_among, is_free, is_in, is_in_some, is_in_start, is_started,
};
pub use fronts::{Front, boxed, whole};
pub use program::{FinalFn, FinalUnit, Mon, Place, Start};
pub use run_laws::{programs_continue, programs_end_once, programs_under_any_choice};
