//! Texts of kinds and of monadic programs as trees, both ways.
#![tactic(auto)]

mod fields;
mod heads;
mod kinds;
mod mon_reading;
mod mon_writing;
mod steps;
mod texts;

pub use fields::{boxed_exp_at, four};
pub use kinds::{kind_at, kind_into};
pub use mon_reading::mon_at;
pub use mon_writing::mon_into;
pub use texts::{read_kind, read_mon, write_kind, write_mon};
