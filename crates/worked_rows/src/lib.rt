//! Worked rows: what the definitions say of small texts whose meaning is known, as theorems that
//! compute.
//!
//! The trees are written by hand in `specs/`, one file for each text; the contracts here say how
//! their runs end. Nothing else rests on this crate: it shows that the definitions mean what they
//! are meant to.
#![tactic(auto)]

mod calls;
mod expressions;
mod generated;
pub mod generation_rows;
mod objects;
mod programs;
mod statements;

pub use calls::{
    cast_on_bytes, char_sum, counting, division, find, global_array, midpoint, null_test,
    recursion, reversal, shifts, stale_next, struct_copy, swap, uninitialised, unsigned_sum,
};
pub use expressions::{
    arithmetic_at_its_limits, conversions, division_at_its_limits, evaluation_order, places,
    shifts_at_their_limits,
};
pub use generated::{guards_of_null_test, reasons, returned_constant};
pub use programs::{midpoints, sums};
pub use statements::{ends_of_functions, loops, switches};
