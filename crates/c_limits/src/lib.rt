//! The limits of a C text: how many functions, statements, nested statements, and nodes and levels of an expression it may have, and
//! where it passes the first.
#![tactic(auto)]

pub mod limits;

pub use limits::{Limit, first_limit};
