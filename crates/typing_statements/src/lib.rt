//! The typing of statements, with the calls, switches and locals among them.
#![tactic(auto)]

mod calls;
mod labels;
mod locals;
mod simple;
mod statements;
mod switches;

pub use statements::{Around, items};
