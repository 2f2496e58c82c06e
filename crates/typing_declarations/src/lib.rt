//! The typing of declarations outside functions, and of the heads of functions.
#![tactic(auto)]

pub mod globals;
pub mod parameters;
pub mod signatures;
