//! What the globals hold once a part of one takes a value. Simpl and programs run with the same.
#![tactic(auto)]

mod globals;

pub use globals::change;
