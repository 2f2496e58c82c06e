//! Typed C units: each expression has its type, and each conversion stands where it is made; and which are well-typed.
#![tactic(auto)]

pub mod tree;
