//! Values put into programs in place of their names, and where they may be put.
#![tactic(auto)]

mod conditions;
mod expressions;
mod programs;

pub use conditions::can_be_put;
pub use programs::put;
