//! Locals lifted out of commands by what is live, with the tree of rules that shows it.
#![tactic(auto)]

mod changes;
mod laws;
mod lifted;
mod lifting;
mod lists;
mod liveness;
mod names;
mod plan;
mod planning;
mod rows;
mod translation;

pub use laws::lifted_by_live;
pub use translation::translate;
