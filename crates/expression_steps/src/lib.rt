//! Steps of expressions, each of which makes an expression of a program shorter.
#![tactic(auto)]

mod exp_steps;
mod points;
mod program_steps;
mod table_steps;

pub use points::{
    Binding, Context, Passed, PassedPart, Scoped, bindings_of, facts_behind, scalar_of,
};
pub use program_steps::direct_step;
pub use table_steps::holds;
