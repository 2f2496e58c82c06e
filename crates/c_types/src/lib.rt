//! The type checker: it goes through a text once, and answers the typed unit, or the first bad node.
#![tactic(auto)]

mod functions;
mod unit;

pub use c_lang::tree::{TypedFn, TypedUnit};
pub use typing_rules::fault::{TypeFault, TypeKind};
pub use unit::check_unit;
