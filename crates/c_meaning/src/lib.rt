//! What C means: definitions, and their laws.
#![tactic(auto)]

mod run_laws;

pub use run_laws::{
    statements_continue, statements_end_once, statements_under_any_choice, watching_keeps_ends,
};
