//! Simpl: commands with guards and exceptions, what they do, and which units are well-formed.
#![tactic(auto)]

mod calls;
mod command;
mod comparison;
mod conditions;
mod copies;
mod distinct_names;
mod forms;
mod fronts;
mod locals;
mod run_laws;
mod signed;
mod sorted;
mod units;
mod well_formed;

pub use command::{Condition, GuardKind, Simpl};
pub use conditions::{
    copy_of_condition, copy_of_conditions, same_condition, same_conditions, same_guard_kind,
};
pub use forms::{commands, is_flat};
pub use fronts::{Front, boxed, whole};
pub use locals::{is_bound, kind_in};
pub use run_laws::{commands_continue, commands_end_once, commands_under_any_choice};
pub use units::{SimplFn, SimplUnit};
pub use well_formed::{forms_ok, is_command_sorted};
