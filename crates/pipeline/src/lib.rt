//! The chain from a C unit to its last programs: what each step keeps, that what is generated is
//! ready for the steps, that what they make and what is accepted are such chains, and that the last
//! programs are exact, in range and steady. All of it is logic: the functions do nothing.
#![tactic(auto)]

mod accepted_units;
mod chains;
mod heap_ready;
mod steady_units;
mod word_ready;

pub use accepted_units::{accepted_programs_are_exact, translations_are_accepted};
pub use chains::{chains_are_exact, taken_units_are_exact, translated_units_are_exact};
pub use heap_ready::{
    default_levels_call_lifted, exceptions_leave_commands_ready, generated_commands_are_ready,
    generated_units_are_ready_for_heaps, ready_commands_are_lifted_ready,
    ready_programs_are_on_bytes,
};
pub use steady_units::accepted_units_are_steady;
pub use word_ready::generated_units_are_ready_for_numbers;
