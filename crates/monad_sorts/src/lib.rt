//! Which monadic programs are well-sorted, which give values of the same scalars, and which units
//! are well-formed.
//!
//! Nothing here takes memory. So what is in scope is no table: a scope says how far into a program
//! the place lies, and a name is found again in the program whenever it is asked for. One look goes
//! over what was passed of the program, halving it again and again: for n parts it takes n times
//! the logarithm of n steps at most, and n where the last of them binds the name to a value whose
//! sort is plain.
#![tactic(auto)]

mod counts;
mod given;
mod inside;
mod names;
mod parts;
mod places;
mod scoped;
mod settings;
mod sorted;
mod tell;
mod values;
mod well_formed;

pub use given::{give_same, gives_as};
pub use inside::Inside;
pub use settings::{Functions, Setting};
pub use tell::Told;
pub use values::{look_back, tell_value};
pub use well_formed::{is_body_sorted, is_program_sorted, is_well_formed};
