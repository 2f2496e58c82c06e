//! Hoare triples of programs, with logical variables: the rules by which they are derived, that what
//! is derived by them holds, of the programs and of the C that they stand for, and their checker.
#![tactic(auto)]

mod accepting;
mod assertions;
mod call_derivations;
mod called;
mod derivations;
mod ground;
mod laws;
mod place;
mod plain_derivations;
mod program_names;
mod scoping;
mod triple_names;
mod turns;
mod value_names;
mod verdicts;
mod write_derivations;

pub use laws::{accepted_triples_hold, accepted_triples_hold_of_c};
pub use place::TripleAt;
pub use verdicts::{check, derives};
