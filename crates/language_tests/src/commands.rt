//! The tests of commands and programs, each by itself, through its public calls.

mod heads;
mod program_forms;
mod program_sequences;
mod simpl_forms;
mod simpl_sequences;
