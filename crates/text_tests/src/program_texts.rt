//! The tests of the crates that read and write texts of expressions, programs and commands, through their public calls.

mod commands;
mod expressions;
mod programs;
