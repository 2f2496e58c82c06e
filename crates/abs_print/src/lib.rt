//! Programs in do-notation: texts for readers, which nothing reads back (`specs/Programs`).
#![tactic(auto)]

mod endings;
mod expressions;
mod functions;
mod last_parts;
mod leaves;
mod programs;
mod signs;
mod steps;
mod texts;
mod types;

pub use functions::print;
