//! What the program answers where it doesn't do what is asked: its status, and the lines that say
//! why. The words of a fault in C text, of an option and of a file stand here.
#![tactic(auto)]

mod answer;
mod refusal;
mod status;

pub use answer::{Answer, line, push, read_fault};
pub use refusal::{lex_refusal, parse_refusal, unknown_name, untyped};
pub use status::Status;
