//! Trees of atoms and lists, in which all texts of programs, certificates and memories are written: each tree has one
//! spelling.
#![tactic(auto)]

mod builder;
mod fault;
pub mod laws;
mod lists;
mod reader;
mod recogniser;
mod spans;
mod speller;
mod sx;
mod term_reader;
mod terms;
mod tree_writer;
mod writer;

pub use builder::SxBuilder;
pub use fault::SxFault;
pub use lists::{first, headed, one, three, two};
pub use reader::read;
pub use spans::{SxPart, parts};
pub use speller::Speller;
pub use sx::Sx;
pub use terms::{Node, TermId, Terms};
pub use tree_writer::TreeWriter;
pub use writer::write;
