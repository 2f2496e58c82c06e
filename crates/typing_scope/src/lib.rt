//! What is declared at a place of a text: its names, tags, types and globals, how they are looked up, and how more are declared.
#![tactic(auto)]

pub mod declarators;
pub mod file;
pub mod members;
pub mod results;
pub mod scope;
mod tags;
pub mod type_words;
