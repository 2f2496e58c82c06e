//! The tokens of a C text.
#![tactic(auto)]

mod bytes;
mod characters;
pub mod fault;
mod gaps;
pub mod laws;
mod lexer;
mod numbers;
mod puncts;
pub mod token;
mod words;

pub use fault::{LexFault, Unsupported};
pub use lexer::tokens;
pub use token::{Keyword, Punct, Token, TokenKind};
