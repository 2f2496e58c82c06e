//! Texts of Hoare triples with their derivations, both ways.
#![tactic(auto)]

mod deriv_heads;
mod deriv_reading;
mod deriv_rules;
mod deriv_writing;
mod entail_heads;
mod entail_reading;
mod entail_rules;
mod entail_writing;
mod logicals;
mod parts;
mod positions;
mod texts;
mod triple_reading;
mod triple_texts;
mod triple_writing;

pub use texts::{read_deriv, read_entail, read_triple, write_deriv, write_entail, write_triple};
pub use triple_texts::{read_triples, write_triples};
