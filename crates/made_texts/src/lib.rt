//! That the certificates that the translations make have texts.
#![tactic(auto)]

mod laws;

pub use laws::certificates_made_have_texts;
