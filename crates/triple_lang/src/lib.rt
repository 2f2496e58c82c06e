//! The language of Hoare triples: their assertions, and the trees of rules by which an assertion is
//! shown from facts and a program is shown to give what an assertion says.
#![tactic(auto)]

mod deriv;
mod entail;
mod triple;

pub use deriv::Deriv;
pub use entail::{Entail, Weighed};
pub use triple::{Logical, Triple};
