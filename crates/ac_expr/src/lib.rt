//! What is known of expressions at a place of a program. The language of expressions itself is
//! handed on.
#![tactic(auto)]

mod chain;
mod claims;
mod constants;
mod differences;
mod fact_laws;
mod facts;
mod first_sides;
mod heads_alike;
mod knowing;
mod lasting;
mod step_laws;
mod steps;

pub use chain::{Facts, Sequence, Split};
pub use constants::constant_of;
pub use differences::one_step;
pub use expression_lang::{
    Binder, CastOp, Env, EvalFault, Exp, Kind, Level, Names, Path, Scalar, Signature, Sort, eval,
    scalar_of_kind, sort_of,
};
pub use fact_laws::known_facts_hold;
pub use facts::Fact;
pub use heads_alike::{Children, children_of, same_head, same_steps};
pub use knowing::known;
pub use step_laws::one_step_is_exact;
