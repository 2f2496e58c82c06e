//! Which typed units have names and types that texts have.
#![tactic(auto)]
