//! Which commands meet no operation on numbers whose exact result has a magnitude of 2^128 or
//! more. The crate has no code: what runs commands in 128 bits, and what generates them, cite its
//! definitions (`specs/`).
#![tactic(auto)]
