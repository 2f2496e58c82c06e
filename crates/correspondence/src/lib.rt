//! How runs end, how they are put together, and when two meanings correspond exactly.
//!
//! A meaning is the set of the ends that a run may have (`specs/Outcome`). C statements, Simpl and monadic programs
//! all have their meaning in this one form, so that the laws in `proofs/` are proved once and serve them all. The laws
//! quantify over meanings, which no clause can do: each contract above states what it needs of them at the programs
//! that it speaks of.
#![tactic(auto)]
