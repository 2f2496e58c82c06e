//! The tests of the steps to typed heaps and to numbers: of their rules by tables of words, and of
//! what translates by them.

mod heaps;
mod lifted;
mod sizes;
mod words;
