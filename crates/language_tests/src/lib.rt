//! The tests of the crates of the languages, each by itself, through its public calls: words, heaps,
//! expressions, levels, commands, programs and runs, at values that are known from elsewhere. They
//! stand in a crate of their own, since a crate with tests is proved twice.
#![tactic(auto)]

#[cfg(test)]
mod byte_heap;
#[cfg(test)]
mod commands;
#[cfg(test)]
mod expressions;
#[cfg(test)]
mod heaps;
#[cfg(test)]
mod levels;
#[cfg(test)]
mod runs;
#[cfg(test)]
mod typed_heaps;
#[cfg(test)]
mod values;
