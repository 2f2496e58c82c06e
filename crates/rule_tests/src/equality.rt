//! The tests of the rules that take programs to programs that mean the same, by tables of words.

mod rules;
mod sizes;
