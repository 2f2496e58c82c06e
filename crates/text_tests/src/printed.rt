//! The tests of texts of programs in do-notation, through the public call.

mod heads;
mod rows;
mod sizes;
mod units;
