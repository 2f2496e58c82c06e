//! Tests of runs of functions, from units made by hand.

mod arguments;
mod programs;
mod units;
