//! Steps of rules at programs while they are made, and the balanced trees that they are.
#![tactic(auto)]

mod walks;

pub use walks::{
    Ahead, Chain, Step, Walk, Walked, at_once, built, chained, in_body, in_both, in_branches,
    joined, leaf, led, one, unchanged,
};
