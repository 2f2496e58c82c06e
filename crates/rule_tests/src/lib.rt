//! The tests of the rules, of what translates by them, and of all steps from C texts.
#![tactic(auto)]

#[cfg(test)]
mod chain;
#[cfg(test)]
mod equality;
#[cfg(test)]
mod exceptions;
#[cfg(test)]
mod locals;
#[cfg(test)]
mod rows;
#[cfg(test)]
mod sizes;
#[cfg(test)]
mod steps;
#[cfg(test)]
mod tidy;
