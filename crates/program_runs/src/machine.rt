//! Where programs run, and what is still to do.

use c_values::Value;
use expression_lang::{Env, Exp};
use monad_lang::{FinalUnit, Mon, Start};
use std::alloc::Global;

/// What stays the same while a function runs.
#[derive(Clone, Copy, Drop)]
pub(crate) struct Setting<'a> {
    pub(crate) alloc: Global,
    pub(crate) unit: &'a FinalUnit,
    /// What is picked.
    pub(crate) fill: u64,
}

/// A heap, and the values of the globals in the unit's order.
#[derive(Drop)]
pub(crate) struct AState<H> {
    pub(crate) heap: H,
    pub(crate) globals: Vec<Value>,
}

/// The turns and the nested calls that are left.
#[derive(Clone, Copy, Drop)]
pub(crate) struct Bound {
    pub(crate) turns: u32,
    pub(crate) depth: u32,
}

/// A loop whose names have begun.
#[derive(Clone, Copy, Drop)]
pub(crate) struct Turns<'a> {
    pub(crate) starts: &'a [Start],
    pub(crate) guard: &'a Exp,
    pub(crate) test: &'a Exp,
    pub(crate) body: &'a Mon,
    pub(crate) left: Bound,
}

/// What is to do with the values that a program gives. The numbers say how many of the bindings
/// count there.
#[derive(Drop)]
pub(crate) enum Pending<'a> {
    /// The rest of a bind, with the values under the names.
    Rest(&'a [String], &'a Mon, usize, Bound),
    /// The next turn of a loop.
    Turn(Turns<'a>, usize),
    /// The rest of a caller, which has these bindings.
    Caller(Env),
}

/// What is next.
#[derive(Drop)]
pub(crate) enum Next<'a> {
    Running(&'a Mon, Bound),
    /// A loop comes to its guard, with these values for its names.
    Turning(Turns<'a>, Vec<Value>),
    Gave(Vec<Value>),
}
