//! Where commands run.

use expression_lang::Binder;
use simpl_lang::SimplUnit;
use std::alloc::Global;

/// What stays the same while the body of a function runs.
#[derive(Clone, Copy, Drop)]
pub(crate) struct Frame<'a> {
    pub(crate) alloc: Global,
    pub(crate) unit: &'a SimplUnit,
    /// The function's locals.
    pub(crate) locals: &'a [Binder],
    /// What is picked.
    pub(crate) fill: u64,
    /// How many calls may be nested inside this one.
    pub(crate) depth: u32,
}
