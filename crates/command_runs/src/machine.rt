//! Where a run has come, and what is still to do.

use crate::ends::Flow;
use crate::frame::Frame;
use expression_lang::{Binder, Env, Signature};
use simpl_lang::Simpl;

/// What is next.
#[derive(Clone, Copy, Drop)]
pub(crate) enum Next<'a> {
    /// A command runs in the frame, at a bound of so many turns.
    Running(Frame<'a>, &'a Simpl, u32),
    /// A command has ended in the frame.
    Ended(Frame<'a>, Flow),
}

/// What is to do once a command has ended.
#[derive(Drop)]
pub(crate) enum Pending<'a> {
    /// The rest of a sequence or of a loop, at a bound of so many turns.
    Rest(&'a Simpl, u32),
    /// The handler of a catch.
    Handler(&'a Simpl, u32),
    /// A body has ended, and its caller goes on.
    Return(Caller<'a>),
}

/// A caller, while the body runs of the function that it calls.
#[derive(Drop)]
pub(crate) struct Caller<'a> {
    /// Where the result goes, if anywhere.
    pub(crate) target: &'a Option<String>,
    /// The signature of the function that is called.
    pub(crate) called: &'a Signature,
    /// The caller's locals, and their values.
    pub(crate) binders: &'a [Binder],
    pub(crate) locals: Env,
    /// How many calls may be nested inside the caller.
    pub(crate) depth: u32,
}
