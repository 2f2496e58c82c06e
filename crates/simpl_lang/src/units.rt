//! Functions and units of commands.

use crate::command::Simpl;
use c_values::{GlobalVar, Layout};
use expression_lang::{Binder, Level, Signature};

/// A function.
#[derive(Debug, Drop)]
pub struct SimplFn {
    pub name: String,
    /// The parameters first.
    pub locals: Vec<Binder>,
    pub level: Level,
    pub body: Simpl,
}

/// The functions of a text.
#[derive(Debug, Drop)]
pub struct SimplUnit {
    /// The target, and the structs with a body.
    pub layout: Layout,
    /// The globals in the order of the text.
    pub globals: Vec<GlobalVar>,
    /// One for each function with a body, in the order of the bodies.
    pub functions: Vec<SimplFn>,
    /// One for each of the functions, in the same order.
    pub signatures: Vec<Signature>,
}
