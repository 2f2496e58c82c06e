//! The functions of a text, of whatever language, with what they stand over.

use crate::layouts::Layout;
use crate::values::GlobalVar;

/// The functions of a text.
#[derive(Debug, Drop)]
pub struct Program<F> {
    /// The target, and the structs with a body in the order of their bodies.
    pub layout: Layout,
    /// The globals in the order of the text.
    pub globals: Vec<GlobalVar>,
    /// The functions with a body, in the order of the bodies.
    pub functions: Vec<F>,
}
