//! The levels of functions, and why they have them.

use expression_lang::Level;

/// The level of each function of a unit, in the order of the functions.
#[derive(Debug, Drop)]
pub struct Modes {
    pub levels: Vec<Level>,
}

/// Why a function works on bytes.
#[derive(Clone, Copy, Debug, PartialEq, Eq)]
pub enum Reason {
    /// It converts to a pointer to a type that isn't void, from another type.
    Cast,
    /// It calls the function at this position, which works on bytes.
    Calls(u32),
    /// It was chosen.
    Chosen,
}
