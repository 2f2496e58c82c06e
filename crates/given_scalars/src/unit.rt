//! What programs may name beside their own names.

use c_values::{GlobalVar, Layout};
use expression_lang::Signature;
use program_sorts::Phase;

/// The structs, the globals and the functions of a unit in a phase.
#[derive(Clone, Copy)]
pub struct Unit<'a> {
    pub layout: &'a Layout,
    pub globals: &'a [GlobalVar],
    pub functions: &'a [Signature],
    pub phase: Phase,
}
