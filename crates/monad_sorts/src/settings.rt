//! What programs may name beside their own names.

use c_values::{GlobalVar, Layout};
use expression_lang::Signature;
use monad_lang::FinalFn;
use program_sorts::Phase;

/// The functions that programs may call.
#[derive(Clone, Copy)]
pub enum Functions<'a> {
    Programs(&'a [FinalFn]),
    Signatures(&'a [Signature]),
}

/// Structs, globals and functions that programs may name, in a phase.
#[derive(Clone, Copy)]
pub struct Setting<'a> {
    pub layout: &'a Layout,
    pub globals: &'a [GlobalVar],
    pub functions: Functions<'a>,
    pub phase: Phase,
}
