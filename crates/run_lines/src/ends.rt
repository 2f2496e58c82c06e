//! Ends of runs that give no value, and what is said of two ends.

use c_values::{Number, NumberOp};
use simpl_lang::GuardKind;

/// Why a run of a C function gives nothing.
#[derive(Clone, Copy, Debug)]
pub enum CStop {
    /// It is undefined, with this kind.
    Guard(GuardKind),
    /// A turn of a loop or a call is asked at the bound 0.
    OutOfTurns,
    /// A call would be nested too deep.
    Deep,
}

/// Why a run of a program gives nothing.
#[derive(Clone, Copy, Debug)]
pub enum ProgramStop {
    /// A guard doesn't hold.
    Fails,
    /// An operation on these numbers has an exact result of a magnitude of 2^128 or more.
    Wide(NumberOp, Number, Number),
    /// A turn of a loop or a call is asked at the bound 0.
    OutOfTurns,
    /// A call would be nested too deep.
    Deep,
}

/// What is said of a run of a C function and the run of its program.
#[derive(Clone, Copy, Debug)]
pub enum Verdict {
    /// Both give values.
    Agree,
    /// The program fails.
    Failed,
    /// Neither.
    Open,
}
