//! How runs of functions end.

use c_memory::ByteHeap;
use c_values::Value;
use simpl_lang::GuardKind;

/// Memory, and the values of the globals in the unit's order.
#[derive(Drop)]
pub struct CState {
    pub heap: ByteHeap,
    pub globals: Vec<Value>,
}

/// How a run of a function of commands ends.
#[derive(Drop)]
pub enum COutcome {
    /// It gives a value, where the function has a result, and this state.
    Value(Option<Value>, CState),
    /// A guard of this kind doesn't hold.
    Guard(GuardKind),
    /// A turn of a loop or a call is asked at the bound 0.
    OutOfTurns,
    /// A call would be the 257th nested inside the first function.
    Deep,
    /// There is no memory to go on with.
    Memory,
}
