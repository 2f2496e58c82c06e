//! Memories that runs start from.

use c_values::{CType, Value};

/// What a run starts from. Each part is as the text has it.
pub struct MemoryText {
    /// The function that is run.
    pub function: String,
    /// The arguments, integers and addresses being numbers.
    pub arguments: Vec<Value>,
    /// How many turns the run has.
    pub turns: u32,
    /// What a choice gives that is left open.
    pub fill: u64,
    /// Bytes, each range of them from its address on.
    pub bytes: Vec<(u64, Vec<u8>)>,
    /// Where objects lie, and their types.
    pub tags: Vec<(u64, CType)>,
    /// The globals that don't begin with their initial values.
    pub globals: Vec<(String, Value)>,
}

impl Drop for MemoryText {
    fn drop(self) {
        let MemoryText {
            function: _function,
            arguments: _arguments,
            turns: _,
            fill: _,
            bytes: _bytes,
            tags: _tags,
            globals: _globals,
        } = self;
    }
}
