//! The texts of memories that runs start from, both ways.
#![tactic(auto)]

mod call_reading;
mod fault;
mod memory;
mod memory_reading;
mod numbers;
mod parts;
mod range_reading;
mod setting_reading;
mod tag_reading;
mod texts;
mod types;
mod value_reading;
mod writing;

pub use fault::MemoryFault;
pub use memory::MemoryText;
pub use texts::{read_memory, write_memory};
pub use types::{Types, types_of};
