//! The outside: files that are read by name, and a sink that is written to. Each counts its faults, and may
//! tell what it has and what it took, so that a caller's contract can say what was read and written, and that
//! an error had its cause outside. A sink may also be told how far the work for it is.
#![tactic(auto)]

mod memory_shelf;
mod memory_sink;
mod outside;
mod progress;
mod reading;
mod writing;

pub use memory_shelf::{MemoryShelf, sound_shelf_never_fails};
pub use memory_sink::{MemorySink, sink_with_room_never_fails};
pub use outside::{Failed, Shelf, Sink};
pub use progress::{Nobody, Progress, Work};
pub use reading::{ReadTrouble, read_whole};
pub use writing::write_whole;
