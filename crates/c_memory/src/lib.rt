//! Memory of bytes with tags, typed heaps, and what reads and writes mean on either.
#![tactic(auto)]

mod addresses;
mod byte_heap;
mod byte_heap_calls;
mod byte_heap_places;
mod faults;
pub mod heap_laws;
mod heaps;
mod loads;
pub mod memory_laws;
mod nearest;
mod pages;
mod parts;
mod parts_of_values;
mod paths;
mod ranges;
mod selecting;
mod steps;
mod stores;
mod tag_faults;
pub mod tag_laws;
mod tag_table;
mod words;

pub use addresses::element_address;
pub use byte_heap::ByteHeap;
pub use faults::HeapFault;
pub use heaps::Heap;
pub use parts::{Part, is_root_here, part_at};
pub use paths::{Place, place_at};
pub use selecting::{part_by, place_of, replace, select};
pub use steps::Step;
pub use tag_table::TagTable;
