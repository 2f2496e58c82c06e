//! What a typed heap is.

ghost use Rattle.std.specs.Prelude.{◌≡◌, length};

use c_memory::TagTable;
use c_values::Value;

/// Tags, with the value that lies at each.
#[derive(Drop)]
pub struct TypedHeap {
    pub(crate) tags: TagTable,
    pub(crate) values: Vec<Value>,
    pub ghost each: { length values.items ≡ length tags },
}
