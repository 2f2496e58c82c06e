//! Heaps of bytes.

use crate::pages::Pages;
use crate::tag_table::TagTable;

/// Memory of bytes with tags. It keeps pages of 256 bytes; a page that it doesn't keep is all zeros.
#[derive(Drop)]
pub struct ByteHeap {
    pub(crate) pages: Pages,
    pub(crate) tags: TagTable,
}
