//! What functions take and give.

use crate::sort::{Kind, Level};

/// A name with its kind.
#[derive(Debug, Drop)]
pub struct Binder {
    pub name: String,
    pub kind: Kind,
}

/// A function's name, its level, and what it takes and gives.
#[derive(Debug, Drop)]
pub struct Signature {
    pub name: String,
    pub level: Level,
    /// The parameters in their order.
    pub params: Vec<Binder>,
    /// The kind of the result, or none.
    pub result: Option<Kind>,
}
