//! Steps of any index.

use c_values::Number;

/// A step into a struct or an array.
#[derive(Clone, Copy, Debug, PartialEq, Eq)]
pub enum Step {
    /// A member, from 0.
    Field(u32),
    /// An element, from 0. The index may be of an element that isn't there.
    Index(Number),
}
