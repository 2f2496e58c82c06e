//! Where the members of structs lie, and how much memory types take.

ghost use Rattle.std.specs.Prelude.{◌≤◌};

use std::collections::HashMap;

/// The bytes of the largest object.
pub(crate) const LARGEST: u32 = 65536;

/// Where the members of a struct lie.
#[derive(Debug, Drop)]
pub(crate) struct Places {
    /// The struct's place among the structs of the layout.
    pub(crate) position: usize,
    /// In bytes.
    pub(crate) size: u32,
    pub(crate) alignment: u32,
    /// Of each member.
    pub(crate) offsets: Vec<u32>,
    ghost small: { size ≤ 65536 },
    ghost some: { 1 ≤ alignment },
    ghost few: { alignment ≤ 8 },
}

/// The places of structs, by their names.
pub(crate) type Table = HashMap<String, Places>;

/// What memory an object of a type takes.
#[derive(Clone, Copy, Debug)]
pub(crate) struct Extent {
    /// Whether it is a complete object type.
    pub(crate) complete: bool,
    /// In bytes, or one more than the largest object where it is larger.
    pub(crate) size: u32,
    pub(crate) alignment: u32,
    ghost growing: { size ≤ 65537 },
    ghost some: { 1 ≤ alignment },
    ghost few: { alignment ≤ 8 },
}
