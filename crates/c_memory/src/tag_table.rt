//! Tags, and where each lies.

ghost use Rattle.std.specs.Prelude.{◌≡◌, ◌≢◌, ◌<◌, ◌≤◌, ◌+◌, ℕ, [], ◌∷◌, ◌++◌, true, false, map, slice_get, Some, IfNone, IfSome, IfOk, MatchBool};
ghost use Rattle.c_values.specs.Layout.{is_object, size_of};
ghost use Rattle.c_values.specs.CodeTypes.{type_of};
ghost use Rattle.c_memory.specs.Memory.{Tag};
ghost use Rattle.c_memory.specs.Tags.{AreTags, is_covered};
ghost use Rattle.c_memory.specs.CodeTag.{tag_of};
ghost use Rattle.c_memory.specs.CodeTagIndex.{IsLastTag, IsNextTag, Covers, AllEndBy, OneEndsAfter, AllBeginAfter, OneBeginsWithin};
ghost use Rattle.c_memory.specs.TagFault.{is_apart};

use crate::nearest::{first_after, last_at};
use crate::parts::has_part;
use c_values::{CType, Layout, copy_of, size_of};
use std::alloc::{AllocError, Global};
use std::collections::BTreeMap;
use std::marker::Model;

/// Tags in order. Contracts see them as a list; beside it there is a map from their addresses to their positions.
#[derive(Drop)]
pub struct TagTable {
    tags: Vec<(u64, CType)>,
    places: BTreeMap<u64, usize>,
}

impl Model for TagTable {
    ghost use Rattle.std.specs.Prelude.{List, map};
    ghost use Rattle.c_memory.specs.Memory.{Tag};
    ghost use Rattle.c_memory.specs.CodeTag.{tag_of};
    ghost use Rattle.c_memory.specs.CodeTagIndex.{tags_code, IsIndex};

    ghost Value = { List Tag };

    ghost coded = { tags_code };

    ghost view = { λ t. map tag_of t.tags.items };

    ghost invariant = { λ t. IsIndex (map tag_of t.tags.items) t.places };
}

impl TagTable {
    /// No tags.
    pub fn new(alloc: Global) -> TagTable
        ensures { result ≡ [] }
    {
        TagTable {
            tags: Vec::new(alloc),
            places: BTreeMap::new(alloc),
        }
    }

    /// The tags.
    pub fn tags(&self) -> &[(u64, CType)]
        ensures { map tag_of result.now ≡ self.now }
    {
        &self.tags
    }

    /// The same tags, and one more at an address that none has.
    pub fn with(self, address: u64, ty: CType) -> Result<TagTable, AllocError>
        requires { (k : ℕ) (t : Tag) → slice_get self k ≡ Some t → t.address ≢ address }
        ensures { IfOk result
            (λ table. table ≡ self ++ record { address = address; type = type_of ty } ∷ []) }
    {
        let TagTable {
            mut tags,
            mut places,
        } = self;
        places.insert(address, tags.len())?;
        tags.push((address, ty))?;
        Ok(TagTable { tags, places })
    }

    /// A copy.
    pub fn copy(&self, alloc: Global) -> Result<TagTable, AllocError>
        ensures { IfOk result (λ table. table ≡ self.now) }
    {
        let mut tags = Vec::new(alloc);
        for (address, ty) in &self.tags {
            tags.push((*address, copy_of(alloc, ty)?))?;
        }
        let places = self.places.clone()?;
        Ok(TagTable { tags, places })
    }

    /// The position of the last tag at or below an address.
    pub(crate) fn last_at(&self, address: u64) -> Option<usize>
        ensures none { IfNone result ((k : ℕ) (t : Tag) → slice_get self.now k ≡ Some t →
            address < t.address) }
        ensures some { IfSome result (IsLastTag self.now address) }
    {
        last_at(&self.places, address)
    }

    /// The position of the first tag after an address.
    pub(crate) fn first_after(&self, address: u64) -> Option<usize>
        ensures none { IfNone result ((k : ℕ) (t : Tag) → slice_get self.now k ≡ Some t →
            t.address ≤ address) }
        ensures some { IfSome result (IsNextTag self.now address) }
    {
        first_after(&self.places, address)
    }

    /// The position of the tag that covers a root.
    pub fn find(&self, l: &Layout, t: &CType, address: u64) -> Option<usize>
        requires { AreTags l.now self.now }
        ensures none { IfNone result (is_covered l.now self.now (type_of t.now) address ≡ false) }
        ensures some { IfSome result (Covers l.now self.now (type_of t.now) address) }
    {
        let Some(k) = self.last_at(address) else {
            return None;
        };
        let (start, ty) = &self.tags()[k];
        if has_part(l, ty, t, address - *start) {
            Some(k)
        } else {
            None
        }
    }

    // Whether an object has no byte in common with those of the tags. They are apart, so its neighbours tell.
    pub(crate) fn is_apart(&self, l: &Layout, t: &CType, address: u64) -> bool
        requires tags { AreTags l.now self.now }
        requires object { is_object l.now (type_of t.now) ≡ true }
        ensures { result ≡ is_apart l.now
            (record { address = address; type = type_of t.now }) self.now }
    {
        let size = size_of(l, t);
        self.all_end_by(l, address) && self.all_begin_after(address, size)
    }

    // Whether each object at or below an address ends by it.
    fn all_end_by(&self, l: &Layout, address: u64) -> bool
        requires { AreTags l.now self.now }
        ensures { MatchBool result (AllEndBy l.now self.now address)
            (OneEndsAfter l.now self.now address) }
    {
        match self.last_at(address) {
            Some(k) => {
                let (start, ty) = &self.tags()[k];
                u64::from(size_of(l, ty)) <= address - *start
            }
            None => true,
        }
    }

    // Whether each object after an address begins at or after the end of so many bytes.
    fn all_begin_after(&self, address: u64, bytes: u32) -> bool
        ensures { MatchBool result (AllBeginAfter self.now address bytes)
            (OneBeginsWithin self.now address bytes) }
    {
        match self.first_after(address) {
            Some(k) => {
                let (start, _) = &self.tags()[k];
                u64::from(bytes) <= *start - address
            }
            None => true,
        }
    }
}
