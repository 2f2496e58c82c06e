//! Heaps of bytes and typed heaps with the same tags, written alike.

ghost use Rattle.std.specs.Prelude.{IfOk, IfSome};
ghost use Rattle.c_memory.specs.CodeHeap.{memory_of};
ghost use Rattle.c_memory.specs.Heap.{IsHeap, OnBytes};
ghost use Rattle.typed_heap.specs.CodeCells.{typed_content};

use crate::heaps::{
    BYTE, UINT, copy_value, covers, define, heap_of_row, is_root, member, pair, put_word,
    struct_of, struct_type, word_at,
};
use c_memory::{ByteHeap, HeapFault, Step};
use c_values::{CType, Layout, Number, StructDef, Target};
use std::alloc::{AllocError, Global};
use std::test::Fail;
use typed_heap::{TypedHeap, view};

// So many of a type, one after the other.
fn row_of(alloc: Global, ty: CType, length: u32) -> Result<CType, AllocError> {
    Ok(CType::Array(Box::new(alloc, ty)?, length))
}

// A struct `q` of two `p` and three bytes.
fn pairs(alloc: Global) -> Result<StructDef, AllocError> {
    let mut members = Vec::new(alloc);
    let pairs = row_of(alloc, struct_type(alloc, "p")?, 2)?;
    members.push(member(alloc, "pair", pairs)?)?;
    let bytes = row_of(alloc, BYTE, 3)?;
    members.push(member(alloc, "row", bytes)?)?;
    struct_of(alloc, "q", members)
}

// A layout with a struct `p` of a byte and an `unsigned`, and `q`.
fn layout(alloc: Global, target: Target) -> Result<Layout, Fail> {
    let mut l = Layout::build(target, Vec::new(alloc))?;
    define(alloc, &mut l, pair(alloc)?)?;
    define(alloc, &mut l, pairs(alloc)?)?;
    Ok(l)
}

// Bytes that are all 0, with two tags. There are none where a type may not be that of a tag.
fn zero_bytes(
    alloc: Global,
    l: &Layout,
    first: (u64, CType),
    second: (u64, CType),
) -> Result<Option<ByteHeap>, HeapFault>
    ensures { IfOk result (λ o. IfSome o (λ h. IsHeap l.now (OnBytes (memory_of h)))) }
{
    let tags = [first, second];
    if is_root(l, &tags[0].1) && is_root(l, &tags[1].1) {
        Ok(Some(ByteHeap::new(alloc, l, &[], &tags)?))
    } else {
        Ok(None)
    }
}

// The typed heap of bytes.
fn typed(alloc: Global, l: &Layout, h: &ByteHeap) -> Result<TypedHeap, AllocError>
    requires { IsHeap l.now (OnBytes (memory_of h.now)) }
    ensures { IfOk result (λ cells. IsHeap l.now (typed_content cells)) }
{
    let _ = l.target();
    view(alloc, l, h)
}

// A heap of bytes and a typed heap with the same tags, which are written alike.
#[derive(Drop)]
struct BothHeaps {
    l: Layout,
    bytes: ByteHeap,
    cells: TypedHeap,
}

impl BothHeaps {
    // Both are all zeros.
    fn new(alloc: Global, first: (u64, CType), second: (u64, CType)) -> Result<BothHeaps, Fail>
        ensures bytes { IfOk result (λ h. IsHeap h.l (OnBytes (memory_of h.bytes))) }
        ensures cells { IfOk result (λ h. IsHeap h.l (typed_content h.cells)) }
    {
        let l = layout(alloc, Target::Ilp32)?;
        BothHeaps::with_layout(alloc, l, first, second)
    }

    // The same, of a layout.
    fn with_layout(
        alloc: Global,
        l: Layout,
        first: (u64, CType),
        second: (u64, CType),
    ) -> Result<BothHeaps, Fail>
        ensures bytes { IfOk result (λ h. IsHeap h.l (OnBytes (memory_of h.bytes))) }
        ensures cells { IfOk result (λ h. IsHeap h.l (typed_content h.cells)) }
    {
        match zero_bytes(alloc, &l, first, second)? {
            Some(bytes) => {
                let cells = typed(alloc, &l, &bytes)?;
                Ok(BothHeaps { l, bytes, cells })
            }
            None => Err(Fail::from("no heap")),
        }
    }

    fn put(
        &mut self,
        alloc: Global,
        t: &CType,
        address: u64,
        path: &[Step],
        bits: u64,
    ) -> Result<(), AllocError>
        requires bytes { IsHeap self.old.l (OnBytes (memory_of self.old.bytes)) }
        requires cells { IsHeap self.old.l (typed_content self.old.cells) }
        ensures bytes { IsHeap self.new.l (OnBytes (memory_of self.new.bytes)) }
        ensures cells { IsHeap self.new.l (typed_content self.new.cells) }
    {
        put_word(alloc, &mut self.bytes, &self.l, t, address, path, bits)?;
        put_word(alloc, &mut self.cells, &self.l, t, address, path, bits)
    }

    fn copy(&mut self, alloc: Global, t: &CType, to: u64, from: u64) -> Result<(), AllocError>
        requires bytes { IsHeap self.old.l (OnBytes (memory_of self.old.bytes)) }
        requires cells { IsHeap self.old.l (typed_content self.old.cells) }
        ensures bytes { IsHeap self.new.l (OnBytes (memory_of self.new.bytes)) }
        ensures cells { IsHeap self.new.l (typed_content self.new.cells) }
    {
        copy_value(alloc, &mut self.bytes, &self.l, t, to, from)?;
        copy_value(alloc, &mut self.cells, &self.l, t, to, from)
    }

    // The word in the bytes, and in the typed heap.
    fn words(&self, t: &CType, address: u64, path: &[Step]) -> (Option<u64>, Option<u64>)
        requires bytes { IsHeap self.now.l (OnBytes (memory_of self.now.bytes)) }
        requires cells { IsHeap self.now.l (typed_content self.now.cells) }
    {
        (
            word_at(&self.bytes, &self.l, t, address, path),
            word_at(&self.cells, &self.l, t, address, path),
        )
    }

    fn covers(&self, t: &CType, address: u64) -> (bool, bool)
        requires bytes { IsHeap self.now.l (OnBytes (memory_of self.now.bytes)) }
        requires cells { IsHeap self.now.l (typed_content self.now.cells) }
    {
        (
            covers(&self.bytes, &self.l, t, address),
            covers(&self.cells, &self.l, t, address),
        )
    }
}

// An element of `pair` in `q`, and in it the `unsigned`.
fn element(negative: bool, magnitude: u128) -> [Step; 3] {
    let index = Number::new(negative && magnitude != 0, magnitude);
    [Step::Field(0), Step::Index(index), Step::Field(1)]
}

// Writes two `p`, and then the first in place of the second.
fn write_pairs(alloc: Global, h: &mut BothHeaps, p: &CType) -> Result<(), AllocError>
    requires bytes { IsHeap h.old.l (OnBytes (memory_of h.old.bytes)) }
    requires cells { IsHeap h.old.l (typed_content h.old.cells) }
    ensures bytes { IsHeap h.new.l (OnBytes (memory_of h.new.bytes)) }
    ensures cells { IsHeap h.new.l (typed_content h.new.cells) }
{
    // An `unsigned` over a byte and padding is no part of a `p`.
    h.put(alloc, &UINT, 4096, &[], 0xaaaa_aaaa)?;
    h.put(alloc, &BYTE, 4096, &[], 1)?;
    h.put(alloc, &UINT, 4100, &[], 2)?;
    h.put(alloc, &UINT, 4104, &[], 0xbbbb_bbbb)?;
    h.put(alloc, &BYTE, 4104, &[], 3)?;
    h.put(alloc, &UINT, 4108, &[], 4)?;
    h.copy(alloc, p, 4104, 4096)
}

#[test]
fn padding_stays(rt: HostRuntime) -> Result<(), Fail> {
    let alloc = rt.alloc();
    let p = struct_type(alloc, "p")?;
    let first = struct_type(alloc, "p")?;
    let second = struct_type(alloc, "p")?;
    let mut h = BothHeaps::new(alloc, (4096, first), (4104, second))?;
    write_pairs(alloc, &mut h, &p)?;
    assert!(rt; h.words(&UINT, 4104, &[]) == (Some(0xbbbb_bb01), Some(0)));
    for (address, k, want) in [(4096, 0, 1), (4096, 1, 2), (4104, 0, 1), (4104, 1, 2)] {
        let words = h.words(&p, address, &[Step::Field(k)]);
        assert!(rt; words == (Some(want), Some(want)), "{address}");
    }
    Ok(())
}

// Writes the two elements of a `q`, and what is before and behind them.
fn write_elements(alloc: Global, h: &mut BothHeaps, q: &CType) -> Result<(), AllocError>
    requires bytes { IsHeap h.old.l (OnBytes (memory_of h.old.bytes)) }
    requires cells { IsHeap h.old.l (typed_content h.old.cells) }
    ensures bytes { IsHeap h.new.l (OnBytes (memory_of h.new.bytes)) }
    ensures cells { IsHeap h.new.l (typed_content h.new.cells) }
{
    h.put(alloc, q, 4096, &element(false, 0), 10)?;
    h.put(alloc, q, 4096, &element(false, 1), 11)?;
    h.put(alloc, &UINT, 4116, &[], 12)?;
    h.put(alloc, &UINT, 4092, &[], 13)
}

// Writes at indices past the elements.
fn write_past(alloc: Global, h: &mut BothHeaps, q: &CType) -> Result<(), AllocError>
    requires bytes { IsHeap h.old.l (OnBytes (memory_of h.old.bytes)) }
    requires cells { IsHeap h.old.l (typed_content h.old.cells) }
    ensures bytes { IsHeap h.new.l (OnBytes (memory_of h.new.bytes)) }
    ensures cells { IsHeap h.new.l (typed_content h.new.cells) }
{
    h.put(alloc, q, 4096, &element(false, 2), 99)?;
    h.put(alloc, q, 4096, &element(true, 1), 99)?;
    h.put(alloc, q, 4096, &element(false, 1 << 127), 99)
}

#[test]
fn indices_of_elements(rt: HostRuntime) -> Result<(), Fail> {
    let alloc = rt.alloc();
    let q = struct_type(alloc, "q")?;
    let tag = struct_type(alloc, "q")?;
    let mut h = BothHeaps::new(alloc, (4096, tag), (8192, UINT))?;
    write_elements(alloc, &mut h, &q)?;
    let rows = [
        (false, 0, 10, 10),
        (false, 1, 11, 11),
        (false, 2, 12, 10),
        (true, 1, 13, 10),
        (false, 1 << 127, 10, 10),
        (true, 1 << 127, 10, 10),
    ];
    for (negative, magnitude, in_bytes, in_cells) in rows {
        let words = h.words(&q, 4096, &element(negative, magnitude));
        assert!(rt; words == (Some(in_bytes), Some(in_cells)), "{magnitude}");
    }
    write_past(alloc, &mut h, &q)?;
    for (address, in_bytes, in_cells) in [
        (4100, 99, 10),
        (4108, 11, 11),
        (4116, 99, 0),
        (4092, 99, 0),
    ] {
        let words = h.words(&UINT, address, &[]);
        assert!(rt; words == (Some(in_bytes), Some(in_cells)), "{address}");
    }
    Ok(())
}

// Writes parts of a `q`, and a word that no tag covers.
fn write_parts(alloc: Global, h: &mut BothHeaps, p: &CType) -> Result<(), AllocError>
    requires bytes { IsHeap h.old.l (OnBytes (memory_of h.old.bytes)) }
    requires cells { IsHeap h.old.l (typed_content h.old.cells) }
    ensures bytes { IsHeap h.new.l (OnBytes (memory_of h.new.bytes)) }
    ensures cells { IsHeap h.new.l (typed_content h.new.cells) }
{
    h.put(alloc, &UINT, 4108, &[], 5)?;
    h.put(alloc, p, 4104, &[Step::Field(0)], 6)?;
    h.put(alloc, &UINT, 8196, &[], 7)
}

#[test]
fn roots_of_two_types(rt: HostRuntime) -> Result<(), Fail> {
    let alloc = rt.alloc();
    let p = struct_type(alloc, "p")?;
    let q = struct_type(alloc, "q")?;
    let row = CType::Array(Box::new(alloc, BYTE)?, 3);
    let tag = struct_type(alloc, "q")?;
    let mut h = BothHeaps::new(alloc, (4096, tag), (8192, UINT))?;
    let roots = [
        (&q, 4096, true),
        (&p, 4096, true),
        (&p, 4104, true),
        (&UINT, 4100, true),
        (&BYTE, 4114, true),
        (&UINT, 4096, false),
        (&UINT, 4112, false),
        (&row, 4112, false),
        (&UINT, 8196, false),
    ];
    for (t, address, want) in roots {
        assert!(rt; h.covers(t, address) == (want, want), "{address}");
    }
    write_parts(alloc, &mut h, &p)?;
    assert!(rt; h.words(&q, 4096, &element(false, 1)) == (Some(5), Some(5)));
    assert!(rt; h.words(&BYTE, 4104, &[]) == (Some(6), Some(6)));
    assert!(rt; h.words(&UINT, 8196, &[]) == (Some(7), Some(0)));
    assert!(rt; h.words(&UINT, 8192, &[]) == (Some(0), Some(0)));
    Ok(())
}

#[test]
fn views_of_many_tags(rt: HostRuntime) -> Result<(), Fail> {
    let alloc = rt.alloc();
    let l = layout(alloc, Target::Ilp32)?;
    for count in [100, 1000, 10000] {
        let mut h = heap_of_row(alloc, &l, count)?;
        let last = 4092 + 4 * u64::from(count);
        put_word(alloc, &mut h, &l, &UINT, last, &[], 7)?;
        let cells = typed(alloc, &l, &h)?;
        assert!(rt; word_at(&cells, &l, &UINT, last, &[]) == Some(7));
        assert!(rt; word_at(&cells, &l, &UINT, last + 4, &[]) == Some(0));
    }
    Ok(())
}

// A layout with a struct `d`, whose one member is an `unsigned` in so many arrays of one element.
fn deep_layout(alloc: Global, depth: u32) -> Result<Layout, Fail> {
    let mut ty = UINT;
    for _ in 0..depth {
        ty = CType::Array(Box::new(alloc, ty)?, 1);
    }
    let mut members = Vec::new(alloc);
    members.push(member(alloc, "a", ty)?)?;
    let mut l = Layout::build(Target::Ilp32, Vec::new(alloc))?;
    define(alloc, &mut l, struct_of(alloc, "d", members)?)?;
    Ok(l)
}

// The path to the `unsigned` in `d`.
fn deep_path(alloc: Global, depth: u32) -> Result<Vec<Step>, AllocError> {
    let mut path = Vec::new(alloc);
    path.push(Step::Field(0))?;
    for _ in 0..depth {
        path.push(Step::Index(Number::new(false, 0)))?;
    }
    Ok(path)
}

// Writes a `d`, puts it in place of another, and writes it again at the path.
fn write_deep(alloc: Global, h: &mut BothHeaps, d: &CType, path: &[Step]) -> Result<(), AllocError>
    requires bytes { IsHeap h.old.l (OnBytes (memory_of h.old.bytes)) }
    requires cells { IsHeap h.old.l (typed_content h.old.cells) }
    ensures bytes { IsHeap h.new.l (OnBytes (memory_of h.new.bytes)) }
    ensures cells { IsHeap h.new.l (typed_content h.new.cells) }
{
    h.put(alloc, &UINT, 4096, &[], 7)?;
    h.copy(alloc, d, 8192, 4096)?;
    h.put(alloc, d, 4096, path, 8)
}

#[test]
fn values_of_deep_types(rt: HostRuntime) -> Result<(), Fail> {
    let alloc = rt.alloc();
    let l = deep_layout(alloc, 80_000)?;
    let path = deep_path(alloc, 80_000)?;
    let d = struct_type(alloc, "d")?;
    let first = struct_type(alloc, "d")?;
    let second = struct_type(alloc, "d")?;
    let mut h = BothHeaps::with_layout(alloc, l, (4096, first), (8192, second))?;
    write_deep(alloc, &mut h, &d, &path)?;
    assert!(rt; h.words(&UINT, 8192, &[]) == (Some(7), Some(7)));
    assert!(rt; h.words(&UINT, 4096, &[]) == (Some(8), Some(8)));
    assert!(rt; h.words(&d, 8192, &path) == (Some(7), Some(7)));
    Ok(())
}
