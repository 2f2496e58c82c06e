//! Heaps of bytes, at values that are known from elsewhere.

ghost use Rattle.std.specs.Prelude.{◌≡◌, ◌+◌, ◌^◌, ◌≤◌, IfOk};
ghost use Rattle.c_values.specs.Types.{address_width};
ghost use Rattle.c_values.specs.CodeTypes.{target_of};
ghost use Rattle.c_memory.specs.CodeHeap.{memory_of};
ghost use Rattle.c_memory.specs.Heap.{IsHeap, OnBytes};

use crate::heaps::{
    UINT, copy_value, define, heap_of_row, is_root, pair, put_word, struct_type, word_at,
};
use c_memory::{ByteHeap, Heap, HeapFault};
use c_values::{CType, IntType, Layout, Target};
use std::alloc::{AllocError, Global};
use std::test::Fail;

fn named(alloc: Global) -> Result<CType, AllocError> {
    struct_type(alloc, "p")
}

// A layout with a struct `p` of a byte and an `unsigned`.
fn layout(alloc: Global, target: Target) -> Result<Layout, Fail> {
    let mut l = Layout::build(target, Vec::new(alloc))?;
    define(alloc, &mut l, pair(alloc)?)?;
    Ok(l)
}

// The last address of the space.
fn last_address(target: Target) -> u64
    ensures end { result + 1 ≡ 2 ^ address_width (target_of target) }
    ensures least { 2 ^ 32 ≤ result + 1 }
{
    match target {
        Target::Ilp32 => u64::from(u32::MAX),
        Target::Lp64 => u64::MAX,
    }
}

// A heap with eight bytes at each of two addresses, and two tags.
fn heap_of(
    alloc: Global,
    l: &Layout,
    first: (u64, [u8; 8]),
    second: (u64, [u8; 8]),
    tags: [(u64, CType); 2],
) -> Result<ByteHeap, Fail>
    ensures { IfOk result (λ h. IsHeap l.now (OnBytes (memory_of h))) }
{
    let last = last_address(l.target());
    if second.0 < 8 || second.0 - 8 < first.0 || last - 7 < second.0 {
        return Err(Fail::from("no bytes"));
    }
    if !is_root(l, &tags[0].1) || !is_root(l, &tags[1].1) {
        return Err(Fail::from("no tags"));
    }
    let low = Vec::from_slice(alloc, &first.1)?;
    let high = Vec::from_slice(alloc, &second.1)?;
    let bytes = [(first.0, low), (second.0, high)];
    Ok(ByteHeap::new(alloc, l, &bytes, &tags)?)
}

// What is wrong with two tags.
fn fault_of(
    alloc: Global,
    target: Target,
    first: (u64, CType),
    second: (u64, CType),
) -> Result<Option<HeapFault>, Fail> {
    let l = layout(alloc, target)?;
    let tags = [first, second];
    if !is_root(&l, &tags[0].1) || !is_root(&l, &tags[1].1) {
        return Err(Fail::from("no tags"));
    }
    Ok(ByteHeap::new(alloc, &l, &[], &tags).err())
}

// The bytes from an address on.
fn bytes_at(h: &ByteHeap, address: u32) -> [u8; 8] {
    let mut bytes = [0; 8];
    for i in 0..8u32 {
        bytes[i as usize] = h.byte(u64::from(address) + u64::from(i));
    }
    bytes
}

#[test]
fn misaligned_tags(rt: HostRuntime) -> Result<(), Fail> {
    let alloc = rt.alloc();
    for target in [Target::Ilp32, Target::Lp64] {
        let fault = fault_of(alloc, target, (4096, UINT), (4102, UINT))?;
        assert!(rt; fault == Some(HeapFault::Misaligned(1)));
    }
    // The end of the space is no multiple of a size.
    let fault = fault_of(alloc, Target::Lp64, (u64::MAX, UINT), (4096, UINT))?;
    assert!(rt; fault == Some(HeapFault::Misaligned(0)));
    Ok(())
}

#[test]
fn null_tags(rt: HostRuntime) -> Result<(), Fail> {
    let alloc = rt.alloc();
    for target in [Target::Ilp32, Target::Lp64] {
        let fault = fault_of(alloc, target, (4096, UINT), (0, named(alloc)?))?;
        assert!(rt; fault == Some(HeapFault::Null(1)));
    }
    Ok(())
}

#[test]
fn tags_past_the_end(rt: HostRuntime) -> Result<(), Fail> {
    let alloc = rt.alloc();
    for target in [Target::Ilp32, Target::Lp64] {
        let end = last_address(target) - 3;
        let fault = fault_of(alloc, target, (end, UINT), (4096, UINT))?;
        assert!(rt; fault == None);
        let fault = fault_of(alloc, target, (4096, UINT), (end, named(alloc)?))?;
        assert!(rt; fault == Some(HeapFault::Past(1)));
    }
    Ok(())
}

#[test]
fn overlapping_tags(rt: HostRuntime) -> Result<(), Fail> {
    let alloc = rt.alloc();
    for target in [Target::Ilp32, Target::Lp64] {
        let end = last_address(target) - 7;
        for (struct_at, word_at, overlaps) in [
            (4096, 4092, false),
            (4096, 4096, true),
            (4096, 4100, true),
            (4096, 4104, false),
            (end, end - 4, false),
            (end, end + 4, true),
        ] {
            let want = overlaps.then_some(HeapFault::Overlap(1));
            let (first, second) = ((struct_at, named(alloc)?), (word_at, UINT));
            assert!(rt;
                fault_of(alloc, target, first, second)? == want,
                "{word_at}"
            );
            let (first, second) = ((word_at, UINT), (struct_at, named(alloc)?));
            assert!(rt;
                fault_of(alloc, target, first, second)? == want,
                "{word_at}"
            );
        }
    }
    Ok(())
}

#[test]
fn numbers_of_pages(rt: HostRuntime) -> Result<(), Fail> {
    let alloc = rt.alloc();
    let l = layout(alloc, Target::Ilp32)?;
    let first = (4096, [1, 0, 0, 0, 0, 32, 0, 0]);
    let second = (8192, [9, 0, 0, 0, 0, 0, 0, 0]);
    let tags = [(4096, named(alloc)?), (12288, UINT)];
    let mut h = heap_of(alloc, &l, first, second, tags)?;
    assert!(rt; h.pages() == 2);
    assert!(rt; word_at(&h, &l, &UINT, 4100, &[]) == Some(8192));
    put_word(alloc, &mut h, &l, &UINT, 12288, &[], 1)?;
    assert!(rt; h.pages() == 3);
    assert!(rt; word_at(&h, &l, &UINT, 16384, &[]) == Some(0));
    assert!(rt; h.pages() == 3);
    Ok(())
}

// What is read after a number was written, and how many pages are then kept.
fn written(alloc: Global, i: IntType, address: u64, bits: u64) -> Result<(u64, usize), Fail> {
    let l = layout(alloc, Target::Lp64)?;
    let mut h = ByteHeap::new(alloc, &l, &[], &[])?;
    let ty = CType::Int(i);
    put_word(alloc, &mut h, &l, &ty, address, &[], bits)?;
    let word = word_at(&h, &l, &ty, address, &[]).ok_or("no word")?;
    Ok((word, h.pages()))
}

#[test]
fn words_of_each_width(rt: HostRuntime) -> Result<(), Fail> {
    let all = 0x8877_6655_4433_2211;
    // In a page, and over its end.
    let rows = [
        (IntType::UChar, 4607, 0x11, 1),
        (IntType::UShort, 4606, 0x2211, 1),
        (IntType::UShort, 4607, 0x2211, 2),
        (IntType::UInt, 4604, 0x4433_2211, 1),
        (IntType::UInt, 4607, 0x4433_2211, 2),
        (IntType::ULong, 4600, all, 1),
        (IntType::ULong, 4607, all, 2),
    ];
    for (i, address, want, pages) in rows {
        let found = written(rt.alloc(), i, address, all)?;
        assert!(rt; found == (want, pages), "{address}");
    }
    Ok(())
}

#[test]
fn words_over_the_end_of_the_space(rt: HostRuntime) -> Result<(), Fail> {
    let alloc = rt.alloc();
    for target in [Target::Ilp32, Target::Lp64] {
        let l = layout(alloc, target)?;
        let last = last_address(target);
        let first = (0, [3, 4, 0, 0, 0, 0, 0, 0]);
        let second = (last - 7, [0, 0, 0, 0, 0, 0, 1, 2]);
        let tags = [(4096, UINT), (8192, UINT)];
        let mut h = heap_of(alloc, &l, first, second, tags)?;
        assert!(rt; word_at(&h, &l, &UINT, last - 1, &[]) == Some(0x0403_0201));
        assert!(rt; h.pages() == 2);
        put_word(alloc, &mut h, &l, &UINT, last - 1, &[], 0x0807_0605)?;
        assert!(rt; bytes_at(&h, 0) == [7, 8, 0, 0, 0, 0, 0, 0]);
        assert!(rt; (h.byte(last - 1), h.byte(last)) == (5, 6));
        assert!(rt; h.pages() == 2);
    }
    Ok(())
}

#[test]
fn padding_of_a_copy(rt: HostRuntime) -> Result<(), Fail> {
    let alloc = rt.alloc();
    let l = layout(alloc, Target::Ilp32)?;
    let first = (4096, [1, 0xaa, 0xaa, 0xaa, 2, 0, 0, 0]);
    let second = (4104, [3, 0xbb, 0xbb, 0xbb, 4, 0, 0, 0]);
    let tags = [(4096, named(alloc)?), (4104, named(alloc)?)];
    let mut h = heap_of(alloc, &l, first, second, tags)?;
    copy_value(alloc, &mut h, &l, &named(alloc)?, 4104, 4096)?;
    assert!(rt; bytes_at(&h, 4096) == first.1);
    assert!(rt; bytes_at(&h, 4104) == [1, 0xbb, 0xbb, 0xbb, 2, 0, 0, 0]);
    Ok(())
}

#[test]
fn ten_thousand_tags(rt: HostRuntime) -> Result<(), Fail> {
    let l = layout(rt.alloc(), Target::Ilp32)?;
    let h = heap_of_row(rt.alloc(), &l, 10000)?;
    assert!(rt; h.tags().len() == 10000);
    for k in 0..10000u64 {
        assert!(rt; h.tagged(&l, &UINT, 4096 + 4 * k), "{k}");
    }
    assert!(rt; !h.tagged(&l, &UINT, 44096));
    Ok(())
}
