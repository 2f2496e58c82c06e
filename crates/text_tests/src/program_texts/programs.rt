//! Texts of programs are read and written, and trees that are none are refused at their place.

use ac_sx::write;
use expression_text::TextFault;
use program_text::{read_kind, read_mon, write_kind, write_mon};
use std::alloc::Global;
use std::process::Abort;
use std::test::Fail;
use test_texts::{around, tree_of};

// What is read is written again as it was.
fn is_read(rt: &impl Abort, alloc: Global, text: &str) -> Result<(), Fail> {
    let m = read_mon(alloc, &tree_of(alloc, text)?)?;
    let again = write(alloc, &write_mon(alloc, &m)?)?;
    assert!(rt;
        again.strip_suffix(b"\n") == Some(text.as_bytes()),
        "{text}"
    );
    Ok(())
}

fn is_refused(rt: &impl Abort, alloc: Global, text: &str, at: u32) -> Result<(), Fail> {
    match read_mon(alloc, &tree_of(alloc, text)?) {
        Ok(_) => panic!(rt; "read: {text}"),
        Err(found) => assert!(rt; found == TextFault::Shape(at), "{text}: {found:?}"),
    }
    Ok(())
}

#[test]
fn programs_are_read(rt: HostRuntime) -> Result<(), Fail> {
    let alloc = rt.alloc();
    for text in [
        "(ret)",
        "(ret x (add 1 -2) #t)",
        "(do () (guard #f) (ret))",
        "(do (x $y _1) (call f a (w 8 255)) () (pick bool) (z) (pick (nat 16)) (ret z x))",
        "(do (a) (do (b) (ret 1) (ret b)) (ret a))",
        "(if (eq x y) (ret x) (do (z) (pick (w 64)) (ret z)))",
        "(store uint p () e)",
        "(write (ptr (struct s)) (at uint p) ((f 0) (i k)) v)",
        "(gset g ((f 7)) 5)",
        "(gset g () x)",
        "(loop () #t #f (ret))",
        "(loop ((i 0) (s x)) (le i n) (lt i n) (if c (ret i s) (ret (add i 1) s)))",
        "(call f)",
        "(pick (int 32))",
    ] {
        is_read(&rt, alloc, text)?;
    }
    Ok(())
}

#[test]
fn other_trees_are_refused(rt: HostRuntime) -> Result<(), Fail> {
    let alloc = rt.alloc();
    for (text, at) in [
        ("ret", 0),
        ("()", 0),
        ("((ret))", 0),
        ("(return x)", 0),
        ("(ret x y 01)", 4),
        ("(ret x (add 1))", 3),
        ("(do)", 0),
        ("(do () (ret))", 0),
        ("(do () (ret) ())", 5),
        ("(do () (ret) () (ret))", 0),
        ("(do x (ret) (ret))", 2),
        ("(do (x 1) (ret) (ret))", 4),
        ("(do (x y x) (ret) (ret))", 5),
        ("(do (x) (ret) (do () (ret) (ret)))", 6),
        ("(do (x) (ret) (do))", 6),
        ("(do (x) (ret) y)", 6),
        ("(do (x) y (ret))", 4),
        ("(do (x) (ret) (y) (rat) (ret))", 8),
        ("(do () (do () (ret) y) (ret))", 8),
        ("(guard)", 0),
        ("(guard a b)", 0),
        ("(guard (a))", 2),
        ("(if c (ret))", 0),
        ("(if c (ret) (ret) (ret))", 0),
        ("(if () (ret) (ret))", 2),
        ("(if c ret (ret))", 3),
        ("(if c (ret) (ret 0x))", 7),
        ("(store uint p ())", 0),
        ("(store uint p () e e)", 0),
        ("(store unt p () e)", 2),
        ("(store uint () () e)", 3),
        ("(store uint p s e)", 4),
        ("(store uint p ((f x)) e)", 7),
        ("(write uint p () ())", 5),
        ("(write uint p ())", 0),
        ("(gset g ())", 0),
        ("(gset (g) () 1)", 2),
        ("(gset g ((g 1)) 1)", 4),
        ("(gset g () 1-)", 4),
        ("(loop () #t #f)", 0),
        ("(loop () #t #f (ret) (ret))", 0),
        ("(loop x #t #f (ret))", 2),
        ("(loop (x) #t #f (ret))", 3),
        ("(loop ((x)) #t #f (ret))", 3),
        ("(loop ((x 1) (x 2)) #t #f (ret))", 7),
        ("(loop ((x 1) (y ())) #t #f (ret))", 8),
        ("(loop ((x 1)) () #f (ret))", 6),
        ("(loop ((x 1)) #t () (ret))", 7),
        ("(loop ((x 1)) #t #f ())", 8),
        ("(call)", 0),
        ("(call 1 x)", 2),
        ("(call f x ())", 4),
        ("(pick)", 0),
        ("(pick bool bool)", 0),
        ("(pick int)", 2),
        ("(pick (w 7))", 4),
    ] {
        is_refused(&rt, alloc, text, at)?;
    }
    Ok(())
}

#[test]
fn kinds_are_read(rt: HostRuntime) -> Result<(), Fail> {
    let alloc = rt.alloc();
    for text in ["bool", "(w 8)", "(nat 16)", "(int 64)"] {
        let kind = read_kind(&tree_of(alloc, text)?)?;
        let again = write(alloc, &write_kind(alloc, kind)?)?;
        assert!(rt;
            again.strip_suffix(b"\n") == Some(text.as_bytes()),
            "{text}"
        );
    }
    for (text, at) in [
        ("int", 0),
        ("()", 0),
        ("(bool)", 0),
        ("(w)", 0),
        ("(w 8 8)", 0),
        ("(int 12)", 2),
        ("(nat (8))", 2),
    ] {
        match read_kind(&tree_of(alloc, text)?) {
            Ok(_) => panic!(rt; "read: {text}"),
            Err(found) => assert!(rt; found == TextFault::Shape(at), "{text}: {found:?}"),
        }
    }
    Ok(())
}

#[test]
fn deep_programs_are_read(rt: HostRuntime) -> Result<(), Fail> {
    let alloc = rt.alloc();
    // The innermost program is a list, and what a loop starts is two lists more.
    for (before, behind, times) in [
        ("(if c ", " (ret))", 4095),
        ("(if c (ret) ", ")", 4095),
        ("(do () ", " (ret))", 4095),
        ("(loop ((x 1)) #t #f ", ")", 4094),
    ] {
        is_read(&rt, alloc, &around(alloc, before, "(ret)", behind, times)?)?;
    }
    Ok(())
}

#[test]
fn long_sequences_of_programs_take_no_stack(rt: HostRuntime) -> Result<(), Fail> {
    let alloc = rt.alloc();
    let text = around(alloc, "(x) (pick bool) ", "(ret)", "", 1_000_000)?;
    is_read(&rt, alloc, &around(alloc, "(do ", &text, ")", 1)?)
}
