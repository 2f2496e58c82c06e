//! Texts of commands are read and written, and trees that are none are refused at their place.

use ac_sx::write;
use command_text::{read_simpl, write_simpl};
use expression_text::TextFault;
use std::alloc::Global;
use std::process::Abort;
use std::test::Fail;
use test_texts::{around, tree_of};

// What is read is written again as it was.
fn is_read(rt: &impl Abort, alloc: Global, text: &str) -> Result<(), Fail> {
    let command = read_simpl(alloc, &tree_of(alloc, text)?)?;
    let again = write(alloc, &write_simpl(alloc, &command)?)?;
    assert!(rt;
        again.strip_suffix(b"\n") == Some(text.as_bytes()),
        "{text}"
    );
    Ok(())
}

fn is_refused(rt: &impl Abort, alloc: Global, text: &str, at: u32) -> Result<(), Fail> {
    match read_simpl(alloc, &tree_of(alloc, text)?) {
        Ok(_) => panic!(rt; "read: {text}"),
        Err(found) => assert!(rt; found == TextFault::Shape(at), "{text}: {found:?}"),
    }
    Ok(())
}

#[test]
fn commands_are_read(rt: HostRuntime) -> Result<(), Fail> {
    let alloc = rt.alloc();
    for text in [
        "skip",
        "throw",
        "(set x (w 8 255))",
        "(gset g ((f 7) (i k)) -5)",
        "(gset g () x)",
        "(store uint p () e)",
        "(store (ptr (struct s)) (at uint p) ((f 0)) v)",
        "(pick $x)",
        "(seq skip throw)",
        "(seq (pick a) (seq skip throw) (set b a) throw)",
        "(cond (eq x y) skip (seq throw skip))",
        "(guard div c skip)",
        "(guard signed c (guard shift d (guard pointer e skip)))",
        "(guard bounds c (guard unreached d (guard tag e (guard wrap f throw))))",
        "(catch (seq skip throw) skip)",
        "(while () #t skip)",
        "(while ((div (not x)) (wrap y)) c (seq skip (pick z)))",
        "(call x f)",
        "(call - f (w 8 1) y)",
    ] {
        is_read(&rt, alloc, text)?;
    }
    Ok(())
}

#[test]
fn other_trees_are_no_commands(rt: HostRuntime) -> Result<(), Fail> {
    let alloc = rt.alloc();
    for (text, at) in [
        ("skp", 0),
        ("()", 0),
        ("(skip)", 0),
        ("((skip))", 0),
        ("(set x)", 0),
        ("(set x e e)", 0),
        ("(set - e)", 2),
        ("(set x ())", 3),
        ("(gset g ())", 0),
        ("(gset () () 1)", 2),
        ("(gset g s 1)", 3),
        ("(gset g () 01)", 4),
        ("(store uint p ())", 0),
        ("(store uit p () e)", 2),
        ("(store uint (p) () e)", 3),
        ("(store uint p ((i)) e)", 5),
        ("(store uint p () ())", 5),
        ("(pick)", 0),
        ("(pick x y)", 0),
        ("(pick 1)", 2),
        ("(seq)", 0),
        ("(seq skip)", 0),
        ("(seq x skip)", 2),
        ("(seq skip (seq skip skip))", 3),
        ("(seq skip (seq))", 3),
        ("(seq skip x throw)", 3),
        ("(seq (seq skip) throw)", 2),
        ("(seq skip throw x)", 4),
        ("(cond e skip)", 0),
        ("(cond e skip skip skip)", 0),
        ("(cond () skip skip)", 2),
        ("(cond e x skip)", 3),
        ("(cond e skip x)", 4),
        ("(guard div e)", 0),
        ("(guard dib e skip)", 2),
        ("(guard (div) e skip)", 2),
        ("(guard div () skip)", 3),
        ("(guard div e ())", 4),
        ("(catch skip)", 0),
        ("(catch skip skip skip)", 0),
        ("(catch x skip)", 2),
        ("(catch skip x)", 3),
        ("(while () e)", 0),
        ("(while x e skip)", 2),
        ("(while (x) e skip)", 3),
        ("(while ((div)) e skip)", 3),
        ("(while ((x e)) e skip)", 4),
        ("(while ((div e) (tag ())) e skip)", 8),
        ("(while () () skip)", 3),
        ("(while () e x)", 4),
        ("(call x)", 0),
        ("(call 1 f)", 2),
        ("(call (x) f)", 2),
        ("(call - -)", 3),
        ("(call x f ())", 4),
    ] {
        is_refused(&rt, alloc, text, at)?;
    }
    Ok(())
}

#[test]
fn deep_commands_are_read(rt: HostRuntime) -> Result<(), Fail> {
    let alloc = rt.alloc();
    // The conditions of a while are two lists more.
    for (before, behind, times) in [
        ("(cond e ", " skip)", 4096),
        ("(cond e skip ", ")", 4096),
        ("(seq ", " throw)", 4096),
        ("(guard div e ", ")", 4096),
        ("(catch ", " skip)", 4096),
        ("(while ((tag e)) e ", ")", 4094),
    ] {
        is_read(&rt, alloc, &around(alloc, before, "skip", behind, times)?)?;
    }
    Ok(())
}

#[test]
fn long_sequences_of_commands_take_no_stack(rt: HostRuntime) -> Result<(), Fail> {
    let alloc = rt.alloc();
    let text = around(alloc, "(pick x) ", "skip", "", 1_000_000)?;
    is_read(&rt, alloc, &around(alloc, "(seq ", &text, ")", 1)?)
}
