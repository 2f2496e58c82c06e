//! Texts of trees of rules are read and written, and trees that are none are refused at their place.
use ac_sx::write;
use expression_text::TextFault;
use rule_text::{read_heap_tree, write_heap_tree};
use std::alloc::Global;
use std::test::Fail;
use test_texts::{around, tree_of};

// Whether what is read is written again as it was.
fn is_read(alloc: Global, text: &str) -> Result<bool, Fail> {
    let tree = tree_of(alloc, text)?;
    let rules = read_heap_tree(alloc, &tree)?;
    let tree = write_heap_tree(alloc, &rules)?;
    let again = write(alloc, &tree)?;
    Ok(again.strip_suffix(b"\n") == Some(text.as_bytes()))
}

fn is_refused(alloc: Global, text: &str, at: u32) -> Result<bool, Fail> {
    let tree = tree_of(alloc, text)?;
    Ok(read_heap_tree(alloc, &tree).err() == Some(TextFault::Shape(at)))
}

const RULES: &str = "\
ret
same
(ret leaf (load leaf))
(bind call (call leaf leaf))
(guard (imp (and leaf (ptrok leaf)) (or leaf (tagged leaf))))
(if (cond leaf leaf leaf) same pick)
(global leaf)
(loop leaf leaf leaf (write leaf leaf))
(pointer leaf (drop (at uint p) leaf same))
(guard (known (w 32 4096) leaf))
(op leaf)";

#[test]
fn rules_are_read(rt: HostRuntime) -> Result<(), Fail> {
    for text in RULES.lines() {
        assert!(rt; is_read(rt.alloc(), text)?, "{text}");
    }
    Ok(())
}

#[test]
fn other_trees_are_no_rules(rt: HostRuntime) -> Result<(), Fail> {
    for (text, at) in [
        ("rett", 0),
        ("()", 0),
        ("(same)", 0),
        ("((same))", 0),
        ("bind", 0),
        ("(bind same)", 0),
        ("(bind same same same)", 0),
        ("(loop leaf leaf)", 0),
        ("(write leaf)", 0),
        ("drop", 0),
        ("(drop p leaf)", 0),
        ("(drop () leaf same)", 2),
        ("(drop p leef same)", 3),
        ("(drop (w 32 x) (op) same)", 5),
        ("(drop (w 32 1) (op) same)", 6),
        ("(bind ret (ret leaf (skip)))", 6),
    ] {
        assert!(rt; is_refused(rt.alloc(), text, at)?, "{text}");
    }
    Ok(())
}

// A tree may nest as deep as a text may, in its last parts and in its first.
#[test]
fn deep_trees_are_read(rt: HostRuntime) -> Result<(), Fail> {
    for (before, behind) in [("(imp leaf ", ")"), ("(imp ", " leaf)")] {
        let text = around(rt.alloc(), before, "leaf", behind, 4096)?;
        assert!(rt; is_read(rt.alloc(), text.as_str())?, "{before}");
    }
    Ok(())
}
