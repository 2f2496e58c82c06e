//! Where the parts of a list stand in its text, and how many nodes each has. No tree is kept.
ghost use Rattle.std.specs.Prelude.{◌≡◌, ℕ, ◌+◌, ◌<◌, ◌≤◌, ◌^◌, length, IfOk, IfErr, MatchResult};
ghost use Rattle.ac_sx.specs.Tree.{Tree, IsTree, file, depth, deepest};
ghost use Rattle.ac_sx.specs.Front.{OpensTooDeep};
ghost use Rattle.ac_sx.specs.Answer.{IsNoText, IsFaultOf, IsRefused};
ghost use Rattle.ac_sx.specs.Spans.{parts_of};
ghost use Rattle.ac_sx.specs.CodeSpans.{begun_at, ended, opened, parted, moved, scanned};

use crate::fault::SxFault;
use crate::recogniser::{is_atom_byte, recognise};
use std::alloc::{AllocError, Global};

/// Where a part of a list stands in its text, and how large it is.
#[derive(Clone, Copy, Debug, PartialEq, Eq)]
pub struct SxPart {
    /// The offset of its first byte.
    pub start: u32,
    /// The offset behind its last byte.
    pub end: u32,
    /// The number of its atoms and lists, itself among them.
    pub nodes: u32,
}

/// Where in a text the pass stands.
#[derive(Clone, Copy)]
struct Cursor {
    /// How many lists are open.
    lists: usize,
    /// Whether the byte before is one of an atom.
    word: bool,
    /// The offset of the part that is being passed.
    start: u32,
    /// How many of its nodes have begun.
    nodes: u32,
}

impl Cursor {
    /// Before a part of the root.
    fn begun_at(start: u32) -> Cursor
        ensures { result ≡ begun_at start }
    {
        Cursor {
            lists: 1,
            word: false,
            start,
            nodes: 0,
        }
    }

    /// The part of the root that this byte ends.
    fn ended(self, at: u32, byte: u8) -> Option<SxPart>
        ensures { result ≡ ended self at byte }
    {
        if self.lists == 1 && self.nodes != 0 && (byte == b' ' || byte == b')') {
            Some(SxPart {
                start: self.start,
                end: at,
                nodes: self.nodes,
            })
        } else {
            None
        }
    }

    /// Behind the opening of a list.
    fn opened(self, at: u32) -> Cursor
        requires within { at + 1 < 2 ^ 32 }
        requires lists { self.lists ≤ at }
        requires nodes { self.nodes ≤ at }
        ensures { result ≡ opened self at }
    {
        if self.lists == 0 {
            Cursor::begun_at(at + 1)
        } else {
            Cursor {
                lists: self.lists + 1,
                word: false,
                start: self.start,
                nodes: self.nodes + 1,
            }
        }
    }

    /// Behind what parts two trees.
    fn parted(self, at: u32) -> Cursor
        requires { at + 1 < 2 ^ 32 }
        ensures { result ≡ parted self at }
    {
        if self.lists == 1 {
            Cursor::begun_at(at + 1)
        } else {
            Cursor {
                lists: self.lists,
                word: false,
                start: self.start,
                nodes: self.nodes,
            }
        }
    }

    /// Behind this byte.
    fn moved(self, at: u32, byte: u8) -> Cursor
        requires within { at + 1 < 2 ^ 32 }
        requires lists { self.lists ≤ at }
        requires nodes { self.nodes ≤ at }
        ensures moved { result ≡ moved self at byte }
        ensures lists { result.lists ≤ at + 1 }
        ensures nodes { result.nodes ≤ at + 1 }
    {
        if byte == b'(' {
            self.opened(at)
        } else if byte == b')' {
            Cursor {
                lists: self.lists.saturating_sub(1),
                word: false,
                start: self.start,
                nodes: self.nodes,
            }
        } else if is_atom_byte(byte) {
            Cursor {
                lists: self.lists,
                word: true,
                start: self.start,
                nodes: if self.word {
                    self.nodes
                } else {
                    self.nodes + 1
                },
            }
        } else {
            self.parted(at)
        }
    }
}

/// The parts of the root of a text that is a tree's.
fn scan(alloc: Global, text: &[u8]) -> Result<Vec<SxPart>, AllocError>
    requires { length text.now < 2 ^ 32 }
    ensures { IfOk result (λ parts. parts.items ≡ scanned text.now) }
{
    let mut parts = Vec::new(alloc);
    let mut cursor = Cursor {
        lists: 0,
        word: false,
        start: 0,
        nodes: 0,
    };
    for (at, byte) in text.iter().enumerate() {
        let at = at as u32;
        if let Some(part) = cursor.ended(at, *byte) {
            parts.push(part)?;
        }
        cursor = cursor.moved(at, *byte);
    }
    Ok(parts)
}

/// Of each part of the root list of a text its offsets and the number of its nodes; of a root that is an atom nothing.
///
/// What is refused is refused as `read` does, before any memory is taken. It takes time in proportion to the length of the
/// text, no stack, and memory for the answer alone.
pub fn parts(alloc: Global, text: &[u8]) -> Result<Vec<SxPart>, SxFault>
    requires { length text.now < 2 ^ 32 }

    // Ok is of the tree of the text, and where a tree that isn't too deep has this text, it is of this one, unless memory runs out.
    ensures found { IfOk result (λ parts. (tree : Tree) × IsTree tree × (text.now ≡ file tree)
        × (depth tree ≤ deepest) × (parts.items ≡ parts_of tree)) }
    ensures only { (tree : Tree) → IsTree tree → depth tree ≤ deepest → text.now ≡ file tree →
        MatchResult result (λ parts. parts.items ≡ parts_of tree) (λ e. e ≡ SxFault.Memory) }

    // An error has its cause ..
    ensures fault { IfErr result (IsFaultOf text.now) }

    // .. and where there is a cause, there is its error, unless memory runs out.
    ensures no_text { (at : ℕ) → IsNoText text.now at → IsRefused result (SxFault.NotText at) }
    ensures deep { (at : ℕ) → OpensTooDeep text.now at → IsRefused result (SxFault.Deep at) }
{
    recognise(text)?;
    Ok(scan(alloc, text)?)
}
