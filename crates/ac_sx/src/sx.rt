//! Trees of atoms and lists.
ghost use Rattle.std.specs.Prelude.{◌≡◌, ◌+◌, ◌<◌, option_map};
ghost use Rattle.ac_sx.specs.Tree.{Atom, Node, nodes, all_nodes};
ghost use Rattle.ac_sx.specs.CodeSx.{tree_of, trees_in, word_in, parts_in};

use std::alloc::{AllocError, Global};
use std::mem;

/// A tree: an atom, or a list of trees.
pub enum Sx {
    /// In trees that are read, printable ASCII other than the space and parentheses.
    Atom(String),
    List(Vec<Sx>),
}

// A derived drop would call itself once for each level.
impl Drop for Sx {
    fn drop(self) {
        let mut parts = match self {
            Sx::Atom(_word) => return,
            Sx::List(parts) => parts,
        };
        'parts: while let Some(part) = parts.pop() {
            parts = part.without_leaf(parts);
        }
        parts.destroy_empty();
    }
}

impl Sx {
    /// Lets go of one tree without parts at the end of this one, and hands back what is left: the list that it was in, in
    /// which the lists around it lie in the place of its first part, each in the next.
    fn without_leaf(mut self, parts: Vec<Sx>) -> Vec<Sx>
        ensures { all_nodes (trees_in result.items)
            < nodes (tree_of self) + all_nodes (trees_in parts.items) }
    {
        let mut around = parts;
        'inner: loop {
            match self {
                Sx::Atom(_word) => return around,
                Sx::List(mut list) => {
                    if around.is_empty() {
                        around.destroy_empty();
                        return list;
                    }
                    if list.is_empty() {
                        list.destroy_empty();
                        return around;
                    }
                    self = mem::replace(&mut list[0], Sx::List(around));
                    around = list;
                }
            }
        }
    }

    /// A list of these parts.
    pub fn list(parts: Vec<Sx>) -> Sx
        ensures { tree_of result ≡ Node (trees_in parts.items) }
    {
        Sx::List(parts)
    }

    /// The word of an atom.
    pub fn word(&self) -> Option<&str>
        ensures { option_map (λ word. word.now) result ≡ word_in (tree_of self.now) }
    {
        match self {
            Sx::Atom(word) => Some(word.as_str()),
            Sx::List(_) => None,
        }
    }

    /// The parts of a list.
    pub fn parts(&self) -> Option<&[Sx]>
        ensures { option_map (λ parts. trees_in parts.now) result ≡ parts_in (tree_of self.now) }
    {
        match self {
            Sx::Atom(_) => None,
            Sx::List(parts) => Some(parts.as_slice()),
        }
    }
}
