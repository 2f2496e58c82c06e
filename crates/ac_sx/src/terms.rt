//! Tables of trees, each tree once: equal trees have one number.
ghost use Rattle.std.specs.Prelude.{◌≡◌, ◌+◌, ◌<◌, ◌≤◌, ◌^◌, Some, [], length, slice_get, IfOk, IsTrue};
ghost use Rattle.ac_sx.specs.Table.{trees_of, tree_among, is_below, IsTable, AreLow, Keeps};
ghost use Rattle.ac_sx.specs.Tree.{depth, deepest};
ghost use Rattle.ac_sx.specs.CodeSx.{tree_of};
ghost use Rattle.ac_sx.specs.CodeTerms.{entry_of};

use crate::sx::Sx;
use indexmap::IndexSet;
use std::alloc::{AllocError, Global};
use std::marker::Model;

/// The number of a tree in a table.
#[derive(Clone, Copy, Debug, PartialEq, Eq, Hash)]
pub struct TermId(u32);

/// A tree of a table: an atom, or a list by the numbers of its parts, which are smaller than its own.
#[derive(Debug, PartialEq, Eq, Hash, Drop)]
pub enum Node {
    Atom(String),
    List(Vec<TermId>),
}

/// A table of trees. What two trees share it holds once.
#[derive(Drop)]
pub struct Terms {
    nodes: IndexSet<Node>,
}

impl Model for Terms {
    ghost use Rattle.std.specs.Prelude.{List, length, ◌<◌, ◌^◌};
    ghost use Rattle.ac_sx.specs.Table.{Entry, IsTable, AreLow};
    ghost use Rattle.ac_sx.specs.CodeTerms.{entries_in, coded_entries};

    ghost Value = { List Entry };

    ghost coded = { coded_entries };

    ghost view = { λ t. entries_in t.nodes.keys };

    ghost invariant = { λ t. IsTable (entries_in t.nodes.keys) × AreLow (entries_in t.nodes.keys)
        × (length t.nodes.keys < 2 ^ 32) };
}

impl Terms {
    /// A table without trees. It takes no memory.
    pub fn new(alloc: Global) -> Terms
        ensures { result ≡ [] }
    {
        Terms {
            nodes: IndexSet::new(alloc),
        }
    }

    /// How many trees the table has. It takes no memory.
    pub fn len(&self) -> u32
        ensures len { result ≡ length self.now }
        ensures table { IsTable self.now }
        ensures low { AreLow self.now }
    {
        self.nodes.len() as u32
    }

    pub(crate) fn allocator(&self) -> Global {
        *self.nodes.allocator()
    }

    /// The number of a tree, which is put last where it isn't there.
    pub(crate) fn intern(&mut self, node: Node) -> Result<TermId, AllocError>
        requires parts { IsTrue (is_below (length self.old) (entry_of node)) }
        requires low { depth (tree_among (trees_of self.old) (entry_of node)) ≤ deepest }
        requires room { length self.old + 1 < 2 ^ 32 }
        ensures found { IfOk result (λ id. slice_get (trees_of self.new) id.0
            ≡ Some (tree_among (trees_of self.old) (entry_of node))) }
        ensures kept { Keeps self.old self.new }
        ensures len { length self.new ≤ length self.old + 1 }
    {
        let (index, _new) = self.nodes.insert_full(node)?;
        Ok(TermId(index as u32))
    }

    /// The node of a number.
    fn node(&self, id: TermId) -> &Node
        requires { id.0 < length self.now }
        ensures tree { slice_get (trees_of self.now) id.0
            ≡ Some (tree_among (trees_of self.now) (entry_of result.now)) }
        ensures parts { IsTrue (is_below id.0 (entry_of result.now)) }
        ensures low { AreLow self.now }
    {
        &self.nodes[id.0 as usize]
    }

    /// The tree of a number.
    ///
    /// It takes stack for each level of nesting, so for 4,096 at most.
    pub fn tree(&self, alloc: Global, id: TermId) -> Result<Sx, AllocError>
        requires { id.0 < length self.now }
        ensures tree { IfOk result
            (λ tree. slice_get (trees_of self.now) id.0 ≡ Some (tree_of tree)) }
        ensures low { IfOk result (λ tree. depth (tree_of tree) ≤ deepest) }
    {
        match self.node(id) {
            Node::Atom(word) => Ok(Sx::Atom(String::from_str(alloc, word.as_str())?)),
            Node::List(ids) => {
                let mut parts = Vec::new(alloc);
                for id in ids {
                    let part = self.tree(alloc, *id)?;
                    parts.push(part)?;
                }
                Ok(Sx::list(parts))
            }
        }
    }
}
