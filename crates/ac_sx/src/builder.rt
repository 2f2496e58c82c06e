//! Trees, built part by part, and the tree of a text that is one.
ghost use Rattle.std.specs.Prelude.{◌≡◌, IfOk, OnOk, option_map, IsTrue};
ghost use Rattle.std.specs.List.{list_all};
ghost use Rattle.ac_sx.specs.Tree.{Tree, Atom, is_atom_byte};
ghost use Rattle.ac_sx.specs.CodeSx.{tree_of};
ghost use Rattle.ac_sx.specs.Writing.{written};
ghost use Rattle.ac_sx.specs.CodeBuilder.{nothing, placed, flushed, acted, built, building_of, building};

use crate::recogniser::is_atom_byte;
use crate::sx::Sx;
use crate::tree_writer::TreeWriter;
use std::alloc::{AllocError, Global};
use std::mem;

/// A tree, as far as it is written.
#[derive(Drop)]
pub struct SxBuilder {
    alloc: Global,
    /// The parts of the innermost list so far.
    parts: Vec<Sx>,
    /// Those of the lists around it, the outermost first.
    around: Vec<Vec<Sx>>,
}

impl SxBuilder {
    /// Nothing is written.
    pub fn new(alloc: Global) -> SxBuilder
        ensures { building_of result ≡ nothing }
    {
        SxBuilder {
            alloc,
            parts: Vec::new(alloc),
            around: Vec::new(alloc),
        }
    }

    /// The tree that has been written.
    pub fn finish(mut self) -> Sx
        requires { (t : Tree) × (building_of self ≡ written building nothing t) }
        ensures { (t : Tree) → building_of self ≡ written building nothing t → tree_of result ≡ t }
    {
        match self.parts.pop() {
            Some(tree) => tree,
            None => unreachable!(),
        }
    }

    /// One part more of the innermost list.
    fn place(&mut self, tree: Sx) -> Result<(), AllocError>
        ensures { OnOk result
            (building_of self.new ≡ placed (building_of self.old) (tree_of tree)) }
    {
        self.parts.push(tree)?;
        Ok(())
    }

    /// The atom that these bytes are, if they are any.
    fn flush(&mut self, word: &[u8]) -> Result<(), AllocError>
        requires { IsTrue (list_all is_atom_byte word.now) }
        ensures { OnOk result (building_of self.new ≡ flushed (building_of self.old) word.now) }
    {
        if word.is_empty() {
            return Ok(());
        }
        let atom = atom(self.alloc, word)?;
        self.place(atom)
    }

    /// What a byte that is none of an atom begins or ends.
    fn act(&mut self, byte: u8) -> Result<(), AllocError>
        ensures { OnOk result (building_of self.new ≡ acted (building_of self.old) byte) }
    {
        if byte == b'(' {
            self.enter()
        } else if byte == b')' {
            self.leave()
        } else {
            Ok(())
        }
    }
}

impl TreeWriter for SxBuilder {
    ghost use Rattle.std.specs.Prelude.{◌≡◌, OnOk};
    ghost use Rattle.ac_sx.specs.CodeBuilder.{Building, building_of, building};

    ghost State = { Building };

    ghost state = { building_of };

    ghost writing = { building };

    fn enter(&mut self) -> Result<(), AllocError> {
        let parts = mem::replace(&mut self.parts, Vec::new(self.alloc));
        self.around.push(parts)?;
        Ok(())
    }

    fn atom(&mut self, word: &str) -> Result<(), AllocError> {
        let word = String::from_str(self.alloc, word)?;
        self.place(Sx::Atom(word))
    }

    fn leave(&mut self) -> Result<(), AllocError> {
        let Some(outer) = self.around.pop() else {
            return Ok(());
        };
        let parts = mem::replace(&mut self.parts, outer);
        self.place(Sx::list(parts))
    }
}

fn atom(alloc: Global, word: &[u8]) -> Result<Sx, AllocError>
    requires { IsTrue (list_all is_atom_byte word.now) }
    ensures { IfOk result (λ atom. tree_of atom ≡ Atom word.now) }
{
    match str::from_utf8(word) {
        Ok(word) => Ok(Sx::Atom(String::from_str(alloc, word)?)),
        Err(_) => unreachable!(),
    }
}

/// The tree of a text that is one.
pub(crate) fn build(alloc: Global, text: &[u8]) -> Result<Option<Sx>, AllocError>
    ensures { IfOk result (λ tree. option_map tree_of tree ≡ built text.now) }
{
    let mut builder = SxBuilder::new(alloc);
    let mut start = 0;
    for (at, byte) in text.iter().enumerate() {
        if !is_atom_byte(*byte) {
            builder.flush(&text[start..at])?;
            builder.act(*byte)?;
            start = at + 1;
        }
    }
    Ok(builder.parts.pop())
}
