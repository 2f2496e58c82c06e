//! The reader of trees into a table.
ghost use Rattle.std.specs.Prelude.{◌≡◌, ℕ, ◌+◌, ◌<◌, ◌≤◌, ◌^◌, ◌++◌, ◌∷◌, [], Some, length, option_and_then, slice_get, IfOk, IfErr, OnOk, IsTrue, MatchResult};
ghost use Rattle.std.specs.List.{list_all};
ghost use Rattle.ac_sx.specs.Tree.{Tree, Atom, IsTree, spelling, depth, deepest, is_atom_byte, line_end};
ghost use Rattle.ac_sx.specs.Front.{OpensTooDeep};
ghost use Rattle.ac_sx.specs.Answer.{IsNoText, IsFaultOf, IsRefused};
ghost use Rattle.ac_sx.specs.Table.{trees_of, Keeps};
ghost use Rattle.ac_sx.specs.CodeBuilder.{flushed, acted, left, built};
ghost use Rattle.ac_sx.specs.CodeTermReader.{open_of, no_lists, with_part, with_list, building_in, are_open_below, Stands, IsLow};

use crate::fault::SxFault;
use crate::recogniser::{is_atom_byte, recognise_line};
use crate::terms::{Node, TermId, Terms};
use std::alloc::{AllocError, Global};
use std::mem;

/// The lists that are being read.
#[derive(Drop)]
struct OpenLists {
    /// The parts of the innermost list so far.
    parts: Vec<TermId>,
    /// Those of the lists around it, the outermost first.
    around: Vec<Vec<TermId>>,
}

impl OpenLists {
    fn new(alloc: Global) -> OpenLists
        ensures { open_of result ≡ no_lists }
    {
        OpenLists {
            parts: Vec::new(alloc),
            around: Vec::new(alloc),
        }
    }

    /// One part more of the innermost list.
    fn place(&mut self, id: TermId) -> Result<(), AllocError>
        ensures { OnOk result (open_of self.new ≡ with_part (open_of self.old) id.0) }
    {
        self.parts.push(id)?;
        Ok(())
    }

    /// The beginning of a list.
    fn enter(&mut self, alloc: Global) -> Result<(), AllocError>
        ensures { OnOk result (open_of self.new ≡ with_list (open_of self.old)) }
    {
        let parts = mem::replace(&mut self.parts, Vec::new(alloc));
        self.around.push(parts)?;
        Ok(())
    }

    /// The atom that these bytes are, if they are any.
    fn flush(&mut self, terms: &mut Terms, word: &[u8]) -> Result<(), AllocError>
        requires word { IsTrue (list_all is_atom_byte word.now) }
        requires below { IsTrue (are_open_below (length terms.old) (open_of self.old)) }
        requires room { length terms.old + length word.now < 2 ^ 32 }
        ensures next { OnOk result (Stands terms.new (open_of self.new)
            (flushed (building_in terms.old (open_of self.old)) word.now)) }
        ensures kept { Keeps terms.old terms.new }
        ensures len { length terms.new ≤ length terms.old + length word.now }
    {
        if word.is_empty() {
            return Ok(());
        }
        let id = atom(terms, word)?;
        self.place(id)
    }

    /// The end of the innermost list.
    fn leave(&mut self, terms: &mut Terms) -> Result<(), AllocError>
        requires below { IsTrue (are_open_below (length terms.old) (open_of self.old)) }
        requires low { IsLow (building_in terms.old (open_of self.old)) }
        requires room { length terms.old + 1 < 2 ^ 32 }
        ensures next { OnOk result (Stands terms.new (open_of self.new)
            (left (building_in terms.old (open_of self.old)))) }
        ensures kept { Keeps terms.old terms.new }
        ensures len { length terms.new ≤ length terms.old + 1 }
    {
        let Some(outer) = self.around.pop() else {
            return Ok(());
        };
        let parts = mem::replace(&mut self.parts, outer);
        let id = terms.intern(Node::List(parts))?;
        self.place(id)
    }

    /// What a byte that is none of an atom begins or ends.
    fn act(&mut self, terms: &mut Terms, byte: u8) -> Result<(), AllocError>
        requires below { IsTrue (are_open_below (length terms.old) (open_of self.old)) }
        requires low { IsLow (building_in terms.old (open_of self.old)) }
        requires room { length terms.old + 1 < 2 ^ 32 }
        ensures next { OnOk result (Stands terms.new (open_of self.new)
            (acted (building_in terms.old (open_of self.old)) byte)) }
        ensures kept { Keeps terms.old terms.new }
        ensures len { length terms.new ≤ length terms.old + 1 }
    {
        if byte == b'(' {
            self.enter(terms.allocator())
        } else if byte == b')' {
            self.leave(terms)
        } else {
            Ok(())
        }
    }
}

/// The number of an atom.
fn atom(terms: &mut Terms, word: &[u8]) -> Result<TermId, AllocError>
    requires word { IsTrue (list_all is_atom_byte word.now) }
    requires room { length terms.old + 1 < 2 ^ 32 }
    ensures found { IfOk result (λ id. slice_get (trees_of terms.new) id.0 ≡ Some (Atom word.now)) }
    ensures kept { Keeps terms.old terms.new }
    ensures len { length terms.new ≤ length terms.old + 1 }
{
    match str::from_utf8(word) {
        Ok(text) => {
            let text = String::from_str(terms.allocator(), text)?;
            terms.intern(Node::Atom(text))
        }
        Err(_) => unreachable!(),
    }
}

impl Terms {
    /// The number of the tree that these bytes spell, with no line's end behind them. What it shares with trees that are there
    /// is not put again.
    ///
    /// It takes time in proportion to the number of bytes, and no stack. What is refused is refused before any memory is taken.
    pub fn read(&mut self, bytes: &[u8]) -> Result<TermId, SxFault>
        requires { length self.old + length bytes.now < 2 ^ 32 }

        // Ok is the number of the tree of the bytes, and where a tree that isn't too deep is spelt so, it is this one's, unless
        // memory runs out.
        ensures found { IfOk result (λ id. (tree : Tree) × IsTree tree × (bytes.now ≡ spelling tree)
            × (depth tree ≤ deepest) × (slice_get (trees_of self.new) id.0 ≡ Some tree)) }
        ensures only { (tree : Tree) → IsTree tree → depth tree ≤ deepest →
            bytes.now ≡ spelling tree →
            MatchResult result (λ id. slice_get (trees_of self.new) id.0 ≡ Some tree)
            (λ e. e ≡ SxFault.Memory) }

        ensures within { IfOk result (λ id. id.0 < length self.new) }

        // What was in the table keeps its number, in every case, and no more is put than there are bytes.
        ensures kept { Keeps self.old self.new }
        ensures grows { length self.old ≤ length self.new }
        ensures len { length self.new ≤ length self.old + length bytes.now }

        // An error has its cause, of the bytes with the line's end behind them ..
        ensures fault { IfErr result (IsFaultOf (bytes.now ++ line_end ∷ [])) }

        // .. and where there is a cause, there is its error, unless memory runs out.
        ensures no_text { (at : ℕ) → IsNoText (bytes.now ++ line_end ∷ []) at →
            IsRefused result (SxFault.NotText at) }
        ensures deep { (at : ℕ) → OpensTooDeep (bytes.now ++ line_end ∷ []) at →
            IsRefused result (SxFault.Deep at) }
    {
        recognise_line(bytes)?;
        match self.build(bytes)? {
            Some(id) => Ok(id),
            None => unreachable!(),
        }
    }

    /// The number of the tree of bytes that spell one.
    fn build(&mut self, bytes: &[u8]) -> Result<Option<TermId>, AllocError>
        requires spelt { (tree : Tree) × IsTree tree × (bytes.now ≡ spelling tree)
            × (depth tree ≤ deepest) }
        requires room { length self.old + length bytes.now < 2 ^ 32 }
        ensures found { IfOk result
            (λ found. option_and_then (λ id. slice_get (trees_of self.new) id.0) found
            ≡ built (bytes.now ++ line_end ∷ [])) }
        ensures kept { Keeps self.old self.new }
        ensures len { length self.new ≤ length self.old + length bytes.now }
    {
        let mut lists = OpenLists::new(self.allocator());
        let mut start = 0;
        for (at, byte) in bytes.iter().enumerate() {
            if !is_atom_byte(*byte) {
                lists.flush(self, &bytes[start..at])?;
                lists.act(self, *byte)?;
                start = at + 1;
            }
        }
        lists.flush(self, &bytes[start..])?;
        Ok(lists.parts.pop())
    }
}
