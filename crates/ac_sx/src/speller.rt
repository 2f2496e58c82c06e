//! Trees, spelt as they are written.
ghost use Rattle.std.specs.Prelude.{◌≡◌, IfOk, OnOk};
ghost use Rattle.ac_sx.specs.Tree.{Tree, file};
ghost use Rattle.ac_sx.specs.Writing.{written};
ghost use Rattle.ac_sx.specs.CodeSpeller.{spelt_of, blank, parted, spelling_out};

use crate::tree_writer::TreeWriter;
use std::alloc::{AllocError, Global};

/// The text of a tree, as far as it is written.
#[derive(Drop)]
pub struct Speller {
    text: Vec<u8>,
    /// Whether the innermost list has a part already.
    begun: bool,
}

impl Speller {
    /// Nothing is written.
    pub fn new(alloc: Global) -> Speller
        ensures { spelt_of result ≡ blank }
    {
        Speller {
            text: Vec::new(alloc),
            begun: false,
        }
    }

    /// The text of the tree that has been written, with the line's end behind it.
    pub fn finish(self) -> Result<Vec<u8>, AllocError>
        ensures { (t : Tree) → spelt_of self ≡ written spelling_out blank t →
            IfOk result (λ text. text.items ≡ file t) }
    {
        let mut text = self.text;
        text.push(b'\n')?;
        Ok(text)
    }

    // The space before a part, unless it is the first of its list.
    fn part(&mut self) -> Result<(), AllocError>
        ensures text { OnOk result (self.new.text.items ≡ parted (spelt_of self.old)) }
    {
        if self.begun {
            self.text.push(b' ')?;
        }
        Ok(())
    }
}

impl TreeWriter for Speller {
    ghost use Rattle.std.specs.Prelude.{◌≡◌, OnOk};
    ghost use Rattle.ac_sx.specs.CodeSpeller.{Spelt, spelt_of, spelling_out};

    ghost State = { Spelt };

    ghost state = { spelt_of };

    ghost writing = { spelling_out };

    fn enter(&mut self) -> Result<(), AllocError> {
        self.part()?;
        self.text.push(b'(')?;
        self.begun = false;
        Ok(())
    }

    fn atom(&mut self, word: &str) -> Result<(), AllocError> {
        self.part()?;
        self.text.extend_from_slice(word.as_bytes())?;
        self.begun = true;
        Ok(())
    }

    fn leave(&mut self) -> Result<(), AllocError> {
        self.text.push(b')')?;
        self.begun = true;
        Ok(())
    }
}
