//! What trees are written to.
ghost use Rattle.std.specs.Prelude.{◌≡◌, OnOk};
ghost use Rattle.ac_sx.specs.Writing.{Writing};

use std::alloc::AllocError;

/// What takes a tree in the order of its text: a list is entered, its parts follow, and it is left.
///
/// After an `Err` nothing is known of it, and it is only let go.
pub trait TreeWriter {
    ghost State: { Type 0 };

    /// What it has taken so far.
    ghost state: { Self → State };

    ghost writing: { Writing State };

    /// The beginning of a list.
    fn enter(&mut self) -> Result<(), AllocError>
        ensures { OnOk result (state self.new ≡ writing.entered (state self.old)) };

    /// An atom.
    fn atom(&mut self, word: &str) -> Result<(), AllocError>
        ensures { OnOk result (state self.new ≡ writing.put (state self.old) word.now) };

    /// The end of the innermost list.
    fn leave(&mut self) -> Result<(), AllocError>
        ensures { OnOk result (state self.new ≡ writing.left (state self.old)) };
}
