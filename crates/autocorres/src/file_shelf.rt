//! Files of the file system as a shelf.

ghost use Rattle.std.specs.Prelude.{None, IfOk, ◌≤◌, length};

use ac_base::{Failed, Shelf};
use std::io::{Read, Seek, SeekFrom};
use std::rt::Files;
use std::{fs, io};

/// The files that paths name. It tells no contents, and counts every error as a fault of every
/// name.
#[derive(Drop)]
pub struct FileShelf<'a, R: Files> {
    rt: &'a R,
    faults: u64,
}

impl<'a, R: Files> FileShelf<'a, R> {
    /// A shelf that had no fault so far.
    pub fn new(rt: &'a R) -> FileShelf<'a, R> {
        FileShelf { rt, faults: 0 }
    }
}

impl<R: Files> Shelf for FileShelf<'_, R> {
    ghost contents = { λ shelf name. None };

    ghost faults = { λ shelf name. shelf.faults };

    fn read_at(&mut self, name: &str, at: u64, into: &mut [u8]) -> Result<usize, Failed> {
        match read_from(self.rt, name, at, into) {
            Ok(count) => Ok(count),
            Err(_) => {
                self.faults = self.faults.saturating_add(1);
                Err(Failed)
            }
        }
    }
}

// Reads from a place in a file on.
fn read_from<R: Files>(rt: &R, name: &str, at: u64, into: &mut [u8]) -> io::Result<usize>
    ensures { IfOk result (λ count. count ≤ length into.old) }
{
    let mut file = fs::open(rt, name)?;
    file.seek(SeekFrom::Start(at))?;
    file.read(into)
}
