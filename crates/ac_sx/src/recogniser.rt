//! The recogniser: whether a text is a tree's, and where it isn't, its first fault. It takes no memory.
ghost use Rattle.std.specs.Prelude.{◌≡◌, ◌<◌, ◌≤◌, ◌++◌, ◌∷◌, [], is_some};
ghost use Rattle.ac_sx.specs.Tree.{is_atom_byte, deepest, line_end};
ghost use Rattle.ac_sx.specs.CodeRecogniser.{begun, closed, followed, step, ended, recognised};
ghost use Rattle.ac_sx.specs.CodeLine.{reached};

use crate::fault::SxFault;

/// How deep lists nest at most.
pub(crate) const DEEPEST: usize = 4096;

/// Where in a text reading stands.
#[derive(Clone, Copy, PartialEq, Eq)]
enum Place {
    /// Before a tree.
    Begin,
    /// Behind the opening of a list.
    Opened,
    /// In an atom, or behind one.
    Word,
    /// Behind a list.
    Ended,
    /// Behind the whole text.
    Whole,
}

/// A place, and how many lists are open there.
#[derive(Clone, Copy)]
struct Reading {
    place: Place,
    lists: usize,
}

/// Whether an atom may have this byte.
pub(crate) fn is_atom_byte(byte: u8) -> bool
    ensures { result ≡ is_atom_byte byte }
{
    byte.is_ascii_graphic() && byte != b'(' && byte != b')'
}

fn begun(lists: usize, byte: u8) -> Option<Reading>
    requires { lists ≤ deepest }
    ensures { result ≡ begun lists byte }
{
    if byte == b'(' {
        Some(Reading {
            place: Place::Opened,
            lists: lists + 1,
        })
    } else if is_atom_byte(byte) {
        Some(Reading {
            place: Place::Word,
            lists,
        })
    } else {
        None
    }
}

fn closed(lists: usize) -> Option<Reading>
    ensures { result ≡ closed lists }
{
    if lists == 0 {
        None
    } else {
        Some(Reading {
            place: Place::Ended,
            lists: lists - 1,
        })
    }
}

fn followed(lists: usize, byte: u8) -> Option<Reading>
    ensures { result ≡ followed lists byte }
{
    if byte == b')' {
        closed(lists)
    } else if lists == 0 {
        if byte == b'\n' {
            Some(Reading {
                place: Place::Whole,
                lists: 0,
            })
        } else {
            None
        }
    } else if byte == b' ' {
        Some(Reading {
            place: Place::Begin,
            lists,
        })
    } else {
        None
    }
}

/// Where reading stands after one more byte, if a text of some tree may go on with it.
fn step(reading: Reading, byte: u8) -> Option<Reading>
    requires { reading.lists ≤ deepest }
    ensures { result ≡ step reading byte }
{
    match reading.place {
        Place::Begin => begun(reading.lists, byte),
        Place::Opened => {
            if byte == b')' {
                closed(reading.lists)
            } else {
                begun(reading.lists, byte)
            }
        }
        Place::Word => {
            if is_atom_byte(byte) {
                Some(reading)
            } else {
                followed(reading.lists, byte)
            }
        }
        Place::Ended => followed(reading.lists, byte),
        Place::Whole => None,
    }
}

/// Whether the whole text is there.
fn ended(at: usize, place: Place) -> Result<(), SxFault>
    ensures { result ≡ ended at place }
{
    if place == Place::Whole {
        Ok(())
    } else {
        Err(SxFault::NotText(at))
    }
}

/// Whether the line's end ends a text of some tree here.
fn ends(reading: Reading) -> bool
    ensures { result ≡ is_some (step reading line_end) }
{
    reading.lists == 0 && (reading.place == Place::Word || reading.place == Place::Ended)
}

/// Where reading stands behind these bytes, or their first fault.
fn reach(text: &[u8]) -> Result<Reading, SxFault>
    ensures { result ≡ reached text.now }
{
    let mut reading = Reading {
        place: Place::Begin,
        lists: 0,
    };
    for (at, byte) in text.iter().enumerate() {
        let Some(next) = step(reading, *byte) else {
            return Err(SxFault::NotText(at));
        };
        if next.lists > DEEPEST {
            return Err(SxFault::Deep(at));
        }
        reading = next;
    }
    Ok(reading)
}

/// Ok where the text is that of a tree that nests at most 4,096 deep; otherwise its first fault.
pub(crate) fn recognise(text: &[u8]) -> Result<(), SxFault>
    ensures { result ≡ recognised text.now }
{
    let reading = reach(text)?;
    ended(text.len(), reading.place)
}

/// What `recognise` says of these bytes with the line's end behind them.
pub(crate) fn recognise_line(line: &[u8]) -> Result<(), SxFault>
    ensures { result ≡ recognised (line.now ++ line_end ∷ []) }
{
    let reading = reach(line)?;
    if ends(reading) {
        Ok(())
    } else {
        Err(SxFault::NotText(line.len()))
    }
}
