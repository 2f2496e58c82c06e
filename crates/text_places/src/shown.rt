//! A line with a mark under a column.

ghost use Rattle.std.specs.Prelude.{◌≡◌, ◌++◌, OnOk, map, take};
ghost use Rattle.text_places.specs.Place.{last};
ghost use Rattle.text_places.specs.Shown.{shown, blank, marked_line};

use crate::place::place_of;
use std::alloc::AllocError;

/// Bytes that are shown before the column.
const MOST_BEFORE: usize = 100;

/// Bytes that are shown from the column on.
const MOST_BEHIND: usize = 60;

/// Writes the line of an offset behind the lines so far, and a mark under its column. Tabs stay; what isn't printable is
/// shown as `?`; of a long line the part around the column is shown.
pub fn push_marked_line(lines: &mut Vec<u8>, text: &[u8], at: usize) -> Result<(), AllocError>
    ensures { OnOk result (lines.new.items ≡ lines.old.items ++ marked_line text.now at) }
{
    let place = place_of(text, at);
    let front = last(place.before, MOST_BEFORE);
    let back = first(place.behind, MOST_BEHIND);
    push_shown(lines, front)?;
    push_shown(lines, back)?;
    lines.extend_from_slice(b"\n")?;
    push_blank(lines, front)?;
    lines.extend_from_slice(b"^\n")
}

// The last bytes, so many at most.
fn last(bytes: &[u8], most: usize) -> &[u8]
    ensures { result.now ≡ last most bytes.now }
{
    &bytes[bytes.len().saturating_sub(most)..]
}

// The first bytes, so many at most.
fn first(bytes: &[u8], most: usize) -> &[u8]
    ensures { result.now ≡ take most bytes.now }
{
    &bytes[..most.min(bytes.len())]
}

fn push_shown(lines: &mut Vec<u8>, bytes: &[u8]) -> Result<(), AllocError>
    ensures { OnOk result (lines.new.items ≡ lines.old.items ++ map shown bytes.now) }
{
    for byte in bytes {
        lines.push(shown(*byte))?;
    }
    Ok(())
}

fn push_blank(lines: &mut Vec<u8>, bytes: &[u8]) -> Result<(), AllocError>
    ensures { OnOk result (lines.new.items ≡ lines.old.items ++ map blank bytes.now) }
{
    for byte in bytes {
        lines.push(blank(*byte))?;
    }
    Ok(())
}

fn shown(byte: u8) -> u8
    ensures { result ≡ shown byte }
{
    match byte {
        b' '..=b'~' | b'\t' => byte,
        _ => b'?',
    }
}

fn blank(byte: u8) -> u8
    ensures { result ≡ blank byte }
{
    if byte == b'\t' { b'\t' } else { b' ' }
}
