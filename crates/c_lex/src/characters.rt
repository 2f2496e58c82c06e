//! Character constants.
ghost use Rattle.std.specs.Prelude.{◌≡◌, ◌≤◌};
ghost use Rattle.c_lex.specs.Character.{closed, is_plain, simple_escape, numeric_escape, escape_of, character_of};

use crate::bytes::{after, byte_at, first};
use crate::numbers::{digit_count, digits_value};

// Below, an answer is the value and how many bytes the whole constant takes.

/// The closing quote, after so many bytes.
fn closed(value: u8, length: usize, rest: &[u8]) -> Option<(u8, usize)>
    requires { length ≤ 6 }
    ensures { result ≡ closed value length rest.now }
{
    if byte_at(rest, 0) == b'\'' {
        Some((value, length + 1))
    } else {
        None
    }
}

/// Whether a byte is a printable ASCII character that stands for itself.
fn is_plain(byte: u8) -> bool
    ensures { result ≡ is_plain byte }
{
    (byte == b' ' || byte.is_ascii_graphic()) && byte != b'\'' && byte != b'\\'
}

/// What a letter or a mark after a backslash stands for.
fn simple_escape(byte: u8) -> Option<u8>
    ensures { result ≡ simple_escape byte }
{
    match byte {
        b'n' => Some(b'\n'),
        b't' => Some(b'\t'),
        b'r' => Some(b'\r'),
        b'a' => Some(7),
        b'b' => Some(8),
        b'f' => Some(12),
        b'v' => Some(11),
        b'\\' | b'\'' | b'"' | b'?' => Some(byte),
        _ => None,
    }
}

/// Digits of a base, one at least and so many at most, after so many bytes.
#[tactic(auto, unfolding(crate::specs::Character::numeric_escape))]
fn numeric_escape(base: u32, most: usize, before: usize, text: &[u8]) -> Option<(u8, usize)>
    requires low { 2 ≤ base }
    requires high { base ≤ 16 }
    requires few { most ≤ 3 }
    requires near { before ≤ 3 }
    ensures { result ≡ numeric_escape base most before text.now }
{
    let digits = digit_count(base, first(text, most));
    let value = digits_value(base, first(text, digits))?;
    if digits == 0 || value > 255 {
        return None;
    }
    closed(value as u8, before + digits, after(text, digits))
}

/// What follows the backslash.
#[tactic(auto, unfolding(crate::specs::Character::escape_of))]
fn escape(text: &[u8]) -> Option<(u8, usize)>
    ensures { result ≡ escape_of text.now }
{
    match byte_at(text, 0) {
        b'x' => numeric_escape(16, 2, 3, after(text, 1)),
        b'0'..=b'7' => numeric_escape(8, 3, 2, text),
        byte => closed(simple_escape(byte)?, 3, after(text, 1)),
    }
}

/// The character constant, of what follows the opening quote.
#[tactic(auto, unfolding(crate::specs::Character::character_of))]
pub(crate) fn character(text: &[u8]) -> Option<(u8, usize)>
    ensures { result ≡ character_of text.now }
{
    let byte = byte_at(text, 0);
    if byte == b'\\' {
        escape(after(text, 1))
    } else if is_plain(byte) {
        closed(byte, 2, after(text, 1))
    } else {
        None
    }
}
