//! Bytes of a text: reads past its end, and the classes of bytes that tokens are made of.
ghost use Rattle.std.specs.Prelude.{◌≡◌, ◌≤◌, length, slice_index, take, drop};
ghost use Rattle.c_lex.specs.Bytes.{is_blank, is_white, is_letter, is_word};

/// The byte at an offset, and 0 past the end.
pub(crate) fn byte_at(text: &[u8], at: usize) -> u8
    ensures { result ≡ slice_index text.now at }
{
    if at < text.len() { text[at] } else { 0 }
}

/// The bytes from an offset on, and none past the end.
pub(crate) fn after(text: &[u8], at: usize) -> &[u8]
    ensures { result.now ≡ drop at text.now }
{
    if at < text.len() { &text[at..] } else { &[] }
}

/// So many bytes from the front, or all where there are fewer.
pub(crate) fn first(text: &[u8], count: usize) -> &[u8]
    ensures bytes { result.now ≡ take count text.now }
    ensures few { length result.now ≤ count }
{
    if count < text.len() {
        &text[..count]
    } else {
        text
    }
}

/// Whether a byte is a space or a tab.
pub(crate) fn is_blank(byte: u8) -> bool
    ensures { result ≡ is_blank byte }
{
    byte == b' ' || byte == b'\t'
}

/// Whether a byte is white space.
pub(crate) fn is_white(byte: u8) -> bool
    ensures { result ≡ is_white byte }
{
    is_blank(byte) || byte == b'\r' || byte == b'\n' || byte == 0x0b || byte == 0x0c
}

/// Whether a byte begins a name.
pub(crate) fn is_letter(byte: u8) -> bool
    ensures { result ≡ is_letter byte }
{
    byte.is_ascii_alphabetic() || byte == b'_'
}

/// Whether a byte goes on a name.
pub(crate) fn is_word(byte: u8) -> bool
    ensures { result ≡ is_word byte }
{
    is_letter(byte) || byte.is_ascii_digit()
}
