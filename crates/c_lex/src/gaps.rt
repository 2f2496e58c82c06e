//! What may stand between tokens beside white space: comments, and the lines that tell a compiler where a text comes from.
ghost use Rattle.std.specs.Prelude.{◌≡◌, ◌≤◌, length, IfSome};
ghost use Rattle.std.specs.List.{prefix_len};
ghost use Rattle.c_lex.specs.Bytes.{is_blank};
ghost use Rattle.c_lex.specs.Gap.{line_length, comment_length, is_line_mark};

use crate::bytes::{byte_at, is_blank};

/// How many bytes there are up to the end of the line.
pub(crate) fn line_length(text: &[u8]) -> usize
    ensures { result ≡ line_length text.now }
{
    text.iter().take_while(|byte| **byte != b'\n').count()
}

/// Of a text inside a comment: how many bytes there are up to the first `*/`, and with it.
pub(crate) fn comment_length(text: &[u8]) -> Option<usize>
    ensures length { result ≡ comment_length text.now }
    ensures within { IfSome result (λ n. n ≤ length text.now) }
{
    for (i, byte) in text.iter().enumerate() {
        if *byte == b'*' && byte_at(text, i + 1) == b'/' {
            return Some(i + 2);
        }
    }
    None
}

/// How many spaces and tabs stand at the front.
fn blank_length(text: &[u8]) -> usize
    ensures { result ≡ prefix_len is_blank text.now }
{
    text.iter().take_while(|byte| is_blank(**byte)).count()
}

/// Whether what follows a `#` makes its line a line mark.
pub(crate) fn is_line_mark(text: &[u8]) -> bool
    ensures { result ≡ is_line_mark text.now }
{
    byte_at(text, blank_length(text)).is_ascii_digit()
}
