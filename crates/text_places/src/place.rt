//! The place of an offset.

ghost use Rattle.std.specs.Prelude.{◌≡◌, ◌≤◌, length, take_while};
ghost use Rattle.std.specs.List.{prefix_len};
ghost use Rattle.text_places.specs.Place.{line_at, column_at, before, behind, is_inner, since_feed};

/// A place in a text.
#[derive(Clone, Copy, Debug)]
pub struct Place<'a> {
    /// The number of its line, from 1.
    pub line: usize,
    /// The number of its byte in the line, from 1.
    pub column: usize,
    /// The line's bytes before it.
    pub before: &'a [u8],
    /// The line's bytes from it on, without the line feed.
    pub behind: &'a [u8],
}

/// The place of an offset. An offset past the end has the place behind the last byte. It takes time in proportion to the
/// text.
pub fn place_of(text: &[u8], at: usize) -> Place<'_>
    ensures line { result.line ≡ line_at text.now at }
    ensures column { result.column ≡ column_at text.now at }
    ensures before { result.before.now ≡ before text.now at }
    ensures behind { result.behind.now ≡ behind text.now at }
{
    let (front, back) = text.split_at(at.min(text.len()));
    let since = since_feed(front);
    Place {
        line: 1 + front.iter().filter(|b| **b == b'\n').count(),
        column: 1 + since,
        before: &front[front.len() - since..],
        behind: first_line(back),
    }
}

// How many bytes stand behind the last line feed.
fn since_feed(text: &[u8]) -> usize
    ensures is { result ≡ since_feed text.now }
    ensures within { result ≤ length text.now }
{
    text.iter().rev().take_while(|b| **b != b'\n').count()
}

// The bytes before the first line feed.
fn first_line(text: &[u8]) -> &[u8]
    ensures { result.now ≡ take_while is_inner text.now }
{
    &text[..to_feed(text)]
}

// How many bytes stand before the first line feed.
fn to_feed(text: &[u8]) -> usize
    ensures is { result ≡ prefix_len is_inner text.now }
    ensures within { result ≤ length text.now }
{
    text.iter().take_while(|b| **b != b'\n').count()
}
