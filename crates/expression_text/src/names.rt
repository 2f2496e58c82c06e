//! Names.
ghost use Rattle.std.specs.Prelude.{◌≡◌, string_bytes};
ghost use Rattle.std.specs.List.{list_all};
ghost use Rattle.ac_sx.specs.CodeSx.{tree_of};
ghost use Rattle.expression_text.specs.Names.{begins_name, goes_on_name, is_name, name_at};
ghost use Rattle.expression_text.specs.CodeFault.{Gives};

use crate::fault::TextFault;
use crate::numbering::next;
use ac_sx::Sx;
use std::alloc::Global;

fn begins_name(byte: u8) -> bool
    ensures { result ≡ begins_name byte }
{
    byte.is_ascii_alphabetic() || byte == b'_' || byte == b'$'
}

fn goes_on_name(byte: u8) -> bool
    ensures { result ≡ goes_on_name byte }
{
    begins_name(byte) || byte.is_ascii_digit()
}

fn all_go_on(bytes: &[u8]) -> bool
    ensures { result ≡ list_all goes_on_name bytes.now }
{
    bytes.iter().all(|byte| goes_on_name(*byte))
}

/// Whether a word is a name: a letter, `_` or `$`, and then letters, digits, `_` and `$`.
pub fn is_name(word: &str) -> bool
    ensures { result ≡ is_name word.now }
{
    match word.as_bytes().split_first() {
        Some((first, others)) => begins_name(*first) && all_go_on(others),
        None => false,
    }
}

/// The name that a tree is.
pub fn name_at(alloc: Global, tree: &Sx, at: u32) -> Result<(String, u32), TextFault>
    ensures { Gives string_bytes result (name_at at (tree_of tree.now)) }
{
    match tree.word() {
        Some(word) if is_name(word) => Ok((String::from_str(alloc, word)?, next(at))),
        _ => Err(TextFault::Shape(at)),
    }
}
