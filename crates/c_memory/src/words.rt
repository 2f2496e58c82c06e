//! Words in memory.

ghost use Rattle.std.specs.Prelude.{◌≡◌, ◌<◌, true};
ghost use Rattle.c_values.specs.Value.{Bits};
ghost use Rattle.c_values.specs.Layout.{shape_of, space, is_object, is_scalar};
ghost use Rattle.c_values.specs.CodeTypes.{type_of};
ghost use Rattle.c_memory.specs.Memory.{AreBytes, load};
ghost use Rattle.c_memory.specs.CodePages.{byte_at};

use crate::pages::{Pages, bits_at};
use c_values::{CType, Layout, Word, size_of};

/// The word of a scalar type at an address.
pub(crate) fn load_word(pages: &Pages, l: &Layout, t: &CType, address: u64) -> Word
    requires object { is_object l.now (type_of t.now) ≡ true }
    requires scalar { is_scalar (type_of t.now) ≡ true }
    requires address { address < space l.now }
    requires bytes { AreBytes (byte_at pages.now) }
    ensures { Bits result ≡ load (space l.now) (byte_at pages.now)
        (shape_of l.now (type_of t.now)) address }
{
    let size = size_of(l, t) as u8;
    Word::new(
        size * 8,
        bits_at(pages, l.target(), address, u64::from(size)),
    )
}
