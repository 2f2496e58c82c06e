//! Words that are zero.

ghost use Rattle.std.specs.Prelude.{◌≡◌, true};
ghost use Rattle.c_values.specs.Value.{Bits};
ghost use Rattle.c_values.specs.Layout.{shape_of, is_scalar};
ghost use Rattle.c_values.specs.Path.{zeros};
ghost use Rattle.c_values.specs.CodeTypes.{type_of};

use c_values::views::word;
use c_values::{CType, Layout, Number, Word, address_width, width_of};

/// The word of a scalar type that is zero.
pub(crate) fn zero_word(l: &Layout, t: &CType) -> Word
    requires { is_scalar (type_of t.now) ≡ true }
    ensures { Bits result ≡ zeros (shape_of l.now (type_of t.now)) }
{
    let width = match t {
        CType::Int(i) => width_of(l.target(), *i),
        CType::Void | CType::Ptr(_) | CType::Struct(_) | CType::Array(_, _) => {
            address_width(l.target())
        }
    };
    word(width, Number::new(false, 0))
}
