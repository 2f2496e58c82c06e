//! Text behind the lines so far.

ghost use Rattle.std.specs.Prelude.{◌≡◌, ◌∷◌, ◌++◌, OnOk};
ghost use Rattle.std.specs.Fmt.{decimal};
ghost use Rattle.expression_text.specs.Numbers.{number_text};

use c_values::Number;
use itoa::Buffer;
use std::alloc::AllocError;

/// Some text more.
pub(crate) fn push(lines: &mut Vec<u8>, text: &str) -> Result<(), AllocError>
    ensures { OnOk result (lines.new.items ≡ lines.old.items ++ text.now) }
{
    lines.extend_from_slice(text.as_bytes())
}

/// A natural number.
pub(crate) fn push_natural(lines: &mut Vec<u8>, number: u64) -> Result<(), AllocError>
    ensures { OnOk result (lines.new.items ≡ lines.old.items ++ decimal number) }
{
    push(lines, Buffer::new().format(number))
}

/// A number.
pub(crate) fn push_number(lines: &mut Vec<u8>, number: Number) -> Result<(), AllocError>
    ensures { OnOk result (lines.new.items ≡ lines.old.items ++ number_text number) }
{
    let mut buffer = Buffer::new();
    let digits = buffer.format(number.magnitude());
    if number.negative() {
        push_negative(lines, digits)
    } else {
        push(lines, digits)
    }
}

fn push_negative(lines: &mut Vec<u8>, digits: &str) -> Result<(), AllocError>
    ensures { OnOk result (lines.new.items ≡ lines.old.items ++ 45 ∷ digits.now) }
{
    push(lines, "-")?;
    push(lines, digits)
}
