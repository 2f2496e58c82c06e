//! Texts that grow at their end.

ghost use Rattle.std.specs.Prelude.{◌≡◌, ◌++◌, map, OnOk};
ghost use Rattle.std.specs.Fmt.{decimal};
ghost use Rattle.expression_text.specs.Numbers.{number_text};
ghost use Rattle.abs_print.specs.Texts.{Text, each_after, parted, behind_space};

use c_values::Number;
use itoa::Buffer;
use std::alloc::AllocError;

/// What has one text.
pub(crate) trait Shown {
    ghost text: { Self → Text };

    /// Writes the text.
    fn push_to(&self, out: &mut Vec<u8>) -> Result<(), AllocError>
        ensures { OnOk result (out.new.items ≡ out.old.items ++ text self.now) };
}

impl Shown for String {
    ghost use Rattle.std.specs.Prelude.{string_bytes};

    ghost text = { λ name. string_bytes name };

    fn push_to(&self, out: &mut Vec<u8>) -> Result<(), AllocError> {
        push(out, self.as_str())
    }
}

/// A text as it stands.
pub(crate) fn push(out: &mut Vec<u8>, text: &str) -> Result<(), AllocError>
    ensures { OnOk result (out.new.items ≡ out.old.items ++ text.now) }
{
    out.extend_from_slice(text.as_bytes())
}

/// A natural number.
pub(crate) fn push_natural(out: &mut Vec<u8>, number: u64) -> Result<(), AllocError>
    ensures { OnOk result (out.new.items ≡ out.old.items ++ decimal number) }
{
    out.extend_from_slice(Buffer::new().format(number).as_bytes())
}

/// A number.
pub(crate) fn push_number(out: &mut Vec<u8>, number: Number) -> Result<(), AllocError>
    ensures { OnOk result (out.new.items ≡ out.old.items ++ number_text number) }
{
    if number.negative() {
        push(out, "-")?;
    }
    out.extend_from_slice(Buffer::new().format(number.magnitude()).as_bytes())
}

/// Each part after a separator.
pub(crate) fn push_each_after<T: Shown>(
    out: &mut Vec<u8>,
    separator: &str,
    parts: &[T],
) -> Result<(), AllocError>
    ensures { OnOk result (out.new.items
        ≡ out.old.items ++ each_after separator.now (map T.text parts.now)) }
{
    let mut rest = parts;
    'parts: while let Some((part, others)) = rest.split_first() {
        push(out, separator)?;
        part.push_to(out)?;
        rest = others;
    }
    Ok(())
}

/// Parts with a separator between them.
pub(crate) fn push_parted<T: Shown>(
    out: &mut Vec<u8>,
    separator: &str,
    parts: &[T],
) -> Result<(), AllocError>
    ensures { OnOk result (out.new.items
        ≡ out.old.items ++ parted separator.now (map T.text parts.now)) }
{
    let Some((first, others)) = parts.split_first() else {
        return Ok(());
    };
    first.push_to(out)?;
    push_each_after(out, separator, others)
}

/// Where there are parts: a space, and then the parts, parted by commas.
pub(crate) fn push_behind_space<T: Shown>(out: &mut Vec<u8>, parts: &[T]) -> Result<(), AllocError>
    ensures { OnOk result (out.new.items ≡ out.old.items ++ behind_space (map T.text parts.now)) }
{
    if parts.is_empty() {
        return Ok(());
    }
    push(out, " ")?;
    push_parted(out, ", ", parts)
}
