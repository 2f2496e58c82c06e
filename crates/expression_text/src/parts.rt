//! Beginnings of lists and numbers, written.
ghost use Rattle.std.specs.Prelude.{◌≡◌, ◌∷◌, OnOk};
ghost use Rattle.std.specs.Fmt.{decimal};
ghost use Rattle.expression_text.specs.Numbers.{number_text};

use ac_sx::TreeWriter;
use c_values::Number;
use itoa::Buffer;
use std::alloc::{AllocError, Global};

/// The beginning of a list, and its first word.
pub fn begin_list<W: TreeWriter>(out: &mut W, word: &str) -> Result<(), AllocError>
    ensures { OnOk result (W.state out.new
        ≡ W.writing.put (W.writing.entered (W.state out.old)) word.now) }
{
    out.enter()?;
    out.atom(word)
}

/// The atom of a natural number.
pub fn natural_into<W: TreeWriter>(out: &mut W, number: u64) -> Result<(), AllocError>
    ensures { OnOk result (W.state out.new ≡ W.writing.put (W.state out.old) (decimal number)) }
{
    out.atom(Buffer::new().format(number))
}

/// The atom of a number.
pub fn number_into<W: TreeWriter>(
    alloc: Global,
    out: &mut W,
    number: Number,
) -> Result<(), AllocError>
    ensures { OnOk result (W.state out.new ≡ W.writing.put (W.state out.old) (number_text number)) }
{
    let mut buffer = Buffer::new();
    let digits = buffer.format(number.magnitude());
    if number.negative() {
        negative_into(alloc, out, digits)
    } else {
        out.atom(digits)
    }
}

fn negative_into<W: TreeWriter>(alloc: Global, out: &mut W, digits: &str) -> Result<(), AllocError>
    ensures { OnOk result (W.state out.new ≡ W.writing.put (W.state out.old) (45 ∷ digits.now)) }
{
    let mut word = String::from_str(alloc, "-")?;
    word.push_str(digits)?;
    out.atom(word.as_str())
}
