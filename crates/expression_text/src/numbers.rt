//! Numbers.
ghost use Rattle.std.specs.Prelude.{◌≡◌, ◌^◌, ◌<◌, nat_lt, true, Some, IfOk};
ghost use Rattle.ac_sx.specs.CodeSx.{tree_of};
ghost use Rattle.expression_text.specs.Numbers.{natural_in, natural_at, number_in, number_at, negated, not_negated};
ghost use Rattle.expression_text.specs.ExpText.{is_width};
ghost use Rattle.expression_text.specs.ExpReading.{width_at};
ghost use Rattle.expression_text.specs.CodeFault.{Gives};

use crate::fault::TextFault;
use crate::numbering::next;
use ac_sx::Sx;
use c_values::Number;
use itoa::Buffer;

/// The natural number whose decimal a word is, if it is below 2^128.
pub(crate) fn natural(word: &str) -> Option<u128>
    ensures { result ≡ natural_in word.now }
{
    let Ok(number) = word.parse::<u128>() else {
        return None;
    };
    // Only the number's one spelling is read.
    let mut buffer = Buffer::new();
    if buffer.format(number) == word {
        Some(number)
    } else {
        None
    }
}

/// The number of 32 bits that a tree is.
pub(crate) fn count_at(tree: &Sx, at: u32) -> Result<(u32, u32), TextFault>
    ensures { Gives (λ n. n) result (natural_at (2 ^ 32) at (tree_of tree.now)) }
{
    let Some(word) = tree.word() else {
        return Err(TextFault::Shape(at));
    };
    let Some(number) = natural(word) else {
        return Err(TextFault::Shape(at));
    };
    match u32::try_from(number) {
        Ok(count) => Ok((count, next(at))),
        Err(_) => Err(TextFault::Shape(at)),
    }
}

/// The number whose text a word is.
pub(crate) fn number(word: &str) -> Option<Number>
    ensures { result ≡ number_in word.now }
{
    if let Some(digits) = word.strip_prefix('-') {
        return negated(natural(digits)?);
    }
    not_negated(natural(word))
}

fn negated(magnitude: u128) -> Option<Number>
    ensures { result ≡ negated (Some magnitude) }
{
    if magnitude == 0 {
        None
    } else {
        Some(Number::new(true, magnitude))
    }
}

fn not_negated(magnitude: Option<u128>) -> Option<Number>
    ensures { result ≡ not_negated magnitude }
{
    Some(Number::new(false, magnitude?))
}

/// The number that a tree is.
pub fn number_at(tree: &Sx, at: u32) -> Result<(Number, u32), TextFault>
    ensures { Gives (λ n. n) result (number_at at (tree_of tree.now)) }
{
    let Some(word) = tree.word() else {
        return Err(TextFault::Shape(at));
    };
    match number(word) {
        Some(number) => Ok((number, next(at))),
        None => Err(TextFault::Shape(at)),
    }
}

/// The number below 2 to a width that a tree is.
pub(crate) fn bits_at(width: u8, tree: &Sx, at: u32) -> Result<(u64, u32), TextFault>
    requires { is_width width ≡ true }
    ensures gives { Gives (λ n. n) result (natural_at (2 ^ width) at (tree_of tree.now)) }
    ensures fits { IfOk result (λ x. x.0 < 2 ^ width) }
{
    let Some(word) = tree.word() else {
        return Err(TextFault::Shape(at));
    };
    let Some(number) = natural(word) else {
        return Err(TextFault::Shape(at));
    };
    match u64::try_from(number) {
        Ok(bits) if fits(width, bits) => Ok((bits, next(at))),
        _ => Err(TextFault::Shape(at)),
    }
}

fn fits(width: u8, bits: u64) -> bool
    requires { is_width width ≡ true }
    ensures { result ≡ nat_lt bits (2 ^ width) }
{
    bits <= u64::MAX >> (64 - width)
}

/// The width that a tree is.
pub fn width_at(tree: &Sx, at: u32) -> Result<(u8, u32), TextFault>
    ensures gives { Gives (λ n. n) result (width_at at (tree_of tree.now)) }
    ensures width { IfOk result (λ x. is_width x.0 ≡ true) }
{
    let Some(word) = tree.word() else {
        return Err(TextFault::Shape(at));
    };
    match natural(word) {
        Some(8) => Ok((8, next(at))),
        Some(16) => Ok((16, next(at))),
        Some(32) => Ok((32, next(at))),
        Some(64) => Ok((64, next(at))),
        _ => Err(TextFault::Shape(at)),
    }
}
