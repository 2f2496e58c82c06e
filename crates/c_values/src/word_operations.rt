//! The operations on words.

ghost use Rattle.std.specs.Prelude.{◌≡◌, ◌<◌, false, ℤ, pos, IfNone, IfSome};
ghost use Rattle.c_values.specs.Number.{quotient, remainder};
ghost use Rattle.c_values.specs.Word.{word, word_op, word_shift, word_unary, word_test, cast, is_shift};
ghost use Rattle.c_values.specs.CodeWord.{word_op_of, shift_op_of, unary_op_of, word_test_of};
ghost use Rattle.c_values.specs.Width.{IsWidth};

use crate::numbers::Number;
use crate::words::{Word, mask};

/// An operation on two words of one width. Arithmetic is modulo 2 to the width.
#[derive(Clone, Copy, Debug, PartialEq, Eq)]
pub enum WordOp {
    Wadd,
    Wsub,
    Wmul,
    Wand,
    Wor,
    Wxor,
    /// The quotient of the unsigned values; by zero it is 0.
    Wudiv,
    /// The remainder of the unsigned values; by zero it is the dividend.
    Wumod,
    /// The quotient of the signed values, truncated toward zero; by zero it is 0.
    Wsdiv,
    /// The remainder of the signed values, with the dividend's sign; by zero it is the dividend.
    Wsmod,
}

/// An operation on one word.
#[derive(Clone, Copy, Debug, PartialEq, Eq)]
pub enum UnaryOp {
    Wneg,
    Wnot,
}

/// A shift of a word by a number. Outside of 0 to the width, less one, no bit of the word stays: the result is 0, or, of
/// `Wsshr`, the word's sign in every bit.
#[derive(Clone, Copy, Debug, PartialEq, Eq)]
pub enum ShiftOp {
    Wshl,
    Wushr,
    Wsshr,
}

/// An order test, of the unsigned values (`Wult`, `Wule`) or the signed ones.
#[derive(Clone, Copy, Debug, PartialEq, Eq)]
pub enum WordTest {
    Wult,
    Wule,
    Wslt,
    Wsle,
}

/// The result of an operation on two words of one width.
pub fn word_op(op: WordOp, a: Word, b: Word) -> Word
    requires { a.width ≡ b.width }
    ensures { result ≡ word_op (word_op_of op) a b }
{
    let width = a.width();
    match op {
        WordOp::Wadd => Word::truncated(width, a.bits().wrapping_add(b.bits())),
        WordOp::Wsub => Word::truncated(width, a.bits().wrapping_sub(b.bits())),
        WordOp::Wmul => Word::truncated(width, a.bits().wrapping_mul(b.bits())),
        WordOp::Wand => Word::truncated(width, a.bits() & b.bits()),
        WordOp::Wor => Word::truncated(width, a.bits() | b.bits()),
        WordOp::Wxor => Word::truncated(width, a.bits() ^ b.bits()),
        WordOp::Wudiv => Word::truncated(width, unsigned_quotient(a.bits(), b.bits())),
        WordOp::Wumod => Word::truncated(width, unsigned_remainder(a.bits(), b.bits())),
        WordOp::Wsdiv => signed_quotient(width, a.signed(), b.signed()),
        WordOp::Wsmod => signed_remainder(width, a.signed(), b.signed()),
    }
}

/// A word shifted by a number.
pub fn word_shift(op: ShiftOp, a: Word, n: Number) -> Word
    ensures { result ≡ word_shift (shift_op_of op) a n }
{
    match shift_count(a.width(), n) {
        Some(count) => shifted(op, a, count),
        None => shifted_out(op, a),
    }
}

/// The result of an operation on one word.
pub fn word_unary(op: UnaryOp, a: Word) -> Word
    ensures { result ≡ word_unary (unary_op_of op) a }
{
    match op {
        UnaryOp::Wneg => Word::truncated(a.width(), 0u64.wrapping_sub(a.bits())),
        UnaryOp::Wnot => Word::truncated(a.width(), mask(a.width()) - a.bits()),
    }
}

/// Whether an order test holds of two words of one width.
pub fn word_test(op: WordTest, a: Word, b: Word) -> bool
    requires { a.width ≡ b.width }
    ensures { result ≡ word_test (word_test_of op) a b }
{
    match op {
        WordTest::Wult => a.bits() < b.bits(),
        WordTest::Wule => a.bits() <= b.bits(),
        WordTest::Wslt => a.signed() < b.signed(),
        WordTest::Wsle => a.signed() <= b.signed(),
    }
}

/// A word of another width: the signed value, or the unsigned one, modulo 2 to that width.
pub fn cast(sign: bool, width: u8, a: Word) -> Word
    requires { IsWidth width }
    ensures { result ≡ cast sign width a }
{
    if sign {
        Word::truncated_signed(width, a.signed())
    } else {
        Word::truncated(width, a.bits())
    }
}

// The quotient, or 0 by zero.
fn unsigned_quotient(a: u64, b: u64) -> u64
    ensures { pos result ≡ quotient (pos a) (pos b) }
{
    if b == 0 { 0 } else { a / b }
}

// The remainder, or the dividend by zero.
fn unsigned_remainder(a: u64, b: u64) -> u64
    ensures { pos result ≡ remainder (pos a) (pos b) }
{
    if b == 0 { a } else { a % b }
}

// The word of the quotient, or of 0 by zero.
fn signed_quotient(width: u8, a: i64, b: i64) -> Word
    requires { IsWidth width }
    ensures { result ≡ word width (quotient a b) }
{
    if b == 0 {
        Word::truncated(width, 0)
    } else {
        Word::truncated_signed(width, a.wrapping_div(b))
    }
}

// The word of the remainder, or of the dividend by zero.
fn signed_remainder(width: u8, a: i64, b: i64) -> Word
    requires { IsWidth width }
    ensures { result ≡ word width (remainder a b) }
{
    if b == 0 {
        Word::truncated_signed(width, a)
    } else {
        Word::truncated_signed(width, a.wrapping_rem(b))
    }
}

// By how many bits to shift, where that is from 0 to the width, less one.
fn shift_count(width: u8, n: Number) -> Option<u8>
    ensures outside { IfNone result (is_shift width n ≡ false) }
    ensures inside { IfSome result (λ count. (n ≡ pos count) × (count < width)) }
{
    if n.negative() || n.magnitude() >= u128::from(width) {
        None
    } else {
        Some(n.magnitude() as u8)
    }
}

// A word shifted by less than its width.
fn shifted(op: ShiftOp, a: Word, count: u8) -> Word
    requires { count < a.width }
    ensures { result ≡ word_shift (shift_op_of op) a (pos count) }
{
    match op {
        ShiftOp::Wshl => Word::truncated(a.width(), a.bits() << count),
        ShiftOp::Wushr => Word::truncated(a.width(), a.bits() >> count),
        ShiftOp::Wsshr => Word::truncated_signed(a.width(), a.signed() >> count),
    }
}

// What is left of a word that is shifted by its width or more.
fn shifted_out(op: ShiftOp, a: Word) -> Word
    ensures { (n : ℤ) → is_shift a.width n ≡ false → result ≡ word_shift (shift_op_of op) a n }
{
    match op {
        ShiftOp::Wshl | ShiftOp::Wushr => Word::truncated(a.width(), 0),
        ShiftOp::Wsshr => Word::truncated_signed(a.width(), if a.signed() < 0 { -1 } else { 0 }),
    }
}
