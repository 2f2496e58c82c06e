//! Numbers: base, digits, suffix, and whether a type of the suffix holds the value.
ghost use Rattle.std.specs.Prelude.{◌≡◌, ◌+◌, ◌^◌, ◌<◌, ◌≤◌, ◌==◌, ◌||◌, not, nat_lt, length};
ghost use Rattle.std.specs.Option.{SomeIff, option_map};
ghost use Rattle.std.specs.List.{prefix_len};
ghost use Rattle.std.specs.Char.{is_digit, digit_value};
ghost use Rattle.std.specs.Str.Parse.{digits_value};
ghost use Rattle.c_lex.specs.Bytes.{is_numeral};
ghost use Rattle.c_lex.specs.Lexeme.{kind_of};
ghost use Rattle.c_lex.specs.Number.{is_u, is_l, is_x, suffix_of, written, number_of};

use crate::bytes::{after, byte_at, is_word};
use crate::token::TokenKind;

/// How many bytes of a number stand at the front, also of one that is no number in the end.
pub(crate) fn numeral_length(text: &[u8]) -> usize
    ensures { result ≡ prefix_len is_numeral text.now }
{
    text.iter()
        .take_while(|byte| is_word(**byte) || **byte == b'.')
        .count()
}

/// How many digits of a base stand at the front.
pub(crate) fn digit_count(base: u32, text: &[u8]) -> usize
    requires low { 2 ≤ base }
    requires high { base ≤ 16 }
    ensures digits { result ≡ prefix_len (λ b. is_digit b base) text.now }
    ensures within { result ≤ length text.now }
{
    text.iter()
        .take_while(|byte| char::from(**byte).is_digit(base))
        .count()
}

/// The value of digits of a base, where it is below 2 to the 64.
pub(crate) fn digits_value(base: u32, digits: &[u8]) -> Option<u64>
    requires low { 2 ≤ base }
    requires high { base ≤ 16 }
    ensures { SomeIff result (digits_value base digits.now < 2 ^ 64)
        (digits_value base digits.now) }
{
    let mut value: u64 = 0;
    for byte in digits {
        value = value
            .checked_mul(u64::from(base))?
            .checked_add(u64::from(digit_value(*byte)))?;
    }
    Some(value)
}

/// The value of a digit or a letter: 0 to 9, and from 10 on for the letters.
fn digit_value(byte: u8) -> u8
    ensures { result ≡ digit_value byte }
{
    match byte {
        b'0'..=b'9' => byte - b'0',
        b'A'..=b'Z' => byte - b'A' + 10,
        b'a'..=b'z' => byte - b'a' + 10,
        _ => 36,
    }
}

/// Whether a byte is `u` or `U`.
fn is_u(byte: u8) -> bool
    ensures { result ≡ is_u byte }
{
    byte == b'u' || byte == b'U'
}

/// Whether a byte is `l` or `L`.
fn is_l(byte: u8) -> bool
    ensures { result ≡ is_l byte }
{
    byte == b'l' || byte == b'L'
}

/// Whether a byte is `x` or `X`.
fn is_x(byte: u8) -> bool
    ensures { result ≡ is_x byte }
{
    byte == b'x' || byte == b'X'
}

/// Whether a suffix has a `u`, and how many `l` it has.
fn suffix(text: &[u8]) -> Option<(bool, u8)>
    ensures { result ≡ suffix_of text.now }
{
    match text {
        [] => Some((false, 0)),
        [a] => if is_u(*a) {
            Some((true, 0))
        } else if is_l(*a) {
            Some((false, 1))
        } else {
            None
        },
        [a, b] => if is_l(*a) && *a == *b {
            Some((false, 2))
        } else if (is_u(*a) && is_l(*b)) || (is_l(*a) && is_u(*b)) {
            Some((true, 1))
        } else {
            None
        },
        [a, b, c] => if (is_u(*a) && is_l(*b) && *b == *c) || (is_l(*a) && *a == *b && is_u(*c)) {
            Some((true, 2))
        } else {
            None
        },
        _ => None,
    }
}

/// Whether some type of the suffix holds the value.
fn has_type(decimal: bool, unsigned: bool, value: u64) -> bool
    ensures { result ≡ (nat_lt value (2 ^ 63) || not decimal || unsigned) }
{
    value < 1 << 63 || !decimal || unsigned
}

/// The number of digits of a base, and a suffix.
#[tactic(auto, unfolding(crate::specs::Number::written))]
fn written(base: u32, text: &[u8]) -> Option<TokenKind>
    requires low { 2 ≤ base }
    requires high { base ≤ 16 }
    ensures { option_map kind_of result ≡ written base text.now }
{
    let digits = digit_count(base, text);
    if digits == 0 {
        return None;
    }
    let (unsigned, longs) = suffix(after(text, digits))?;
    let value = digits_value(base, &text[..digits])?;
    let decimal = base == 10;
    if !has_type(decimal, unsigned, value) {
        return None;
    }
    Some(TokenKind::Number {
        value,
        decimal,
        unsigned,
        longs,
    })
}

/// The number that the bytes write: hexadecimal after `0x`, octal with another leading 0, else decimal.
#[tactic(auto, unfolding(crate::specs::Number::number_of))]
pub(crate) fn number(numeral: &[u8]) -> Option<TokenKind>
    ensures { option_map kind_of result ≡ number_of numeral.now }
{
    if byte_at(numeral, 0) == b'0' && is_x(byte_at(numeral, 1)) {
        written(16, after(numeral, 2))
    } else if byte_at(numeral, 0) == b'0' {
        written(8, numeral)
    } else {
        written(10, numeral)
    }
}
