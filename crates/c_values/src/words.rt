//! Words.

ghost use Rattle.std.specs.Prelude.{◌≡◌, ◌-◌, ◌^◌, ◌<◌, pos};
ghost use Rattle.c_values.specs.Word.{word, signed};
ghost use Rattle.c_values.specs.Width.{IsWidth};

use std::marker::Model;

/// Bits of a width of 8, 16, 32 or 64.
#[derive(Clone, Copy, Debug, PartialEq, Eq)]
pub struct Word {
    width: u8,
    bits: u64,
}

impl Model for Word {
    ghost use Rattle.std.specs.Prelude.{◌^◌, ◌<◌};
    ghost use Rattle.c_values.specs.Word.{Word};
    ghost use Rattle.c_values.specs.Width.{IsWidth};

    ghost Value = { Word };

    ghost view = { λ w. record { width = w.width; bits = w.bits } };

    ghost invariant = { λ w. record { width : IsWidth w.width; bits : w.bits < 2 ^ w.width } };

    ghost inverse = { λ w. record { width = w.width; bits = w.bits } };
}

impl Word {
    /// The word of these bits.
    pub fn new(width: u8, bits: u64) -> Word
        requires width { IsWidth width }
        requires bits { bits < 2 ^ width }
        ensures { result ≡ record { width = width; bits = bits } }
    {
        Word { width, bits }
    }

    /// How many bits there are.
    pub fn width(self) -> u8
        ensures value { result ≡ self.width }
        ensures width { IsWidth result }
    {
        self.width
    }

    /// The bits, as an unsigned number.
    pub fn bits(self) -> u64
        ensures value { result ≡ self.bits }
        ensures fits { result < 2 ^ self.width }
    {
        self.bits
    }

    // The number modulo 2 to the width.
    pub(crate) fn truncated(width: u8, bits: u64) -> Word
        requires { IsWidth width }
        ensures { result ≡ word width (pos bits) }
    {
        Word {
            width,
            bits: bits & mask(width),
        }
    }

    // The signed number modulo 2 to the width.
    pub(crate) fn truncated_signed(width: u8, number: i64) -> Word
        requires { IsWidth width }
        ensures { result ≡ word width number }
    {
        Word::truncated(width, number.cast_unsigned())
    }

    // The signed value.
    pub(crate) fn signed(self) -> i64
        ensures { result ≡ signed self }
    {
        let largest = mask(self.width) / 2;
        if self.bits <= largest {
            self.bits as i64
        } else {
            -1 - (mask(self.width) - self.bits) as i64
        }
    }
}

// The greatest unsigned number of a width.
pub(crate) fn mask(width: u8) -> u64
    requires { IsWidth width }
    ensures { result ≡ 2 ^ width - 1 }
{
    u64::MAX >> (64 - width)
}
