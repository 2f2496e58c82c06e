//! Laws of words: numbers are the views of words. Where the exact result of an operation on the values of words fits the
//! width, the word operation gives the word that has it. These are for words of any width of at least one bit.

ghost use Rattle.std.specs.Prelude.{◌≡◌, ℕ, ◌<◌, ◌≤◌, Bool, true, false, ℤ, neg_ℤ, ◌+ℤ◌, ◌-ℤ◌, ◌*ℤ◌, int_lt, int_le};
ghost use Rattle.c_values.specs.Number.{quotient, remainder, is_between, least, greatest};
ghost use Rattle.c_values.specs.Word.{Word, IsWord, unsigned, signed, word, WordOp, Wadd, Wsub, Wmul, Wudiv, Wumod, Wsdiv, Wsmod, ShiftOp, UnaryOp, Wneg, Wult, Wule, Wslt, Wsle, word_op, word_shift, word_unary, word_test, cast};

/// A word's values are numbers of its width.
pub fn values_fit()
    ensures unsigned { (width : ℕ) (a : Word) → 1 ≤ width → IsWord width a →
        is_between (least false width) (unsigned a) (greatest false width) ≡ true }
    ensures signed { (width : ℕ) (a : Word) → 1 ≤ width → IsWord width a →
        is_between (least true width) (signed a) (greatest true width) ≡ true }
{}

/// The word of a number that fits has that number as its value.
pub fn word_has_its_number()
    ensures unsigned { (width : ℕ) (n : ℤ) → 1 ≤ width →
        is_between (least false width) n (greatest false width) ≡ true → unsigned (word width n)
        ≡ n }
    ensures signed { (width : ℕ) (n : ℤ) → 1 ≤ width →
        is_between (least true width) n (greatest true width) ≡ true → signed (word width n) ≡ n }
{}

/// A word is the word of each of its values.
pub fn word_of_its_values()
    ensures unsigned { (width : ℕ) (a : Word) → 1 ≤ width → IsWord width a → word width (unsigned a)
        ≡ a }
    ensures signed { (width : ℕ) (a : Word) → 1 ≤ width → IsWord width a → word width (signed a)
        ≡ a }
{}

/// Each operation gives a word of the width.
pub fn results_are_words()
    ensures word { (width : ℕ) (n : ℤ) → IsWord width (word width n) }
    ensures operation { (width : ℕ) (op : WordOp) (a b : Word) → IsWord width a →
        IsWord width (word_op op a b) }
    ensures shift { (width : ℕ) (op : ShiftOp) (a : Word) (n : ℤ) → IsWord width a →
        IsWord width (word_shift op a n) }
    ensures unary { (width : ℕ) (op : UnaryOp) (a : Word) → IsWord width a →
        IsWord width (word_unary op a) }
    ensures cast { (width : ℕ) (sign : Bool) (a : Word) → IsWord width (cast sign width a) }
{}

/// Sums.
pub fn sum_is_exact()
    ensures unsigned { (width : ℕ) (a b : Word) → 1 ≤ width → IsWord width a → IsWord width b →
        is_between (least false width) (unsigned a +ℤ unsigned b) (greatest false width) ≡ true →
        unsigned (word_op Wadd a b) ≡ unsigned a +ℤ unsigned b }
    ensures signed { (width : ℕ) (a b : Word) → 1 ≤ width → IsWord width a → IsWord width b →
        is_between (least true width) (signed a +ℤ signed b) (greatest true width) ≡ true →
        signed (word_op Wadd a b) ≡ signed a +ℤ signed b }
{}

/// Differences.
pub fn difference_is_exact()
    ensures unsigned { (width : ℕ) (a b : Word) → 1 ≤ width → IsWord width a → IsWord width b →
        is_between (least false width) (unsigned a -ℤ unsigned b) (greatest false width) ≡ true →
        unsigned (word_op Wsub a b) ≡ unsigned a -ℤ unsigned b }
    ensures signed { (width : ℕ) (a b : Word) → 1 ≤ width → IsWord width a → IsWord width b →
        is_between (least true width) (signed a -ℤ signed b) (greatest true width) ≡ true →
        signed (word_op Wsub a b) ≡ signed a -ℤ signed b }
{}

/// Products.
pub fn product_is_exact()
    ensures unsigned { (width : ℕ) (a b : Word) → 1 ≤ width → IsWord width a → IsWord width b →
        is_between (least false width) (unsigned a *ℤ unsigned b) (greatest false width) ≡ true →
        unsigned (word_op Wmul a b) ≡ unsigned a *ℤ unsigned b }
    ensures signed { (width : ℕ) (a b : Word) → 1 ≤ width → IsWord width a → IsWord width b →
        is_between (least true width) (signed a *ℤ signed b) (greatest true width) ≡ true →
        signed (word_op Wmul a b) ≡ signed a *ℤ signed b }
{}

/// Negations.
pub fn negation_is_exact()
    ensures unsigned { (width : ℕ) (a : Word) → 1 ≤ width → IsWord width a →
        is_between (least false width) (neg_ℤ (unsigned a)) (greatest false width) ≡ true →
        unsigned (word_unary Wneg a) ≡ neg_ℤ (unsigned a) }
    ensures signed { (width : ℕ) (a : Word) → 1 ≤ width → IsWord width a →
        is_between (least true width) (neg_ℤ (signed a)) (greatest true width) ≡ true →
        signed (word_unary Wneg a) ≡ neg_ℤ (signed a) }
{}

/// Quotients, which truncate toward zero. Only the signed quotient of the least value by -1 doesn't fit.
pub fn quotient_is_exact()
    ensures unsigned { (width : ℕ) (a b : Word) → 1 ≤ width → IsWord width a → IsWord width b →
        unsigned (word_op Wudiv a b) ≡ quotient (unsigned a) (unsigned b) }
    ensures signed { (width : ℕ) (a b : Word) → 1 ≤ width → IsWord width a → IsWord width b →
        is_between (least true width) (quotient (signed a) (signed b)) (greatest true width)
        ≡ true →
        signed (word_op Wsdiv a b) ≡ quotient (signed a) (signed b) }
{}

/// Remainders.
pub fn remainder_is_exact()
    ensures unsigned { (width : ℕ) (a b : Word) → 1 ≤ width → IsWord width a → IsWord width b →
        unsigned (word_op Wumod a b) ≡ remainder (unsigned a) (unsigned b) }
    ensures signed { (width : ℕ) (a b : Word) → 1 ≤ width → IsWord width a → IsWord width b →
        signed (word_op Wsmod a b) ≡ remainder (signed a) (signed b) }
{}

/// The order tests are the orders of the values.
pub fn tests_are_orders()
    ensures unsigned_less { (a b : Word) → word_test Wult a b ≡ int_lt (unsigned a) (unsigned b) }
    ensures unsigned_at_most { (a b : Word) →
        word_test Wule a b ≡ int_le (unsigned a) (unsigned b) }
    ensures signed_less { (a b : Word) → word_test Wslt a b ≡ int_lt (signed a) (signed b) }
    ensures signed_at_most { (a b : Word) → word_test Wsle a b ≡ int_le (signed a) (signed b) }
{}

/// Casts to a width that isn't smaller keep the value; a negative one has no unsigned value to keep.
pub fn cast_keeps_the_value()
    ensures unsigned { (from width : ℕ) (a : Word) → 1 ≤ from → from ≤ width → IsWord from a →
        unsigned (cast false width a) ≡ unsigned a }
    ensures signed { (from width : ℕ) (a : Word) → 1 ≤ from → from ≤ width → IsWord from a →
        signed (cast true width a) ≡ signed a }
    ensures unsigned_as_signed { (from width : ℕ) (a : Word) → 1 ≤ from → from < width →
        IsWord from a →
        signed (cast false width a) ≡ unsigned a }
{}
