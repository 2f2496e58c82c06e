//! Whether a range holds every value of a word.

ghost use Rattle.std.specs.Prelude.{◌≡◌, ◌↔◌, ◌-◌, ◌^◌, ◌≤◌, IsTrue, Bool, List, int_le};
ghost use Rattle.std.specs.Option.{option_map};
ghost use Rattle.c_values.specs.Number.{least, greatest};
ghost use Rattle.expression_lang.specs.CodeExpression.{exp_of};
ghost use Rattle.expression_lang.specs.CodeSort.{sort_value};
ghost use Rattle.expression_lang.specs.Sort.{word_width};
ghost use Rattle.ac_expr.specs.Fact.{Fact as Plain};
ghost use Rattle.triple_lang.specs.Entail as names;
ghost use Rattle.entailment.specs.Table.{HoldsWord, row};
ghost use Rattle.entailment.specs.CodeClaim.{claim_of, scope_at};

use crate::claim::Claim;
use crate::site::Site;
use c_values::Number;
use expression_lang::{Exp, Scalar, Scope, Sort, sort_of};

/// Whether the claim is a range that has every value of a word in it.
pub(crate) fn is_range<N: Scope>(claim: &Claim<'_>, site: &Site<'_, N>) -> bool
    ensures { (lifted : Bool) (fs : List Plain) → IsTrue result
        ↔ (row lifted (scope_at (N.scalars) site.now) fs names.Range (claim_of claim.now)).holds }
{
    match claim {
        Claim::Whole(Exp::Between(low, number, high)) => match &**number {
            Exp::ToNat(e) => holds_word(false, e, *low, *high, site),
            Exp::ToInt(e) => holds_word(true, e, *low, *high, site),
            _ => false,
        },
        _ => false,
    }
}

// Whether a range holds every value of a word, by its unsigned or its signed value.
fn holds_word<N: Scope>(
    signed: bool,
    e: &Exp,
    low: Number,
    high: Number,
    site: &Site<'_, N>,
) -> bool
    ensures { IsTrue result
        ↔ HoldsWord (scope_at (N.scalars) site.now) signed (exp_of e.now) low high }
{
    match word_width(sort_of(e, site.names, site.layout, site.globals)) {
        Some(width) => begins_before(low, signed, width) && ends_behind(high, signed, width),
        None => false,
    }
}

// The width of a word's sort.
fn word_width(sort: Option<Sort<'_>>) -> Option<u8>
    ensures { result ≡ word_width (option_map sort_value sort.entry) }
{
    match sort {
        Some(Sort::Of(Scalar::Word(width))) => Some(width),
        _ => None,
    }
}

// Whether a number is at most the least value of a width.
fn begins_before(low: Number, signed: bool, width: u8) -> bool
    ensures { result ≡ int_le low (least signed width) }
{
    if signed {
        low.negative() && is_above_power(width.saturating_sub(1), low.magnitude())
    } else {
        low.negative() || low.magnitude() == 0
    }
}

// Whether a number is at least the greatest value of a width.
fn ends_behind(high: Number, signed: bool, width: u8) -> bool
    ensures { result ≡ int_le (greatest signed width) high }
{
    let bits = if signed {
        width.saturating_sub(1)
    } else {
        width
    };
    !high.negative() && is_above_all(bits, high.magnitude())
}

// Whether it is at least 2 to so many bits.
#[tactic(auto, using(crate::proofs::Powers::wide))]
fn is_above_power(bits: u8, magnitude: u128) -> bool
    ensures { IsTrue result ↔ (2 ^ bits ≤ magnitude) }
{
    bits < 128 && 1 << bits <= magnitude
}

// Whether it is at least one less than 2 to so many bits.
#[tactic(auto, using(crate::proofs::Powers::wider))]
fn is_above_all(bits: u8, magnitude: u128) -> bool
    ensures { IsTrue result ↔ (2 ^ bits - 1 ≤ magnitude) }
{
    if bits < 128 {
        (1 << bits) - 1 <= magnitude
    } else {
        bits == 128 && magnitude == u128::MAX
    }
}
