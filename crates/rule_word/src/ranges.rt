//! Ranges of words of the four widths.

ghost use Rattle.std.specs.Prelude.{◌≡◌, ◌-◌, ◌^◌, ◌<◌, ◌↔◌, true, false, IsTrue};
ghost use Rattle.c_values.specs.Layout.{IsLayout};
ghost use Rattle.c_values.specs.Number.{least, greatest};
ghost use Rattle.expression_lang.specs.Sort.{is_width};
ghost use Rattle.expression_lang.specs.CodeExpression.{exp_of};
ghost use Rattle.expression_lang.specs.Expression.{Between};
ghost use Rattle.ac_expr.specs.Known.{IsKnown};
ghost use Rattle.rule_word.specs.Table.{IsInRange};
ghost use Rattle.rule_word.specs.CodeRule.{known_in, view_at};
ghost use Rattle.rule_word.specs.CodeKinds.{scope_at};
ghost use Rattle.rule_word.specs.CodeRows.{FitsAt, HasKinds};

use crate::passed::Passed;
use crate::rule::{Context, Point, View};
use ac_expr::{Fact, Facts, known};
use c_values::{Layout, Number};
use expression_lang::Exp;
use program_facts::Parts;

/// Its structs are as they should be.
pub(crate) fn laid_out(l: &Layout)
    ensures { IsLayout l.now }
{
    let _ = l.target();
}

/// Whether a number is known to be one that a word which is seen so has: the left side, whose width
/// it has.
pub(crate) fn is_in_range(
    left: &Exp,
    view: View,
    number: &Exp,
    context: Context<'_>,
    point: Point<'_>,
) -> bool
    requires fits { FitsAt context point (exp_of left.now) view }
    requires kinds { HasKinds point.names.now }
    ensures { IsTrue result ↔ IsInRange (known_in point.entry.facts.now)
        (view_at (scope_at context.entry point.entry) (exp_of left.now) view) (exp_of number.now) }
{
    laid_out(context.layout);
    match view {
        View::AsIs => false,
        View::Unsigned(width) => is_natural(number, width, point.facts),
        View::Signed(width) => is_integer(number, width, point.facts),
    }
}

fn is_natural(number: &Exp, width: u8, facts: &Facts<'_, Passed<'_>>) -> bool
    requires { is_width width ≡ true }
    ensures { IsTrue result
        ↔ IsKnown (known_in facts.now) (Between (least false width) (exp_of number.now)
        (greatest false width)) }
{
    let low = Number::new(false, 0);
    let high = Number::new(false, greatest_natural(width));
    let fact = Fact::Between(low, number, high);
    let here = facts.pass(Passed::Program(Parts::None), 0);
    known(&here, &fact)
}

fn is_integer(number: &Exp, width: u8, facts: &Facts<'_, Passed<'_>>) -> bool
    requires { is_width width ≡ true }
    ensures { IsTrue result
        ↔ IsKnown (known_in facts.now) (Between (least true width) (exp_of number.now)
        (greatest true width)) }
{
    let size = half(width);
    let low = Number::new(true, size);
    let high = Number::new(false, size - 1);
    let fact = Fact::Between(low, number, high);
    let here = facts.pass(Passed::Program(Parts::None), 0);
    known(&here, &fact)
}

fn greatest_natural(width: u8) -> u128
    requires { is_width width ≡ true }
    ensures { result ≡ 2 ^ width - 1 }
{
    match width {
        8 => 0xff,
        16 => 0xffff,
        32 => 0xffff_ffff,
        _ => 0xffff_ffff_ffff_ffff,
    }
}

// The size of the least integer.
fn half(width: u8) -> u128
    requires { is_width width ≡ true }
    ensures value { result ≡ 2 ^ (width - 1) }
    ensures positive { 0 < result }
{
    match width {
        8 => 0x80,
        16 => 0x8000,
        32 => 0x8000_0000,
        _ => 0x8000_0000_0000_0000,
    }
}
