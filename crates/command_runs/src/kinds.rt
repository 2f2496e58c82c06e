//! Values that are at hand at each kind.

ghost use Rattle.std.specs.Prelude.{◌≡◌, true};
ghost use Rattle.c_values.specs.CodeValue.{value_of};
ghost use Rattle.expression_lang.specs.Sort.{is_kind};
ghost use Rattle.expression_lang.specs.View.{zero_word_at};
ghost use Rattle.expression_lang.specs.CodeExpression.{kind_of};
ghost use Rattle.command_runs.specs.CodeRun.{picked_value};

use c_values::views::word;
use c_values::{Number, Value, Word};
use expression_lang::Kind;

/// What a local of a kind begins with.
pub(crate) fn zero(kind: Kind) -> Value
    requires { is_kind (kind_of kind) ≡ true }
    ensures { value_of result ≡ zero_word_at (kind_of kind) }
{
    match kind {
        Kind::Word(width) | Kind::Nat(width) | Kind::Int(width) => Value::Word(Word::new(width, 0)),
        Kind::Bool => Value::Truth(false),
    }
}

/// What a fill number picks for a local of a kind.
pub(crate) fn picked(kind: Kind, fill: u64) -> Value
    requires { is_kind (kind_of kind) ≡ true }
    ensures { value_of result ≡ picked_value fill (kind_of kind) }
{
    match kind {
        Kind::Word(width) | Kind::Nat(width) | Kind::Int(width) => {
            Value::Word(word(width, Number::new(false, fill as u128)))
        }
        Kind::Bool => Value::Truth(false),
    }
}
