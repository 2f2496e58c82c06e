//! Which values a function takes.

ghost use Rattle.std.specs.Prelude.{◌≡◌, true, map};
ghost use Rattle.c_values.specs.CodeValue.{value_of};
ghost use Rattle.expression_lang.specs.Sort.{sort_of_kind};
ghost use Rattle.expression_lang.specs.Signature.{kinds_of};
ghost use Rattle.expression_lang.specs.States.{IsOfSort};
ghost use Rattle.expression_lang.specs.CodeExpression.{kind_of};
ghost use Rattle.expression_lang.specs.CodeSignature.{binder_of};
ghost use Rattle.program_facts.specs.Lasting.{AreOfSorts};
ghost use Rattle.program_runs.specs.CodeRun.{TakesThem};

use c_values::Value;
use expression_lang::{Binder, Kind};
use monad_lang::FinalUnit;

/// Whether function `f` of a unit takes the values.
pub(crate) fn takes(u: &FinalUnit, f: u32, values: &[Value]) -> bool
    ensures { result ≡ true → TakesThem u.now f (map value_of values.now) }
{
    match u.functions.get(f as usize) {
        Some(function) => are_arguments(&function.params, values),
        None => false,
    }
}

// Whether there is a value for each parameter, of its kind's sort.
fn are_arguments(parameters: &[Binder], values: &[Value]) -> bool
    ensures { result ≡ true →
        AreOfSorts (map sort_of_kind (kinds_of (map binder_of parameters.now)))
        (map value_of values.now) }
{
    match (parameters.split_first(), values.split_first()) {
        (Some((parameter, others)), Some((value, further))) => {
            is_of_kind(parameter.kind, value) && are_arguments(others, further)
        }
        (None, None) => true,
        _ => false,
    }
}

// Whether a value is of a kind's sort.
fn is_of_kind(kind: Kind, value: &Value) -> bool
    ensures { result ≡ true → IsOfSort (sort_of_kind (kind_of kind)) (value_of value.now) }
{
    match (kind, value) {
        (Kind::Word(width), Value::Word(word)) => {
            let _ = word.bits();
            word.width() == width
        }
        (Kind::Nat(_) | Kind::Int(_), Value::Number(_)) => true,
        (Kind::Bool, Value::Truth(_)) => true,
        _ => false,
    }
}
