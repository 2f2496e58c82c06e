//! Arguments as programs take them.

ghost use Rattle.std.specs.Prelude.{◌≡◌, IfOk, map};
ghost use Rattle.c_values.specs.CodeValue.{value_of};
ghost use Rattle.c_values.specs.Value.{word_in};
ghost use Rattle.expression_lang.specs.CodeExpression.{kind_of};
ghost use Rattle.expression_lang.specs.CodeSignature.{binder_of};
ghost use Rattle.expression_lang.specs.Signature.{kinds_of};
ghost use Rattle.expression_lang.specs.View.{view_at, views_at};

use c_values::{Value, Word, copy_value, int, nat};
use expression_lang::{Binder, Kind};
use std::alloc::{AllocError, Global};

/// What words stand for at the kinds of parameters, one for each.
pub fn views_of(
    alloc: Global,
    parameters: &[Binder],
    values: &[Value],
) -> Result<Vec<Value>, AllocError>
    ensures { IfOk result (λ views. map value_of views.items
        ≡ views_at (kinds_of (map binder_of parameters.now)) (map value_of values.now)) }
{
    let mut views = Vec::new(alloc);
    let mut rest = values;
    'parameters: for parameter in parameters {
        let Some((value, others)) = rest.split_first() else {
            return Ok(views);
        };
        views.push(view_at(alloc, parameter.kind, value)?)?;
        rest = others;
    }
    Ok(views)
}

// What a value stands for at a kind.
fn view_at(alloc: Global, kind: Kind, value: &Value) -> Result<Value, AllocError>
    ensures { IfOk result (λ view. value_of view ≡ view_at (kind_of kind) (value_of value.now)) }
{
    match kind {
        Kind::Word(_) | Kind::Bool => copy_value(alloc, value),
        Kind::Nat(_) => Ok(Value::Number(nat(word_in(value)))),
        Kind::Int(_) => Ok(Value::Number(int(word_in(value)))),
    }
}

fn word_in(value: &Value) -> Word
    ensures { result ≡ word_in (value_of value.now) }
{
    match value {
        Value::Word(word) => *word,
        Value::Number(_) | Value::Truth(_) | Value::Parts(_) => Word::new(8, 0),
    }
}
