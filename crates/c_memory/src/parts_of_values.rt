//! Values of structs and arrays, and their parts.

ghost use Rattle.std.specs.Prelude.{◌≡◌, false, slice_get, IfSome, IfNone};
ghost use Rattle.std.specs.Option.{option_copied};
ghost use Rattle.c_values.specs.Value.{Parts};
ghost use Rattle.c_values.specs.CodeValue.{value_of};
ghost use Rattle.c_values.specs.CodeParts.{values_in, has_parts};

use c_values::Value;

/// The value of these parts.
pub(crate) fn with_parts(parts: Vec<Value>) -> Value
    ensures { value_of result ≡ Parts (values_in parts.items) }
{
    Value::Parts(parts)
}

/// The parts of a value that has parts.
pub(crate) fn parts_of(value: &Value) -> Option<&[Value]>
    ensures some { IfSome result (λ parts. value_of value.now ≡ Parts (values_in parts.now)) }
    ensures none { IfNone result (has_parts (value_of value.now) ≡ false) }
{
    match value {
        Value::Parts(parts) => Some(parts.as_slice()),
        Value::Word(_) | Value::Number(_) | Value::Truth(_) => None,
    }
}

/// The part of this number.
pub(crate) fn part(parts: &[Value], k: u32) -> Option<&Value>
    ensures { option_copied result ≡ slice_get parts.now k }
{
    parts.get(k as usize)
}
