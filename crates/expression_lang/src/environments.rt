//! Environments.

ghost use Rattle.std.specs.Prelude.{◌≡◌, false, map, IfOk, IfSome, IfNone};
ghost use Rattle.c_values.specs.Path.{sel};
ghost use Rattle.c_memory.specs.CodeStep.{step_of};
ghost use Rattle.c_values.specs.CodeFollow.{CanFollow};
ghost use Rattle.c_values.specs.Value.{nothing};
ghost use Rattle.c_values.specs.CodeValue.{value_of};
ghost use Rattle.c_values.specs.CodeParts.{has_parts};
ghost use Rattle.expression_lang.specs.CodeState.{env_of, globals_of};

use c_memory::{Step, select};
use c_values::{GlobalVar, Value, copy_value};
use std::alloc::{AllocError, Global};

/// Names with values. Of two with one name the last counts.
pub type Env = Vec<(String, Value)>;

/// The value of a name, which has no parts.
pub(crate) fn variable(alloc: Global, env: &Env, name: &str) -> Value
    requires { has_parts (env_of env.now.items name.now) ≡ false }
    ensures { value_of result ≡ env_of env.now.items name.now }
{
    let mut k = env.len();
    'names: while k > 0 {
        k -= 1;
        let (own, value) = &env[k];
        if own.as_str() == name {
            return scalar(alloc, value);
        }
    }
    Value::Parts(Vec::new(alloc))
}

// A copy of a value that has no parts.
fn scalar(alloc: Global, value: &Value) -> Value
    requires { has_parts (value_of value.now) ≡ false }
    ensures { value_of result ≡ value_of value.now }
{
    match value {
        Value::Word(word) => Value::Word(*word),
        Value::Number(number) => Value::Number(*number),
        Value::Truth(truth) => Value::Truth(*truth),
        Value::Parts(_) => Value::Parts(Vec::new(alloc)),
    }
}

// The value of a global, where there is one of the name.
fn global_value<'a>(vars: &[GlobalVar], globals: &'a [Value], name: &str) -> Option<&'a Value>
    ensures some { IfSome result (λ v. value_of v.now ≡ globals_of vars.now globals.now name.now) }
    ensures none { IfNone result (globals_of vars.now globals.now name.now ≡ nothing) }
{
    'globals: for (k, var) in vars.iter().enumerate() {
        if k >= globals.len() {
            return None;
        }
        if var.name.as_str() == name {
            return Some(&globals[k]);
        }
    }
    None
}

/// A part of a global's value.
pub(crate) fn global_part(
    alloc: Global,
    vars: &[GlobalVar],
    globals: &[Value],
    name: &str,
    path: &[Step],
) -> Result<Value, AllocError>
    requires { CanFollow (globals_of vars.now globals.now name.now) (map step_of path.now) }
    ensures { IfOk result (λ v. value_of v
        ≡ sel (globals_of vars.now globals.now name.now) (map step_of path.now)) }
{
    match global_value(vars, globals, name) {
        Some(value) => copy_value(alloc, select(value, path)),
        None => Ok(Value::Parts(Vec::new(alloc))),
    }
}
