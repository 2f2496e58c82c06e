//! Locals, as names with values.

ghost use Rattle.std.specs.Prelude.{◌≡◌, true, map, string_bytes, IfOk};
ghost use Rattle.std.specs.Option.{option_map};
ghost use Rattle.c_values.specs.Value.{nothing};
ghost use Rattle.c_values.specs.CodeValue.{value_of};
ghost use Rattle.expression_lang.specs.Sort.{are_kinds};
ghost use Rattle.expression_lang.specs.Signature.{kinds_of};
ghost use Rattle.expression_lang.specs.CodeSignature.{binder_of};
ghost use Rattle.expression_lang.specs.CodeState.{env_of};
ghost use Rattle.command_runs.specs.Locals.{put_in, started, given_in, IsTaken};
ghost use Rattle.command_runs.specs.CodeRun.{table_of};

use crate::kinds::zero;
use c_values::{Value, copy_value};
use expression_lang::{Binder, Env};
use std::alloc::{AllocError, Global};

/// The locals with which a body begins: the first have the arguments, the others zeros.
pub(crate) fn started(
    alloc: Global,
    binders: &[Binder],
    arguments: &[Value],
) -> Result<Env, AllocError>
    requires { are_kinds (kinds_of (map binder_of binders.now)) ≡ true }
    ensures { IfOk result (λ locals. table_of locals.items
        ≡ started (map binder_of binders.now) (map value_of arguments.now)) }
{
    let mut locals = Vec::new(alloc);
    let mut rest = binders;
    let mut values = arguments;
    'binders: while let Some((binder, others)) = rest.split_first() {
        let value = match values.split_first() {
            Some((first, further)) => {
                values = further;
                copy_value(alloc, first)?
            }
            None => zero(binder.kind),
        };
        let name = binder.name.clone()?;
        locals.push((name, value))?;
        rest = others;
    }
    Ok(locals)
}

/// The first local of the name takes the value.
pub(crate) fn put(locals: &mut Env, name: &str, value: Value)
    ensures { table_of locals.new.items
        ≡ put_in name.now (value_of value) (table_of locals.old.items) }
{
    let mut k = 0;
    'locals: while k < locals.len() {
        if locals[k].0.as_str() == name {
            locals[k].1 = value;
            return;
        }
        k += 1;
    }
}

/// What a call gives goes to its target.
pub(crate) fn give(target: &Option<String>, given: Option<Value>, locals: &mut Env)
    requires { IsTaken (option_map string_bytes target.now) (option_map value_of given) }
    ensures { table_of locals.new.items
        ≡ given_in (option_map string_bytes target.now) (option_map value_of given)
        (table_of locals.old.items) }
{
    match (target, given) {
        (Some(name), Some(value)) => put(locals, name.as_str(), value),
        (Some(_), None) => unreachable!(),
        (None, _) => {}
    }
}

/// The value of the last local of the name.
pub(crate) fn taken(alloc: Global, locals: Env, name: &str) -> Value
    ensures { value_of result ≡ env_of locals.items name.now }
{
    let mut rest = locals;
    'locals: while let Some((own, value)) = rest.pop() {
        if own.as_str() == name {
            return value;
        }
    }
    nothing(alloc)
}

// A value without parts.
fn nothing(alloc: Global) -> Value
    ensures { value_of result ≡ nothing }
{
    Value::Parts(Vec::new(alloc))
}
