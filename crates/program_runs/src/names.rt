//! Values under names.

ghost use Rattle.std.specs.Prelude.{map, OnOk};
ghost use Rattle.c_values.specs.CodeValue.{value_of};
ghost use Rattle.program_runs.specs.Bound.{Extends};

use c_values::{Value, copy_value};
use expression_lang::{Env, Named};
use std::alloc::{AllocError, Global};

/// Puts values under names behind the bindings, as many as there are of both.
#[inline(never)]
pub(crate) fn bind<N: Named>(
    alloc: Global,
    names: &[N],
    values: &[Value],
    env: &mut Env,
) -> Result<(), AllocError>
    ensures { OnOk result (Extends env.old.items (map N.named names.now) (map value_of values.now)
        env.new.items) }
{
    let mut rest = names;
    let mut left = values;
    'names: while let Some((name, others)) = rest.split_first() {
        match left.split_first() {
            None => return Ok(()),
            Some((value, further)) => {
                let own = String::from_str(alloc, name.name())?;
                let copy = copy_value(alloc, value)?;
                env.push((own, copy))?;
                left = further;
            }
        }
        rest = others;
    }
    Ok(())
}
