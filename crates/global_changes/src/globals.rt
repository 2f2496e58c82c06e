//! Globals that take values.

ghost use Rattle.std.specs.Prelude.{◌≡◌, map};
ghost use Rattle.c_values.specs.CodeValue.{value_of, global_of};
ghost use Rattle.c_memory.specs.CodeStep.{step_of};
ghost use Rattle.global_changes.specs.GlobalChange.{position_of, change_in};

use c_memory::{Step, replace};
use c_values::{GlobalVar, Value};

/// The part of the first global of the name takes the value.
pub fn change(vars: &[GlobalVar], globals: &mut Vec<Value>, name: &str, path: &[Step], value: Value)
    ensures { map value_of globals.new.items
        ≡ change_in (position_of name.now (map global_of vars.now)) (map step_of path.now)
        (value_of value) (map value_of globals.old.items) }
{
    match position_of(vars, name) {
        Some(k) => {
            if k < globals.len() {
                replace(&mut globals[k], path, value);
            }
        }
        None => {}
    }
}

// Where the first global of the name stands.
fn position_of(vars: &[GlobalVar], name: &str) -> Option<usize>
    ensures { result ≡ position_of name.now (map global_of vars.now) }
{
    let mut k = 0;
    let mut rest = vars;
    'globals: while let Some((first, others)) = rest.split_first() {
        if first.name.as_str() == name {
            return Some(k);
        }
        k += 1;
        rest = others;
    }
    None
}
