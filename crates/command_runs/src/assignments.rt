//! Commands that give a local, a global or memory a value.

ghost use Rattle.std.specs.Prelude.{◌≡◌, OnOk};
ghost use Rattle.c_values.specs.Value.{word_in};
ghost use Rattle.c_values.specs.CodeTypes.{type_of};
ghost use Rattle.c_values.specs.CodeValue.{value_of};
ghost use Rattle.expression_lang.specs.CodeExpression.{exp_of, path_of};
ghost use Rattle.simpl_lang.specs.Command.{Set, SetGlobal, Store, Pick};
ghost use Rattle.command_runs.specs.CodeRun.{machine_in, Fits, IsFrame, CanRunIn, Reaches};

use crate::frame::Frame;
use crate::kinds::picked;
use crate::locals::put;
use crate::outcome::CState;
use c_memory::Heap;
use c_values::{CType, Value};
use expression_lang::{Env, Exp, Path};
use global_changes::change;
use simpl_lang::kind_in;
use std::alloc::AllocError;

impl Frame<'_> {
    /// A local takes the value of an expression.
    pub(crate) fn set(
        &self,
        name: &str,
        e: &Exp,
        locals: &mut Env,
        state: &CState,
    ) -> Result<(), AllocError>
        requires frame { IsFrame self.now }
        requires fits { Fits self.now locals.old.items state.now }
        requires sorted { CanRunIn self.now (Set name.now (exp_of e.now)) }
        ensures fits { OnOk result (Fits self.now locals.new.items state.now) }
        ensures run { OnOk result (Reaches self.now (Set name.now (exp_of e.now))
            (machine_in self.now locals.old.items state.now)
            (machine_in self.now locals.new.items state.now)) }
    {
        let value = self.value(e, locals, state)?;
        put(locals, name, value);
        Ok(())
    }

    /// A local takes what is picked.
    pub(crate) fn pick(&self, name: &str, locals: &mut Env, state: &CState)
        requires frame { IsFrame self.now }
        requires fits { Fits self.now locals.old.items state.now }
        requires sorted { CanRunIn self.now (Pick name.now) }
        ensures fits { Fits self.now locals.new.items state.now }
        ensures run { Reaches self.now (Pick name.now)
            (machine_in self.now locals.old.items state.now)
            (machine_in self.now locals.new.items state.now) }
    {
        let kind = kind_in(self.locals, name).unwrap();
        put(locals, name, picked(kind, self.fill));
    }

    /// The part of a global takes the value of an expression.
    pub(crate) fn set_global(
        &self,
        name: &str,
        path: &Path,
        e: &Exp,
        locals: &Env,
        state: &mut CState,
    ) -> Result<(), AllocError>
        requires frame { IsFrame self.now }
        requires fits { Fits self.now locals.now.items state.old }
        requires sorted { CanRunIn self.now (SetGlobal name.now (path_of path.now) (exp_of e.now)) }
        ensures fits { OnOk result (Fits self.now locals.now.items state.new) }
        ensures run { OnOk result (Reaches self.now
            (SetGlobal name.now (path_of path.now) (exp_of e.now))
            (machine_in self.now locals.now.items state.old)
            (machine_in self.now locals.now.items state.new)) }
    {
        let steps = self.steps(path, locals, state)?;
        let value = self.value(e, locals, state)?;
        change(&self.unit.globals, &mut state.globals, name, &steps, value);
        Ok(())
    }

    /// The part of an object in memory takes the value of an expression.
    pub(crate) fn store(
        &self,
        t: &CType,
        pointer: &Exp,
        path: &Path,
        e: &Exp,
        locals: &Env,
        state: &mut CState,
    ) -> Result<(), AllocError>
        requires frame { IsFrame self.now }
        requires fits { Fits self.now locals.now.items state.old }
        requires sorted { CanRunIn self.now
            (Store (type_of t.now) (exp_of pointer.now) (path_of path.now) (exp_of e.now)) }
        ensures fits { OnOk result (Fits self.now locals.now.items state.new) }
        ensures run { OnOk result (Reaches self.now
            (Store (type_of t.now) (exp_of pointer.now) (path_of path.now) (exp_of e.now))
            (machine_in self.now locals.now.items state.old)
            (machine_in self.now locals.now.items state.new)) }
    {
        let root = self.value(pointer, locals, state)?;
        let address = address_of(&root);
        let steps = self.steps(path, locals, state)?;
        let value = self.value(e, locals, state)?;
        state
            .heap
            .write_value(self.alloc, &self.unit.layout, t, address, &steps, &value)
    }
}

// The bits of a pointer.
fn address_of(pointer: &Value) -> u64
    ensures { result ≡ (word_in (value_of pointer.now)).bits }
{
    match pointer {
        Value::Word(word) => word.bits(),
        _ => 0,
    }
}
