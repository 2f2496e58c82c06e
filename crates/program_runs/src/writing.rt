//! Writes to places.

ghost use Rattle.std.specs.Prelude.{◌≡◌, IfOk, OnOk, IfErr};
ghost use Rattle.c_values.specs.Value.{word_in};
ghost use Rattle.c_values.specs.CodeTypes.{type_of};
ghost use Rattle.c_values.specs.CodeValue.{value_of};
ghost use Rattle.expression_lang.specs.Wide.{wide, or_else};
ghost use Rattle.expression_lang.specs.CodeExpression.{exp_of, path_of};
ghost use Rattle.expression_lang.specs.CodeState.{env_of};
ghost use Rattle.monad_lang.specs.Program.{Write, Stored, Global as InGlobal};
ghost use Rattle.monad_lang.specs.Sorted.{IsWellFormed};
ghost use Rattle.monad_lang.specs.CodeProgram.{place_of, final_unit_of};
ghost use Rattle.program_runs.specs.WideRun.{wide_at_place};
ghost use Rattle.program_runs.specs.Machine.{Leads, Writes, CanRun, runs_at};
ghost use Rattle.program_runs.specs.CodeRun.{state_in, bound_of, now_of, IsStateOf, IsMet, HasStopped};

use crate::ends::Stop;
use crate::machine::{AState, Bound, Next, Setting};
use c_memory::Heap;
use c_values::{CType, Value};
use expression_lang::{Env, Exp, Path};
use global_changes::change;
use monad_lang::Place;

impl<'a> Setting<'a> {
    /// A place takes the value of an expression, and no values are given.
    #[inline(never)]
    pub(crate) fn write<H: Heap>(
        &self,
        place: &Place,
        e: &Exp,
        bound: Bound,
        env: &Env,
        state: &mut AState<H>,
    ) -> Result<Next<'a>, Stop>
        requires unit { IsWellFormed (final_unit_of self.now.unit.now) }
        requires state { IsStateOf H.content self.now.unit.now state.old }
        requires sorted { CanRun (final_unit_of self.now.unit.now) env.now.items
            (Write (place_of place.now) (exp_of e.now)) }
        ensures state { OnOk result (IsStateOf H.content self.now.unit.now state.new) }
        ensures leads { IfOk result (λ next. Leads (final_unit_of self.now.unit.now) self.now.fill
            env.now.items (Write (place_of place.now) (exp_of e.now)) (bound_of bound)
            (state_in H.content self.now.unit.now state.old) (now_of env.now.items next)
            (state_in H.content self.now.unit.now state.new)) }
        ensures stops { IfErr result (HasStopped (runs_at (final_unit_of self.now.unit.now)
            self.now.fill (env_of env.now.items) (Write (place_of place.now) (exp_of e.now))
            (bound_of bound) (state_in H.content self.now.unit.now state.old))) }
    {
        self.put(place, e, env, state)?;
        Ok(Next::Gave(Vec::new(self.alloc)))
    }

    // A place takes the value of an expression.
    #[inline(never)]
    fn put<H: Heap>(
        &self,
        place: &Place,
        e: &Exp,
        env: &Env,
        state: &mut AState<H>,
    ) -> Result<(), Stop>
        requires unit { IsWellFormed (final_unit_of self.now.unit.now) }
        requires state { IsStateOf H.content self.now.unit.now state.old }
        requires sorted { CanRun (final_unit_of self.now.unit.now) env.now.items
            (Write (place_of place.now) (exp_of e.now)) }
        ensures state { OnOk result (IsStateOf H.content self.now.unit.now state.new) }
        ensures writes { OnOk result (Writes (final_unit_of self.now.unit.now) env.now.items
            (place_of place.now) (exp_of e.now) (state_in H.content self.now.unit.now state.old)
            (state_in H.content self.now.unit.now state.new)) }
        ensures met { IfErr result (IsMet (or_else
            (wide_at_place self.now.unit.now.layout (env_of env.now.items)
            (state_in H.content self.now.unit.now state.old) (place_of place.now))
            (wide self.now.unit.now.layout (env_of env.now.items)
            (state_in H.content self.now.unit.now state.old) (exp_of e.now)))) }
    {
        match place {
            Place::Stored(t, pointer, path) => self.store(t, pointer, path, e, env, state),
            Place::Written(t, pointer, path) => self.store(t, pointer, path, e, env, state),
            Place::Global(name, path) => self.set_global(name.as_str(), path, e, env, state),
        }
    }

    // The part of an object in memory takes the value of an expression.
    #[inline(never)]
    fn store<H: Heap>(
        &self,
        t: &CType,
        pointer: &Exp,
        path: &Path,
        e: &Exp,
        env: &Env,
        state: &mut AState<H>,
    ) -> Result<(), Stop>
        requires unit { IsWellFormed (final_unit_of self.now.unit.now) }
        requires state { IsStateOf H.content self.now.unit.now state.old }
        requires sorted { CanRun (final_unit_of self.now.unit.now) env.now.items
            (Write (Stored (type_of t.now) (exp_of pointer.now) (path_of path.now))
            (exp_of e.now)) }
        ensures state { OnOk result (IsStateOf H.content self.now.unit.now state.new) }
        ensures writes { OnOk result (Writes (final_unit_of self.now.unit.now) env.now.items
            (Stored (type_of t.now) (exp_of pointer.now) (path_of path.now)) (exp_of e.now)
            (state_in H.content self.now.unit.now state.old)
            (state_in H.content self.now.unit.now state.new)) }
        ensures met { IfErr result (IsMet (or_else
            (wide_at_place self.now.unit.now.layout (env_of env.now.items)
            (state_in H.content self.now.unit.now state.old)
            (Stored (type_of t.now) (exp_of pointer.now) (path_of path.now)))
            (wide self.now.unit.now.layout (env_of env.now.items)
            (state_in H.content self.now.unit.now state.old) (exp_of e.now)))) }
    {
        let root = self.value(pointer, env, state)?;
        let steps = self.steps(path, env, state)?;
        let value = self.value(e, env, state)?;
        let address = address_of(&root);
        state
            .heap
            .write_value(self.alloc, &self.unit.layout, t, address, &steps, &value)?;
        Ok(())
    }

    // The part of a global takes the value of an expression.
    #[inline(never)]
    fn set_global<H: Heap>(
        &self,
        name: &str,
        path: &Path,
        e: &Exp,
        env: &Env,
        state: &mut AState<H>,
    ) -> Result<(), Stop>
        requires unit { IsWellFormed (final_unit_of self.now.unit.now) }
        requires state { IsStateOf H.content self.now.unit.now state.old }
        requires sorted { CanRun (final_unit_of self.now.unit.now) env.now.items
            (Write (InGlobal name.now (path_of path.now)) (exp_of e.now)) }
        ensures state { OnOk result (IsStateOf H.content self.now.unit.now state.new) }
        ensures writes { OnOk result (Writes (final_unit_of self.now.unit.now) env.now.items
            (InGlobal name.now (path_of path.now)) (exp_of e.now)
            (state_in H.content self.now.unit.now state.old)
            (state_in H.content self.now.unit.now state.new)) }
        ensures met { IfErr result (IsMet (or_else
            (wide_at_place self.now.unit.now.layout (env_of env.now.items)
            (state_in H.content self.now.unit.now state.old)
            (InGlobal name.now (path_of path.now)))
            (wide self.now.unit.now.layout (env_of env.now.items)
            (state_in H.content self.now.unit.now state.old) (exp_of e.now)))) }
    {
        let steps = self.steps(path, env, state)?;
        let value = self.value(e, env, state)?;
        change(&self.unit.globals, &mut state.globals, name, &steps, value);
        Ok(())
    }
}

// The bits of a pointer.
fn address_of(pointer: &Value) -> u64
    ensures { result ≡ (word_in (value_of pointer.now)).bits }
{
    match pointer {
        Value::Word(word) => word.bits(),
        _ => 0,
    }
}
