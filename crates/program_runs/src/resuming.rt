//! What is pending is begun, and goes on.

ghost use Rattle.std.specs.Prelude.{List, ◌∷◌, map, length, reverse, string_bytes, IfOk, OnOk};
ghost use Rattle.c_values.specs.CodeValue.{value_of};
ghost use Rattle.expression_lang.specs.Sort.{Scalar};
ghost use Rattle.expression_lang.specs.Evaluation.{State};
ghost use Rattle.monad_lang.specs.Program.{Bind};
ghost use Rattle.monad_lang.specs.CodeProgram.{mon_of, final_unit_of};
ghost use Rattle.program_runs.specs.declared.machine.Pending.{Pending};
ghost use Rattle.program_runs.specs.Machine.{Running, Gave, IsSorted, Steps};
ghost use Rattle.program_runs.specs.CodeRun.{stack_of, AreMarked, now_of, bound_of, machine_at};

use crate::machine::{Bound, Next, Pending, Setting};
use crate::names::bind;
use c_values::Value;
use expression_lang::Env;
use monad_lang::Mon;
use std::alloc::AllocError;

impl<'a> Setting<'a> {
    /// The first part of a bind is next, and the rest is pending.
    #[inline(never)]
    pub(crate) fn enter(
        &self,
        first: &'a Mon,
        names: &'a [String],
        rest: &'a Mon,
        bound: Bound,
        stack: &mut Vec<Pending<'a>>,
        env: &Env,
    ) -> Result<Next<'a>, AllocError>
        ensures steps { IfOk result (λ next. (s : State) (out : List Scalar) →
            IsSorted (final_unit_of self.now.unit.now) (machine_at env.now.items stack.old.items
            (Running env.now.items (Bind (mon_of first.now) (map string_bytes names.now)
            (mon_of rest.now)) (bound_of bound)) s) out →
            Steps (final_unit_of self.now.unit.now) self.now.fill out
            (machine_at env.now.items stack.old.items
            (Running env.now.items (Bind (mon_of first.now) (map string_bytes names.now)
            (mon_of rest.now)) (bound_of bound)) s)
            (machine_at env.now.items stack.new.items (now_of env.now.items next) s)) }
        ensures marked { OnOk result (AreMarked (length env.now.items) (reverse stack.old.items) →
            AreMarked (length env.now.items) (reverse stack.new.items)) }
    {
        stack.push(Pending::Rest(names, rest, env.len(), bound))?;
        Ok(Next::Running(first, bound))
    }

    /// Values are given to what is pending.
    #[inline(never)]
    pub(crate) fn resume(
        &self,
        pending: Pending<'a>,
        values: Vec<Value>,
        env: &mut Env,
    ) -> Result<Next<'a>, AllocError>
        ensures steps { IfOk result (λ next. (fs : List Pending) (s : State)
            (out : List Scalar) → AreMarked (length env.old.items) (pending.entry ∷ fs) →
            IsSorted (final_unit_of self.now.unit.now)
            (record {
              stack = stack_of env.old.items (pending.entry ∷ fs);
              now = Gave (map value_of values.items);
              state = s;
            }) out →
            Steps (final_unit_of self.now.unit.now) self.now.fill out
            (record {
              stack = stack_of env.old.items (pending.entry ∷ fs);
              now = Gave (map value_of values.items);
              state = s;
            })
            (record {
              stack = stack_of env.new.items fs;
              now = now_of env.new.items next;
              state = s;
            })) }
        ensures marked { OnOk result ((fs : List Pending) →
            AreMarked (length env.old.items) (pending.entry ∷ fs) →
            AreMarked (length env.new.items) fs) }
    {
        match pending {
            Pending::Rest(names, rest, mark, bound) => {
                env.truncate(mark);
                bind(self.alloc, names, &values, env)?;
                Ok(Next::Running(rest, bound))
            }
            Pending::Turn(turns, mark) => {
                env.truncate(mark);
                Ok(Next::Turning(turns, values))
            }
            Pending::Caller(caller) => {
                *env = caller;
                Ok(Next::Gave(values))
            }
        }
    }
}
