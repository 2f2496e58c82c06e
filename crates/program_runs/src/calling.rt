//! Calls.

ghost use Rattle.std.specs.Prelude.{List, map, length, reverse, IfOk, OnOk, IfErr};
ghost use Rattle.expression_lang.specs.Sort.{Scalar};
ghost use Rattle.expression_lang.specs.CodeExpression.{exp_of};
ghost use Rattle.expression_lang.specs.CodeState.{env_of};
ghost use Rattle.monad_lang.specs.Program.{Call};
ghost use Rattle.monad_lang.specs.Sorted.{IsWellFormed};
ghost use Rattle.monad_lang.specs.CodeProgram.{final_unit_of};
ghost use Rattle.program_runs.specs.Machine.{Running, IsSorted, Steps, CanRun, runs_at};
ghost use Rattle.program_runs.specs.CodeRun.{state_in, AreMarked, now_of, bound_of, machine_at, IsStateOf, HasStopped};

use crate::ends::Stop;
use crate::functions::function_in;
use crate::machine::{AState, Bound, Next, Pending, Setting};
use crate::names::bind;
use c_memory::Heap;
use expression_lang::{Env, Exp};
use std::mem::replace;

impl<'a> Setting<'a> {
    /// The program of the function is next, with bindings of its own, and the caller is pending.
    #[inline(never)]
    pub(crate) fn call<H: Heap>(
        &self,
        name: &str,
        exps: &[Exp],
        bound: Bound,
        stack: &mut Vec<Pending<'a>>,
        env: &mut Env,
        state: &AState<H>,
    ) -> Result<Next<'a>, Stop>
        requires unit { IsWellFormed (final_unit_of self.now.unit.now) }
        requires state { IsStateOf H.content self.now.unit.now state.now }
        requires sorted { CanRun (final_unit_of self.now.unit.now) env.old.items
            (Call name.now (map exp_of exps.now)) }
        ensures steps { IfOk result (λ next. (out : List Scalar) →
            IsSorted (final_unit_of self.now.unit.now) (machine_at env.old.items stack.old.items
            (Running env.old.items (Call name.now (map exp_of exps.now)) (bound_of bound))
            (state_in H.content self.now.unit.now state.now)) out →
            Steps (final_unit_of self.now.unit.now) self.now.fill out
            (machine_at env.old.items stack.old.items
            (Running env.old.items (Call name.now (map exp_of exps.now)) (bound_of bound))
            (state_in H.content self.now.unit.now state.now))
            (machine_at env.new.items stack.new.items (now_of env.new.items next)
            (state_in H.content self.now.unit.now state.now))) }
        ensures marked { OnOk result (AreMarked (length env.old.items) (reverse stack.old.items) →
            AreMarked (length env.new.items) (reverse stack.new.items)) }
        ensures stops { IfErr result (HasStopped (runs_at (final_unit_of self.now.unit.now)
            self.now.fill (env_of env.old.items) (Call name.now (map exp_of exps.now))
            (bound_of bound) (state_in H.content self.now.unit.now state.now))) }
    {
        let values = self.values(exps, env, state)?;
        if bound.turns == 0 {
            return Err(Stop::OutOfTurns);
        }
        if bound.depth == 0 {
            return Err(Stop::Deep);
        }
        let function = function_in(&self.unit.functions, name).unwrap();
        let mut inner = Vec::new(self.alloc);
        bind(self.alloc, &function.params, &values, &mut inner)?;
        let caller = replace(env, inner);
        stack.push(Pending::Caller(caller))?;
        let left = Bound {
            turns: bound.turns - 1,
            depth: bound.depth - 1,
        };
        Ok(Next::Running(&function.body, left))
    }
}
