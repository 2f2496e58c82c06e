//! Programs that come to what is next in one step and leave the bindings.

ghost use Rattle.std.specs.Prelude.{map, IfOk, IfErr};
ghost use Rattle.expression_lang.specs.CodeExpression.{exp_of};
ghost use Rattle.expression_lang.specs.CodeState.{env_of};
ghost use Rattle.monad_lang.specs.Program.{Ret, Guard, If, Loop};
ghost use Rattle.monad_lang.specs.Sorted.{IsWellFormed};
ghost use Rattle.monad_lang.specs.CodeProgram.{mon_of, start_of, final_unit_of};
ghost use Rattle.program_runs.specs.Machine.{Leads, CanRun, runs_at};
ghost use Rattle.program_runs.specs.CodeRun.{state_in, bound_of, now_of, IsStateOf, HasStopped};

use crate::ends::Stop;
use crate::machine::{AState, Bound, Next, Setting, Turns};
use c_memory::Heap;
use expression_lang::{Env, Exp};
use monad_lang::{Mon, Start};

impl<'a> Setting<'a> {
    /// The values of expressions are given.
    #[inline(never)]
    pub(crate) fn give<H: Heap>(
        &self,
        exps: &[Exp],
        bound: Bound,
        env: &Env,
        state: &AState<H>,
    ) -> Result<Next<'a>, Stop>
        requires unit { IsWellFormed (final_unit_of self.now.unit.now) }
        requires state { IsStateOf H.content self.now.unit.now state.now }
        requires sorted { CanRun (final_unit_of self.now.unit.now) env.now.items
            (Ret (map exp_of exps.now)) }
        ensures leads { IfOk result (λ next. Leads (final_unit_of self.now.unit.now) self.now.fill
            env.now.items (Ret (map exp_of exps.now)) (bound_of bound)
            (state_in H.content self.now.unit.now state.now) (now_of env.now.items next)
            (state_in H.content self.now.unit.now state.now)) }
        ensures stops { IfErr result (HasStopped (runs_at (final_unit_of self.now.unit.now)
            self.now.fill (env_of env.now.items) (Ret (map exp_of exps.now)) (bound_of bound)
            (state_in H.content self.now.unit.now state.now))) }
    {
        let values = self.values(exps, env, state)?;
        Ok(Next::Gave(values))
    }

    /// A guard holds.
    #[inline(never)]
    pub(crate) fn pass<H: Heap>(
        &self,
        e: &Exp,
        bound: Bound,
        env: &Env,
        state: &AState<H>,
    ) -> Result<Next<'a>, Stop>
        requires unit { IsWellFormed (final_unit_of self.now.unit.now) }
        requires state { IsStateOf H.content self.now.unit.now state.now }
        requires sorted { CanRun (final_unit_of self.now.unit.now) env.now.items
            (Guard (exp_of e.now)) }
        ensures leads { IfOk result (λ next. Leads (final_unit_of self.now.unit.now) self.now.fill
            env.now.items (Guard (exp_of e.now)) (bound_of bound)
            (state_in H.content self.now.unit.now state.now) (now_of env.now.items next)
            (state_in H.content self.now.unit.now state.now)) }
        ensures stops { IfErr result (HasStopped (runs_at (final_unit_of self.now.unit.now)
            self.now.fill (env_of env.now.items) (Guard (exp_of e.now)) (bound_of bound)
            (state_in H.content self.now.unit.now state.now))) }
    {
        if self.test(e, env, state)? {
            return Ok(Next::Gave(Vec::new(self.alloc)));
        }
        Err(Stop::Fails)
    }

    /// One of two programs is next, by a test.
    #[inline(never)]
    pub(crate) fn branch<H: Heap>(
        &self,
        e: &Exp,
        first: &'a Mon,
        second: &'a Mon,
        bound: Bound,
        env: &Env,
        state: &AState<H>,
    ) -> Result<Next<'a>, Stop>
        requires unit { IsWellFormed (final_unit_of self.now.unit.now) }
        requires state { IsStateOf H.content self.now.unit.now state.now }
        requires sorted { CanRun (final_unit_of self.now.unit.now) env.now.items
            (If (exp_of e.now) (mon_of first.now) (mon_of second.now)) }
        ensures leads { IfOk result (λ next. Leads (final_unit_of self.now.unit.now) self.now.fill
            env.now.items (If (exp_of e.now) (mon_of first.now) (mon_of second.now))
            (bound_of bound) (state_in H.content self.now.unit.now state.now)
            (now_of env.now.items next) (state_in H.content self.now.unit.now state.now)) }
        ensures stops { IfErr result (HasStopped (runs_at (final_unit_of self.now.unit.now)
            self.now.fill (env_of env.now.items)
            (If (exp_of e.now) (mon_of first.now) (mon_of second.now)) (bound_of bound)
            (state_in H.content self.now.unit.now state.now))) }
    {
        if self.test(e, env, state)? {
            return Ok(Next::Running(first, bound));
        }
        Ok(Next::Running(second, bound))
    }

    /// A loop comes to its guard with the values that its names begin with.
    #[inline(never)]
    pub(crate) fn begin<H: Heap>(
        &self,
        starts: &'a [Start],
        guard: &'a Exp,
        test: &'a Exp,
        body: &'a Mon,
        bound: Bound,
        env: &Env,
        state: &AState<H>,
    ) -> Result<Next<'a>, Stop>
        requires unit { IsWellFormed (final_unit_of self.now.unit.now) }
        requires state { IsStateOf H.content self.now.unit.now state.now }
        requires sorted { CanRun (final_unit_of self.now.unit.now) env.now.items
            (Loop (map start_of starts.now) (exp_of guard.now) (exp_of test.now)
            (mon_of body.now)) }
        ensures leads { IfOk result (λ next. Leads (final_unit_of self.now.unit.now) self.now.fill
            env.now.items
            (Loop (map start_of starts.now) (exp_of guard.now) (exp_of test.now) (mon_of body.now))
            (bound_of bound) (state_in H.content self.now.unit.now state.now)
            (now_of env.now.items next) (state_in H.content self.now.unit.now state.now)) }
        ensures stops { IfErr result (HasStopped (runs_at (final_unit_of self.now.unit.now)
            self.now.fill (env_of env.now.items)
            (Loop (map start_of starts.now) (exp_of guard.now) (exp_of test.now) (mon_of body.now))
            (bound_of bound) (state_in H.content self.now.unit.now state.now))) }
    {
        let values = self.start_values(starts, env, state)?;
        let turns = Turns {
            starts,
            guard,
            test,
            body,
            left: bound,
        };
        Ok(Next::Turning(turns, values))
    }
}
