//! Runs of programs.

ghost use Rattle.std.specs.Prelude.{◌≡◌, map, IfOk, OnOk, IfErr};
ghost use Rattle.correspondence.specs.Outcome.{Done};
ghost use Rattle.c_values.specs.CodeValue.{value_of};
ghost use Rattle.c_memory.specs.Heap.{heap_tags};
ghost use Rattle.expression_lang.specs.CodeState.{env_of};
ghost use Rattle.monad_lang.specs.Sorted.{IsWellFormed};
ghost use Rattle.monad_lang.specs.CodeProgram.{mon_of, final_unit_of};
ghost use Rattle.program_runs.specs.Machine.{CanRun, runs_at};
ghost use Rattle.program_runs.specs.CodeRun.{state_in, bound_of, ends_of_call, values_in, AreResults, CanBeCalled, IsStateOf, HasStopped};

use crate::ends::Stop;
use crate::machine::{AState, Bound, Next, Setting};
use crate::names::bind;
use c_memory::Heap;
use c_values::Value;
use expression_lang::Env;
use monad_lang::{FinalFn, Mon};

/// How many calls may be nested inside the first function.
const NESTED_CALLS: u32 = 256;

impl<'a> Setting<'a> {
    /// Runs a program where names have these values, to what it gives. What is still to do is kept
    /// in a list, so that it takes no more of the stack where programs and calls nest.
    #[inline(never)]
    fn run<H: Heap>(
        &self,
        program: &'a Mon,
        bound: Bound,
        env: Env,
        state: &mut AState<H>,
    ) -> Result<Vec<Value>, Stop>
        requires unit { IsWellFormed (final_unit_of self.now.unit.now) }
        requires state { IsStateOf H.content self.now.unit.now state.old }
        requires sorted { CanRun (final_unit_of self.now.unit.now) env.items (mon_of program.now) }
        ensures state { OnOk result (IsStateOf H.content self.now.unit.now state.new) }
        ensures gives { IfOk result (λ vs. runs_at (final_unit_of self.now.unit.now) self.now.fill
            (env_of env.items) (mon_of program.now) (bound_of bound)
            (state_in H.content self.now.unit.now state.old)
            (Done (record {
              values = map value_of vs.items;
              state = state_in H.content self.now.unit.now state.new;
            }))) }
        ensures stops { IfErr result (HasStopped (runs_at (final_unit_of self.now.unit.now)
            self.now.fill (env_of env.items) (mon_of program.now) (bound_of bound)
            (state_in H.content self.now.unit.now state.old))) }
    {
        let mut env = env;
        let mut stack = Vec::new(self.alloc);
        let mut next = Next::Running(program, bound);
        'steps: loop {
            next = match next {
                Next::Running(part, left) => self.step(part, left, &mut stack, &mut env, state)?,
                Next::Turning(turns, values) => {
                    self.turn(turns, values, &mut stack, &mut env, state)?
                }
                Next::Gave(values) => match stack.pop() {
                    None => return Ok(values),
                    Some(pending) => self.resume(pending, values, &mut env)?,
                },
            };
        }
    }

    /// Runs the program of a function at a bound of so many turns, and gives its result, where it
    /// has one.
    #[inline(never)]
    pub(crate) fn returned<H: Heap>(
        &self,
        function: &'a FinalFn,
        arguments: &[Value],
        turns: u32,
        state: &mut AState<H>,
    ) -> Result<Option<Value>, Stop>
        requires unit { IsWellFormed (final_unit_of self.now.unit.now) }
        requires called { CanBeCalled self.now.unit.now function.now (map value_of arguments.now) }
        requires state { IsStateOf H.content self.now.unit.now state.old }
        ensures state { OnOk result (IsStateOf H.content self.now.unit.now state.new) }
        ensures gives { IfOk result (λ v. ends_of_call self.now.unit.now self.now.fill turns
            function.now (map value_of arguments.now)
            (state_in H.content self.now.unit.now state.old)
            (Done (record {
              values = values_in v;
              state = state_in H.content self.now.unit.now state.new;
            }))) }
        ensures results { IfOk result (λ v. AreResults function.now (values_in v)) }
        ensures tags { OnOk result (heap_tags (H.content state.new.heap)
            ≡ heap_tags (H.content state.old.heap)) }
        ensures stops { IfErr result (HasStopped (ends_of_call self.now.unit.now self.now.fill turns
            function.now (map value_of arguments.now)
            (state_in H.content self.now.unit.now state.old))) }
    {
        let mut env = Vec::new(self.alloc);
        bind(self.alloc, &function.params, arguments, &mut env)?;
        let bound = Bound {
            turns,
            depth: NESTED_CALLS,
        };
        let mut values = self.run(&function.body, bound, env, state)?;
        Ok(values.pop())
    }
}
