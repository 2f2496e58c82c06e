//! Steps of programs.

ghost use Rattle.std.specs.Prelude.{List, length, reverse, IfOk, OnOk, IfErr};
ghost use Rattle.expression_lang.specs.Sort.{Scalar};
ghost use Rattle.expression_lang.specs.CodeState.{env_of};
ghost use Rattle.monad_lang.specs.Sorted.{IsWellFormed};
ghost use Rattle.monad_lang.specs.CodeProgram.{mon_of, final_unit_of};
ghost use Rattle.program_runs.specs.Machine.{Running, IsSorted, Steps, CanRun, runs_at};
ghost use Rattle.program_runs.specs.CodeRun.{state_in, machine_at, machine_in, bound_of, AreMarked, IsStateOf, HasStopped};

use crate::ends::Stop;
use crate::machine::{AState, Bound, Next, Pending, Setting};
use c_memory::Heap;
use expression_lang::Env;
use monad_lang::Mon;

impl<'a> Setting<'a> {
    /// A program makes one step.
    #[inline(never)]
    pub(crate) fn step<H: Heap>(
        &self,
        program: &'a Mon,
        bound: Bound,
        stack: &mut Vec<Pending<'a>>,
        env: &mut Env,
        state: &mut AState<H>,
    ) -> Result<Next<'a>, Stop>
        requires unit { IsWellFormed (final_unit_of self.now.unit.now) }
        requires state { IsStateOf H.content self.now.unit.now state.old }
        requires sorted { CanRun (final_unit_of self.now.unit.now) env.old.items
            (mon_of program.now) }
        ensures steps { IfOk result (λ next. (out : List Scalar) →
            IsSorted (final_unit_of self.now.unit.now) (machine_at env.old.items stack.old.items
            (Running env.old.items (mon_of program.now) (bound_of bound))
            (state_in H.content self.now.unit.now state.old)) out →
            Steps (final_unit_of self.now.unit.now) self.now.fill out
            (machine_at env.old.items stack.old.items
            (Running env.old.items (mon_of program.now) (bound_of bound))
            (state_in H.content self.now.unit.now state.old))
            (machine_in H.content self.now.unit.now env.new.items stack.new.items next state.new)) }
        ensures marked { OnOk result (AreMarked (length env.old.items) (reverse stack.old.items) →
            AreMarked (length env.new.items) (reverse stack.new.items)) }
        ensures state { OnOk result (IsStateOf H.content self.now.unit.now state.new) }
        ensures stops { IfErr result (HasStopped (runs_at (final_unit_of self.now.unit.now)
            self.now.fill (env_of env.old.items) (mon_of program.now) (bound_of bound)
            (state_in H.content self.now.unit.now state.old))) }
    {
        match program {
            Mon::Ret(values) => self.give(values, bound, env, state),
            Mon::Bind(first, names, rest) => {
                Ok(self.enter(first, names, rest, bound, stack, env)?)
            }
            Mon::Guard(condition) => self.pass(condition, bound, env, state),
            Mon::If(test, first, second) => { self.branch(test, first, second, bound, env, state) }
            Mon::Write(place, value) => self.write(place, value, bound, env, state),
            Mon::Loop(starts, guard, test, body) => {
                self.begin(starts, guard, test, body, bound, env, state)
            }
            Mon::Call(function, arguments) => {
                self.call(function.as_str(), arguments, bound, stack, env, state)
            }
            Mon::Pick(kind) => self.pick(*kind, bound, env),
        }
    }
}
