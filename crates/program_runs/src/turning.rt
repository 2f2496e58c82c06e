//! Turns of loops.

ghost use Rattle.std.specs.Prelude.{List, map, length, reverse, string_bytes, IfOk, OnOk, IfErr};
ghost use Rattle.c_values.specs.CodeValue.{value_of};
ghost use Rattle.expression_lang.specs.Sort.{Scalar};
ghost use Rattle.expression_lang.specs.CodeState.{env_of};
ghost use Rattle.monad_lang.specs.Sorted.{IsWellFormed};
ghost use Rattle.monad_lang.specs.CodeProgram.{final_unit_of};
ghost use Rattle.program_runs.specs.Bound.{Extends};
ghost use Rattle.program_runs.specs.Machine.{Turning, IsSorted, Steps, CanTurn, Enters, turns_at};
ghost use Rattle.program_runs.specs.CodeRun.{state_in, AreMarked, now_of, turns_of, machine_at, IsStateOf, HasStopped};

use crate::ends::Stop;
use crate::machine::{AState, Bound, Next, Pending, Setting, Turns};
use crate::names::bind;
use c_memory::Heap;
use c_values::Value;
use expression_lang::Env;

impl<'a> Setting<'a> {
    /// A loop makes a turn, or gives its values.
    #[inline(never)]
    pub(crate) fn turn<H: Heap>(
        &self,
        turns: Turns<'a>,
        values: Vec<Value>,
        stack: &mut Vec<Pending<'a>>,
        env: &mut Env,
        state: &AState<H>,
    ) -> Result<Next<'a>, Stop>
        requires unit { IsWellFormed (final_unit_of self.now.unit.now) }
        requires state { IsStateOf H.content self.now.unit.now state.now }
        requires sorted { CanTurn (final_unit_of self.now.unit.now) env.old.items (turns_of turns)
            (map value_of values.items) }
        ensures steps { IfOk result (λ next. (out : List Scalar) →
            IsSorted (final_unit_of self.now.unit.now) (machine_at env.old.items stack.old.items
            (Turning env.old.items (turns_of turns.entry) (map value_of values.items))
            (state_in H.content self.now.unit.now state.now)) out →
            Steps (final_unit_of self.now.unit.now) self.now.fill out
            (machine_at env.old.items stack.old.items
            (Turning env.old.items (turns_of turns.entry) (map value_of values.items))
            (state_in H.content self.now.unit.now state.now))
            (machine_at env.new.items stack.new.items (now_of env.new.items next)
            (state_in H.content self.now.unit.now state.now))) }
        ensures marked { OnOk result (AreMarked (length env.old.items) (reverse stack.old.items) →
            AreMarked (length env.new.items) (reverse stack.new.items)) }
        ensures stops { IfErr result (HasStopped (turns_at (final_unit_of self.now.unit.now)
            self.now.fill (env_of env.old.items) (turns_of turns.entry)
            (record {
              values = map value_of values.items;
              state = state_in H.content self.now.unit.now state.now;
            }))) }
    {
        let mark = env.len();
        if !self.enters(&turns, &values, env, state)? {
            env.truncate(mark);
            return Ok(Next::Gave(values));
        }
        if turns.left.turns == 0 {
            return Err(Stop::OutOfTurns);
        }
        let left = Bound {
            turns: turns.left.turns - 1,
            depth: turns.left.depth,
        };
        let rest = Turns {
            starts: turns.starts,
            guard: turns.guard,
            test: turns.test,
            body: turns.body,
            left,
        };
        stack.push(Pending::Turn(rest, mark))?;
        Ok(Next::Running(turns.body, left))
    }

    // Whether a loop makes a turn, where its guard holds. The names have the values then.
    #[inline(never)]
    fn enters<H: Heap>(
        &self,
        turns: &Turns<'a>,
        values: &[Value],
        env: &mut Env,
        state: &AState<H>,
    ) -> Result<bool, Stop>
        requires unit { IsWellFormed (final_unit_of self.now.unit.now) }
        requires state { IsStateOf H.content self.now.unit.now state.now }
        requires sorted { CanTurn (final_unit_of self.now.unit.now) env.old.items
            (turns_of turns.now) (map value_of values.now) }
        ensures bound { OnOk result (Extends env.old.items
            (map (λ x. string_bytes x.name) turns.now.starts.now) (map value_of values.now)
            env.new.items) }
        ensures enters { IfOk result (Enters (final_unit_of self.now.unit.now) env.new.items
            (turns_of turns.now) (state_in H.content self.now.unit.now state.now)) }
        ensures stops { IfErr result (HasStopped (turns_at (final_unit_of self.now.unit.now)
            self.now.fill (env_of env.old.items) (turns_of turns.now)
            (record {
              values = map value_of values.now;
              state = state_in H.content self.now.unit.now state.now;
            }))) }
    {
        bind(self.alloc, turns.starts, values, env)?;
        if self.test(turns.guard, env, state)? {
            return self.test(turns.test, env, state);
        }
        Err(Stop::Fails)
    }
}
