//! Runs of commands, step by step, with what is still to do on a stack of their own.

ghost use Rattle.std.specs.Prelude.{◌≡◌, map, Some, IfOk};
ghost use Rattle.c_values.specs.Choice.{Fill};
ghost use Rattle.c_values.specs.CodeValue.{value_of};
ghost use Rattle.simpl_lang.specs.Exec.{simpl_runs};
ghost use Rattle.simpl_lang.specs.CodeCommand.{simpl_of, simpl_unit_of};
ghost use Rattle.command_runs.specs.CodeRun.{machine_in, state_in, ends_in, call_of, HasRun, HasReturned, IsFrame, IsStateOf, CanRun, Fits, CanRunIn, CanBeCalled};

use crate::ends::{Flow, Stop};
use crate::frame::Frame;
use crate::locals::{started, taken};
use crate::machine::Next;
use crate::outcome::CState;
use c_values::Value;
use expression_lang::{Env, Signature};
use simpl_lang::{Simpl, SimplFn};

impl<'a> Frame<'a> {
    /// Runs the body of a function, at a bound of so many turns. The frame is the function's.
    pub(crate) fn returned(
        &self,
        function: &'a SimplFn,
        signature: &Signature,
        arguments: &[Value],
        turns: u32,
        state: &mut CState,
    ) -> Result<Option<Value>, Stop>
        requires unit { CanRun self.now.unit.now }
        requires locals { self.now.locals.now ≡ function.now.locals.items }
        requires called { CanBeCalled self.now.unit.now function.now signature.now
            (map value_of arguments.now) }
        requires state { IsStateOf self.now.unit.now state.old }
        ensures end { HasReturned self.now.unit.now
            (simpl_runs (simpl_unit_of self.now.unit.now) (Fill self.now.fill) turns
            (Some self.now.depth)
            (call_of function.now (map value_of arguments.now)
            (state_in self.now.unit.now state.old))) result state.new }
        ensures lasts { IfOk result (λ _. IsStateOf self.now.unit.now state.new) }
    {
        let mut locals = started(self.alloc, self.locals, arguments)?;
        self.run(&function.body, turns, &mut locals, state)?;
        match signature.result {
            None => Ok(None),
            Some(_) => Ok(Some(taken(self.alloc, locals, "$ret"))),
        }
    }

    // Runs a command to its end, at a bound of so many turns.
    fn run(
        &self,
        c: &'a Simpl,
        turns: u32,
        locals: &mut Env,
        state: &mut CState,
    ) -> Result<Flow, Stop>
        requires frame { IsFrame self.now }
        requires fits { Fits self.now locals.old.items state.old }
        requires sorted { CanRunIn self.now (simpl_of c.now) }
        ensures end { HasRun
            (ends_in self.now (simpl_of c.now) turns
            (machine_in self.now locals.old.items state.old)) result
            (machine_in self.now locals.new.items state.new) }
        ensures lasts { IfOk result (λ _. IsStateOf self.now.unit.now state.new) }
    {
        let mut stack = Vec::new(self.alloc);
        let mut next = Next::Running(*self, c, turns);
        'steps: loop {
            match next {
                Next::Running(frame, command, left) => {
                    next = frame.step(command, left, &mut stack, locals, state)?;
                }
                Next::Ended(frame, flow) => match stack.pop() {
                    None => return Ok(flow),
                    Some(pending) => next = frame.resume(flow, pending, locals),
                },
            }
        }
    }
}
