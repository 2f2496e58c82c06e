//! Calls, and how they return.

ghost use Rattle.std.specs.Prelude.{◌≡◌, List, [], ◌∷◌, map, reverse, string_bytes, IfOk, IfErr};
ghost use Rattle.std.specs.Option.{option_map};
ghost use Rattle.expression_lang.specs.CodeExpression.{exp_of};
ghost use Rattle.expression_lang.specs.CodeSignature.{signature_of};
ghost use Rattle.simpl_lang.specs.Command.{Call};
ghost use Rattle.simpl_lang.specs.Exec.{result_of};
ghost use Rattle.command_runs.specs.declared.outcome.CState.{CState};
ghost use Rattle.command_runs.specs.declared.machine.Pending.{Pending};
ghost use Rattle.command_runs.specs.Locals.{given_in};
ghost use Rattle.command_runs.specs.CodeRun.{table_of, machine_in, ends_in, HasStopped, IsFrame, Fits, CanRunIn};
ghost use Rattle.command_runs.specs.CodeMachine.{Running, Ended, now_of, point, CanResume, CanGoOn, IsCaller, Steps};

use crate::ends::{Flow, Stop};
use crate::frame::Frame;
use crate::functions::function_in;
use crate::locals::{give, started, taken};
use crate::machine::{Caller, Next, Pending};
use crate::outcome::CState;
use expression_lang::{Env, Exp};
use program_sorts::signature;
use std::mem::replace;

impl<'a> Frame<'a> {
    /// The body of a function is next, in a frame of its own, and the caller is pending. The
    /// result goes to a local, if anywhere.
    pub(crate) fn call(
        &self,
        target: &'a Option<String>,
        name: &str,
        arguments: &[Exp],
        turns: u32,
        stack: &mut Vec<Pending<'a>>,
        locals: &mut Env,
        state: &CState,
    ) -> Result<Next<'a>, Stop>
        requires frame { IsFrame self.now }
        requires fits { Fits self.now locals.old.items state.now }
        requires sorted { CanRunIn self.now
            (Call (option_map string_bytes target.now) name.now (map exp_of arguments.now)) }
        requires rest { CanResume self.now (reverse stack.old.items) }
        ensures steps { IfOk result (λ next. Steps
            (point stack.old.items
            (Running self.now
            (Call (option_map string_bytes target.now) name.now (map exp_of arguments.now)) turns)
            locals.old.items state.now)
            (point stack.new.items (now_of next) locals.new.items state.now)) }
        ensures stops { IfErr result (HasStopped
            (ends_in self.now
            (Call (option_map string_bytes target.now) name.now (map exp_of arguments.now)) turns
            (machine_in self.now locals.old.items state.now))) }
    {
        let values = self.arguments(arguments, locals, state)?;
        if turns == 0 {
            return Err(Stop::OutOfTurns);
        }
        if self.depth == 0 {
            return Err(Stop::Deep);
        }
        let function = function_in(&self.unit.functions, name).unwrap();
        let called = signature(&self.unit.signatures, name).unwrap();
        let frame = Frame {
            alloc: self.alloc,
            unit: self.unit,
            locals: &function.locals,
            fill: self.fill,
            depth: self.depth - 1,
        };
        let inner = started(self.alloc, frame.locals, &values)?;
        let own = replace(locals, inner);
        let caller = Caller {
            target,
            called,
            binders: self.locals,
            locals: own,
            depth: self.depth,
        };
        stack.push(Pending::Return(caller))?;
        Ok(Next::Running(frame, &function.body, turns - 1))
    }

    /// What is pending goes on from how a command has ended.
    pub(crate) fn resume(&self, flow: Flow, pending: Pending<'a>, locals: &mut Env) -> Next<'a>
        requires { CanResume self.now (pending ∷ []) }
        ensures { (fs : List Pending) (s : CState) →
            CanGoOn (record {
              stack = pending.entry ∷ fs;
              now = Ended self.now flow;
              locals = locals.old.items;
              state = s;
            }) →
            Steps
            (record {
              stack = pending.entry ∷ fs;
              now = Ended self.now flow;
              locals = locals.old.items;
              state = s;
            })
            (record { stack = fs; now = now_of result; locals = locals.new.items; state = s }) }
    {
        match pending {
            Pending::Rest(rest, turns) => match flow {
                Flow::Normal => Next::Running(*self, rest, turns),
                Flow::Abrupt => Next::Ended(*self, Flow::Abrupt),
            },
            Pending::Handler(handler, turns) => match flow {
                Flow::Normal => Next::Ended(*self, Flow::Normal),
                Flow::Abrupt => Next::Running(*self, handler, turns),
            },
            Pending::Return(caller) => {
                let frame = Frame {
                    alloc: self.alloc,
                    unit: self.unit,
                    locals: caller.binders,
                    fill: self.fill,
                    depth: caller.depth,
                };
                self.give_back(caller, locals);
                Next::Ended(frame, Flow::Normal)
            }
        }
    }

    // The locals are the caller's again, and one of them takes the result, if there is one.
    fn give_back(&self, caller: Caller<'a>, locals: &mut Env)
        requires { IsCaller self.now caller }
        ensures { (s : CState) → table_of locals.new.items
            ≡ given_in (option_map string_bytes caller.entry.target.now)
            (result_of (signature_of caller.entry.called.now).result
            (machine_in self.now locals.old.items s))
            (table_of caller.entry.locals.items) }
    {
        let ended = replace(locals, caller.locals);
        let given = match caller.called.result {
            None => None,
            Some(_) => Some(taken(self.alloc, ended, "$ret")),
        };
        give(caller.target, given, locals);
    }
}
