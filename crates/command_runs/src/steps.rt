//! Steps of commands. None of them calls another, so that no command takes the program's stack.

ghost use Rattle.std.specs.Prelude.{map, reverse, IfOk, IfErr};
ghost use Rattle.correspondence.specs.Outcome.{Done};
ghost use Rattle.expression_lang.specs.Sort.{Of, TruthSort};
ghost use Rattle.expression_lang.specs.CodeExpression.{exp_of};
ghost use Rattle.simpl_lang.specs.Exec.{entered};
ghost use Rattle.simpl_lang.specs.CodeCommand.{condition_of, simpl_of};
ghost use Rattle.command_runs.specs.CodeRun.{machine_in, ends_in, turn_or_end, HasStopped, IsFrame, Fits, HasSortIn, HaveTruthsIn, CanRunIn};
ghost use Rattle.command_runs.specs.CodeMachine.{Running, now_of, point, CanResume, Steps};

use crate::ends::{Flow, Stop};
use crate::frame::Frame;
use crate::machine::{Next, Pending};
use crate::outcome::CState;
use expression_lang::{Env, Exp};
use simpl_lang::{Condition, Simpl};

impl<'a> Frame<'a> {
    /// One step of a command, at a bound of so many turns.
    pub(crate) fn step(
        &self,
        c: &'a Simpl,
        turns: u32,
        stack: &mut Vec<Pending<'a>>,
        locals: &mut Env,
        state: &mut CState,
    ) -> Result<Next<'a>, Stop>
        requires frame { IsFrame self.now }
        requires fits { Fits self.now locals.old.items state.old }
        requires sorted { CanRunIn self.now (simpl_of c.now) }
        requires rest { CanResume self.now (reverse stack.old.items) }
        ensures steps { IfOk result (λ next. Steps
            (point stack.old.items (Running self.now (simpl_of c.now) turns) locals.old.items
            state.old)
            (point stack.new.items (now_of next) locals.new.items state.new)) }
        ensures stops { IfErr result (HasStopped
            (ends_in self.now (simpl_of c.now) turns
            (machine_in self.now locals.old.items state.old))) }
    {
        match c {
            Simpl::Skip => Ok(Next::Ended(*self, Flow::Normal)),
            Simpl::Throw => Ok(Next::Ended(*self, Flow::Abrupt)),
            Simpl::Set(name, value) => {
                self.set(name.as_str(), value, locals, state)?;
                Ok(Next::Ended(*self, Flow::Normal))
            }
            Simpl::SetGlobal(name, path, value) => {
                self.set_global(name.as_str(), path, value, locals, state)?;
                Ok(Next::Ended(*self, Flow::Normal))
            }
            Simpl::Store(t, pointer, path, value) => {
                self.store(t, pointer, path, value, locals, state)?;
                Ok(Next::Ended(*self, Flow::Normal))
            }
            Simpl::Pick(name) => {
                self.pick(name.as_str(), locals, state);
                Ok(Next::Ended(*self, Flow::Normal))
            }
            Simpl::Seq(first, last) => {
                stack.push(Pending::Rest(&**last, turns))?;
                Ok(Next::Running(*self, &**first, turns))
            }
            Simpl::Catch(first, last) => {
                stack.push(Pending::Handler(&**last, turns))?;
                Ok(Next::Running(*self, &**first, turns))
            }
            Simpl::Cond(test, first, last) => {
                if self.test(test, locals, state)? {
                    Ok(Next::Running(*self, &**first, turns))
                } else {
                    Ok(Next::Running(*self, &**last, turns))
                }
            }
            Simpl::Guard(condition, last) => {
                if self.test(&condition.exp, locals, state)? {
                    Ok(Next::Running(*self, &**last, turns))
                } else {
                    Err(Stop::Guard(condition.kind))
                }
            }
            Simpl::While(conditions, test, body) => {
                if !self.enters(conditions, test, locals, state)? {
                    return Ok(Next::Ended(*self, Flow::Normal));
                }
                if turns == 0 {
                    return Err(Stop::OutOfTurns);
                }
                stack.push(Pending::Rest(c, turns - 1))?;
                Ok(Next::Running(*self, &**body, turns - 1))
            }
            Simpl::Call(target, function, arguments) => {
                self.call(
                    target,
                    function.as_str(),
                    arguments,
                    turns,
                    stack,
                    locals,
                    state,
                )
            }
        }
    }

    // Whether a loop makes a turn, where its conditions hold.
    fn enters(
        &self,
        conditions: &[Condition],
        test: &Exp,
        locals: &Env,
        state: &CState,
    ) -> Result<bool, Stop>
        requires frame { IsFrame self.now }
        requires fits { Fits self.now locals.now.items state.now }
        requires conditions { HaveTruthsIn self.now (map condition_of conditions.now) }
        requires test { HasSortIn self.now (exp_of test.now) (Of TruthSort) }
        ensures enters { IfOk result (λ turn. entered self.now.unit.now.layout
            (map condition_of conditions.now) (exp_of test.now)
            (machine_in self.now locals.now.items state.now)
            (Done (turn_or_end turn (machine_in self.now locals.now.items state.now)))) }
        ensures stops { IfErr result (HasStopped (entered self.now.unit.now.layout
            (map condition_of conditions.now) (exp_of test.now)
            (machine_in self.now locals.now.items state.now))) }
    {
        match self.broken(conditions, locals, state)? {
            Some(kind) => Err(Stop::Guard(kind)),
            None => Ok(self.test(test, locals, state)?),
        }
    }
}
