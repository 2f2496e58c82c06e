//! Values, tests, steps and arguments.

ghost use Rattle.std.specs.Prelude.{◌≡◌, List, map, None, IfOk};
ghost use Rattle.std.specs.Option.{option_map};
ghost use Rattle.c_values.specs.Layout.{Shape};
ghost use Rattle.c_values.specs.Value.{number_in, truth_in};
ghost use Rattle.c_values.specs.Path.{Index};
ghost use Rattle.c_values.specs.CodeValue.{value_of};
ghost use Rattle.c_memory.specs.CodeStep.{step_of};
ghost use Rattle.expression_lang.specs.Sort.{Scalar, Sort, Of, TruthSort};
ghost use Rattle.expression_lang.specs.Evaluation.{value, steps, holds};
ghost use Rattle.expression_lang.specs.Signature.{values_of};
ghost use Rattle.expression_lang.specs.CodeExpression.{exp_of, path_of};
ghost use Rattle.expression_lang.specs.CodeState.{env_of};
ghost use Rattle.expression_lang.specs.CodeFault.{IsFault};
ghost use Rattle.simpl_lang.specs.CodeCommand.{condition_of, guard_kind_of};
ghost use Rattle.command_runs.specs.Guarded.{first_broken};
ghost use Rattle.command_runs.specs.CodeRun.{state_in, machine_in, IsFrame, Fits, HasSortIn, LeadsIn, HaveSortsIn, HaveTruthsIn};

use crate::frame::Frame;
use crate::outcome::CState;
use c_memory::Step;
use c_values::{Number, Value};
use expression_lang::{Env, EvalFault, Exp, Path, eval};
use simpl_lang::{Condition, GuardKind};
use std::alloc::AllocError;

impl Frame<'_> {
    /// The value of an expression.
    pub(crate) fn value(&self, e: &Exp, locals: &Env, state: &CState) -> Result<Value, AllocError>
        requires frame { IsFrame self.now }
        requires fits { Fits self.now locals.now.items state.now }
        requires sorted { (o : Sort) × HasSortIn self.now (exp_of e.now) o }
        ensures { IfOk result (λ v. value_of v
            ≡ value self.now.unit.now.layout (env_of locals.now.items)
            (state_in self.now.unit.now state.now) (exp_of e.now)) }
    {
        let evaluated = eval(
            self.alloc,
            e,
            locals,
            &state.heap,
            &self.unit.layout,
            &self.unit.globals,
            &state.globals,
        );
        match evaluated {
            Ok(value) => Ok(value),
            Err(fault) => Err(want_of_memory(fault)),
        }
    }

    /// Whether a test holds.
    pub(crate) fn test(&self, e: &Exp, locals: &Env, state: &CState) -> Result<bool, AllocError>
        requires frame { IsFrame self.now }
        requires fits { Fits self.now locals.now.items state.now }
        requires sorted { HasSortIn self.now (exp_of e.now) (Of TruthSort) }
        ensures { IfOk result (λ b. b
            ≡ holds self.now.unit.now.layout (env_of locals.now.items)
            (state_in self.now.unit.now state.now) (exp_of e.now)) }
    {
        let value = self.value(e, locals, state)?;
        Ok(truth(&value))
    }

    /// The steps that a path takes. It goes along the path by a loop, since a text may have long
    /// paths.
    pub(crate) fn steps(
        &self,
        path: &Path,
        locals: &Env,
        state: &CState,
    ) -> Result<Vec<Step>, AllocError>
        requires frame { IsFrame self.now }
        requires fits { Fits self.now locals.now.items state.now }
        requires leads { (r : Shape) × (q : Shape) × LeadsIn self.now (path_of path.now) r q }
        ensures { IfOk result (λ ps. map step_of ps.items
            ≡ steps self.now.unit.now.layout (env_of locals.now.items)
            (state_in self.now.unit.now state.now) (path_of path.now)) }
    {
        let mut steps = Vec::new(self.alloc);
        let mut rest = path;
        'along: loop {
            match rest {
                Path::Here => return Ok(steps),
                Path::Field(k, next) => {
                    steps.push(Step::Field(*k))?;
                    rest = &**next;
                }
                Path::Index(e, next) => {
                    let index = self.value(e, locals, state)?;
                    steps.push(element(&index))?;
                    rest = &**next;
                }
            }
        }
    }

    /// The kind of the first condition that doesn't hold.
    pub(crate) fn broken(
        &self,
        conditions: &[Condition],
        locals: &Env,
        state: &CState,
    ) -> Result<Option<GuardKind>, AllocError>
        requires frame { IsFrame self.now }
        requires fits { Fits self.now locals.now.items state.now }
        requires sorted { HaveTruthsIn self.now (map condition_of conditions.now) }
        ensures { IfOk result (λ kind. option_map guard_kind_of kind
            ≡ first_broken self.now.unit.now.layout (machine_in self.now locals.now.items state.now)
            (map condition_of conditions.now)) }
    {
        let mut rest = conditions;
        'conditions: while let Some((first, others)) = rest.split_first() {
            if !self.test(&first.exp, locals, state)? {
                return Ok(Some(first.kind));
            }
            rest = others;
        }
        Ok(None)
    }

    /// The values of arguments, in order.
    pub(crate) fn arguments(
        &self,
        exps: &[Exp],
        locals: &Env,
        state: &CState,
    ) -> Result<Vec<Value>, AllocError>
        requires frame { IsFrame self.now }
        requires fits { Fits self.now locals.now.items state.now }
        requires sorted { (cs : List Scalar) × HaveSortsIn self.now (map exp_of exps.now) cs }
        ensures { IfOk result (λ vs. map value_of vs.items
            ≡ values_of self.now.unit.now.layout (env_of locals.now.items)
            (state_in self.now.unit.now state.now) (map exp_of exps.now)) }
    {
        let mut values = Vec::new(self.alloc);
        let mut rest = exps;
        'arguments: while let Some((first, others)) = rest.split_first() {
            values.push(self.value(first, locals, state)?)?;
            rest = others;
        }
        Ok(values)
    }
}

// The fault is want of memory, where no operation is wide.
fn want_of_memory(fault: EvalFault) -> AllocError
    requires { IsFault fault None }
{
    match fault {
        EvalFault::Memory => AllocError,
        EvalFault::Wide(_op, _a, _b) => unreachable!(),
    }
}

// What a truth value is.
fn truth(value: &Value) -> bool
    ensures { result ≡ truth_in (value_of value.now) }
{
    match value {
        Value::Truth(truth) => *truth,
        _ => false,
    }
}

// The step to the element of an index.
fn element(index: &Value) -> Step
    ensures { step_of result ≡ Index (number_in (value_of index.now)) }
{
    match index {
        Value::Number(number) => Step::Index(*number),
        _ => Step::Index(Number::new(false, 0)),
    }
}
