//! Values of expressions, in lists and along paths.

ghost use Rattle.std.specs.Prelude.{◌≡◌, map, Option, None, IfOk, OnOk, IfErr, IsSome};
ghost use Rattle.c_values.specs.Value.{truth_in};
ghost use Rattle.c_values.specs.CodeValue.{value_of};
ghost use Rattle.expression_lang.specs.Sort.{sort_of};
ghost use Rattle.expression_lang.specs.Sorted.{scalars_of};
ghost use Rattle.expression_lang.specs.Evaluation.{value, holds};
ghost use Rattle.expression_lang.specs.Signature.{values_of};
ghost use Rattle.expression_lang.specs.Wide.{Operation, wide};
ghost use Rattle.expression_lang.specs.CodeExpression.{exp_of};
ghost use Rattle.expression_lang.specs.CodeState.{env_of, AreScalars};
ghost use Rattle.expression_lang.specs.CodeFault.{IsFault};
ghost use Rattle.monad_lang.specs.Run.{start_values};
ghost use Rattle.monad_lang.specs.Sorted.{start_scalars};
ghost use Rattle.monad_lang.specs.CodeProgram.{start_of};
ghost use Rattle.program_runs.specs.WideRun.{wide_among, wide_at_starts};
ghost use Rattle.program_runs.specs.CodeRun.{state_in, scope_of, IsStateOf, IsMet};

use crate::ends::Stop;
use crate::machine::{AState, Setting};
use c_memory::Heap;
use c_values::Value;
use expression_lang::{Env, EvalFault, Exp, eval};
use monad_lang::Start;

impl Setting<'_> {
    /// The value of an expression.
    #[inline(never)]
    pub(crate) fn value<H: Heap>(
        &self,
        e: &Exp,
        env: &Env,
        state: &AState<H>,
    ) -> Result<Value, Stop>
        requires env { AreScalars env.now.items }
        requires state { IsStateOf H.content self.now.unit.now state.now }
        requires sorted { IsSome (sort_of (scope_of self.now.unit.now env.now.items)
            (exp_of e.now)) }
        ensures value { IfOk result (λ v. value_of v
            ≡ value self.now.unit.now.layout (env_of env.now.items)
            (state_in H.content self.now.unit.now state.now) (exp_of e.now)) }
        ensures narrow { OnOk result (wide self.now.unit.now.layout (env_of env.now.items)
            (state_in H.content self.now.unit.now state.now) (exp_of e.now) ≡ None) }
        ensures met { IfErr result (IsMet (wide self.now.unit.now.layout (env_of env.now.items)
            (state_in H.content self.now.unit.now state.now) (exp_of e.now))) }
    {
        let evaluated = eval(
            self.alloc,
            e,
            env,
            &state.heap,
            &self.unit.layout,
            &self.unit.globals,
            &state.globals,
        );
        match evaluated {
            Ok(value) => Ok(value),
            Err(fault) => Err(stop_at(fault)),
        }
    }

    /// Whether a test holds.
    #[inline(never)]
    pub(crate) fn test<H: Heap>(&self, e: &Exp, env: &Env, state: &AState<H>) -> Result<bool, Stop>
        requires env { AreScalars env.now.items }
        requires state { IsStateOf H.content self.now.unit.now state.now }
        requires sorted { IsSome (sort_of (scope_of self.now.unit.now env.now.items)
            (exp_of e.now)) }
        ensures value { IfOk result (λ b. b
            ≡ holds self.now.unit.now.layout (env_of env.now.items)
            (state_in H.content self.now.unit.now state.now) (exp_of e.now)) }
        ensures narrow { OnOk result (wide self.now.unit.now.layout (env_of env.now.items)
            (state_in H.content self.now.unit.now state.now) (exp_of e.now) ≡ None) }
        ensures met { IfErr result (IsMet (wide self.now.unit.now.layout (env_of env.now.items)
            (state_in H.content self.now.unit.now state.now) (exp_of e.now))) }
    {
        let value = self.value(e, env, state)?;
        Ok(truth(&value))
    }

    /// The values of expressions, in order.
    #[inline(never)]
    pub(crate) fn values<H: Heap>(
        &self,
        exps: &[Exp],
        env: &Env,
        state: &AState<H>,
    ) -> Result<Vec<Value>, Stop>
        requires env { AreScalars env.now.items }
        requires state { IsStateOf H.content self.now.unit.now state.now }
        requires sorted { IsSome (scalars_of (scope_of self.now.unit.now env.now.items)
            (map exp_of exps.now)) }
        ensures values { IfOk result (λ vs. map value_of vs.items
            ≡ values_of self.now.unit.now.layout (env_of env.now.items)
            (state_in H.content self.now.unit.now state.now) (map exp_of exps.now)) }
        ensures narrow { OnOk result (wide_among self.now.unit.now.layout (env_of env.now.items)
            (state_in H.content self.now.unit.now state.now) (map exp_of exps.now) ≡ None) }
        ensures met { IfErr result (IsMet (wide_among self.now.unit.now.layout
            (env_of env.now.items) (state_in H.content self.now.unit.now state.now)
            (map exp_of exps.now))) }
    {
        let mut values = Vec::new(self.alloc);
        let mut rest = exps;
        'exps: while let Some((first, others)) = rest.split_first() {
            values.push(self.value(first, env, state)?)?;
            rest = others;
        }
        Ok(values)
    }

    /// The values with which a loop begins, in order.
    #[inline(never)]
    pub(crate) fn start_values<H: Heap>(
        &self,
        starts: &[Start],
        env: &Env,
        state: &AState<H>,
    ) -> Result<Vec<Value>, Stop>
        requires env { AreScalars env.now.items }
        requires state { IsStateOf H.content self.now.unit.now state.now }
        requires sorted { IsSome (start_scalars (scope_of self.now.unit.now env.now.items)
            (map start_of starts.now)) }
        ensures values { IfOk result (λ vs. map value_of vs.items
            ≡ start_values self.now.unit.now.layout (env_of env.now.items)
            (state_in H.content self.now.unit.now state.now) (map start_of starts.now)) }
        ensures narrow { OnOk result (wide_at_starts self.now.unit.now.layout
            (env_of env.now.items) (state_in H.content self.now.unit.now state.now)
            (map start_of starts.now) ≡ None) }
        ensures met { IfErr result (IsMet (wide_at_starts self.now.unit.now.layout
            (env_of env.now.items) (state_in H.content self.now.unit.now state.now)
            (map start_of starts.now))) }
    {
        let mut values = Vec::new(self.alloc);
        let mut rest = starts;
        'starts: while let Some((first, others)) = rest.split_first() {
            values.push(self.value(&first.exp, env, state)?)?;
            rest = others;
        }
        Ok(values)
    }
}

// Where evaluation ends without a value, the run does.
fn stop_at(fault: EvalFault) -> Stop
    ensures { (o : Option Operation) → IsFault fault o → IsMet o result }
{
    match fault {
        EvalFault::Memory => Stop::Memory,
        EvalFault::Wide(op, a, b) => Stop::Wide(op, a, b),
    }
}

// What a truth value is.
fn truth(value: &Value) -> bool
    ensures { result ≡ truth_in (value_of value.now) }
{
    match value {
        Value::Truth(truth) => *truth,
        _ => false,
    }
}
