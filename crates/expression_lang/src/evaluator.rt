//! The evaluator.

ghost use Rattle.std.specs.Prelude.{◌≡◌, None, IfOk, OnOk, IfErr, IsSome};
ghost use Rattle.c_values.specs.CodeValue.{value_of};
ghost use Rattle.c_memory.specs.Heap.{IsHeap};
ghost use Rattle.expression_lang.specs.Sort.{sort_of};
ghost use Rattle.expression_lang.specs.Evaluation.{value};
ghost use Rattle.expression_lang.specs.Wide.{wide};
ghost use Rattle.expression_lang.specs.CodeExpression.{exp_of};
ghost use Rattle.expression_lang.specs.CodeState.{env_of, state_of, scope_in, AreScalars, AreOfTypes};
ghost use Rattle.expression_lang.specs.CodeFault.{IsFault};

use crate::environments::Env;
use crate::expression::Exp;
use crate::faults::EvalFault;
use crate::scene::Scene;
use c_memory::Heap;
use c_values::{GlobalVar, Layout, Value};
use std::alloc::Global;

/// The value of an expression in an environment, a heap and the values of the globals, in their
/// order. The values of the environment are words, numbers and truth values, the expression is
/// well-sorted for them and for the globals, and each global's value is of its type.
///
/// - `Wide` exactly where evaluation meets an operation on numbers whose exact result has a
/// magnitude of 2^128 or more.   `and`, `or`, `imp` and `if` evaluate only the operands that those
/// before leave open.
/// - `Memory` where there is no room for a value.
///
/// At each level of the expression it takes up to 480 bytes of the stack. So the 4,096 levels that
/// a text may nest take less than 2 MiB.
#[tactic(auto, using(crate::proofs::Scoped::sorted_ready))]
pub fn eval<H: Heap>(
    alloc: Global,
    e: &Exp,
    env: &Env,
    heap: &H,
    l: &Layout,
    vars: &[GlobalVar],
    globals: &[Value],
) -> Result<Value, EvalFault>
    requires env { AreScalars env.now.items }
    requires sorted { IsSome (sort_of (scope_in l.now env.now.items vars.now) (exp_of e.now)) }
    requires globals { AreOfTypes l.now vars.now globals.now }
    requires heap { IsHeap l.now (H.content heap.now) }
    ensures value { IfOk result (λ v. value_of v ≡ value l.now (env_of env.now.items)
        (state_of (H.content heap.now) vars.now globals.now) (exp_of e.now)) }
    ensures narrow { OnOk result (wide l.now (env_of env.now.items)
        (state_of (H.content heap.now) vars.now globals.now) (exp_of e.now) ≡ None) }
    ensures fault { IfErr result (λ f. IsFault f (wide l.now (env_of env.now.items)
        (state_of (H.content heap.now) vars.now globals.now) (exp_of e.now))) }
{
    // It is a layout.
    let _ = l.target();
    let scene = Scene {
        alloc,
        layout: l,
        env,
        heap,
        vars,
        globals,
    };
    let mut fault = EvalFault::Memory;
    match scene.value(e, &mut fault) {
        Some(value) => Ok(value),
        None => Err(fault),
    }
}
