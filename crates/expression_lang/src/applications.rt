//! The value of an expression, from the values of its parts.
#![tactic(auto, using(crate::proofs::Meeting::met_none, crate::proofs::PartFaults::first_fault, crate::proofs::PartFaults::second_fault, crate::proofs::PartFaults::path_fault, crate::proofs::PartFaults::part_fault, crate::proofs::PartFaults::put_fault))]

ghost use Rattle.std.specs.Prelude.{◌≡◌, ◌++◌, [], ◌∷◌, true, false, IsSomeAnd};
ghost use Rattle.expression_lang.specs.declared.arity.Arity.TheVariants.{Leaf, Unary, Binary, Connective, Place, Part, Update};
ghost use Rattle.expression_lang.specs.declared.faults.EvalFault.TheVariants.{Memory};
ghost use Rattle.std.specs.Option.{option_map};
ghost use Rattle.c_memory.specs.declared.steps.Step.TheVariants.{Field};
ghost use Rattle.c_values.specs.Value.{truth_in};
ghost use Rattle.c_values.specs.CodeValue.{value_of};
ghost use Rattle.c_memory.specs.Heap.{IsHeap};
ghost use Rattle.expression_lang.specs.CodeArity.{arity_of, first_part, second_part, path_part};
ghost use Rattle.expression_lang.specs.CodeExpression.{exp_of};
ghost use Rattle.expression_lang.specs.CodeScene.{scene_of, ReadyIn, HasValue, HasSteps, HasTruth, GivesValue, GivesSteps, IsDecided, IsPushed};

use crate::environments::{global_part, variable};
use crate::expression::Exp;
use crate::faults::EvalFault;
use crate::operations::{arithmetic, cast_word, is_pointer_ok, moved, place_address};
use crate::scalars::{is_at_most, is_between, is_less, negated, number_in, truth_in, word_in};
use crate::scene::Scene;
use c_memory::{Heap, Step, replace, select};
use c_values::views::word;
use c_values::{Value, copy_value, int, nat, word_op, word_shift, word_test, word_unary};

impl<H: Heap> Scene<'_, H> {
    /// The value of a name or a constant.
    #[inline(never)]
    pub(crate) fn leaf(&self, e: &Exp) -> Option<Value>
        requires ready { ReadyIn (scene_of H.content self.now) (exp_of e.now) }
        requires head { arity_of (exp_of e.now) ≡ Leaf }
        ensures { IsSomeAnd result
            (λ v. HasValue (scene_of H.content self.now) (exp_of e.now) v) }
    {
        match e {
            Exp::Var(x) => Some(variable(self.alloc, self.env, x.as_str())),
            Exp::Word(w) => Some(Value::Word(*w)),
            Exp::Number(n) => Some(Value::Number(*n)),
            Exp::Truth(b) => Some(Value::Truth(*b)),
            _ => unreachable!(),
        }
    }

    /// The value of an operation on one operand.
    #[inline(never)]
    pub(crate) fn unary(&self, e: &Exp, a: Option<Value>, fault: &EvalFault) -> Option<Value>
        requires heap { IsHeap self.now.layout.now (H.content self.now.heap.now) }
        requires ready { ReadyIn (scene_of H.content self.now) (exp_of e.now) }
        requires head { arity_of (exp_of e.now) ≡ Unary }
        requires first { GivesValue (scene_of H.content self.now) (first_part (exp_of e.now)) a
            fault.now }
        ensures { GivesValue (scene_of H.content self.now) (exp_of e.now) result fault.now }
    {
        let a = a?;
        match e {
            Exp::WordUnary(op, _) => Some(Value::Word(word_unary(*op, word_in(&a)))),
            Exp::Cast(op, width, _) => Some(Value::Word(cast_word(*op, *width, word_in(&a)))),
            Exp::ToNat(_) => Some(Value::Number(nat(word_in(&a)))),
            Exp::ToInt(_) => Some(Value::Number(int(word_in(&a)))),
            Exp::ToWord(width, _) => Some(Value::Word(word(*width, number_in(&a)))),
            Exp::Negate(_) => Some(Value::Number(negated(number_in(&a)))),
            Exp::Between(low, _, high) => Some(Value::Truth(is_between(
                *low,
                number_in(&a),
                *high,
            ))),
            Exp::Not(_) => Some(Value::Truth(!truth_in(&a))),
            Exp::Tagged(t, _) => {
                Some(Value::Truth(self.heap.tagged(self.layout, t, word_in(&a).bits())))
            }
            Exp::PtrOk(t, _) => Some(Value::Truth(is_pointer_ok(
                self.layout,
                t,
                word_in(&a).bits(),
            ))),
            _ => unreachable!(),
        }
    }

    /// The value of an operation on two operands.
    #[inline(never)]
    pub(crate) fn binary(
        &self,
        e: &Exp,
        a: Value,
        b: Option<Value>,
        fault: &mut EvalFault,
    ) -> Option<Value>
        requires ready { ReadyIn (scene_of H.content self.now) (exp_of e.now) }
        requires head { arity_of (exp_of e.now) ≡ Binary }
        requires first { HasValue (scene_of H.content self.now) (first_part (exp_of e.now)) a }
        requires second { GivesValue (scene_of H.content self.now) (second_part (exp_of e.now)) b
            fault.old }
        ensures { GivesValue (scene_of H.content self.now) (exp_of e.now) result fault.new }
    {
        let b = b?;
        match e {
            Exp::WordBinary(op, _, _) => {
                Some(Value::Word(word_op(*op, word_in(&a), word_in(&b))))
            }
            Exp::WordShift(op, _, _) => {
                Some(Value::Word(word_shift(*op, word_in(&a), number_in(&b))))
            }
            Exp::WordCompare(op, _, _) => {
                Some(Value::Truth(word_test(*op, word_in(&a), word_in(&b))))
            }
            Exp::Arith(op, _, _) => arithmetic(*op, number_in(&a), number_in(&b), fault),
            Exp::Lt(_, _) => Some(Value::Truth(is_less(number_in(&a), number_in(&b)))),
            Exp::Le(_, _) => Some(Value::Truth(is_at_most(number_in(&a), number_in(&b)))),
            Exp::Eq(_, _) => Some(Value::Truth(a == b)),
            Exp::Padd(t, _, _) => {
                Some(Value::Word(moved(self.layout, t, word_in(&a), number_in(&b))))
            }
            _ => unreachable!(),
        }
    }

    /// Whether an `and`, an `or` or an `imp` holds, where its first operand decides.
    pub(crate) fn decided(&self, e: &Exp, first: bool) -> Option<bool>
        requires head { arity_of (exp_of e.now) ≡ Connective }
        requires first { HasTruth (scene_of H.content self.now) (first_part (exp_of e.now)) first }
        ensures { IsDecided (scene_of H.content self.now) (exp_of e.now) result }
    {
        match e {
            Exp::And(_, _) => if first { None } else { Some(false) },
            Exp::Or(_, _) => if first { Some(true) } else { None },
            Exp::Imp(_, _) => if first { None } else { Some(true) },
            _ => unreachable!(),
        }
    }

    /// What is at a place, or its address.
    #[inline(never)]
    pub(crate) fn at_place(
        &self,
        e: &Exp,
        root: Value,
        steps: Option<Vec<Step>>,
        fault: &mut EvalFault,
    ) -> Option<Value>
        requires heap { IsHeap self.now.layout.now (H.content self.now.heap.now) }
        requires ready { ReadyIn (scene_of H.content self.now) (exp_of e.now) }
        requires head { arity_of (exp_of e.now) ≡ Place }
        requires first { HasValue (scene_of H.content self.now) (first_part (exp_of e.now))
            root }
        requires steps { GivesSteps (scene_of H.content self.now) (path_part (exp_of e.now)) steps
            fault.old }
        ensures { GivesValue (scene_of H.content self.now) (exp_of e.now) result fault.new }
    {
        let steps = steps?;
        match e {
            Exp::At(t, _, _) => {
                Some(Value::Word(place_address(self.layout, t, word_in(&root), &steps)))
            }
            Exp::Load(t, _, _) | Exp::Read(t, _, _) => {
                let address = word_in(&root).bits();
                match self
                    .heap
                    .read_value(self.alloc, self.layout, t, address, &steps)
                {
                    Ok(value) => Some(value),
                    Err(_) => {
                        *fault = EvalFault::Memory;
                        None
                    }
                }
            }
            Exp::Sel(_, _) => match copy_value(self.alloc, select(&root, &steps)) {
                Ok(value) => Some(value),
                Err(_) => {
                    *fault = EvalFault::Memory;
                    None
                }
            },
            _ => unreachable!(),
        }
    }

    /// A part of a global.
    #[inline(never)]
    pub(crate) fn part(
        &self,
        e: &Exp,
        steps: Option<Vec<Step>>,
        fault: &mut EvalFault,
    ) -> Option<Value>
        requires ready { ReadyIn (scene_of H.content self.now) (exp_of e.now) }
        requires head { arity_of (exp_of e.now) ≡ Part }
        requires steps { GivesSteps (scene_of H.content self.now) (path_part (exp_of e.now)) steps
            fault.old }
        ensures { GivesValue (scene_of H.content self.now) (exp_of e.now) result fault.new }
    {
        let steps = steps?;
        match e {
            Exp::Global(x, _) => match global_part(
                self.alloc,
                self.vars,
                self.globals,
                x.as_str(),
                &steps,
            ) {
                Ok(value) => Some(value),
                Err(_) => {
                    *fault = EvalFault::Memory;
                    None
                }
            },
            _ => unreachable!(),
        }
    }

    /// A value with a part replaced.
    #[inline(never)]
    pub(crate) fn update(
        &self,
        e: &Exp,
        whole: Value,
        steps: Vec<Step>,
        part: Option<Value>,
        fault: &EvalFault,
    ) -> Option<Value>
        requires head { arity_of (exp_of e.now) ≡ Update }
        requires first { HasValue (scene_of H.content self.now) (first_part (exp_of e.now)) whole }
        requires steps { HasSteps (scene_of H.content self.now) (path_part (exp_of e.now))
            steps.items }
        requires second { GivesValue (scene_of H.content self.now) (second_part (exp_of e.now)) part
            fault.now }
        ensures { GivesValue (scene_of H.content self.now) (exp_of e.now) result fault.now }
    {
        let part = part?;
        let mut whole = whole;
        replace(&mut whole, &steps, part);
        Some(whole)
    }
}

/// The truth value that a value is, or false.
#[inline(never)]
pub(crate) fn truth_of(value: Option<Value>) -> Option<bool>
    ensures { result ≡ option_map (λ v. truth_in (value_of v)) value }
{
    let value = value?;
    Some(truth_in(&value))
}

/// One more member, where there is room for it.
#[inline(never)]
pub(crate) fn push_member(steps: &mut Vec<Step>, member: u32, fault: &mut EvalFault) -> bool
    ensures pushed { result ≡ true → steps.new.items ≡ steps.old.items ++ Field member ∷ [] }
    ensures fault { result ≡ false → fault.new ≡ Memory }
{
    push_step(steps, Step::Field(member), fault)
}

/// One more element, where there is an index and room for it.
#[inline(never)]
pub(crate) fn push_element(
    steps: &mut Vec<Step>,
    index: Option<Value>,
    fault: &mut EvalFault,
) -> bool
    ensures { IsPushed index steps.old.items fault.old result steps.new.items fault.new }
{
    match index {
        Some(index) => push_step(steps, Step::Index(number_in(&index)), fault),
        None => false,
    }
}

fn push_step(steps: &mut Vec<Step>, step: Step, fault: &mut EvalFault) -> bool
    ensures pushed { result ≡ true → steps.new.items ≡ steps.old.items ++ step ∷ [] }
    ensures fault { result ≡ false → fault.new ≡ Memory }
{
    match steps.push(step) {
        Ok(()) => true,
        Err(_) => {
            *fault = EvalFault::Memory;
            false
        }
    }
}
