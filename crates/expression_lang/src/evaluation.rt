//! The values of expressions.
#![tactic(auto, using(crate::proofs::Meeting::met_first, crate::proofs::Meeting::met_second, crate::proofs::Meeting::met_none, crate::proofs::PartFaults::first_fault))]

ghost use Rattle.std.specs.Prelude.{◌≡◌};
ghost use Rattle.expression_lang.specs.declared.arity.Arity.TheVariants.{Unary, Binary, Connective, Choice, Place, Part, Update};
ghost use Rattle.c_memory.specs.Heap.{IsHeap};
ghost use Rattle.expression_lang.specs.CodeArity.{arity_of};
ghost use Rattle.expression_lang.specs.CodeExpression.{exp_of, path_of};
ghost use Rattle.expression_lang.specs.CodeScene.{scene_of, ReadyIn, ReadyAlong, GivesValue, GivesTruth, GivesSteps};

use crate::applications::{push_element, push_member, truth_of};
use crate::arity::{Arity, arity_in};
use crate::expression::Exp;
use crate::faults::EvalFault;
use crate::paths::Path;
use crate::scene::Scene;
use c_memory::{Heap, Step};
use c_values::Value;

impl<H: Heap> Scene<'_, H> {
    /// The value of an expression, or none at a fault, which is then told. Each arity has a
    /// function of its own, which isn't inlined, and none of them knows more of its parts than
    /// their values: so few bytes of the stack are taken at each level.
    #[cycle(values)]
    #[inline(never)]
    pub(crate) fn value(&self, e: &Exp, fault: &mut EvalFault) -> Option<Value>
        requires heap { IsHeap self.now.layout.now (H.content self.now.heap.now) }
        requires ready { ReadyIn (scene_of H.content self.now) (exp_of e.now) }
        ensures { GivesValue (scene_of H.content self.now) (exp_of e.now) result fault.new }
    {
        match arity_in(e) {
            Arity::Leaf => self.leaf(e),
            Arity::Unary => self.value_of_unary(e, fault),
            Arity::Binary => self.value_of_binary(e, fault),
            Arity::Connective => self.value_of_connective(e, fault),
            Arity::Choice => self.value_of_choice(e, fault),
            Arity::Place => self.value_of_place(e, fault),
            Arity::Part => self.value_of_part(e, fault),
            Arity::Update => self.value_of_update(e, fault),
        }
    }

    #[cycle(values)]
    #[inline(never)]
    fn value_of_unary(&self, e: &Exp, fault: &mut EvalFault) -> Option<Value>
        requires heap { IsHeap self.now.layout.now (H.content self.now.heap.now) }
        requires ready { ReadyIn (scene_of H.content self.now) (exp_of e.now) }
        requires head { arity_of (exp_of e.now) ≡ Unary }
        ensures { GivesValue (scene_of H.content self.now) (exp_of e.now) result fault.new }
    {
        self.unary(e, self.value(self.first_part(e), fault), fault)
    }

    #[cycle(values)]
    #[inline(never)]
    fn value_of_binary(&self, e: &Exp, fault: &mut EvalFault) -> Option<Value>
        requires heap { IsHeap self.now.layout.now (H.content self.now.heap.now) }
        requires ready { ReadyIn (scene_of H.content self.now) (exp_of e.now) }
        requires head { arity_of (exp_of e.now) ≡ Binary }
        ensures { GivesValue (scene_of H.content self.now) (exp_of e.now) result fault.new }
    {
        let a = self.value(self.first_part(e), fault)?;
        self.binary(e, a, self.value(self.second_part(e), fault), fault)
    }

    #[cycle(values)]
    #[inline(never)]
    fn value_of_connective(&self, e: &Exp, fault: &mut EvalFault) -> Option<Value>
        requires heap { IsHeap self.now.layout.now (H.content self.now.heap.now) }
        requires ready { ReadyIn (scene_of H.content self.now) (exp_of e.now) }
        requires head { arity_of (exp_of e.now) ≡ Connective }
        ensures { GivesValue (scene_of H.content self.now) (exp_of e.now) result fault.new }
    {
        let first = self.truth(self.first_part(e), fault)?;
        if let Some(truth) = self.decided(e, first) {
            return Some(Value::Truth(truth));
        }
        let second = self.truth(self.second_part(e), fault)?;
        Some(Value::Truth(second))
    }

    #[cycle(values)]
    #[inline(never)]
    fn value_of_choice(&self, e: &Exp, fault: &mut EvalFault) -> Option<Value>
        requires heap { IsHeap self.now.layout.now (H.content self.now.heap.now) }
        requires ready { ReadyIn (scene_of H.content self.now) (exp_of e.now) }
        requires head { arity_of (exp_of e.now) ≡ Choice }
        ensures { GivesValue (scene_of H.content self.now) (exp_of e.now) result fault.new }
    {
        match e {
            Exp::If(c, a, b) => {
                if self.truth(c, fault)? {
                    self.value(a, fault)
                } else {
                    self.value(b, fault)
                }
            }
            _ => unreachable!(),
        }
    }

    #[cycle(values)]
    #[inline(never)]
    fn value_of_place(&self, e: &Exp, fault: &mut EvalFault) -> Option<Value>
        requires heap { IsHeap self.now.layout.now (H.content self.now.heap.now) }
        requires ready { ReadyIn (scene_of H.content self.now) (exp_of e.now) }
        requires head { arity_of (exp_of e.now) ≡ Place }
        ensures { GivesValue (scene_of H.content self.now) (exp_of e.now) result fault.new }
    {
        let root = self.value(self.first_part(e), fault)?;
        self.at_place(e, root, self.steps(self.path_part(e), fault), fault)
    }

    #[cycle(values)]
    #[inline(never)]
    fn value_of_part(&self, e: &Exp, fault: &mut EvalFault) -> Option<Value>
        requires heap { IsHeap self.now.layout.now (H.content self.now.heap.now) }
        requires ready { ReadyIn (scene_of H.content self.now) (exp_of e.now) }
        requires head { arity_of (exp_of e.now) ≡ Part }
        ensures { GivesValue (scene_of H.content self.now) (exp_of e.now) result fault.new }
    {
        self.part(e, self.steps(self.path_part(e), fault), fault)
    }

    #[cycle(values)]
    #[inline(never)]
    fn value_of_update(&self, e: &Exp, fault: &mut EvalFault) -> Option<Value>
        requires heap { IsHeap self.now.layout.now (H.content self.now.heap.now) }
        requires ready { ReadyIn (scene_of H.content self.now) (exp_of e.now) }
        requires head { arity_of (exp_of e.now) ≡ Update }
        ensures { GivesValue (scene_of H.content self.now) (exp_of e.now) result fault.new }
    {
        let whole = self.value(self.first_part(e), fault)?;
        let steps = self.steps(self.path_part(e), fault)?;
        self.update(
            e,
            whole,
            steps,
            self.value(self.second_part(e), fault),
            fault,
        )
    }

    // Whether an expression holds. It goes along the right sides of `and`, `or` and `imp` by a
    // loop, since the test of a switch is an
    // `or` of as many equations as there are labels.
    #[cycle(values)]
    #[inline(never)]
    fn truth(&self, e: &Exp, fault: &mut EvalFault) -> Option<bool>
        requires heap { IsHeap self.now.layout.now (H.content self.now.heap.now) }
        requires ready { ReadyIn (scene_of H.content self.now) (exp_of e.now) }
        ensures { GivesTruth (scene_of H.content self.now) (exp_of e.now) result fault.new }
    {
        let mut rest = e;
        'operands: while let Arity::Connective = arity_in(rest) {
            let first = self.truth(self.first_part(rest), fault)?;
            if let Some(truth) = self.decided(rest, first) {
                return Some(truth);
            }
            rest = self.second_part(rest);
        }
        truth_of(self.value(rest, fault))
    }

    // The steps that a path takes. It goes along the path by a loop, since a text may have long
    // paths.
    #[cycle(values)]
    #[inline(never)]
    fn steps(&self, path: &Path, fault: &mut EvalFault) -> Option<Vec<Step>>
        requires heap { IsHeap self.now.layout.now (H.content self.now.heap.now) }
        requires ready { ReadyAlong (scene_of H.content self.now) (path_of path.now) }
        ensures { GivesSteps (scene_of H.content self.now) (path_of path.now) result fault.new }
    {
        let mut steps = Vec::new(self.alloc);
        let mut rest = path;
        'steps: loop {
            match rest {
                Path::Here => return Some(steps),
                Path::Field(k, next) => {
                    if !push_member(&mut steps, *k, fault) {
                        return None;
                    }
                    rest = &**next;
                }
                Path::Index(e, next) => {
                    if !push_element(&mut steps, self.value(e, fault), fault) {
                        return None;
                    }
                    rest = &**next;
                }
            }
        }
    }
}
