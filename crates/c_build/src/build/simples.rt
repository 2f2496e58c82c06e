//! Simple statements and the heads of `for` are built from their parts.

ghost use Rattle.c_build.specs.CodeValues.{Acts, values_of};

use crate::build::stack::{BuildFault, Stack};
use crate::build::value::Value;
use c_grammar::tree::{Simple, Start};
use c_grammar::{BinaryOperator, Production, StepOperator};
use std::alloc::Global;

#[tactic(auto, unfolding(c_grammar::specs::CodeBuild::act))]
impl Stack<Value<'_>> {
    /// `e = r`
    pub(crate) fn assign(&mut self, alloc: Global) -> Result<(), BuildFault>
        ensures { Acts Production.Assign (values_of self.old) result (values_of self.new) }
    {
        let value = Box::into_inner(self.right()?);
        self.token()?;
        let place = Box::into_inner(self.expression()?);
        self.put_simple(alloc, Simple::Assign(place, value))
    }

    /// `e += x` and its kin.
    pub(crate) fn update(
        &mut self,
        alloc: Global,
        operator: BinaryOperator,
    ) -> Result<(), BuildFault>
        ensures { Acts (Production.Update operator) (values_of self.old) result
            (values_of self.new) }
    {
        let value = self.expression()?;
        self.token()?;
        let place = Box::into_inner(self.expression()?);
        self.put_simple(
            alloc,
            Simple::Update(operator, place, Box::into_inner(value)),
        )
    }

    /// `e++` and `e--`
    pub(crate) fn after(&mut self, alloc: Global, operator: StepOperator) -> Result<(), BuildFault>
        ensures { Acts (Production.After operator) (values_of self.old) result
            (values_of self.new) }
    {
        self.token()?;
        let place = Box::into_inner(self.expression()?);
        self.put_simple(alloc, Simple::After(operator, place))
    }

    /// `++e` and `--e`
    pub(crate) fn before(&mut self, alloc: Global, operator: StepOperator) -> Result<(), BuildFault>
        ensures { Acts (Production.Before operator) (values_of self.old) result
            (values_of self.new) }
    {
        let place = self.expression()?;
        let at = self.token()?.start;
        self.put_simple(alloc, Simple::Before(at, operator, Box::into_inner(place)))
    }

    /// A call.
    pub(crate) fn invoke(&mut self, alloc: Global) -> Result<(), BuildFault>
        ensures { Acts Production.Invoke (values_of self.old) result (values_of self.new) }
    {
        let call = Box::into_inner(self.call()?);
        self.put_simple(alloc, Simple::Call(call))
    }

    /// A `for` that begins with nothing.
    pub(crate) fn no_start(&mut self, alloc: Global) -> Result<(), BuildFault>
        ensures { Acts Production.NoStart (values_of self.old) result (values_of self.new) }
    {
        self.token()?;
        self.put(Value::Start(Box::new(alloc, Start::None)?))
    }

    /// A `for` that begins with a local.
    pub(crate) fn start_local(&mut self, alloc: Global) -> Result<(), BuildFault>
        ensures { Acts Production.StartLocal (values_of self.old) result (values_of self.new) }
    {
        let local = Box::into_inner(self.local()?);
        self.put(Value::Start(Box::new(alloc, Start::Local(local))?))
    }

    /// A `for` that begins with a simple statement.
    pub(crate) fn start_simple(&mut self, alloc: Global) -> Result<(), BuildFault>
        ensures { Acts Production.StartSimple (values_of self.old) result (values_of self.new) }
    {
        self.token()?;
        let simple = Box::into_inner(self.simple()?);
        self.put(Value::Start(Box::new(alloc, Start::Simple(simple))?))
    }

    /// A `for` without a test.
    pub(crate) fn no_test(&mut self) -> Result<(), BuildFault>
        ensures { Acts Production.NoTest (values_of self.old) result (values_of self.new) }
    {
        self.token()?;
        self.put(Value::Test(None))
    }

    /// The test of a `for`.
    pub(crate) fn some_test(&mut self) -> Result<(), BuildFault>
        ensures { Acts Production.Test (values_of self.old) result (values_of self.new) }
    {
        self.token()?;
        let test = self.expression()?;
        self.put(Value::Test(Some(test)))
    }

    /// A `for` without a step.
    pub(crate) fn no_step(&mut self) -> Result<(), BuildFault>
        ensures { Acts Production.NoStep (values_of self.old) result (values_of self.new) }
    {
        self.token()?;
        self.put(Value::Step(None))
    }

    /// The step of a `for`.
    pub(crate) fn some_step(&mut self) -> Result<(), BuildFault>
        ensures { Acts Production.Step (values_of self.old) result (values_of self.new) }
    {
        self.token()?;
        let step = self.simple()?;
        self.put(Value::Step(Some(step)))
    }
}
