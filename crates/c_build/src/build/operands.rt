//! Expressions and calls are built from their parts.

ghost use Rattle.c_build.specs.CodeValues.{Acts, values_of};

use crate::build::stack::{BuildFault, Stack};
use crate::build::tokens::{constant, name_of};
use crate::build::value::Value;
use c_grammar::tree::{CExp, Call, Rhs};
use c_grammar::{BinaryOperator, Production, UnaryOperator};
use std::alloc::Global;

#[tactic(auto, unfolding(c_grammar::specs::CodeBuild::act))]
impl Stack<Value<'_>> {
    /// A name.
    pub(crate) fn variable(&mut self, alloc: Global) -> Result<(), BuildFault>
        ensures { Acts Production.Name (values_of self.old) result (values_of self.new) }
    {
        let token = self.token()?;
        let name = name_of(alloc, token)?;
        self.put_expression(alloc, CExp::Name(token.start, name))
    }

    /// A number.
    pub(crate) fn number(&mut self, alloc: Global) -> Result<(), BuildFault>
        ensures { Acts Production.Number (values_of self.old) result (values_of self.new) }
    {
        let token = self.token()?;
        let number = constant(alloc, token)?;
        self.put_expression(alloc, number)
    }

    /// A character constant.
    pub(crate) fn character(&mut self, alloc: Global) -> Result<(), BuildFault>
        ensures { Acts Production.Character (values_of self.old) result (values_of self.new) }
    {
        let token = self.token()?;
        let character = constant(alloc, token)?;
        self.put_expression(alloc, character)
    }

    /// `(e)`
    pub(crate) fn parenthesis(&mut self, alloc: Global) -> Result<(), BuildFault>
        ensures { Acts Production.Parenthesis (values_of self.old) result (values_of self.new) }
    {
        self.token()?;
        let inner = self.expression()?;
        let at = self.token()?.start;
        self.put_expression(alloc, CExp::Parenthesis(at, inner))
    }

    /// `e[i]`
    pub(crate) fn index(&mut self, alloc: Global) -> Result<(), BuildFault>
        ensures { Acts Production.Index (values_of self.old) result (values_of self.new) }
    {
        self.token()?;
        let index = self.expression()?;
        self.token()?;
        let base = self.expression()?;
        self.put_expression(alloc, CExp::Index(base, index))
    }

    /// `e.x`
    pub(crate) fn member(&mut self, alloc: Global) -> Result<(), BuildFault>
        ensures { Acts Production.Member (values_of self.old) result (values_of self.new) }
    {
        let token = self.token()?;
        self.token()?;
        let base = self.expression()?;
        let name = name_of(alloc, token)?;
        self.put_expression(alloc, CExp::Member(base, name))
    }

    /// `e->x`
    pub(crate) fn pointer_member(&mut self, alloc: Global) -> Result<(), BuildFault>
        ensures { Acts Production.PointerMember (values_of self.old) result (values_of self.new) }
    {
        let token = self.token()?;
        self.token()?;
        let base = self.expression()?;
        let name = name_of(alloc, token)?;
        self.put_expression(alloc, CExp::PointerMember(base, name))
    }

    /// An operator before its operand.
    pub(crate) fn unary(&mut self, alloc: Global, operator: UnaryOperator) -> Result<(), BuildFault>
        ensures { Acts (Production.Unary operator) (values_of self.old) result
            (values_of self.new) }
    {
        let operand = self.expression()?;
        let at = self.token()?.start;
        self.put_expression(alloc, CExp::Unary(at, operator, operand))
    }

    /// `sizeof e`
    pub(crate) fn sizeof_value(&mut self, alloc: Global) -> Result<(), BuildFault>
        ensures { Acts Production.SizeofValue (values_of self.old) result (values_of self.new) }
    {
        let operand = self.expression()?;
        let at = self.token()?.start;
        self.put_expression(alloc, CExp::SizeofValue(at, operand))
    }

    /// `sizeof(T)`
    pub(crate) fn sizeof_type(&mut self, alloc: Global) -> Result<(), BuildFault>
        ensures { Acts Production.SizeofType (values_of self.old) result (values_of self.new) }
    {
        self.token()?;
        let (words, stars) = self.type_name()?;
        self.token()?;
        let at = self.token()?.start;
        self.put_expression(alloc, CExp::SizeofType(at, words, stars))
    }

    /// `(T)e`
    pub(crate) fn cast(&mut self, alloc: Global) -> Result<(), BuildFault>
        ensures { Acts Production.Cast (values_of self.old) result (values_of self.new) }
    {
        let operand = self.expression()?;
        self.token()?;
        let (words, stars) = self.type_name()?;
        let at = self.token()?.start;
        self.put_expression(alloc, CExp::Cast(at, words, stars, operand))
    }

    /// An operator between operands.
    pub(crate) fn binary(
        &mut self,
        alloc: Global,
        operator: BinaryOperator,
    ) -> Result<(), BuildFault>
        ensures { Acts (Production.Binary operator) (values_of self.old) result
            (values_of self.new) }
    {
        let right = self.expression()?;
        self.token()?;
        let left = self.expression()?;
        self.put_expression(alloc, CExp::Binary(operator, left, right))
    }

    /// `c ? a : b`
    pub(crate) fn conditional(&mut self, alloc: Global) -> Result<(), BuildFault>
        ensures { Acts Production.Conditional (values_of self.old) result (values_of self.new) }
    {
        let otherwise = self.expression()?;
        self.token()?;
        let then = self.expression()?;
        self.token()?;
        let test = self.expression()?;
        self.put_expression(alloc, CExp::Conditional(test, then, otherwise))
    }

    /// An expression on the right.
    pub(crate) fn value(&mut self, alloc: Global) -> Result<(), BuildFault>
        ensures { Acts Production.Value (values_of self.old) result (values_of self.new) }
    {
        let value = self.expression()?;
        let right = Box::new(alloc, Rhs::Value(Box::into_inner(value)))?;
        self.put(Value::Right(right))
    }

    /// A call.
    pub(crate) fn function_call(&mut self, alloc: Global) -> Result<(), BuildFault>
        ensures { Acts Production.Call (values_of self.old) result (values_of self.new) }
    {
        let arguments = self.arguments()?;
        self.token()?;
        let (at, name) = self.name()?;
        let arguments = arguments.into_vec();
        self.put(Value::Call(Box::new(
            alloc,
            Call {
                at,
                name,
                arguments,
            },
        )?))
    }

    /// A call on the right.
    pub(crate) fn call_value(&mut self, alloc: Global) -> Result<(), BuildFault>
        ensures { Acts Production.CallValue (values_of self.old) result (values_of self.new) }
    {
        let call = self.call()?;
        let right = Box::new(alloc, Rhs::Call(Box::into_inner(call)))?;
        self.put(Value::Right(right))
    }

    /// No arguments.
    pub(crate) fn no_arguments(&mut self, alloc: Global) -> Result<(), BuildFault>
        ensures { Acts Production.NoArguments (values_of self.old) result (values_of self.new) }
    {
        self.token()?;
        self.put(Value::Arguments(Stack::new(alloc)))
    }

    /// The last argument.
    pub(crate) fn last_argument(&mut self, alloc: Global) -> Result<(), BuildFault>
        ensures { Acts Production.LastArgument (values_of self.old) result (values_of self.new) }
    {
        self.token()?;
        let argument = self.expression()?;
        let mut arguments = Stack::new(alloc);
        arguments.push(Box::into_inner(argument))?;
        self.put(Value::Arguments(arguments))
    }

    /// An argument before others.
    pub(crate) fn more_arguments(&mut self) -> Result<(), BuildFault>
        ensures { Acts Production.MoreArguments (values_of self.old) result (values_of self.new) }
    {
        let mut arguments = self.arguments()?;
        self.token()?;
        let argument = self.expression()?;
        arguments.push(Box::into_inner(argument))?;
        self.put(Value::Arguments(arguments))
    }
}
