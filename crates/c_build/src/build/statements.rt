//! Statements are built from their parts.

ghost use Rattle.c_build.specs.CodeValues.{Acts, values_of};

use crate::build::stack::{BuildFault, Stack};
use crate::build::value::Value;
use c_grammar::Production;
use c_grammar::tree::{Groups, Items, Label, Stmt};
use std::alloc::Global;

#[tactic(auto, unfolding(c_grammar::specs::CodeBuild::act))]
impl Stack<Value<'_>> {
    /// `;`
    pub(crate) fn empty_statement(&mut self, alloc: Global) -> Result<(), BuildFault>
        ensures { Acts Production.Empty (values_of self.old) result (values_of self.new) }
    {
        let at = self.token()?.start;
        self.put_statement(alloc, Stmt::Empty(at))
    }

    /// A block.
    pub(crate) fn block(&mut self, alloc: Global) -> Result<(), BuildFault>
        ensures { Acts Production.Block (values_of self.old) result (values_of self.new) }
    {
        self.token()?;
        let items = self.items()?;
        let at = self.token()?.start;
        self.put_statement(alloc, Stmt::Block(at, items))
    }

    /// `break;`
    pub(crate) fn break_loop(&mut self, alloc: Global) -> Result<(), BuildFault>
        ensures { Acts Production.Break (values_of self.old) result (values_of self.new) }
    {
        self.token()?;
        let at = self.token()?.start;
        self.put_statement(alloc, Stmt::Break(at))
    }

    /// `continue;`
    pub(crate) fn continue_loop(&mut self, alloc: Global) -> Result<(), BuildFault>
        ensures { Acts Production.Continue (values_of self.old) result (values_of self.new) }
    {
        self.token()?;
        let at = self.token()?.start;
        self.put_statement(alloc, Stmt::Continue(at))
    }

    /// `return;`
    pub(crate) fn return_nothing(&mut self, alloc: Global) -> Result<(), BuildFault>
        ensures { Acts Production.Return (values_of self.old) result (values_of self.new) }
    {
        self.token()?;
        let at = self.token()?.start;
        self.put_statement(alloc, Stmt::Return(at, None))
    }

    /// `return r;`
    pub(crate) fn return_value(&mut self, alloc: Global) -> Result<(), BuildFault>
        ensures { Acts Production.ReturnValue (values_of self.old) result (values_of self.new) }
    {
        self.token()?;
        let value = self.right()?;
        let at = self.token()?.start;
        self.put_statement(alloc, Stmt::Return(at, Some(Box::into_inner(value))))
    }

    /// An `if` without `else`.
    pub(crate) fn if_alone(&mut self, alloc: Global) -> Result<(), BuildFault>
        ensures { Acts Production.If (values_of self.old) result (values_of self.new) }
    {
        let then = self.statement()?;
        self.token()?;
        let test = self.expression()?;
        self.token()?;
        let at = self.token()?.start;
        self.put_statement(alloc, Stmt::If(at, Box::into_inner(test), then))
    }

    /// An `if` with `else`.
    pub(crate) fn if_else(&mut self, alloc: Global) -> Result<(), BuildFault>
        ensures { Acts Production.IfElse (values_of self.old) result (values_of self.new) }
    {
        let otherwise = self.statement()?;
        self.token()?;
        let then = self.statement()?;
        self.token()?;
        let test = self.expression()?;
        self.token()?;
        let at = self.token()?.start;
        let test = Box::into_inner(test);
        self.put_statement(alloc, Stmt::IfElse(at, test, then, otherwise))
    }

    /// `while (e) s`
    pub(crate) fn while_loop(&mut self, alloc: Global) -> Result<(), BuildFault>
        ensures { Acts Production.While (values_of self.old) result (values_of self.new) }
    {
        let body = self.statement()?;
        self.token()?;
        let test = self.expression()?;
        self.token()?;
        let at = self.token()?.start;
        self.put_statement(alloc, Stmt::While(at, Box::into_inner(test), body))
    }

    /// `do s while (e);`
    pub(crate) fn do_loop(&mut self, alloc: Global) -> Result<(), BuildFault>
        ensures { Acts Production.Do (values_of self.old) result (values_of self.new) }
    {
        self.token()?;
        self.token()?;
        let test = self.expression()?;
        self.token()?;
        self.token()?;
        let body = self.statement()?;
        let at = self.token()?.start;
        self.put_statement(alloc, Stmt::Do(at, body, Box::into_inner(test)))
    }

    /// `for (start; test; step) s`
    pub(crate) fn for_loop(&mut self, alloc: Global) -> Result<(), BuildFault>
        ensures { Acts Production.For (values_of self.old) result (values_of self.new) }
    {
        let body = self.statement()?;
        let step = self.step()?.map(Box::into_inner);
        let test = self.test()?.map(Box::into_inner);
        let start = Box::into_inner(self.start()?);
        self.token()?;
        let at = self.token()?.start;
        self.put_statement(alloc, Stmt::For(at, start, test, step, body))
    }

    /// A switch.
    pub(crate) fn switch(&mut self, alloc: Global) -> Result<(), BuildFault>
        ensures { Acts Production.Switch (values_of self.old) result (values_of self.new) }
    {
        self.token()?;
        let groups = self.groups()?;
        self.token()?;
        self.token()?;
        let value = self.expression()?;
        self.token()?;
        let at = self.token()?.start;
        self.put_statement(alloc, Stmt::Switch(at, Box::into_inner(value), groups))
    }

    /// A simple statement.
    pub(crate) fn simple_statement(&mut self, alloc: Global) -> Result<(), BuildFault>
        ensures { Acts Production.Simple (values_of self.old) result (values_of self.new) }
    {
        self.token()?;
        let simple = Box::into_inner(self.simple()?);
        self.put_statement(alloc, Stmt::Simple(simple))
    }

    /// The end of a block.
    pub(crate) fn no_items(&mut self, alloc: Global) -> Result<(), BuildFault>
        ensures { Acts Production.NoItems (values_of self.old) result (values_of self.new) }
    {
        self.put(Value::Items(Box::new(alloc, Items::None)?))
    }

    /// Locals in a block.
    pub(crate) fn local_item(&mut self, alloc: Global) -> Result<(), BuildFault>
        ensures { Acts Production.LocalItem (values_of self.old) result (values_of self.new) }
    {
        let rest = self.items()?;
        let local = Box::into_inner(self.local()?);
        self.put(Value::Items(Box::new(alloc, Items::Local(local, rest))?))
    }

    /// A statement in a block.
    pub(crate) fn statement_item(&mut self, alloc: Global) -> Result<(), BuildFault>
        ensures { Acts Production.StatementItem (values_of self.old) result (values_of self.new) }
    {
        let rest = self.items()?;
        let statement = self.statement()?;
        self.put(Value::Items(Box::new(alloc, Items::Statement(statement, rest))?))
    }

    /// The end of a switch.
    pub(crate) fn no_groups(&mut self, alloc: Global) -> Result<(), BuildFault>
        ensures { Acts Production.NoGroups (values_of self.old) result (values_of self.new) }
    {
        self.put(Value::Groups(Box::new(alloc, Groups::None)?))
    }

    /// A group of a switch before others.
    pub(crate) fn more_groups(&mut self, alloc: Global) -> Result<(), BuildFault>
        ensures { Acts Production.MoreGroups (values_of self.old) result (values_of self.new) }
    {
        let rest = self.groups()?;
        let items = self.items()?;
        let first = self.statement()?;
        let labels = self.labels()?.into_vec();
        let label = Box::into_inner(self.label()?);
        self.put(Value::Groups(Box::new(alloc, Groups::More(label, labels, first, items, rest))?))
    }

    /// `case e:`
    pub(crate) fn case_label(&mut self, alloc: Global) -> Result<(), BuildFault>
        ensures { Acts Production.Case (values_of self.old) result (values_of self.new) }
    {
        self.token()?;
        let value = self.expression()?;
        let at = self.token()?.start;
        self.put(Value::Label(Box::new(alloc, Label::Case(at, Box::into_inner(value)))?))
    }

    /// `default:`
    pub(crate) fn default_label(&mut self, alloc: Global) -> Result<(), BuildFault>
        ensures { Acts Production.Default (values_of self.old) result (values_of self.new) }
    {
        self.token()?;
        let at = self.token()?.start;
        self.put(Value::Label(Box::new(alloc, Label::Default(at))?))
    }

    /// No more labels of a group.
    pub(crate) fn no_labels(&mut self, alloc: Global) -> Result<(), BuildFault>
        ensures { Acts Production.NoLabels (values_of self.old) result (values_of self.new) }
    {
        self.put(Value::Labels(Stack::new(alloc)))
    }

    /// A further label of a group.
    pub(crate) fn more_labels(&mut self) -> Result<(), BuildFault>
        ensures { Acts Production.MoreLabels (values_of self.old) result (values_of self.new) }
    {
        let mut labels = self.labels()?;
        let label = self.label()?;
        labels.push(Box::into_inner(label))?;
        self.put(Value::Labels(labels))
    }
}
