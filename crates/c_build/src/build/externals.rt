//! What stands outside functions is built from its parts.

ghost use Rattle.std.specs.Prelude.{false, true};
ghost use Rattle.c_build.specs.CodeValues.{Acts, values_of};

use crate::build::stack::{BuildFault, Stack};
use crate::build::value::Value;
use c_grammar::Production;
use c_grammar::tree::{Decl, Top};
use std::alloc::Global;

#[tactic(auto, unfolding(c_grammar::specs::CodeBuild::act))]
impl Stack<Value<'_>> {
    /// A function.
    pub(crate) fn function(&mut self, alloc: Global) -> Result<(), BuildFault>
        ensures { Acts Production.Function (values_of self.old) result (values_of self.new) }
    {
        self.token()?;
        let items = self.items()?;
        self.token()?;
        let parameters = self.given_parameters()?;
        let declarator = Box::into_inner(self.declarator()?);
        let words = Box::into_inner(self.words()?);
        let function = Decl::Function(words, declarator, parameters, Box::into_inner(items));
        self.put(Value::External(Box::new(alloc, function)?))
    }

    /// A declaration that begins with `typedef`.
    pub(crate) fn type_definition(&mut self, alloc: Global) -> Result<(), BuildFault>
        ensures { Acts (Production.Declaration true) (values_of self.old) result
            (values_of self.new) }
    {
        let tops = self.tops()?.into_vec();
        let words = Box::into_inner(self.words()?);
        let at = self.token()?.start;
        self.put(Value::External(Box::new(alloc, Decl::Declaration(Some(at), words, tops))?))
    }

    /// Another declaration.
    pub(crate) fn declaration(&mut self, alloc: Global) -> Result<(), BuildFault>
        ensures { Acts (Production.Declaration false) (values_of self.old) result
            (values_of self.new) }
    {
        let tops = self.tops()?.into_vec();
        let words = Box::into_inner(self.words()?);
        self.put(Value::External(Box::new(alloc, Decl::Declaration(None, words, tops))?))
    }

    /// A declaration without declarators.
    pub(crate) fn no_tops(&mut self, alloc: Global) -> Result<(), BuildFault>
        ensures { Acts Production.NoTops (values_of self.old) result (values_of self.new) }
    {
        self.token()?;
        self.put(Value::Tops(Stack::new(alloc)))
    }

    /// The last declarator of a declaration.
    pub(crate) fn last_top(&mut self, alloc: Global) -> Result<(), BuildFault>
        ensures { Acts Production.LastTop (values_of self.old) result (values_of self.new) }
    {
        self.token()?;
        let top = self.top()?;
        let mut tops = Stack::new(alloc);
        tops.push(Box::into_inner(top))?;
        self.put(Value::Tops(tops))
    }

    /// A declarator before others.
    pub(crate) fn more_tops(&mut self) -> Result<(), BuildFault>
        ensures { Acts Production.MoreTops (values_of self.old) result (values_of self.new) }
    {
        let mut tops = self.tops()?;
        self.token()?;
        let top = self.top()?;
        tops.push(Box::into_inner(top))?;
        self.put(Value::Tops(tops))
    }

    /// A declarator outside functions.
    pub(crate) fn whole_top(&mut self, alloc: Global) -> Result<(), BuildFault>
        ensures { Acts Production.Top (values_of self.old) result (values_of self.new) }
    {
        let value = self.test()?.map(Box::into_inner);
        let parameters = self.parameters()?;
        let declarator = Box::into_inner(self.declarator()?);
        let top = Top {
            declarator,
            parameters,
            value,
        };
        self.put(Value::Top(Box::new(alloc, top)?))
    }

    /// A global without a value.
    pub(crate) fn no_value(&mut self) -> Result<(), BuildFault>
        ensures { Acts Production.NoValue (values_of self.old) result (values_of self.new) }
    {
        self.put(Value::Test(None))
    }

    /// The value of a global.
    pub(crate) fn some_value(&mut self) -> Result<(), BuildFault>
        ensures { Acts Production.SomeValue (values_of self.old) result (values_of self.new) }
    {
        let value = self.expression()?;
        self.token()?;
        self.put(Value::Test(Some(value)))
    }

    /// The end of a text.
    pub(crate) fn no_externals(&mut self, alloc: Global) -> Result<(), BuildFault>
        ensures { Acts Production.NoExternals (values_of self.old) result (values_of self.new) }
    {
        self.put(Value::Text(Stack::new(alloc)))
    }

    /// A function or a declaration before others.
    pub(crate) fn more_externals(&mut self) -> Result<(), BuildFault>
        ensures { Acts Production.MoreExternals (values_of self.old) result (values_of self.new) }
    {
        let mut rest = self.text()?;
        let external = self.external()?;
        rest.push(Box::into_inner(external))?;
        self.put(Value::Text(rest))
    }
}
