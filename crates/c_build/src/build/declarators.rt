//! Declarators and locals are built from their parts.

ghost use Rattle.std.specs.Prelude.{◌≡◌};
ghost use Rattle.std.specs.Option.{option_map};
ghost use Rattle.c_grammar.specs.Tree.{Initialized};
ghost use Rattle.c_grammar.specs.CodeTree.{declarator_of, init_of, rhs_of};
ghost use Rattle.c_build.specs.CodeValues.{Acts, values_of};

use crate::build::stack::{BuildFault, Stack};
use crate::build::tokens::name_of;
use crate::build::value::Value;
use c_grammar::Production;
use c_grammar::tree::{Declarator, Declarators, Dimensions, Init, Local, Rhs};
use std::alloc::Global;

/// A local and its value.
fn initialized(declarator: Box<Declarator>, value: Option<Box<Rhs>>) -> Init
    ensures { init_of result ≡ Initialized (declarator_of declarator.value)
        (option_map (λ r. rhs_of r.value) value) }
{
    Init {
        declarator: Box::into_inner(declarator),
        value: value.map(Box::into_inner),
    }
}

#[tactic(auto, unfolding(c_grammar::specs::CodeBuild::act))]
impl Stack<Value<'_>> {
    /// The last declarator of a member.
    pub(crate) fn last_declarator(&mut self, alloc: Global) -> Result<(), BuildFault>
        ensures { Acts Production.LastDeclarator (values_of self.old) result (values_of self.new) }
    {
        self.token()?;
        let declarator = self.declarator()?;
        self.put(Value::Declarators(Box::new(alloc, Declarators::Last(declarator))?))
    }

    /// A declarator before others.
    pub(crate) fn more_declarators(&mut self, alloc: Global) -> Result<(), BuildFault>
        ensures { Acts Production.MoreDeclarators (values_of self.old) result (values_of self.new) }
    {
        let rest = self.declarators()?;
        self.token()?;
        let declarator = self.declarator()?;
        self.put(Value::Declarators(Box::new(alloc, Declarators::More(declarator, rest))?))
    }

    /// No more stars.
    pub(crate) fn no_stars(&mut self, alloc: Global) -> Result<(), BuildFault>
        ensures { Acts Production.NoStars (values_of self.old) result (values_of self.new) }
    {
        self.put(Value::Stars(Stack::new(alloc)))
    }

    /// A star before others.
    pub(crate) fn more_stars(&mut self) -> Result<(), BuildFault>
        ensures { Acts Production.MoreStars (values_of self.old) result (values_of self.new) }
    {
        let mut stars = self.stars()?;
        let at = self.token()?.start;
        stars.push(at)?;
        self.put(Value::Stars(stars))
    }

    /// `const` behind a star.
    pub(crate) fn star_const(&mut self) -> Result<(), BuildFault>
        ensures { Acts Production.StarConst (values_of self.old) result (values_of self.new) }
    {
        self.token()?;
        Ok(())
    }

    /// A declarator.
    pub(crate) fn whole_declarator(&mut self, alloc: Global) -> Result<(), BuildFault>
        ensures { Acts Production.Declarator (values_of self.old) result (values_of self.new) }
    {
        let dimensions = self.dimensions()?;
        let token = self.token()?;
        let stars = self.stars()?;
        let name = name_of(alloc, token)?;
        let declarator = Declarator::Declare(stars.into_vec(), token.start, name, dimensions);
        self.put(Value::Declarator(Box::new(alloc, declarator)?))
    }

    /// No more array lengths.
    pub(crate) fn no_dimensions(&mut self, alloc: Global) -> Result<(), BuildFault>
        ensures { Acts Production.NoDimensions (values_of self.old) result (values_of self.new) }
    {
        self.put(Value::Dimensions(Box::new(alloc, Dimensions::None)?))
    }

    /// An array length before others.
    pub(crate) fn more_dimensions(&mut self, alloc: Global) -> Result<(), BuildFault>
        ensures { Acts Production.MoreDimensions (values_of self.old) result (values_of self.new) }
    {
        let rest = self.dimensions()?;
        self.token()?;
        let length = self.expression()?;
        self.token()?;
        self.put(Value::Dimensions(Box::new(alloc, Dimensions::More(length, rest))?))
    }

    /// The locals of one declaration.
    pub(crate) fn whole_local(&mut self, alloc: Global) -> Result<(), BuildFault>
        ensures { Acts Production.Local (values_of self.old) result (values_of self.new) }
    {
        let inits = self.inits()?.into_vec();
        let words = Box::into_inner(self.words()?);
        self.put(Value::Local(Box::new(alloc, Local { words, inits })?))
    }

    /// The value of a local.
    pub(crate) fn init(&mut self) -> Result<(), BuildFault>
        ensures { Acts Production.Init (values_of self.old) result (values_of self.new) }
    {
        let value = self.right()?;
        self.token()?;
        self.put(Value::Initial(Some(value)))
    }

    /// A local without a value.
    pub(crate) fn no_init(&mut self) -> Result<(), BuildFault>
        ensures { Acts Production.NoInit (values_of self.old) result (values_of self.new) }
    {
        self.put(Value::Initial(None))
    }

    /// The last local of a declaration.
    pub(crate) fn last_init(&mut self, alloc: Global) -> Result<(), BuildFault>
        ensures { Acts Production.LastInit (values_of self.old) result (values_of self.new) }
    {
        self.token()?;
        let initial = self.initial()?;
        let declarator = self.declarator()?;
        let mut inits = Stack::new(alloc);
        inits.push(initialized(declarator, initial))?;
        self.put(Value::Inits(inits))
    }

    /// A local before others.
    pub(crate) fn more_inits(&mut self) -> Result<(), BuildFault>
        ensures { Acts Production.MoreInits (values_of self.old) result (values_of self.new) }
    {
        let mut inits = self.inits()?;
        self.token()?;
        let initial = self.initial()?;
        let declarator = self.declarator()?;
        inits.push(initialized(declarator, initial))?;
        self.put(Value::Inits(inits))
    }
}
