//! Types, structs and enums are built from their parts.

ghost use Rattle.c_build.specs.CodeValues.{Acts, values_of};

use crate::build::stack::{BuildFault, Stack};
use crate::build::tokens::{keyword_of, name_of};
use crate::build::value::Value;
use c_grammar::Production;
use c_grammar::tree::{Enumerator, Enumerators, Members, Word, Words};
use std::alloc::Global;

#[tactic(auto, unfolding(c_grammar::specs::CodeBuild::act))]
impl Stack<Value<'_>> {
    /// The name of a type.
    pub(crate) fn type_name_of(&mut self) -> Result<(), BuildFault>
        ensures { Acts Production.TypeName (values_of self.old) result (values_of self.new) }
    {
        let stars = self.stars()?;
        let words = self.words()?;
        self.put(Value::TypeName(words, stars.into_vec()))
    }

    /// The end of the words of a type.
    pub(crate) fn no_words(&mut self, alloc: Global) -> Result<(), BuildFault>
        ensures { Acts Production.NoWords (values_of self.old) result (values_of self.new) }
    {
        self.put(Value::Words(Box::new(alloc, Words::None)?))
    }

    /// A word before others.
    pub(crate) fn more_words(&mut self, alloc: Global) -> Result<(), BuildFault>
        ensures { Acts Production.MoreWords (values_of self.old) result (values_of self.new) }
    {
        let rest = self.words()?;
        let word = self.word()?;
        self.put(Value::Words(Box::new(alloc, Words::More(word, rest))?))
    }

    /// A keyword.
    pub(crate) fn reserved(&mut self, alloc: Global) -> Result<(), BuildFault>
        ensures { Acts Production.Reserved (values_of self.old) result (values_of self.new) }
    {
        let token = self.token()?;
        self.put_word(alloc, Word::Reserved(token.start, keyword_of(token)))
    }

    /// A name that a typedef made.
    pub(crate) fn named(&mut self, alloc: Global) -> Result<(), BuildFault>
        ensures { Acts Production.Named (values_of self.old) result (values_of self.new) }
    {
        let token = self.token()?;
        let name = name_of(alloc, token)?;
        self.put_word(alloc, Word::Named(token.start, name))
    }

    /// A struct by its tag.
    pub(crate) fn struct_tag(&mut self, alloc: Global) -> Result<(), BuildFault>
        ensures { Acts Production.StructTag (values_of self.old) result (values_of self.new) }
    {
        let token = self.token()?;
        let at = self.token()?.start;
        let name = name_of(alloc, token)?;
        self.put_word(alloc, Word::StructTag(at, name))
    }

    /// A struct with its members.
    pub(crate) fn struct_body(&mut self, alloc: Global) -> Result<(), BuildFault>
        ensures { Acts Production.StructBody (values_of self.old) result (values_of self.new) }
    {
        let members = self.members()?;
        self.token()?;
        let at = self.token()?.start;
        self.put_word(alloc, Word::StructBody(at, None, members))
    }

    /// A struct with its tag and members.
    pub(crate) fn tagged_struct(&mut self, alloc: Global) -> Result<(), BuildFault>
        ensures { Acts Production.TaggedStruct (values_of self.old) result (values_of self.new) }
    {
        let members = self.members()?;
        self.token()?;
        let token = self.token()?;
        let at = self.token()?.start;
        let name = name_of(alloc, token)?;
        self.put_word(alloc, Word::StructBody(at, Some(name), members))
    }

    /// An enum by its tag.
    pub(crate) fn enum_tag(&mut self, alloc: Global) -> Result<(), BuildFault>
        ensures { Acts Production.EnumTag (values_of self.old) result (values_of self.new) }
    {
        let token = self.token()?;
        let at = self.token()?.start;
        let name = name_of(alloc, token)?;
        self.put_word(alloc, Word::EnumTag(at, name))
    }

    /// An enum with its enumerators.
    pub(crate) fn enum_body(&mut self, alloc: Global) -> Result<(), BuildFault>
        ensures { Acts Production.EnumBody (values_of self.old) result (values_of self.new) }
    {
        let enumerators = self.enumerators()?;
        self.token()?;
        let at = self.token()?.start;
        self.put_word(alloc, Word::EnumBody(at, None, enumerators))
    }

    /// An enum with its tag and enumerators.
    pub(crate) fn tagged_enum(&mut self, alloc: Global) -> Result<(), BuildFault>
        ensures { Acts Production.TaggedEnum (values_of self.old) result (values_of self.new) }
    {
        let enumerators = self.enumerators()?;
        self.token()?;
        let token = self.token()?;
        let at = self.token()?.start;
        let name = name_of(alloc, token)?;
        self.put_word(alloc, Word::EnumBody(at, Some(name), enumerators))
    }

    /// The last member of a struct.
    pub(crate) fn last_member(&mut self, alloc: Global) -> Result<(), BuildFault>
        ensures { Acts Production.LastMember (values_of self.old) result (values_of self.new) }
    {
        self.token()?;
        let declarators = self.declarators()?;
        let words = self.words()?;
        self.put(Value::Members(Box::new(alloc, Members::Last(words, declarators))?))
    }

    /// A member before others.
    pub(crate) fn more_members(&mut self, alloc: Global) -> Result<(), BuildFault>
        ensures { Acts Production.MoreMembers (values_of self.old) result (values_of self.new) }
    {
        let rest = self.members()?;
        let declarators = self.declarators()?;
        let words = self.words()?;
        self.put(Value::Members(Box::new(alloc, Members::More(words, declarators, rest))?))
    }

    /// An enumerator without a value.
    pub(crate) fn implicit(&mut self, alloc: Global) -> Result<(), BuildFault>
        ensures { Acts Production.Implicit (values_of self.old) result (values_of self.new) }
    {
        let token = self.token()?;
        let name = name_of(alloc, token)?;
        self.put(Value::Enumerator(Box::new(alloc, Enumerator::Implicit(token.start, name))?))
    }

    /// An enumerator with its value.
    pub(crate) fn explicit(&mut self, alloc: Global) -> Result<(), BuildFault>
        ensures { Acts Production.Explicit (values_of self.old) result (values_of self.new) }
    {
        let value = self.expression()?;
        self.token()?;
        let token = self.token()?;
        let name = name_of(alloc, token)?;
        self.put(Value::Enumerator(Box::new(
            alloc,
            Enumerator::Explicit(token.start, name, value),
        )?))
    }

    /// The last enumerator.
    pub(crate) fn last_enumerator(&mut self, alloc: Global) -> Result<(), BuildFault>
        ensures { Acts Production.LastEnumerator (values_of self.old) result (values_of self.new) }
    {
        self.token()?;
        let enumerator = self.enumerator()?;
        self.put(Value::Enumerators(Box::new(alloc, Enumerators::Last(enumerator))?))
    }

    /// The last enumerator, with a comma.
    pub(crate) fn last_enumerator_comma(&mut self, alloc: Global) -> Result<(), BuildFault>
        ensures { Acts Production.LastEnumeratorComma (values_of self.old) result
            (values_of self.new) }
    {
        self.token()?;
        self.token()?;
        let enumerator = self.enumerator()?;
        self.put(Value::Enumerators(Box::new(alloc, Enumerators::Last(enumerator))?))
    }

    /// An enumerator before others.
    pub(crate) fn more_enumerators(&mut self, alloc: Global) -> Result<(), BuildFault>
        ensures { Acts Production.MoreEnumerators (values_of self.old) result (values_of self.new) }
    {
        let rest = self.enumerators()?;
        self.token()?;
        let enumerator = self.enumerator()?;
        self.put(Value::Enumerators(Box::new(alloc, Enumerators::More(enumerator, rest))?))
    }
}
