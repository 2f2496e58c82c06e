//! Struct and enum tags, members and enumerators.

ghost use Rattle.std.specs.Prelude.{◌≡◌, ◌+ℤ◌, pos, is_some, map, IfOk, OnOk, Some, string_bytes};
ghost use Rattle.std.specs.Option.{option_copied};
ghost use Rattle.c_values.specs.CodeLayout.{struct_def_of, member_of};
ghost use Rattle.c_values.specs.CodeTypes.{type_of};
ghost use Rattle.typing_rules.specs.CodeAnswers.{RulesAs};
ghost use Rattle.typing_scope.specs.CodeScope.{scope_of, tag_of};
ghost use Rattle.typing_rules.specs.Declarations as declarations;
ghost use Rattle.typing_rules.specs.Scope.{Enumerator, declare};

use crate::scope::{Entity, Scope, Tag};
use c_values::{CType, IntType, LayoutFault, Number, NumberOp, StructDef, is_of_type, number_op};
use std::alloc::{AllocError, Global};
use typing_rules::fault::TypeKind;
use typing_rules::rulings::{Refusal, refuse};

impl Scope {
    fn is_enum(&self, tag: &str) -> bool
        ensures { result ≡ declarations.is_enum_tag ((scope_of self.now).tags tag.now) }
    {
        match self.tags.get(tag) {
            Some(tag) => match *tag {
                Tag::Struct => false,
                Tag::Enum => true,
            },
            None => false,
        }
    }

    fn has_tag(&self, tag: &str) -> bool
        ensures { result ≡ is_some ((scope_of self.now).tags tag.now) }
    {
        match self.tags.get(tag) {
            Some(_) => true,
            None => false,
        }
    }

    /// A struct by its tag, which is none of an enum.
    pub fn struct_tag(&mut self, alloc: Global, tag: &str) -> Result<CType, Refusal>
        ensures { RulesAs (λ t. (type_of t, scope_of self.new)) result
            (declarations.struct_tag tag.now (scope_of self.old)) }
    {
        refuse(self.is_enum(tag), TypeKind::Twice)?;
        let ty = CType::Struct(String::from_str(alloc, tag)?);
        self.mention(alloc, Some(tag))?;
        Ok(ty)
    }

    /// An enum by its tag, which is declared.
    pub fn enum_tag(&self, tag: &str) -> Result<CType, Refusal>
        ensures { RulesAs type_of result (declarations.enum_tag tag.now (scope_of self.now)) }
    {
        refuse(!self.is_enum(tag), TypeKind::Unknown)?;
        Ok(CType::Int(IntType::Int))
    }

    /// A struct's tag is declared by its first mention.
    pub fn mention(&mut self, alloc: Global, tag: Option<&str>) -> Result<(), AllocError>
        ensures { OnOk result (scope_of self.new ≡ declarations.mention (option_copied tag.entry)
            (scope_of self.old)) }
    {
        match tag {
            Some(tag) => self.mention_tag(alloc, tag),
            None => Ok(()),
        }
    }

    fn mention_tag(&mut self, alloc: Global, tag: &str) -> Result<(), AllocError>
        ensures { OnOk result
            (scope_of self.new ≡ declarations.mention (Some tag.now) (scope_of self.old)) }
    {
        if self.tags.contains_key(tag) {
            return Ok(());
        }
        self.set_tag(alloc, tag, Tag::Struct)
    }

    fn set_tag(&mut self, alloc: Global, tag: &str, kind: Tag) -> Result<(), AllocError>
        ensures { OnOk result (scope_of self.new ≡ declarations.with_tag (tag_of kind) tag.now
            (scope_of self.old)) }
    {
        let name = String::from_str(alloc, tag)?;
        let _ = self.tags.insert(name, kind)?;
        Ok(())
    }

    /// A struct with its members: its tag has no other body and is no enum's, and it isn't too large.
    pub fn struct_body(
        &mut self,
        alloc: Global,
        tag: Option<&str>,
        members: Vec<(String, CType)>,
    ) -> Result<CType, Refusal>
        ensures { RulesAs (λ t. (type_of t, scope_of self.new)) result
            (declarations.struct_body (option_copied tag.entry) (map member_of members.items)
            (scope_of self.old)) }
    {
        let name = self.struct_name(alloc, tag)?;
        let ty = CType::Struct(name.clone()?);
        self.define(alloc, StructDef { name, members })?;
        self.count(tag)?;
        Ok(ty)
    }

    // The tag, or the name of a struct without one.
    fn struct_name(&self, alloc: Global, tag: Option<&str>) -> Result<String, AllocError>
        ensures { IfOk result
            (λ name. string_bytes name ≡ declarations.tag_name self.now.unnamed
            (option_copied tag.entry)) }
    {
        match tag {
            Some(tag) => String::from_str(alloc, tag),
            None => match self.unnamed.checked_add(1) {
                Some(number) => format!(in alloc; "${number}"),
                None => Err(AllocError),
            },
        }
    }

    // A struct without a tag counts.
    fn count(&mut self, tag: Option<&str>) -> Result<(), AllocError>
        ensures { OnOk result (scope_of self.new ≡ declarations.counted (option_copied tag.entry)
            (scope_of self.old)) }
    {
        if tag.is_some() {
            return Ok(());
        }
        match self.unnamed.checked_add(1) {
            Some(number) => {
                self.unnamed = number;
                Ok(())
            }
            None => Err(AllocError),
        }
    }

    // A struct with its body, behind the others.
    fn define(&mut self, alloc: Global, definition: StructDef) -> Result<(), Refusal>
        ensures { RulesAs (λ _. scope_of self.new) result
            (declarations.defined (struct_def_of definition) (scope_of self.old)) }
    {
        let name = definition.name.as_str();
        refuse(
            self.is_enum(name) || self.layout.definition(name).is_some(),
            TypeKind::Twice,
        )?;
        refuse(!self.layout.can_follow(&definition), TypeKind::Incomplete)?;
        match self.layout.define(alloc, definition) {
            Ok(()) => Ok(()),
            Err(LayoutFault::Large(_)) => Err(Refusal::Kind(TypeKind::Large)),
            Err(LayoutFault::Memory) => Err(Refusal::Memory),
        }
    }

    /// An enum with its enumerators: its tag is new.
    pub fn enum_body(&mut self, alloc: Global, tag: Option<&str>) -> Result<CType, Refusal>
        ensures { RulesAs (λ t. (type_of t, scope_of self.new)) result
            (declarations.enum_body (option_copied tag.entry) (scope_of self.old)) }
    {
        match tag {
            Some(tag) => self.tagged_enum_body(alloc, tag),
            None => Ok(CType::Int(IntType::Int)),
        }
    }

    fn tagged_enum_body(&mut self, alloc: Global, tag: &str) -> Result<CType, Refusal>
        ensures { RulesAs (λ t. (type_of t, scope_of self.new)) result
            (declarations.enum_body (Some tag.now) (scope_of self.old)) }
    {
        refuse(self.has_tag(tag), TypeKind::Twice)?;
        self.set_tag(alloc, tag, Tag::Enum)?;
        Ok(CType::Int(IntType::Int))
    }

    /// The value that is written for an enumerator is an int.
    pub fn enumerator_value(&self, value: Number) -> Result<Number, Refusal>
        ensures { RulesAs (λ n. n) result
            (declarations.enumerator_value value (scope_of self.now)) }
    {
        refuse(
            !is_of_type(self.layout.target(), IntType::Int, value),
            TypeKind::Mismatch,
        )?;
        Ok(value)
    }

    // Whether the innermost block has the name; outside functions a type may have it.
    fn has_name_here(&self, name: &str) -> bool
        ensures { result ≡ declarations.has_name_here (scope_of self.now) name.now }
    {
        self.is_declared_here(name) || self.blocks.len() == 1 && self.typedefs.contains_key(name)
    }

    /// An enumerator: its name is new in its block, and its value is an int. The value of the next one without a value.
    pub fn enumerator(
        &mut self,
        alloc: Global,
        name: &str,
        value: Number,
    ) -> Result<Number, Refusal>
        ensures { RulesAs (λ n. (n, scope_of self.new)) result
            (declarations.enumerator name.now value (scope_of self.old)) }
    {
        refuse(self.has_name_here(name), TypeKind::Twice)?;
        refuse(
            !is_of_type(self.layout.target(), IntType::Int, value),
            TypeKind::Mismatch,
        )?;
        self.add_enumerator(alloc, name, value)?;
        Ok(next_value(value)?)
    }

    fn add_enumerator(&mut self, alloc: Global, name: &str, value: Number) -> Result<(), AllocError>
        ensures { OnOk result
            (scope_of self.new ≡ declare name.now (Enumerator value) (scope_of self.old)) }
    {
        let name = String::from_str(alloc, name)?;
        self.declare(name, Entity::Enumerator(value))
    }
}

// The value of the next enumerator. One behind an int has room.
fn next_value(value: Number) -> Result<Number, AllocError>
    ensures { IfOk result (λ next. next ≡ value +ℤ pos 1) }
{
    number_op(NumberOp::Add, value, Number::new(false, 1)).ok_or(AllocError)
}
