//! What a word of a type says, where its parts are typed, and the stars around a type.

ghost use Rattle.std.specs.Prelude.{◌≡◌, OnOk, string_bytes};
ghost use Rattle.std.specs.Option.{option_copied, option_map, option_map_or};
ghost use Rattle.c_grammar.specs.Tree as tree;
ghost use Rattle.c_values.specs.CodeTypes.{type_of};
ghost use Rattle.typing_rules.specs.CodeAnswers.{Answers, RulesAs};
ghost use Rattle.typing_rules.specs.Checked as checked;
ghost use Rattle.typing_rules.specs.CodeWords.{part_of};
ghost use Rattle.typing_scope.specs.CodeFields.{members_of};
ghost use Rattle.typing_scope.specs.CodeScope.{scope_of};
ghost use Rattle.typing_rules.specs.Declarations as declarations;
ghost use Rattle.typing_rules.specs.Expressions as expressions;
ghost use Rattle.typing_rules.specs.declared.fault.TypeKind.TheVariants as kinds;

use crate::members::Fields;
use crate::scope::Scope;
use c_values::{CType, copy_of};
use std::alloc::{AllocError, Global};
use typing_rules::fault::{TypeFault, TypeKind};
use typing_rules::rulings::{Refusal, at_node, refuse};
use typing_rules::specifiers::{Part, pointers};
use typing_rules::types::points_to_array;

/// A name that a typedef made.
pub fn named_type(alloc: Global, at: usize, name: &str, scope: &Scope) -> Result<Part, TypeFault>
    ensures { Answers part_of (scope_of scope.now) result
        (expressions.word (tree.Named at name.now) (scope_of scope.now)) }
{
    at_node(at, part_named(alloc, name, scope))
}

fn part_named(alloc: Global, name: &str, scope: &Scope) -> Result<Part, Refusal>
    ensures { RulesAs part_of result
        (option_map_or (λ t. checked.Ruled (declarations.Type' t))
        ((scope_of scope.now).typedefs name.now) (checked.Refused kinds.Unknown)) }
{
    match scope.typedefs.get(name) {
        Some(ty) => Ok(Part::Type(copy_of(alloc, ty)?)),
        None => Err(Refusal::Kind(TypeKind::Unknown)),
    }
}

/// A struct by its tag.
pub fn struct_tag(alloc: Global, at: usize, tag: &str, scope: &mut Scope) -> Result<Part, TypeFault>
    ensures { Answers part_of (scope_of scope.new) result
        (expressions.word (tree.StructTag at tag.now) (scope_of scope.old)) }
{
    let ty = at_node(at, scope.struct_tag(alloc, tag))?;
    Ok(Part::Type(ty))
}

/// The first mention of a struct is its body's, if there is none before.
pub fn mention(alloc: Global, tag: &Option<String>, scope: &mut Scope) -> Result<(), AllocError>
    ensures { OnOk result
        (scope_of scope.new ≡ declarations.mention (option_map string_bytes tag.now)
        (scope_of scope.old)) }
{
    scope.mention(alloc, text_of(tag))
}

/// A struct with its members.
pub fn struct_body(
    alloc: Global,
    at: usize,
    tag: &Option<String>,
    fields: Fields,
    scope: &mut Scope,
) -> Result<Part, TypeFault>
    ensures { Answers part_of (scope_of scope.new) result
        (checked.then
        (checked.declares at (declarations.struct_body (option_map string_bytes tag.now)
        (members_of fields)) (scope_of scope.old))
        (λ t. checked.pure (declarations.Type' t))) }
{
    let fields = fields.into_members(alloc)?;
    let ty = at_node(at, scope.struct_body(alloc, text_of(tag), fields))?;
    Ok(Part::Type(ty))
}

/// An enum by its tag.
pub fn enum_tag(at: usize, tag: &str, scope: &Scope) -> Result<Part, TypeFault>
    ensures { Answers part_of (scope_of scope.now) result
        (expressions.word (tree.EnumTag at tag.now) (scope_of scope.now)) }
{
    let ty = at_node(at, scope.enum_tag(tag))?;
    Ok(Part::Type(ty))
}

/// An enum with its enumerators.
pub fn enum_body(
    alloc: Global,
    at: usize,
    tag: &Option<String>,
    scope: &mut Scope,
) -> Result<Part, TypeFault>
    ensures { Answers part_of (scope_of scope.new) result
        (checked.then
        (checked.declares at (declarations.enum_body (option_map string_bytes tag.now))
        (scope_of scope.old))
        (λ t. checked.pure (declarations.Type' t))) }
{
    let ty = at_node(at, scope.enum_body(alloc, text_of(tag)))?;
    Ok(Part::Type(ty))
}

// The text of a tag.
fn text_of(tag: &Option<String>) -> Option<&str>
    ensures { option_copied result ≡ option_map string_bytes tag.now }
{
    match tag {
        Some(tag) => Some(tag.as_str()),
        None => None,
    }
}

/// Stars around a type; there is no pointer to an array.
pub fn starred(alloc: Global, stars: usize, ty: CType) -> Result<CType, Refusal>
    ensures { RulesAs type_of result (expressions.starred stars (type_of ty)) }
{
    let ty = pointers(alloc, stars, ty)?;
    refuse(points_to_array(&ty), TypeKind::OutOfSubset)?;
    Ok(ty)
}
