//! Parameters: scalars; an array among them is a pointer.

ghost use Rattle.std.specs.Prelude.{◌≡◌, ◌∷◌, ◌++◌, [], map, string_bytes, IfOk, OnOk};
ghost use Rattle.typing_rules.specs.CodeAnswers.{Answers, RulesAs};
ghost use Rattle.std.specs.Option.{option_map};
ghost use Rattle.c_grammar.specs.CodeTree.{bracket_of, param_of, words_of};
ghost use Rattle.c_values.specs.CodeTypes.{type_of};
ghost use Rattle.typing_declarations.specs.CodeParameters.{name_alone, parameter_at, parameter_of, place_and_name};
ghost use Rattle.typing_scope.specs.CodeScope.{scope_of};
ghost use Rattle.typing_rules.specs.Functions as rules;
ghost use Rattle.c_lang.specs.CodeTyped.{variable_of};

use c_grammar::tree::{Bracket, Param};
use c_lang::tree::Variable;
use c_values::{CType, copy_of};
use std::alloc::{AllocError, Global};
use typing_expressions::{base, integer_constant};
use typing_rules::fault::{TypeFault, TypeKind};
use typing_rules::rulings::{Refusal, at_node, refuse};
use typing_rules::specifiers::{pointers, words_start};
use typing_rules::types::{Form, form_of, formed, is_scalar, points_to_array};
use typing_scope::declarators::{is_incomplete, is_large, length_at};
use typing_scope::scope::{Entity, Scope};

/// A parameter, maybe without a name.
#[derive(Debug, Drop)]
pub struct Parameter {
    pub name: Option<String>,
    pub ty: CType,
}

/// The parameters of a function, which are named where it has a body. They are declared in the innermost block.
pub(crate) fn parameters(
    alloc: Global,
    params: &[Param],
    scope: &mut Scope,
    has_body: bool,
) -> Result<Vec<Parameter>, TypeFault>
    ensures { Answers (λ ps. map parameter_of ps.items) (scope_of scope.new) result
        (rules.parameters has_body (map param_of params.now) (scope_of scope.old)) }
{
    let mut typed = Vec::new(alloc);
    let mut rest = params;
    while let Some((param, more)) = rest.split_first() {
        typed.push(typed_parameter(alloc, param, scope, has_body)?)?;
        rest = more;
    }
    Ok(typed)
}

#[tactic(auto, using(typing_expressions::proofs::Steps::answers_behind))]
fn typed_parameter(
    alloc: Global,
    param: &Param,
    scope: &mut Scope,
    has_body: bool,
) -> Result<Parameter, TypeFault>
    ensures { Answers parameter_of (scope_of scope.new) result
        (rules.parameter has_body (param_of param.now) (scope_of scope.old)) }
{
    let base = base(alloc, &param.words, scope)?;
    let ty = pointers(alloc, param.stars.len(), base.ty)?;
    let ty = bracketed(alloc, &param.bracket, scope, ty)?;
    declared_parameter(alloc, param, ty, scope, has_body)
}

// A parameter of a type, by its rule.
fn declared_parameter(
    alloc: Global,
    param: &Param,
    ty: CType,
    scope: &mut Scope,
    has_body: bool,
) -> Result<Parameter, TypeFault>
    ensures { Answers parameter_of (scope_of scope.new) result (parameter_at
        (rules.parameter_start (words_of param.now.words) param.now.stars.items
        (place_and_name param.now.name) (bracket_of param.now.bracket))
        (record { has_body = has_body; name = name_alone param.now.name; type = type_of ty })
        (scope_of scope.old)) }
{
    let parameter = at_node(
        parameter_start(param),
        parameter_of(alloc, &param.name, ty, &*scope, has_body),
    )?;
    add_parameter(alloc, &parameter, scope)?;
    Ok(parameter)
}

/// Declares a parameter that has a name.
pub fn add_parameter(
    alloc: Global,
    parameter: &Parameter,
    scope: &mut Scope,
) -> Result<(), AllocError>
    ensures { OnOk result (scope_of scope.new ≡ rules.add_parameter (parameter_of parameter.now)
        (scope_of scope.old)) }
{
    if let Some(name) = &parameter.name {
        let own = name.clone()?;
        let ty = copy_of(alloc, &parameter.ty)?;
        scope.declare(name.clone()?, Entity::Local(own, ty))?;
    }
    Ok(())
}

// The type that a parameter is written with. An array without a length is written as one of one element.
fn bracketed(
    alloc: Global,
    bracket: &Bracket,
    scope: &mut Scope,
    ty: CType,
) -> Result<CType, TypeFault>
    ensures { Answers type_of (scope_of scope.new) result
        (rules.bracketed (type_of ty) (bracket_of bracket.now) (scope_of scope.old)) }
{
    match bracket {
        Bracket::None => Ok(ty),
        Bracket::Open(_) => Ok(CType::Array(Box::new(alloc, ty)?, 1)),
        Bracket::Length(_, e) => {
            let length = length_at(integer_constant(alloc, e, scope)?);
            Ok(CType::Array(Box::new(alloc, ty)?, length))
        }
    }
}

// The offset of a parameter: its first star, or its name, or its bracket; one with none of them begins with its words.
fn parameter_start(param: &Param) -> usize
    ensures { result ≡ rules.parameter_start (words_of param.now.words) param.now.stars.items
        (place_and_name param.now.name) (bracket_of param.now.bracket) }
{
    match param.stars.first() {
        Some(star) => *star,
        None => match &param.name {
            Some((at, _)) => *at,
            None => bracket_start(param),
        },
    }
}

// Of a parameter without stars and without a name.
fn bracket_start(param: &Param) -> usize
    ensures { result ≡ rules.parameter_start (words_of param.now.words) [] None
        (bracket_of param.now.bracket) }
{
    match &param.bracket {
        Bracket::Open(at) | Bracket::Length(at, _) => *at,
        Bracket::None => words_start(&param.words),
    }
}

// The rule of a parameter: a scalar under a new name.
fn parameter_of(
    alloc: Global,
    name: &Option<(usize, String)>,
    written: CType,
    scope: &Scope,
    has_body: bool,
) -> Result<Parameter, Refusal>
    ensures { RulesAs parameter_of result (rules.parameter_rule
        (record { has_body = has_body; name = name_alone name.now; type = type_of written })
        (scope_of scope.now)) }
{
    let name = name_of(name)?;
    refuse(is_declared(scope, &name), TypeKind::Twice)?;
    refuse(is_incomplete(&scope.layout, &written), TypeKind::Incomplete)?;
    let is_large = is_large(&scope.layout, &written);
    let ty = adjusted(alloc, written)?;
    refuse(
        points_to_array(&ty) || !is_scalar(form_of(&ty)) || has_body && name.is_none(),
        TypeKind::OutOfSubset,
    )?;
    refuse(is_large, TypeKind::Large)?;
    Ok(Parameter { name, ty })
}

fn name_of(name: &Option<(usize, String)>) -> Result<Option<String>, AllocError>
    ensures { IfOk result (λ x. option_map string_bytes x ≡ name_alone name.now) }
{
    match name {
        None => Ok(None),
        Some((_, name)) => Ok(Some(name.clone()?)),
    }
}

fn is_declared(scope: &Scope, name: &Option<String>) -> bool
    ensures { result ≡ rules.is_declared (scope_of scope.now) (option_map string_bytes name.now) }
{
    match name {
        None => false,
        Some(name) => scope.is_declared_here(name.as_str()),
    }
}

// An array as a parameter is a pointer.
fn adjusted(alloc: Global, ty: CType) -> Result<CType, AllocError>
    ensures { IfOk result (λ t. type_of t ≡ rules.adjusted (type_of ty)) }
{
    match form_of(&ty) {
        Form::Array(element, _) => formed(alloc, Form::Pointer(element)),
        Form::Integer(_) | Form::Void | Form::Pointer(_) | Form::Struct(_) => Ok(ty),
    }
}

/// The parameters that have a name.
#[tactic(auto, using(crate::proofs::NamedParameters::variables_behind))]
pub fn variables(alloc: Global, params: &[Parameter]) -> Result<Vec<Variable>, AllocError>
    ensures { IfOk result
        (λ variables. map variable_of variables.items
        ≡ rules.variables (map parameter_of params.now)) }
{
    let mut variables = Vec::new(alloc);
    for param in params {
        add_variable(alloc, param, &mut variables)?;
    }
    Ok(variables)
}

// Adds a parameter that has a name.
fn add_variable(
    alloc: Global,
    param: &Parameter,
    variables: &mut Vec<Variable>,
) -> Result<(), AllocError>
    ensures { OnOk result (map variable_of variables.new.items ≡ map variable_of variables.old.items
        ++ rules.variables (parameter_of param.now ∷ [])) }
{
    match &param.name {
        None => Ok(()),
        Some(name) => {
            let name = name.clone()?;
            let ty = copy_of(alloc, &param.ty)?;
            variables.push(Variable { name, ty })?;
            Ok(())
        }
    }
}
