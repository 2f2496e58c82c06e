//! The declarations of functions: their parameters, their results, and whether they agree.

ghost use Rattle.std.specs.Prelude.{◌≡◌, map, IfOk, OnOk};
ghost use Rattle.std.specs.Option.{option_copied, option_map};
ghost use Rattle.c_values.specs.CodeTypes.{type_of};
ghost use Rattle.c_grammar.specs.CodeTree.{param_of};
ghost use Rattle.typing_rules.specs.CodeAnswers.{Answers, RulesAs};
ghost use Rattle.typing_rules.specs.Checked.{in_block};
ghost use Rattle.typing_scope.specs.CodeDeclared.{declared_of};
ghost use Rattle.typing_declarations.specs.CodeParameters.{parameter_of};
ghost use Rattle.typing_scope.specs.CodeScope.{entity_of, scope_of};
ghost use Rattle.typing_rules.specs.Functions as rules;

use crate::parameters::{Parameter, parameters};
use c_grammar::tree::Param;
use c_values::{CType, copy_of};
use std::alloc::{AllocError, Global};
use typing_rules::fault::{TypeFault, TypeKind};
use typing_rules::rulings::{Refusal, refuse};
use typing_rules::types::{form_of, is_scalar, points_to_array};
use typing_scope::declarators::{Declared, has_incomplete_elements};
use typing_scope::results::copy_of_result;
use typing_scope::scope::{Entity, Scope};

/// Parameters in a block of their own.
pub fn parameters_in_block(
    alloc: Global,
    params: &[Param],
    scope: &mut Scope,
    has_body: bool,
) -> Result<Vec<Parameter>, TypeFault>
    ensures { Answers (λ ps. map parameter_of ps.items) (scope_of scope.new) result
        (in_block (rules.parameters has_body (map param_of params.now)) (scope_of scope.old)) }
{
    scope.open_block(alloc)?;
    let params = parameters(alloc, params, scope, has_body)?;
    scope.close_block();
    Ok(params)
}

/// The rule of the declarator of a function: its declarations agree, and its result is a scalar or none.
pub fn is_function(head: &Declared, params: &[Parameter], scope: &Scope) -> Result<(), Refusal>
    ensures { RulesAs (λ _. rules.result_type (type_of head.now.ty)) result
        (rules.function_rule (declared_of head.now) (map parameter_of params.now)
        (scope_of scope.now)) }
{
    let name = head.name.as_str();
    refuse(
        scope.typedefs.contains_key(name) || !agrees(scope.entity(name), &head.ty, params),
        TypeKind::Twice,
    )?;
    refuse(
        has_incomplete_elements(&scope.layout, &head.ty),
        TypeKind::Incomplete,
    )?;
    refuse(!is_result(&head.ty), TypeKind::OutOfSubset)
}

// Whether a function of the type may be declared where its name stands for this.
fn agrees(entity: Option<&Entity>, written: &CType, params: &[Parameter]) -> bool
    ensures { result ≡ rules.agrees (option_map entity_of (option_copied entity.entry))
        (rules.result_type (type_of written.now)) (rules.types (map parameter_of params.now)) }
{
    match entity {
        None => true,
        Some(Entity::Function(other, types)) => {
            same_result(other, written) && same_types(types.as_slice(), params)
        }
        Some(Entity::Enumerator(_) | Entity::Global(_) | Entity::Local(_, _) | Entity::Hidden) =>
            false,
    }
}

fn same_result(declared: &Option<CType>, written: &CType) -> bool
    ensures { result ≡ rules.same_result (option_map type_of declared.now)
        (rules.result_type (type_of written.now)) }
{
    match declared {
        None => matches!(written, CType::Void),
        Some(ty) => !matches!(written, CType::Void) && ty == written,
    }
}

fn same_types(types: &[CType], params: &[Parameter]) -> bool
    ensures { result ≡ rules.same_types (map type_of types.now)
        (rules.types (map parameter_of params.now)) }
{
    let mut types = types;
    let mut params = params;
    while let Some((ty, more_types)) = types.split_first() {
        match params.split_first() {
            Some((param, more_params)) => {
                if *ty != param.ty {
                    return false;
                }
                types = more_types;
                params = more_params;
            }
            None => return false,
        }
    }
    params.is_empty()
}

// Whether a type is `void` or a scalar.
fn is_result(ty: &CType) -> bool
    ensures { result ≡ rules.is_result (type_of ty.now) }
{
    matches!(ty, CType::Void) || is_scalar(form_of(ty)) && !points_to_array(ty)
}

/// A function's result: `void` is none.
pub fn result_type(ty: CType) -> Option<CType>
    ensures { option_map type_of result ≡ rules.result_type (type_of ty) }
{
    if matches!(&ty, CType::Void) {
        None
    } else {
        Some(ty)
    }
}

/// Declares a function.
pub fn add_function(
    alloc: Global,
    name: &str,
    ty: &Option<CType>,
    params: &[Parameter],
    scope: &mut Scope,
) -> Result<(), AllocError>
    ensures { OnOk result
        (scope_of scope.new ≡ rules.add_function name.now (option_map type_of ty.now)
        (rules.types (map parameter_of params.now)) (scope_of scope.old)) }
{
    let result = copy_of_result(alloc, ty)?;
    let types = types_of(alloc, params)?;
    scope.declare(
        String::from_str(alloc, name)?,
        Entity::Function(result, types),
    )
}

fn types_of(alloc: Global, params: &[Parameter]) -> Result<Vec<CType>, AllocError>
    ensures { IfOk result (λ ts. map type_of ts.items ≡ rules.types (map parameter_of params.now)) }
{
    let mut types = Vec::new(alloc);
    for param in params {
        types.push(copy_of(alloc, &param.ty)?)?;
    }
    Ok(types)
}
