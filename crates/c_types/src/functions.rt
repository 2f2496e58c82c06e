//! Functions with their bodies.

ghost use Rattle.std.specs.Prelude.{◌≡◌, ◌∷◌, ◌++◌, [], true, map, string_bytes, IfOk, OnOk};
ghost use Rattle.c_lang.specs.Typed.{variable_names};
ghost use Rattle.std.specs.HashSet.{contains_text};
ghost use Rattle.c_values.specs.Name.{with_name};
ghost use Rattle.std.specs.Option.{option_map};
ghost use Rattle.c_values.specs.CodeTypes.{type_of};
ghost use Rattle.c_grammar.specs.CodeTree.{declarator_of, items_of, param_of, words_of};
ghost use Rattle.typing_rules.specs.CodeAnswers.{Answers, RulesAs};
ghost use Rattle.typing_scope.specs.CodeDeclared.{declared_of};
ghost use Rattle.typing_declarations.specs.CodeParameters.{parameter_of};
ghost use Rattle.typing_scope.specs.CodeScope.{scope_of};
ghost use Rattle.typing_rules.specs.Functions as rules;
ghost use Rattle.c_lang.specs.CodeTyped.{function_of, statements_of, variable_of};

use c_grammar::tree::{Declarator, Items, Param, Words};
use c_lang::tree::{Statements, TypedFn, Variable};
use c_values::{CType, copy_of};
use std::alloc::{AllocError, Global};
use std::collections::HashSet;
use typing_declarations::parameters::{Parameter, add_parameter, variables};
use typing_declarations::signatures::{
    add_function, is_function, parameters_in_block, result_type,
};
use typing_expressions::{base, declarator};
use typing_rules::fault::{TypeFault, TypeKind};
use typing_rules::progress::Progress;
use typing_rules::rulings::{Refusal, at_node, refuse};
use typing_scope::declarators::Declared;
use typing_scope::scope::Scope;
use typing_statements::{Around, items};

/// A function with its body: its parameters, its declarator, its block.
pub(crate) fn function(
    alloc: Global,
    words: &Words,
    head: &Declarator,
    params: &[Param],
    block: &Items,
    scope: &mut Scope,
) -> Result<TypedFn, TypeFault>
    ensures { Answers function_of (scope_of scope.new) result
        (rules.function (words_of words.now) (declarator_of head.now) (map param_of params.now)
        (items_of block.now) (scope_of scope.old)) }
{
    scope.folds_cast = false;
    let base = base(alloc, words, scope)?;
    let head = declarator(alloc, head, scope, &base.ty)?;
    let params = parameters_in_block(alloc, params, scope, true)?;
    at_node(head.at, is_body(&head, params.as_slice(), &*scope))?;
    let Declared { name, ty, .. } = head;
    let result = result_type(ty);
    add_function(alloc, name.as_str(), &result, params.as_slice(), scope)?;
    add_body(name.clone()?, scope)?;
    let body = body(alloc, block, scope, &result, params.as_slice())?;
    Ok(finished(alloc, name, result, params.as_slice(), body, &*scope)?)
}

// The function at the end of its body.
fn finished(
    alloc: Global,
    name: String,
    ty: Option<CType>,
    params: &[Parameter],
    body: Statements,
    scope: &Scope,
) -> Result<TypedFn, AllocError>
    ensures { IfOk result
        (λ f. function_of f ≡ rules.function_of (string_bytes name) (option_map type_of ty)
        (map parameter_of params.now) (statements_of body) (scope_of scope.now)) }
{
    Ok(TypedFn {
        name,
        result: ty,
        params: variables(alloc, params)?,
        locals: copy_of_variables(alloc, scope.progress.locals.as_slice())?,
        folds_cast: scope.folds_cast,
        body,
    })
}

// The rule of the declarator of a function with a body, of which there is one.
fn is_body(head: &Declared, params: &[Parameter], scope: &Scope) -> Result<(), Refusal>
    ensures { RulesAs (λ _. rules.result_type (type_of head.now.ty)) result
        (rules.body_rule (declared_of head.now) (map parameter_of params.now)
        (scope_of scope.now)) }
{
    refuse(
        scope.file.with_body_so_far.contains(head.name.as_str()),
        TypeKind::Twice,
    )?;
    is_function(head, params, scope)
}

// Notes that the function has its body.
fn add_body(name: String, scope: &mut Scope) -> Result<(), AllocError>
    ensures { OnOk result
        (scope_of scope.new ≡ rules.add_body (string_bytes name) (scope_of scope.old)) }
{
    note(name, &mut scope.file.with_body_so_far)?;
    Ok(())
}

/// Adds a name to others.
pub(crate) fn note(name: String, names: &mut HashSet<String>) -> Result<(), AllocError>
    ensures { OnOk result ((λ q. contains_text names.new q) ≡ with_name (string_bytes name) true
        (λ q. contains_text names.old q)) }
{
    names.insert(name)?;
    Ok(())
}

// The block of a function.
fn body(
    alloc: Global,
    block: &Items,
    scope: &mut Scope,
    ty: &Option<CType>,
    params: &[Parameter],
) -> Result<Statements, TypeFault>
    ensures { Answers statements_of (scope_of scope.new) result
        (rules.body (option_map type_of ty.now) (map parameter_of params.now) (items_of block.now)
        (scope_of scope.old)) }
{
    scope.open_block(alloc)?;
    enter(alloc, params, scope)?;
    let around = Around {
        result: ty,
        in_loop: false,
        in_switch: false,
    };
    let statements = items(alloc, block, scope, around)?;
    scope.close_block();
    Ok(statements)
}

// The body begins: nothing has a number or is declared but the parameters.
fn enter(alloc: Global, params: &[Parameter], scope: &mut Scope) -> Result<(), AllocError>
    ensures { OnOk result (scope_of scope.new ≡ rules.enter (map parameter_of params.now)
        (scope_of scope.old)) }
{
    let names = names_of(alloc, params)?;
    scope.progress = Progress::at_start(alloc, names);
    declare_parameters(alloc, params, scope)?;
    Ok(())
}

// Declares the parameters that have a name.
#[tactic(auto, using(typing_declarations::proofs::NamedParameters::declared_behind))]
fn declare_parameters(
    alloc: Global,
    params: &[Parameter],
    scope: &mut Scope,
) -> Result<(), AllocError>
    ensures { OnOk result (scope_of scope.new ≡ rules.add_parameters (map parameter_of params.now)
        (scope_of scope.old)) }
{
    for param in params {
        add_parameter(alloc, param, scope)?;
    }
    Ok(())
}

// The names of the parameters that have one.
fn names_of(alloc: Global, params: &[Parameter]) -> Result<Vec<String>, AllocError>
    ensures { IfOk result
        (λ names. map string_bytes names.items
        ≡ variable_names (rules.variables (map parameter_of params.now))) }
{
    let mut names = Vec::new(alloc);
    for param in params {
        add_name(param, &mut names)?;
    }
    Ok(names)
}

// Adds the name of a parameter that has one.
fn add_name(param: &Parameter, names: &mut Vec<String>) -> Result<(), AllocError>
    ensures { OnOk result (map string_bytes names.new.items ≡ map string_bytes names.old.items
        ++ variable_names (rules.variables (parameter_of param.now ∷ []))) }
{
    match &param.name {
        None => Ok(()),
        Some(name) => {
            names.push(name.clone()?)?;
            Ok(())
        }
    }
}

// A copy of variables.
fn copy_of_variables(alloc: Global, variables: &[Variable]) -> Result<Vec<Variable>, AllocError>
    ensures { IfOk result (λ copy. map variable_of copy.items ≡ map variable_of variables.now) }
{
    let mut copy = Vec::new(alloc);
    for variable in variables {
        copy.push(copy_of_variable(alloc, variable)?)?;
    }
    Ok(copy)
}

fn copy_of_variable(alloc: Global, variable: &Variable) -> Result<Variable, AllocError>
    ensures { IfOk result (λ copy. variable_of copy ≡ variable_of variable.now) }
{
    Ok(Variable {
        name: variable.name.clone()?,
        ty: copy_of(alloc, &variable.ty)?,
    })
}
