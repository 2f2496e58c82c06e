//! Declarations outside functions: globals, prototypes and typedefs.

ghost use Rattle.std.specs.Prelude.{◌≡◌, false, map, string_bytes, Some, IfOk, OnOk};
ghost use Rattle.std.specs.Option.{option_copied, option_map};
ghost use Rattle.c_values.specs.CodeTypes.{type_of};
ghost use Rattle.c_grammar.specs.CodeTree.{exp_of, param_of, top_of, words_of};
ghost use Rattle.typing_rules.specs.CodeAnswers.{Answers, RulesAs};
ghost use Rattle.typing_rules.specs.CodeWords.{base_of};
ghost use Rattle.typing_scope.specs.CodeDeclared.{declared_of};
ghost use Rattle.typing_declarations.specs.CodeParameters.{parameter_of};
ghost use Rattle.typing_scope.specs.CodeScope.{entity_of, scope_of};
ghost use Rattle.typing_declarations.specs.CodeGlobals.{global_at, globals_of, initialised_with};
ghost use Rattle.typing_rules.specs.Checked.{in_block};
ghost use Rattle.typing_rules.specs.File.{global_named, with_global};
ghost use Rattle.typing_rules.specs.Functions as functions;
ghost use Rattle.typing_rules.specs.Globals as rules;
ghost use Rattle.c_lang.specs.CodeTyped.{expr_of};

use crate::parameters::Parameter;
use crate::signatures::{add_function, is_function, parameters_in_block, result_type};
use c_grammar::tree::{CExp, Param, Top, Words};
use c_lang::tree::Expr;
use c_values::{CType, Number, copy_of};
use indexmap::IndexMap;
use std::alloc::{AllocError, Global};
use typing_expressions::{base, declarator, first, value};
use typing_rules::casts::has_cast;
use typing_rules::constants::constant_value;
use typing_rules::fault::{TypeFault, TypeKind};
use typing_rules::operators::converted;
use typing_rules::rulings::{Refusal, at_node, refuse};
use typing_rules::specifiers::Base;
use typing_rules::types::{form_of, is_scalar, points_to_array};
use typing_scope::declarators::{Declared, has_incomplete_elements, is_incomplete, is_large};
use typing_scope::file::GlobalSoFar;
use typing_scope::scope::{Entity, Scope};

/// A declaration outside functions.
pub fn declaration(
    alloc: Global,
    words: &Words,
    tops: &[Top],
    scope: &mut Scope,
    is_typedef: bool,
) -> Result<(), TypeFault>
    ensures { Answers (λ _. tt) (scope_of scope.new) result
        (rules.declaration is_typedef (words_of words.now) (map top_of tops.now)
        (scope_of scope.old)) }
{
    let base = base(alloc, words, scope)?;
    tops_declared(alloc, tops, scope, is_typedef, &base)
}

fn tops_declared(
    alloc: Global,
    tops: &[Top],
    scope: &mut Scope,
    is_typedef: bool,
    base: &Base,
) -> Result<(), TypeFault>
    ensures { Answers (λ _. tt) (scope_of scope.new) result
        (rules.tops is_typedef (base_of base.now) (map top_of tops.now) (scope_of scope.old)) }
{
    let mut rest = tops;
    while let Some((top, more)) = rest.split_first() {
        top_declared(alloc, top, scope, is_typedef, base)?;
        rest = more;
    }
    Ok(())
}

fn top_declared(
    alloc: Global,
    top: &Top,
    scope: &mut Scope,
    is_typedef: bool,
    base: &Base,
) -> Result<(), TypeFault>
    ensures { Answers (λ _. tt) (scope_of scope.new) result
        (rules.top is_typedef (base_of base.now) (top_of top.now) (scope_of scope.old)) }
{
    let head = declarator(alloc, &top.declarator, scope, &base.ty)?;
    let params = prototype_parameters(alloc, &top.parameters, scope)?;
    if is_typedef {
        return typedef(alloc, head, params, &top.value, scope);
    }
    match params {
        None => global(alloc, head, &top.value, scope, base.is_extern),
        Some(params) => prototype(alloc, head, params, &top.value, scope),
    }
}

fn prototype_parameters(
    alloc: Global,
    params: &Option<Vec<Param>>,
    scope: &mut Scope,
) -> Result<Option<Vec<Parameter>>, TypeFault>
    ensures { Answers (λ ps. option_map (λ qs. map parameter_of qs.items) ps)
        (scope_of scope.new) result
        (rules.prototype_parameters (option_map (λ ps. map param_of ps.items) params.now)
        (scope_of scope.old)) }
{
    match params {
        None => Ok(None),
        Some(params) => Ok(Some(parameters_without_body(alloc, params.as_slice(), scope)?)),
    }
}

// The parameters of a function that has no body here: they may be without names.
fn parameters_without_body(
    alloc: Global,
    params: &[Param],
    scope: &mut Scope,
) -> Result<Vec<Parameter>, TypeFault>
    ensures { Answers (λ qs. map parameter_of qs.items) (scope_of scope.new) result
        (in_block (functions.parameters false (map param_of params.now)) (scope_of scope.old)) }
{
    parameters_in_block(alloc, params, scope, false)
}

fn typedef(
    alloc: Global,
    head: Declared,
    params: Option<Vec<Parameter>>,
    value: &Option<CExp>,
    scope: &mut Scope,
) -> Result<(), TypeFault>
    ensures { Answers (λ _. tt) (scope_of scope.new) result
        (rules.typedef (declared_of head) (option_map (λ qs. map parameter_of qs.items) params)
        (option_map exp_of value.now) (scope_of scope.old)) }
{
    let at = head.at;
    at_node(at, is_typedef(&head, params.is_some(), &*scope))?;
    add_typedef(head, scope)?;
    uninitialised(alloc, value, scope, at)
}

// Lets a name stand for a type.
fn add_typedef(head: Declared, scope: &mut Scope) -> Result<(), AllocError>
    ensures { OnOk result (scope_of scope.new ≡ rules.add_typedef (string_bytes head.name)
        (type_of head.ty) (scope_of scope.old)) }
{
    let _ = scope.typedefs.insert(head.name, head.ty)?;
    Ok(())
}

// The rule of the declarator of a typedef. One of a function has no place in the subset.
fn is_typedef(head: &Declared, of_function: bool, scope: &Scope) -> Result<(), Refusal>
    ensures { RulesAs (λ _. type_of head.now.ty) result
        (rules.typedef_rule of_function (declared_of head.now) (scope_of scope.now)) }
{
    let name = head.name.as_str();
    refuse(
        scope.typedefs.contains_key(name) || scope.is_declared_here(name),
        TypeKind::Twice,
    )?;
    refuse(
        has_incomplete_elements(&scope.layout, &head.ty),
        TypeKind::Incomplete,
    )?;
    refuse(
        points_to_array(&head.ty) || of_function,
        TypeKind::OutOfSubset,
    )?;
    refuse(is_large(&scope.layout, &head.ty), TypeKind::Large)
}

fn prototype(
    alloc: Global,
    head: Declared,
    params: Vec<Parameter>,
    value: &Option<CExp>,
    scope: &mut Scope,
) -> Result<(), TypeFault>
    ensures { Answers (λ _. tt) (scope_of scope.new) result
        (rules.prototype (declared_of head) (map parameter_of params.items)
        (option_map exp_of value.now) (scope_of scope.old)) }
{
    let at = head.at;
    at_node(at, is_function(&head, params.as_slice(), &*scope))?;
    let Declared { name, ty, .. } = head;
    let result = result_type(ty);
    add_function(alloc, name.as_str(), &result, params.as_slice(), scope)?;
    uninitialised(alloc, value, scope, at)
}

// What is no global has no initialiser.
fn uninitialised(
    alloc: Global,
    initialiser: &Option<CExp>,
    scope: &mut Scope,
    at: usize,
) -> Result<(), TypeFault>
    ensures { Answers (λ _. tt) (scope_of scope.new) result
        (rules.uninitialised at (option_map exp_of initialiser.now) (scope_of scope.old)) }
{
    match initialiser {
        None => Ok(()),
        Some(e) => {
            let _ = value(alloc, e, scope)?;
            at_node(at, Err(Refusal::Kind(TypeKind::Mismatch)))
        }
    }
}

fn global(
    alloc: Global,
    head: Declared,
    value: &Option<CExp>,
    scope: &mut Scope,
    is_extern: bool,
) -> Result<(), TypeFault>
    ensures { Answers (λ _. tt) (scope_of scope.new) result
        (rules.global is_extern (declared_of head) (option_map exp_of value.now)
        (scope_of scope.old)) }
{
    at_node(head.at, is_global(&head, is_extern, &*scope))?;
    add_global(alloc, &head, scope, is_extern)?;
    match value {
        None => Ok(()),
        Some(e) => initialised(alloc, &head, e, scope),
    }
}

// The rule of the declarator of a global: its declarations have one type, and one at most is without `extern`.
fn is_global(head: &Declared, is_extern: bool, scope: &Scope) -> Result<(), Refusal>
    ensures { RulesAs (λ _. type_of head.now.ty) result
        (rules.global_rule is_extern (declared_of head.now) (scope_of scope.now)) }
{
    let name = head.name.as_str();
    refuse(
        scope.typedefs.contains_key(name)
            || !has_type(&head.ty, scope.entity(name))
            || !is_extern && is_defined(scope, name),
        TypeKind::Twice,
    )?;
    refuse(is_incomplete(&scope.layout, &head.ty), TypeKind::Incomplete)?;
    refuse(points_to_array(&head.ty), TypeKind::OutOfSubset)?;
    refuse(is_large(&scope.layout, &head.ty), TypeKind::Large)
}

// Whether a global of the type may be declared where its name stands for this.
fn has_type(ty: &CType, entity: Option<&Entity>) -> bool
    ensures { result ≡ rules.has_type (type_of ty.now)
        (option_map entity_of (option_copied entity.entry)) }
{
    match entity {
        None => true,
        Some(Entity::Global(other)) => other == ty,
        Some(
            Entity::Enumerator(_) | Entity::Function(_, _) | Entity::Local(_, _) | Entity::Hidden,
        ) => false,
    }
}

// The global of a name so far.
fn global_so_far<'a>(scope: &'a Scope, name: &str) -> Option<&'a GlobalSoFar>
    ensures { option_map (global_at name.now) (option_copied result)
        ≡ global_named (scope_of scope.now).file.globals name.now }
{
    scope.file.globals.get(name)
}

// Whether a declaration of the global without `extern` stood.
fn is_defined(scope: &Scope, name: &str) -> bool
    ensures { result ≡ rules.is_defined (global_named (scope_of scope.now).file.globals name.now) }
{
    match global_so_far(scope, name) {
        None => false,
        Some(global) => global.is_defined,
    }
}

// Whether the global has an initialiser.
fn is_initialised(scope: &Scope, name: &str) -> bool
    ensures { result ≡ rules.is_initialised
        (global_named (scope_of scope.now).file.globals name.now) }
{
    match global_so_far(scope, name) {
        None => false,
        Some(global) => global.initial.is_some(),
    }
}

// Declares a global, or declares it again.
fn add_global(
    alloc: Global,
    head: &Declared,
    scope: &mut Scope,
    is_extern: bool,
) -> Result<(), AllocError>
    ensures { OnOk result
        (scope_of scope.new ≡ rules.add_global is_extern (string_bytes head.now.name)
        (type_of head.now.ty) (scope_of scope.old)) }
{
    let global = declared_global(alloc, head, &*scope, is_extern)?;
    put_global(head.name.clone()?, global, scope)?;
    let ty = copy_of(alloc, &head.ty)?;
    scope.declare(head.name.clone()?, Entity::Global(ty))
}

// A global behind one of its declarations.
fn declared_global(
    alloc: Global,
    head: &Declared,
    scope: &Scope,
    is_extern: bool,
) -> Result<GlobalSoFar, AllocError>
    ensures { IfOk result
        (λ g. global_at (string_bytes head.now.name) g
        ≡ rules.declared_global is_extern (string_bytes head.now.name) (type_of head.now.ty)
        (global_named (scope_of scope.now).file.globals (string_bytes head.now.name))) }
{
    match global_so_far(scope, head.name.as_str()) {
        None => Ok(GlobalSoFar {
            ty: copy_of(alloc, &head.ty)?,
            is_defined: !is_extern,
            initial: None,
        }),
        Some(before) => Ok(GlobalSoFar {
            ty: copy_of(alloc, &before.ty)?,
            is_defined: before.is_defined || !is_extern,
            initial: before.initial,
        }),
    }
}

// Puts a global in the place of that of its name, or behind the others.
fn put_global(name: String, global: GlobalSoFar, scope: &mut Scope) -> Result<(), AllocError>
    ensures { OnOk result
        (scope_of scope.new ≡ rules.put_global (global_at (string_bytes name) global)
        (scope_of scope.old)) }
{
    put(name, global, &mut scope.file.globals)?;
    Ok(())
}

fn put(
    name: String,
    global: GlobalSoFar,
    globals: &mut IndexMap<String, GlobalSoFar>,
) -> Result<(), AllocError>
    ensures { OnOk result (globals_of globals.new
        ≡ with_global (global_at (string_bytes name) global) (globals_of globals.old)) }
{
    let _ = globals.insert(name, global)?;
    Ok(())
}

// A constant expression, as an expression.
fn constant_expression(alloc: Global, e: &CExp, scope: &mut Scope) -> Result<Expr, TypeFault>
    ensures { Answers expr_of (scope_of scope.new) result
        (rules.constant_expression (exp_of e.now) (scope_of scope.old)) }
{
    let typed = value(alloc, e, scope)?;
    at_node(
        first(e),
        refuse(
            constant_value(&scope.layout, &typed).is_none(),
            TypeKind::Mismatch,
        ),
    )?;
    scope.note(has_cast(&typed));
    Ok(typed)
}

// The initialiser of a global: a constant.
fn initialised(alloc: Global, head: &Declared, e: &CExp, scope: &mut Scope) -> Result<(), TypeFault>
    ensures { Answers (λ _. tt) (scope_of scope.new) result
        (rules.initialised head.now.at (string_bytes head.now.name) (type_of head.now.ty)
        (Some (exp_of e.now)) (scope_of scope.old)) }
{
    let e = constant_expression(alloc, e, scope)?;
    let value = at_node(head.at, initial_value(alloc, head, e, &*scope))?;
    set_initial(alloc, &head.name, value, scope)?;
    Ok(())
}

// The rule of an initialiser: it is the only one, and goes to the type of its global.
fn initial_value(alloc: Global, head: &Declared, e: Expr, scope: &Scope) -> Result<Number, Refusal>
    ensures { RulesAs (λ n. n) result
        (rules.initial_rule (string_bytes head.now.name) (type_of head.now.ty) (expr_of e)
        (scope_of scope.now)) }
{
    refuse(is_initialised(scope, head.name.as_str()), TypeKind::Twice)?;
    refuse(!is_scalar(form_of(&head.ty)), TypeKind::Mismatch)?;
    let e = converted(alloc, &scope.layout, form_of(&head.ty), e)?;
    match constant_value(&scope.layout, &e) {
        Some(value) => Ok(value),
        None => Err(Refusal::Kind(TypeKind::Mismatch)),
    }
}

fn set_initial(
    alloc: Global,
    name: &String,
    value: Number,
    scope: &mut Scope,
) -> Result<(), AllocError>
    ensures { OnOk result (scope_of scope.new ≡ rules.set_initial (string_bytes name.now) value
        (scope_of scope.old)) }
{
    match with_initial(alloc, name.as_str(), value, &*scope)? {
        None => Ok(()),
        Some(global) => put_global(name.clone()?, global, scope),
    }
}

// The global of a name with its value.
fn with_initial(
    alloc: Global,
    name: &str,
    value: Number,
    scope: &Scope,
) -> Result<Option<GlobalSoFar>, AllocError>
    ensures { IfOk result
        (λ g. option_map (global_at name.now) g
        ≡ option_map (initialised_with value)
        (global_named (scope_of scope.now).file.globals name.now)) }
{
    match global_so_far(scope, name) {
        None => Ok(None),
        Some(global) => Ok(Some(GlobalSoFar {
            ty: copy_of(alloc, &global.ty)?,
            is_defined: global.is_defined,
            initial: Some(value),
        })),
    }
}
