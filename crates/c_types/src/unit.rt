//! Texts: their functions and declarations in order.

ghost use Rattle.std.specs.Prelude.{◌≡◌, ◌∷◌, [], ◌||◌, map, string_bytes, IfOk, IfErr, OnOk};
ghost use Rattle.std.specs.List.{filter_map};
ghost use Rattle.std.specs.HashSet.{contains_text};
ghost use Rattle.std.specs.Option.{option_map};
ghost use Rattle.c_values.specs.Name.{Name, is_among};
ghost use Rattle.c_values.specs.CodeTypes.{target_of, type_of};
ghost use Rattle.c_values.specs.Layout.{scalar_width};
ghost use Rattle.c_values.specs.Word as words;
ghost use Rattle.c_values.specs.CodeValue as values;
ghost use Rattle.c_values.specs.Value.{Bits};
ghost use Rattle.c_grammar.specs.CodeTree.{decl_of, unit_of as text_of};
ghost use Rattle.typing_rules.specs.CodeAnswers.{Answers};
ghost use Rattle.typing_scope.specs.CodeScope as scopes;
ghost use Rattle.typing_expressions.specs.CodeBehind.{behind};
ghost use Rattle.c_types.specs.CodeUnit.{IsBadText};
ghost use Rattle.typing_rules.specs.Unit as rules;
ghost use Rattle.c_lang.specs.CodeTyped.{function_of, unit_of};

use crate::functions::{function, note};
use c_grammar::tree::{Decl, Declarator, Unit};
use c_lang::tree::{TypedFn, TypedUnit};
use c_values::views::word;
use c_values::{CType, GlobalVar, Layout, Number, Target, Value, address_width, width_of, zeros};
use indexmap::IndexMap;
use std::alloc::{AllocError, Global};
use std::collections::HashSet;
use typing_declarations::globals::declaration;
use typing_rules::fault::TypeFault;
use typing_scope::file::GlobalSoFar;
use typing_scope::scope::Scope;

/// The typed unit of a text.
///
/// - `Bad` where a node isn't typed: the first such in postorder, each after its parts, and what is wrong with it.
/// - `Memory` where there is no memory.
pub fn check_unit(alloc: Global, target: Target, unit: &Unit) -> Result<TypedUnit, TypeFault>
    ensures typed { IfOk result
        (λ u. rules.IsTyped (target_of target) (text_of unit.now) (unit_of u)) }
    ensures first_bad { IfErr result (IsBadText (target_of target) (text_of unit.now)) }
{
    let with_body = bodies(alloc, unit.externals.as_slice())?;
    let mut scope = Scope::of_file(alloc, target, with_body)?;
    let functions = externals_typed(alloc, unit.externals.as_slice(), &mut scope)?;
    Ok(typed_unit(alloc, scope, functions)?)
}

// The names of the functions that have a body.
fn bodies(alloc: Global, externals: &[Decl]) -> Result<HashSet<String>, AllocError>
    ensures { IfOk result
        (λ names. (x : Name) → contains_text names x
        ≡ is_among x (filter_map rules.body_name (map decl_of externals.now))) }
{
    let mut names = HashSet::new(alloc);
    let mut rest = externals;
    while let Some((external, more)) = rest.split_first() {
        add_body_name(external, &mut names)?;
        rest = more;
    }
    Ok(names)
}

// Adds the name of a function that has a body.
fn add_body_name(external: &Decl, names: &mut HashSet<String>) -> Result<(), AllocError>
    ensures { OnOk result ((x : Name) → contains_text names.new x
        ≡ (is_among x (filter_map rules.body_name (decl_of external.now ∷ []))
        || contains_text names.old x)) }
{
    match body_name(external) {
        Some(name) => {
            note(name.clone()?, names)?;
            Ok(())
        }
        None => Ok(()),
    }
}

// The name of a function with a body.
fn body_name(external: &Decl) -> Option<&String>
    ensures { option_map (λ name. string_bytes name.now) result
        ≡ rules.body_name (decl_of external.now) }
{
    match external {
        Decl::Function(_, Declarator::Declare(_, _, name, _), _, _) => Some(name),
        Decl::Declaration(_, _, _) => None,
    }
}

// The functions of a text.
fn externals_typed(
    alloc: Global,
    externals: &[Decl],
    scope: &mut Scope,
) -> Result<Vec<TypedFn>, TypeFault>
    ensures { Answers (λ fs. map function_of fs.items) (scopes.scope_of scope.new) result
        (rules.externals (map decl_of externals.now) (scopes.scope_of scope.old)) }
{
    let mut functions = Vec::new(alloc);
    let mut rest = externals;
    while let Some((external, more)) = rest.split_first() {
        external_typed(alloc, external, scope, &mut functions)?;
        rest = more;
    }
    Ok(functions)
}

fn external_typed(
    alloc: Global,
    external: &Decl,
    scope: &mut Scope,
    functions: &mut Vec<TypedFn>,
) -> Result<(), TypeFault>
    ensures { Answers (λ _. map function_of functions.new.items) (scopes.scope_of scope.new) result
        (behind (map function_of functions.old.items) (rules.external (decl_of external.now))
        (scopes.scope_of scope.old)) }
{
    match external {
        Decl::Function(words, head, params, block) => {
            let typed = function(alloc, words, head, params.as_slice(), block, scope)?;
            functions.push(typed)?;
            Ok(())
        }
        Decl::Declaration(typedef, words, tops) => {
            declaration(alloc, words, tops.as_slice(), scope, typedef.is_some())
        }
    }
}

// The text is at its end.
fn typed_unit(alloc: Global, scope: Scope, functions: Vec<TypedFn>) -> Result<TypedUnit, AllocError>
    ensures { IfOk result
        (λ u. unit_of u ≡ rules.unit_in (map function_of functions.items) (scopes.scope_of scope)) }
{
    let Scope { layout, file, .. } = scope;
    let globals = global_vars(alloc, &layout, file.globals)?;
    Ok(TypedUnit {
        layout,
        globals,
        functions,
    })
}

// The globals in order, each with the value that it begins with.
fn global_vars(
    alloc: Global,
    layout: &Layout,
    globals: IndexMap<String, GlobalSoFar>,
) -> Result<Vec<GlobalVar>, AllocError>
    ensures { IfOk result
        (λ vars. map values.global_of vars.items
        ≡ map (rules.global_var layout.now) (map scopes.global_of globals.entries)) }
{
    let mut vars = Vec::new(alloc);
    for global in globals {
        vars.push(global_var(alloc, layout, global)?)?;
    }
    Ok(vars)
}

fn global_var(
    alloc: Global,
    layout: &Layout,
    global: (String, GlobalSoFar),
) -> Result<GlobalVar, AllocError>
    ensures { IfOk result
        (λ v. values.global_of v ≡ rules.global_var layout.now (scopes.global_of global)) }
{
    let (name, GlobalSoFar { ty, initial, .. }) = global;
    let initial = match initial {
        Some(n) => scalar_value(layout.target(), &ty, n),
        None => zeros(alloc, layout, &ty)?,
    };
    Ok(GlobalVar { name, ty, initial })
}

// A number as a value of a scalar type.
fn scalar_value(target: Target, ty: &CType, n: Number) -> Value
    ensures { values.value_of result
        ≡ Bits (words.word (scalar_width (target_of target) (type_of ty.now)) n) }
{
    match ty {
        CType::Int(integer) => Value::Word(word(width_of(target, *integer), n)),
        CType::Void | CType::Ptr(_) | CType::Struct(_) | CType::Array(_, _) => {
            Value::Word(word(address_width(target), n))
        }
    }
}
