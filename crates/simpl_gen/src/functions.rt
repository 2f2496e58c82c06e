//! Functions and units.

ghost use Rattle.std.specs.Prelude.{◌≡◌, length, map, IfOk};
ghost use Rattle.std.specs.Option.{option_map};
ghost use Rattle.c_values.specs.Name.{Name};
ghost use Rattle.c_values.specs.Layout as layouts;
ghost use Rattle.c_values.specs.CodeTypes.{target_of, type_of};
ghost use Rattle.c_lang.specs.CodeTyped as typed;
ghost use Rattle.c_lang.specs.WellTyped.{IsWellTyped};
ghost use Rattle.expression_lang.specs.Sort as sorts;
ghost use Rattle.expression_lang.specs.CodeExpression.{level_of};
ghost use Rattle.expression_lang.specs.CodeSignature.{signature_of};
ghost use Rattle.simpl_lang.specs.Command.{Catch, Skip};
ghost use Rattle.simpl_lang.specs.CodeCommand.{simpl_of, simpl_fn_of, simpl_unit_of};
ghost use Rattle.generation.specs.Generate as rules;
ghost use Rattle.generation.specs.SameEnds.{HasEndsOf};
ghost use Rattle.c_levels.specs.CodeModes.{AreLevels};
ghost use Rattle.simpl_gen.specs.CodeAtLevels.{at_levels};

use crate::commands::{sequence, skip};
use crate::kinds::result_kind;
use crate::layout_copies::{copy_of_globals, copy_of_layout};
use crate::locals::{add_variables, locals};
use crate::statements::commands;
use c_lang::tree::{TypedFn, TypedUnit};
use c_levels::Modes;
use c_values::{CType, Layout, Target};
use expression_lang::{Exp, Level, Signature};
use simpl_lang::{Condition, GuardKind, Simpl, SimplFn, SimplUnit};
use std::alloc::{AllocError, Global};

/// The Simpl unit of a typed unit, at the levels of its functions. Of a well-typed unit it has
/// exactly the ends of the C functions, each watched by its level.
pub fn generate(alloc: Global, u: &TypedUnit, modes: &Modes) -> Result<SimplUnit, AllocError>
    requires { length modes.now.levels.items ≡ length u.now.functions.items }
    ensures generated { IfOk result
        (λ s. (levels : Name → sorts.Level) → AreLevels (typed.unit_of u.now) modes.now levels →
        simpl_unit_of s ≡ rules.generated (typed.unit_of u.now) levels) }
    ensures exact { IfOk result
        (λ s. (levels : Name → sorts.Level) → AreLevels (typed.unit_of u.now) modes.now levels →
        IsWellTyped (typed.unit_of u.now) →
        HasEndsOf (typed.unit_of u.now) levels (simpl_unit_of s)) }
{
    Ok(SimplUnit {
        layout: copy_of_layout(alloc, &u.layout)?,
        globals: copy_of_globals(alloc, &u.globals)?,
        functions: functions(alloc, &u.layout, &u.functions, &modes.levels)?,
        signatures: signatures(alloc, &u.layout, &u.functions, &modes.levels)?,
    })
}

// Each function at its level.
fn functions(
    alloc: Global,
    l: &Layout,
    functions: &[TypedFn],
    levels: &[Level],
) -> Result<Vec<SimplFn>, AllocError>
    ensures { IfOk result (λ fs. map simpl_fn_of fs.items
        ≡ at_levels (rules.function_of l.now) (map typed.function_of functions.now)
        (map level_of levels.now)) }
{
    let mut generated = Vec::new(alloc);
    let mut functions = functions;
    let mut levels = levels;
    'functions: while let Some((f, others)) = functions.split_first() {
        let Some((level, lower)) = levels.split_first() else {
            break;
        };
        generated.push(function(alloc, l, *level, f)?)?;
        functions = others;
        levels = lower;
    }
    Ok(generated)
}

// The function at its level.
fn function(alloc: Global, l: &Layout, level: Level, f: &TypedFn) -> Result<SimplFn, AllocError>
    ensures { IfOk result
        (λ g. simpl_fn_of g ≡ rules.function_of l.now (level_of level) (typed.function_of f.now)) }
{
    let name = f.name.clone()?;
    let body = commands(alloc, l, level, &f.body)?;
    let body = whole_body(alloc, &f.result, body)?;
    Ok(SimplFn {
        name,
        locals: locals(alloc, l.target(), level, f)?,
        level,
        body: Box::into_inner(body),
    })
}

// A body ends normally, and that of a function with a result doesn't reach its end.
fn whole_body(
    alloc: Global,
    result_type: &Option<CType>,
    s: Box<Simpl>,
) -> Result<Box<Simpl>, AllocError>
    ensures { IfOk result
        (λ b. simpl_of b.value ≡ rules.whole_body (option_map type_of result_type.now)
        (simpl_of s.value)) }
{
    match result_type {
        None => caught(alloc, s),
        Some(_) => {
            let condition = Condition {
                kind: GuardKind::Unreached,
                exp: Exp::Truth(false),
            };
            let end = Box::new(alloc, Simpl::Guard(condition, skip(alloc)?))?;
            let body = sequence(alloc, s, end)?;
            caught(alloc, body)
        }
    }
}

fn caught(alloc: Global, s: Box<Simpl>) -> Result<Box<Simpl>, AllocError>
    ensures { IfOk result (λ b. simpl_of b.value ≡ Catch (simpl_of s.value) Skip) }
{
    let nothing = skip(alloc)?;
    Ok(Box::new(alloc, Simpl::Catch(s, nothing))?)
}

// The signature of each function at its level.
fn signatures(
    alloc: Global,
    l: &Layout,
    functions: &[TypedFn],
    levels: &[Level],
) -> Result<Vec<Signature>, AllocError>
    ensures { IfOk result (λ ss. map signature_of ss.items
        ≡ at_levels (rules.signature_of l.now) (map typed.function_of functions.now)
        (map level_of levels.now)) }
{
    let mut signatures = Vec::new(alloc);
    let mut functions = functions;
    let mut levels = levels;
    'functions: while let Some((f, others)) = functions.split_first() {
        let Some((level, lower)) = levels.split_first() else {
            break;
        };
        signatures.push(signature(alloc, l.target(), *level, f)?)?;
        functions = others;
        levels = lower;
    }
    Ok(signatures)
}

// What the function takes and gives, at its level.
fn signature(
    alloc: Global,
    target: Target,
    level: Level,
    f: &TypedFn,
) -> Result<Signature, AllocError>
    ensures { IfOk result (λ s. (l : layouts.Layout) → l.target ≡ target_of target →
        signature_of s ≡ rules.signature_of l (level_of level) (typed.function_of f.now)) }
{
    let mut params = Vec::new(alloc);
    add_variables(target, level, &f.params, &mut params)?;
    Ok(Signature {
        name: f.name.clone()?,
        level,
        params,
        result: result_kind(target, level, &f.result),
    })
}
