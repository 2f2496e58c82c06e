//! Why functions work on bytes.

ghost use Rattle.std.specs.Prelude.{◌≡◌, ◌<◌, Some, None, length, map, min, if◌then◌else◌};
ghost use Rattle.c_values.specs.Name.{Name};
ghost use Rattle.c_lang.specs.Typed as C;
ghost use Rattle.c_lang.specs.CodeTyped as typed;
ghost use Rattle.c_lang.specs.WellTyped.{IsWellTyped};
ghost use Rattle.expression_lang.specs.Sort as sorts;
ghost use Rattle.expression_lang.specs.CodeExpression.{level_of};
ghost use Rattle.c_meaning.specs.Levels.{is_on_bytes};
ghost use Rattle.c_meaning.specs.Levels as rules;
ghost use Rattle.c_levels.specs.CodeCalls.{function_names};
ghost use Rattle.c_levels.specs.CodeModes.{AreLevels, IsAt};
ghost use Rattle.c_levels.specs.CodeReason.{IsReason, position_from, first_position};

use crate::casts::casts;
use crate::modes::{Modes, Reason};
use c_lang::tree::{Groups, Statement, Statements, TypedFn, TypedUnit};
use expression_lang::Level;

/// The first of the reasons that holds of the function at a position. Of the functions that it
/// calls, the first in its text that works on bytes counts.
pub fn reason(u: &TypedUnit, modes: &Modes, f: u32) -> Reason
    requires position { f < length u.now.functions.items }
    ensures { (levels : Name → sorts.Level) (g : C.TypedFn) →
        IsWellTyped (typed.unit_of u.now) → AreLevels (typed.unit_of u.now) modes.now levels →
        IsAt (typed.unit_of u.now).functions f g →
        IsReason (function_names (typed.unit_of u.now)) result (rules.reason levels g) }
{
    let function = &u.functions[f as usize];
    if casts(function) {
        return Reason::Cast;
    }
    match first_in(&function.body, &u.functions, &modes.levels) {
        Some(k) => Reason::Calls(told(k)),
        None => Reason::Chosen,
    }
}

// The position as it is told.
fn told(k: usize) -> u32
    ensures { result ≡ min k 4294967295 }
{
    if k < 0xffff_ffff { k as u32 } else { u32::MAX }
}

// The position of the first function that a statement calls and that works on bytes.
#[cycle(first)]
#[tactic(auto, using(crate::proofs::FirstPosition::of_both))]
fn first(s: &Statement, functions: &[TypedFn], levels: &[Level]) -> Option<usize>
    ensures { result ≡ first_position (map typed.function_of functions.now)
        (map level_of levels.now) (rules.callees (typed.statement_of s.now)) }
{
    match s {
        Statement::Empty
        | Statement::Declare(_, _)
        | Statement::Assign(_, _)
        | Statement::Break
        | Statement::Continue
        | Statement::ReturnNothing
        | Statement::Return(_) => None,
        Statement::Block(statements) => first_in(statements, functions, levels),
        Statement::Call(_, function, _, _) => position(function.as_str(), functions, levels),
        Statement::If(_, a, b) => {
            if let Some(k) = first(a, functions, levels) {
                return Some(k);
            }
            first(b, functions, levels)
        }
        Statement::While(_, body) | Statement::DoWhile(_, body, _) => {
            first(body, functions, levels)
        }
        Statement::For(init, _, step, body) => {
            if let Some(k) = first_in(init, functions, levels) {
                return Some(k);
            }
            if let Some(k) = first(step, functions, levels) {
                return Some(k);
            }
            first(body, functions, levels)
        }
        Statement::Switch(_, _, _, groups) => first_of(groups, functions, levels),
    }
}

#[cycle(first)]
#[tactic(auto, using(crate::proofs::FirstPosition::of_both))]
fn first_in(statements: &Statements, functions: &[TypedFn], levels: &[Level]) -> Option<usize>
    ensures { result ≡ first_position (map typed.function_of functions.now)
        (map level_of levels.now) (rules.callees_in (typed.statements_of statements.now)) }
{
    match statements {
        Statements::None => None,
        Statements::Next(s, rest) => {
            if let Some(k) = first(s, functions, levels) {
                return Some(k);
            }
            first_in(rest, functions, levels)
        }
    }
}

#[cycle(first)]
#[tactic(auto, using(crate::proofs::FirstPosition::of_both))]
fn first_of(groups: &Groups, functions: &[TypedFn], levels: &[Level]) -> Option<usize>
    ensures { result ≡ first_position (map typed.function_of functions.now)
        (map level_of levels.now) (rules.callees_of (typed.groups_of groups.now)) }
{
    match groups {
        Groups::None => None,
        Groups::Next(_, _, body, rest) => {
            if let Some(k) = first_in(body, functions, levels) {
                return Some(k);
            }
            first_of(rest, functions, levels)
        }
    }
}

// The position of the function of a name, where it works on bytes.
fn position(name: &str, functions: &[TypedFn], levels: &[Level]) -> Option<usize>
    ensures { result ≡ position_from 0 (map typed.function_of functions.now)
        (map level_of levels.now) name.now }
{
    let mut k = 0;
    let mut functions = functions;
    let mut levels = levels;
    'functions: while let Some((f, others)) = functions.split_first() {
        let Some((level, lower)) = levels.split_first() else {
            return None;
        };
        if f.name.as_str() == name {
            return on_bytes(k, *level);
        }
        k += 1;
        functions = others;
        levels = lower;
    }
    None
}

// The position, where the level is that of bytes.
fn on_bytes(k: usize, level: Level) -> Option<usize>
    ensures { result ≡ (if is_on_bytes (level_of level) then Some k else None) }
{
    match level {
        Level::Bytes => Some(k),
        Level::Words | Level::Numbers => None,
    }
}
