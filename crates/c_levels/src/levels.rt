//! The levels that functions have by default.

ghost use Rattle.std.specs.Prelude.{◌≡◌, length, map, string_bytes, IfOk};
ghost use Rattle.std.specs.HashSet.{contains_text};
ghost use Rattle.c_values.specs.Name.{Name, is_among};
ghost use Rattle.c_lang.specs.CodeTyped as typed;
ghost use Rattle.c_lang.specs.WellTyped.{IsWellTyped};
ghost use Rattle.expression_lang.specs.Sort as sorts;
ghost use Rattle.expression_lang.specs.CodeExpression.{level_of};
ghost use Rattle.c_meaning.specs.Levels.{AreDefaultLevels};
ghost use Rattle.c_levels.specs.CodeCalls.{is_start};
ghost use Rattle.c_levels.specs.CodeModes.{AreLevels, default_level, default_levels};

use crate::called::{callers, calls};
use crate::casts::casts;
use crate::modes::Modes;
use crate::spreading::spread;
use c_lang::tree::{TypedFn, TypedUnit};
use expression_lang::Level;
use std::alloc::{AllocError, Global};
use std::collections::HashSet;

/// The level of each function by default, and by the names for `bytes` and for `words`. It takes
/// time in proportion to the unit: from each function that works on bytes its callers are marked
/// once.
pub fn default_modes(
    alloc: Global,
    u: &TypedUnit,
    bytes: &[String],
    words: &[String],
) -> Result<Modes, AllocError>
    ensures one_each { IfOk result (λ m. length m.levels.items ≡ length u.now.functions.items) }
    ensures defaults { IfOk result (λ m. (levels : Name → sorts.Level) →
        IsWellTyped (typed.unit_of u.now) → AreLevels (typed.unit_of u.now) m levels →
        AreDefaultLevels (typed.unit_of u.now) (map string_bytes bytes.now)
        (map string_bytes words.now) levels) }
{
    let bytes = names(alloc, bytes)?;
    let words = names(alloc, words)?;
    let start = own_marks(alloc, &u.functions, &bytes)?;
    let calls = calls(alloc, &u.functions)?;
    let callers = callers(alloc, &calls)?;
    let marks = spread(alloc, &u.functions, &callers, start)?;
    levels(alloc, &u.functions, &marks, &words)
}

// The names in a list, to be looked up.
fn names(alloc: Global, list: &[String]) -> Result<HashSet<String>, AllocError>
    ensures { IfOk result
        (λ s. (q : Name) → contains_text s q ≡ is_among q (map string_bytes list.now)) }
{
    let mut names = HashSet::new(alloc);
    let mut rest = list;
    'rest: while let Some((first, others)) = rest.split_first() {
        names.insert(first.clone()?)?;
        rest = others;
    }
    Ok(names)
}

// Whether each function works on bytes by itself: it casts, or it is chosen.
fn own_marks(
    alloc: Global,
    functions: &[TypedFn],
    chosen: &HashSet<String>,
) -> Result<Vec<bool>, AllocError>
    ensures { IfOk result
        (λ ms. ms.items ≡ map (is_start (λ q. contains_text chosen.now q))
        (map typed.function_of functions.now)) }
{
    let mut marks = Vec::new(alloc);
    for f in functions {
        marks.push(is_start(f, chosen))?;
    }
    Ok(marks)
}

fn is_start(f: &TypedFn, chosen: &HashSet<String>) -> bool
    ensures { result ≡ is_start (λ q. contains_text chosen.now q) (typed.function_of f.now) }
{
    casts(f) || chosen.contains(f.name.as_str())
}

// The levels of functions by their marks, and by the names for `words`.
fn levels(
    alloc: Global,
    functions: &[TypedFn],
    marks: &[bool],
    words: &HashSet<String>,
) -> Result<Modes, AllocError>
    ensures { IfOk result (λ m. map level_of m.levels.items
        ≡ default_levels
        (λ q. contains_text words.now q) (map typed.function_of functions.now) marks.now) }
{
    let mut levels = Vec::new(alloc);
    let mut functions = functions;
    let mut marks = marks;
    'functions: while let Some((f, others)) = functions.split_first() {
        let Some((mark, later)) = marks.split_first() else {
            break;
        };
        levels.push(level(*mark, f.name.as_str(), words))?;
        functions = others;
        marks = later;
    }
    Ok(Modes { levels })
}

fn level(on_bytes: bool, name: &str, words: &HashSet<String>) -> Level
    ensures { level_of result ≡ default_level (λ q. contains_text words.now q) on_bytes name.now }
{
    if on_bytes {
        Level::Bytes
    } else if words.contains(name) {
        Level::Words
    } else {
        Level::Numbers
    }
}
