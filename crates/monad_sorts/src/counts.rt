//! How many values programs give.

ghost use Rattle.std.specs.Prelude.{◌≡◌, Option, None, map};
ghost use Rattle.std.specs.Option.{option_map};
ghost use Rattle.c_values.specs.Name.{Name};
ghost use Rattle.expression_lang.specs.Sort as plain;
ghost use Rattle.expression_lang.specs.Signature.{signature};
ghost use Rattle.expression_lang.specs.CodeExpression.{kind_of};
ghost use Rattle.monad_lang.specs.Sorted.{signature_of};
ghost use Rattle.monad_lang.specs.CodeProgram.{mon_of, final_fn_of};
ghost use Rattle.monad_sorts.specs.CodeTold.{told_at, call_told, giver_of};
ghost use Rattle.monad_sorts.specs.CodeSorted.{count_of, call_count, result_kind};
ghost use Rattle.monad_sorts.specs.CodeInside.{setting_in, functions_in, scalar_by, no_names};

use crate::parts::giver_of;
use crate::settings::{Functions, Setting};
use crate::tell::Told;
use expression_lang::Kind;
use monad_lang::{FinalFn, Mon};
use program_sorts::signature;

/// The function of a unit with the name.
pub(crate) fn function<'a>(functions: &'a [FinalFn], name: &str) -> Option<&'a FinalFn>
    ensures { option_map (λ f. signature_of (final_fn_of f.now)) result
        ≡ signature (map signature_of (map final_fn_of functions.now)) name.now }
{
    'functions: for f in functions {
        if f.name.as_str() == name {
            return Some(f);
        }
    }
    None
}

/// How many values a program gives.
pub(crate) fn count_of(m: &Mon, setting: Setting<'_>) -> usize
    ensures { result ≡ count_of (setting_in setting.entry no_names).functions (mon_of m.now) }
{
    let mut rest = m;
    'along: while let Some(giver) = giver_of(rest) {
        rest = giver;
    }
    own_count(rest, setting)
}

// The same of a program that has none of a part's values.
fn own_count(m: &Mon, setting: Setting<'_>) -> usize
    requires { giver_of (mon_of m.now) ≡ None }
    ensures { result ≡ count_of (setting_in setting.entry no_names).functions (mon_of m.now) }
{
    match m {
        Mon::Ret(values) => values.len(),
        Mon::Loop(starts, _, _, _) => starts.len(),
        Mon::Call(function, _) => result_count(function.as_str(), setting),
        Mon::Pick(_) => 1,
        Mon::Guard(_) | Mon::Write(_, _) => 0,
        _ => unreachable!(),
    }
}

// How many values a call gives.
fn result_count(name: &str, setting: Setting<'_>) -> usize
    ensures { let functions = (setting_in setting.entry no_names).functions in
        result ≡ call_count (signature functions name.now) }
{
    match setting.functions {
        Functions::Programs(functions) => match function(functions, name) {
            Some(f) => if f.results.is_empty() { 0 } else { 1 },
            None => 0,
        },
        Functions::Signatures(signatures) => match signature(signatures, name) {
            Some(s) => if s.result.is_none() { 0 } else { 1 },
            None => 0,
        },
    }
}

// The kind of what a call gives.
fn result_kind(name: &str, functions: Functions<'_>) -> Option<Kind>
    ensures { option_map kind_of result
        ≡ result_kind (signature (functions_in functions.entry) name.now) }
{
    match functions {
        Functions::Programs(functions) => match function(functions, name)?.results.first() {
            Some(kind) => Some(*kind),
            None => None,
        },
        Functions::Signatures(signatures) => signature(signatures, name)?.result,
    }
}

/// What is told of a value of a call.
pub(crate) fn tell_result<'a>(name: &str, position: usize, setting: Setting<'_>) -> Told<'a>
    ensures { let t = setting_in setting.entry no_names in
        (names : Name → Option plain.Scalar) → scalar_by names result
        ≡ told_at (call_told t.sort_for (signature t.functions name.now)) position }
{
    if position > 0 {
        return Told::Known(None);
    }
    let Some(kind) = result_kind(name, setting.functions) else {
        return Told::Known(None);
    };
    Told::Known(Some(setting.phase.scalar(kind)))
}
