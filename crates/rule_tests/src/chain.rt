//! The steps of the functions of a text, and whether the kernels accept them.

mod guards;
mod objects;
mod sizes;
mod sums;
mod values;

use acceptance::{
    are_results, check_exceptions, check_heaps, check_locals, check_words, gives_on_words,
    has_result,
};
use c_lex::tokens;
use c_parse::parse;
use c_types::check_unit;
use c_values::Target;
use expression_lang::{Level, Signature};
use monad_lang::Mon;
use program_sorts::are_kinds;
use simpl_gen::{default_modes, generate};
use simpl_lang::{Simpl, SimplFn, SimplUnit};
use std::alloc::{AllocError, Global};
use std::test::Fail;
use word_abstract::FunctionKinds;

/// At which levels the functions of a text are to be.
#[derive(Clone, Copy, Debug, PartialEq, Eq)]
pub(crate) enum Chosen {
    Defaults,
    Words,
    Bytes,
}

/// All three.
pub(crate) const ALL: [Chosen; 3] = [Chosen::Defaults, Chosen::Words, Chosen::Bytes];

// One name, or none.
fn named(alloc: Global, name: &str, is_there: bool) -> Result<Vec<String>, AllocError> {
    let mut names = Vec::new(alloc);
    if is_there {
        names.push(String::from_str(alloc, name)?)?;
    }
    Ok(names)
}

// What is generated for a text, its function `f` at a chosen level.
fn generated(alloc: Global, text: &str, target: Target, chosen: Chosen) -> Result<SimplUnit, Fail> {
    let tokens = tokens(alloc, text.as_bytes())?;
    let unit = check_unit(alloc, target, &parse(alloc, &tokens)?)?;
    let bytes = named(alloc, "f", chosen == Chosen::Bytes)?;
    let words = named(alloc, "f", chosen == Chosen::Words)?;
    let modes = default_modes(alloc, &unit, &bytes, &words)?;
    Ok(generate(alloc, &unit, &modes)?)
}

// The program on words of a flat command, where the kernels accept it: on typed heaps, but at level
// bytes.
fn on_words(
    alloc: Global,
    u: &SimplUnit,
    f: &SimplFn,
    s: &Signature,
    flat: &Simpl,
) -> Result<Option<Box<Mon>>, Fail> {
    let context = rule_local::Context {
        locals: &f.locals,
        parameters: &s.params,
    };
    let outputs = named(alloc, "$ret", s.result.is_some())?;
    let (local, tree) = local_lift::translate(alloc, flat, context, &outputs)?;
    if !has_result(f, s) || check_locals(u, f, s, flat, &local, &tree).is_err() {
        return Ok(None);
    }
    if f.level == Level::Bytes {
        return Ok(Some(local));
    }
    let (heap, tree) = heap_lift::translate(alloc, &local)?;
    if check_heaps(u, s, &local, &heap, &tree).is_err() {
        return Ok(None);
    }
    Ok(Some(heap))
}

// The last program of a function, where the kernels accept each step.
fn last(
    alloc: Global,
    u: &SimplUnit,
    f: &SimplFn,
    s: &Signature,
) -> Result<Option<Box<Mon>>, Fail> {
    let (flat, tree) = exception_elim::translate(alloc, &f.body)?;
    if check_exceptions(u, f, &flat, &tree).is_err() {
        return Ok(None);
    }
    let Some(left) = on_words(alloc, u, f, s, &flat)? else {
        return Ok(None);
    };
    let context = rule_word::Context {
        layout: &u.layout,
        globals: &u.globals,
        functions: &u.signatures,
    };
    let kinds = FunctionKinds {
        params: &s.params,
        result: s.result,
        locals: &f.locals,
    };
    let (right, tree) = word_abstract::translate(alloc, &left, f.level, context, kinds)?;
    if !gives_on_words(u, s, &left) || !are_kinds(&s.params) || !are_results(&u.signatures) {
        return Ok(None);
    }
    if check_words(u, s, f.level, &left, &right, &tree).is_err() {
        return Ok(None);
    }
    Ok(Some(right))
}

/// The program of a function before and after the step to typed heaps, and its unit.
#[derive(Drop)]
pub(crate) struct Sides {
    pub(crate) unit: SimplUnit,
    pub(crate) bytes: Box<Mon>,
    pub(crate) heaps: Box<Mon>,
}

/// Those of a text's first function, at the level of words.
pub(crate) fn sides_of(alloc: Global, text: &str) -> Result<Sides, Fail> {
    let unit = generated(alloc, text, Target::Ilp32, Chosen::Words)?;
    let (bytes, heaps) = both_programs(alloc, &unit)?;
    Ok(Sides { unit, bytes, heaps })
}

fn both_programs(alloc: Global, u: &SimplUnit) -> Result<(Box<Mon>, Box<Mon>), Fail> {
    let f = u.functions.first().ok_or("no function")?;
    let s = u.signatures.first().ok_or("no signature")?;
    let (flat, _) = exception_elim::translate(alloc, &f.body)?;
    let context = rule_local::Context {
        locals: &f.locals,
        parameters: &s.params,
    };
    let outputs = named(alloc, "$ret", s.result.is_some())?;
    let (bytes, _) = local_lift::translate(alloc, &flat, context, &outputs)?;
    let (heaps, _) = heap_lift::translate(alloc, &bytes)?;
    Ok((bytes, heaps))
}

/// Whether the kernels accept each step of each function of a text.
pub(crate) fn are_taken(
    alloc: Global,
    text: &str,
    target: Target,
    chosen: Chosen,
) -> Result<bool, Fail> {
    let u = generated(alloc, text, target, chosen)?;
    for (f, s) in u.functions.iter().zip(&u.signatures) {
        if last(alloc, &u, f, s)?.is_none() {
            return Ok(false);
        }
    }
    Ok(true)
}
