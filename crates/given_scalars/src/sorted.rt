//! What a program gives, by the scalars of its values.

ghost use Rattle.std.specs.Prelude.{◌≡◌, ◌<◌, ◌&&◌, ◌∷◌, [], map, string_bytes, IfOk, Option, Some};
ghost use Rattle.std.specs.Option.{option_map};
ghost use Rattle.c_values.specs.Name.{Name, are_distinct};
ghost use Rattle.expression_lang.specs.Sort as plain;
ghost use Rattle.expression_lang.specs.Sort.{sort_of_kind, is_kind, is_truth};
ghost use Rattle.expression_lang.specs.Sorted.{names_with, same_scalars, scalar_in, program_sort, scalars_of, fits_place, call_scalars, result_scalars};
ghost use Rattle.expression_lang.specs.Signature.{signature};
ghost use Rattle.expression_lang.specs.CodeExpression.{exp_of, kind_of};
ghost use Rattle.expression_lang.specs.CodeSort.{scalar_of};
ghost use Rattle.monad_lang.specs.CodeProgram.{mon_of, place_of, start_of};
ghost use Rattle.monad_lang.specs.Run.{start_names};
ghost use Rattle.monad_lang.specs.Sorted.{scalars_given, start_scalars, place_sort, where_fits, are_scalars, one_for_each};
ghost use Rattle.program_sorts.specs.CodeSorts.{sort_for};
ghost use Rattle.expression_steps.specs.CodePoint.{names_of, scalars_of as bound_scalars};
ghost use Rattle.given_scalars.specs.CodeScalars.{scalars_in, setting_over, setting_around, setting_within, IsNoBind};

use crate::around::Around;
use crate::sequences::split;
use crate::unit::Unit;
use expression_lang::{Exp, Kind, Scalar, Scope, Sort, are_distinct};
use expression_steps::Binding;
use monad_lang::{Mon, Place, Start, is_started};
use program_sorts::{
    Phase, fits_global, fits_object, is_kind, is_test, may_take, program_sort, signature,
};
use std::alloc::{AllocError, Global};

// The names with more, each with its scalar.
#[tactic(auto, using(crate::proofs::PointLaws::names_push))]
fn bindings_also(
    names: Vec<Binding>,
    more: &[String],
    scalars: &[Scalar],
) -> Result<Vec<Binding>, AllocError>
    ensures { IfOk result (λ new. (others : Name → Option plain.Scalar) →
        names_with (names_of new.items) (bound_scalars new.items) others
        ≡ names_with (map string_bytes more.now) (map scalar_of scalars.now)
        (names_with (names_of names.items) (bound_scalars names.items) others)) }
{
    let mut all = names;
    let mut rest = more;
    let mut left = scalars;
    'names: while let Some((name, names)) = rest.split_first() {
        let Some((scalar, others)) = left.split_first() else {
            return Ok(all);
        };
        all.push(Binding {
            name: name.clone()?,
            scalar: *scalar,
        })?;
        rest = names;
        left = others;
    }
    Ok(all)
}

// The scalar of an expression.
fn scalar_of<N: Scope>(e: &Exp, names: &Around<'_, N>, unit: Unit<'_>) -> Option<Scalar>
    ensures { option_map scalar_of result
        ≡ scalar_in (program_sort (setting_around (N.scalars) names.now unit.entry).scope
        (exp_of e.now)) }
{
    match program_sort(e, names, unit.layout, unit.globals) {
        Some(Sort::Of(scalar)) => Some(scalar),
        Some(Sort::Parts(_)) | None => None,
    }
}

// The scalars of expressions.
#[tactic(auto, using(crate::proofs::ScalarLaws::one_more, crate::proofs::ScalarLaws::none_there, crate::proofs::ScalarLaws::all_listed))]
fn scalars_of<N: Scope>(
    alloc: Global,
    exps: &[Exp],
    names: &Around<'_, N>,
    unit: Unit<'_>,
) -> Result<Option<Vec<Scalar>>, AllocError>
    ensures { IfOk result (λ found. option_map scalars_in found
        ≡ scalars_of (setting_around (N.scalars) names.now unit.entry).scope
        (map exp_of exps.now)) }
{
    let mut scalars = Vec::new(alloc);
    let mut rest = exps;
    'along: while let Some((first, others)) = rest.split_first() {
        let Some(scalar) = scalar_of(first, names, unit) else {
            return Ok(None);
        };
        scalars.push(scalar)?;
        rest = others;
    }
    Ok(Some(scalars))
}

// The scalars that names begin with.
#[tactic(auto, using(crate::proofs::ScalarLaws::one_more, crate::proofs::ScalarLaws::none_there, crate::proofs::ScalarLaws::all_listed))]
fn start_scalars<N: Scope>(
    alloc: Global,
    starts: &[Start],
    names: &Around<'_, N>,
    unit: Unit<'_>,
) -> Result<Option<Vec<Scalar>>, AllocError>
    ensures { IfOk result (λ found. option_map scalars_in found
        ≡ start_scalars (setting_around (N.scalars) names.now unit.entry).scope
        (map start_of starts.now)) }
{
    let mut scalars = Vec::new(alloc);
    let mut rest = starts;
    'along: while let Some((first, others)) = rest.split_first() {
        let Some(scalar) = scalar_of(&first.exp, names, unit) else {
            return Ok(None);
        };
        scalars.push(scalar)?;
        rest = others;
    }
    Ok(Some(scalars))
}

fn same_scalars(a: &[Scalar], b: &[Scalar]) -> bool
    ensures { result ≡ same_scalars (map scalar_of a.now) (map scalar_of b.now) }
{
    let mut left = a;
    let mut right = b;
    'along: while let Some((first, rest)) = left.split_first() {
        let Some((other, others)) = right.split_first() else {
            return false;
        };
        if *first != *other {
            return false;
        }
        left = rest;
        right = others;
    }
    right.is_empty()
}

// The scalars, where a test holds and others are the same.
fn where_same(holds: bool, scalars: Vec<Scalar>, others: Option<Vec<Scalar>>) -> Option<Vec<Scalar>>
    ensures { option_map scalars_in result
        ≡ where_fits (holds && are_scalars (scalars_in scalars) (option_map scalars_in others))
        (Some (scalars_in scalars)) }
{
    match others {
        Some(others) if holds && same_scalars(&scalars, &others) => Some(scalars),
        _ => None,
    }
}

fn none_where(alloc: Global, holds: bool) -> Option<Vec<Scalar>>
    ensures { option_map scalars_in result
        ≡ where_fits holds (Some []) }
{
    if holds { Some(Vec::new(alloc)) } else { None }
}

fn fits<N: Scope>(place: &Place, value: &Exp, names: &Around<'_, N>, unit: Unit<'_>) -> bool
    ensures { let g = (setting_around (N.scalars) names.now unit.entry).scope in
        result
        ≡ fits_place (place_sort g (place_of place.now)) (program_sort g (exp_of value.now)) }
{
    match place {
        Place::Stored(ty, pointer, path) => {
            fits_object(ty, pointer, path, value, names, unit.layout, unit.globals)
        }
        Place::Written(ty, pointer, path) => {
            fits_object(ty, pointer, path, value, names, unit.layout, unit.globals)
        }
        Place::Global(name, path) => {
            fits_global(name.as_str(), path, value, names, unit.layout, unit.globals)
        }
    }
}

// What a call gives.
fn called<N: Scope>(
    alloc: Global,
    function: &str,
    arguments: &[Exp],
    names: &Around<'_, N>,
    unit: Unit<'_>,
) -> Result<Option<Vec<Scalar>>, AllocError>
    ensures { IfOk result (λ found. let t = setting_around (N.scalars) names.now unit.entry in
        option_map scalars_in found
        ≡ call_scalars t.sort_for (signature t.functions function.now) (scalars_of t.scope
        (map exp_of arguments.now))) }
{
    let Some(callee) = signature(unit.functions, function) else {
        return Ok(None);
    };
    if !may_take(
        &callee.params,
        arguments,
        unit.phase,
        names,
        unit.layout,
        unit.globals,
    ) {
        return Ok(None);
    }
    Ok(Some(scalars_of_kinds(alloc, callee.result, unit.phase)?))
}

fn scalars_of_kinds(
    alloc: Global,
    kind: Option<Kind>,
    phase: Phase,
) -> Result<Vec<Scalar>, AllocError>
    ensures { IfOk result (λ scalars. scalars_in scalars
        ≡ result_scalars (sort_for phase) (option_map kind_of kind)) }
{
    let mut scalars = Vec::new(alloc);
    if let Some(kind) = kind {
        scalars.push(phase.scalar(kind))?;
    }
    Ok(scalars)
}

// Any value of a kind.
fn picked(alloc: Global, kind: Kind) -> Result<Option<Vec<Scalar>>, AllocError>
    ensures { IfOk result (λ found. option_map scalars_in found
        ≡ where_fits (is_kind (kind_of kind)) (Some (sort_of_kind (kind_of kind) ∷ []))) }
{
    if !is_kind(kind) {
        return Ok(None);
    }
    let mut scalars = Vec::new(alloc);
    scalars.push(Phase::OnNumbers.scalar(kind))?;
    Ok(Some(scalars))
}

/// The scalars of what a well-sorted program gives, with these names around it; none where it isn't
/// well-sorted.
pub fn scalars_given<N: Scope>(
    alloc: Global,
    m: &Mon,
    names: &N,
    unit: Unit<'_>,
) -> Result<Option<Vec<Scalar>>, AllocError>
    ensures { IfOk result (λ found. option_map scalars_in found
        ≡ scalars_given (setting_over unit.entry (N.scalars names.now)) (mon_of m.now)) }
{
    let around = Around::Outer(names);
    scalars_around(alloc, m, &around, unit)
}

// The same, where some names are the program's own. It goes along the last programs by a loop,
// since a text may have long sequences.
#[cycle(sorted)]
#[tactic(auto, using(crate::proofs::SortedLaws::bind_none))]
fn scalars_around<N: Scope>(
    alloc: Global,
    m: &Mon,
    names: &Around<'_, N>,
    unit: Unit<'_>,
) -> Result<Option<Vec<Scalar>>, AllocError>
    ensures { IfOk result (λ found. option_map scalars_in found
        ≡ scalars_given (setting_around (N.scalars) names.now unit.entry) (mon_of m.now)) }
{
    let mut bound = Vec::new(alloc);
    let mut rest = m;
    'along: loop {
        let Some(parts) = split(rest) else {
            return last_behind(alloc, rest, &*names, &bound, unit);
        };
        let Some(scalars) = given_behind(alloc, parts.first, &*names, &bound, unit)? else {
            return Ok(None);
        };
        if !are_names_for(parts.names, &scalars) {
            return Ok(None);
        }
        bound = bindings_also(bound, parts.names, &scalars)?;
        rest = parts.last;
    }
}

// The same where more names are in scope.
#[cycle(sorted)]
fn given_behind<'x, N: Scope>(
    alloc: Global,
    m: &Mon,
    names: &'x Around<'x, N>,
    bound: &'x [Binding],
    unit: Unit<'_>,
) -> Result<Option<Vec<Scalar>>, AllocError>
    ensures { IfOk result (λ found. option_map scalars_in found
        ≡ scalars_given (setting_within (N.scalars) names.now bound.now unit.entry)
        (mon_of m.now)) }
{
    let inner = Around::Within(names, bound);
    scalars_around(alloc, m, &inner, unit)
}

#[cycle(sorted)]
fn last_behind<'x, N: Scope>(
    alloc: Global,
    m: &Mon,
    names: &'x Around<'x, N>,
    bound: &'x [Binding],
    unit: Unit<'_>,
) -> Result<Option<Vec<Scalar>>, AllocError>
    requires { IsNoBind (mon_of m.now) }
    ensures { IfOk result (λ found. option_map scalars_in found
        ≡ scalars_given (setting_within (N.scalars) names.now bound.now unit.entry)
        (mon_of m.now)) }
{
    let inner = Around::Within(names, bound);
    last_given(alloc, m, &inner, unit)
}

// The same of a program that isn't a sequence.
#[cycle(sorted)]
fn last_given<N: Scope>(
    alloc: Global,
    m: &Mon,
    names: &Around<'_, N>,
    unit: Unit<'_>,
) -> Result<Option<Vec<Scalar>>, AllocError>
    requires { IsNoBind (mon_of m.now) }
    ensures { IfOk result (λ found. option_map scalars_in found
        ≡ scalars_given (setting_around (N.scalars) names.now unit.entry) (mon_of m.now)) }
{
    match m {
        Mon::Ret(values) => scalars_of(alloc, values, names, unit),
        Mon::Guard(e) => {
            let holds = is_test(e, names, unit.layout, unit.globals);
            Ok(none_where(alloc, holds))
        }
        Mon::Write(place, value) => Ok(none_where(alloc, fits(place, value, names, unit))),
        Mon::Call(function, arguments) => called(alloc, function.as_str(), arguments, names, unit),
        Mon::Pick(kind) => picked(alloc, *kind),
        Mon::If(test, first, last) => {
            let Some(scalars) = scalars_around(alloc, first, names, unit)? else {
                return Ok(None);
            };
            if !is_test(test, names, unit.layout, unit.globals) {
                return Ok(None);
            }
            match scalars_around(alloc, last, names, unit)? {
                Some(others) if same_scalars(&scalars, &others) => Ok(Some(scalars)),
                _ => Ok(None),
            }
        }
        Mon::Loop(starts, guard, test, body) => {
            let Some(scalars) = start_scalars(alloc, starts, names, unit)? else {
                return Ok(None);
            };
            let bound = bound_starts(alloc, starts, &scalars)?;
            let turns = is_turn_behind(starts, guard, test, &*names, &bound, unit);
            let others = given_behind(alloc, body, &*names, &bound, unit)?;
            Ok(where_same(turns, scalars, others))
        }
        Mon::Bind(_, _, _) => unreachable!(),
    }
}

// Whether there is a name for each, and the names are distinct.
fn are_names_for(names: &[String], scalars: &[Scalar]) -> bool
    ensures { result ≡ (one_for_each (map string_bytes names.now) (map scalar_of scalars.now)
        && are_distinct (map string_bytes names.now)) }
{
    names.len() == scalars.len() && are_distinct(names)
}

// A loop's names, each with its scalar.
#[tactic(auto, using(crate::proofs::PointLaws::names_push))]
fn bound_starts(
    alloc: Global,
    starts: &[Start],
    scalars: &[Scalar],
) -> Result<Vec<Binding>, AllocError>
    ensures { IfOk result (λ new. (others : Name → Option plain.Scalar) →
        names_with (names_of new.items) (bound_scalars new.items) others
        ≡ names_with (start_names (map start_of starts.now)) (map scalar_of scalars.now) others) }
{
    let mut all = Vec::new(alloc);
    let mut rest = starts;
    let mut left = scalars;
    'names: while let Some((start, starts)) = rest.split_first() {
        let Some((scalar, others)) = left.split_first() else {
            return Ok(all);
        };
        all.push(Binding {
            name: start.name.clone()?,
            scalar: *scalar,
        })?;
        rest = starts;
        left = others;
    }
    Ok(all)
}

// Whether the names are distinct, and the guard and the test are tests.
fn is_turn<N: Scope>(
    starts: &[Start],
    guard: &Exp,
    test: &Exp,
    names: &Around<'_, N>,
    unit: Unit<'_>,
) -> bool
    ensures { let g = (setting_around (N.scalars) names.now unit.entry).scope in
        result
        ≡ (are_distinct (start_names (map start_of starts.now))
        && is_truth (program_sort g (exp_of guard.now))
        && is_truth (program_sort g (exp_of test.now))) }
{
    are_distinct_starts(starts)
        && is_test(guard, names, unit.layout, unit.globals)
        && is_test(test, names, unit.layout, unit.globals)
}

fn is_turn_behind<'x, N: Scope>(
    starts: &[Start],
    guard: &Exp,
    test: &Exp,
    names: &'x Around<'x, N>,
    bound: &'x [Binding],
    unit: Unit<'_>,
) -> bool
    ensures { let g = (setting_within (N.scalars) names.now bound.now unit.entry).scope in
        result
        ≡ (are_distinct (start_names (map start_of starts.now))
        && is_truth (program_sort g (exp_of guard.now))
        && is_truth (program_sort g (exp_of test.now))) }
{
    let inner = Around::Within(names, bound);
    is_turn(starts, guard, test, &inner, unit)
}

// Whether no two of a loop's names are the same.
fn are_distinct_starts(starts: &[Start]) -> bool
    ensures { result ≡ are_distinct (start_names (map start_of starts.now)) }
{
    let mut rest = starts;
    'starts: while let Some((first, others)) = rest.split_first() {
        if is_started(first.name.as_str(), others) {
            return false;
        }
        rest = others;
    }
    true
}
