//! Values that can stand in place of their names.

ghost use Rattle.std.specs.Prelude.{◌≡◌, ◌&&◌, ◌++◌, [], map, string_bytes, IfOk};
ghost use Rattle.std.specs.Option.{option_map};
ghost use Rattle.expression_lang.specs.CodeExpression.{exp_of};
ghost use Rattle.monad_lang.specs.CodeProgram.{mon_of};
ghost use Rattle.rule_eq.specs.Table.{taken_at, with_values};
ghost use Rattle.polish.specs.Polished.{is_literal, first_put, first_constant};
ghost use Rattle.polish.specs.CodePutting.{with_taken, put_into};
ghost use Rattle.polish.specs.CodePuttingView.{taken_in};

use expression_lang::Exp;
use monad_lang::{Mon, boxed, is_free};
use std::alloc::{AllocError, Global};
use value_putting::{can_be_put, put};

/// The first position whose value can be put in.
#[tactic(auto, using(crate::proofs::Passing::put_first, crate::proofs::Passing::put_none, crate::proofs::Passing::put_no_name, crate::proofs::Passing::put_found, crate::proofs::Passing::put_further, crate::proofs::Passed::fewer_left))]
pub(crate) fn first_put(values: &[Exp], names: &[String], rest: &Mon) -> Option<usize>
    ensures { result ≡ first_put [] (map exp_of values.now) (map string_bytes names.now)
        (mon_of rest.now) }
{
    let mut left = values;
    let mut right = names;
    'along: while let Some((value, others)) = left.split_first() {
        let Some((name, after)) = right.split_first() else {
            return None;
        };
        let passed = names.len() - right.len();
        if can_be_put(value, name, &names[..passed], after, rest) {
            return Some(passed);
        }
        left = others;
        right = after;
    }
    None
}

fn is_literal(e: &Exp) -> bool
    ensures { result ≡ is_literal (exp_of e.now) }
{
    matches!(e, Exp::Word(_) | Exp::Number(_) | Exp::Truth(_))
}

/// The first position of a constant whose name the program has free.
#[tactic(auto, using(crate::proofs::Passing::constant_first, crate::proofs::Passing::constant_none, crate::proofs::Passing::constant_no_name, crate::proofs::Passing::constant_found, crate::proofs::Passing::constant_further, crate::proofs::Passed::fewer_left))]
pub(crate) fn first_constant(values: &[Exp], names: &[String], rest: &Mon) -> Option<usize>
    ensures { result ≡ first_constant (map exp_of values.now) (map string_bytes names.now)
        (mon_of rest.now) }
{
    let mut left = values;
    let mut right = names;
    'along: while let Some((value, others)) = left.split_first() {
        let Some((name, after)) = right.split_first() else {
            return None;
        };
        if is_literal(value) && is_free(name, rest) {
            return Some(names.len() - right.len());
        }
        left = others;
        right = after;
    }
    None
}

// One of the values with its name, and the others with theirs.
#[derive(Drop)]
struct Taken<'a> {
    exp: &'a Exp,
    name: &'a str,
    exps: Vec<Exp>,
    names: Vec<String>,
}

// Expressions, and then copies of others.
#[tactic(auto, using(crate::proofs::Lists::mapped_push))]
fn and_exps(alloc: Global, before: Vec<Exp>, exps: &[Exp]) -> Result<Vec<Exp>, AllocError>
    ensures { IfOk result (λ all.
        map exp_of all.items ≡ map exp_of before.items ++ map exp_of exps.now) }
{
    let mut all = before;
    let mut rest = exps;
    'along: while let Some((exp, others)) = rest.split_first() {
        all.push(exp.copy(alloc)?)?;
        rest = others;
    }
    Ok(all)
}

// Names, and then copies of others.
#[tactic(auto, using(crate::proofs::Lists::mapped_push))]
fn and_names(before: Vec<String>, names: &[String]) -> Result<Vec<String>, AllocError>
    ensures { IfOk result (λ all. map string_bytes all.items
        ≡ map string_bytes before.items ++ map string_bytes names.now) }
{
    let mut all = before;
    let mut rest = names;
    'along: while let Some((name, others)) = rest.split_first() {
        all.push(name.clone()?)?;
        rest = others;
    }
    Ok(all)
}

// The value at a position, where there is one.
#[tactic(auto, using(crate::proofs::Takings::over_none, crate::proofs::Takings::taken_here, crate::proofs::Takings::taken_later, crate::proofs::Takings::none_left, crate::proofs::Takings::no_name_left))]
fn taken_from<'a>(
    alloc: Global,
    position: usize,
    values: &'a [Exp],
    names: &'a [String],
) -> Result<Option<Taken<'a>>, AllocError>
    ensures { IfOk result (λ k. option_map taken_in k
        ≡ taken_at position (map exp_of values.now) (map string_bytes names.now)) }
{
    let mut exps = Vec::new(alloc);
    let mut own = Vec::new(alloc);
    let mut left = values;
    let mut right = names;
    let mut count = position;
    'along: loop {
        let Some((exp, others)) = left.split_first() else {
            return Ok(None);
        };
        let Some((name, after)) = right.split_first() else {
            return Ok(None);
        };
        if count == 0 {
            let exps = and_exps(alloc, exps, others)?;
            let names = and_names(own, after)?;
            let name = name.as_str();
            return Ok(Some(Taken {
                exp,
                name,
                exps,
                names,
            }));
        }
        exps.push(exp.copy(alloc)?)?;
        own.push(name.clone()?)?;
        left = others;
        right = after;
        count -= 1;
    }
}

// A program behind values under their names, where there are any.
fn with_values(
    alloc: Global,
    exps: Vec<Exp>,
    names: Vec<String>,
    m: Box<Mon>,
) -> Result<Box<Mon>, AllocError>
    ensures { IfOk result (λ new. mon_of new.value
        ≡ with_values (map exp_of exps.items) (map string_bytes names.items) (mon_of m.value)) }
{
    if exps.is_empty() {
        return Ok(m);
    }
    let first = boxed(alloc, Mon::Ret(exps))?;
    boxed(alloc, Mon::Bind(first, names, m))
}

// A program with a value put in, behind the others.
fn with_taken(alloc: Global, taken: Taken<'_>, rest: &Mon) -> Result<Box<Mon>, AllocError>
    ensures { IfOk result (λ new. mon_of new.value
        ≡ with_taken (mon_of rest.now) (taken_in taken.entry)) }
{
    let Taken {
        exp,
        name,
        exps,
        names,
    } = taken;
    let new = put(alloc, name, exp, rest)?;
    with_values(alloc, exps, names, new)
}

/// A sequence whose value at a position is put in, where there is one.
pub(crate) fn put_at(
    alloc: Global,
    first: &Mon,
    position: usize,
    names: &[String],
    rest: &Mon,
) -> Result<Option<Box<Mon>>, AllocError>
    ensures { IfOk result (λ new. option_map (λ m. mon_of m.value) new
        ≡ put_into position (mon_of first.now) (map string_bytes names.now) (mon_of rest.now)) }
{
    let Mon::Ret(values) = first else {
        return Ok(None);
    };
    let Some(taken) = taken_from(alloc, position, values, names)? else {
        return Ok(None);
    };
    let new = with_taken(alloc, taken, rest)?;
    Ok(Some(new))
}
