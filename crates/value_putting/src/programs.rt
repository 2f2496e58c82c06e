//! A value put into a program.

ghost use Rattle.std.specs.Prelude.{◌≡◌, ◌<◌, ℕ, map, IfOk};
ghost use Rattle.c_values.specs.Name.{Name};
ghost use Rattle.expression_lang.specs.Expression as plain;
ghost use Rattle.expression_lang.specs.CodeExpression.{exp_of};
ghost use Rattle.monad_lang.specs.Program as programs;
ghost use Rattle.monad_lang.specs.declared.program.Mon.{size-Mon};
ghost use Rattle.monad_lang.specs.CodeProgram.{start_of, mon_of};
ghost use Rattle.monad_lang.specs.CodeFront.{IsStep, with_front, with_fronts};
ghost use Rattle.program_facts.specs.Substituted.{program_substituted};
ghost use Rattle.value_putting.specs.Parts.{exp_behind, program_behind, header_behind};
ghost use Rattle.value_putting.specs.CodeOpening.{becomes, LastIsSmaller};

use crate::expressions::{in_each, in_exp, in_place, in_starts};
use expression_lang::{Exp, copy_names};
use monad_lang::{Front, Mon, Start, boxed, is_among, is_started, whole};
use std::alloc::{AllocError, Global};

/// A program with the value in place of the name, where the name is free. It goes along the last
/// parts by a loop, since a text may have long sequences. There is no answer only where memory is
/// wanting.
#[cycle(put)]
#[tactic(auto, using(monad_lang::proofs::WithFronts::with_fronts_push))]
pub fn put(alloc: Global, name: &str, value: &Exp, m: &Mon) -> Result<Box<Mon>, AllocError>
    ensures { IfOk result (λ new. mon_of new.value
        ≡ program_substituted name.now (exp_of value.now) (mon_of m.now)) }
{
    let mut fronts = Vec::new(alloc);
    let mut rest = m;
    'along: loop {
        match opened(alloc, name, value, rest)? {
            Opening::Whole(new) => return closed(alloc, fronts, new),
            Opening::Bound(front, last) => {
                fronts.push(front)?;
                return closed(alloc, fronts, last.copy(alloc)?);
            }
            Opening::Last(front, last) => {
                fronts.push(front)?;
                rest = last;
            }
        }
    }
}

// A program with the value put into all but its last part.
#[derive(Drop)]
enum Opening<'a> {
    // There is no other part.
    Whole(Box<Mon>),
    // The name is bound before the last part.
    Bound(Front, &'a Mon),
    Last(Front, &'a Mon),
}

#[cycle(put)]
#[tactic(auto, using(crate::proofs::Parts::bind_put, crate::proofs::Parts::loop_put))]
fn opened<'a>(alloc: Global, name: &str, value: &Exp, m: &'a Mon) -> Result<Opening<'a>, AllocError>
    ensures same { IfOk result (λ new.
        becomes (program_substituted name.now (exp_of value.now)) new
        ≡ program_substituted name.now (exp_of value.now) (mon_of m.now)) }
    ensures smaller { IfOk result (λ new. LastIsSmaller new (size-Mon m.now)) }
{
    match m {
        Mon::Ret(_) | Mon::Guard(_) | Mon::Write(_, _) | Mon::Call(_, _) | Mon::Pick(_) => {
            Ok(Opening::Whole(in_step(alloc, name, value, m)?))
        }
        Mon::Bind(first, names, last) => {
            let first = put(alloc, name, value, first)?;
            let front = Front::Bind(first, copy_names(alloc, names)?);
            Ok(behind(is_among(name, names), front, last))
        }
        Mon::If(test, first, last) => {
            let test = in_exp(alloc, name, value, test)?;
            let first = put(alloc, name, value, first)?;
            Ok(Opening::Last(Front::If(test, first), &**last))
        }
        Mon::Loop(starts, guard, test, last) => {
            let bound = is_started(name, starts);
            let front = header(alloc, name, value, bound, starts, guard, test)?;
            Ok(behind(bound, front, last))
        }
    }
}

// A program whose last part is left as it is where the name is bound before it.
fn behind<'a>(bound: bool, front: Front, last: &'a Mon) -> Opening<'a>
    ensures same { (x : Name) (e : plain.Exp) →
        becomes (program_substituted x e) result
        ≡ with_front front (program_behind x e bound (mon_of last.now)) }
    ensures smaller { (n : ℕ) → size-Mon last.now < n → LastIsSmaller result n }
{
    if bound {
        Opening::Bound(front, last)
    } else {
        Opening::Last(front, last)
    }
}

// A loop but for its body: its guard and its test are left as they are where it binds the name.
fn header(
    alloc: Global,
    name: &str,
    value: &Exp,
    bound: bool,
    starts: &[Start],
    guard: &Exp,
    test: &Exp,
) -> Result<Front, AllocError>
    ensures { IfOk result (λ front. (m : programs.Mon) → with_front front m
        ≡ header_behind name.now (exp_of value.now) bound (map start_of starts.now)
        (exp_of guard.now) (exp_of test.now) m) }
{
    let starts = in_starts(alloc, name, value, starts)?;
    let guard = exp_behind(alloc, name, value, bound, guard)?;
    let test = exp_behind(alloc, name, value, bound, test)?;
    Ok(Front::Loop(starts, guard, test))
}

// An expression that is left as it is where the name is bound before it.
fn exp_behind(
    alloc: Global,
    name: &str,
    value: &Exp,
    bound: bool,
    e: &Exp,
) -> Result<Box<Exp>, AllocError>
    ensures { IfOk result (λ new.
        exp_of new.value ≡ exp_behind name.now (exp_of value.now) bound (exp_of e.now)) }
{
    if bound {
        e.boxed_copy(alloc)
    } else {
        in_exp(alloc, name, value, e)
    }
}

// A program without programs in it.
#[inline(never)]
fn in_step(alloc: Global, name: &str, value: &Exp, m: &Mon) -> Result<Box<Mon>, AllocError>
    requires { IsStep (mon_of m.now) }
    ensures { IfOk result (λ new. mon_of new.value
        ≡ program_substituted name.now (exp_of value.now) (mon_of m.now)) }
{
    match m {
        Mon::Ret(values) => boxed(alloc, Mon::Ret(in_each(alloc, name, value, values)?)),
        Mon::Guard(condition) => {
            let condition = in_exp(alloc, name, value, condition)?;
            boxed(alloc, Mon::Guard(Box::into_inner(condition)))
        }
        Mon::Write(place, written) => {
            let written = in_exp(alloc, name, value, written)?;
            let place = in_place(alloc, name, value, place)?;
            boxed(alloc, Mon::Write(place, Box::into_inner(written)))
        }
        Mon::Call(function, arguments) => {
            let arguments = in_each(alloc, name, value, arguments)?;
            let function = function.clone()?;
            boxed(alloc, Mon::Call(function, arguments))
        }
        Mon::Pick(kind) => boxed(alloc, Mon::Pick(*kind)),
        _ => unreachable!(),
    }
}

// A program with fronts around it, the first front outermost.
#[tactic(auto, using(monad_lang::proofs::WithFronts::with_fronts_push))]
fn closed(alloc: Global, mut fronts: Vec<Front>, last: Box<Mon>) -> Result<Box<Mon>, AllocError>
    ensures { IfOk result (λ m. mon_of m.value ≡ with_fronts fronts.items (mon_of last.value)) }
{
    let mut new = last;
    'back: while let Some(front) = fronts.pop() {
        new = boxed(alloc, whole(front, new))?;
    }
    Ok(new)
}
