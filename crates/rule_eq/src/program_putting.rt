//! Whether a program is another one with an expression in place of a name. Nothing is built.

ghost use Rattle.std.specs.Prelude.{◌≡◌, ◌↔◌, ◌<◌, ℕ, IsTrue, map};
ghost use Rattle.c_values.specs.Name.{Name};
ghost use Rattle.expression_lang.specs.Expression as plain;
ghost use Rattle.expression_lang.specs.CodeExpression.{exp_of, kind_of};
ghost use Rattle.monad_lang.specs.declared.program.Mon.{size-Mon};
ghost use Rattle.monad_lang.specs.CodeProgram.{place_of, start_of, mon_of};
ghost use Rattle.monad_lang.specs.CodeFront.{IsStep};
ghost use Rattle.program_facts.specs.Substituted.{starts_substituted, place_substituted, program_substituted};
ghost use Rattle.ac_expr.specs.Substituted.{substituted};
ghost use Rattle.rule_eq.specs.CodePutting.{SaysOf, LastIsSmaller, put_behind, exp_behind, turn_put};

use crate::exps::{same_place_head, write_exps};
use crate::putting::{are_put, is_put};
use ac_expr::Children;
use expression_lang::{Exp, Kind, same_names};
use monad_lang::{Mon, Place, Start, is_among, is_started};

/// What is known of two programs once all but their last parts are compared.
#[derive(Clone, Copy)]
pub(crate) enum Looked<'a> {
    Differ,
    Same,
    /// The one is as it is to be where the second of these is the first with the value put in.
    AsLast(&'a Mon, &'a Mon),
}

/// Whether the second of two programs is the first with the value in place of the name. It goes
/// along the last parts by a loop, since a text may have long sequences.
#[cycle(programs)]
pub(crate) fn is_program_put(name: &str, value: &Exp, m: &Mon, right: &Mon) -> bool
    ensures { IsTrue result ↔ (mon_of right.now
        ≡ program_substituted name.now (exp_of value.now) (mon_of m.now)) }
{
    let mut left = m;
    let mut right = right;
    'along: loop {
        match look(name, value, left, right) {
            Looked::Differ => return false,
            Looked::Same => return true,
            Looked::AsLast(last, other) => {
                left = last;
                right = other;
            }
        }
    }
}

// The same of two programs, but for their last parts.
#[cycle(programs)]
fn look<'a>(name: &str, value: &Exp, m: &'a Mon, right: &'a Mon) -> Looked<'a>
    ensures says { SaysOf name.now (exp_of value.now) result
        (program_substituted name.now (exp_of value.now) (mon_of m.now)) (mon_of right.now) }
    ensures smaller { LastIsSmaller result (size-Mon m.now) }
{
    match m {
        Mon::Ret(_) | Mon::Guard(_) | Mon::Write(_, _) | Mon::Call(_, _) | Mon::Pick(_) => {
            if is_step_put(name, value, m, right) {
                Looked::Same
            } else {
                Looked::Differ
            }
        }
        Mon::Bind(first, names, last) => match right {
            Mon::Bind(other, others, rest)
                if is_program_put(name, value, first, other) && same_names(others, names) => {
                look_behind(is_among(name, names), last, rest)
            }
            _ => Looked::Differ,
        },
        Mon::If(test, first, last) => match right {
            Mon::If(other_test, other, rest)
                if is_put(name, value, test, other_test)
                    && is_program_put(name, value, first, other) => {
                Looked::AsLast(&**last, &**rest)
            }
            _ => Looked::Differ,
        },
        Mon::Loop(starts, guard, test, last) => {
            look_into(name, value, starts, guard, test, last, right)
        }
    }
}

// The same of a loop.
#[inline(never)]
fn look_into<'a>(
    name: &str,
    value: &Exp,
    starts: &[Start],
    guard: &Exp,
    test: &Exp,
    last: &'a Mon,
    right: &'a Mon,
) -> Looked<'a>
    ensures says { SaysOf name.now (exp_of value.now) result
        (turn_put name.now (exp_of value.now) (map start_of starts.now)
        (exp_of guard.now) (exp_of test.now) (mon_of last.now)) (mon_of right.now) }
    ensures smaller { (n : ℕ) → size-Mon last.now < n → LastIsSmaller result n }
{
    match right {
        Mon::Loop(others, other_guard, other_test, rest) => {
            let bound = is_started(name, starts);
            if are_starts_put(name, value, starts, others)
                && are_tests_put(bound, name, value, guard, test, other_guard, other_test)
            {
                look_behind(bound, last, rest)
            } else {
                Looked::Differ
            }
        }
        _ => Looked::Differ,
    }
}

// What is known of last parts, where the name is bound before them or not.
fn look_behind<'a>(bound: bool, last: &'a Mon, rest: &'a Mon) -> Looked<'a>
    ensures says { (x : Name) (e : plain.Exp) →
        SaysOf x e result (put_behind x e bound (mon_of last.now)) (mon_of rest.now) }
    ensures smaller { (n : ℕ) → size-Mon last.now < n → LastIsSmaller result n }
{
    if !bound {
        return Looked::AsLast(last, rest);
    }
    if rest.same(last) {
        Looked::Same
    } else {
        Looked::Differ
    }
}

// Whether a loop's guard and test are put in, or the same where the name is bound.
fn are_tests_put(
    bound: bool,
    name: &str,
    value: &Exp,
    guard: &Exp,
    test: &Exp,
    other_guard: &Exp,
    other_test: &Exp,
) -> bool
    ensures { IsTrue result ↔
        ((exp_of other_guard.now ≡ exp_behind name.now (exp_of value.now) bound (exp_of guard.now))
        × (exp_of other_test.now ≡ exp_behind name.now (exp_of value.now) bound
        (exp_of test.now))) }
{
    if bound {
        other_guard.same(guard) && other_test.same(test)
    } else {
        is_put(name, value, guard, other_guard) && is_put(name, value, test, other_test)
    }
}

// Whether names and what they begin with are the first ones with the value put in.
#[tactic(auto, using(crate::proofs::ProgramPutting::starts_end, crate::proofs::ProgramPutting::starts_go_on))]
fn are_starts_put(name: &str, value: &Exp, starts: &[Start], others: &[Start]) -> bool
    ensures { IsTrue result ↔ (map start_of others.now
        ≡ starts_substituted name.now (exp_of value.now) (map start_of starts.now)) }
{
    let mut left = starts;
    let mut right = others;
    'along: while let Some((first, rest)) = left.split_first() {
        let Some((other, behind)) = right.split_first() else {
            return false;
        };
        if first.name.as_str() != other.name.as_str() {
            return false;
        }
        if !is_put(name, value, &first.exp, &other.exp) {
            return false;
        }
        left = rest;
        right = behind;
    }
    right.is_empty()
}

// The same of a program without programs in it.
#[inline(never)]
fn is_step_put(name: &str, value: &Exp, m: &Mon, right: &Mon) -> bool
    requires { IsStep (mon_of m.now) }
    ensures { IsTrue result ↔ (mon_of right.now
        ≡ program_substituted name.now (exp_of value.now) (mon_of m.now)) }
{
    match m {
        Mon::Ret(exps) => match right {
            Mon::Ret(others) => {
                are_put(
                    name,
                    value,
                    Children::Listed(exps),
                    Children::Listed(others),
                )
            }
            _ => false,
        },
        Mon::Guard(e) => match right {
            Mon::Guard(other) => is_put(name, value, e, other),
            _ => false,
        },
        Mon::Write(place, e) => match right {
            Mon::Write(other_place, other) => {
                is_write_put(name, value, place, e, other_place, other)
            }
            _ => false,
        },
        Mon::Call(function, exps) => match right {
            Mon::Call(other, others) => {
                other.as_str() == function.as_str()
                    && are_put(
                        name,
                        value,
                        Children::Listed(exps),
                        Children::Listed(others),
                    )
            }
            _ => false,
        },
        Mon::Pick(kind) => match right {
            Mon::Pick(other) => same_kind(*other, *kind),
            _ => false,
        },
        _ => unreachable!(),
    }
}

// The same of what is written, and where.
#[tactic(auto, using(crate::proofs::ProgramPutting::write_put))]
fn is_write_put(
    name: &str,
    value: &Exp,
    place: &Place,
    e: &Exp,
    other_place: &Place,
    other: &Exp,
) -> bool
    ensures { IsTrue result
        ↔ ((place_of other_place.now ≡ place_substituted name.now (exp_of value.now)
        (place_of place.now))
        × (exp_of other.now ≡ substituted name.now (exp_of value.now) (exp_of e.now))) }
{
    same_place_head(place, other_place)
        && are_put(
            name,
            value,
            write_exps(place, e),
            write_exps(other_place, other),
        )
}

fn same_kind(kind: Kind, other: Kind) -> bool
    ensures { IsTrue result ↔ (kind_of kind ≡ kind_of other) }
{
    kind == other
}
