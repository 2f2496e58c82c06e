//! What a rule asks of two programs. One function for each rule.

ghost use Rattle.std.specs.Prelude.{◌≡◌, ◌↔◌, [], ◌∷◌, map, string_bytes, Some, true, IsTrue};
ghost use Rattle.c_values.specs.Name.{are_distinct};
ghost use Rattle.std.specs.Option.{option_map};
ghost use Rattle.expression_lang.specs.Expression.{Var, ToNat, ToInt, ToWord};
ghost use Rattle.expression_lang.specs.Sort.{sort_of_kind, word_sort_of};
ghost use Rattle.expression_lang.specs.Signature.{signature, kinds_of};
ghost use Rattle.expression_lang.specs.CodeExpression.{exp_of, kind_of};
ghost use Rattle.expression_lang.specs.CodeSignature.{binder_of};
ghost use Rattle.monad_lang.specs.CodeProgram.{mon_of, start_of};
ghost use Rattle.rule_word.specs.Rule as names;
ghost use Rattle.rule_word.specs.Scopes.{result_as_list};
ghost use Rattle.rule_word.specs.Table.{AreMatched, recast, recasts, call_row};
ghost use Rattle.rule_parts.specs.Starts.{start_exps};
ghost use Rattle.rule_word.specs.CodeRule.{rule_of, context_in};
ghost use Rattle.rule_word.specs.CodeKinds.{point_in};
ghost use Rattle.rule_word.specs.CodeRows.{program_row_at};

use crate::rule::{Context, Point, Rule};
use ac_expr::same_steps;
use expression_lang::{Binder, Exp, Kind, are_distinct, equal_types, same_names};
use monad_lang::{Mon, Place, Start};
use program_sorts::signature;
use rule_parts::same_start_names;

/// Whether what a rule asks of two programs holds.
#[inline(never)]
pub(crate) fn is_asked(
    rule: &Rule,
    left: &Mon,
    right: &Mon,
    kinds: &[Kind],
    context: Context<'_>,
    point: Point<'_>,
) -> bool
    ensures { IsTrue result ↔ (program_row_at context.entry point.entry
        (rule_of rule.now) (mon_of left.now) (mon_of right.now) (map kind_of kinds.now)).holds }
{
    match rule {
        Rule::Ret => is_ret(left, right, kinds, context, point),
        Rule::Guard => is_guard(left, right, kinds, context, point),
        Rule::If => is_if(left, right, kinds, context, point),
        Rule::Global => is_global(left, right, kinds, context, point),
        Rule::Pick => is_pick(left, right, kinds, context, point),
        Rule::Write => is_write(left, right, kinds, context, point),
        Rule::Bind(js) => is_bind(js, left, right, kinds, context, point),
        Rule::Loop(js) => is_loop(js, left, right, kinds, context, point),
        Rule::Call => is_call(left, right, kinds, context, point),
        Rule::PickNat => is_pick_nat(left, right, kinds, context, point),
        Rule::PickInt => is_pick_int(left, right, kinds, context, point),
        Rule::Recast(js) => is_recast(js, left, right, kinds, context, point),
        Rule::Var | Rule::Const | Rule::Nat | Rule::Int | Rule::Word(_) | Rule::Unat => false,
        Rule::Sint | Rule::Add | Rule::Sub | Rule::Mul | Rule::Neg | Rule::Udiv => false,
        Rule::Umod | Rule::Sdiv | Rule::Smod | Rule::Order | Rule::Eq(_) | Rule::Zext => false,
        Rule::Sext | Rule::Logic | Rule::Cond | Rule::Op => false,
    }
}

// Whether lists of these lengths have as many each.
#[tactic(auto, using(crate::proofs::AskedPrograms::matched_lengths))]
fn are_matched(exps: &[Exp], kinds: &[Kind], others: &[Exp]) -> bool
    ensures { IsTrue result
        ↔ AreMatched (map exp_of exps.now) (map kind_of kinds.now) (map exp_of others.now) }
{
    exps.len() == kinds.len() && others.len() == kinds.len()
}

// The same of the parameters of a function.
#[tactic(auto, using(crate::proofs::AskedPrograms::matched_lengths))]
fn are_arguments(exps: &[Exp], params: &[Binder], others: &[Exp]) -> bool
    ensures { IsTrue result
        ↔ AreMatched (map exp_of exps.now) (kinds_of (map binder_of params.now))
        (map exp_of others.now) }
{
    exps.len() == params.len() && others.len() == params.len()
}

// The same of the starts of a loop.
#[tactic(auto, using(crate::proofs::AskedPrograms::matched_lengths))]
fn are_starts(starts: &[Start], kinds: &[Kind], others: &[Start]) -> bool
    ensures { IsTrue result
        ↔ AreMatched (start_exps (map start_of starts.now)) (map kind_of kinds.now)
        (start_exps (map start_of others.now)) }
{
    starts.len() == kinds.len() && others.len() == kinds.len()
}

fn is_ret(left: &Mon, right: &Mon, kinds: &[Kind], context: Context<'_>, point: Point<'_>) -> bool
    ensures { IsTrue result ↔ (program_row_at context.entry point.entry
        names.Ret (mon_of left.now) (mon_of right.now) (map kind_of kinds.now)).holds }
{
    match left {
        Mon::Ret(exps) => match right {
            Mon::Ret(others) => are_matched(exps, kinds, others),
            _ => false,
        },
        _ => false,
    }
}

fn is_guard(left: &Mon, right: &Mon, kinds: &[Kind], context: Context<'_>, point: Point<'_>) -> bool
    ensures { IsTrue result ↔ (program_row_at context.entry point.entry
        names.Guard (mon_of left.now) (mon_of right.now) (map kind_of kinds.now)).holds }
{
    match left {
        Mon::Guard(_) => matches!(right, Mon::Guard(_)) && kinds.is_empty(),
        _ => false,
    }
}

fn is_if(left: &Mon, right: &Mon, kinds: &[Kind], context: Context<'_>, point: Point<'_>) -> bool
    ensures { IsTrue result ↔ (program_row_at context.entry point.entry
        names.If (mon_of left.now) (mon_of right.now) (map kind_of kinds.now)).holds }
{
    match left {
        Mon::If(_, _, _) => matches!(right, Mon::If(_, _, _)),
        _ => false,
    }
}

fn is_global(
    left: &Mon,
    right: &Mon,
    kinds: &[Kind],
    context: Context<'_>,
    point: Point<'_>,
) -> bool
    ensures { IsTrue result ↔ (program_row_at context.entry point.entry
        names.Global (mon_of left.now) (mon_of right.now) (map kind_of kinds.now)).holds }
{
    match left {
        Mon::Write(Place::Global(name, path), _) => match right {
            Mon::Write(Place::Global(own, way), _) => {
                own.as_str() == name.as_str() && same_steps(path, way) && kinds.is_empty()
            }
            _ => false,
        },
        _ => false,
    }
}

fn is_write(left: &Mon, right: &Mon, kinds: &[Kind], context: Context<'_>, point: Point<'_>) -> bool
    ensures { IsTrue result ↔ (program_row_at context.entry point.entry
        names.Write (mon_of left.now) (mon_of right.now) (map kind_of kinds.now)).holds }
{
    match left {
        Mon::Write(Place::Stored(t, _, path), _) => match right {
            Mon::Write(Place::Stored(u, _, way), _) => {
                equal_types(u, t) && same_steps(path, way) && kinds.is_empty()
            }
            _ => false,
        },
        Mon::Write(Place::Written(t, _, path), _) => match right {
            Mon::Write(Place::Written(u, _, way), _) => {
                equal_types(u, t) && same_steps(path, way) && kinds.is_empty()
            }
            _ => false,
        },
        _ => false,
    }
}

// Whether kinds are this one alone.
fn is_alone(kinds: &[Kind], kind: Kind) -> bool
    ensures { IsTrue result ↔ (map kind_of kinds.now ≡ kind_of kind ∷ []) }
{
    match kinds.split_first() {
        Some((first, rest)) => rest.is_empty() && same_kind(*first, kind),
        None => false,
    }
}

fn same_kind(k: Kind, j: Kind) -> bool
    ensures { IsTrue result ↔ (kind_of k ≡ kind_of j) }
{
    k == j
}

fn is_pick(left: &Mon, right: &Mon, kinds: &[Kind], context: Context<'_>, point: Point<'_>) -> bool
    ensures { IsTrue result ↔ (program_row_at context.entry point.entry
        names.Pick (mon_of left.now) (mon_of right.now) (map kind_of kinds.now)).holds }
{
    match left {
        Mon::Pick(kind) => match right {
            Mon::Pick(other) => {
                same_kind(*other, *kind) && is_alone(kinds, *kind) && is_same_sort(*kind)
            }
            _ => false,
        },
        _ => false,
    }
}

// Whether the values of a kind are what they were.
fn is_same_sort(kind: Kind) -> bool
    ensures { IsTrue result ↔ (sort_of_kind (kind_of kind) ≡ word_sort_of (kind_of kind)) }
{
    match kind {
        Kind::Word(_) | Kind::Bool => true,
        Kind::Nat(_) | Kind::Int(_) => false,
    }
}

fn is_pick_nat(
    left: &Mon,
    right: &Mon,
    kinds: &[Kind],
    context: Context<'_>,
    point: Point<'_>,
) -> bool
    ensures { IsTrue result ↔ (program_row_at context.entry point.entry
        names.PickNat (mon_of left.now) (mon_of right.now) (map kind_of kinds.now)).holds }
{
    match left {
        Mon::Pick(Kind::Word(width)) => match right {
            Mon::Pick(other) => {
                same_kind(*other, Kind::Nat(*width)) && is_alone(kinds, Kind::Nat(*width))
            }
            _ => false,
        },
        _ => false,
    }
}

fn is_pick_int(
    left: &Mon,
    right: &Mon,
    kinds: &[Kind],
    context: Context<'_>,
    point: Point<'_>,
) -> bool
    ensures { IsTrue result ↔ (program_row_at context.entry point.entry
        names.PickInt (mon_of left.now) (mon_of right.now) (map kind_of kinds.now)).holds }
{
    match left {
        Mon::Pick(Kind::Word(width)) => match right {
            Mon::Pick(other) => {
                same_kind(*other, Kind::Int(*width)) && is_alone(kinds, Kind::Int(*width))
            }
            _ => false,
        },
        _ => false,
    }
}

fn is_bind(
    js: &[Kind],
    left: &Mon,
    right: &Mon,
    kinds: &[Kind],
    context: Context<'_>,
    point: Point<'_>,
) -> bool
    ensures { IsTrue result ↔ (program_row_at context.entry point.entry
        (names.Bind (map kind_of js.now)) (mon_of left.now) (mon_of right.now)
        (map kind_of kinds.now)).holds }
{
    match left {
        Mon::Bind(_, names, _) => match right {
            Mon::Bind(_, others, _) => same_names(others, names),
            _ => false,
        },
        _ => false,
    }
}

// Whether two lists of kinds are the same.
#[tactic(auto, using(crate::proofs::AskedPrograms::kinds_end, crate::proofs::AskedPrograms::kinds_go_on))]
fn same_kinds(kinds: &[Kind], others: &[Kind]) -> bool
    ensures { IsTrue result ↔ (map kind_of kinds.now ≡ map kind_of others.now) }
{
    let mut left = kinds;
    let mut right = others;
    'along: while let Some((first, rest)) = left.split_first() {
        let Some((other, other_rest)) = right.split_first() else {
            return false;
        };
        if !same_kind(*first, *other) {
            return false;
        }
        left = rest;
        right = other_rest;
    }
    right.is_empty()
}

fn is_loop(
    js: &[Kind],
    left: &Mon,
    right: &Mon,
    kinds: &[Kind],
    context: Context<'_>,
    point: Point<'_>,
) -> bool
    ensures { IsTrue result ↔ (program_row_at context.entry point.entry
        (names.Loop (map kind_of js.now)) (mon_of left.now) (mon_of right.now)
        (map kind_of kinds.now)).holds }
{
    match left {
        Mon::Loop(starts, _, _, _) => match right {
            Mon::Loop(others, _, _, _) => {
                same_start_names(starts, others)
                    && same_kinds(kinds, js)
                    && are_starts(starts, js, others)
            }
            _ => false,
        },
        _ => false,
    }
}

// Whether kinds are that of a result, or none.
fn is_result(kinds: &[Kind], given: Option<Kind>) -> bool
    ensures { IsTrue result ↔ (map kind_of kinds.now ≡ result_as_list (option_map kind_of given)) }
{
    match given {
        Some(kind) => is_alone(kinds, kind),
        None => kinds.is_empty(),
    }
}

// Whether arguments and results are those of a function of the unit.
fn is_called(
    name: &str,
    exps: &[Exp],
    others: &[Exp],
    kinds: &[Kind],
    context: Context<'_>,
    point: Point<'_>,
) -> bool
    ensures { IsTrue result ↔ (call_row (signature (context_in context.entry).functions name.now)
        (point_in point.entry) (map exp_of exps.now) (map exp_of others.now)
        (map kind_of kinds.now)).holds }
{
    match signature(context.functions, name) {
        Some(function) => {
            is_result(kinds, function.result) && are_arguments(exps, &function.params, others)
        }
        None => false,
    }
}

fn is_call(left: &Mon, right: &Mon, kinds: &[Kind], context: Context<'_>, point: Point<'_>) -> bool
    ensures { IsTrue result ↔ (program_row_at context.entry point.entry
        names.Call (mon_of left.now) (mon_of right.now) (map kind_of kinds.now)).holds }
{
    match left {
        Mon::Call(name, exps) => match right {
            Mon::Call(other, others) => {
                other.as_str() == name.as_str()
                    && is_called(name.as_str(), exps, others, kinds, context, point)
            }
            _ => false,
        },
        _ => false,
    }
}

// Whether an expression is a name, recast from one kind to another.
fn is_name_recast(from: Kind, to: Kind, name: &str, e: &Exp) -> bool
    ensures { IsTrue result
        ↔ (recast (kind_of from) (kind_of to) (Var name.now) ≡ Some (exp_of e.now)) }
{
    match from {
        Kind::Word(width) => match to {
            Kind::Word(own) => own == width && is_name(e, name),
            Kind::Nat(own) => own == width && is_name_nat(e, name),
            Kind::Int(own) => own == width && is_name_int(e, name),
            Kind::Bool => false,
        },
        Kind::Nat(width) => match to {
            Kind::Nat(own) => own == width && is_name(e, name),
            Kind::Word(own) => own == width && is_name_word(own, e, name),
            Kind::Int(_) | Kind::Bool => false,
        },
        Kind::Int(width) => match to {
            Kind::Int(own) => own == width && is_name(e, name),
            Kind::Word(own) => own == width && is_name_word(own, e, name),
            Kind::Nat(_) | Kind::Bool => false,
        },
        Kind::Bool => matches!(to, Kind::Bool) && is_name(e, name),
    }
}

fn is_name(e: &Exp, name: &str) -> bool
    ensures { IsTrue result ↔ (Var name.now ≡ exp_of e.now) }
{
    match e {
        Exp::Var(x) => x.as_str() == name,
        _ => false,
    }
}

fn is_name_word(width: u8, e: &Exp, name: &str) -> bool
    ensures { IsTrue result ↔ (ToWord width (Var name.now) ≡ exp_of e.now) }
{
    match e {
        Exp::ToWord(own, inner) => *own == width && is_name(inner, name),
        _ => false,
    }
}

fn is_name_nat(e: &Exp, name: &str) -> bool
    ensures { IsTrue result ↔ (ToNat (Var name.now) ≡ exp_of e.now) }
{
    match e {
        Exp::ToNat(inner) => is_name(inner, name),
        _ => false,
    }
}

fn is_name_int(e: &Exp, name: &str) -> bool
    ensures { IsTrue result ↔ (ToInt (Var name.now) ≡ exp_of e.now) }
{
    match e {
        Exp::ToInt(inner) => is_name(inner, name),
        _ => false,
    }
}

// Whether expressions are names, each recast from one kind to another.
#[tactic(auto, using(crate::proofs::AskedPrograms::recasts_end, crate::proofs::AskedPrograms::recasts_go_on))]
fn are_recast(from: &[Kind], to: &[Kind], names: &[String], exps: &[Exp]) -> bool
    ensures { IsTrue result ↔ (recasts (map kind_of from.now) (map kind_of to.now)
        (map string_bytes names.now) ≡ Some (map exp_of exps.now)) }
{
    let mut from = from;
    let mut to = to;
    let mut names = names;
    let mut exps = exps;
    'along: loop {
        let Some((first, rest)) = from.split_first() else {
            return to.is_empty() && names.is_empty() && exps.is_empty();
        };
        let Some((next, later)) = to.split_first() else {
            return false;
        };
        let Some((name, others)) = names.split_first() else {
            return false;
        };
        let Some((e, behind)) = exps.split_first() else {
            return false;
        };
        if !is_name_recast(*first, *next, name.as_str(), e) {
            return false;
        }
        from = rest;
        to = later;
        names = others;
        exps = behind;
    }
}

// The same, where no two names are one.
fn are_recast_apart(from: &[Kind], to: &[Kind], names: &[String], exps: &[Exp]) -> bool
    ensures { IsTrue result ↔ ((recasts (map kind_of from.now) (map kind_of to.now)
        (map string_bytes names.now) ≡ Some (map exp_of exps.now))
        × (are_distinct (map string_bytes names.now) ≡ true)) }
{
    are_recast(from, to, names, exps) && are_apart(names)
}

fn are_apart(names: &[String]) -> bool
    ensures { result ≡ are_distinct (map string_bytes names.now) }
{
    are_distinct(names)
}

fn is_recast(
    js: &[Kind],
    left: &Mon,
    right: &Mon,
    kinds: &[Kind],
    context: Context<'_>,
    point: Point<'_>,
) -> bool
    ensures { IsTrue result ↔ (program_row_at context.entry point.entry
        (names.Recast (map kind_of js.now)) (mon_of left.now) (mon_of right.now)
        (map kind_of kinds.now)).holds }
{
    match right {
        Mon::Bind(_, names, last) => match &**last {
            Mon::Ret(exps) => are_recast_apart(js, kinds, names, exps),
            _ => false,
        },
        _ => false,
    }
}
