//! Which shorter expression stands in an expression's place: each row of the table of steps, as a
//! choice.

ghost use Rattle.std.specs.Prelude.{◌≡◌, ◌-◌, ◌^◌, ◌<◌, IfOk, Some, true, false};
ghost use Rattle.std.specs.Option.{option_map};
ghost use Rattle.c_values.specs.CodeNumber.{number_op_of};
ghost use Rattle.c_values.specs.Number.{least, greatest};
ghost use Rattle.expression_lang.specs.CodeExpression.{exp_of};
ghost use Rattle.expression_lang.specs.CodeSort.{sort_value};
ghost use Rattle.expression_lang.specs.Expression as plain;
ghost use Rattle.expression_lang.specs.Sort.{is_width, is_word_of, sort_of};
ghost use Rattle.ac_expr.specs.Fact.{stands_for};
ghost use Rattle.ac_expr.specs.CodeFacts.{fact_of};
ghost use Rattle.ac_expr.specs.SameExp.{same_exp};
ghost use Rattle.expression_steps.specs.Shortened.{folded, where_true, by_right, shorter_and, shorter_or, shorter_imp, shorter_if, is_flag, by_zero, by_branches, shorter_unequal, shorter_not, shorter_sum, shorter_arith, shorter_word, shorter_value, shorter, shortened};
ghost use Rattle.expression_steps.specs.Known.{is_known};
ghost use Rattle.expression_steps.specs.CodePoint.{known_in, scope_in};

use crate::points::{Context, Passed};
use ac_expr::{Fact, Facts, constant_of, known};
use c_values::{Layout, Number, NumberOp, Word};
use expression_lang::{Exp, Scalar, Sort, boxed, sort_of};
use std::alloc::{AllocError, Global};

// A copy.
fn copied(alloc: Global, e: &Exp) -> Result<Option<Box<Exp>>, AllocError>
    ensures { IfOk result (λ new. option_map (λ e. exp_of e.value) new
        ≡ Some (exp_of e.now)) }
{
    let copy = e.boxed_copy(alloc)?;
    Ok(Some(copy))
}

// A truth value.
fn truth(alloc: Global, b: bool) -> Result<Option<Box<Exp>>, AllocError>
    ensures { IfOk result (λ new. option_map (λ e. exp_of e.value) new
        ≡ Some (plain.TruthLit b)) }
{
    let new = boxed(alloc, Exp::Truth(b))?;
    Ok(Some(new))
}

// A copy, where a test holds.
fn where_true(alloc: Global, holds: bool, e: &Exp) -> Result<Option<Box<Exp>>, AllocError>
    ensures { IfOk result (λ new. option_map (λ e. exp_of e.value) new
        ≡ where_true holds (exp_of e.now)) }
{
    if holds {
        return copied(alloc, e);
    }
    Ok(None)
}

#[tactic(auto, using(crate::proofs::Tested::same_tested))]
fn is_same(a: &Exp, b: &Exp) -> bool
    ensures { result ≡ same_exp (exp_of a.now) (exp_of b.now) }
{
    a.same(b)
}

// The value of constants alone that aren't a constant already.
fn folded(alloc: Global, l: &Layout, e: &Exp) -> Result<Option<Box<Exp>>, AllocError>
    ensures { IfOk result (λ new. option_map (λ e. exp_of e.value) new
        ≡ folded l.now (exp_of e.now)) }
{
    match e {
        Exp::Word(_) | Exp::Number(_) | Exp::Truth(_) => Ok(None),
        _ => match constant_of(e, l) {
            Some(constant) => {
                let new = boxed(alloc, constant)?;
                Ok(Some(new))
            }
            None => Ok(None),
        },
    }
}

fn by_right(alloc: Global, a: &Exp, b: &Exp) -> Result<Option<Box<Exp>>, AllocError>
    ensures { IfOk result (λ new. option_map (λ e. exp_of e.value) new
        ≡ by_right (exp_of a.now) (exp_of b.now)) }
{
    match b {
        Exp::Truth(true) => copied(alloc, a),
        _ => Ok(None),
    }
}

fn shorter_and(alloc: Global, a: &Exp, b: &Exp) -> Result<Option<Box<Exp>>, AllocError>
    ensures { IfOk result (λ new. option_map (λ e. exp_of e.value) new
        ≡ shorter_and (exp_of a.now) (exp_of b.now)) }
{
    match a {
        Exp::Truth(true) => copied(alloc, b),
        Exp::Truth(false) => truth(alloc, false),
        _ => by_right(alloc, a, b),
    }
}

fn shorter_or(alloc: Global, a: &Exp, b: &Exp) -> Result<Option<Box<Exp>>, AllocError>
    ensures { IfOk result (λ new. option_map (λ e. exp_of e.value) new
        ≡ shorter_or (exp_of a.now) (exp_of b.now)) }
{
    match a {
        Exp::Truth(true) => truth(alloc, true),
        Exp::Truth(false) => copied(alloc, b),
        _ => Ok(None),
    }
}

fn shorter_imp(alloc: Global, a: &Exp, b: &Exp) -> Result<Option<Box<Exp>>, AllocError>
    ensures { IfOk result (λ new. option_map (λ e. exp_of e.value) new
        ≡ shorter_imp (exp_of a.now) (exp_of b.now)) }
{
    match a {
        Exp::Truth(true) => copied(alloc, b),
        Exp::Truth(false) => truth(alloc, true),
        _ => Ok(None),
    }
}

fn shorter_if(alloc: Global, c: &Exp, a: &Exp, b: &Exp) -> Result<Option<Box<Exp>>, AllocError>
    ensures { IfOk result (λ new. option_map (λ e. exp_of e.value) new
        ≡ shorter_if (exp_of c.now) (exp_of a.now) (exp_of b.now)) }
{
    match c {
        Exp::Truth(true) => copied(alloc, a),
        Exp::Truth(false) => copied(alloc, b),
        _ => where_true(alloc, is_same(b, a), a),
    }
}

fn shorter_eq(alloc: Global, a: &Exp, b: &Exp) -> Result<Option<Box<Exp>>, AllocError>
    ensures { IfOk result (λ new. option_map (λ e. exp_of e.value) new
        ≡ where_true (same_exp (exp_of b.now) (exp_of a.now)) (plain.TruthLit true)) }
{
    if is_same(b, a) {
        return truth(alloc, true);
    }
    Ok(None)
}

// Whether words are 1, 0 and 0 of one width.
fn is_flag(u: Word, v: Word, w: Word) -> bool
    ensures { result ≡ is_flag u v w }
{
    u.width() == w.width()
        && u.bits() == 1
        && v.width() == w.width()
        && v.bits() == w.bits()
        && w.bits() == 0
}

fn by_zero(
    alloc: Global,
    c: &Exp,
    u: Word,
    v: Word,
    b: &Exp,
) -> Result<Option<Box<Exp>>, AllocError>
    ensures { IfOk result (λ new. option_map (λ e. exp_of e.value) new
        ≡ by_zero (exp_of c.now) u v (exp_of b.now)) }
{
    match b {
        Exp::Word(w) => where_true(alloc, is_flag(u, v, *w), c),
        _ => Ok(None),
    }
}

fn by_branches(
    alloc: Global,
    c: &Exp,
    one: &Exp,
    zero: &Exp,
    b: &Exp,
) -> Result<Option<Box<Exp>>, AllocError>
    ensures { IfOk result (λ new. option_map (λ e. exp_of e.value) new
        ≡ by_branches (exp_of c.now) (exp_of one.now) (exp_of zero.now) (exp_of b.now)) }
{
    match one {
        Exp::Word(u) => match zero {
            Exp::Word(v) => by_zero(alloc, c, *u, *v, b),
            _ => Ok(None),
        },
        _ => Ok(None),
    }
}

fn shorter_unequal(alloc: Global, a: &Exp, b: &Exp) -> Result<Option<Box<Exp>>, AllocError>
    ensures { IfOk result (λ new. option_map (λ e. exp_of e.value) new
        ≡ shorter_unequal (exp_of a.now) (exp_of b.now)) }
{
    match a {
        Exp::If(c, one, zero) => by_branches(alloc, c, one, zero, b),
        _ => Ok(None),
    }
}

fn shorter_not(alloc: Global, a: &Exp) -> Result<Option<Box<Exp>>, AllocError>
    ensures { IfOk result (λ new. option_map (λ e. exp_of e.value) new
        ≡ shorter_not (exp_of a.now)) }
{
    match a {
        Exp::Not(inner) => copied(alloc, inner),
        Exp::Eq(x, y) => shorter_unequal(alloc, x, y),
        _ => Ok(None),
    }
}

#[tactic(auto, using(crate::proofs::Tested::sum_tested))]
fn shorter_sum(alloc: Global, a: &Exp, b: &Exp) -> Result<Option<Box<Exp>>, AllocError>
    ensures { IfOk result (λ new. option_map (λ e. exp_of e.value) new
        ≡ shorter_sum (exp_of a.now) (exp_of b.now)) }
{
    match b {
        Exp::Number(n) => where_true(alloc, n.magnitude() == 0, a),
        _ => Ok(None),
    }
}

fn shorter_arith(
    alloc: Global,
    op: NumberOp,
    a: &Exp,
    b: &Exp,
) -> Result<Option<Box<Exp>>, AllocError>
    ensures { IfOk result (λ new. option_map (λ e. exp_of e.value) new
        ≡ shorter_arith (number_op_of op) (exp_of a.now) (exp_of b.now)) }
{
    match op {
        NumberOp::Add => shorter_sum(alloc, a, b),
        _ => Ok(None),
    }
}

// The sort of an expression.
fn sort_in<'a>(context: &Context<'a>, e: &'a Exp) -> Option<Sort<'a>>
    ensures { option_map sort_value result ≡ sort_of (scope_in context.now) (exp_of e.now) }
{
    sort_of(e, context.scope, context.layout, context.globals)
}

fn has_width(sort: Option<Sort<'_>>, width: u8) -> bool
    ensures { result ≡ is_word_of width (option_map sort_value sort.entry) }
{
    match sort {
        Some(Sort::Of(Scalar::Word(own))) => own == width,
        _ => false,
    }
}

fn shorter_word(
    alloc: Global,
    context: &Context<'_>,
    width: u8,
    a: &Exp,
) -> Result<Option<Box<Exp>>, AllocError>
    ensures { IfOk result (λ new. option_map (λ e. exp_of e.value) new
        ≡ shorter_word (scope_in context.now) width (exp_of a.now)) }
{
    match a {
        Exp::ToNat(inner) | Exp::ToInt(inner) => {
            let holds = has_width(sort_in(context, inner), width);
            where_true(alloc, holds, inner)
        }
        _ => Ok(None),
    }
}

// The greatest word of a width.
fn greatest_word(width: u8) -> u128
    requires { is_width width ≡ true }
    ensures { result ≡ 2 ^ width - 1 }
{
    match width {
        8 => 0xff,
        16 => 0xffff,
        32 => 0xffff_ffff,
        _ => 0xffff_ffff_ffff_ffff,
    }
}

// The size of the least signed value.
fn half(width: u8) -> u128
    requires { is_width width ≡ true }
    ensures value { result ≡ 2 ^ (width - 1) }
    ensures positive { 0 < result }
{
    match width {
        8 => 0x80,
        16 => 0x8000,
        32 => 0x8000_0000,
        _ => 0x8000_0000_0000_0000,
    }
}

fn is_width(width: u8) -> bool
    ensures { result ≡ is_width width }
{
    width == 8 || width == 16 || width == 32 || width == 64
}

// Whether a claim is known.
#[tactic(auto, using(crate::proofs::Tested::known_tested))]
fn is_known(facts: &Facts<'_, Passed<'_>>, claim: &Fact<'_>) -> bool
    ensures { result ≡ is_known (known_in facts.now) (stands_for (fact_of claim.now)) }
{
    known(facts, claim)
}

/// Whether an expression is known to hold.
pub fn holds(facts: &Facts<'_, Passed<'_>>, e: &Exp) -> bool
    ensures { result ≡ is_known (known_in facts.now) (exp_of e.now) }
{
    let claim = Fact::Whole(e);
    let here = (&*facts).pass(Passed::Parts(&[]), 0);
    is_known(&here, &claim)
}

// Whether a number is known to be the unsigned value of a word of the width.
fn is_natural(facts: &Facts<'_, Passed<'_>>, width: u8, number: &Exp) -> bool
    requires { is_width width ≡ true }
    ensures { result ≡ is_known (known_in facts.now)
        (plain.Between (least false width) (exp_of number.now) (greatest false width)) }
{
    let low = Number::new(false, 0);
    let greatest = greatest_word(width);
    let high = Number::new(false, greatest);
    let claim = Fact::Between(low, number, high);
    let here = (&*facts).pass(Passed::Parts(&[]), 0);
    is_known(&here, &claim)
}

// The same of the signed value.
fn is_integer(facts: &Facts<'_, Passed<'_>>, width: u8, number: &Exp) -> bool
    requires { is_width width ≡ true }
    ensures { result ≡ is_known (known_in facts.now)
        (plain.Between (least true width) (exp_of number.now) (greatest true width)) }
{
    let size = half(width);
    let low = Number::new(true, size);
    let high = Number::new(false, size - 1);
    let claim = Fact::Between(low, number, high);
    let here = (&*facts).pass(Passed::Parts(&[]), 0);
    is_known(&here, &claim)
}

fn shorter_nat(
    alloc: Global,
    facts: &Facts<'_, Passed<'_>>,
    a: &Exp,
) -> Result<Option<Box<Exp>>, AllocError>
    ensures { IfOk result (λ new. option_map (λ e. exp_of e.value) new
        ≡ shorter_value (known_in facts.now) false (exp_of a.now)) }
{
    match a {
        Exp::ToWord(width, number) => {
            let holds = is_width(*width) && is_natural(facts, *width, number);
            where_true(alloc, holds, number)
        }
        _ => Ok(None),
    }
}

fn shorter_int(
    alloc: Global,
    facts: &Facts<'_, Passed<'_>>,
    a: &Exp,
) -> Result<Option<Box<Exp>>, AllocError>
    ensures { IfOk result (λ new. option_map (λ e. exp_of e.value) new
        ≡ shorter_value (known_in facts.now) true (exp_of a.now)) }
{
    match a {
        Exp::ToWord(width, number) => {
            let holds = is_width(*width) && is_integer(facts, *width, number);
            where_true(alloc, holds, number)
        }
        _ => Ok(None),
    }
}

// What a head gives where one of its parts decides it, or where it undoes another one.
fn shorter(
    alloc: Global,
    context: &Context<'_>,
    facts: &Facts<'_, Passed<'_>>,
    e: &Exp,
) -> Result<Option<Box<Exp>>, AllocError>
    ensures { IfOk result (λ new. option_map (λ e. exp_of e.value) new
        ≡ shorter (scope_in context.now) (known_in facts.now) (exp_of e.now)) }
{
    match e {
        Exp::And(a, b) => shorter_and(alloc, a, b),
        Exp::Or(a, b) => shorter_or(alloc, a, b),
        Exp::Imp(a, b) => shorter_imp(alloc, a, b),
        Exp::If(c, a, b) => shorter_if(alloc, c, a, b),
        Exp::Not(a) => shorter_not(alloc, a),
        Exp::Eq(a, b) => shorter_eq(alloc, a, b),
        Exp::Arith(op, a, b) => shorter_arith(alloc, *op, a, b),
        Exp::ToWord(width, a) => shorter_word(alloc, context, *width, a),
        Exp::ToNat(a) => shorter_nat(alloc, facts, a),
        Exp::ToInt(a) => shorter_int(alloc, facts, a),
        _ => Ok(None),
    }
}

/// What is to stand in the place of an expression, where something shorter is: constants first,
/// whole.
pub(crate) fn shortened(
    alloc: Global,
    context: &Context<'_>,
    facts: &Facts<'_, Passed<'_>>,
    e: &Exp,
) -> Result<Option<Box<Exp>>, AllocError>
    ensures { IfOk result (λ new. option_map (λ e. exp_of e.value) new
        ≡ shortened (scope_in context.now) (known_in facts.now) (exp_of e.now)) }
{
    if let Some(new) = folded(alloc, context.layout, e)? {
        return Ok(Some(new));
    }
    shorter(alloc, context, facts, e)
}
