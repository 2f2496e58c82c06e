//! Which expression another one is, made simpler by one row of the table of steps.

ghost use Rattle.std.specs.Prelude.{◌≡◌, ◌-◌, ◌^◌, ◌<◌, ◌↔◌, true, false, IsTrue, List, Some, pos};
ghost use Rattle.std.specs.Option.{option_map};
ghost use Rattle.c_values.specs.CodeNumber.{number_op_of};
ghost use Rattle.c_values.specs.Number.{least, greatest};
ghost use Rattle.c_values.specs.Value.{Value};
ghost use Rattle.expression_lang.specs.CodeExpression.{exp_of};
ghost use Rattle.expression_lang.specs.CodeSort.{scope_by, sort_value};
ghost use Rattle.expression_lang.specs.Expression as plain;
ghost use Rattle.expression_lang.specs.Sort.{Scope as Scoped, is_width, sort_of, word_width};
ghost use Rattle.ac_expr.specs.Fact.{Fact as Plain};
ghost use Rattle.ac_expr.specs.Step.{IsFlag, IsInWord, IsItsValue, IsStep, Shortens, constant};
ghost use Rattle.ac_expr.specs.CodeApart.{IsSomeSorted};
ghost use Rattle.ac_expr.specs.CodeChain.{facts_of};
ghost use Rattle.ac_expr.specs.CodeConstant.{constant_in};

use crate::chain::{Facts, Sequence};
use crate::constants::{Constant, computed};
use crate::facts::Fact;
use crate::knowing::known;
use c_values::{GlobalVar, Layout, Number, NumberOp, Word, same_number, same_truth};
use expression_lang::{Exp, Scalar, Scope, Sort, sort_of};

// Whether an expression is this constant.
fn is_truth(e: &Exp, truth: bool) -> bool
    ensures { IsTrue result ↔ (exp_of e.now ≡ plain.TruthLit truth) }
{
    match e {
        Exp::Truth(own) => same_truth(*own, truth),
        _ => false,
    }
}

fn drops_and(x: &Exp, y: &Exp, b: &Exp) -> bool
    ensures { (g : Scoped) (fs : List Plain) → IsTrue result
        ↔ Shortens g fs (plain.And (exp_of x.now) (exp_of y.now)) (exp_of b.now) }
{
    is_truth(x, true) && b.same(y)
        || is_truth(y, true) && b.same(x)
        || is_truth(x, false) && is_truth(b, false)
}

fn drops_or(x: &Exp, y: &Exp, b: &Exp) -> bool
    ensures { (g : Scoped) (fs : List Plain) → IsTrue result
        ↔ Shortens g fs (plain.Or (exp_of x.now) (exp_of y.now)) (exp_of b.now) }
{
    is_truth(x, false) && b.same(y) || is_truth(x, true) && is_truth(b, true)
}

fn drops_imp(x: &Exp, y: &Exp, b: &Exp) -> bool
    ensures { (g : Scoped) (fs : List Plain) → IsTrue result
        ↔ Shortens g fs (plain.Imp (exp_of x.now) (exp_of y.now)) (exp_of b.now) }
{
    is_truth(x, true) && b.same(y) || is_truth(x, false) && is_truth(b, true)
}

fn drops_if(c: &Exp, x: &Exp, y: &Exp, b: &Exp) -> bool
    ensures { (g : Scoped) (fs : List Plain) → IsTrue result
        ↔ Shortens g fs (plain.If (exp_of c.now) (exp_of x.now) (exp_of y.now)) (exp_of b.now) }
{
    is_truth(c, true) && b.same(x) || is_truth(c, false) && b.same(y) || y.same(x) && b.same(x)
}

fn drops_eq(x: &Exp, y: &Exp, b: &Exp) -> bool
    ensures { (g : Scoped) (fs : List Plain) → IsTrue result
        ↔ Shortens g fs (plain.Eq (exp_of x.now) (exp_of y.now)) (exp_of b.now) }
{
    y.same(x) && is_truth(b, true)
}

fn is_zero(e: &Exp) -> bool
    ensures { IsTrue result ↔ (exp_of e.now ≡ plain.NumberLit (pos 0)) }
{
    match e {
        Exp::Number(n) => same_number(*n, Number::new(false, 0)),
        _ => false,
    }
}

fn drops_arith(op: NumberOp, x: &Exp, y: &Exp, b: &Exp) -> bool
    ensures { (g : Scoped) (fs : List Plain) → IsTrue result
        ↔ Shortens g fs (plain.Arith (number_op_of op) (exp_of x.now) (exp_of y.now))
        (exp_of b.now) }
{
    match op {
        NumberOp::Add => is_zero(y) && b.same(x),
        _ => false,
    }
}

// Whether words are 1, 0 and 0 of one width.
fn is_flag(u: Word, v: Word, w: Word) -> bool
    ensures { IsTrue result ↔ IsFlag u v w }
{
    u.width() == w.width()
        && u.bits() == 1
        && v.width() == w.width()
        && v.bits() == w.bits()
        && w.bits() == 0
}

fn drops_flag(x: &Exp, y: &Exp, b: &Exp) -> bool
    ensures { (g : Scoped) (fs : List Plain) → IsTrue result
        ↔ Shortens g fs (plain.Not (plain.Eq (exp_of x.now) (exp_of y.now))) (exp_of b.now) }
{
    match x {
        Exp::If(c, one, zero) => match &**one {
            Exp::Word(u) => match &**zero {
                Exp::Word(v) => match y {
                    Exp::Word(w) => is_flag(*u, *v, *w) && b.same(c),
                    _ => false,
                },
                _ => false,
            },
            _ => false,
        },
        _ => false,
    }
}

fn drops_not(x: &Exp, b: &Exp) -> bool
    ensures { (g : Scoped) (fs : List Plain) → IsTrue result
        ↔ Shortens g fs (plain.Not (exp_of x.now)) (exp_of b.now) }
{
    match x {
        Exp::Not(inner) => b.same(inner),
        Exp::Eq(y, z) => drops_flag(y, z, b),
        _ => false,
    }
}

fn has_width(sort: Option<Sort<'_>>, width: u8) -> bool
    ensures { IsTrue result ↔ (word_width (option_map sort_value sort.entry) ≡ Some width) }
{
    match sort {
        Some(Sort::Of(Scalar::Word(own))) => own == width,
        _ => false,
    }
}

// Whether an expression is a word of this width.
fn is_word_of<N: Scope>(width: u8, e: &Exp, names: &N, l: &Layout, globals: &[GlobalVar]) -> bool
    ensures { IsTrue result
        ↔ (word_width (sort_of (scope_by l.now (N.scalars names.now) globals.now) (exp_of e.now))
        ≡ Some width) }
{
    has_width(sort_of(e, names, l, globals), width)
}

fn drops_word<N: Scope>(
    width: u8,
    x: &Exp,
    b: &Exp,
    names: &N,
    l: &Layout,
    globals: &[GlobalVar],
) -> bool
    ensures { (fs : List Plain) → IsTrue result
        ↔ Shortens (scope_by l.now (N.scalars names.now) globals.now) fs
        (plain.ToWord width (exp_of x.now)) (exp_of b.now) }
{
    match x {
        Exp::ToNat(inner) | Exp::ToInt(inner) => {
            b.same(inner) && is_word_of(width, inner, names, l, globals)
        }
        _ => false,
    }
}

// The greatest word of a width.
fn greatest_word(width: u8) -> u128
    requires { is_width width ≡ true }
    ensures { result ≡ 2 ^ width - 1 }
{
    match width {
        8 => 0xff,
        16 => 0xffff,
        32 => 0xffff_ffff,
        _ => 0xffff_ffff_ffff_ffff,
    }
}

// The size of the least signed value.
fn half(width: u8) -> u128
    requires { is_width width ≡ true }
    ensures value { result ≡ 2 ^ (width - 1) }
    ensures positive { 0 < result }
{
    match width {
        8 => 0x80,
        16 => 0x8000,
        32 => 0x8000_0000,
        _ => 0x8000_0000_0000_0000,
    }
}

// Whether a number is known to be the unsigned value of a word of the width.
fn is_natural<S: Sequence>(number: &Exp, width: u8, facts: &Facts<'_, S>) -> bool
    requires { is_width width ≡ true }
    ensures { IsTrue result
        ↔ IsInWord (facts_of (S.parts) facts.now) false width (exp_of number.now) }
{
    let low = Number::new(false, 0);
    let high = Number::new(false, greatest_word(width));
    known(facts, &Fact::Between(low, number, high))
}

// The same of the signed value.
fn is_integer<S: Sequence>(number: &Exp, width: u8, facts: &Facts<'_, S>) -> bool
    requires { is_width width ≡ true }
    ensures { IsTrue result
        ↔ IsInWord (facts_of (S.parts) facts.now) true width (exp_of number.now) }
{
    let size = half(width);
    let low = Number::new(true, size);
    let high = Number::new(false, size - 1);
    known(facts, &Fact::Between(low, number, high))
}

#[tactic(auto, using(crate::proofs::StepSorts::nat_width))]
fn drops_nat<S: Sequence>(x: &Exp, b: &Exp, facts: &Facts<'_, S>) -> bool
    requires { (g : Scoped) × IsSomeSorted g (plain.ToNat (exp_of x.now)) }
    ensures { (g : Scoped) → IsTrue result ↔ Shortens g (facts_of (S.parts) facts.now)
        (plain.ToNat (exp_of x.now)) (exp_of b.now) }
{
    match x {
        Exp::ToWord(width, number) => b.same(number) && is_natural(number, *width, facts),
        _ => false,
    }
}

#[tactic(auto, using(crate::proofs::StepSorts::int_width))]
fn drops_int<S: Sequence>(x: &Exp, b: &Exp, facts: &Facts<'_, S>) -> bool
    requires { (g : Scoped) × IsSomeSorted g (plain.ToInt (exp_of x.now)) }
    ensures { (g : Scoped) → IsTrue result ↔ Shortens g (facts_of (S.parts) facts.now)
        (plain.ToInt (exp_of x.now)) (exp_of b.now) }
{
    match x {
        Exp::ToWord(width, number) => b.same(number) && is_integer(number, *width, facts),
        _ => false,
    }
}

// What a head gives where one of its parts decides it, or where it undoes another one.
fn shortens<S: Sequence, N: Scope>(
    a: &Exp,
    b: &Exp,
    facts: &Facts<'_, S>,
    names: &N,
    l: &Layout,
    globals: &[GlobalVar],
) -> bool
    requires { IsSomeSorted (scope_by l.now (N.scalars names.now) globals.now) (exp_of a.now) }
    ensures { IsTrue result ↔ Shortens (scope_by l.now (N.scalars names.now) globals.now)
        (facts_of (S.parts) facts.now) (exp_of a.now) (exp_of b.now) }
{
    match a {
        Exp::Not(x) => drops_not(x, b),
        Exp::And(x, y) => drops_and(x, y, b),
        Exp::Or(x, y) => drops_or(x, y, b),
        Exp::Imp(x, y) => drops_imp(x, y, b),
        Exp::If(c, x, y) => drops_if(c, x, y, b),
        Exp::Eq(x, y) => drops_eq(x, y, b),
        Exp::Arith(op, x, y) => drops_arith(*op, x, y, b),
        Exp::ToWord(width, x) => drops_word(*width, x, b, names, l, globals),
        Exp::ToNat(x) => drops_nat(x, b, facts),
        Exp::ToInt(x) => drops_int(x, b, facts),
        _ => false,
    }
}

// Whether an expression may be a constant's value.
fn is_constant(e: &Exp) -> bool
    ensures { result ≡ false → (v : Value) → constant v ≡ Some (exp_of e.now) → ⊥ }
{
    matches!(e, Exp::Word(_) | Exp::Number(_) | Exp::Truth(_))
}

// Whether an expression is this constant.
fn is_literal(value: Constant, e: &Exp) -> bool
    ensures { IsTrue result ↔ (constant (constant_in value) ≡ Some (exp_of e.now)) }
{
    match value {
        Constant::Word(v) => match e {
            Exp::Word(w) => w.width() == v.width() && w.bits() == v.bits(),
            _ => false,
        },
        Constant::Number(m) => match e {
            Exp::Number(n) => same_number(*n, m),
            _ => false,
        },
        Constant::Truth(x) => is_truth(e, x),
    }
}

// Whether the first is of constants alone, and the second is its value. There is nothing to compute
// where the second is no constant.
fn is_its_value(a: &Exp, b: &Exp, l: &Layout) -> bool
    requires { (g : Scoped) × (g.layout ≡ l.now) × IsSomeSorted g (exp_of a.now) }
    ensures { IsTrue result ↔ IsItsValue l.now (exp_of a.now) (exp_of b.now) }
{
    if !is_constant(b) {
        return false;
    }
    match computed(a, l) {
        Some(value) => is_literal(value, b),
        None => false,
    }
}

/// Whether a row of the table takes the first to the second.
pub(crate) fn is_step<S: Sequence, N: Scope>(
    a: &Exp,
    b: &Exp,
    facts: &Facts<'_, S>,
    names: &N,
    l: &Layout,
    globals: &[GlobalVar],
) -> bool
    requires { IsSomeSorted (scope_by l.now (N.scalars names.now) globals.now) (exp_of a.now) }
    ensures { IsTrue result ↔ IsStep (scope_by l.now (N.scalars names.now) globals.now)
        (facts_of (S.parts) facts.now) (exp_of a.now) (exp_of b.now) }
{
    shortens(a, b, facts, names, l, globals) || is_its_value(a, b, l)
}
