//! Whether two expressions are one step apart.

ghost use Rattle.std.specs.Prelude.{◌≡◌, ◌≢◌, ◌↔◌, IsTrue, IfSome, IfNone, List};
ghost use Rattle.expression_lang.specs.CodeExpression.{exp_of};
ghost use Rattle.expression_lang.specs.CodeSort.{scope_by};
ghost use Rattle.expression_lang.specs.Expression as plain;
ghost use Rattle.expression_lang.specs.Sort.{Scope as Scoped};
ghost use Rattle.ac_expr.specs.Fact.{Fact as Plain};
ghost use Rattle.ac_expr.specs.Heads.{children, head};
ghost use Rattle.ac_expr.specs.Step.{OneStepApart, OneOfThem, at_each, child_facts};
ghost use Rattle.ac_expr.specs.CodeApart.{IsAmong, IsSomeSorted};
ghost use Rattle.ac_expr.specs.CodeChain.{facts_of};
ghost use Rattle.ac_expr.specs.CodeHeads.{children_in};
ghost use Rattle.ac_expr.specs.CodeTurn.{TurnSays, TurnsInside};

use crate::chain::{Facts, Sequence};
use crate::facts::Fact;
use crate::heads_alike::{Children, children_of, same_head};
use crate::steps::is_step;
use c_values::{GlobalVar, Layout};
use expression_lang::{Exp, Scope, Test};

/// A constant that is its own value.
#[derive(Clone, Copy)]
struct IsLiteral;

impl Test for IsLiteral {
    ghost use Rattle.ac_expr.specs.CodeApart.{is_literal};

    ghost holds = { λ _ e. is_literal e };

    fn holds(&self, e: &Exp) -> bool {
        match e {
            Exp::Word(_) | Exp::Truth(_) => true,
            Exp::Number(n) => {
                let _magnitude = n.magnitude();
                true
            }
            _ => false,
        }
    }
}

// Whether two lists are the same.
fn same_children(left: Children<'_>, right: Children<'_>) -> bool
    ensures { IsTrue result ↔ (children_in right.entry ≡ children_in left.entry) }
{
    let mut ones = left;
    let mut others = right;
    'along: loop {
        let Some((a, behind)) = ones.next() else {
            return others.next().is_none();
        };
        let Some((b, rest)) = others.next() else {
            return false;
        };
        if !b.same(a) {
            return false;
        }
        ones = behind;
        others = rest;
    }
}

// Two expressions of two lists.
type Pair<'a> = (&'a Exp, &'a Exp);

// The only two that differ, where two lists differ.
fn changed_child<'a>(left: Children<'a>, right: Children<'a>) -> Option<Pair<'a>>
    requires { children_in right ≢ children_in left }
    ensures some { (g : Scoped) (fs : List Plain) → IfSome result (λ (x, y).
        OneOfThem g (at_each fs (children_in left.entry)) (children_in left.entry)
        (children_in right.entry)
        ↔ OneStepApart g fs (exp_of x.now) (exp_of y.now)) }
    ensures none { (g : Scoped) (fs : List Plain) → IfNone result
        (OneOfThem g (at_each fs (children_in left.entry)) (children_in left.entry)
        (children_in right.entry) → ⊥) }
    ensures left { IfSome result (λ (x, y). IsAmong (exp_of x.now) (children_in left.entry)) }
    ensures right { IfSome result (λ (x, y). IsAmong (exp_of y.now) (children_in right.entry)) }
    ensures differ { IfSome result (λ (x, y). exp_of y.now ≢ exp_of x.now) }
{
    let mut ones = left;
    let mut others = right;
    'along: loop {
        let Some((a, behind)) = ones.next() else {
            return None;
        };
        let Some((b, rest)) = others.next() else {
            return None;
        };
        if !b.same(a) {
            if same_children(behind, rest) {
                return Some((a, b));
            }
            return None;
        }
        ones = behind;
        others = rest;
    }
}

/// Where two expressions with one head differ.
#[derive(Clone, Copy)]
pub(crate) enum Turn<'a> {
    /// In no child alone.
    Nowhere,
    /// In this child of the first and that of the second, where no more is known.
    Child(&'a Exp, &'a Exp),
    /// In these, where the first expression holds.
    Where(&'a Exp, &'a Exp, &'a Exp),
    /// In these, where the first expression doesn't hold.
    Unless(&'a Exp, &'a Exp, &'a Exp),
}

// Where two `and`s differ.
#[tactic(auto, using(crate::proofs::ApartThere::first_of_two, crate::proofs::ApartThere::second_of_two, crate::proofs::ApartThere::none_of_two))]
fn turn_and<'a>(a: &'a Exp, b: &'a Exp, c: &'a Exp, d: &'a Exp) -> Turn<'a>
    requires { plain.And (exp_of c.now) (exp_of d.now) ≢ plain.And (exp_of a.now) (exp_of b.now) }
    ensures says { (g : Scoped) (fs : List Plain) → TurnSays result g fs
        (plain.And (exp_of a.now) (exp_of b.now)) (plain.And (exp_of c.now) (exp_of d.now)) }
    ensures inside { TurnsInside result
        (plain.And (exp_of a.now) (exp_of b.now)) (plain.And (exp_of c.now) (exp_of d.now)) }
{
    if c.same(a) {
        Turn::Where(a, b, d)
    } else if d.same(b) {
        Turn::Child(a, c)
    } else {
        Turn::Nowhere
    }
}

// Where two `or`s differ.
#[tactic(auto, using(crate::proofs::ApartThere::first_of_two, crate::proofs::ApartThere::second_of_two, crate::proofs::ApartThere::none_of_two))]
fn turn_or<'a>(a: &'a Exp, b: &'a Exp, c: &'a Exp, d: &'a Exp) -> Turn<'a>
    requires { plain.Or (exp_of c.now) (exp_of d.now) ≢ plain.Or (exp_of a.now) (exp_of b.now) }
    ensures says { (g : Scoped) (fs : List Plain) → TurnSays result g fs
        (plain.Or (exp_of a.now) (exp_of b.now)) (plain.Or (exp_of c.now) (exp_of d.now)) }
    ensures inside { TurnsInside result
        (plain.Or (exp_of a.now) (exp_of b.now)) (plain.Or (exp_of c.now) (exp_of d.now)) }
{
    if c.same(a) {
        Turn::Unless(a, b, d)
    } else if d.same(b) {
        Turn::Child(a, c)
    } else {
        Turn::Nowhere
    }
}

// Where two `imp`s differ.
#[tactic(auto, using(crate::proofs::ApartThere::first_of_two, crate::proofs::ApartThere::second_of_two, crate::proofs::ApartThere::none_of_two))]
fn turn_imp<'a>(a: &'a Exp, b: &'a Exp, c: &'a Exp, d: &'a Exp) -> Turn<'a>
    requires { plain.Imp (exp_of c.now) (exp_of d.now) ≢ plain.Imp (exp_of a.now) (exp_of b.now) }
    ensures says { (g : Scoped) (fs : List Plain) → TurnSays result g fs
        (plain.Imp (exp_of a.now) (exp_of b.now)) (plain.Imp (exp_of c.now) (exp_of d.now)) }
    ensures inside { TurnsInside result
        (plain.Imp (exp_of a.now) (exp_of b.now)) (plain.Imp (exp_of c.now) (exp_of d.now)) }
{
    if c.same(a) {
        Turn::Where(a, b, d)
    } else if d.same(b) {
        Turn::Child(a, c)
    } else {
        Turn::Nowhere
    }
}

// Where two choices differ.
#[tactic(auto, using(crate::proofs::ApartThere::first_of_three, crate::proofs::ApartThere::second_of_three, crate::proofs::ApartThere::third_of_three, crate::proofs::ApartThere::none_of_three, crate::proofs::ApartThere::more_than_first))]
fn turn_if<'a>(c: &'a Exp, a: &'a Exp, b: &'a Exp, d: &'a Exp, x: &'a Exp, y: &'a Exp) -> Turn<'a>
    requires { plain.If (exp_of d.now) (exp_of x.now) (exp_of y.now)
        ≢ plain.If (exp_of c.now) (exp_of a.now) (exp_of b.now) }
    ensures says { (g : Scoped) (fs : List Plain) → TurnSays result g fs
        (plain.If (exp_of c.now) (exp_of a.now) (exp_of b.now))
        (plain.If (exp_of d.now) (exp_of x.now) (exp_of y.now)) }
    ensures inside { TurnsInside result
        (plain.If (exp_of c.now) (exp_of a.now) (exp_of b.now))
        (plain.If (exp_of d.now) (exp_of x.now) (exp_of y.now)) }
{
    if !d.same(c) {
        return if x.same(a) && y.same(b) {
            Turn::Child(c, d)
        } else {
            Turn::Nowhere
        };
    }
    if x.same(a) {
        Turn::Unless(c, b, y)
    } else if y.same(b) {
        Turn::Where(c, a, x)
    } else {
        Turn::Nowhere
    }
}

// Where two other expressions differ.
fn turn_plain<'a>(left: &'a Exp, right: &'a Exp) -> Turn<'a>
    requires head { head (exp_of right.now) ≡ head (exp_of left.now) }
    requires differ { exp_of right.now ≢ exp_of left.now }
    requires facts { (fs : List Plain) → child_facts fs (exp_of left.now)
        ≡ at_each fs (children (exp_of left.now)) }
    ensures says { (g : Scoped) (fs : List Plain) → TurnSays result g fs
        (exp_of left.now) (exp_of right.now) }
    ensures inside { TurnsInside result (exp_of left.now) (exp_of right.now) }
{
    match changed_child(children_of(left), children_of(right)) {
        Some((x, y)) => Turn::Child(x, y),
        None => Turn::Nowhere,
    }
}

// Where two expressions with one head differ.
#[inline(never)]
fn turned<'a>(left: &'a Exp, right: &'a Exp) -> Turn<'a>
    requires head { head (exp_of right.now) ≡ head (exp_of left.now) }
    requires differ { exp_of right.now ≢ exp_of left.now }
    ensures says { (g : Scoped) (fs : List Plain) → TurnSays result g fs
        (exp_of left.now) (exp_of right.now) }
    ensures inside { TurnsInside result (exp_of left.now) (exp_of right.now) }
{
    match left {
        Exp::And(a, b) => match right {
            Exp::And(c, d) => turn_and(a, b, c, d),
            _ => unreachable!(),
        },
        Exp::Or(a, b) => match right {
            Exp::Or(c, d) => turn_or(a, b, c, d),
            _ => unreachable!(),
        },
        Exp::Imp(a, b) => match right {
            Exp::Imp(c, d) => turn_imp(a, b, c, d),
            _ => unreachable!(),
        },
        Exp::If(c, a, b) => match right {
            Exp::If(d, x, y) => turn_if(c, a, b, d, x, y),
            _ => unreachable!(),
        },
        _ => turn_plain(left, right),
    }
}

// Whether two expressions that aren't the same are one step apart. It goes down by a loop, but
// where one fact more is known.
#[cycle(apart)]
fn are_apart<S: Sequence, N: Scope>(
    facts: &Facts<'_, S>,
    names: &N,
    l: &Layout,
    globals: &[GlobalVar],
    a: &Exp,
    b: &Exp,
) -> bool
    requires differ { exp_of b.now ≢ exp_of a.now }
    requires left { IsSomeSorted (scope_by l.now (N.scalars names.now) globals.now)
        (exp_of a.now) }
    requires right { IsSomeSorted (scope_by l.now (N.scalars names.now) globals.now)
        (exp_of b.now) }
    ensures { IsTrue result ↔ OneStepApart (scope_by l.now (N.scalars names.now) globals.now)
        (facts_of (S.parts) facts.now) (exp_of a.now) (exp_of b.now) }
{
    let mut left = a;
    let mut right = b;
    'down: loop {
        if is_step(left, right, facts, names, l, globals) {
            return true;
        }
        if is_step(right, left, facts, names, l, globals) {
            return true;
        }
        if !same_head(left, right) {
            return false;
        }
        match turned(left, right) {
            Turn::Nowhere => return false,
            Turn::Child(x, y) => {
                left = x;
                right = y;
            }
            Turn::Where(e, x, y) => {
                let fact = Fact::Whole(e);
                let known = (&*facts).with(&fact);
                return are_apart(&known, names, l, globals, x, y);
            }
            Turn::Unless(e, x, y) => {
                let fact = Fact::Not(e);
                let known = (&*facts).with(&fact);
                return are_apart(&known, names, l, globals, x, y);
            }
        }
    }
}

/// Whether two expressions are the same but for one place, where a step of the table in `specs/Step`
/// leads from one to the other, either way, by what is known there. Both are well-sorted in some
/// scope; the steps that ask for a width take it from these names. It takes no memory.
#[tactic(auto, using(crate::proofs::ApartThere::apart_from_itself, crate::proofs::ApartThere::itself_apart))]
pub fn one_step<S: Sequence, N: Scope>(
    facts: &Facts<'_, S>,
    names: &N,
    l: &Layout,
    globals: &[GlobalVar],
    a: &Exp,
    b: &Exp,
) -> bool
    requires left { IsSomeSorted (scope_by l.now (N.scalars names.now) globals.now)
        (exp_of a.now) }
    requires right { IsSomeSorted (scope_by l.now (N.scalars names.now) globals.now)
        (exp_of b.now) }
    ensures { IsTrue result ↔ OneStepApart (scope_by l.now (N.scalars names.now) globals.now)
        (facts_of (S.parts) facts.now) (exp_of a.now) (exp_of b.now) }
{
    if b.same(a) {
        a.any(&IsLiteral)
    } else {
        are_apart(facts, names, l, globals, a, b)
    }
}
