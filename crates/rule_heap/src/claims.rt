//! What the two sides leave to the parts: expressions in pairs, and then claims under more or under
//! other facts.

ghost use Rattle.std.specs.Prelude.{◌≡◌, [], ◌∷◌, List, IfSome, IfNone};
ghost use Rattle.expression_lang.specs.CodeExpression.{exp_of};
ghost use Rattle.ac_expr.specs.Fact.{Fact};
ghost use Rattle.monad_lang.specs.CodeProgram.{mon_of};
ghost use Rattle.rule_heap.specs.CodeParts.{firsts, program_exps, exp_thens, program_thens, claim_in, then_in};
ghost use Rattle.rule_parts.specs.CodeExps.{exps_in};

use ac_expr::{Children, children_of};
use expression_lang::Exp;
use monad_lang::{Mon, Place};
use rule_parts::Exps;

/// The expressions of a side that go in pairs.
#[inline(never)]
pub(crate) fn firsts(e: &Exp) -> Exps<'_>
    ensures { exps_in result ≡ firsts (exp_of e.now) }
{
    match e {
        Exp::And(a, _) => Exps::Children(Children::One(&**a)),
        Exp::Or(a, _) => Exps::Children(Children::One(&**a)),
        Exp::Imp(a, _) => Exps::Children(Children::One(&**a)),
        Exp::If(c, _, _) => Exps::Children(Children::One(&**c)),
        _ => Exps::Children(children_of(e)),
    }
}

/// The same of a program.
#[inline(never)]
pub(crate) fn program_exps(m: &Mon) -> Exps<'_>
    ensures { exps_in result ≡ program_exps (mon_of m.now) }
{
    match m {
        Mon::Ret(exps) | Mon::Call(_, exps) => Exps::Children(Children::Listed(exps)),
        Mon::Guard(e) | Mon::If(e, _, _) => Exps::Children(Children::One(e)),
        Mon::Write(Place::Stored(_, p, path) | Place::Written(_, p, path), e) => {
            Exps::Children(Children::Between(p, path, e))
        }
        Mon::Write(Place::Global(_, path), e) => Exps::Children(Children::IndexesAnd(path, e)),
        Mon::Loop(starts, _, _, _) => Exps::Starts(starts),
        Mon::Bind(_, _, _) | Mon::Pick(_) => Exps::Children(Children::None),
    }
}

/// What is known at a part.
#[derive(Clone, Copy)]
pub(crate) enum Given<'a> {
    Nothing,
    /// What is known at the node, and the expression.
    Whole(&'a Exp),
    /// And that it doesn't hold.
    Not(&'a Exp),
    /// This alone.
    Only(&'a Exp),
    /// These alone, the newest first.
    Both(&'a Exp, &'a Exp),
}

/// A claim that is left to a part.
#[derive(Clone, Copy)]
pub(crate) enum Claim<'a> {
    Program(Given<'a>, &'a Box<Mon>, &'a Box<Mon>),
    Exp(Given<'a>, &'a Exp, &'a Exp),
}

/// What is left behind the pairs: no claim, or one, two or three.
#[derive(Clone, Copy)]
pub(crate) enum Then<'a> {
    Nothing,
    Last(Claim<'a>),
    /// Two programs where the expression holds, and two where it doesn't.
    Branches(&'a Exp, &'a Box<Mon>, &'a Box<Mon>, &'a Box<Mon>, &'a Box<Mon>),
    /// The same of expressions.
    Cases(&'a Box<Exp>, &'a Box<Exp>, &'a Box<Exp>, &'a Box<Exp>, &'a Box<Exp>),
    /// A loop's tests, where its guard holds, and then its bodies.
    Test(&'a Exp, &'a Exp, &'a Exp, &'a Box<Mon>, &'a Box<Mon>),
    /// A loop's guards, its tests and its bodies.
    Turn(&'a Exp, &'a Exp, &'a Exp, &'a Exp, &'a Box<Mon>, &'a Box<Mon>),
}

impl<'a> Then<'a> {
    /// The first claim, which is then no more among them.
    pub(crate) fn next(&mut self) -> Option<Claim<'a>>
        ensures some { (fs : List Fact) → IfSome result (λ first.
            then_in fs self.old ≡ claim_in fs first ∷ then_in fs self.new) }
        ensures none { (fs : List Fact) → IfNone result (then_in fs self.old ≡ []) }
    {
        match *self {
            Then::Nothing => None,
            Then::Last(claim) => {
                *self = Then::Nothing;
                Some(claim)
            }
            Then::Branches(e, m, n, last, other) => {
                *self = Then::Last(Claim::Program(Given::Not(e), last, other));
                Some(Claim::Program(Given::Whole(e), m, n))
            }
            Then::Cases(e, a, b, last, other) => {
                *self = Then::Last(Claim::Exp(Given::Not(&**e), &**last, &**other));
                Some(Claim::Exp(Given::Whole(&**e), &**a, &**b))
            }
            Then::Test(guard, test, other, m, n) => {
                *self = Then::Last(Claim::Program(Given::Both(other, guard), m, n));
                Some(Claim::Exp(Given::Only(guard), test, other))
            }
            Then::Turn(guard, known, test, other, m, n) => {
                *self = Then::Test(known, test, other, m, n);
                Some(Claim::Exp(Given::Nothing, guard, known))
            }
        }
    }
}

/// What two expressions leave behind the pairs.
#[inline(never)]
pub(crate) fn exp_thens<'a>(left: &'a Exp, right: &'a Exp) -> Then<'a>
    ensures { (fs : List Fact) → then_in fs result
        ≡ exp_thens fs (exp_of left.now) (exp_of right.now) }
{
    match left {
        Exp::And(_, b) => match right {
            Exp::And(e, other) => Then::Last(Claim::Exp(Given::Whole(&**e), &**b, &**other)),
            _ => Then::Nothing,
        },
        Exp::Or(_, b) => match right {
            Exp::Or(e, other) => Then::Last(Claim::Exp(Given::Not(&**e), &**b, &**other)),
            _ => Then::Nothing,
        },
        Exp::Imp(_, b) => match right {
            Exp::Imp(e, other) => Then::Last(Claim::Exp(Given::Whole(&**e), &**b, &**other)),
            _ => Then::Nothing,
        },
        Exp::If(_, a, b) => match right {
            Exp::If(e, other, last) => Then::Cases(e, a, other, b, last),
            _ => Then::Nothing,
        },
        _ => Then::Nothing,
    }
}

/// What two programs leave behind the pairs.
#[inline(never)]
pub(crate) fn program_thens<'a>(left: &'a Mon, right: &'a Mon) -> Then<'a>
    ensures { (fs : List Fact) → then_in fs result
        ≡ program_thens fs (mon_of left.now) (mon_of right.now) }
{
    match left {
        Mon::If(_, m, n) => match right {
            Mon::If(e, other, last) => Then::Branches(e, m, other, n, last),
            _ => Then::Nothing,
        },
        Mon::Loop(_, guard, test, m) => match right {
            Mon::Loop(_, known, other, n) => Then::Turn(guard, known, test, other, m, n),
            _ => Then::Nothing,
        },
        _ => Then::Nothing,
    }
}
