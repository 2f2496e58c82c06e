//! What the two sides leave to the parts: expressions in pairs, each seen in a way, and then claims
//! under more facts.

ghost use Rattle.std.specs.Prelude.{◌≡◌, [], ◌∷◌, List, map, IfSome, IfNone};
ghost use Rattle.expression_lang.specs.Expression as plain;
ghost use Rattle.expression_lang.specs.Sort as sorts;
ghost use Rattle.expression_lang.specs.Sort.{Scope};
ghost use Rattle.expression_lang.specs.CodeExpression.{exp_of, kind_of};
ghost use Rattle.monad_lang.specs.CodeProgram.{mon_of};
ghost use Rattle.rule_word.specs.Rule as names;
ghost use Rattle.rule_word.specs.Scopes.{words};
ghost use Rattle.rule_word.specs.CodeClaims.{firsts, lefts, rights, exp_thens, program_exps, program_thens};
ghost use Rattle.rule_word.specs.CodeRule.{rule_of, view_at};
ghost use Rattle.rule_word.specs.CodeParts.{seen_in, views_in, looks_at, looks_in, claim_in, thens_at};
ghost use Rattle.rule_parts.specs.CodeExps.{exps_in};

use crate::rule::{Rule, View};
use ac_expr::{Children, children_of};
use expression_lang::{Binder, Exp, Kind};
use monad_lang::{Mon, Place};
use rule_parts::Exps;

/// How a part is seen.
#[derive(Clone, Copy)]
pub(crate) enum Seen {
    /// So, and it is known to have the sort.
    As(View),
    /// At a kind, whose sort it may not have.
    At(Kind),
}

/// How parts are seen, one after the other.
#[derive(Clone, Copy)]
pub(crate) enum Views<'a> {
    /// Each so.
    Each(Seen),
    Kinds(&'a [Kind]),
    /// At the kinds of parameters.
    Params(&'a [Binder]),
}

impl<'a> Views<'a> {
    /// How the first is seen, and those behind it.
    pub(crate) fn next(self) -> Option<(Seen, Views<'a>)>
        ensures some { (g : Scope) (e : plain.Exp) (es : List plain.Exp) →
            IfSome result (λ (first, rest).
            views_in g (e ∷ es) self.entry ≡ seen_in g e first ∷ views_in g es rest) }
        ensures looks { IfSome result (λ (first, rest).
            (looks_in rest ≡ looks_in self.entry) × (looks_at first ≡ looks_in self.entry)) }
        ensures none { (g : Scope) (es : List plain.Exp) →
            IfNone result (views_in g es self.entry ≡ []) }
    {
        match self {
            Views::Each(seen) => Some((seen, self)),
            Views::Kinds(kinds) => match kinds.split_first() {
                Some((first, rest)) => Some((Seen::At(*first), Views::Kinds(rest))),
                None => None,
            },
            Views::Params(params) => match params.split_first() {
                Some((first, rest)) => Some((Seen::At(first.kind), Views::Params(rest))),
                None => None,
            },
        }
    }
}

/// The expressions of a side that go in pairs.
#[inline(never)]
pub(crate) fn firsts(e: &Exp) -> Exps<'_>
    ensures { exps_in result ≡ firsts (exp_of e.now) }
{
    match e {
        Exp::And(a, _) => Exps::Children(Children::One(&**a)),
        Exp::Or(a, _) => Exps::Children(Children::One(&**a)),
        Exp::Imp(a, _) => Exps::Children(Children::One(&**a)),
        Exp::If(c, _, _) => Exps::Children(Children::One(&**c)),
        _ => Exps::Children(children_of(e)),
    }
}

/// Those of the left side, by a rule.
pub(crate) fn lefts<'a>(rule: &Rule, left: &'a Exp) -> Exps<'a>
    ensures { exps_in result ≡ lefts (rule_of rule.now) (exp_of left.now) }
{
    match rule {
        Rule::Word(_) | Rule::Unat | Rule::Sint => Exps::Children(Children::One(left)),
        _ => firsts(left),
    }
}

/// Those of the right side.
pub(crate) fn rights<'a>(rule: &Rule, right: &'a Exp) -> Exps<'a>
    ensures { exps_in result ≡ rights (rule_of rule.now) (exp_of right.now) }
{
    match rule {
        Rule::Nat | Rule::Int | Rule::Zext | Rule::Sext => Exps::Children(Children::One(right)),
        _ => firsts(right),
    }
}

/// The same of a program.
#[inline(never)]
pub(crate) fn program_exps(m: &Mon) -> Exps<'_>
    ensures { exps_in result ≡ program_exps (mon_of m.now) }
{
    match m {
        Mon::Ret(exps) | Mon::Call(_, exps) => Exps::Children(Children::Listed(exps)),
        Mon::Guard(e) | Mon::If(e, _, _) => Exps::Children(Children::One(e)),
        Mon::Write(Place::Stored(_, p, path) | Place::Written(_, p, path), e) => {
            Exps::Children(Children::Between(p, path, e))
        }
        Mon::Write(Place::Global(_, path), e) => Exps::Children(Children::IndexesAnd(path, e)),
        Mon::Loop(starts, _, _, _) => Exps::Starts(starts),
        Mon::Bind(_, _, _) | Mon::Pick(_) => Exps::Children(Children::None),
    }
}

/// What is known at a part.
#[derive(Clone, Copy)]
pub(crate) enum Given<'a> {
    /// What is known at the point.
    Nothing,
    /// The expression too.
    Whole(&'a Exp),
    /// That it doesn't hold, too.
    Not(&'a Exp),
    /// These two too, the newest first.
    Both(&'a Exp, &'a Exp),
}

/// How the left side of a claim is seen.
#[derive(Clone, Copy)]
pub(crate) enum Sight {
    As(View),
    /// As a truth value.
    Truth,
}

/// A claim that is left to a part.
#[derive(Clone, Copy)]
pub(crate) enum Claim<'a> {
    Exp(Given<'a>, &'a Exp, Sight, &'a Exp),
    Program(Given<'a>, &'a Box<Mon>, &'a Box<Mon>, &'a [Kind]),
}

/// What is left behind the pairs: no claim, or one, two or three.
#[derive(Clone, Copy)]
pub(crate) enum Then<'a> {
    Nothing,
    Last(Claim<'a>),
    /// Two programs where the expression holds, and two where it doesn't.
    Branches(&'a Exp, &'a Box<Mon>, &'a Box<Mon>, &'a Box<Mon>, &'a Box<Mon>, &'a [Kind]),
    /// The same of expressions.
    Cases(&'a Box<Exp>, View, &'a Box<Exp>, &'a Box<Exp>, &'a Box<Exp>, &'a Box<Exp>),
    /// A loop's tests, where its guard holds, and then its bodies.
    Test(&'a Exp, &'a Exp, &'a Exp, &'a Box<Mon>, &'a Box<Mon>, &'a [Kind]),
    /// A loop's guards, its tests and its bodies.
    Turn(&'a Exp, &'a Exp, &'a Exp, &'a Exp, &'a Box<Mon>, &'a Box<Mon>, &'a [Kind]),
}

impl<'a> Then<'a> {
    /// The first claim, which is then no more among them.
    pub(crate) fn next(&mut self) -> Option<Claim<'a>>
        ensures some { (ctx : names.Context) (at : names.Point) → IfSome result (λ first.
            thens_at ctx at self.old ≡ claim_in ctx at first ∷ thens_at ctx at self.new) }
        ensures none { (ctx : names.Context) (at : names.Point) →
            IfNone result (thens_at ctx at self.old ≡ []) }
    {
        match *self {
            Then::Nothing => None,
            Then::Last(claim) => {
                *self = Then::Nothing;
                Some(claim)
            }
            Then::Branches(e, m, n, last, other, kinds) => {
                *self = Then::Last(Claim::Program(Given::Not(e), last, other, kinds));
                Some(Claim::Program(Given::Whole(e), m, n, kinds))
            }
            Then::Cases(e, view, a, b, last, other) => {
                *self = Then::Last(Claim::Exp(
                    Given::Not(&**e),
                    &**last,
                    Sight::As(view),
                    &**other,
                ));
                Some(Claim::Exp(Given::Whole(&**e), &**a, Sight::As(view), &**b))
            }
            Then::Test(guard, test, other, m, n, kinds) => {
                *self = Then::Last(Claim::Program(Given::Both(other, guard), m, n, kinds));
                Some(Claim::Exp(Given::Whole(guard), test, Sight::Truth, other))
            }
            Then::Turn(guard, known, test, other, m, n, kinds) => {
                *self = Then::Test(known, test, other, m, n, kinds);
                Some(Claim::Exp(Given::Nothing, guard, Sight::Truth, known))
            }
        }
    }
}

/// What two expressions leave behind the pairs.
#[tactic(auto, using(crate::proofs::PartViews::again_view))]
#[inline(never)]
pub(crate) fn exp_then<'a>(left: &'a Exp, view: View, right: &'a Exp) -> Then<'a>
    ensures { (ctx : names.Context) (at : names.Point) → let g = (words ctx at.names).scope in
        thens_at ctx at result
        ≡ exp_thens g at (exp_of left.now) (view_at g (exp_of left.now) view) (exp_of right.now) }
{
    match left {
        Exp::And(_, b) => match right {
            Exp::And(e, other) => Then::Last(Claim::Exp(
                Given::Whole(&**e),
                &**b,
                Sight::As(View::AsIs),
                &**other,
            )),
            _ => Then::Nothing,
        },
        Exp::Or(_, b) => match right {
            Exp::Or(e, other) => Then::Last(Claim::Exp(
                Given::Not(&**e),
                &**b,
                Sight::As(View::AsIs),
                &**other,
            )),
            _ => Then::Nothing,
        },
        Exp::Imp(_, b) => match right {
            Exp::Imp(e, other) => Then::Last(Claim::Exp(
                Given::Whole(&**e),
                &**b,
                Sight::As(View::AsIs),
                &**other,
            )),
            _ => Then::Nothing,
        },
        Exp::If(_, a, b) => match right {
            Exp::If(e, other, last) => Then::Cases(e, view, a, other, b, last),
            _ => Then::Nothing,
        },
        _ => Then::Nothing,
    }
}

/// What two programs leave behind the pairs.
#[inline(never)]
pub(crate) fn program_then<'a>(
    rule: &'a Rule,
    left: &'a Mon,
    right: &'a Mon,
    kinds: &'a [Kind],
) -> Then<'a>
    ensures { (ctx : names.Context) (at : names.Point) → thens_at ctx at result
        ≡ program_thens at (rule_of rule.now) (mon_of left.now) (mon_of right.now)
        (map kind_of kinds.now) }
{
    match rule {
        Rule::If => branches(left, right, kinds),
        Rule::Loop(js) => turn(left, right, js),
        _ => Then::Nothing,
    }
}

fn branches<'a>(left: &'a Mon, right: &'a Mon, kinds: &'a [Kind]) -> Then<'a>
    ensures { (ctx : names.Context) (at : names.Point) → thens_at ctx at result
        ≡ program_thens at names.If (mon_of left.now) (mon_of right.now) (map kind_of kinds.now) }
{
    match left {
        Mon::If(_, m, n) => match right {
            Mon::If(e, other, last) => Then::Branches(e, m, other, n, last, kinds),
            _ => Then::Nothing,
        },
        _ => Then::Nothing,
    }
}

fn turn<'a>(left: &'a Mon, right: &'a Mon, js: &'a [Kind]) -> Then<'a>
    ensures { (ctx : names.Context) (at : names.Point) (ks : List sorts.Kind) →
        thens_at ctx at result
        ≡ program_thens at (names.Loop (map kind_of js.now)) (mon_of left.now)
        (mon_of right.now) ks }
{
    match left {
        Mon::Loop(_, guard, test, m) => match right {
            Mon::Loop(_, known, other, n) => Then::Turn(guard, known, test, other, m, n, js),
            _ => Then::Nothing,
        },
        _ => Then::Nothing,
    }
}
