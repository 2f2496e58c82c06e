//! The expressions that stand in a program directly, and whether one of them is one step away.

ghost use Rattle.std.specs.Prelude.{◌≡◌, ◌≢◌, ◌↔◌, IsTrue};
ghost use Rattle.expression_lang.specs.CodeExpression.{exp_of};
ghost use Rattle.ac_expr.specs.CodeApart.{IsSomeSorted};
ghost use Rattle.ac_expr.specs.CodeHeads.{children_in};
ghost use Rattle.monad_lang.specs.CodeProgram.{place_of};
ghost use Rattle.program_facts.specs.Places.{place_head};
ghost use Rattle.rule_eq.specs.Table.{OneApart, StepApart};
ghost use Rattle.rule_eq.specs.CodeExps.{write_exps, AreSomewhereSorted};
ghost use Rattle.rule_parts.specs.CodeExps.{exps_in};
ghost use Rattle.rule_eq.specs.CodeRule.{point_in};

use ac_expr::{Children, Facts, one_step, same_steps};
use expression_lang::{Exp, equal_types};
use monad_lang::Place;
use monad_sorts::{Inside, Setting};
use program_facts::Parts;
use rule_parts::Exps;

/// What is written, and where.
pub(crate) fn write_exps<'a>(place: &'a Place, value: &'a Exp) -> Children<'a>
    ensures { children_in result ≡ write_exps (place_of place.now) (exp_of value.now) }
{
    match place {
        Place::Stored(_, p, path) | Place::Written(_, p, path) => {
            Children::Between(p, path, value)
        }
        Place::Global(_, path) => Children::IndexesAnd(path, value),
    }
}

/// Whether two places are the same but for their expressions.
pub(crate) fn same_place_head(place: &Place, other: &Place) -> bool
    ensures { IsTrue result ↔ (place_head (place_of other.now) ≡ place_head (place_of place.now)) }
{
    match place {
        Place::Stored(t, _, path) => match other {
            Place::Stored(u, _, other_path) => equal_types(u, t) && same_steps(path, other_path),
            _ => false,
        },
        Place::Written(t, _, path) => match other {
            Place::Written(u, _, other_path) => equal_types(u, t) && same_steps(path, other_path),
            _ => false,
        },
        Place::Global(x, path) => match other {
            Place::Global(y, other_path) => x.as_str() == y.as_str()
                && same_steps(path, other_path),
            _ => false,
        },
    }
}

/// Whether two expressions are one step apart at a place.
pub(crate) fn is_apart(
    e: &Exp,
    other: &Exp,
    setting: Setting<'_>,
    facts: &Facts<'_, Parts<'_>>,
    inside: &Inside<'_>,
) -> bool
    requires left { IsSomeSorted (point_in setting facts.now inside.now).setting.scope
        (exp_of e.now) }
    requires right { IsSomeSorted (point_in setting facts.now inside.now).setting.scope
        (exp_of other.now) }
    ensures { IsTrue result
        ↔ StepApart (point_in setting.entry facts.now inside.now) (exp_of e.now)
        (exp_of other.now) }
{
    one_step(facts, inside, setting.layout, setting.globals, e, other)
}

/// Whether two rows of expressions are the same but for one, which is one step away.
#[tactic(auto, using(crate::proofs::OneApart::same_apart))]
pub(crate) fn are_apart(
    left: Exps<'_>,
    right: Exps<'_>,
    setting: Setting<'_>,
    facts: &Facts<'_, Parts<'_>>,
    inside: &Inside<'_>,
) -> bool
    requires left { AreSomewhereSorted (point_in setting facts.now inside.now).setting.scope
        (exps_in left) }
    requires right { AreSomewhereSorted (point_in setting facts.now inside.now).setting.scope
        (exps_in right) }
    ensures { IsTrue result
        ↔ OneApart (point_in setting.entry facts.now inside.now) (exps_in left.entry)
        (exps_in right.entry) }
{
    if same_exps(left, right) {
        is_itself_apart(left, setting, facts, inside)
    } else {
        is_one_apart(left, right, setting, facts, inside)
    }
}

// The same of rows that aren't the same.
fn is_one_apart(
    left: Exps<'_>,
    right: Exps<'_>,
    setting: Setting<'_>,
    facts: &Facts<'_, Parts<'_>>,
    inside: &Inside<'_>,
) -> bool
    requires differ { exps_in right ≢ exps_in left }
    requires left { AreSomewhereSorted (point_in setting facts.now inside.now).setting.scope
        (exps_in left) }
    requires right { AreSomewhereSorted (point_in setting facts.now inside.now).setting.scope
        (exps_in right) }
    ensures { IsTrue result
        ↔ OneApart (point_in setting.entry facts.now inside.now) (exps_in left.entry)
        (exps_in right.entry) }
{
    let mut ones = left;
    let mut others = right;
    'along: loop {
        let Some((a, behind)) = ones.next() else {
            return false;
        };
        let Some((b, rest)) = others.next() else {
            return false;
        };
        if !b.same(a) {
            return same_exps(behind, rest) && is_apart(a, b, setting, facts, inside);
        }
        ones = behind;
        others = rest;
    }
}

// Whether one of the expressions is one step away from itself.
fn is_itself_apart(
    exps: Exps<'_>,
    setting: Setting<'_>,
    facts: &Facts<'_, Parts<'_>>,
    inside: &Inside<'_>,
) -> bool
    requires { AreSomewhereSorted (point_in setting facts.now inside.now).setting.scope
        (exps_in exps) }
    ensures { IsTrue result
        ↔ OneApart (point_in setting.entry facts.now inside.now) (exps_in exps.entry)
        (exps_in exps.entry) }
{
    let mut rest = exps;
    'along: loop {
        let Some((e, behind)) = rest.next() else {
            return false;
        };
        if is_apart(e, e, setting, facts, inside) {
            return true;
        }
        rest = behind;
    }
}

// Whether two rows of expressions are the same.
fn same_exps(left: Exps<'_>, right: Exps<'_>) -> bool
    ensures { IsTrue result ↔ (exps_in right.entry ≡ exps_in left.entry) }
{
    let mut ones = left;
    let mut others = right;
    'along: loop {
        let Some((a, behind)) = ones.next() else {
            return others.next().is_none();
        };
        let Some((b, rest)) = others.next() else {
            return false;
        };
        if !b.same(a) {
            return false;
        }
        ones = behind;
        others = rest;
    }
}
