//! Whether all names of a function are kept: none is lost, and what is free is a parameter.

ghost use Rattle.std.specs.Prelude.{◌≡◌, ℕ, IsTrue, true, map, drop, string_bytes};
ghost use Rattle.c_values.specs.Name.{Name, is_among};
ghost use Rattle.expression_lang.specs.CodeSignature.{binder_of};
ghost use Rattle.expression_lang.specs.Signature.{names_of};
ghost use Rattle.simpl_lang.specs.CodeCommand.{simpl_of};
ghost use Rattle.monad_lang.specs.CodeProgram.{mon_of};
ghost use Rattle.rule_local.specs.Rule.{Start};
ghost use Rattle.rule_local.specs.Table.{AllFreeAmong};
ghost use Rattle.rule_local.specs.CodeMarks.{IsMarkable};
ghost use Rattle.rule_local.specs.CodePlaces.{uses_at};
ghost use Rattle.rule_local.specs.CodeRule.{rule_of, context_of};
ghost use Rattle.rule_local.specs.CodeUses.{IsKept, LosesNone, uses_in};

use crate::carried::assigns_only;
use crate::passing::{among, bound, free};
use crate::rule::{Context, Rule};
use crate::strays::names_only;
use crate::uses::{Passed, Uses, uses_along};
use expression_lang::Binder;
use monad_lang::Mon;
use simpl_lang::Simpl;

/// Whether no name is lost in the body of a function, and each that is free in its program is a
/// parameter. It may say no where a name is no local.
pub(crate) fn are_names_kept(
    rule: Rule,
    left: &Simpl,
    right: &Mon,
    outputs: &[String],
    context: Context<'_>,
) -> bool
    ensures lost { IsTrue result → LosesNone (rule_of rule) (simpl_of left.now) (mon_of right.now)
        (map string_bytes outputs.now) }
    ensures free { IsTrue result →
        AllFreeAmong (context_of context.entry).parameters (mon_of right.now) }
{
    assigns_only(context.locals, left)
        && names_only(context.locals, right)
        && are_locals_kept(rule, left, right, outputs, context)
}

// Whether no local is lost, and each that is free is a parameter. Each walk is for 64 locals.
fn are_locals_kept(
    rule: Rule,
    left: &Simpl,
    right: &Mon,
    outputs: &[String],
    context: Context<'_>,
) -> bool
    ensures { IsTrue result → (y : Name) →
        is_among y (names_of (context_of context.entry).locals) ≡ true →
        IsKept (rule_of rule) (context_of context.entry).parameters (simpl_of left.now)
        (mon_of right.now) (map string_bytes outputs.now) y }
{
    let mut rest = context.locals;
    'windows: while !rest.is_empty() {
        if !are_kept(rest, rule, left, right, outputs, context.parameters) {
            return false;
        }
        rest = behind(rest);
    }
    true
}

// The binders behind the first 64.
fn behind(binders: &[Binder]) -> &[Binder]
    ensures { result.now ≡ drop 64 binders.now }
{
    let (_, rest) = binders.split_at(binders.len().min(64));
    rest
}

// Whether none of the first 64 names is lost, and each that is free is a parameter.
fn are_kept(
    window: &[Binder],
    rule: Rule,
    left: &Simpl,
    right: &Mon,
    outputs: &[String],
    parameters: &[Binder],
) -> bool
    ensures { IsTrue result → (i : ℕ) (y : Name) →
        IsMarkable (names_of (map binder_of window.now)) i y →
        IsKept (rule_of rule) (names_of (map binder_of parameters.now)) (simpl_of left.now)
        (mon_of right.now) (map string_bytes outputs.now) y }
{
    let uses = whole_uses(window, rule, left, right, outputs);
    let strays = uses.free.but(bound(window, parameters));
    uses.lost.or(strays).is_none()
}

// What becomes of the first 64 names in the body of a function, whose program may begin with the
// zeros of locals.
fn whole_uses(window: &[Binder], rule: Rule, left: &Simpl, right: &Mon, outputs: &[String]) -> Uses
    ensures { (i : ℕ) (y : Name) → IsMarkable (names_of (map binder_of window.now)) i y →
        uses_at i result ≡ uses_in (rule_of rule) y (simpl_of left.now) (mon_of right.now)
        (map string_bytes outputs.now) }
{
    match rule {
        Rule::Start => started_uses(window, left, right, outputs),
        _ => uses_along(window, left, right, outputs),
    }
}

// The same where the program begins so.
fn started_uses(window: &[Binder], left: &Simpl, right: &Mon, outputs: &[String]) -> Uses
    ensures { (i : ℕ) (y : Name) → IsMarkable (names_of (map binder_of window.now)) i y →
        uses_at i result ≡ uses_in Start y (simpl_of left.now) (mon_of right.now)
        (map string_bytes outputs.now) }
{
    match right {
        Mon::Bind(first, names, last) => {
            let zeros = Uses::only_free(free(window, first));
            let passed = Passed::none().after(zeros, among(window, names));
            passed.ended(uses_along(window, left, last, outputs))
        }
        _ => uses_along(window, left, right, outputs),
    }
}
