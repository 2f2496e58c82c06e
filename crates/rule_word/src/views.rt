//! How the expressions that a rule leaves in pairs are seen.

ghost use Rattle.std.specs.Prelude.{◌≡◌, true, List, map, Option};
ghost use Rattle.c_values.specs.CodeWord.{word_test_of};
ghost use Rattle.expression_lang.specs.Expression as plain;
ghost use Rattle.expression_lang.specs.Sort as sorts;
ghost use Rattle.expression_lang.specs.Sort.{Scope};
ghost use Rattle.expression_lang.specs.CodeExpression.{exp_of, kind_of};
ghost use Rattle.monad_lang.specs.CodeProgram.{mon_of};
ghost use Rattle.rule_word.specs.Rule as rules;
ghost use Rattle.rule_word.specs.Scopes.{view_for};
ghost use Rattle.rule_word.specs.CodeClaims.{again, tested, or_zero, part_seen, program_exps, program_views, looks, program_looks};
ghost use Rattle.rule_word.specs.LeftWidth.{left_width};
ghost use Rattle.rule_word.specs.CodeRule.{rule_of, view_of, view_at, context_in};
ghost use Rattle.rule_word.specs.CodeKinds.{scope_in};
ghost use Rattle.rule_word.specs.CodeParts.{seen_in, looks_at, views_in, looks_in};

use crate::claims::{Seen, Views};
use crate::kinds::Kinds;
use crate::rule::{Context, Rule, View};
use crate::sorts::left_width;
use c_values::WordTest;
use expression_lang::{Exp, Kind};
use monad_lang::Mon;
use program_sorts::signature;

/// How the expressions that two expressions leave in pairs are seen.
#[inline(never)]
pub(crate) fn exp_views<'a>(
    rule: &Rule,
    left: &Exp,
    view: View,
    context: Context<'_>,
    names: &Kinds<'_>,
) -> Views<'a>
    ensures views { (es : List plain.Exp) → views_in (scope_in context.entry names.now) es result
        ≡ map (λ d. part_seen (scope_in context.entry names.now) (rule_of rule.now)
        (exp_of left.now)
        (view_at (scope_in context.entry names.now) (exp_of left.now) view) d) es }
    ensures looks { looks_in result ≡ looks (rule_of rule.now) }
{
    Views::Each(part_seen(rule, left, view, context, names))
}

// How each of them is seen.
fn part_seen(rule: &Rule, left: &Exp, view: View, context: Context<'_>, names: &Kinds<'_>) -> Seen
    ensures seen { (d : plain.Exp) → seen_in (scope_in context.entry names.now) d result
        ≡ part_seen (scope_in context.entry names.now) (rule_of rule.now) (exp_of left.now)
        (view_at (scope_in context.entry names.now) (exp_of left.now) view) d }
    ensures looks { looks_at result ≡ looks (rule_of rule.now) }
{
    match rule {
        Rule::Eq(kind) => Seen::At(*kind),
        Rule::Word(kind) => Seen::As(view_of_kind(*kind)),
        Rule::Nat => Seen::As(nat_part(left, view, context, names)),
        Rule::Int => Seen::As(int_part(left, view, context, names)),
        Rule::Zext => Seen::As(zext_part(left, view, context, names)),
        Rule::Sext => Seen::As(sext_part(left, view, context, names)),
        Rule::Order => Seen::As(order_part(left, view, context, names)),
        Rule::Unat | Rule::Sint | Rule::Logic | Rule::Cond | Rule::Op => Seen::As(View::AsIs),
        _ => Seen::As(view),
    }
}

/// How a part is seen where the whole is seen at a kind.
pub(crate) fn view_of_kind(kind: Kind) -> View
    ensures { (g : Scope) (d : plain.Exp) → view_at g d result
        ≡ again g (view_for (kind_of kind)) d }
{
    match kind {
        Kind::Word(_) | Kind::Bool => View::AsIs,
        Kind::Nat(width) => View::Unsigned(width),
        Kind::Int(width) => View::Signed(width),
    }
}

// The width of a word, or 0.
fn width_of(e: &Exp, context: Context<'_>, names: &Kinds<'_>) -> u8
    ensures { result ≡ or_zero (left_width (scope_in context.entry names.now) (exp_of e.now)) }
{
    match left_width(e, context, names) {
        Some(width) => width,
        None => 0,
    }
}

#[tactic(auto, using(crate::proofs::PartViews::again_view))]
fn nat_part(left: &Exp, view: View, context: Context<'_>, names: &Kinds<'_>) -> View
    ensures { (d : plain.Exp) → view_at (scope_in context.entry names.now) d result
        ≡ part_seen (scope_in context.entry names.now) rules.Nat (exp_of left.now)
        (view_at (scope_in context.entry names.now) (exp_of left.now) view) d }
{
    match left {
        Exp::ToNat(e) => View::Unsigned(width_of(e, context, names)),
        _ => view,
    }
}

#[tactic(auto, using(crate::proofs::PartViews::again_view))]
fn int_part(left: &Exp, view: View, context: Context<'_>, names: &Kinds<'_>) -> View
    ensures { (d : plain.Exp) → view_at (scope_in context.entry names.now) d result
        ≡ part_seen (scope_in context.entry names.now) rules.Int (exp_of left.now)
        (view_at (scope_in context.entry names.now) (exp_of left.now) view) d }
{
    match left {
        Exp::ToInt(e) => View::Signed(width_of(e, context, names)),
        _ => view,
    }
}

#[tactic(auto, using(crate::proofs::PartViews::again_view))]
fn zext_part(left: &Exp, view: View, context: Context<'_>, names: &Kinds<'_>) -> View
    ensures { (d : plain.Exp) → view_at (scope_in context.entry names.now) d result
        ≡ part_seen (scope_in context.entry names.now) rules.Zext (exp_of left.now)
        (view_at (scope_in context.entry names.now) (exp_of left.now) view) d }
{
    match left {
        Exp::Cast(_, _, e) => View::Unsigned(width_of(e, context, names)),
        _ => view,
    }
}

#[tactic(auto, using(crate::proofs::PartViews::again_view))]
fn sext_part(left: &Exp, view: View, context: Context<'_>, names: &Kinds<'_>) -> View
    ensures { (d : plain.Exp) → view_at (scope_in context.entry names.now) d result
        ≡ part_seen (scope_in context.entry names.now) rules.Sext (exp_of left.now)
        (view_at (scope_in context.entry names.now) (exp_of left.now) view) d }
{
    match left {
        Exp::Cast(_, _, e) => View::Signed(width_of(e, context, names)),
        _ => view,
    }
}

#[tactic(auto, using(crate::proofs::PartViews::again_view))]
fn order_part(left: &Exp, view: View, context: Context<'_>, names: &Kinds<'_>) -> View
    ensures { (d : plain.Exp) → view_at (scope_in context.entry names.now) d result
        ≡ part_seen (scope_in context.entry names.now) rules.Order (exp_of left.now)
        (view_at (scope_in context.entry names.now) (exp_of left.now) view) d }
{
    match left {
        Exp::WordCompare(test, e, _) => tested(*test, width_of(e, context, names)),
        _ => view,
    }
}

// How the operands of an order test are seen.
fn tested(test: WordTest, width: u8) -> View
    ensures { (o : Option sorts.Sort) → view_of o result ≡ tested (word_test_of test) width }
{
    match test {
        WordTest::Wult | WordTest::Wule => View::Unsigned(width),
        WordTest::Wslt | WordTest::Wsle => View::Signed(width),
    }
}

/// The same of two programs.
#[inline(never)]
pub(crate) fn program_views<'a>(
    rule: &'a Rule,
    left: &'a Mon,
    kinds: &'a [Kind],
    context: Context<'a>,
) -> Views<'a>
    ensures views { (g : Scope) → views_in g (program_exps (mon_of left.now)) result
        ≡ program_views (context_in context.entry) g (rule_of rule.now) (mon_of left.now)
        (map kind_of kinds.now) }
    ensures looks { looks_in result ≡ program_looks (rule_of rule.now) }
{
    match rule {
        Rule::Ret => Views::Kinds(kinds),
        Rule::Loop(js) => Views::Kinds(js),
        Rule::Call => call_views(left, context),
        _ => Views::Each(Seen::As(View::AsIs)),
    }
}

// At the kinds of a function's parameters.
fn call_views<'a>(left: &'a Mon, context: Context<'a>) -> Views<'a>
    ensures views { (g : Scope) (ks : List sorts.Kind) →
        views_in g (program_exps (mon_of left.now)) result
        ≡ program_views (context_in context.entry) g rules.Call (mon_of left.now) ks }
    ensures looks { looks_in result ≡ true }
{
    match left {
        Mon::Call(name, _) => match signature(context.functions, name.as_str()) {
            Some(function) => Views::Params(&function.params),
            None => Views::Kinds(&[]),
        },
        _ => Views::Kinds(&[]),
    }
}
