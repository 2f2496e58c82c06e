//! The kernel of the rules that make numbers of words.

ghost use Rattle.std.specs.Prelude.{◌≡◌, ◌≤◌, ◌↔◌, ◌++◌, List, map, length, true, false, Some, IsTrue, IfSome, IfNone};
ghost use Rattle.expression_lang.specs.Expression as plain;
ghost use Rattle.expression_lang.specs.Sort.{Scalar, Scope};
ghost use Rattle.expression_lang.specs.CodeExpression.{exp_of, kind_of};
ghost use Rattle.expression_lang.specs.CodeSignature.{signature_of};
ghost use Rattle.monad_lang.specs.CodeProgram.{mon_of};
ghost use Rattle.monad_lang.specs.Sorted.{scalars_given};
ghost use Rattle.ac_expr.specs.CodeFacts.{fact_of};
ghost use Rattle.rule_trees.specs.RuleTree.{Checked, AllChecked, IsVerdict};
ghost use Rattle.rule_trees.specs.CodeTree.{trees_in};
ghost use Rattle.rule_word.specs.Rule as names;
ghost use Rattle.rule_word.specs.Rule.{program};
ghost use Rattle.rule_word.specs.Scopes.{words};
ghost use Rattle.rule_word.specs.Table.{knowing};
ghost use Rattle.rule_word.specs.CodeFits.{Fits, ClaimFits, FitInTurn};
ghost use Rattle.rule_word.specs.CodeNames.{are_binders, are_results};
ghost use Rattle.rule_word.specs.CodeClaims.{inside, is_flat, is_bind, is_and, first_of, behind};
ghost use Rattle.rule_word.specs.CodeRule.{rule_of, rule_at, tree_of, view_at, context_in, table_at};
ghost use Rattle.rule_word.specs.CodeKinds.{binders_in, point_in, scope_at};
ghost use Rattle.rule_word.specs.CodeParts.{seen_in, sight_in, given_at, given_in, pairs_at, claim_in, claim_here, thens_at};
ghost use Rattle.rule_word.specs.CodeRows.{FitsAt, HasKinds, claim_at};
ghost use Rattle.rule_word.specs.CodeFront.{IsReady, AreReadyAt, Leaves, RowLeaves};
ghost use Rattle.rule_word.specs.CodeVerdict.{verdict_of};

use crate::claims::{
    Claim, Given, Seen, Sight, Then, Views, exp_then, lefts, program_exps, program_then, rights,
};
use crate::exp_instances::is_exp_asked;
use crate::instances::is_asked;
use crate::kinds::bound;
use crate::parts::{behind, first_of, named};
use crate::passed::Passed;
use crate::ranges::laid_out;
use crate::rule::{Context, Point, Rule, View};
use crate::sorts::is_of_kind;
use crate::stretch::Stretch;
use crate::views::{exp_views, program_views, view_of_kind};
use ac_expr::Fact;
use expression_lang::{Exp, Kind};
use monad_lang::Mon;
use program_facts::Parts;
use rule_parts::{Exps, no_facts};
use rule_trees::{At, Tree, both, next, only};

/// What is left after the pairs.
#[derive(Clone, Copy)]
pub(crate) enum Front<'a> {
    /// They are checked: these trees are left, and the next node has this number.
    Behind(&'a [Tree<Rule>], u32),
    /// The last of them, behind which nothing is left; its first node has this number.
    Last(&'a Tree<Rule>, &'a Exp, View, &'a Exp, u32),
}

// Whether there is a tree for each of the claims behind the pairs.
fn is_matched_then(parts: &[Tree<Rule>], then: Then<'_>) -> bool
    ensures { (ctx : names.Context) (at : names.Point) → IsTrue result
        ↔ (length parts.now ≡ length (thens_at ctx at then.entry)) }
{
    match then {
        Then::Nothing => parts.is_empty(),
        Then::Last(_) => parts.len() == 1,
        Then::Branches(_, _, _, _, _, _) | Then::Cases(_, _, _, _, _, _) => parts.len() == 2,
        Then::Test(_, _, _, _, _, _) => parts.len() == 2,
        Then::Turn(_, _, _, _, _, _, _) => parts.len() == 3,
    }
}

// Whether there is a tree for each of the claims.
#[inline(never)]
fn is_matched(
    parts: &[Tree<Rule>],
    left: Exps<'_>,
    views: Views<'_>,
    right: Exps<'_>,
    then: Then<'_>,
) -> bool
    ensures { (ctx : names.Context) (at there : names.Point) → IsTrue result ↔ (length parts.now
        ≡ length (pairs_at ctx at left.entry views.entry right.entry
        ++ thens_at ctx there then.entry)) }
{
    let mut rest = parts;
    let mut left = left;
    let mut views = views;
    let mut right = right;
    'pairs: loop {
        let Some((_, lefts)) = left.next() else {
            return is_matched_then(rest, then);
        };
        let Some((_, others)) = views.next() else {
            return is_matched_then(rest, then);
        };
        let Some((_, rights)) = right.next() else {
            return is_matched_then(rest, then);
        };
        let Some((_, behind)) = rest.split_first() else {
            return false;
        };
        rest = behind;
        left = lefts;
        views = others;
        right = rights;
    }
}

// How the left side of a pair is seen, where it has the sort.
fn seen_at(e: &Exp, seen: Seen, context: &Context<'_>, point: Point<'_>) -> Option<View>
    requires { IsReady (scope_at context.now point) (exp_of e.now) seen }
    ensures some { IfSome result (λ v. (view_at (scope_at context.now point.entry) (exp_of e.now) v
        ≡ seen_in (scope_at context.now point.entry) (exp_of e.now) seen)
        × FitsAt context.now point.entry (exp_of e.now) v) }
    ensures none { IfNone result (Fits (scope_at context.now point.entry) (exp_of e.now)
        (seen_in (scope_at context.now point.entry) (exp_of e.now) seen) → ⊥) }
{
    match seen {
        Seen::As(view) => Some(view),
        Seen::At(kind) => {
            if is_of_kind(e, kind, *context, point.names) {
                Some(view_of_kind(kind))
            } else {
                None
            }
        }
    }
}

// What is known at the part of a claim.
fn given_of<'a>(claim: Claim<'a>) -> Given<'a>
    ensures { (at : names.Point) → given_at at result ≡ given_at at (given_in claim.entry) }
{
    match claim {
        Claim::Exp(given, _, _, _) => given,
        Claim::Program(given, _, _, _) => given,
    }
}

// The view of the left side of a claim.
fn view_of(sight: Sight) -> View
    ensures { (g : Scope) (e : plain.Exp) → Fits g e (sight_in g e sight) → view_at g e result
        ≡ sight_in g e sight }
{
    match sight {
        Sight::As(view) => view,
        Sight::Truth => View::AsIs,
    }
}

// Whether a rule goes along `and`s.
fn is_and(rule: &Rule, left: &Exp, right: &Exp) -> bool
    ensures { result ≡ is_and (rule_of rule.now) (exp_of left.now) (exp_of right.now) }
{
    match rule {
        Rule::Logic => match left {
            Exp::And(_, _) => matches!(right, Exp::And(_, _)),
            _ => false,
        },
        _ => false,
    }
}

// The sides of an `and`.
fn sides(e: &Exp) -> Option<(&Exp, &Exp)>
    ensures some { IfSome result (λ (a, b). exp_of e.now
        ≡ plain.And (exp_of a.now) (exp_of b.now)) }
    ensures none { (a b : plain.Exp) → IfNone result (exp_of e.now ≡ plain.And a b → ⊥) }
{
    match e {
        Exp::And(a, b) => Some((&**a, &**b)),
        _ => None,
    }
}

// What is checked of an expression: the number behind the last node of a tree whose first has the
// number `at`, or the number of the first bad node. It goes along last parts by a loop.
#[cycle(checking)]
fn checked_exp(
    tree: &Tree<Rule>,
    left: &Exp,
    view: View,
    right: &Exp,
    context: &Context<'_>,
    point: Point<'_>,
    at: u32,
) -> Result<u32, u32>
    requires fits { FitsAt context.now point (exp_of left.now) view }
    requires kinds { HasKinds point.names.now }
    requires results { are_results (context_in context.now).functions ≡ true }
    ensures { Checked (table_at context.now) (tree_of tree.now)
        (claim_at context.now point.entry (exp_of left.now) view (exp_of right.now)) at result }
{
    let mut tree = tree;
    let mut left = left;
    let mut view = view;
    let mut right = right;
    let mut at = at;
    'down: loop {
        if !is_exp_asked(&tree.rule, left, view, right, *context, point) {
            return Err(at);
        }
        if is_and(&tree.rule, left, right) {
            return checked_ands(tree, left, right, &*context, point, at);
        }
        let pairs = lefts(&tree.rule, left);
        let others = rights(&tree.rule, right);
        let views = exp_views(&tree.rule, left, view, *context, point.names);
        let then = exp_then(left, view, right);
        if !is_matched(&tree.parts, pairs, views, others, then) {
            return Err(at);
        }
        match checked_pairs(
            &tree.parts,
            pairs,
            views,
            others,
            &*context,
            point,
            next(at),
        )? {
            Front::Behind(rest, number) => {
                return checked_then(rest, then, &*context, point, number);
            }
            Front::Last(part, e, seen, other, number) => {
                tree = part;
                left = e;
                view = seen;
                right = other;
                at = number;
            }
        }
    }
}

// The same of pairs of expressions, but for a last one behind which nothing is left.
#[cycle(checking)]
fn checked_pairs<'a>(
    parts: &'a [Tree<Rule>],
    left: Exps<'a>,
    views: Views<'a>,
    right: Exps<'a>,
    context: &Context<'_>,
    point: Point<'_>,
    at: u32,
) -> Result<Front<'a>, u32>
    requires ready { AreReadyAt context.now point left views right }
    requires kinds { HasKinds point.names.now }
    requires results { are_results (context_in context.now).functions ≡ true }
    requires enough { length (pairs_at (context_in context.now) (point_in point) left views right)
        ≤ length parts.now }
    ensures { Leaves context.now point.entry parts.now
        (pairs_at (context_in context.now)
        (point_in point.entry) left.entry views.entry right.entry) at result }
{
    let mut rest = parts;
    let mut left = left;
    let mut views = views;
    let mut right = right;
    let mut at = at;
    'pairs: loop {
        let Some((e, lefts)) = left.next() else {
            return Ok(Front::Behind(rest, at));
        };
        let Some((seen, others)) = views.next() else {
            return Ok(Front::Behind(rest, at));
        };
        let Some((a, rights)) = right.next() else {
            return Ok(Front::Behind(rest, at));
        };
        let Some((part, behind)) = rest.split_first() else {
            return Err(at);
        };
        let Some(view) = seen_at(e, seen, &*context, point) else {
            return Err(at);
        };
        if behind.is_empty() {
            return Ok(Front::Last(part, e, view, a, at));
        }
        at = checked_exp(part, e, view, a, &*context, point, at)?;
        rest = behind;
        left = lefts;
        views = others;
        right = rights;
    }
}

// The same of two `and`s. It goes along their right sides by a loop, with one link of facts for all
// of the first sides.
#[cycle(checking)]
fn checked_ands(
    tree: &Tree<Rule>,
    left: &Exp,
    right: &Exp,
    context: &Context<'_>,
    point: Point<'_>,
    at: u32,
) -> Result<u32, u32>
    requires ands { is_and (rule_at tree.now) (exp_of left.now) (exp_of right.now) ≡ true }
    requires fits { FitsAt context.now point (exp_of left.now) View.AsIs }
    requires kinds { HasKinds point.names.now }
    requires results { are_results (context_in context.now).functions ≡ true }
    ensures { Checked (table_at context.now) (tree_of tree.now)
        (claim_at context.now point.entry (exp_of left.now) View.AsIs
        (exp_of right.now)) at result }
{
    let head = Passed::sides(right);
    let mut tree = tree;
    let mut left = left;
    let mut right = right;
    let mut at = at;
    let mut count = 0;
    'along: loop {
        let facts = point.facts.pass(head, count);
        let here = Point {
            facts: &facts,
            names: point.names,
        };
        let Some((a, b)) = sides(left) else {
            return Err(at);
        };
        let Some((other, behind)) = sides(right) else {
            return Err(at);
        };
        let Some((first, last)) = both(&tree.parts) else {
            return Err(at);
        };
        at = checked_exp(first, a, View::AsIs, other, &*context, here, next(at))?;
        if count == u32::MAX || !is_and(&last.rule, b, behind) {
            let fact = Fact::Whole(other);
            let known = facts.with(&fact);
            let there = Point {
                facts: &known,
                names: point.names,
            };
            return checked_exp(last, b, View::AsIs, behind, &*context, there, at);
        }
        count += 1;
        left = b;
        right = behind;
        tree = last;
    }
}

// The same of the parts behind the pairs.
#[cycle(checking)]
fn checked_then(
    parts: &[Tree<Rule>],
    then: Then<'_>,
    context: &Context<'_>,
    point: Point<'_>,
    at: u32,
) -> Result<u32, u32>
    requires count { length parts.now
        ≡ length (thens_at (context_in context.now) (point_in point) then) }
    requires fit { FitInTurn (context_in context.now)
        (thens_at (context_in context.now) (point_in point) then) }
    requires kinds { HasKinds point.names.now }
    requires results { are_results (context_in context.now).functions ≡ true }
    ensures { AllChecked (table_at context.now) (trees_in rule_of parts.now)
        (thens_at (context_in context.now) (point_in point.entry) then.entry) at result }
{
    let mut rest = parts;
    let mut then = then;
    let mut at = at;
    'claims: while let Some((part, behind)) = rest.split_first() {
        let Some(claim) = then.next() else {
            return Err(at);
        };
        at = checked_under(part, claim, &*context, point, at)?;
        rest = behind;
    }
    Ok(at)
}

// The same of a claim, with what is known at its part.
#[cycle(checking)]
fn checked_under(
    tree: &Tree<Rule>,
    claim: Claim<'_>,
    context: &Context<'_>,
    point: Point<'_>,
    at: u32,
) -> Result<u32, u32>
    requires fits { ClaimFits (context_in context.now)
        (claim_in (context_in context.now) (point_in point) claim) }
    requires kinds { HasKinds point.names.now }
    requires results { are_results (context_in context.now).functions ≡ true }
    ensures { Checked (table_at context.now) (tree_of tree.now)
        (claim_in (context_in context.now) (point_in point.entry) claim.entry) at result }
{
    match given_of(claim) {
        Given::Nothing => checked_here(tree, claim, &*context, point, at),
        Given::Whole(e) => checked_where(tree, claim, &Fact::Whole(e), &*context, point, at),
        Given::Not(e) => checked_where(tree, claim, &Fact::Not(e), &*context, point, at),
        Given::Both(e, older) => {
            let known = Fact::Whole(older);
            let facts = point.facts.with(&known);
            let there = Point {
                facts: &facts,
                names: point.names,
            };
            checked_where(tree, claim, &Fact::Whole(e), &*context, there, at)
        }
    }
}

// The same of a claim, where one fact more is known.
#[cycle(checking)]
#[inline(never)]
fn checked_where(
    tree: &Tree<Rule>,
    claim: Claim<'_>,
    fact: &Fact<'_>,
    context: &Context<'_>,
    point: Point<'_>,
    at: u32,
) -> Result<u32, u32>
    requires fits { ClaimFits (context_in context.now)
        (claim_here (context_in context.now) (knowing (fact_of fact.now) (point_in point)) claim) }
    requires kinds { HasKinds point.names.now }
    requires results { are_results (context_in context.now).functions ≡ true }
    ensures { Checked (table_at context.now) (tree_of tree.now)
        (claim_here (context_in context.now)
        (knowing (fact_of fact.now) (point_in point.entry)) claim.entry)
        at result }
{
    let facts = point.facts.with(&*fact);
    let there = Point {
        facts: &facts,
        names: point.names,
    };
    checked_here(tree, claim, &*context, there, at)
}

// The same of a claim, where what is known at its part is known already.
#[cycle(checking)]
fn checked_here(
    tree: &Tree<Rule>,
    claim: Claim<'_>,
    context: &Context<'_>,
    point: Point<'_>,
    at: u32,
) -> Result<u32, u32>
    requires fits { ClaimFits (context_in context.now)
        (claim_here (context_in context.now) (point_in point) claim) }
    requires kinds { HasKinds point.names.now }
    requires results { are_results (context_in context.now).functions ≡ true }
    ensures { Checked (table_at context.now) (tree_of tree.now)
        (claim_here (context_in context.now) (point_in point.entry) claim.entry) at result }
{
    match claim {
        Claim::Exp(_, e, sight, a) => {
            checked_exp(tree, e, view_of(sight), a, &*context, point, at)
        }
        Claim::Program(_, m, n, kinds) => checked(tree, m, n, kinds, &*context, point, at),
    }
}

// The same of the pairs of two programs by a rule that doesn't go along a sequence, but for a last
// one behind which nothing is left.
#[cycle(checking)]
#[inline(never)]
fn checked_front<'a>(
    tree: &'a Tree<Rule>,
    left: &'a Mon,
    right: &'a Mon,
    kinds: &'a [Kind],
    context: &Context<'a>,
    point: Point<'_>,
    at: u32,
) -> Result<Front<'a>, u32>
    requires flat { is_flat (rule_at tree.now) ≡ true }
    requires fits { ClaimFits (context_in context.now)
        (program (point_in point) (mon_of left.now) (mon_of right.now) (map kind_of kinds.now)) }
    requires kinds { HasKinds point.names.now }
    requires results { are_results (context_in context.now).functions ≡ true }
    ensures { RowLeaves context.now point.entry tree.now
        (mon_of left.now) (mon_of right.now) (map kind_of kinds.now) at result }
{
    if !is_asked(&tree.rule, left, right, kinds, *context, point) {
        return Err(at);
    }
    let pairs = program_exps(left);
    let others = program_exps(right);
    let views = program_views(&tree.rule, left, kinds, *context);
    let then = program_then(&tree.rule, left, right, kinds);
    if !is_matched(&tree.parts, pairs, views, others, then) {
        return Err(at);
    }
    laid_out(context.layout);
    checked_pairs(
        &tree.parts,
        pairs,
        views,
        others,
        &*context,
        point,
        next(at),
    )
}

// The same of two programs by a rule that doesn't go along a sequence.
#[cycle(checking)]
fn checked_flat(
    tree: &Tree<Rule>,
    left: &Mon,
    right: &Mon,
    kinds: &[Kind],
    context: &Context<'_>,
    point: Point<'_>,
    at: u32,
) -> Result<u32, u32>
    requires flat { is_flat (rule_at tree.now) ≡ true }
    requires fits { ClaimFits (context_in context.now)
        (program (point_in point) (mon_of left.now) (mon_of right.now) (map kind_of kinds.now)) }
    requires kinds { HasKinds point.names.now }
    requires results { are_results (context_in context.now).functions ≡ true }
    ensures { Checked (table_at context.now) (tree_of tree.now)
        (program (point_in point.entry) (mon_of left.now) (mon_of right.now)
        (map kind_of kinds.now)) at result }
{
    match checked_front(tree, left, right, kinds, &*context, point, at)? {
        Front::Behind(rest, number) => {
            let then = program_then(&tree.rule, left, right, kinds);
            checked_inside(&tree.rule, left, rest, then, &*context, point, number)
        }
        Front::Last(part, e, view, a, number) => {
            checked_exp(part, e, view, a, &*context, point, number)
        }
    }
}

// The same of the parts behind the pairs, in a loop where its names are in scope and nothing is
// known before.
#[cycle(checking)]
fn checked_inside(
    rule: &Rule,
    left: &Mon,
    parts: &[Tree<Rule>],
    then: Then<'_>,
    context: &Context<'_>,
    point: Point<'_>,
    at: u32,
) -> Result<u32, u32>
    requires count { length parts.now
        ≡ length (thens_at (context_in context.now)
        (inside (rule_of rule.now) (mon_of left.now) (point_in point)) then) }
    requires fit { FitInTurn (context_in context.now)
        (thens_at (context_in context.now)
        (inside (rule_of rule.now) (mon_of left.now) (point_in point)) then) }
    requires kinds { are_binders (inside (rule_of rule.now) (mon_of left.now)
        (point_in point)).names ≡ true }
    requires results { are_results (context_in context.now).functions ≡ true }
    ensures { AllChecked (table_at context.now) (trees_in rule_of parts.now)
        (thens_at (context_in context.now)
        (inside (rule_of rule.now) (mon_of left.now) (point_in point.entry)) then.entry) at result }
{
    match rule {
        Rule::Loop(js) => match left {
            Mon::Loop(starts, _, _, _) => {
                let names = point.names.start(starts, js);
                let there = Point {
                    facts: no_facts(point.facts),
                    names: &names,
                };
                checked_then(parts, then, &*context, there, at)
            }
            _ => checked_then(parts, then, &*context, point, at),
        },
        _ => checked_then(parts, then, &*context, point, at),
    }
}

// The same of a rule that makes other kinds of a program's values.
#[cycle(checking)]
fn checked_recast(
    js: &[Kind],
    tree: &Tree<Rule>,
    left: &Mon,
    right: &Mon,
    kinds: &[Kind],
    context: &Context<'_>,
    point: Point<'_>,
    at: u32,
) -> Result<u32, u32>
    requires recast { rule_at tree.now ≡ names.Recast (map kind_of js.now) }
    requires fits { ClaimFits (context_in context.now)
        (program (point_in point) (mon_of left.now) (mon_of right.now) (map kind_of kinds.now)) }
    requires kinds { HasKinds point.names.now }
    requires results { are_results (context_in context.now).functions ≡ true }
    ensures { Checked (table_at context.now) (tree_of tree.now)
        (program (point_in point.entry) (mon_of left.now) (mon_of right.now)
        (map kind_of kinds.now)) at result }
{
    if !is_asked(&tree.rule, left, right, kinds, *context, point) {
        return Err(at);
    }
    let Some(part) = only(&tree.parts) else {
        return Err(at);
    };
    checked(part, left, first_of(right), js, &*context, point, next(at))
}

// The same of two programs by a rule that doesn't go along a sequence.
#[cycle(checking)]
fn checked_last(
    tree: &Tree<Rule>,
    left: &Mon,
    right: &Mon,
    kinds: &[Kind],
    context: &Context<'_>,
    point: Point<'_>,
    at: u32,
) -> Result<u32, u32>
    requires last { is_bind (rule_at tree.now) ≡ false }
    requires fits { ClaimFits (context_in context.now)
        (program (point_in point) (mon_of left.now) (mon_of right.now) (map kind_of kinds.now)) }
    requires kinds { HasKinds point.names.now }
    requires results { are_results (context_in context.now).functions ≡ true }
    ensures { Checked (table_at context.now) (tree_of tree.now)
        (program (point_in point.entry) (mon_of left.now) (mon_of right.now)
        (map kind_of kinds.now)) at result }
{
    match &tree.rule {
        Rule::Recast(js) => checked_recast(js, tree, left, right, kinds, &*context, point, at),
        _ => checked_flat(tree, left, right, kinds, &*context, point, at),
    }
}

// The same of two programs. It goes along a sequence by a loop, with one link of facts and one of
// names for all of the parts that were passed, since a text may have long sequences.
#[cycle(checking)]
fn checked(
    tree: &Tree<Rule>,
    left: &Mon,
    right: &Mon,
    kinds: &[Kind],
    context: &Context<'_>,
    point: Point<'_>,
    at: u32,
) -> Result<u32, u32>
    requires fits { ClaimFits (context_in context.now)
        (program (point_in point) (mon_of left.now) (mon_of right.now) (map kind_of kinds.now)) }
    requires kinds { HasKinds point.names.now }
    requires results { are_results (context_in context.now).functions ≡ true }
    ensures { Checked (table_at context.now) (tree_of tree.now)
        (program (point_in point.entry) (mon_of left.now) (mon_of right.now)
        (map kind_of kinds.now)) at result }
{
    laid_out(context.layout);
    let head = Passed::Program(Parts::of(right));
    let mut stretch = Stretch::new(tree, left);
    let mut tree = tree;
    let mut left = left;
    let mut right = right;
    let mut at = at;
    let mut count = 0;
    'along: loop {
        let facts = point.facts.pass(head, count);
        let names = point.names.pass(&stretch);
        let here = Point {
            facts: &facts,
            names: &names,
        };
        let Some(js) = bound(&tree.rule) else {
            return checked_last(tree, left, right, kinds, &*context, here, at);
        };
        if !is_asked(&tree.rule, left, right, kinds, *context, here) {
            return Err(at);
        }
        let Some((first, last)) = both(&tree.parts) else {
            return Err(at);
        };
        at = checked(
            first,
            first_of(left),
            first_of(right),
            js,
            &*context,
            here,
            next(at),
        )?;
        if count == u32::MAX {
            let known = facts.pass(Passed::Program(Parts::of(right)), 1);
            let more = names.push(named(left), js);
            let there = Point {
                facts: &known,
                names: &more,
            };
            return checked(
                last,
                behind(left),
                behind(right),
                kinds,
                &*context,
                there,
                at,
            );
        }
        count += 1;
        stretch = stretch.step(left, last);
        left = behind(left);
        right = behind(right);
        tree = last;
    }
}

/// Whether the rules of a tree take a program on words to one on what stands for them, which gives
/// its values at these kinds: yes exactly where each node is an instance of its rule, else the
/// first node that isn't. The left side is well-sorted, with words under its names, and names and
/// what functions give are of kinds that can be. No memory is taken.
#[tactic(auto, using(rule_trees::proofs::Checking::checked_accepts))]
pub fn check(
    tree: &Tree<Rule>,
    left: &Mon,
    right: &Mon,
    kinds: &[Kind],
    context: Context<'_>,
    point: Point<'_>,
) -> Result<(), At>
    requires sorted { (given : List Scalar)
        × (scalars_given (words (context_in context) (binders_in point.names.now))
        (mon_of left.now) ≡ Some given) }
    requires kinds { are_binders (binders_in point.names.now) ≡ true }
    requires results { are_results (map signature_of context.functions.now) ≡ true }
    ensures { IsVerdict (table_at context.entry) (tree_of tree.now)
        (program (point_in point.entry) (mon_of left.now) (mon_of right.now)
        (map kind_of kinds.now))
        (verdict_of result) }
{
    match checked(tree, left, right, kinds, &context, point, 0) {
        Ok(_) => Ok(()),
        Err(at) => Err(At(at)),
    }
}
