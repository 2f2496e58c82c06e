//! The kernel of the rules that take programs to programs that mean the same.

ghost use Rattle.std.specs.Prelude.{◌≡◌, ◌≤◌, List, map, IfSome, IfNone, Some, true, false};
ghost use Rattle.expression_lang.specs.Expression as plain;
ghost use Rattle.expression_lang.specs.CodeExpression.{exp_of};
ghost use Rattle.expression_lang.specs.Sort.{Scalar};
ghost use Rattle.ac_expr.specs.CodeFacts.{fact_of};
ghost use Rattle.monad_lang.specs.Program as programs;
ghost use Rattle.monad_lang.specs.CodeProgram.{mon_of, start_of};
ghost use Rattle.monad_lang.specs.Sorted.{scalars_given};
ghost use Rattle.rule_trees.specs.RuleTree.{Checked, IsVerdict};
ghost use Rattle.rule_eq.specs.Rule as names;
ghost use Rattle.rule_eq.specs.Rule.{does};
ghost use Rattle.rule_eq.specs.Table.{knowing, row, table};
ghost use Rattle.rule_eq.specs.CodeFits.{Fits};
ghost use Rattle.rule_eq.specs.CodeRule.{rule_of, rule_at, tree_of, point_in};
ghost use Rattle.rule_eq.specs.CodeSteps.{is_along, is_leaf, first_of, last_of, left_first, right_first, left_behind, right_behind, passes};
ghost use Rattle.rule_eq.specs.CodeVerdict.{verdict_of};

use crate::instances::is_asked;
use crate::rule::Rule;
use ac_expr::{Fact, Facts};
use expression_lang::Exp;
use monad_lang::{Mon, Start};
use monad_sorts::{Inside, Setting};
use program_facts::Parts;
use rule_parts::no_facts;
use rule_trees::{At, Tree, both, next, only};

// Whether a rule has two parts of which the last stands at the end of a sequence.
fn is_along(rule: &Rule) -> bool
    ensures { result ≡ is_along (rule_of rule.now) }
{
    matches!(rule, Rule::Trans(_) | Rule::Bind)
}

// How many parts of the right side a rule passes.
fn passes(rule: &Rule) -> u32
    ensures count { result ≡ passes (rule_of rule.now) }
    ensures small { result ≤ 1 }
{
    match rule {
        Rule::Trans(_) => 0,
        _ => 1,
    }
}

// The first of two programs, or the program itself.
fn first_of(m: &Mon) -> &Mon
    ensures { mon_of result.now ≡ first_of (mon_of m.now) }
{
    match m {
        Mon::Bind(first, _, _) => &**first,
        _ => m,
    }
}

// The second of two programs, or the program itself.
fn last_of(m: &Mon) -> &Mon
    ensures { mon_of result.now ≡ last_of (mon_of m.now) }
{
    match m {
        Mon::Bind(_, _, last) => &**last,
        _ => m,
    }
}

// The left side of a rule's first part.
fn left_first<'a>(rule: &Rule, m: &'a Mon) -> &'a Mon
    ensures { mon_of result.now ≡ left_first (rule_of rule.now) (mon_of m.now) }
{
    match rule {
        Rule::Trans(_) => m,
        _ => first_of(m),
    }
}

// Its right side.
fn right_first<'a>(rule: &'a Rule, m: &'a Mon) -> &'a Mon
    ensures { mon_of result.now ≡ right_first (rule_of rule.now) (mon_of m.now) }
{
    match rule {
        Rule::Trans(between) => &**between,
        _ => first_of(m),
    }
}

// The left side of a rule's last part.
fn left_behind<'a>(rule: &'a Rule, m: &'a Mon) -> &'a Mon
    ensures { mon_of result.now ≡ left_behind (rule_of rule.now) (mon_of m.now) }
{
    match rule {
        Rule::Trans(between) => &**between,
        _ => last_of(m),
    }
}

// Its right side.
fn right_behind<'a>(rule: &Rule, m: &'a Mon) -> &'a Mon
    ensures { mon_of result.now ≡ right_behind (rule_of rule.now) (mon_of m.now) }
{
    match rule {
        Rule::Trans(_) => m,
        _ => last_of(m),
    }
}

// A test and the two programs that it chooses from.
fn branches(m: &Mon) -> Option<(&Exp, &Mon, &Mon)>
    ensures some { IfSome result (λ (e, a, b). mon_of m.now
        ≡ programs.If (exp_of e.now) (mon_of a.now) (mon_of b.now)) }
    ensures none { (e : plain.Exp) (a b : programs.Mon) →
        IfNone result (mon_of m.now ≡ programs.If e a b → ⊥) }
{
    match m {
        Mon::If(test, first, last) => Some((test, &**first, &**last)),
        _ => None,
    }
}

// What a loop begins with, its guard, its test and its body.
fn turn(m: &Mon) -> Option<(&[Start], &Exp, &Exp, &Mon)>
    ensures some { IfSome result (λ (starts, guard, test, body). mon_of m.now
        ≡ programs.Loop (map start_of starts.now)
        (exp_of guard.now) (exp_of test.now) (mon_of body.now)) }
    ensures none { (starts : List programs.Start) (guard test : plain.Exp) (body : programs.Mon) →
        IfNone result (mon_of m.now ≡ programs.Loop starts guard test body → ⊥) }
{
    match m {
        Mon::Loop(starts, guard, test, body) => Some((starts, guard, test, &**body)),
        _ => None,
    }
}

// What is checked of two programs: the number behind the last node of a tree whose first has the
// number `at`, or the number of the first bad node. It goes along a sequence by a loop, with one
// link of facts and one of names for all of the parts that were passed, since a text may have long
// sequences.
#[cycle(checking)]
fn checked(
    tree: &Tree<Rule>,
    left: &Mon,
    right: &Mon,
    setting: Setting<'_>,
    facts: &Facts<'_, Parts<'_>>,
    inside: &Inside<'_>,
    at: u32,
) -> Result<u32, u32>
    requires { Fits (point_in setting facts.now inside.now).setting (mon_of left.now)
        (mon_of right.now) }
    ensures { Checked table (tree_of tree.now)
        (does (point_in setting.entry facts.now inside.now) (mon_of left.now)
        (mon_of right.now)) at result }
{
    let head = Parts::of(right);
    let whole = right;
    let mut tree = tree;
    let mut left = left;
    let mut right = right;
    let mut at = at;
    let mut count = 0;
    'along: loop {
        let known = (&*facts).pass(head, count);
        let names = (&*inside).pass(setting, whole, count as usize);
        if !is_asked(&tree.rule, left, right, setting, &known, &names) {
            return Err(at);
        }
        if !is_along(&tree.rule) {
            return checked_last(tree, left, right, setting, &known, &names, at);
        }
        let Some((first, last)) = both(&tree.parts) else {
            return Err(at);
        };
        let later = checked(
            first,
            left_first(&tree.rule, left),
            right_first(&tree.rule, right),
            setting,
            &known,
            &names,
            next(at),
        )?;
        let steps = passes(&tree.rule);
        let left_after = left_behind(&tree.rule, left);
        let right_after = right_behind(&tree.rule, right);
        if count == u32::MAX {
            let behind = known.pass(Parts::of(right), steps);
            let more = names.pass(setting, right, steps as usize);
            return checked(
                last,
                left_after,
                right_after,
                setting,
                &behind,
                &more,
                later,
            );
        }
        count += steps;
        tree = last;
        left = left_after;
        right = right_after;
        at = later;
    }
}

// The same of an instance of a rule that doesn't go along a sequence.
#[cycle(checking)]
fn checked_last(
    tree: &Tree<Rule>,
    left: &Mon,
    right: &Mon,
    setting: Setting<'_>,
    facts: &Facts<'_, Parts<'_>>,
    inside: &Inside<'_>,
    at: u32,
) -> Result<u32, u32>
    requires last { is_along (rule_at tree.now) ≡ false }
    requires asked { (row (point_in setting facts.now inside.now) (rule_at tree.now)
        (mon_of left.now) (mon_of right.now)).holds }
    requires fits { Fits (point_in setting facts.now inside.now).setting (mon_of left.now)
        (mon_of right.now) }
    ensures { Checked table (tree_of tree.now)
        (does (point_in setting.entry facts.now inside.now) (mon_of left.now)
        (mon_of right.now)) at result }
{
    match &tree.rule {
        Rule::If => checked_branches(tree, left, right, setting, facts, inside, at),
        Rule::Loop => checked_turn(tree, left, right, setting, facts, inside, at),
        _ => checked_leaf(tree, left, right, setting, facts, inside, at),
    }
}

// The same of a rule that has no parts.
fn checked_leaf(
    tree: &Tree<Rule>,
    left: &Mon,
    right: &Mon,
    setting: Setting<'_>,
    facts: &Facts<'_, Parts<'_>>,
    inside: &Inside<'_>,
    at: u32,
) -> Result<u32, u32>
    requires leaf { is_leaf (rule_at tree.now) ≡ true }
    requires asked { (row (point_in setting facts.now inside.now) (rule_at tree.now)
        (mon_of left.now) (mon_of right.now)).holds }
    ensures { Checked table (tree_of tree.now)
        (does (point_in setting.entry facts.now inside.now) (mon_of left.now)
        (mon_of right.now)) at result }
{
    if tree.parts.is_empty() {
        Ok(next(at))
    } else {
        Err(at)
    }
}

// The same of a choice.
#[cycle(checking)]
fn checked_branches(
    tree: &Tree<Rule>,
    left: &Mon,
    right: &Mon,
    setting: Setting<'_>,
    facts: &Facts<'_, Parts<'_>>,
    inside: &Inside<'_>,
    at: u32,
) -> Result<u32, u32>
    requires choice { rule_at tree.now ≡ names.If }
    requires asked { (row (point_in setting facts.now inside.now) (rule_at tree.now)
        (mon_of left.now) (mon_of right.now)).holds }
    requires fits { Fits (point_in setting facts.now inside.now).setting (mon_of left.now)
        (mon_of right.now) }
    ensures { Checked table (tree_of tree.now)
        (does (point_in setting.entry facts.now inside.now) (mon_of left.now)
        (mon_of right.now)) at result }
{
    let Some((_test, m, n)) = branches(left) else {
        return Err(at);
    };
    let Some((test, other, rest)) = branches(right) else {
        return Err(at);
    };
    let Some((first, last)) = both(&tree.parts) else {
        return Err(at);
    };
    let behind = checked_knowing(
        first,
        m,
        other,
        &Fact::Whole(test),
        setting,
        facts,
        inside,
        next(at),
    )?;
    checked_knowing(
        last,
        n,
        rest,
        &Fact::Not(test),
        setting,
        facts,
        inside,
        behind,
    )
}

// The same where one fact more is known.
#[cycle(checking)]
fn checked_knowing(
    tree: &Tree<Rule>,
    left: &Mon,
    right: &Mon,
    fact: &Fact<'_>,
    setting: Setting<'_>,
    facts: &Facts<'_, Parts<'_>>,
    inside: &Inside<'_>,
    at: u32,
) -> Result<u32, u32>
    requires { Fits (point_in setting facts.now inside.now).setting (mon_of left.now)
        (mon_of right.now) }
    ensures { Checked table (tree_of tree.now)
        (does (knowing (fact_of fact.now) (point_in setting.entry facts.now inside.now))
        (mon_of left.now) (mon_of right.now)) at result }
{
    let known = (&*facts).with(&*fact);
    checked(tree, left, right, setting, &known, inside, at)
}

// The same of a loop, in whose body nothing is known but its guard and its test.
#[cycle(checking)]
fn checked_turn(
    tree: &Tree<Rule>,
    left: &Mon,
    right: &Mon,
    setting: Setting<'_>,
    facts: &Facts<'_, Parts<'_>>,
    inside: &Inside<'_>,
    at: u32,
) -> Result<u32, u32>
    requires turn { rule_at tree.now ≡ names.Loop }
    requires asked { (row (point_in setting facts.now inside.now) (rule_at tree.now)
        (mon_of left.now) (mon_of right.now)).holds }
    requires fits { Fits (point_in setting facts.now inside.now).setting (mon_of left.now)
        (mon_of right.now) }
    ensures { Checked table (tree_of tree.now)
        (does (point_in setting.entry facts.now inside.now) (mon_of left.now)
        (mon_of right.now)) at result }
{
    let Some((_starts, _guard, _test, m)) = turn(left) else {
        return Err(at);
    };
    let Some((_others, guard, test, n)) = turn(right) else {
        return Err(at);
    };
    let Some(part) = only(&tree.parts) else {
        return Err(at);
    };
    let guarded = Fact::Whole(guard);
    let first = no_facts(&*facts).with(&guarded);
    let tested = Fact::Whole(test);
    let known = first.with(&tested);
    let names = (&*inside).pass(setting, right, 1);
    checked(part, m, n, setting, &known, &names, next(at))
}

/// Whether the rules of a tree take a program to one that means the same: yes exactly where each
/// node is an instance of its rule, else the first node that isn't. Both sides are well-sorted
/// where they stand. No memory is taken, and nothing is built.
#[tactic(auto, using(rule_trees::proofs::Checking::checked_accepts))]
pub fn check(
    tree: &Tree<Rule>,
    left: &Mon,
    right: &Mon,
    setting: Setting<'_>,
    facts: &Facts<'_, Parts<'_>>,
    inside: &Inside<'_>,
) -> Result<(), At>
    requires left { (given : List Scalar)
        × (scalars_given (point_in setting facts.now inside.now).setting (mon_of left.now)
        ≡ Some given) }
    requires right { (given : List Scalar)
        × (scalars_given (point_in setting facts.now inside.now).setting (mon_of right.now)
        ≡ Some given) }
    ensures { IsVerdict table (tree_of tree.now)
        (does (point_in setting.entry facts.now inside.now) (mon_of left.now) (mon_of right.now))
        (verdict_of result) }
{
    match checked(tree, left, right, setting, facts, inside, 0) {
        Ok(_) => Ok(()),
        Err(at) => Err(At(at)),
    }
}
