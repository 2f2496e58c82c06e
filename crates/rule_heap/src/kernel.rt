//! The kernel of the rules that take programs on bytes to programs on typed heaps.

ghost use Rattle.std.specs.Prelude.{◌≡◌, ◌↔◌, ◌++◌, List, IsTrue, true, false, length};
ghost use Rattle.std.specs.Option.{option_map};
ghost use Rattle.expression_lang.specs.CodeExpression.{exp_of};
ghost use Rattle.ac_expr.specs.Fact.{Fact as Known};
ghost use Rattle.monad_lang.specs.CodeProgram.{mon_of};
ghost use Rattle.rule_trees.specs.RuleTree.{Checked, AllChecked, IsVerdict};
ghost use Rattle.rule_trees.specs.CodeTree.{trees_in};
ghost use Rattle.rule_heap.specs.Rule as names;
ghost use Rattle.rule_heap.specs.Rule.{OfExp, OfProgram};
ghost use Rattle.rule_heap.specs.CodeVerdict.{verdict_of};
ghost use Rattle.rule_heap.specs.Table.{each, row};
ghost use Rattle.rule_heap.specs.CodeParts.{then_in, rights, given, given_in, claim_in, claim_here, is_flat, is_step, passes, behind, left_behind, right_behind, first_of, address, step_claim};
ghost use Rattle.rule_parts.specs.CodeExps.{exps_in};
ghost use Rattle.rule_heap.specs.CodeRule.{rule_of, rule_at, tree_of, facts_at, table_at};

use crate::claims::{Claim, Given, Then, exp_thens, firsts, program_exps, program_thens};
use crate::exp_instances::is_exp_asked;
use crate::instances::is_asked;
use crate::rule::{Context, Rule};
use ac_expr::{Children, Fact};
use expression_lang::Exp;
use monad_lang::Mon;
use program_facts::Parts;
use rule_parts::{Exps, no_facts};
use rule_trees::{At, Tree, both, next};

/// The expressions of the right side that go in pairs, where the rule may have it.
#[inline(never)]
fn rights<'a>(rule: &'a Rule, right: &'a Exp) -> Exps<'a>
    ensures { exps_in result ≡ rights (rule_of rule.now) (exp_of right.now) }
{
    match rule {
        Rule::Known(q) => Exps::Children(Children::One(&**q)),
        _ => firsts(right),
    }
}

// Whether there is a tree for each of the claims behind the pairs.
fn is_matched_then(parts: &[Tree<Rule>], then: Then<'_>) -> bool
    ensures { (fs : List Known) → IsTrue result
        ↔ (length parts.now ≡ length (then_in fs then.entry)) }
{
    match then {
        Then::Nothing => parts.is_empty(),
        Then::Last(_) => parts.len() == 1,
        Then::Branches(_, _, _, _, _) | Then::Cases(_, _, _, _, _) => parts.len() == 2,
        Then::Test(_, _, _, _, _) => parts.len() == 2,
        Then::Turn(_, _, _, _, _, _) => parts.len() == 3,
    }
}

// Whether there is a tree for each of the claims.
#[tactic(auto, using(crate::proofs::Matched::each_without))]
#[inline(never)]
fn is_matched(parts: &[Tree<Rule>], left: Exps<'_>, right: Exps<'_>, then: Then<'_>) -> bool
    ensures { (fs : List Known) → IsTrue result ↔ (length parts.now
        ≡ length (each fs (exps_in left.entry) (exps_in right.entry) ++ then_in fs then.entry)) }
{
    let mut rest = parts;
    let mut left = left;
    let mut right = right;
    'pairs: loop {
        let Some((_, more)) = left.next() else {
            return is_matched_then(rest, then);
        };
        let Some((_, others)) = right.next() else {
            return is_matched_then(rest, then);
        };
        let Some((_, behind)) = rest.split_first() else {
            return false;
        };
        rest = behind;
        left = more;
        right = others;
    }
}

// What is known at the part of a claim.
fn given_of<'a>(claim: Claim<'a>) -> Given<'a>
    ensures { (fs : List Known) → given fs result ≡ given fs (given_in claim.entry) }
{
    match claim {
        Claim::Program(given, _, _) => given,
        Claim::Exp(given, _, _) => given,
    }
}

fn is_same(rule: &Rule) -> bool
    ensures yes { result ≡ true → rule_of rule.now ≡ names.Same }
    ensures no { result ≡ false → is_step (rule_of rule.now) ≡ false → is_flat (rule_of rule.now)
        ≡ true }
{
    matches!(rule, Rule::Same)
}

// Whether a rule goes along a sequence.
fn is_step(rule: &Rule) -> bool
    ensures { result ≡ is_step (rule_of rule.now) }
{
    matches!(rule, Rule::Bind | Rule::Pointer | Rule::Drop(_))
}

// How many parts of the right side a rule passes.
fn passes(rule: &Rule) -> u32
    ensures { result ≡ passes (rule_of rule.now) }
{
    match rule {
        Rule::Drop(_) => 0,
        _ => 1,
    }
}

// The second of two programs, or the program itself.
fn behind(m: &Mon) -> &Mon
    ensures { mon_of result.now ≡ behind (mon_of m.now) }
{
    match m {
        Mon::Bind(_, _, last) => &**last,
        _ => m,
    }
}

fn left_behind<'a>(rule: &Rule, m: &'a Mon) -> &'a Mon
    ensures { mon_of result.now ≡ left_behind (rule_of rule.now) (mon_of m.now) }
{
    match rule {
        Rule::Pointer => behind(behind(m)),
        _ => behind(m),
    }
}

fn right_behind<'a>(rule: &Rule, m: &'a Mon) -> &'a Mon
    ensures { mon_of result.now ≡ right_behind (rule_of rule.now) (mon_of m.now) }
{
    match rule {
        Rule::Drop(_) => m,
        _ => behind(m),
    }
}

// The first of two programs, or the program itself.
fn first_of(m: &Mon) -> &Mon
    ensures { mon_of result.now ≡ first_of (mon_of m.now) }
{
    match m {
        Mon::Bind(first, _, _) => &**first,
        _ => m,
    }
}

// The pointer of the guard that a program begins with, where it does.
fn address(m: &Mon) -> Option<&Exp>
    ensures { option_map (λ p. exp_of p.now) result ≡ address (mon_of m.now) }
{
    match first_of(m) {
        Mon::Guard(Exp::PtrOk(_, p) | Exp::Tagged(_, p)) => Some(&**p),
        _ => None,
    }
}

// What is checked of an expression: the number behind the last node of a tree whose first has the
// number `at`, or the number of the first bad node.
#[cycle(checking)]
fn checked_exp(
    tree: &Tree<Rule>,
    left: &Exp,
    right: &Exp,
    context: Context<'_>,
    at: u32,
) -> Result<u32, u32>
    ensures { Checked (table_at context.entry) (tree_of tree.now)
        (OfExp (facts_at context.entry) (exp_of left.now) (exp_of right.now)) at result }
{
    if !is_exp_asked(&tree.rule, left, right, context) {
        return Err(at);
    }
    let pairs = firsts(left);
    let others = rights(&tree.rule, right);
    let then = exp_thens(left, right);
    if !is_matched(&tree.parts, pairs, others, then) {
        return Err(at);
    }
    checked_parts(&tree.parts, pairs, others, then, context, next(at))
}

// The same of parts, one after the other.
#[cycle(checking)]
fn checked_parts(
    parts: &[Tree<Rule>],
    left: Exps<'_>,
    right: Exps<'_>,
    then: Then<'_>,
    context: Context<'_>,
    at: u32,
) -> Result<u32, u32>
    requires { length parts.now ≡ length (each (facts_at context) (exps_in left) (exps_in right)
        ++ then_in (facts_at context) then) }
    ensures { AllChecked (table_at context.entry) (trees_in rule_of parts.now)
        (each (facts_at context.entry) (exps_in left.entry) (exps_in right.entry)
        ++ then_in (facts_at context.entry) then.entry) at result }
{
    let mut rest = parts;
    let mut left = left;
    let mut right = right;
    let mut at = at;
    'pairs: loop {
        let Some((a, more)) = left.next() else {
            return checked_then(rest, then, context, at);
        };
        let Some((b, others)) = right.next() else {
            return checked_then(rest, then, context, at);
        };
        let Some((part, behind)) = rest.split_first() else {
            return Err(at);
        };
        at = checked_exp(part, a, b, context, at)?;
        rest = behind;
        left = more;
        right = others;
    }
}

// The same of the parts behind the pairs.
#[cycle(checking)]
fn checked_then(
    parts: &[Tree<Rule>],
    then: Then<'_>,
    context: Context<'_>,
    at: u32,
) -> Result<u32, u32>
    requires { length parts.now ≡ length (then_in (facts_at context) then) }
    ensures { AllChecked (table_at context.entry) (trees_in rule_of parts.now)
        (then_in (facts_at context.entry) then.entry) at result }
{
    let mut rest = parts;
    let mut then = then;
    let mut at = at;
    'claims: while let Some((part, behind)) = rest.split_first() {
        let Some(claim) = then.next() else {
            return Err(at);
        };
        at = checked_under(part, claim, context, at)?;
        rest = behind;
    }
    Ok(at)
}

// The same of a claim, with what is known at its part.
#[cycle(checking)]
fn checked_under(
    tree: &Tree<Rule>,
    claim: Claim<'_>,
    context: Context<'_>,
    at: u32,
) -> Result<u32, u32>
    ensures { Checked (table_at context.entry) (tree_of tree.now)
        (claim_in (facts_at context.entry) claim.entry) at result }
{
    let layout = context.layout;
    match given_of(claim) {
        Given::Nothing => {
            let facts = no_facts(context.facts);
            checked_here(tree, claim, Context { facts, layout }, at)
        }
        Given::Whole(e) => {
            let fact = Fact::Whole(e);
            let facts = context.facts.with(&fact);
            checked_here(
                tree,
                claim,
                Context {
                    facts: &facts,
                    layout,
                },
                at,
            )
        }
        Given::Not(e) => {
            let fact = Fact::Not(e);
            let facts = context.facts.with(&fact);
            checked_here(
                tree,
                claim,
                Context {
                    facts: &facts,
                    layout,
                },
                at,
            )
        }
        Given::Only(e) => {
            let fact = Fact::Whole(e);
            let facts = no_facts(context.facts).with(&fact);
            checked_here(
                tree,
                claim,
                Context {
                    facts: &facts,
                    layout,
                },
                at,
            )
        }
        Given::Both(e, older) => {
            let first = Fact::Whole(older);
            let known = no_facts(context.facts).with(&first);
            let fact = Fact::Whole(e);
            let facts = known.with(&fact);
            checked_here(
                tree,
                claim,
                Context {
                    facts: &facts,
                    layout,
                },
                at,
            )
        }
    }
}

// The same of a claim, where what is known at its part is known already.
#[cycle(checking)]
fn checked_here(
    tree: &Tree<Rule>,
    claim: Claim<'_>,
    context: Context<'_>,
    at: u32,
) -> Result<u32, u32>
    ensures { Checked (table_at context.entry) (tree_of tree.now)
        (claim_here (facts_at context.entry) claim.entry) at result }
{
    match claim {
        Claim::Program(_, m, n) => checked(tree, m, n, context, at),
        Claim::Exp(_, a, b) => checked_exp(tree, a, b, context, at),
    }
}

// The same of two programs by a rule that doesn't go along a sequence.
#[cycle(checking)]
fn checked_flat(
    tree: &Tree<Rule>,
    left: &Mon,
    right: &Mon,
    context: Context<'_>,
    at: u32,
) -> Result<u32, u32>
    requires { is_step (rule_at tree.now) ≡ false }
    ensures { Checked (table_at context.entry) (tree_of tree.now)
        (OfProgram (facts_at context.entry) (mon_of left.now) (mon_of right.now)) at result }
{
    if !is_asked(&tree.rule, left, right, context) {
        return Err(at);
    }
    if is_same(&tree.rule) {
        return if tree.parts.is_empty() {
            Ok(next(at))
        } else {
            Err(at)
        };
    }
    let pairs = program_exps(left);
    let others = program_exps(right);
    let then = program_thens(left, right);
    if !is_matched(&tree.parts, pairs, others, then) {
        return Err(at);
    }
    checked_parts(&tree.parts, pairs, others, then, context, next(at))
}

// The first part of a rule that goes along a sequence.
#[cycle(checking)]
fn checked_step(
    tree: &Tree<Rule>,
    rule: &Rule,
    left: &Mon,
    right: &Mon,
    context: Context<'_>,
    at: u32,
) -> Result<u32, u32>
    requires step { is_step (rule_of rule.now) ≡ true }
    requires asked { (row context.layout.now (facts_at context)
        (rule_of rule.now) (mon_of left.now) (mon_of right.now)).holds }
    ensures { Checked (table_at context.entry) (tree_of tree.now)
        (step_claim (facts_at context.entry) (rule_of rule.now) (mon_of left.now)
        (mon_of right.now)) at result }
{
    match rule {
        Rule::Pointer => {
            let Some(p) = address(left) else {
                return Err(at);
            };
            let Some(q) = address(right) else {
                return Err(at);
            };
            checked_exp(tree, p, q, context, at)
        }
        Rule::Drop(q) => {
            let Some(p) = address(left) else {
                return Err(at);
            };
            checked_exp(tree, p, q, context, at)
        }
        _ => checked(tree, first_of(left), first_of(right), context, at),
    }
}

// The same of two programs. It goes along a sequence by a loop, with one link of facts for all of
// the parts that were passed, since a text may have long sequences.
#[cycle(checking)]
fn checked(
    tree: &Tree<Rule>,
    left: &Mon,
    right: &Mon,
    context: Context<'_>,
    at: u32,
) -> Result<u32, u32>
    ensures { Checked (table_at context.entry) (tree_of tree.now)
        (OfProgram (facts_at context.entry) (mon_of left.now) (mon_of right.now)) at result }
{
    let head = Parts::of(right);
    let mut tree = tree;
    let mut left = left;
    let mut right = right;
    let mut at = at;
    let mut count = 0;
    'along: loop {
        let facts = context.facts.pass(head, count);
        let here = Context {
            facts: &facts,
            layout: context.layout,
        };
        if !is_step(&tree.rule) {
            return checked_flat(tree, left, right, here, at);
        }
        if !is_asked(&tree.rule, left, right, here) {
            return Err(at);
        }
        let Some((first, last)) = both(&tree.parts) else {
            return Err(at);
        };
        at = checked_step(first, &tree.rule, left, right, here, next(at))?;
        if count == u32::MAX {
            let known = facts.pass(Parts::of(right), passes(&tree.rule));
            let behind = Context {
                facts: &known,
                layout: context.layout,
            };
            return checked(
                last,
                left_behind(&tree.rule, left),
                right_behind(&tree.rule, right),
                behind,
                at,
            );
        }
        count += passes(&tree.rule);
        left = left_behind(&tree.rule, left);
        right = right_behind(&tree.rule, right);
        tree = last;
    }
}

/// Whether the rules of a tree take a program on bytes to one on typed heaps, where these facts are
/// known: yes exactly where each node is an instance of its rule, else the first node that isn't.
/// Both sides are looked at, and no memory is taken.
#[tactic(auto, using(rule_trees::proofs::Checking::checked_accepts))]
pub fn check(tree: &Tree<Rule>, left: &Mon, right: &Mon, context: Context<'_>) -> Result<(), At>
    ensures { IsVerdict (table_at context.entry) (tree_of tree.now)
        (OfProgram (facts_at context.entry) (mon_of left.now) (mon_of right.now))
        (verdict_of result) }
{
    match checked(tree, left, right, context, 0) {
        Ok(_) => Ok(()),
        Err(at) => Err(At(at)),
    }
}
