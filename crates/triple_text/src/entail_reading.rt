//! Trees read as derivations of assertions.
ghost use Rattle.std.specs.Prelude.{◌≡◌, Ok, map};
ghost use Rattle.ac_sx.specs.CodeSx.{tree_of, trees_in, one_of, two_of, three_of, first_of};
ghost use Rattle.expression_text.specs.CodeFault.{Gives};
ghost use Rattle.expression_text.specs.Lists.{list_at};
ghost use Rattle.triple_lang.specs.CodeEntail as entails;
ghost use Rattle.triple_lang.specs.CodeEntail.{leaf, weighed_of};
ghost use Rattle.triple_text.specs.Parts.{five_of};
ghost use Rattle.triple_text.specs.EntailReading as reading;
ghost use Rattle.triple_text.specs.CodeEntailRows as rows;
ghost use Rattle.triple_text.specs.CodeEntailRows.{one_rule, two_rule, split_rule};

use crate::entail_heads::{EntailHead, EntailLeaf, entail_head, entail_leaf};
use crate::entail_rules::{OneRule, SplitRule, TwoRule};
use crate::parts::five;
use ac_sx::{Sx, first, headed, one, three, two};
use expression_text::{TextFault, next, number_at};
use program_text::boxed_exp_at;
use std::alloc::Global;
use triple_lang::{Entail, Weighed};

type Read = Result<(Box<Entail>, u32), TextFault>;

/// The derivation of an assertion that a tree is.
#[cycle(entails)]
pub(crate) fn entail_at(alloc: Global, tree: &Sx, at: u32) -> Read
    ensures { Gives (λ e. entails.tree_of e.value) result
        (reading.entail_at at (tree_of tree.now)) }
{
    if let Some(word) = tree.word() {
        return word_at(alloc, word, at);
    }
    let Some((word, parts)) = headed(tree) else {
        return Err(TextFault::Shape(at));
    };
    match entail_head(word) {
        Some(head) => row_at(alloc, at, next(next(at)), head, parts),
        None => Err(TextFault::Shape(at)),
    }
}

// What was read, with the number of the node behind it.
fn read(alloc: Global, entail: Entail, at: u32) -> Read
    ensures { Gives (λ e. entails.tree_of e.value) result (Ok (entails.tree_of entail, at)) }
{
    let entail = Box::new(alloc, entail)?;
    Ok((entail, at))
}

// A rule that stands alone.
fn word_at(alloc: Global, word: &str, at: u32) -> Read
    ensures { Gives (λ e. entails.tree_of e.value) result (rows.word_at at word.now) }
{
    match entail_leaf(word) {
        Some(head) => read(alloc, alone(head), next(at)),
        None => Err(TextFault::Shape(at)),
    }
}

fn alone(head: EntailLeaf) -> Entail
    ensures { entails.tree_of result ≡ leaf (reading.leaf_rule head) }
{
    match head {
        EntailLeaf::Hyp => Entail::Hyp,
        EntailLeaf::Same => Entail::Same,
        EntailLeaf::Compute => Entail::Compute,
        EntailLeaf::Range => Entail::Range,
    }
}

// The derivation of a list at a number, whose parts begin at the inner one. Each row is a function of its own, since
// derivations nest deeply: only the row in use takes room on the stack.
#[cycle(entails)]
fn row_at(alloc: Global, at: u32, inner: u32, head: EntailHead, parts: &[Sx]) -> Read
    ensures { Gives (λ e. entails.tree_of e.value) result
        (rows.row_at at inner head (trees_in parts.now)) }
{
    match head {
        EntailHead::And => two_row(alloc, at, inner, TwoRule::And, parts),
        EntailHead::Imp => one_row(alloc, at, inner, OneRule::Imp, parts),
        EntailHead::Or => one_row(alloc, at, inner, OneRule::Or, parts),
        EntailHead::Not => one_row(alloc, at, inner, OneRule::Not, parts),
        EntailHead::Between => two_row(alloc, at, inner, TwoRule::Between, parts),
        EntailHead::Case => split_row(alloc, at, inner, SplitRule::Case, parts),
        EntailHead::Cut => split_row(alloc, at, inner, SplitRule::Cut, parts),
        EntailHead::Absurd => one_row(alloc, at, inner, OneRule::Absurd, parts),
        EntailHead::Rewrite => rewrite_row(alloc, at, inner, parts),
        EntailHead::Step => step_row(alloc, at, inner, parts),
        EntailHead::Linear => linear_row(alloc, at, inner, parts),
    }
}

#[cycle(entails)]
#[inline(never)]
fn one_row(alloc: Global, at: u32, inner: u32, rule: OneRule, parts: &[Sx]) -> Read
    ensures { Gives (λ e. entails.tree_of e.value) result
        (rows.one_row at inner (one_rule rule) (one_of (trees_in parts.now))) }
{
    let Some(part) = one(parts) else {
        return Err(TextFault::Shape(at));
    };
    let (part, at) = entail_at(alloc, part, inner)?;
    read(alloc, rule.over(part), at)
}

#[cycle(entails)]
#[inline(never)]
fn two_row(alloc: Global, at: u32, inner: u32, rule: TwoRule, parts: &[Sx]) -> Read
    ensures { Gives (λ e. entails.tree_of e.value) result
        (rows.two_row at inner (two_rule rule) (two_of (trees_in parts.now))) }
{
    let Some((first, last)) = two(parts) else {
        return Err(TextFault::Shape(at));
    };
    let (first, at) = entail_at(alloc, first, inner)?;
    let (last, at) = entail_at(alloc, last, at)?;
    read(alloc, rule.over(first, last), at)
}

#[cycle(entails)]
#[inline(never)]
fn split_row(alloc: Global, at: u32, inner: u32, rule: SplitRule, parts: &[Sx]) -> Read
    ensures { Gives (λ e. entails.tree_of e.value) result
        (rows.split_row at inner (split_rule rule) (three_of (trees_in parts.now))) }
{
    let Some((exp, first, last)) = three(parts) else {
        return Err(TextFault::Shape(at));
    };
    let (exp, at) = boxed_exp_at(alloc, exp, inner)?;
    let (first, at) = entail_at(alloc, first, at)?;
    let (last, at) = entail_at(alloc, last, at)?;
    read(alloc, rule.over(exp, first, last), at)
}

#[cycle(entails)]
#[inline(never)]
fn rewrite_row(alloc: Global, at: u32, inner: u32, parts: &[Sx]) -> Read
    ensures { Gives (λ e. entails.tree_of e.value) result
        (rows.rewrite_row at inner (five_of (trees_in parts.now))) }
{
    let Some((left, right, rest, first, last)) = five(parts) else {
        return Err(TextFault::Shape(at));
    };
    let (left, at) = boxed_exp_at(alloc, left, inner)?;
    let (right, at) = boxed_exp_at(alloc, right, at)?;
    let (rest, at) = boxed_exp_at(alloc, rest, at)?;
    let (first, at) = entail_at(alloc, first, at)?;
    let (last, at) = entail_at(alloc, last, at)?;
    read(alloc, Entail::Rewrite(left, right, rest, first, last), at)
}

#[cycle(entails)]
#[inline(never)]
fn step_row(alloc: Global, at: u32, inner: u32, parts: &[Sx]) -> Read
    ensures { Gives (λ e. entails.tree_of e.value) result
        (rows.step_row at inner (two_of (trees_in parts.now))) }
{
    let Some((rest, part)) = two(parts) else {
        return Err(TextFault::Shape(at));
    };
    let (rest, at) = boxed_exp_at(alloc, rest, inner)?;
    let (part, at) = entail_at(alloc, part, at)?;
    read(alloc, Entail::Step(rest, part), at)
}

#[inline(never)]
fn linear_row(alloc: Global, at: u32, inner: u32, parts: &[Sx]) -> Read
    ensures { Gives (λ e. entails.tree_of e.value) result
        (reading.linear_row at inner (first_of (trees_in parts.now))) }
{
    let Some((weight, facts)) = first(parts) else {
        return Err(TextFault::Shape(at));
    };
    let (weight, at) = number_at(weight, inner)?;
    let (facts, at) = each_weighed_at(alloc, facts, at)?;
    read(alloc, Entail::Linear(weight, facts), at)
}

fn each_weighed_at(alloc: Global, parts: &[Sx], at: u32) -> Result<(Vec<Weighed>, u32), TextFault>
    ensures { Gives (λ facts. map weighed_of facts.items) result
        (list_at reading.weighed_at at (trees_in parts.now)) }
{
    let mut facts = Vec::new(alloc);
    let mut here = at;
    'parts: for part in parts {
        let (fact, behind) = weighed_at(alloc, part, here)?;
        facts.push(fact)?;
        here = behind;
    }
    Ok((facts, here))
}

// How often a fact is taken, and the fact.
fn weighed_at(alloc: Global, tree: &Sx, at: u32) -> Result<(Weighed, u32), TextFault>
    ensures { Gives weighed_of result (reading.weighed_at at (tree_of tree.now)) }
{
    match tree.parts() {
        Some(parts) => weighed_row(alloc, parts, at),
        None => Err(TextFault::Shape(at)),
    }
}

fn weighed_row(alloc: Global, parts: &[Sx], at: u32) -> Result<(Weighed, u32), TextFault>
    ensures { Gives weighed_of result (reading.weighed_row at (two_of (trees_in parts.now))) }
{
    let Some((weight, fact)) = two(parts) else {
        return Err(TextFault::Shape(at));
    };
    let (weight, at) = number_at(weight, next(at))?;
    let (fact, at) = boxed_exp_at(alloc, fact, at)?;
    Ok((Weighed { weight, fact }, at))
}
