//! Steps at a node, one after the other, and the trees that they are.

ghost use Rattle.std.specs.Prelude.{◌≡◌, true, IfOk};
ghost use Rattle.monad_lang.specs.CodeProgram.{mon_of};
ghost use Rattle.rule_trees.specs.RuleTree as trees;
ghost use Rattle.rule_trees.specs.RuleTree.{node, no_trees};
ghost use Rattle.rule_eq.specs.Rule as plain;
ghost use Rattle.rule_eq.specs.CodeRule.{rule_of, tree_of};
ghost use Rattle.rule_walks.specs.Balanced.{single, before, chained, paired, paired_from, round, built};
ghost use Rattle.rule_walks.specs.Walk.{Goes, seconds, second_trees, steps_in, joined_walks};
ghost use Rattle.rule_walks.specs.Walk.{over_bind, over_two, over_one, stays, one_walk, walked};
ghost use Rattle.rule_walks.specs.Walk.{after_before, and_led};
ghost use Rattle.rule_walks.specs.CodeWalks.{has_links, with_steps, chain_in, walk_in, before_in, made_in};

use monad_lang::Mon;
use rule_eq::Rule;
use rule_trees::Tree;
use std::alloc::{AllocError, Global};

/// A tree, and the program that it leads to.
#[derive(Drop)]
pub struct Step {
    pub tree: Tree<Rule>,
    pub program: Box<Mon>,
}

/// Trees, one after the other, with the programs between them.
#[derive(Drop)]
pub struct Chain {
    pub steps: Vec<Step>,
    pub last: Tree<Rule>,
}

/// What was done at a node.
#[derive(Drop)]
pub enum Walk {
    /// Nothing.
    Stayed,
    /// Steps at the node, or in the second part of its second part, and so on, so many times.
    Went(Chain, u32),
}

/// A program, and what was done to come there.
#[derive(Drop)]
pub struct Walked {
    pub program: Box<Mon>,
    pub walk: Walk,
}

/// What was done before, and the program that it led to.
#[derive(Drop)]
pub enum Ahead {
    Stayed,
    Went(Chain, u32, Box<Mon>),
}

/// A tree of a rule without parts.
pub fn leaf(alloc: Global, rule: Rule) -> Tree<Rule>
    ensures { tree_of result ≡ node (rule_of rule) no_trees }
{
    Tree {
        rule,
        parts: Vec::new(alloc),
    }
}

// A tree of one part.
fn over_one(alloc: Global, rule: Rule, part: Tree<Rule>) -> Result<Tree<Rule>, AllocError>
    ensures { IfOk result (λ t. tree_of t
        ≡ node (rule_of rule) (trees.tree (tree_of part) no_trees)) }
{
    let mut parts = Vec::new(alloc);
    parts.push(part)?;
    Ok(Tree { rule, parts })
}

// A tree of two parts.
fn over_two(
    alloc: Global,
    rule: Rule,
    first: Tree<Rule>,
    last: Tree<Rule>,
) -> Result<Tree<Rule>, AllocError>
    ensures { IfOk result (λ t. tree_of t
        ≡ node (rule_of rule) (trees.tree (tree_of first) (trees.tree (tree_of last) no_trees))) }
{
    let mut parts = Vec::new(alloc);
    parts.push(first)?;
    parts.push(last)?;
    Ok(Tree { rule, parts })
}

// Two trees as one, with the program between.
fn both(alloc: Global, first: Step, last: Tree<Rule>) -> Result<Tree<Rule>, AllocError>
    ensures { IfOk result (λ t. tree_of t ≡ node (plain.Trans (mon_of first.program.value))
        (trees.tree (tree_of first.tree) (trees.tree (tree_of last) no_trees))) }
{
    let Step { tree, program } = first;
    over_two(alloc, Rule::Trans(program), tree, last)
}

// Two steps as one.
fn joined_step(alloc: Global, first: Step, second: Step) -> Result<Step, AllocError>
    ensures tree { IfOk result (λ s. tree_of s.tree
        ≡ node (plain.Trans (mon_of first.program.value))
        (trees.tree (tree_of first.tree) (trees.tree (tree_of second.tree) no_trees))) }
    ensures program { IfOk result (λ s. mon_of s.program.value ≡ mon_of second.program.value) }
{
    let Step { tree, program } = second;
    let tree = both(alloc, first, tree)?;
    Ok(Step { tree, program })
}

// Each two that come one after the other as one, behind what is made already.
#[tactic(auto, using(crate::proofs::StepLists::waits, crate::proofs::StepLists::pairs))]
fn paired(
    alloc: Global,
    made: Vec<Step>,
    steps: Vec<Step>,
    last: Tree<Rule>,
) -> Result<Chain, AllocError>
    ensures { IfOk result (λ new. chain_in new
        ≡ with_steps made.items (paired (with_steps steps.items (single (tree_of last))))) }
{
    let mut made = made;
    let mut waiting: Option<Step> = None;
    'steps: for step in steps {
        match waiting.take() {
            None => waiting = Some(step),
            Some(first) => made.push(joined_step(alloc, first, step)?)?,
        }
    }
    match waiting {
        None => Ok(Chain { steps: made, last }),
        Some(first) => {
            let last = both(alloc, first, last)?;
            Ok(Chain { steps: made, last })
        }
    }
}

// The same where the first stands alone.
#[tactic(auto, using(crate::proofs::StepLists::first_then, crate::proofs::StepLists::none_alone))]
fn first_alone(alloc: Global, steps: Vec<Step>, last: Tree<Rule>) -> Result<Chain, AllocError>
    ensures { IfOk result (λ new. chain_in new
        ≡ paired_from true (with_steps steps.items (single (tree_of last)))) }
{
    let mut steps = steps;
    if steps.is_empty() {
        return Ok(Chain { steps, last });
    }
    let mut made = Vec::new(alloc);
    made.push(steps.remove(0))?;
    paired(alloc, made, steps, last)
}

// A round: of an odd number of trees the first stands alone.
#[tactic(auto, using(crate::proofs::StepLists::even_round, crate::proofs::StepLists::odd_round))]
fn round(alloc: Global, chain: Chain) -> Result<Chain, AllocError>
    ensures { IfOk result (λ new. chain_in new ≡ round (chain_in chain)) }
{
    let Chain { steps, last } = chain;
    if steps.len() % 2 == 0 {
        first_alone(alloc, steps, last)
    } else {
        paired(alloc, Vec::new(alloc), steps, last)
    }
}

// Whether there is a step before the last one.
fn has_links(chain: &Chain) -> bool
    ensures { result ≡ has_links (chain_in chain.now) }
{
    match chain.steps.split_first() {
        Some(_) => true,
        None => false,
    }
}

// The steps in pairs, until there is one.
#[tactic(auto, using(crate::proofs::Rounds::round_same, crate::proofs::Rounds::round_fewer, crate::proofs::StepLists::last_alone))]
fn as_one(alloc: Global, chain: Chain) -> Result<Tree<Rule>, AllocError>
    ensures { IfOk result (λ t. tree_of t ≡ built (chain_in chain)) }
{
    let mut rest = chain;
    'rounds: while has_links(&rest) {
        rest = round(alloc, rest)?;
    }
    let Chain { steps: _, last } = rest;
    Ok(last)
}

// A tree in the second part of a second part, and so on, so many times.
#[tactic(auto, using(crate::proofs::Seconds::around))]
fn wrapped(alloc: Global, tree: Tree<Rule>, count: u32) -> Result<Tree<Rule>, AllocError>
    ensures { IfOk result (λ t. tree_of t ≡ second_trees count (tree_of tree)) }
{
    let mut new = tree;
    let mut left = count;
    'around: while left > 0 {
        let first = leaf(alloc, Rule::Refl);
        new = over_two(alloc, Rule::Bind, first, new)?;
        left -= 1;
    }
    Ok(new)
}

// The tree of steps.
#[tactic(auto, using(crate::proofs::Seconds::seconds_built))]
fn tree_over(alloc: Global, chain: Chain, count: u32) -> Result<Tree<Rule>, AllocError>
    ensures { IfOk result (λ t. tree_of t
        ≡ built (steps_in (seconds count (Goes (chain_in chain))))) }
{
    let tree = as_one(alloc, chain)?;
    wrapped(alloc, tree, count)
}

/// The tree of a walk, whose steps stand in a balanced way.
pub fn built(alloc: Global, walk: Walk) -> Result<Tree<Rule>, AllocError>
    ensures { IfOk result (λ t. tree_of t ≡ built (steps_in (walk_in walk))) }
{
    match walk {
        Walk::Stayed => Ok(leaf(alloc, Rule::Refl)),
        Walk::Went(chain, count) => tree_over(alloc, chain, count),
    }
}

// Steps at the node itself.
#[tactic(auto, using(crate::proofs::Seconds::here_whole, crate::proofs::Seconds::here_single))]
fn here(alloc: Global, chain: Chain, count: u32) -> Result<Chain, AllocError>
    ensures { IfOk result (λ new. chain_in new
        ≡ steps_in (seconds count (Goes (chain_in chain)))) }
{
    if count == 0 {
        return Ok(chain);
    }
    let tree = as_one(alloc, chain)?;
    let last = wrapped(alloc, tree, count)?;
    let steps = Vec::new(alloc);
    Ok(Chain { steps, last })
}

/// One step.
pub fn one(alloc: Global, tree: Tree<Rule>) -> Walk
    ensures { walk_in result ≡ one_walk (tree_of tree) }
{
    let steps = Vec::new(alloc);
    Walk::Went(Chain { steps, last: tree }, 0)
}

/// A chain, and then another one.
pub fn chained(first: Chain, program: Box<Mon>, then: Chain) -> Result<Chain, AllocError>
    ensures { IfOk result (λ new. chain_in new
        ≡ chained (chain_in first) (mon_of program.value) (chain_in then)) }
{
    let Chain {
        mut steps,
        last: tree,
    } = first;
    let Chain {
        steps: mut more,
        last,
    } = then;
    steps.push(Step { tree, program })?;
    steps.append(&mut more)?;
    Ok(Chain { steps, last })
}

// Steps, and then others.
#[tactic(auto, using(crate::proofs::Seconds::went_stays, crate::proofs::Seconds::went_both))]
fn went_on(
    alloc: Global,
    first: Chain,
    count: u32,
    program: Box<Mon>,
    walk: Walk,
) -> Result<Walk, AllocError>
    ensures { IfOk result (λ new. walk_in new
        ≡ joined_walks (seconds count (Goes (chain_in first))) (mon_of program.value)
        (walk_in walk)) }
{
    match walk {
        Walk::Stayed => Ok(Walk::Went(first, count)),
        Walk::Went(then, more) => {
            let first = here(alloc, first, count)?;
            let then = here(alloc, then, more)?;
            Ok(Walk::Went(chained(first, program, then)?, 0))
        }
    }
}

// What was done in the second part of a sequence alone.
#[tactic(auto, using(crate::proofs::Seconds::second_more))]
fn in_second(walk: Walk) -> Result<Walk, AllocError>
    ensures { IfOk result (λ new. walk_in new ≡ over_bind stays (walk_in walk)) }
{
    match walk {
        Walk::Stayed => Ok(Walk::Stayed),
        Walk::Went(chain, count) => match count.checked_add(1) {
            Some(count) => Ok(Walk::Went(chain, count)),
            None => Err(AllocError),
        },
    }
}

/// What was done in both parts of a sequence. So many second parts that a `u32` doesn't count them
/// don't stand in memory.
#[tactic(auto, using(crate::proofs::Seconds::both_went))]
pub fn in_both(alloc: Global, first: Walk, last: Walk) -> Result<Walk, AllocError>
    ensures { IfOk result (λ new. walk_in new ≡ over_bind (walk_in first) (walk_in last)) }
{
    match first {
        Walk::Stayed => in_second(last),
        Walk::Went(chain, count) => {
            let first = tree_over(alloc, chain, count)?;
            let last = built(alloc, last)?;
            let tree = over_two(alloc, Rule::Bind, first, last)?;
            Ok(one(alloc, tree))
        }
    }
}

/// What was done in the two branches of an If.
#[tactic(auto, using(crate::proofs::Seconds::branches_first, crate::proofs::Seconds::branches_second))]
pub fn in_branches(alloc: Global, first: Walk, last: Walk) -> Result<Walk, AllocError>
    ensures { IfOk result (λ new. walk_in new
        ≡ over_two plain.If (walk_in first) (walk_in last)) }
{
    match first {
        Walk::Stayed => match last {
            Walk::Stayed => Ok(Walk::Stayed),
            Walk::Went(chain, count) => {
                let first = leaf(alloc, Rule::Refl);
                let last = tree_over(alloc, chain, count)?;
                let tree = over_two(alloc, Rule::If, first, last)?;
                Ok(one(alloc, tree))
            }
        },
        Walk::Went(chain, count) => {
            let first = tree_over(alloc, chain, count)?;
            let last = built(alloc, last)?;
            let tree = over_two(alloc, Rule::If, first, last)?;
            Ok(one(alloc, tree))
        }
    }
}

/// What was done in the body of a loop.
#[tactic(auto, using(crate::proofs::Seconds::body_went))]
pub fn in_body(alloc: Global, body: Walk) -> Result<Walk, AllocError>
    ensures { IfOk result (λ new. walk_in new ≡ over_one plain.Loop (walk_in body)) }
{
    match body {
        Walk::Stayed => Ok(Walk::Stayed),
        Walk::Went(chain, count) => {
            let body = tree_over(alloc, chain, count)?;
            let tree = over_one(alloc, Rule::Loop, body)?;
            Ok(one(alloc, tree))
        }
    }
}

/// A program to which nothing was done.
pub fn unchanged(program: Box<Mon>) -> Walked
    ensures { made_in result ≡ walked (mon_of program.value) stays }
{
    Walked {
        program,
        walk: Walk::Stayed,
    }
}

/// A program by one step.
pub fn at_once(alloc: Global, rule: Rule, program: Box<Mon>) -> Walked
    ensures { made_in result
        ≡ walked (mon_of program.value) (one_walk (node (rule_of rule) no_trees)) }
{
    let tree = leaf(alloc, rule);
    Walked {
        program,
        walk: one(alloc, tree),
    }
}

/// What was done before, and then what is done to what it led to.
pub fn joined(alloc: Global, ahead: Ahead, p: Walked) -> Result<Walked, AllocError>
    ensures { IfOk result (λ new. made_in new ≡ after_before (before_in ahead) (made_in p)) }
{
    match ahead {
        Ahead::Stayed => Ok(p),
        Ahead::Went(first, count, between) => {
            let Walked { program, walk } = p;
            let walk = went_on(alloc, first, count, between, walk)?;
            Ok(Walked { program, walk })
        }
    }
}

/// What was done before, and then steps to another program.
#[tactic(auto, using(crate::proofs::Seconds::led_stays, crate::proofs::Seconds::led_first, crate::proofs::Seconds::led_both))]
pub fn led(alloc: Global, ahead: Ahead, walk: Walk, program: Box<Mon>) -> Result<Ahead, AllocError>
    ensures { IfOk result (λ new. before_in new
        ≡ and_led (before_in ahead) (walk_in walk) (mon_of program.value)) }
{
    match walk {
        Walk::Stayed => Ok(ahead),
        Walk::Went(chain, count) => match ahead {
            Ahead::Stayed => Ok(Ahead::Went(chain, count, program)),
            Ahead::Went(first, before, between) => {
                let first = here(alloc, first, before)?;
                let then = here(alloc, chain, count)?;
                Ok(Ahead::Went(chained(first, between, then)?, 0, program))
            }
        },
    }
}
