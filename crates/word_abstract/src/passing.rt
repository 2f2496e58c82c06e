//! What is known, and which names are in scope, behind the parts of a sequence that were passed.

ghost use Rattle.std.specs.Prelude.{◌≡◌, map, string_bytes, IfOk, List};
ghost use Rattle.expression_lang.specs.CodeExpression.{kind_of};
ghost use Rattle.expression_lang.specs.CodeSignature.{binder_of};
ghost use Rattle.expression_lang.specs.Signature.{Binder as Plain, names_of, kinds_of};
ghost use Rattle.monad_lang.specs.CodeProgram.{mon_of};
ghost use Rattle.program_facts.specs.Flow.{facts_after, guard_in};
ghost use Rattle.ac_expr.specs.Fact.{Fact as PlainFact};
ghost use Rattle.ac_expr.specs.Passed.{without_names};
ghost use Rattle.rule_word.specs.Scopes.{with_kinds};
ghost use Rattle.word_abstract.specs.CodeKnown.{newest_first, with_lasting_guard};
ghost use Rattle.word_abstract.specs.CodeFacts.{whole, known_in};
ghost use Rattle.word_abstract.specs.CodePassing.{facts_passed, names_passed};
ghost use Rattle.word_abstract.specs.CodeFronts.{with_front, with_fronts};
ghost use Rattle.word_abstract.specs.CodeTranslated.{translated_in};

use crate::facts::{Fact, Known, lasting, lasting_guards};
use crate::translated::{Translated, made};
use crate::trees::{alone, and_then};
use expression_lang::{Binder, Exp, Kind};
use monad_lang::Mon;
use program_facts::changes_state;
use rule_parts::is_unnamed;
use rule_trees::Tree;
use rule_word::Rule;
use std::alloc::{AllocError, Global};

/// A first part on the right with the names of its values at their kinds, and its tree.
#[derive(Drop)]
pub(crate) struct Front {
    pub(crate) right: Box<Mon>,
    pub(crate) names: Vec<String>,
    pub(crate) kinds: Vec<Kind>,
    pub(crate) tree: Tree<Rule>,
}

/// What is known behind the parts that were passed, from before them and from their guards, and the
/// names that they bind.
#[derive(Drop)]
pub(crate) struct Passed<'a> {
    pub(crate) outer: Vec<Fact<'a>>,
    pub(crate) own: Vec<Exp>,
    pub(crate) bound: Vec<Binder>,
}

/// Before the first part.
pub(crate) fn none_passed<'a>(alloc: Global, known: Known<'a>) -> Result<Passed<'a>, AllocError>
    ensures facts { IfOk result (λ passed. facts_passed passed ≡ known_in known.entry) }
    ensures names { IfOk result (λ passed. (bs : List Plain) → names_passed passed bs ≡ bs) }
{
    Ok(Passed {
        outer: known.all(alloc)?,
        own: Vec::new(alloc),
        bound: Vec::new(alloc),
    })
}

/// Behind one part more.
pub(crate) fn pass<'a>(
    alloc: Global,
    before: Passed<'a>,
    front: &Front,
) -> Result<Passed<'a>, AllocError>
    ensures facts { IfOk result (λ passed. facts_passed passed
        ≡ facts_after (mon_of front.now.right.value) (map string_bytes front.now.names.items)
        (facts_passed before.entry)) }
    ensures names { IfOk result (λ passed. (bs : List Plain) → names_passed passed bs
        ≡ with_kinds (map string_bytes front.now.names.items) (map kind_of front.now.kinds.items)
        (names_passed before.entry bs)) }
{
    pass_by(alloc, before, &front.right, &front.names, &front.kinds)
}

fn pass_by<'a>(
    alloc: Global,
    before: Passed<'a>,
    m: &Mon,
    names: &[String],
    kinds: &[Kind],
) -> Result<Passed<'a>, AllocError>
    ensures facts { IfOk result (λ passed. facts_passed passed
        ≡ facts_after (mon_of m.now) (map string_bytes names.now) (facts_passed before.entry)) }
    ensures names { IfOk result (λ passed. (bs : List Plain) → names_passed passed bs
        ≡ with_kinds (map string_bytes names.now) (map kind_of kinds.now)
        (names_passed before.entry bs)) }
{
    let Passed { outer, own, bound } = before;
    let changes = changes_state(m);
    let outer = lasting(alloc, outer, names, changes)?;
    let own = lasting_guards(alloc, own, names, changes)?;
    let own = guarded(alloc, own, m, names)?;
    let bound = bound_also(bound, names, kinds)?;
    Ok(Passed { outer, own, bound })
}

// The guards that last, with that of a program whose values get these names.
#[tactic(auto, using(crate::proofs::KnownLaws::newest_push))]
fn guarded(
    alloc: Global,
    guards: Vec<Exp>,
    m: &Mon,
    names: &[String],
) -> Result<Vec<Exp>, AllocError>
    ensures { IfOk result (λ new. (older : List PlainFact) →
        let xs = map string_bytes names.now in
        newest_first (map whole new.items) (without_names xs older)
        ≡ with_lasting_guard xs (guard_in (mon_of m.now))
        (newest_first (map whole guards.items) (without_names xs older))) }
{
    let mut guards = guards;
    if let Mon::Guard(condition) = m {
        if is_unnamed(names, condition) {
            guards.push(condition.copy(alloc)?)?;
        }
    }
    Ok(guards)
}

// The names with more, each with its kind.
#[tactic(auto, using(crate::proofs::BoundLaws::bound_push))]
fn bound_also(
    names: Vec<Binder>,
    more: &[String],
    kinds: &[Kind],
) -> Result<Vec<Binder>, AllocError>
    ensures { IfOk result (λ new. (bs : List Plain) →
        with_kinds (names_of (map binder_of new.items)) (kinds_of (map binder_of new.items)) bs
        ≡ with_kinds (map string_bytes more.now) (map kind_of kinds.now)
        (with_kinds (names_of (map binder_of names.items))
        (kinds_of (map binder_of names.items)) bs)) }
{
    let mut all = names;
    let mut rest = more;
    let mut left = kinds;
    'names: while let Some((name, names)) = rest.split_first() {
        let Some((kind, others)) = left.split_first() else {
            return Ok(all);
        };
        all.push(Binder {
            name: name.clone()?,
            kind: *kind,
        })?;
        rest = names;
        left = others;
    }
    Ok(all)
}

// What the whole is, where its last program is this.
fn with_front(
    alloc: Global,
    front: Front,
    last: Box<Translated>,
) -> Result<Box<Translated>, AllocError>
    ensures { IfOk result (λ m. translated_in m.value
        ≡ with_front front (translated_in last.value)) }
{
    let Front {
        right: first,
        names,
        kinds,
        tree,
    } = front;
    let Translated {
        right,
        tree: last_tree,
    } = Box::into_inner(last);
    let parts = and_then(alone(alloc, tree)?, last_tree)?;
    made(
        alloc,
        Rule::Bind(kinds),
        Mon::Bind(first, names, right),
        parts,
    )
}

/// What the whole is, where its last program is this; the first front is outermost.
#[tactic(auto, using(crate::proofs::FrontLaws::with_fronts_push))]
pub(crate) fn closed(
    alloc: Global,
    mut fronts: Vec<Front>,
    last: Box<Translated>,
) -> Result<Box<Translated>, AllocError>
    ensures { IfOk result (λ m. translated_in m.value
        ≡ with_fronts fronts.items (translated_in last.value)) }
{
    let mut whole = last;
    'back: while let Some(front) = fronts.pop() {
        whole = with_front(alloc, front, whole)?;
    }
    Ok(whole)
}
