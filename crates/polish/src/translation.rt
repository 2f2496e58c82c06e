//! Programs made tidy.

ghost use Rattle.std.specs.Prelude.{◌≡◌, true, List, Some, IfOk, map};
ghost use Rattle.c_values.specs.Layout.{IsLayout};
ghost use Rattle.expression_lang.specs.Sort.{Scalar};
ghost use Rattle.expression_lang.specs.Signature.{names_of, kinds_of};
ghost use Rattle.expression_lang.specs.CodeSignature.{binder_of};
ghost use Rattle.program_sorts.specs.CodeSorts.{sort_for};
ghost use Rattle.monad_lang.specs.CodeProgram.{mon_of};
ghost use Rattle.monad_lang.specs.Form.{is_tidy};
ghost use Rattle.monad_lang.specs.Sorted.{scalars_given};
ghost use Rattle.rule_eq.specs.CodeRule.{tree_of};
ghost use Rattle.rule_eq.specs.Table.{Takes};
ghost use Rattle.rule_eq.specs.Tidy.{KeepsForms};
ghost use Rattle.rule_walks.specs.CodeWalks.{made_in};
ghost use Rattle.expression_steps.specs.CodePoint.{names_of as bound_names, scalars_of};
ghost use Rattle.polish.specs.Polished.{polished};
ghost use Rattle.polish.specs.Seen.{seen};
ghost use Rattle.polish.specs.Translation.{translation};
ghost use Rattle.polish.specs.CodePoint.{root_point};

use crate::polishing::polished;
use ac_expr::Facts;
use expression_lang::{Binder, Names};
use expression_steps::{Binding, Scoped};
use given_scalars::Unit;
use monad_lang::Mon;
use program_sorts::Phase;
use rule_eq::Rule;
use rule_trees::Tree;
use rule_walks::{Walked, built};
use std::alloc::{AllocError, Global};

/// A tidy program that does the same, and the balanced tree of rules that shows it, where a
/// function's parameters are in scope and nothing is known. The rules take a well-sorted program to
/// it. There is no answer only where memory is wanting.
#[tactic(auto, using(crate::proofs::Made::right_made, crate::proofs::Made::tree_made, crate::proofs::Made::taken_there, crate::proofs::Made::gives_there, crate::proofs::Made::tidy_there, crate::proofs::Made::forms_there))]
pub fn translate(
    alloc: Global,
    left: &Mon,
    unit: Unit<'_>,
    parameters: &[Binder],
) -> Result<(Box<Mon>, Tree<Rule>), AllocError>
    ensures right { IfOk result (λ (right, tree). mon_of right.value
        ≡ (translation (root_point unit.entry parameters.now) (mon_of left.now)).program) }
    ensures tree { IfOk result (λ (right, tree). tree_of tree
        ≡ (translation (root_point unit.entry parameters.now) (mon_of left.now)).tree) }
    ensures taken { IfOk result (λ (right, tree). let at = root_point unit.entry parameters.now in
        IsLayout unit.entry.layout.now → (given : List Scalar) →
        scalars_given at.setting (mon_of left.now) ≡ Some given →
        Takes at (tree_of tree) (mon_of left.now) (mon_of right.value)) }
    ensures sorted { IfOk result (λ (right, tree). let at = root_point unit.entry parameters.now in
        IsLayout unit.entry.layout.now → (given : List Scalar) →
        scalars_given at.setting (mon_of left.now) ≡ Some given →
        scalars_given at.setting (mon_of right.value) ≡ Some given) }
    ensures tidy { IfOk result (λ (right, tree). is_tidy (mon_of right.value) ≡ true) }
    ensures forms { IfOk result (λ (right, tree).
        KeepsForms (mon_of left.now) (mon_of right.value)) }
{
    let Walked { program, walk } = made_tidy(alloc, left, unit, parameters)?;
    let tree = built(alloc, walk)?;
    Ok((program, tree))
}

// The program with what was done to come there.
fn made_tidy(
    alloc: Global,
    left: &Mon,
    unit: Unit<'_>,
    parameters: &[Binder],
) -> Result<Walked, AllocError>
    ensures { IfOk result (λ p. made_in p
        ≡ seen (polished (root_point unit.entry parameters.now) (mon_of left.now))) }
{
    let bound = bindings_of(alloc, parameters, unit.phase)?;
    let none = Scoped::Empty;
    let scope = Scoped::Within(&none, &bound);
    let names = Names::new();
    let facts = Facts::new(unit.layout, unit.globals, &names);
    polished(alloc, unit, &scope, &facts, left)
}

// The names of parameters, with what their kinds have in a phase.
#[tactic(auto, using(crate::proofs::Lists::mapped_push))]
fn bindings_of(
    alloc: Global,
    parameters: &[Binder],
    phase: Phase,
) -> Result<Vec<Binding>, AllocError>
    ensures names { IfOk result (λ bound.
        bound_names bound.items ≡ names_of (map binder_of parameters.now)) }
    ensures scalars { IfOk result (λ bound. scalars_of bound.items
        ≡ map (sort_for phase) (kinds_of (map binder_of parameters.now))) }
{
    let mut bound = Vec::new(alloc);
    let mut rest = parameters;
    'along: while let Some((binder, others)) = rest.split_first() {
        let name = binder.name.clone()?;
        let scalar = phase.scalar(binder.kind);
        bound.push(Binding { name, scalar })?;
        rest = others;
    }
    Ok(bound)
}
