//! Programs on words made programs on what stands for them.

ghost use Rattle.std.specs.Prelude.{◌≡◌, true, [], map, Some, IfOk};
ghost use Rattle.std.specs.Option.{option_map};
ghost use Rattle.expression_lang.specs.Sort.{word_sort_of};
ghost use Rattle.expression_lang.specs.CodeExpression.{level_of, kind_of};
ghost use Rattle.ac_expr.specs.SameExp.{same_exp};
ghost use Rattle.monad_lang.specs.CodeProgram.{mon_of};
ghost use Rattle.monad_lang.specs.Sorted.{scalars_given};
ghost use Rattle.rule_word.specs.Scopes.{words, with_kinds, result_as_list};
ghost use Rattle.rule_word.specs.Table.{Takes};
ghost use Rattle.rule_word.specs.ProgramsAbstracted.{program_abstracted, binds_words};
ghost use Rattle.rule_word.specs.Ready.{is_numbers_level, program_ready, is_form_of, is_heap_form_of};
ghost use Rattle.rule_word.specs.UnitAbstracted.{scope_for, kinds_there};
ghost use Rattle.rule_word.specs.CodeRule.{tree_of, context_in};
ghost use Rattle.rule_word.specs.CodeKinds.{binders_in};
ghost use Rattle.expression_lang.specs.Signature.{names_of, kinds_of};
ghost use Rattle.expression_lang.specs.CodeSignature.{binder_of};
ghost use Rattle.word_abstract.specs.CodeTranslated.{translated_in};
ghost use Rattle.word_abstract.specs.CodeScenes.{local_kinds};
ghost use Rattle.word_abstract.specs.CodeFunctionKinds.{function_kinds, translated_for};

use crate::facts::Known;
use crate::points::{Scene, Setting};
use crate::programs::program;
use crate::translated::Translated;
use expression_lang::{Binder, Kind, Level};
use monad_lang::Mon;
use rule_trees::Tree;
use rule_word::{Context, Kinds, Rule};
use std::alloc::{AllocError, Global};

/// The kinds that a function has on the right, its locals' among them.
#[derive(Clone, Copy)]
pub struct FunctionKinds<'a> {
    pub params: &'a [Binder],
    pub result: Option<Kind>,
    pub locals: &'a [Binder],
}

/// A program that does the same on what stands for words, and the tree of rules that shows it: a
/// name is at the kind that is said of it, a call's result is recast where it is wanted at another
/// kind, and where words are to be numbers, a sum is one of numbers by the oldest fact that gives
/// its range. The rules take a well-sorted program whose bound names are words or truth values to
/// it; where it is ready for its level, it is of the level's form. There is no answer only where
/// memory is wanting.
#[tactic(auto, using(crate::proofs::TakenThere::taken, crate::proofs::TakenThere::formed))]
pub fn translate<'x>(
    alloc: Global,
    left: &Mon,
    level: Level,
    context: Context<'x>,
    kinds: FunctionKinds<'x>,
) -> Result<(Box<Mon>, Tree<Rule>), AllocError>
    ensures right { IfOk result (λ (right, tree). mon_of right.value
        ≡ (translated_for (level_of level) context.entry kinds.entry (mon_of left.now)).right) }
    ensures tree { IfOk result (λ (right, tree). tree_of tree
        ≡ (translated_for (level_of level) context.entry kinds.entry (mon_of left.now)).tree) }
    ensures taken { IfOk result (λ (right, tree).
        let k = function_kinds kinds.entry in
        let ctx = context_in context.entry in
        scalars_given (words ctx (scope_for k)) (mon_of left.now)
        ≡ Some (map word_sort_of (result_as_list k.result)) →
        binds_words (words ctx (scope_for k)) (mon_of left.now) ≡ true →
        Takes ctx (scope_for k) (tree_of tree) (mon_of left.now) (mon_of right.value)
        (result_as_list k.result)) }
    ensures formed { IfOk result (λ (right, tree).
        let k = function_kinds kinds.entry in
        program_ready same_exp (is_numbers_level (level_of level)) (context_in context.entry)
        (kinds_there k) [] (scope_for k)
        (mon_of left.now) (result_as_list k.result) ≡ true →
        is_heap_form_of (level_of level) (mon_of left.now) ≡ true →
        is_form_of (level_of level) (mon_of right.value) ≡ true) }
{
    let setting = Setting {
        numbers: level == Level::Numbers,
        context,
        locals: kinds.locals,
    };
    let none = Kinds::None;
    let results = results_of(alloc, kinds.result)?;
    let whole = at_kinds(alloc, &setting, &none, &*kinds.params, left, &results)?;
    let Translated { right, tree } = Box::into_inner(whole);
    Ok((right, tree))
}

// A program whose parameters have these kinds, at the kinds of its results.
fn at_kinds<'x>(
    alloc: Global,
    setting: &'x Setting<'x>,
    none: &'x Kinds<'x>,
    params: &'x [Binder],
    left: &Mon,
    results: &[Kind],
) -> Result<Box<Translated>, AllocError>
    ensures { IfOk result (λ new. translated_in new.value
        ≡ program_abstracted same_exp setting.now.numbers (context_in setting.now.context)
        (λ x. local_kinds setting.now x) []
        (with_kinds (names_of (map binder_of params.now)) (kinds_of (map binder_of params.now))
        (binders_in none.now))
        (mon_of left.now) (map kind_of results.now)) }
{
    let names = none.push_all(params);
    let at = Scene {
        setting: &*setting,
        names: &names,
        known: Known::none(),
    };
    program(alloc, &at, left, results)
}

// A function's result, or none.
fn results_of(alloc: Global, kind: Option<Kind>) -> Result<Vec<Kind>, AllocError>
    ensures { IfOk result (λ kinds. map kind_of kinds.items
        ≡ result_as_list (option_map kind_of kind)) }
{
    let mut kinds = Vec::new(alloc);
    if let Some(kind) = kind {
        kinds.push(kind)?;
    }
    Ok(kinds)
}
