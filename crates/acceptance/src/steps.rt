//! The steps of one function, each decided by its kernel.

ghost use Rattle.std.specs.Prelude.{◌≡◌, ◌&&◌, true, [], map, string_bytes, List, Some};
ghost use Rattle.std.specs.Option.{option_map};
ghost use Rattle.c_values.specs.CodeValue.{global_of};
ghost use Rattle.expression_lang.specs.Sort.{Scalar, are_kinds, sort_of_kind};
ghost use Rattle.expression_lang.specs.Signature.{names_of, kinds_of};
ghost use Rattle.expression_lang.specs.CodeExpression.{level_of, kind_of};
ghost use Rattle.expression_lang.specs.CodeSignature.{signature_of, binder_of};
ghost use Rattle.simpl_lang.specs.CodeCommand.{simpl_of, simpl_fn_of, simpl_unit_of};
ghost use Rattle.simpl_lang.specs.Form.{is_flat};
ghost use Rattle.monad_lang.specs.CodeProgram.{mon_of};
ghost use Rattle.monad_lang.specs.Form.{is_bytes, is_heaps};
ghost use Rattle.monad_lang.specs.Sorted.{scalars_given, setting_signed};
ghost use Rattle.rule_trees.specs.RuleTree.{IsVerdict};
ghost use Rattle.rule_exn.specs.Rule.{◌to◌};
ghost use Rattle.rule_exn.specs.Table as Exceptions;
ghost use Rattle.rule_exn.specs.CodeRule as exceptions;
ghost use Rattle.rule_exn.specs.CodeVerdict as exceptions_verdict;
ghost use Rattle.rule_local.specs.Rule.{whole};
ghost use Rattle.rule_local.specs.Table as Locals;
ghost use Rattle.rule_local.specs.Units.{context_of, outputs_of};
ghost use Rattle.rule_local.specs.CodeRule as locals;
ghost use Rattle.rule_local.specs.CodeVerdict as locals_verdict;
ghost use Rattle.rule_heap.specs.Rule.{OfProgram};
ghost use Rattle.rule_heap.specs.Table as Heaps;
ghost use Rattle.rule_heap.specs.CodeRule as heaps;
ghost use Rattle.rule_heap.specs.CodeVerdict as heaps_verdict;
ghost use Rattle.rule_word.specs.Rule.{program};
ghost use Rattle.rule_word.specs.Table as Words;
ghost use Rattle.rule_word.specs.Scopes.{with_kinds, result_as_list};
ghost use Rattle.rule_word.specs.Ready.{is_form_of};
ghost use Rattle.rule_word.specs.CodeRule as words;
ghost use Rattle.rule_word.specs.CodeNames.{are_results};
ghost use Rattle.rule_word.specs.CodeVerdict as words_verdict;
ghost use Rattle.rule_eq.specs.Rule.{does};
ghost use Rattle.rule_eq.specs.Table as Equality;
ghost use Rattle.rule_eq.specs.Table.{point};
ghost use Rattle.rule_eq.specs.CodeRule as equality;
ghost use Rattle.rule_eq.specs.CodeVerdict as equality_verdict;
ghost use Rattle.acceptance.specs.Accepted.{is_command, is_on_words, is_on_numbers, word_context};
ghost use Rattle.acceptance.specs.CodeOutputs.{has_result};
ghost use Rattle.acceptance.specs.CodeSetting.{setting_there};
ghost use Rattle.acceptance.specs.Verdict as verdict;

use crate::forms::{gives_on_words, is_flat_command, is_form_of, is_on_numbers};
use ac_expr::Facts;
use c_values::{GlobalVar, Layout};
use expression_lang::{Binder, Kind, Level, Names, Signature};
use monad_lang::Mon;
use monad_sorts::{Functions, Inside, Setting};
use program_facts::Parts;
use program_sorts::Phase;
use rule_trees::{At, Tree};
use rule_word::{Kinds, Passed, Point};
use simpl_lang::{Simpl, SimplFn, SimplUnit};
use std::slice::from_ref;

/// Whether exceptions are eliminated: the command is well-sorted and flat, and the rules take the
/// function's body to it. Else the first bad node.
pub fn check_exceptions(
    u: &SimplUnit,
    f: &SimplFn,
    right: &Simpl,
    tree: &Tree<rule_exn::Rule>,
) -> Result<(), At>
    ensures { let a = simpl_of right.now in
        verdict.IsFormed (is_command (simpl_unit_of u.now) (simpl_fn_of f.now) a && is_flat a)
        (IsVerdict Exceptions.table (exceptions.tree_of tree.now) (simpl_of f.now.body to a))
        (exceptions_verdict.verdict_of result) }
{
    if is_flat_command(u, f, right) {
        rule_exn::check(tree, &f.body, right)
    } else {
        Err(At(0))
    }
}

/// Whether locals are lifted: the program gives the function's result from words and is on bytes,
/// and the rules take the command to it. Else the first bad node.
pub fn check_locals(
    u: &SimplUnit,
    f: &SimplFn,
    s: &Signature,
    left: &Simpl,
    right: &Mon,
    tree: &Tree<rule_local::Rule>,
) -> Result<(), At>
    requires { has_result (simpl_fn_of f.now).locals (signature_of s.now).result ≡ true }
    ensures { let m = mon_of right.now in let g = signature_of s.now in
        verdict.IsFormed (is_on_words (simpl_unit_of u.now) g m && is_bytes m)
        (IsVerdict (Locals.table (context_of (simpl_fn_of f.now) g)) (locals.tree_of tree.now)
        (whole (simpl_of left.now) m (outputs_of g.result)))
        (locals_verdict.verdict_of result) }
{
    if gives_on_words(u, s, right) && right.is_bytes() {
        let context = rule_local::Context {
            locals: &f.locals,
            parameters: &s.params,
        };
        rule_local::check(tree, left, right, outputs(&f.locals, s.result), context)
    } else {
        Err(At(0))
    }
}

/// Whether bytes become typed heaps: the program gives the function's result from words and is on
/// typed heaps, and the rules take the one before to it. Else the first bad node.
pub fn check_heaps(
    u: &SimplUnit,
    s: &Signature,
    left: &Mon,
    right: &Mon,
    tree: &Tree<rule_heap::Rule>,
) -> Result<(), At>
    ensures { let m = mon_of right.now in
        verdict.IsFormed (is_on_words (simpl_unit_of u.now) (signature_of s.now) m && is_heaps m)
        (IsVerdict (Heaps.table u.now.layout) (heaps.tree_of tree.now)
        (OfProgram [] (mon_of left.now) m))
        (heaps_verdict.verdict_of result) }
{
    if gives_on_words(u, s, right) && right.is_heaps() {
        let names = Names::new();
        let facts: Facts<'_, Parts<'_>> = Facts::new(&u.layout, &u.globals, &names);
        let context = rule_heap::Context {
            facts: &facts,
            layout: &u.layout,
        };
        rule_heap::check(tree, left, right, context)
    } else {
        Err(At(0))
    }
}

/// Whether words become numbers: the program gives the function's result from what stands for words
/// and is of its level's last form, and the rules take the one before to it. Else the first bad
/// node.
#[tactic(auto, using(crate::proofs::OnWords::given))]
pub fn check_words(
    u: &SimplUnit,
    s: &Signature,
    level: Level,
    left: &Mon,
    right: &Mon,
    tree: &Tree<rule_word::Rule>,
) -> Result<(), At>
    requires sorted { is_on_words (simpl_unit_of u.now) (signature_of s.now)
        (mon_of left.now) ≡ true }
    requires kinds { are_kinds (kinds_of (signature_of s.now).params) ≡ true }
    requires results { are_results (simpl_unit_of u.now).signatures ≡ true }
    ensures { let m = mon_of right.now in let unit = simpl_unit_of u.now in
        let g = signature_of s.now in
        verdict.IsFormed (is_on_numbers unit g m && is_form_of (level_of level) m)
        (IsVerdict (Words.table (word_context unit)) (words.tree_of tree.now)
        (program (record {
          facts = [];
          names = with_kinds (names_of g.params) (kinds_of g.params) [];
        })
        (mon_of left.now) m (result_as_list g.result)))
        (words_verdict.verdict_of result) }
{
    if is_on_numbers(u, s, right) && is_form_of(level, right) {
        words_taken(u, s, left, right, tree)
    } else {
        Err(At(0))
    }
}

// The same of a program that is formed.
fn words_taken(
    u: &SimplUnit,
    s: &Signature,
    left: &Mon,
    right: &Mon,
    tree: &Tree<rule_word::Rule>,
) -> Result<(), At>
    requires sorted { is_on_words (simpl_unit_of u.now) (signature_of s.now)
        (mon_of left.now) ≡ true }
    requires kinds { are_kinds (kinds_of (signature_of s.now).params) ≡ true }
    requires results { are_results (simpl_unit_of u.now).signatures ≡ true }
    ensures { let m = mon_of right.now in let unit = simpl_unit_of u.now in
        let g = signature_of s.now in
        IsVerdict (Words.table (word_context unit)) (words.tree_of tree.now)
        (program (record {
          facts = [];
          names = with_kinds (names_of g.params) (kinds_of g.params) [];
        })
        (mon_of left.now) m (result_as_list g.result))
        (words_verdict.verdict_of result) }
{
    let names = Names::new();
    let facts: Facts<'_, Passed<'_>> = Facts::new(&u.layout, &u.globals, &names);
    let none = Kinds::new();
    let kinds = none.push_all(&s.params);
    let point = Point {
        facts: &facts,
        names: &kinds,
    };
    let context = rule_word::Context {
        layout: &u.layout,
        globals: &u.globals,
        functions: &u.signatures,
    };
    match &s.result {
        None => rule_word::check(tree, left, right, &[], context, point),
        Some(kind) => rule_word::check(tree, left, right, from_ref(kind), context, point),
    }
}

/// Whether a program becomes the last one: that gives the function's result from what stands for
/// words and is of its level's last form, and the rules take the one before to it. Else the first
/// bad node.
pub fn check_equal(
    u: &SimplUnit,
    s: &Signature,
    level: Level,
    left: &Mon,
    right: &Mon,
    tree: &Tree<rule_eq::Rule>,
) -> Result<(), At>
    requires { is_on_numbers (simpl_unit_of u.now) (signature_of s.now) (mon_of left.now) ≡ true }
    ensures { let m = mon_of right.now in let unit = simpl_unit_of u.now in
        let g = signature_of s.now in
        verdict.IsFormed (is_on_numbers unit g m && is_form_of (level_of level) m)
        (IsVerdict Equality.table (equality.tree_of tree.now)
        (does (point [] (setting_signed sort_of_kind unit.layout unit.globals unit.signatures g))
        (mon_of left.now) m))
        (equality_verdict.verdict_of result) }
{
    if is_on_numbers(u, s, right) && is_form_of(level, right) {
        equal_taken(
            &u.layout,
            &u.globals,
            &u.signatures,
            &s.params,
            left,
            right,
            tree,
        )
    } else {
        Err(At(0))
    }
}

// The same of a program that is formed, over these structs, globals and functions.
fn equal_taken(
    layout: &Layout,
    globals: &[GlobalVar],
    functions: &[Signature],
    params: &[Binder],
    left: &Mon,
    right: &Mon,
    tree: &Tree<rule_eq::Rule>,
) -> Result<(), At>
    requires left { (given : List Scalar) × (scalars_given (setting_there layout.now
        (map global_of globals.now) (map signature_of functions.now) (map binder_of params.now))
        (mon_of left.now) ≡ Some given) }
    requires right { (given : List Scalar) × (scalars_given (setting_there layout.now
        (map global_of globals.now) (map signature_of functions.now) (map binder_of params.now))
        (mon_of right.now) ≡ Some given) }
    ensures { IsVerdict Equality.table (equality.tree_of tree.now)
        (does (point [] (setting_there layout.now
        (map global_of globals.now) (map signature_of functions.now) (map binder_of params.now)))
        (mon_of left.now) (mon_of right.now))
        (equality_verdict.verdict_of result) }
{
    let names = Names::new();
    let facts: Facts<'_, Parts<'_>> = Facts::new(layout, globals, &names);
    let inside = Inside::Parameters(params, Phase::OnNumbers);
    let setting = Setting {
        layout,
        globals,
        functions: Functions::Signatures(functions),
        phase: Phase::OnNumbers,
    };
    rule_eq::check(tree, left, right, setting, &facts, &inside)
}

// The local that holds the result, where there is one, as it is named among the locals.
fn outputs(locals: &[Binder], given: Option<Kind>) -> &[String]
    requires { has_result (map binder_of locals.now) (option_map kind_of given) ≡ true }
    ensures { map string_bytes result.now ≡ outputs_of (option_map kind_of given) }
{
    if given.is_none() {
        return &[];
    }
    'locals: for local in locals {
        if local.name.as_str() == "$ret" {
            return from_ref(&local.name);
        }
    }
    unreachable!()
}
