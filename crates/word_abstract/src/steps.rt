//! Programs without programs in them.

ghost use Rattle.std.specs.Prelude.{◌≡◌, map, string_bytes, IfOk};
ghost use Rattle.std.specs.Option.{option_map};
ghost use Rattle.expression_lang.specs.Sort.{WordKind};
ghost use Rattle.expression_lang.specs.CodeSignature.{binder_of, signature_of};
ghost use Rattle.expression_lang.specs.Signature.{kinds_of};
ghost use Rattle.expression_lang.specs.CodeExpression.{exp_of, path_of, kind_of};
ghost use Rattle.monad_lang.specs.Program as M;
ghost use Rattle.monad_lang.specs.CodeProgram.{place_of, mon_of};
ghost use Rattle.monad_lang.specs.CodeFront.{IsStep};
ghost use Rattle.rule_trees.specs.RuleTree.{Trees, node, no_trees};
ghost use Rattle.rule_word.specs.Rule.{Rule as Named};
ghost use Rattle.rule_word.specs.ProgramsAbstracted.{pick_at, place_rule};
ghost use Rattle.rule_word.specs.Kept.{kinds_taken, kinds_given};
ghost use Rattle.rule_word.specs.CodeRule.{rule_of};
ghost use Rattle.word_abstract.specs.CodeTrees.{with_trees};
ghost use Rattle.word_abstract.specs.CodeTranslated.{translated_in};
ghost use Rattle.word_abstract.specs.CodeScenes.{indices_there, place_there, program_there};

use crate::abstracted::Abstracted;
use crate::exps::indices;
use crate::facts::Conditions;
use crate::lists::{AbstractedExps, all_at, own_at, test_at};
use crate::paths::Indices;
use crate::points::{Point, Scene};
use crate::translated::{Translated, made, recast_to};
use crate::trees::{alone, and_then, joined};
use c_values::copy_of;
use expression_lang::{Binder, Exp, Kind, Path, Signature};
use monad_lang::{Mon, Place};
use program_sorts::signature;
use rule_trees::Tree;
use rule_word::Rule;
use std::alloc::{AllocError, Global};

// A place on the right, and the trees of what is in it.
#[derive(Drop)]
struct AbstractedPlace {
    place: Place,
    trees: Vec<Tree<Rule>>,
}

// The indices of a path of a program.
fn indices_at(alloc: Global, at: &Scene<'_>, path: &Path) -> Result<Indices, AllocError>
    ensures path { IfOk result (λ new. (ts : Trees Named) →
        path_of new.path ≡ (indices_there at.now (path_of path.now) ts).path) }
    ensures trees { IfOk result (λ new. (ts : Trees Named) →
        with_trees new.trees.items ts ≡ (indices_there at.now (path_of path.now) ts).trees) }
{
    let conditions = Conditions::None;
    let point = Point {
        setting: at.setting,
        names: at.names,
        known: at.known,
        conditions: &conditions,
    };
    indices(alloc, &point, path)
}

fn place_at(alloc: Global, at: &Scene<'_>, place: &Place) -> Result<AbstractedPlace, AllocError>
    ensures place { IfOk result (λ new. (ts : Trees Named) →
        place_of new.place ≡ (place_there at.now (place_of place.now) ts).place) }
    ensures trees { IfOk result (λ new. (ts : Trees Named) →
        with_trees new.trees.items ts ≡ (place_there at.now (place_of place.now) ts).trees) }
{
    match place {
        Place::Stored(ty, pointer, path) => {
            let Abstracted { right, tree } = own_at(alloc, at, pointer)?;
            let Indices { path, trees } = indices_at(alloc, at, path)?;
            let trees = joined(alone(alloc, tree)?, trees)?;
            let place = Place::Stored(copy_of(alloc, ty)?, Box::into_inner(right), path);
            Ok(AbstractedPlace { place, trees })
        }
        Place::Written(ty, pointer, path) => {
            let Abstracted { right, tree } = own_at(alloc, at, pointer)?;
            let Indices { path, trees } = indices_at(alloc, at, path)?;
            let trees = joined(alone(alloc, tree)?, trees)?;
            let place = Place::Written(copy_of(alloc, ty)?, Box::into_inner(right), path);
            Ok(AbstractedPlace { place, trees })
        }
        Place::Global(name, path) => {
            let Indices { path, trees } = indices_at(alloc, at, path)?;
            let place = Place::Global(name.clone()?, path);
            Ok(AbstractedPlace { place, trees })
        }
    }
}

fn rule_for(place: &Place) -> Rule
    ensures { rule_of result ≡ place_rule (place_of place.now) }
{
    match place {
        Place::Stored(_, _, _) | Place::Written(_, _, _) => Rule::Write,
        Place::Global(_, _) => Rule::Global,
    }
}

fn written(
    alloc: Global,
    at: &Scene<'_>,
    place: &Place,
    value: &Exp,
    kinds: &[Kind],
) -> Result<Box<Translated>, AllocError>
    ensures { IfOk result (λ m. translated_in m.value
        ≡ program_there at.now (M.Write (place_of place.now) (exp_of value.now))
        (map kind_of kinds.now)) }
{
    let rule = rule_for(place);
    let Abstracted { right, tree } = own_at(alloc, at, value)?;
    let AbstractedPlace { place, trees } = place_at(alloc, at, place)?;
    let trees = and_then(trees, tree)?;
    made(
        alloc,
        rule,
        Mon::Write(place, Box::into_inner(right)),
        trees,
    )
}

fn called(
    alloc: Global,
    at: &Scene<'_>,
    function: &String,
    arguments: &[Exp],
    kinds: &[Kind],
) -> Result<Box<Translated>, AllocError>
    ensures { IfOk result (λ m. translated_in m.value
        ≡ program_there at.now (M.Call (string_bytes function.now) (map exp_of arguments.now))
        (map kind_of kinds.now)) }
{
    let setting = at.setting;
    let context = setting.context;
    let callee = signature(context.functions, function.as_str());
    let taken = kinds_taken(alloc, callee)?;
    let given = kinds_given(alloc, callee)?;
    let AbstractedExps { exps, trees } = all_at(alloc, at, arguments, &taken)?;
    let call = made(alloc, Rule::Call, Mon::Call(function.clone()?, exps), trees)?;
    recast_to(alloc, &given, kinds, call)
}

// The kinds of a function's parameters.
fn kinds_taken(alloc: Global, callee: Option<&Signature>) -> Result<Vec<Kind>, AllocError>
    ensures { IfOk result (λ kinds. map kind_of kinds.items
        ≡ kinds_taken (option_map (λ s. signature_of s.now) callee.entry)) }
{
    match callee {
        Some(callee) => param_kinds(alloc, &callee.params),
        None => Ok(Vec::new(alloc)),
    }
}

#[tactic(auto, using(crate::proofs::Mapped::mapped_push))]
fn param_kinds(alloc: Global, params: &[Binder]) -> Result<Vec<Kind>, AllocError>
    ensures { IfOk result (λ kinds. map kind_of kinds.items ≡ kinds_of (map binder_of params.now)) }
{
    let mut kinds = Vec::new(alloc);
    let mut rest = params;
    'along: while let Some((first, others)) = rest.split_first() {
        kinds.push(first.kind)?;
        rest = others;
    }
    Ok(kinds)
}

// The kind of its result, if it has one.
fn kinds_given(alloc: Global, callee: Option<&Signature>) -> Result<Vec<Kind>, AllocError>
    ensures { IfOk result (λ kinds. map kind_of kinds.items
        ≡ kinds_given (option_map (λ s. signature_of s.now) callee.entry)) }
{
    let mut kinds = Vec::new(alloc);
    if let Some(callee) = callee {
        if let Some(kind) = callee.result {
            kinds.push(kind)?;
        }
    }
    Ok(kinds)
}

// A word that is picked as one of its numbers is picked as that number.
fn picked(alloc: Global, kind: Kind, kinds: &[Kind]) -> Result<Box<Translated>, AllocError>
    ensures { IfOk result (λ m. translated_in m.value
        ≡ pick_at (kind_of kind) (map kind_of kinds.now)) }
{
    let (rule, kind) = match kind {
        Kind::Word(width) => picked_word(width, kinds),
        _ => (Rule::Pick, kind),
    };
    made(alloc, rule, Mon::Pick(kind), Vec::new(alloc))
}

fn picked_word(width: u8, kinds: &[Kind]) -> (Rule, Kind)
    ensures { let (rule, kind) = result in
        pick_at (WordKind width) (map kind_of kinds.now)
        ≡ record { right = M.Pick (kind_of kind); tree = node (rule_of rule) no_trees } }
{
    match kinds {
        [Kind::Nat(_)] => (Rule::PickNat, Kind::Nat(width)),
        [Kind::Int(_)] => (Rule::PickInt, Kind::Int(width)),
        _ => (Rule::Pick, Kind::Word(width)),
    }
}

/// A program without programs in it.
pub(crate) fn step(
    alloc: Global,
    at: &Scene<'_>,
    m: &Mon,
    kinds: &[Kind],
) -> Result<Box<Translated>, AllocError>
    requires { IsStep (mon_of m.now) }
    ensures { IfOk result (λ new.
        translated_in new.value ≡ program_there at.now (mon_of m.now) (map kind_of kinds.now)) }
{
    match m {
        Mon::Ret(values) => {
            let AbstractedExps { exps, trees } = all_at(alloc, at, values, kinds)?;
            made(alloc, Rule::Ret, Mon::Ret(exps), trees)
        }
        Mon::Guard(condition) => {
            let Abstracted { right, tree } = test_at(alloc, at, condition)?;
            let trees = alone(alloc, tree)?;
            made(
                alloc,
                Rule::Guard,
                Mon::Guard(Box::into_inner(right)),
                trees,
            )
        }
        Mon::Write(place, value) => written(alloc, at, place, value, kinds),
        Mon::Call(function, arguments) => called(alloc, at, function, arguments, kinds),
        Mon::Pick(kind) => picked(alloc, *kind, kinds),
        _ => unreachable!(),
    }
}
