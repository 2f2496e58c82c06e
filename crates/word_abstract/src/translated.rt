//! Programs on the right with their trees, and what is recast.

ghost use Rattle.std.specs.Prelude.{◌≡◌, map, string_bytes, IfOk};
ghost use Rattle.std.specs.Option.{option_map};
ghost use Rattle.expression_lang.specs.Expression as plain;
ghost use Rattle.expression_lang.specs.CodeExpression.{exp_of, kind_of};
ghost use Rattle.monad_lang.specs.CodeProgram.{mon_of};
ghost use Rattle.rule_trees.specs.RuleTree as trees;
ghost use Rattle.rule_trees.specs.RuleTree.{no_trees};
ghost use Rattle.rule_word.specs.Table.{recast, recasts};
ghost use Rattle.rule_word.specs.ProgramsAbstracted.{recast_by, result_names, through_words, recast_to};
ghost use Rattle.rule_word.specs.CodeRule.{rule_of};
ghost use Rattle.word_abstract.specs.CodeTrees.{with_trees};
ghost use Rattle.word_abstract.specs.CodeTranslated.{translated_in, exps_in};

use crate::kinds::{copy_kinds, in_words, same_kinds};
use crate::trees::{alone, over};
use expression_lang::{Exp, Kind, boxed as boxed_exp, copy_names};
use monad_lang::{Mon, boxed};
use rule_trees::Tree;
use rule_word::Rule;
use std::alloc::{AllocError, Global};

/// A program on the right, and the tree of rules that takes another to it.
#[derive(Drop)]
pub(crate) struct Translated {
    pub(crate) right: Box<Mon>,
    pub(crate) tree: Tree<Rule>,
}

/// A program by a rule over these trees.
pub(crate) fn made(
    alloc: Global,
    rule: Rule,
    right: Mon,
    parts: Vec<Tree<Rule>>,
) -> Result<Box<Translated>, AllocError>
    ensures { IfOk result (λ m. translated_in m.value
        ≡ record {
          right = mon_of right;
          tree = trees.node (rule_of rule)
              (with_trees parts.items no_trees);
        }) }
{
    let right = boxed(alloc, right)?;
    let tree = over(rule, parts);
    Ok(Box::new(alloc, Translated { right, tree })?)
}

// A value that is bound at one kind, at another kind of the same words.
fn recast(alloc: Global, from: Kind, to: Kind, name: &str) -> Result<Option<Exp>, AllocError>
    ensures { IfOk result (λ e. option_map (λ e. exp_of e) e
        ≡ recast (kind_of from) (kind_of to) (plain.Var name.now)) }
{
    let e = Exp::Var(String::from_str(alloc, name)?);
    if from == to {
        return Ok(Some(e));
    }
    match from {
        Kind::Word(width) => match to {
            Kind::Nat(own) if own == width => Ok(Some(Exp::ToNat(boxed_exp(alloc, e)?))),
            Kind::Int(own) if own == width => Ok(Some(Exp::ToInt(boxed_exp(alloc, e)?))),
            _ => Ok(None),
        },
        Kind::Nat(width) | Kind::Int(width) => match to {
            Kind::Word(own) if own == width => { Ok(Some(Exp::ToWord(own, boxed_exp(alloc, e)?))) }
            _ => Ok(None),
        },
        Kind::Bool => Ok(None),
    }
}

// The same of each of some names.
#[tactic(auto, using(crate::proofs::Recasting::one_more, crate::proofs::Recasting::none_there, crate::proofs::Recasting::all_made))]
fn recasts(
    alloc: Global,
    from: &[Kind],
    to: &[Kind],
    names: &[String],
) -> Result<Option<Vec<Exp>>, AllocError>
    ensures { IfOk result (λ es. option_map exps_in es
        ≡ recasts (map kind_of from.now) (map kind_of to.now) (map string_bytes names.now)) }
{
    let mut made = Vec::new(alloc);
    let mut js = from;
    let mut ks = to;
    let mut ys = names;
    'along: while let Some((j, other_js)) = js.split_first() {
        let Some((k, other_ks)) = ks.split_first() else {
            return Ok(None);
        };
        let Some((y, other_ys)) = ys.split_first() else {
            return Ok(None);
        };
        let Some(e) = recast(alloc, *j, *k, y.as_str())? else {
            return Ok(None);
        };
        made.push(e)?;
        js = other_js;
        ks = other_ks;
        ys = other_ys;
    }
    if ks.is_empty() && ys.is_empty() {
        Ok(Some(made))
    } else {
        Ok(None)
    }
}

// What is at the kinds, under names, as these expressions.
fn recast_by(
    alloc: Global,
    from: &[Kind],
    names: &[String],
    values: Option<Vec<Exp>>,
    m: Box<Translated>,
) -> Result<Box<Translated>, AllocError>
    ensures { IfOk result (λ new. translated_in new.value
        ≡ recast_by (map kind_of from.now) (map string_bytes names.now) (option_map exps_in values)
        (translated_in m.value)) }
{
    let Some(values) = values else {
        return Ok(m);
    };
    let Translated { right, tree } = Box::into_inner(m);
    let names = copy_names(alloc, names)?;
    let last = boxed(alloc, Mon::Ret(values))?;
    let rule = Rule::Recast(copy_kinds(alloc, from)?);
    made(
        alloc,
        rule,
        Mon::Bind(right, names, last),
        alone(alloc, tree)?,
    )
}

// A result has the one name `$r`.
fn result_names(alloc: Global, kinds: &[Kind]) -> Result<Vec<String>, AllocError>
    ensures { IfOk result (λ names. map string_bytes names.items
        ≡ result_names (map kind_of kinds.now)) }
{
    let mut names = Vec::new(alloc);
    if !kinds.is_empty() {
        names.push(String::from_str(alloc, "$r")?)?;
    }
    Ok(names)
}

// Through words, where there is no direct way.
fn through_words(
    alloc: Global,
    from: &[Kind],
    to: &[Kind],
    names: &[String],
    m: Box<Translated>,
) -> Result<Box<Translated>, AllocError>
    ensures { IfOk result (λ new. translated_in new.value
        ≡ through_words (map kind_of from.now) (map kind_of to.now) (map string_bytes names.now)
        (translated_in m.value)) }
{
    let words = in_words(alloc, from)?;
    let values = recasts(alloc, from, &words, names)?;
    let m = recast_by(alloc, from, names, values, m)?;
    let values = recasts(alloc, &words, to, names)?;
    recast_by(alloc, &words, names, values, m)
}

/// What is at some kinds, at others.
pub(crate) fn recast_to(
    alloc: Global,
    from: &[Kind],
    to: &[Kind],
    m: Box<Translated>,
) -> Result<Box<Translated>, AllocError>
    ensures { IfOk result (λ new. translated_in new.value
        ≡ recast_to (Rattle.rule_word.specs.ProgramsAbstracted.same_kinds (map kind_of from.now)
        (map kind_of to.now))
        (map kind_of from.now) (map kind_of to.now) (translated_in m.value)) }
{
    if same_kinds(from, to) {
        return Ok(m);
    }
    let names = result_names(alloc, from)?;
    match recasts(alloc, from, to, &names)? {
        Some(values) => recast_by(alloc, from, &names, Some(values), m),
        None => through_words(alloc, from, to, &names, m),
    }
}
