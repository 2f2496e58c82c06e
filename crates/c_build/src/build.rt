//! The trees of a text, built from its script.

ghost use Rattle.std.specs.Prelude.{◌≡◌, [], ◌∷◌, IfOk, List, MatchResult, None, Some};
ghost use Rattle.std.specs.Option.{option_map};
ghost use Rattle.c_lex.specs.Lexeme.{lexemes_of};
ghost use Rattle.c_grammar.specs.declared.scripts.Step.{Step as Steps};
ghost use Rattle.c_grammar.specs.CodeBuild.{OfUnit};
ghost use Rattle.c_grammar.specs.CodeScript.{replay};
ghost use Rattle.c_grammar.specs.Tree.{External};
ghost use Rattle.c_grammar.specs.CodeTree.{unit_of};
ghost use Rattle.c_build.specs.CodeValues.{values_of};

mod declarators;
mod externals;
mod operands;
mod parameters;
mod parts;
mod reduce;
mod simples;
mod stack;
mod statements;
mod tokens;
mod types;
mod value;

use c_grammar::Step;
use c_grammar::tree::Unit;
use c_lex::Token;
use stack::{BuildFault, Stack};
use std::alloc::{AllocError, Global};
use value::Value;

/// Takes one step on the tokens that are left, and tells which are left then.
#[tactic(auto, using(crate::proofs::Fitted::misfits), unfolding(c_grammar::specs::CodeScript::replay))]
fn follow<'a>(
    alloc: Global,
    values: &mut Stack<Value<'a>>,
    step: Step,
    rest: &'a [Token],
) -> Result<&'a [Token], BuildFault>
    ensures { MatchResult result
        (λ left. (steps : List Steps) →
        replay (step ∷ steps) (lexemes_of rest.now) (values_of values.old)
        ≡ replay steps (lexemes_of left.now) (values_of values.new))
        (λ e. e ≡ BuildFault.Missing → (steps : List Steps) →
        replay (step ∷ steps) (lexemes_of rest.now) (values_of values.old) ≡ None) }
{
    match step {
        Step::Shift => {
            let Some((token, left)) = rest.split_first() else {
                return Err(BuildFault::Missing);
            };
            values.put(Value::Token(token))?;
            Ok(left)
        }
        Step::Reduce(production) => {
            values.reduce(alloc, production)?;
            Ok(rest)
        }
    }
}

/// The values after all steps.
#[tactic(auto, unfolding(c_grammar::specs::CodeScript::replay, crate::specs::CodeValues::values_of))]
fn run<'a>(
    alloc: Global,
    steps: &[Step],
    tokens: &'a [Token],
) -> Result<Stack<Value<'a>>, BuildFault>
    ensures { MatchResult result
        (λ values. replay steps.now (lexemes_of tokens.now) [] ≡ Some (values_of values))
        (λ e. e ≡ BuildFault.Missing → replay steps.now (lexemes_of tokens.now) [] ≡ None) }
{
    let mut values = Stack::new(alloc);
    let mut rest = tokens;
    for step in steps {
        rest = follow(alloc, &mut values, *step, rest)?;
    }
    Ok(values)
}

/// The tree that stands alone on the stack after all steps.
fn tree_of(alloc: Global, steps: &[Step], tokens: &[Token]) -> Result<Unit, BuildFault>
    ensures { (exts : List External) → replay steps.now (lexemes_of tokens.now) []
        ≡ Some (OfUnit exts ∷ []) → MatchResult result (λ unit. unit_of unit ≡ exts)
        (λ e. e ≡ BuildFault.Memory) }
{
    let mut values = run(alloc, steps, tokens)?;
    let text = values.text()?;
    Ok(Unit {
        externals: text.into_vec(),
    })
}

/// The tree of a script, where its steps leave one.
pub fn build(alloc: Global, steps: &[Step], tokens: &[Token]) -> Result<Option<Unit>, AllocError>
    ensures { (exts : List External) → replay steps.now (lexemes_of tokens.now) []
        ≡ Some (OfUnit exts ∷ []) → IfOk result (λ found. option_map unit_of found ≡ Some exts) }
{
    match tree_of(alloc, steps, tokens) {
        Ok(unit) => Ok(Some(unit)),
        Err(BuildFault::Missing) => Ok(None),
        Err(BuildFault::Memory) => Err(AllocError),
    }
}
