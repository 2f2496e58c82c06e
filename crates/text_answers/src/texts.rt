//! Texts, their tokens, their trees and their types.

ghost use Rattle.std.specs.Prelude.{◌≡◌, None, IfErr, IfOk};
ghost use Rattle.c_lex.specs.Lexeme.{lexemes_of};
ghost use Rattle.c_grammar.specs.Spells.{Spells};
ghost use Rattle.c_limits.specs.Limits.{first_limit};
ghost use Rattle.c_parse.specs.Answer.{IsFaultOf};
ghost use Rattle.typing_rules.specs.Unit.{IsTyped};
ghost use Rattle.c_types.specs.CodeUnit.{IsBadText};
ghost use Rattle.c_grammar.specs.CodeTree.{unit_of as tree_of};
ghost use Rattle.c_lang.specs.CodeTyped.{unit_of};
ghost use Rattle.c_values.specs.CodeTypes.{target_of};
ghost use Rattle.text_answers.specs.TextAnswer.{IsTextAnswer, IsTokensAnswer, IsTreeAnswer};
ghost use Rattle.text_answers.specs.CodeTrees.{HasTokens, HasText};

use crate::tasks::Task;
use answers::{Answer, lex_refusal, parse_refusal, untyped};
use c_grammar::tree::Unit;
use c_lang::tree::TypedUnit;
use c_lex::{Token, tokens};
use c_parse::{ParseFault, parse};
use c_types::{TypeFault, check_unit};
use c_values::Target;
use std::alloc::{AllocError, Global};

/// The answer to a text: why it isn't typed, or what the task answers to its unit.
pub fn answer_text<T: Task>(alloc: Global, text: &[u8], task: &T) -> Result<Answer, AllocError>
    ensures { IfOk result (λ a. IsTextAnswer (T.target_for task.now) (T.answers task.now)
        text.now a.status a.lines.items) }
{
    match tokens(alloc, text) {
        Ok(tokens) => answer_tokens(alloc, tokens, task),
        Err(fault) => lex_refusal(alloc, fault),
    }
}

// The answer to the tokens of a text.
fn answer_tokens<T: Task>(alloc: Global, tokens: Vec<Token>, task: &T) -> Result<Answer, AllocError>
    requires { HasTokens (lexemes_of tokens.items) }
    ensures { IfOk result (λ a. IsTokensAnswer (T.target_for task.now) (T.answers task.now)
        (lexemes_of tokens.items) a.status a.lines.items) }
{
    match tree(alloc, tokens) {
        Ok(tree) => answer_tree(alloc, tree, task),
        Err(fault) => parse_refusal(alloc, fault),
    }
}

// The tree of tokens. They are let go here: nothing behind needs them.
fn tree(alloc: Global, tokens: Vec<Token>) -> Result<Unit, ParseFault>
    ensures found { IfOk result (λ unit. Spells (tree_of unit) (lexemes_of tokens.items)
        × (first_limit (tree_of unit) ≡ None)) }
    ensures fault { IfErr result (IsFaultOf (lexemes_of tokens.items)) }
{
    parse(alloc, &tokens)
}

// The answer to a tree.
fn answer_tree<T: Task>(alloc: Global, tree: Unit, task: &T) -> Result<Answer, AllocError>
    requires { HasText (tree_of tree) }
    ensures { IfOk result (λ a. IsTreeAnswer (T.target_for task.now) (T.answers task.now)
        (tree_of tree) a.status a.lines.items) }
{
    match typed(alloc, task.target(), tree) {
        Ok(unit) => task.answer(alloc, unit),
        Err(TypeFault::Bad { at, kind }) => untyped(alloc, at, kind),
        Err(TypeFault::Memory) => Err(AllocError),
    }
}

// The typed unit of a tree, which is let go here: a task has no need of it.
fn typed(alloc: Global, target: Target, tree: Unit) -> Result<TypedUnit, TypeFault>
    ensures typed { IfOk result
        (λ u. IsTyped (target_of target) (tree_of tree) (unit_of u)) }
    ensures first_bad { IfErr result (IsBadText (target_of target) (tree_of tree)) }
{
    check_unit(alloc, target, &tree)
}
