//! Whether some tree spells the tokens, and their script, on a stack of the parser's own: no nesting of the text is too
//! deep for it.

ghost use Rattle.std.specs.Prelude.{◌≡◌, ◌∷◌, ◌++◌, [], IfErr, IfOk, MatchOption, false, map, reverse, true};
ghost use Rattle.c_lex.specs.Lexeme.{kind_of, lexeme_of, lexemes_of};
ghost use Rattle.c_grammar.specs.CodeNames.{made_of, next_of};
ghost use Rattle.c_grammar.specs.CodeAccepts as machine;
ghost use Rattle.c_grammar.specs.CodeStack as machine_stack;
ghost use Rattle.c_grammar.specs.Faults.{IfSyntax, IsAt};
ghost use Rattle.c_grammar.specs.CodeWritten as written;

use crate::choose::{Answer, choose};
use crate::ends::{ended_before, ended_by};
use crate::fault::ScriptFault;
use crate::names::Names;
use crate::scripts::Step;
use crate::symbol::{Production, Symbol};
use c_lex::{Token, TokenKind};
use std::alloc::{AllocError, Global};

/// Takes away the ends of productions on top of the stack, and writes them.
fn drop_ends(stack: &mut Vec<Symbol>, steps: &mut Vec<Step>) -> Result<(), AllocError>
    ensures stack { IfOk result
        (λ _. reverse stack.new.items ≡ machine.drop_ends (reverse stack.old.items)) }
    ensures steps { IfOk result
        (λ _. steps.new.items ≡ steps.old.items ++ written.end_steps (reverse stack.old.items)) }
{
    while let Some(Symbol::End(production)) = stack.last() {
        steps.push(Step::Reduce(*production))?;
        let _ = stack.pop();
    }
    Ok(())
}

/// Writes what ends with the text. `false` where more is still to come than further externals, of which there need be none.
fn finish(mut stack: Vec<Symbol>, steps: &mut Vec<Step>) -> Result<bool, AllocError>
    ensures complete { IfOk result (λ yes. yes ≡ machine.is_complete (reverse stack.items)) }
    ensures steps { IfOk result
        (λ yes. yes ≡ true →
        steps.new.items ≡ steps.old.items ++ written.last_steps (reverse stack.items)) }
{
    while let Some(symbol) = stack.pop() {
        match symbol {
            Symbol::Externals => steps.push(Step::Reduce(Production::NoExternals))?,
            Symbol::End(production) => steps.push(Step::Reduce(production))?,
            Symbol::Made(_) => {}
            _ => return Ok(false),
        }
    }
    Ok(true)
}

/// Writes the end of what a symbol ends that goes away without a token.
fn pass(steps: &mut Vec<Step>, symbol: Symbol) -> Result<(), AllocError>
    ensures { IfOk result
        (λ _. steps.new.items ≡ steps.old.items ++ written.reduces_one (written.ended_by symbol)) }
{
    if let Some(production) = ended_by(symbol) {
        steps.push(Step::Reduce(production))?;
    }
    Ok(())
}

/// Writes the ends of productions.
fn reduce_all(steps: &mut Vec<Step>, productions: &[Production]) -> Result<(), AllocError>
    ensures { IfOk result
        (λ _. steps.new.items ≡ steps.old.items ++ written.reduces productions.now) }
{
    for production in productions {
        steps.push(Step::Reduce(*production))?;
    }
    Ok(())
}

/// Writes a token that a symbol takes, behind what ends before it.
fn shift(steps: &mut Vec<Step>, symbol: Symbol, kind: &TokenKind) -> Result<(), AllocError>
    ensures { IfOk result
        (λ _. steps.new.items
        ≡ steps.old.items ++ (written.reduces (written.ended_before symbol (kind_of kind.now))
        ++ Step.Shift ∷ [])) }
{
    reduce_all(steps, ended_before(symbol, kind))?;
    steps.push(Step::Shift)?;
    Ok(())
}

/// Takes one token. `false` where it can't stand here.
fn advance<'a>(
    stack: &mut Vec<Symbol>,
    names: &mut Names<'a>,
    steps: &mut Vec<Step>,
    token: &'a Token,
) -> Result<bool, AllocError>
    ensures stage { IfOk result
        (λ yes. MatchOption
        (machine.forward (made_of (map (λ name. name.now) names.old.all.items) names.old.made)
        (next_of (map (λ name. name.now) names.old.all.items)) (lexeme_of token.now)
        (reverse stack.old.items)) (yes ≡ false)
        (λ stage. (yes ≡ true) × (reverse stack.new.items ≡ stage.stack)
        × (made_of (map (λ name. name.now) names.new.all.items) names.new.made ≡ stage.made)
        × (next_of (map (λ name. name.now) names.new.all.items) ≡ stage.next))) }
    ensures steps { IfOk result
        (λ yes. yes ≡ true →
        steps.new.items ≡ steps.old.items ++ written.token_steps
        (made_of (map (λ name. name.now) names.old.all.items) names.old.made)
        (next_of (map (λ name. name.now) names.old.all.items)) (lexeme_of token.now)
        (reverse stack.old.items)) }
{
    while let Some(symbol) = stack.pop() {
        let typed = names.is_type(&token.kind);
        match choose(stack, symbol, typed, &token.kind)? {
            Answer::Refused => return Ok(false),
            Answer::Passed => {
                pass(steps, symbol)?;
                if let Symbol::Made(typedef) = symbol {
                    names.end(typedef)?;
                }
            }
            Answer::Taken => {
                shift(steps, symbol, &token.kind)?;
                note(names, symbol, &token.kind)?;
                drop_ends(stack, steps)?;
                return Ok(true);
            }
        }
    }
    Ok(false)
}

/// Notes the name that a symbol takes, where it is that of a declarator outside functions.
fn note<'a>(names: &mut Names<'a>, symbol: Symbol, kind: &'a TokenKind) -> Result<(), AllocError>
    ensures made { IfOk result
        (λ _. made_of (map (λ name. name.now) names.new.all.items) names.new.made
        ≡ made_of (map (λ name. name.now) names.old.all.items) names.old.made) }
    ensures next { IfOk result
        (λ _. next_of (map (λ name. name.now) names.new.all.items)
        ≡ machine_stack.noted symbol (kind_of kind.now)
        (next_of (map (λ name. name.now) names.old.all.items))) }
{
    match (symbol, kind) {
        (Symbol::NewName | Symbol::Tops(_), TokenKind::Name(name)) => names.note(name.as_str()),
        _ => Ok(()),
    }
}

/// The script of tokens that the machine accepts. A syntax fault is at the first token that can't stand where it does, or
/// at the end of the last token.
pub(crate) fn write(alloc: Global, tokens: &[Token]) -> Result<Vec<Step>, ScriptFault>
    ensures accepted { IfOk result
        (λ _. machine.accepts (Some machine.first_stage) (lexemes_of tokens.now) ≡ true) }
    ensures steps { IfOk result
        (λ steps. steps.items ≡ written.script (Some machine.first_stage) (lexemes_of tokens.now)) }
    ensures place { IfErr result
        (λ fault. IsAt fault (machine.stop 0 machine.first_stage (lexemes_of tokens.now))) }
    ensures refused { IfErr result
        (λ fault. IfSyntax fault (machine.accepts (Some machine.first_stage) (lexemes_of tokens.now)
        ≡ false)) }
{
    let mut stack = Vec::new(alloc);
    stack.push(Symbol::Externals)?;
    let mut names = Names::new(alloc);
    let mut steps = Vec::new(alloc);
    let mut end = 0;
    for token in tokens {
        if !advance(&mut stack, &mut names, &mut steps, token)? {
            return Err(ScriptFault::Syntax(token.start));
        }
        end = token.end;
    }
    if finish(stack, &mut steps)? {
        Ok(steps)
    } else {
        Err(ScriptFault::Syntax(end))
    }
}
