//! What statements make of a token.

ghost use Rattle.std.specs.Prelude.{◌∷◌, [], IfOk, false, reverse};
ghost use Rattle.c_lex.specs.Lexeme.{kind_of};
ghost use Rattle.c_grammar.specs.CodeFollows.{Follows};
ghost use Rattle.c_grammar.specs.CodeChoice as choice;
ghost use Rattle.c_grammar.specs.Operators as operators;

use super::expressions::operand;
use super::types::{starts_type, words};
use super::{Answer, push_all, take};
use crate::operator::StepOperator;
use crate::symbol::{Production, Seen, Symbol, Wanted};
use c_lex::{Keyword, Punct, TokenKind};
use std::alloc::AllocError;

/// A simple statement.
fn simple(stack: &mut Vec<Symbol>, typed: bool, kind: &TokenKind) -> Result<Answer, AllocError>
    ensures { IfOk result
        (λ answer. Follows (choice.simple typed (kind_of kind.now)) answer (reverse stack.old.items)
        (reverse stack.new.items)) }
{
    match kind {
        TokenKind::Punct(Punct::PlusPlus) => take(
            stack,
            &[
                Symbol::Expression(false, Wanted::Level(12)),
                Symbol::End(Production::Before(StepOperator::Increment)),
            ],
        ),
        TokenKind::Punct(Punct::MinusMinus) => take(
            stack,
            &[
                Symbol::Expression(false, Wanted::Level(12)),
                Symbol::End(Production::Before(StepOperator::Decrement)),
            ],
        ),
        _ => operand(stack, false, Wanted::Place, typed, kind),
    }
}

/// A statement.
pub(super) fn statement(
    stack: &mut Vec<Symbol>,
    typed: bool,
    kind: &TokenKind,
) -> Result<Answer, AllocError>
    ensures { IfOk result
        (λ answer. Follows (choice.statement typed (kind_of kind.now)) answer
        (reverse stack.old.items) (reverse stack.new.items)) }
{
    match kind {
        TokenKind::Punct(Punct::Semicolon) => take(stack, &[Symbol::End(Production::Empty)]),
        TokenKind::Punct(Punct::LeftBrace) => take(
            stack,
            &[
                Symbol::Items,
                Symbol::RightBrace,
                Symbol::End(Production::Block),
            ],
        ),
        TokenKind::Keyword(Keyword::Break) => take(
            stack,
            &[Symbol::Semicolon, Symbol::End(Production::Break)],
        ),
        TokenKind::Keyword(Keyword::Continue) => take(
            stack,
            &[Symbol::Semicolon, Symbol::End(Production::Continue)],
        ),
        TokenKind::Keyword(Keyword::Return) => take(stack, &[Symbol::ReturnValue]),
        TokenKind::Keyword(Keyword::If) => take(
            stack,
            &[
                Symbol::LeftParenthesis,
                Symbol::Expression(false, Wanted::Level(0)),
                Symbol::RightParenthesis,
                Symbol::Statement,
                Symbol::Else,
            ],
        ),
        TokenKind::Keyword(Keyword::While) => take(
            stack,
            &[
                Symbol::LeftParenthesis,
                Symbol::Expression(false, Wanted::Level(0)),
                Symbol::RightParenthesis,
                Symbol::Statement,
                Symbol::End(Production::While),
            ],
        ),
        TokenKind::Keyword(Keyword::For) => take(
            stack,
            &[
                Symbol::LeftParenthesis,
                Symbol::ForStart,
                Symbol::ForTest,
                Symbol::ForStep,
                Symbol::Statement,
                Symbol::End(Production::For),
            ],
        ),
        TokenKind::Keyword(Keyword::Do) => take(
            stack,
            &[
                Symbol::Statement,
                Symbol::While,
                Symbol::LeftParenthesis,
                Symbol::Expression(false, Wanted::Level(0)),
                Symbol::RightParenthesis,
                Symbol::Semicolon,
                Symbol::End(Production::Do),
            ],
        ),
        TokenKind::Keyword(Keyword::Switch) => take(
            stack,
            &[
                Symbol::LeftParenthesis,
                Symbol::Expression(false, Wanted::Level(0)),
                Symbol::RightParenthesis,
                Symbol::LeftBrace,
                Symbol::Groups,
                Symbol::RightBrace,
                Symbol::End(Production::Switch),
            ],
        ),
        _ => simple_statement(stack, typed, kind),
    }
}

/// A simple statement and `;`.
fn simple_statement(
    stack: &mut Vec<Symbol>,
    typed: bool,
    kind: &TokenKind,
) -> Result<Answer, AllocError>
    ensures { IfOk result
        (λ answer.
        Follows (choice.and_then (choice.simple typed (kind_of kind.now))
        (Symbol.Semicolon ∷ choice.end Production.Simple ∷ [])) answer (reverse stack.old.items)
        (reverse stack.new.items)) }
{
    push_all(stack, &[Symbol::Semicolon, Symbol::End(Production::Simple)])?;
    let answer = simple(stack, typed, kind)?;
    Ok(answer)
}

/// What follows `return`.
pub(super) fn return_value(
    stack: &mut Vec<Symbol>,
    typed: bool,
    kind: &TokenKind,
) -> Result<Answer, AllocError>
    ensures { IfOk result
        (λ answer. Follows (choice.return_value typed (kind_of kind.now)) answer
        (reverse stack.old.items) (reverse stack.new.items)) }
{
    match kind {
        TokenKind::Punct(Punct::Semicolon) => take(stack, &[Symbol::End(Production::Return)]),
        _ => some_return_value(stack, typed, kind),
    }
}

/// A value and `;`.
fn some_return_value(
    stack: &mut Vec<Symbol>,
    typed: bool,
    kind: &TokenKind,
) -> Result<Answer, AllocError>
    ensures { IfOk result
        (λ answer.
        Follows (choice.and_then (choice.operand false Wanted.Right typed (kind_of kind.now))
        (Symbol.Semicolon ∷ choice.end Production.ReturnValue ∷ [])) answer
        (reverse stack.old.items) (reverse stack.new.items)) }
{
    push_all(
        stack,
        &[Symbol::Semicolon, Symbol::End(Production::ReturnValue)],
    )?;
    let answer = operand(stack, false, Wanted::Right, typed, kind)?;
    Ok(answer)
}

/// `else` and a statement, or nothing.
pub(super) fn else_part(stack: &mut Vec<Symbol>, kind: &TokenKind) -> Result<Answer, AllocError>
    ensures { IfOk result
        (λ answer. Follows (choice.else_part (kind_of kind.now)) answer (reverse stack.old.items)
        (reverse stack.new.items)) }
{
    match kind {
        TokenKind::Keyword(Keyword::Else) => take(
            stack,
            &[Symbol::Statement, Symbol::End(Production::IfElse)],
        ),
        _ => Ok(Answer::Passed),
    }
}

/// Locals and statements.
pub(super) fn items(
    stack: &mut Vec<Symbol>,
    typed: bool,
    kind: &TokenKind,
) -> Result<Answer, AllocError>
    ensures { IfOk result
        (λ answer. Follows (choice.items typed (kind_of kind.now)) answer (reverse stack.old.items)
        (reverse stack.new.items)) }
{
    if starts_type(typed, kind) {
        local_item(stack, typed, kind)
    } else {
        items_end(stack, typed, kind)
    }
}

/// A local, and further items.
fn local_item(stack: &mut Vec<Symbol>, typed: bool, kind: &TokenKind) -> Result<Answer, AllocError>
    ensures { IfOk result
        (λ answer.
        Follows (choice.and_then (choice.words false Seen.Nothing typed (kind_of kind.now))
        (choice.local_rest (Symbol.Items ∷ choice.end Production.LocalItem ∷ []))) answer
        (reverse stack.old.items) (reverse stack.new.items)) }
{
    push_all(
        stack,
        &[
            Symbol::Stars(false),
            Symbol::Identifier,
            Symbol::Dimensions(false),
            Symbol::End(Production::Declarator),
            Symbol::InitValue,
            Symbol::InitMore,
            Symbol::End(Production::Local),
            Symbol::Items,
            Symbol::End(Production::LocalItem),
        ],
    )?;
    let answer = words(stack, false, Seen::Nothing, typed, kind)?;
    Ok(answer)
}

/// A statement and further items, or the end of the items.
fn items_end(stack: &mut Vec<Symbol>, typed: bool, kind: &TokenKind) -> Result<Answer, AllocError>
    ensures { IfOk result
        (λ answer. Follows (choice.items_end typed (kind_of kind.now)) answer
        (reverse stack.old.items) (reverse stack.new.items)) }
{
    match kind {
        TokenKind::Punct(Punct::RightBrace)
        | TokenKind::Keyword(Keyword::Case)
        | TokenKind::Keyword(Keyword::Default) => Ok(Answer::Passed),
        _ => statement_item(stack, typed, kind),
    }
}

/// A statement, and further items.
fn statement_item(
    stack: &mut Vec<Symbol>,
    typed: bool,
    kind: &TokenKind,
) -> Result<Answer, AllocError>
    ensures { IfOk result
        (λ answer.
        Follows (choice.and_then (choice.statement typed (kind_of kind.now))
        (Symbol.Items ∷ choice.end Production.StatementItem ∷ [])) answer (reverse stack.old.items)
        (reverse stack.new.items)) }
{
    push_all(
        stack,
        &[Symbol::Items, Symbol::End(Production::StatementItem)],
    )?;
    let answer = statement(stack, typed, kind)?;
    Ok(answer)
}

/// `=` and the value of a local, or nothing.
pub(super) fn init_value(stack: &mut Vec<Symbol>, kind: &TokenKind) -> Result<Answer, AllocError>
    ensures { IfOk result
        (λ answer. Follows (choice.init_value (kind_of kind.now)) answer (reverse stack.old.items)
        (reverse stack.new.items)) }
{
    match kind {
        TokenKind::Punct(Punct::Equal) => take(
            stack,
            &[
                Symbol::Expression(false, Wanted::Right),
                Symbol::End(Production::Init),
            ],
        ),
        _ => Ok(Answer::Passed),
    }
}

/// `,` and further locals, or `;`.
pub(super) fn init_more(stack: &mut Vec<Symbol>, kind: &TokenKind) -> Result<Answer, AllocError>
    ensures { IfOk result
        (λ answer. Follows (choice.init_more (kind_of kind.now)) answer (reverse stack.old.items)
        (reverse stack.new.items)) }
{
    match kind {
        TokenKind::Punct(Punct::Comma) => take(
            stack,
            &[
                Symbol::Stars(false),
                Symbol::Identifier,
                Symbol::Dimensions(false),
                Symbol::End(Production::Declarator),
                Symbol::InitValue,
                Symbol::InitMore,
                Symbol::End(Production::MoreInits),
            ],
        ),
        TokenKind::Punct(Punct::Semicolon) => take(stack, &[Symbol::End(Production::LastInit)]),
        _ => Ok(Answer::Refused),
    }
}

/// The first part of the head of a `for`, and its `;`.
pub(super) fn for_start(
    stack: &mut Vec<Symbol>,
    typed: bool,
    kind: &TokenKind,
) -> Result<Answer, AllocError>
    ensures { IfOk result
        (λ answer. Follows (choice.for_start typed (kind_of kind.now)) answer
        (reverse stack.old.items) (reverse stack.new.items)) }
{
    if starts_type(typed, kind) {
        start_local(stack, typed, kind)
    } else {
        for_start_rest(stack, typed, kind)
    }
}

/// A local in the head of a `for`.
fn start_local(stack: &mut Vec<Symbol>, typed: bool, kind: &TokenKind) -> Result<Answer, AllocError>
    ensures { IfOk result
        (λ answer.
        Follows (choice.and_then (choice.words false Seen.Nothing typed (kind_of kind.now))
        (choice.local_rest (choice.end Production.StartLocal ∷ []))) answer
        (reverse stack.old.items) (reverse stack.new.items)) }
{
    push_all(
        stack,
        &[
            Symbol::Stars(false),
            Symbol::Identifier,
            Symbol::Dimensions(false),
            Symbol::End(Production::Declarator),
            Symbol::InitValue,
            Symbol::InitMore,
            Symbol::End(Production::Local),
            Symbol::End(Production::StartLocal),
        ],
    )?;
    let answer = words(stack, false, Seen::Nothing, typed, kind)?;
    Ok(answer)
}

/// A simple statement and `;`, or `;`.
fn for_start_rest(
    stack: &mut Vec<Symbol>,
    typed: bool,
    kind: &TokenKind,
) -> Result<Answer, AllocError>
    ensures { IfOk result
        (λ answer. Follows (choice.for_start_rest typed (kind_of kind.now)) answer
        (reverse stack.old.items) (reverse stack.new.items)) }
{
    match kind {
        TokenKind::Punct(Punct::Semicolon) => take(stack, &[Symbol::End(Production::NoStart)]),
        _ => start_simple(stack, typed, kind),
    }
}

/// A simple statement and `;` in the head of a `for`.
fn start_simple(
    stack: &mut Vec<Symbol>,
    typed: bool,
    kind: &TokenKind,
) -> Result<Answer, AllocError>
    ensures { IfOk result
        (λ answer.
        Follows (choice.and_then (choice.simple typed (kind_of kind.now))
        (Symbol.Semicolon ∷ choice.end Production.StartSimple ∷ [])) answer
        (reverse stack.old.items) (reverse stack.new.items)) }
{
    push_all(
        stack,
        &[Symbol::Semicolon, Symbol::End(Production::StartSimple)],
    )?;
    let answer = simple(stack, typed, kind)?;
    Ok(answer)
}

/// The test in the head of a `for`, and its `;`.
pub(super) fn for_test(
    stack: &mut Vec<Symbol>,
    typed: bool,
    kind: &TokenKind,
) -> Result<Answer, AllocError>
    ensures { IfOk result
        (λ answer. Follows (choice.for_test typed (kind_of kind.now)) answer
        (reverse stack.old.items) (reverse stack.new.items)) }
{
    match kind {
        TokenKind::Punct(Punct::Semicolon) => take(stack, &[Symbol::End(Production::NoTest)]),
        _ => some_test(stack, typed, kind),
    }
}

/// A test and `;`.
fn some_test(stack: &mut Vec<Symbol>, typed: bool, kind: &TokenKind) -> Result<Answer, AllocError>
    ensures { IfOk result
        (λ answer.
        Follows (choice.and_then (choice.operand false (Wanted.Level 0) typed (kind_of kind.now))
        (Symbol.Semicolon ∷ choice.end Production.Test ∷ [])) answer (reverse stack.old.items)
        (reverse stack.new.items)) }
{
    push_all(stack, &[Symbol::Semicolon, Symbol::End(Production::Test)])?;
    let answer = operand(stack, false, Wanted::Level(0), typed, kind)?;
    Ok(answer)
}

/// The last part of the head of a `for`, and `)`.
pub(super) fn for_step(
    stack: &mut Vec<Symbol>,
    typed: bool,
    kind: &TokenKind,
) -> Result<Answer, AllocError>
    ensures { IfOk result
        (λ answer. Follows (choice.for_step typed (kind_of kind.now)) answer
        (reverse stack.old.items) (reverse stack.new.items)) }
{
    match kind {
        TokenKind::Punct(Punct::RightParenthesis) => take(
            stack,
            &[Symbol::End(Production::NoStep)],
        ),
        _ => some_step(stack, typed, kind),
    }
}

/// A simple statement and `)`.
fn some_step(stack: &mut Vec<Symbol>, typed: bool, kind: &TokenKind) -> Result<Answer, AllocError>
    ensures { IfOk result
        (λ answer.
        Follows (choice.and_then (choice.simple typed (kind_of kind.now))
        (Symbol.RightParenthesis ∷ choice.end Production.Step ∷ [])) answer
        (reverse stack.old.items) (reverse stack.new.items)) }
{
    push_all(
        stack,
        &[Symbol::RightParenthesis, Symbol::End(Production::Step)],
    )?;
    let answer = simple(stack, typed, kind)?;
    Ok(answer)
}

/// The groups of a switch.
pub(super) fn groups(stack: &mut Vec<Symbol>, kind: &TokenKind) -> Result<Answer, AllocError>
    ensures { IfOk result
        (λ answer. Follows (choice.groups (kind_of kind.now)) answer (reverse stack.old.items)
        (reverse stack.new.items)) }
{
    match kind {
        TokenKind::Keyword(Keyword::Case) => take(
            stack,
            &[
                Symbol::Expression(false, Wanted::Level(0)),
                Symbol::Colon,
                Symbol::End(Production::Case),
                Symbol::Labels,
                Symbol::Statement,
                Symbol::Items,
                Symbol::Groups,
                Symbol::End(Production::MoreGroups),
            ],
        ),
        TokenKind::Keyword(Keyword::Default) => take(
            stack,
            &[
                Symbol::Colon,
                Symbol::End(Production::Default),
                Symbol::Labels,
                Symbol::Statement,
                Symbol::Items,
                Symbol::Groups,
                Symbol::End(Production::MoreGroups),
            ],
        ),
        _ => Ok(Answer::Passed),
    }
}

/// Further labels of a group.
pub(super) fn labels(stack: &mut Vec<Symbol>, kind: &TokenKind) -> Result<Answer, AllocError>
    ensures { IfOk result
        (λ answer. Follows (choice.labels (kind_of kind.now)) answer (reverse stack.old.items)
        (reverse stack.new.items)) }
{
    match kind {
        TokenKind::Keyword(Keyword::Case) => take(
            stack,
            &[
                Symbol::Expression(false, Wanted::Level(0)),
                Symbol::Colon,
                Symbol::End(Production::Case),
                Symbol::Labels,
                Symbol::End(Production::MoreLabels),
            ],
        ),
        TokenKind::Keyword(Keyword::Default) => take(
            stack,
            &[
                Symbol::Colon,
                Symbol::End(Production::Default),
                Symbol::Labels,
                Symbol::End(Production::MoreLabels),
            ],
        ),
        _ => Ok(Answer::Passed),
    }
}
