//! What externals make of a token.

ghost use Rattle.std.specs.Prelude.{◌≡◌, ◌∷◌, ◌++◌, [], IfOk, true, false, reverse};
ghost use Rattle.c_lex.specs.Lexeme.{kind_of};
ghost use Rattle.c_grammar.specs.CodeFollows.{Follows};
ghost use Rattle.c_grammar.specs.CodeChoice as choice;
ghost use Rattle.c_grammar.specs.Operators as operators;

use super::expressions::operand;
use super::types::words;
use super::{Answer, push_all, take};
use crate::symbol::{Production, Seen, Symbol, Wanted};
use c_lex::{Keyword, Punct, TokenKind};
use std::alloc::AllocError;

/// Externals, up to the end of the text.
pub(super) fn externals(
    stack: &mut Vec<Symbol>,
    typed: bool,
    kind: &TokenKind,
) -> Result<Answer, AllocError>
    ensures { IfOk result
        (λ answer. Follows (choice.externals typed (kind_of kind.now)) answer
        (reverse stack.old.items) (reverse stack.new.items)) }
{
    match kind {
        TokenKind::Keyword(Keyword::Typedef) => take(
            stack,
            &[
                Symbol::Words(true, Seen::Nothing),
                Symbol::Tops(true),
                Symbol::Made(true),
                Symbol::Externals,
                Symbol::End(Production::MoreExternals),
            ],
        ),
        _ => external(stack, typed, kind),
    }
}

/// An external that is no typedef, and further ones.
fn external(stack: &mut Vec<Symbol>, typed: bool, kind: &TokenKind) -> Result<Answer, AllocError>
    ensures { IfOk result
        (λ answer.
        Follows (choice.and_then (choice.words true Seen.Nothing typed (kind_of kind.now))
        (Symbol.Tops false ∷ Symbol.Made false ∷ Symbol.Externals
        ∷ choice.end Production.MoreExternals ∷ []))
        answer (reverse stack.old.items) (reverse stack.new.items)) }
{
    push_all(
        stack,
        &[
            Symbol::Tops(false),
            Symbol::Made(false),
            Symbol::Externals,
            Symbol::End(Production::MoreExternals),
        ],
    )?;
    let answer = words(stack, true, Seen::Nothing, typed, kind)?;
    Ok(answer)
}

/// What follows the first declarator of an external.
fn first_top(stack: &mut Vec<Symbol>, typedef: bool) -> Result<(), AllocError>
    ensures { IfOk result
        (λ _. reverse stack.new.items ≡ choice.first_top typedef ++ reverse stack.old.items) }
{
    if typedef {
        push_all(
            stack,
            &[
                Symbol::TopParameters,
                Symbol::TopValue,
                Symbol::End(Production::Top),
                Symbol::TopMore,
                Symbol::End(Production::Declaration(true)),
            ],
        )
    } else {
        push_all(stack, &[Symbol::FirstParameters])
    }
}

/// What follows the specifiers of an external.
pub(super) fn tops(
    stack: &mut Vec<Symbol>,
    typedef: bool,
    typed: bool,
    kind: &TokenKind,
) -> Result<Answer, AllocError>
    ensures { IfOk result
        (λ answer. Follows (choice.tops typedef typed (kind_of kind.now)) answer
        (reverse stack.old.items) (reverse stack.new.items)) }
{
    match kind {
        TokenKind::Punct(Punct::Semicolon) => take(
            stack,
            &[
                Symbol::End(Production::NoTops),
                Symbol::End(Production::Declaration(typedef)),
            ],
        ),
        TokenKind::Punct(Punct::Star) => {
            first_top(stack, typedef)?;
            take(
                stack,
                &[
                    Symbol::Stars(true),
                    Symbol::End(Production::MoreStars),
                    Symbol::NewName,
                    Symbol::Dimensions(true),
                    Symbol::End(Production::Declarator),
                ],
            )
        },
        TokenKind::Name(_) => {
            if typed {
                return Ok(Answer::Refused);
            }
            first_top(stack, typedef)?;
            take(
                stack,
                &[
                    Symbol::Dimensions(true),
                    Symbol::End(Production::Declarator),
                ],
            )
        },
        _ => Ok(Answer::Refused),
    }
}

/// The parameters of a declarator, or none.
pub(super) fn top_parameters(
    stack: &mut Vec<Symbol>,
    kind: &TokenKind,
) -> Result<Answer, AllocError>
    ensures { IfOk result
        (λ answer. Follows (choice.top_parameters (kind_of kind.now)) answer
        (reverse stack.old.items) (reverse stack.new.items)) }
{
    match kind {
        TokenKind::Punct(Punct::LeftParenthesis) => take(
            stack,
            &[Symbol::Parameters, Symbol::End(Production::SomeParameters)],
        ),
        _ => Ok(Answer::Passed),
    }
}

/// `=` and the value of a global, or nothing.
pub(super) fn top_value(stack: &mut Vec<Symbol>, kind: &TokenKind) -> Result<Answer, AllocError>
    ensures { IfOk result
        (λ answer. Follows (choice.top_value (kind_of kind.now)) answer (reverse stack.old.items)
        (reverse stack.new.items)) }
{
    match kind {
        TokenKind::Punct(Punct::Equal) => take(
            stack,
            &[
                Symbol::Expression(true, Wanted::Level(0)),
                Symbol::End(Production::SomeValue),
            ],
        ),
        _ => Ok(Answer::Passed),
    }
}

/// `,` and further declarators, or `;`.
pub(super) fn top_more(stack: &mut Vec<Symbol>, kind: &TokenKind) -> Result<Answer, AllocError>
    ensures { IfOk result
        (λ answer. Follows (choice.top_more (kind_of kind.now)) answer (reverse stack.old.items)
        (reverse stack.new.items)) }
{
    match kind {
        TokenKind::Punct(Punct::Comma) => take(
            stack,
            &[
                Symbol::Stars(false),
                Symbol::NewName,
                Symbol::Dimensions(true),
                Symbol::End(Production::Declarator),
                Symbol::TopParameters,
                Symbol::TopValue,
                Symbol::End(Production::Top),
                Symbol::TopMore,
                Symbol::End(Production::MoreTops),
            ],
        ),
        TokenKind::Punct(Punct::Semicolon) => take(stack, &[Symbol::End(Production::LastTop)]),
        _ => Ok(Answer::Refused),
    }
}

/// What follows the first declarator, whose parameters are told: its value, further declarators, or `;`.
fn first_value(stack: &mut Vec<Symbol>, kind: &TokenKind) -> Result<Answer, AllocError>
    ensures none { IfOk result
        (λ answer.
        Follows (choice.first_value (Production.NoParameters ∷ []) (kind_of kind.now)) answer
        (reverse stack.old.items) (reverse stack.new.items)) }
    ensures some { IfOk result
        (λ answer. Follows (choice.first_value [] (kind_of kind.now)) answer
        (reverse stack.old.items) (reverse stack.new.items)) }
{
    match kind {
        TokenKind::Punct(Punct::Equal) => take(
            stack,
            &[
                Symbol::Expression(true, Wanted::Level(0)),
                Symbol::End(Production::SomeValue),
                Symbol::End(Production::Top),
                Symbol::TopMore,
                Symbol::End(Production::Declaration(false)),
            ],
        ),
        TokenKind::Punct(Punct::Comma) => take(
            stack,
            &[
                Symbol::Stars(false),
                Symbol::NewName,
                Symbol::Dimensions(true),
                Symbol::End(Production::Declarator),
                Symbol::TopParameters,
                Symbol::TopValue,
                Symbol::End(Production::Top),
                Symbol::TopMore,
                Symbol::End(Production::MoreTops),
                Symbol::End(Production::Declaration(false)),
            ],
        ),
        TokenKind::Punct(Punct::Semicolon) => take(
            stack,
            &[
                Symbol::End(Production::LastTop),
                Symbol::End(Production::Declaration(false)),
            ],
        ),
        _ => Ok(Answer::Refused),
    }
}

/// What follows the first declarator of an external that may be a function.
pub(super) fn first_parameters(
    stack: &mut Vec<Symbol>,
    kind: &TokenKind,
) -> Result<Answer, AllocError>
    ensures { IfOk result
        (λ answer. Follows (choice.first_parameters (kind_of kind.now)) answer
        (reverse stack.old.items) (reverse stack.new.items)) }
{
    match kind {
        TokenKind::Punct(Punct::LeftParenthesis) => take(
            stack,
            &[
                Symbol::Parameters,
                Symbol::End(Production::SomeParameters),
                Symbol::FirstRest,
            ],
        ),
        _ => first_value(stack, kind),
    }
}

/// What follows its parameters.
pub(super) fn first_rest(stack: &mut Vec<Symbol>, kind: &TokenKind) -> Result<Answer, AllocError>
    ensures { IfOk result
        (λ answer. Follows (choice.first_rest (kind_of kind.now)) answer (reverse stack.old.items)
        (reverse stack.new.items)) }
{
    match kind {
        TokenKind::Punct(Punct::LeftBrace) => take(
            stack,
            &[
                Symbol::Items,
                Symbol::RightBrace,
                Symbol::End(Production::Function),
            ],
        ),
        _ => first_value(stack, kind),
    }
}

/// What follows the `(` of parameters.
pub(super) fn parameters(
    stack: &mut Vec<Symbol>,
    typed: bool,
    kind: &TokenKind,
) -> Result<Answer, AllocError>
    ensures { IfOk result
        (λ answer. Follows (choice.parameters typed (kind_of kind.now)) answer
        (reverse stack.old.items) (reverse stack.new.items)) }
{
    match kind {
        TokenKind::Punct(Punct::RightParenthesis) => take(
            stack,
            &[Symbol::End(Production::EmptyParameters)],
        ),
        _ => first_parameter(stack, typed, kind),
    }
}

/// The first parameter, and further ones.
fn first_parameter(
    stack: &mut Vec<Symbol>,
    typed: bool,
    kind: &TokenKind,
) -> Result<Answer, AllocError>
    ensures { IfOk result
        (λ answer.
        Follows (choice.and_then (choice.words false Seen.Nothing typed (kind_of kind.now))
        (choice.parameter_rest [])) answer (reverse stack.old.items) (reverse stack.new.items)) }
{
    push_all(
        stack,
        &[
            Symbol::Stars(false),
            Symbol::ParameterName,
            Symbol::ParameterBracket,
            Symbol::End(Production::Parameter),
            Symbol::ParametersMore,
        ],
    )?;
    let answer = words(stack, false, Seen::Nothing, typed, kind)?;
    Ok(answer)
}

/// `,` and further parameters, or `)`.
pub(super) fn parameters_more(
    stack: &mut Vec<Symbol>,
    kind: &TokenKind,
) -> Result<Answer, AllocError>
    ensures { IfOk result
        (λ answer. Follows (choice.parameters_more (kind_of kind.now)) answer
        (reverse stack.old.items) (reverse stack.new.items)) }
{
    match kind {
        TokenKind::Punct(Punct::Comma) => take(
            stack,
            &[
                Symbol::Words(false, Seen::Nothing),
                Symbol::Stars(false),
                Symbol::ParameterName,
                Symbol::ParameterBracket,
                Symbol::End(Production::Parameter),
                Symbol::ParametersMore,
                Symbol::End(Production::MoreParameters),
            ],
        ),
        TokenKind::Punct(Punct::RightParenthesis) => take(
            stack,
            &[Symbol::End(Production::LastParameter)],
        ),
        _ => Ok(Answer::Refused),
    }
}

/// The name of a parameter, or none.
pub(super) fn parameter_name(
    stack: &mut Vec<Symbol>,
    typed: bool,
    kind: &TokenKind,
) -> Result<Answer, AllocError>
    ensures { IfOk result
        (λ answer. Follows (choice.parameter_name typed (kind_of kind.now)) answer
        (reverse stack.old.items) (reverse stack.new.items)) }
{
    match kind {
        TokenKind::Name(_) => if typed {
            Ok(Answer::Passed)
        } else {
            take(stack, &[Symbol::End(Production::ParameterName)])
        },
        _ => Ok(Answer::Passed),
    }
}

/// The brackets of a parameter, or none.
pub(super) fn parameter_bracket(
    stack: &mut Vec<Symbol>,
    kind: &TokenKind,
) -> Result<Answer, AllocError>
    ensures { IfOk result
        (λ answer. Follows (choice.parameter_bracket (kind_of kind.now)) answer
        (reverse stack.old.items) (reverse stack.new.items)) }
{
    match kind {
        TokenKind::Punct(Punct::LeftBracket) => take(stack, &[Symbol::BracketRest]),
        _ => Ok(Answer::Passed),
    }
}

/// What follows the `[` of a parameter.
pub(super) fn bracket_rest(
    stack: &mut Vec<Symbol>,
    typed: bool,
    kind: &TokenKind,
) -> Result<Answer, AllocError>
    ensures { IfOk result
        (λ answer. Follows (choice.bracket_rest typed (kind_of kind.now)) answer
        (reverse stack.old.items) (reverse stack.new.items)) }
{
    match kind {
        TokenKind::Punct(Punct::RightBracket) => take(
            stack,
            &[Symbol::End(Production::OpenBracket)],
        ),
        _ => bracket_length(stack, typed, kind),
    }
}

/// An array length and `]`.
fn bracket_length(
    stack: &mut Vec<Symbol>,
    typed: bool,
    kind: &TokenKind,
) -> Result<Answer, AllocError>
    ensures { IfOk result
        (λ answer.
        Follows (choice.and_then (choice.operand false (Wanted.Level 0) typed (kind_of kind.now))
        (Symbol.RightBracket ∷ choice.end Production.SizedBracket ∷ [])) answer
        (reverse stack.old.items) (reverse stack.new.items)) }
{
    push_all(
        stack,
        &[Symbol::RightBracket, Symbol::End(Production::SizedBracket)],
    )?;
    let answer = operand(stack, false, Wanted::Level(0), typed, kind)?;
    Ok(answer)
}
