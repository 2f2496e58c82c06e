//! What each symbol of the stack makes of a token.

ghost use Rattle.std.specs.Prelude.{◌≡◌, ◌++◌, [], IfOk, reverse};
ghost use Rattle.c_lex.specs.Lexeme.{kind_of};
ghost use Rattle.c_grammar.specs.CodeFollows.{Follows};
ghost use Rattle.c_grammar.specs.CodeChoice.{choice_of, only_if, take};

use crate::symbol::Symbol;
use c_lex::{Keyword, Punct, TokenKind};
use std::alloc::AllocError;

mod expressions;
mod externals;
mod statements;
mod types;

/// What a symbol makes of a token.
#[derive(Clone, Copy, Debug, PartialEq, Eq)]
pub enum Answer {
    /// The token can't stand here.
    Refused,
    /// The symbol is complete without the token.
    Passed,
    /// The token is taken, and what comes next is on the stack.
    Taken,
}

/// Puts symbols on the stack, the first on top.
fn push_all(stack: &mut Vec<Symbol>, next: &[Symbol]) -> Result<(), AllocError>
    ensures { IfOk result (λ _. reverse stack.new.items ≡ next.now ++ reverse stack.old.items) }
{
    let mut left = next.len();
    while left > 0 {
        left -= 1;
        stack.push(next[left])?;
    }
    Ok(())
}

/// Takes the token: these symbols come next.
fn take(stack: &mut Vec<Symbol>, next: &[Symbol]) -> Result<Answer, AllocError>
    ensures { IfOk result
        (λ answer. (answer ≡ Answer.Taken)
        × (reverse stack.new.items ≡ next.now ++ reverse stack.old.items)) }
{
    push_all(stack, next)?;
    Ok(Answer::Taken)
}

/// The answer of a symbol that is one token.
fn expect(same: bool) -> Answer
    ensures { Follows (only_if same (take [])) result [] [] }
{
    if same { Answer::Taken } else { Answer::Refused }
}

/// What a symbol makes of a token; `typed` says that it is a name which a typedef made.
#[tactic(auto, unfolding(crate::specs::CodeChoice::choice_of))]
pub(crate) fn choose(
    stack: &mut Vec<Symbol>,
    symbol: Symbol,
    typed: bool,
    kind: &TokenKind,
) -> Result<Answer, AllocError>
    ensures { IfOk result
        (λ answer. Follows (choice_of symbol typed (kind_of kind.now)) answer
        (reverse stack.old.items) (reverse stack.new.items)) }
{
    match symbol {
        Symbol::LeftParenthesis => Ok(expect(matches!(
            kind,
            TokenKind::Punct(Punct::LeftParenthesis)
        ))),
        Symbol::RightParenthesis => Ok(expect(matches!(
            kind,
            TokenKind::Punct(Punct::RightParenthesis)
        ))),
        Symbol::RightBracket => Ok(expect(matches!(kind, TokenKind::Punct(Punct::RightBracket)))),
        Symbol::LeftBrace => Ok(expect(matches!(kind, TokenKind::Punct(Punct::LeftBrace)))),
        Symbol::RightBrace => Ok(expect(matches!(kind, TokenKind::Punct(Punct::RightBrace)))),
        Symbol::Semicolon => Ok(expect(matches!(kind, TokenKind::Punct(Punct::Semicolon)))),
        Symbol::Colon => Ok(expect(matches!(kind, TokenKind::Punct(Punct::Colon)))),
        Symbol::While => Ok(expect(matches!(kind, TokenKind::Keyword(Keyword::While)))),
        Symbol::Identifier | Symbol::NewName => Ok(expect(
            matches!(kind, TokenKind::Name(_)) && !typed,
        )),
        Symbol::Expression(bodies, wanted) => expressions::operand(
            stack, bodies, wanted, typed, kind,
        ),
        Symbol::Open(bodies, wanted) => expressions::opened(stack, bodies, wanted, typed, kind),
        Symbol::Tail(bodies, wanted, reached) => expressions::tail(
            stack, bodies, wanted, reached, kind,
        ),
        Symbol::Arguments(bodies) => expressions::arguments(stack, bodies, typed, kind),
        Symbol::ArgumentsMore(bodies) => expressions::arguments_more(stack, bodies, kind),
        Symbol::Words(bodies, seen) => types::words(stack, bodies, seen, typed, kind),
        Symbol::StructTag(bodies) => types::struct_tag(stack, bodies, typed, kind),
        Symbol::StructBody(bodies) => types::struct_body(stack, bodies, kind),
        Symbol::Members => types::members(stack, typed, kind),
        Symbol::MembersMore => types::members_more(stack, typed, kind),
        Symbol::DeclaratorsMore => types::declarators_more(stack, kind),
        Symbol::Stars(starred) => types::stars(stack, starred, kind),
        Symbol::Dimensions(bodies) => types::dimensions(stack, bodies, kind),
        Symbol::EnumTag(bodies) => types::enum_tag(stack, bodies, typed, kind),
        Symbol::EnumBody(bodies) => types::enum_body(stack, bodies, kind),
        Symbol::Enumerators => types::enumerators(stack, typed, kind),
        Symbol::EnumValue => types::enum_value(stack, kind),
        Symbol::EnumMore => types::enum_more(stack, kind),
        Symbol::EnumNext => types::enum_next(stack, typed, kind),
        Symbol::Statement => statements::statement(stack, typed, kind),
        Symbol::ReturnValue => statements::return_value(stack, typed, kind),
        Symbol::Else => statements::else_part(stack, kind),
        Symbol::Items => statements::items(stack, typed, kind),
        Symbol::InitValue => statements::init_value(stack, kind),
        Symbol::InitMore => statements::init_more(stack, kind),
        Symbol::ForStart => statements::for_start(stack, typed, kind),
        Symbol::ForTest => statements::for_test(stack, typed, kind),
        Symbol::ForStep => statements::for_step(stack, typed, kind),
        Symbol::Groups => statements::groups(stack, kind),
        Symbol::Labels => statements::labels(stack, kind),
        Symbol::Externals => externals::externals(stack, typed, kind),
        Symbol::Tops(typedef) => externals::tops(stack, typedef, typed, kind),
        Symbol::TopParameters => externals::top_parameters(stack, kind),
        Symbol::TopValue => externals::top_value(stack, kind),
        Symbol::TopMore => externals::top_more(stack, kind),
        Symbol::FirstParameters => externals::first_parameters(stack, kind),
        Symbol::FirstRest => externals::first_rest(stack, kind),
        Symbol::Parameters => externals::parameters(stack, typed, kind),
        Symbol::ParametersMore => externals::parameters_more(stack, kind),
        Symbol::ParameterName => externals::parameter_name(stack, typed, kind),
        Symbol::ParameterBracket => externals::parameter_bracket(stack, kind),
        Symbol::BracketRest => externals::bracket_rest(stack, typed, kind),
        Symbol::Made(_) | Symbol::End(_) => Ok(Answer::Passed),
    }
}
