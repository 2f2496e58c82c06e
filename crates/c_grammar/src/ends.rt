//! Which productions end where a symbol of the stack goes.

ghost use Rattle.std.specs.Prelude.{◌≡◌, false};
ghost use Rattle.c_lex.specs.Lexeme.{kind_of};
ghost use Rattle.c_grammar.specs.CodeWritten as written;

use crate::symbol::{Production, Symbol, Wanted};
use c_lex::{Punct, TokenKind};

/// The production that ends where a symbol goes away without a token.
pub(crate) fn ended_by(symbol: Symbol) -> Option<Production>
    ensures { result ≡ written.ended_by symbol }
{
    match symbol {
        Symbol::Words(_, _) => Some(Production::NoWords),
        Symbol::Tail(_, Wanted::Right, _) => Some(Production::Value),
        Symbol::Tail(_, Wanted::Sized, _) => Some(Production::SizeofValue),
        Symbol::StructBody(_) => Some(Production::StructTag),
        Symbol::EnumBody(_) => Some(Production::EnumTag),
        Symbol::EnumValue => Some(Production::Implicit),
        Symbol::Stars(_) => Some(Production::NoStars),
        Symbol::Dimensions(_) => Some(Production::NoDimensions),
        Symbol::Else => Some(Production::If),
        Symbol::Items => Some(Production::NoItems),
        Symbol::InitValue => Some(Production::NoInit),
        Symbol::Groups => Some(Production::NoGroups),
        Symbol::Labels => Some(Production::NoLabels),
        Symbol::TopParameters => Some(Production::NoParameters),
        Symbol::TopValue => Some(Production::NoValue),
        Symbol::ParameterName => Some(Production::NoParameterName),
        Symbol::ParameterBracket => Some(Production::NoBracket),
        Symbol::End(production) => Some(production),
        _ => None,
    }
}

/// The productions that end before a token that a symbol takes.
pub(crate) fn ended_before(symbol: Symbol, kind: &TokenKind) -> &'static [Production]
    ensures { result.now ≡ written.ended_before symbol (kind_of kind.now) }
{
    match symbol {
        Symbol::Tops(_) => before_name(kind),
        Symbol::FirstParameters => before_parameters(kind),
        Symbol::FirstRest => before_rest(kind),
        _ => &[],
    }
}

/// Those before the name of an external's first declarator.
fn before_name(kind: &TokenKind) -> &'static [Production]
    ensures { result.now ≡ written.ended_before (Symbol.Tops false) (kind_of kind.now) }
{
    match kind {
        TokenKind::Name(_) => &[Production::NoStars],
        _ => &[],
    }
}

/// Those behind the first declarator of an external that may be a function.
fn before_parameters(kind: &TokenKind) -> &'static [Production]
    ensures { result.now ≡ written.ended_before Symbol.FirstParameters (kind_of kind.now) }
{
    match kind {
        TokenKind::Punct(Punct::Equal) => &[Production::NoParameters],
        TokenKind::Punct(Punct::Comma | Punct::Semicolon) => &[
            Production::NoParameters,
            Production::NoValue,
            Production::Top,
        ],
        _ => &[],
    }
}

/// Those behind its parameters.
fn before_rest(kind: &TokenKind) -> &'static [Production]
    ensures { result.now ≡ written.ended_before Symbol.FirstRest (kind_of kind.now) }
{
    match kind {
        TokenKind::Punct(Punct::Comma | Punct::Semicolon) => &[
            Production::NoValue,
            Production::Top,
        ],
        _ => &[],
    }
}
