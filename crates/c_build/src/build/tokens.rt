//! What a tree takes from a token.

ghost use Rattle.std.specs.Prelude.{◌≡◌, MatchResult, string_bytes};
ghost use Rattle.c_lex.specs.Lexeme.{kind_of};
ghost use Rattle.c_grammar.specs.CodeTree.{exp_of};
ghost use Rattle.c_grammar.specs.CodeBuild.{constant, keyword_in, name_in};
ghost use Rattle.c_build.specs.declared.build.stack.BuildFault.TheVariants.{Memory};

use crate::build::stack::BuildFault;
use c_grammar::tree::CExp;
use c_lex::{Keyword, Token, TokenKind};
use std::alloc::Global;

/// The name that a token is.
pub(crate) fn name_of(alloc: Global, token: &Token) -> Result<String, BuildFault>
    ensures { MatchResult result (λ name. string_bytes name ≡ name_in (kind_of token.now.kind))
        (λ e. e ≡ Memory) }
{
    match &token.kind {
        TokenKind::Name(name) => Ok(String::from_str(alloc, name.as_str())?),
        _ => Ok(String::new(alloc)),
    }
}

/// The keyword that a token is.
pub(crate) fn keyword_of(token: &Token) -> Keyword
    ensures { result ≡ keyword_in (kind_of token.now.kind) }
{
    match &token.kind {
        TokenKind::Keyword(keyword) => *keyword,
        _ => Keyword::Void,
    }
}

/// The constant that a token is.
pub(crate) fn constant(alloc: Global, token: &Token) -> Result<CExp, BuildFault>
    ensures { MatchResult result (λ e. exp_of e ≡ constant token.now.start (kind_of token.now.kind))
        (λ e. e ≡ Memory) }
{
    let at = token.start;
    match &token.kind {
        TokenKind::Number {
            value,
            decimal,
            unsigned,
            longs,
        } => Ok(CExp::Number(at, *value, *decimal, *unsigned, *longs)),
        TokenKind::Character(value) => Ok(CExp::Character(at, *value)),
        _ => Ok(CExp::Name(at, String::new(alloc))),
    }
}
