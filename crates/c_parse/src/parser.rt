//! The parser.

ghost use Rattle.std.specs.Prelude.{◌≡◌, ℕ, List, IfOk, IfErr, MatchResult, None, Some};
ghost use Rattle.c_lex.specs.Lexeme.{lexemes_of};
ghost use Rattle.c_grammar.specs.Tree.{External};
ghost use Rattle.c_grammar.specs.Spells.{Spells};
ghost use Rattle.c_grammar.specs.CodeTree.{unit_of};
ghost use Rattle.c_limits.specs.Limits.{first_limit};
ghost use Rattle.c_parse.specs.Answer.{HasNoTree, IsFaultOf, IsRefused, IsRefusedAsSyntax};
ghost use Rattle.c_limits.specs.declared.limits.Limit.{Limit};

use crate::fault::ParseFault;
use c_build::build::build;
use c_grammar::script;
use c_grammar::tree::Unit;
use c_lex::Token;
use c_limits::first_limit;
use std::alloc::Global;

/// The tree that spells the tokens.
///
/// It takes time in proportion to the number of tokens. No nesting is too deep for it: tokens are recognised, and their
/// tree is measured, on stacks of the parser's own, and a tree is built only within the limits.
pub fn parse(alloc: Global, tokens: &[Token]) -> Result<Unit, ParseFault>
    // Ok is the tree of the tokens, and where a tree within the limits spells them, it is this one, unless memory runs out.
    ensures found { IfOk result (λ unit. Spells (unit_of unit) (lexemes_of tokens.now)
        × (first_limit (unit_of unit) ≡ None)) }
    ensures only { (tree : List External) → Spells tree (lexemes_of tokens.now) →
        first_limit tree ≡ None → MatchResult result (λ unit. unit_of unit ≡ tree)
        (λ e. e ≡ ParseFault.Memory) }

    // An error has its cause ..
    ensures fault { IfErr result (IsFaultOf (lexemes_of tokens.now)) }

    // .. and where there is a cause, there is its error, unless memory runs out.
    ensures syntax { HasNoTree (lexemes_of tokens.now) → IsRefusedAsSyntax result }
    ensures limit { (tree : List External) → (limit : Limit) → (at : ℕ) →
        Spells tree (lexemes_of tokens.now) → first_limit tree ≡ Some (limit, at) →
        IsRefused result (ParseFault.Limit limit at) }
{
    let steps = script(alloc, tokens)?;
    if let Some((limit, at)) = first_limit(alloc, &steps, tokens)? {
        return Err(ParseFault::Limit(limit, at));
    }
    let Some(unit) = build(alloc, &steps, tokens)? else {
        unreachable!()
    };
    Ok(unit)
}
