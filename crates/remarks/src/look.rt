//! A second look at a C text: where its first fault is.

ghost use Rattle.std.specs.Prelude.{IfOk, MatchOption};
ghost use Rattle.c_lex.specs.Lexeme.{lexemes_of};
ghost use Rattle.c_grammar.specs.CodeTree.{unit_of as tree_of};
ghost use Rattle.c_values.specs.CodeTypes.{target_of};
ghost use Rattle.remarks.specs.Fault.{IsFault, IsTyped};
ghost use Rattle.remarks.specs.CodeLook.{AreTyped, IsTokensFault, IsTreeFault, IsTypedTree};

use crate::fault::{Cause, Fault};
use c_grammar::tree::Unit;
use c_lex::{LexFault, Token, tokens};
use c_parse::{ParseFault, parse};
use c_types::{TypeFault, check_unit};
use c_values::Target;
use std::alloc::{AllocError, Global};

/// The first fault of a C text on a target, or none where it is typed.
#[tactic(auto, using(crate::proofs::Faults::bad_byte_fault, crate::proofs::Faults::bad_number_fault, crate::proofs::Faults::open_comment_fault, crate::proofs::Faults::unsupported_fault, crate::proofs::Faults::long_name_fault))]
pub fn first_fault(alloc: Global, target: Target, text: &[u8]) -> Result<Option<Fault>, AllocError>
    ensures { IfOk result (λ found. MatchOption found (IsTyped (target_of target) text.now)
        (λ fault. IsFault (target_of target) text.now fault.cause fault.at)) }
{
    match tokens(alloc, text) {
        Ok(tokens) => in_tokens(alloc, target, &tokens),
        Err(LexFault::BadByte(at)) => Ok(Some(Fault {
            cause: Cause::BadByte,
            at,
        })),
        Err(LexFault::BadNumber(at)) => Ok(Some(Fault {
            cause: Cause::BadNumber,
            at,
        })),
        Err(LexFault::OpenComment(at)) => Ok(Some(Fault {
            cause: Cause::OpenComment,
            at,
        })),
        Err(LexFault::Unsupported(word, at)) => Ok(Some(Fault {
            cause: Cause::Unsupported(word),
            at,
        })),
        Err(LexFault::LongName(at)) => Ok(Some(Fault {
            cause: Cause::LongName,
            at,
        })),
        Err(LexFault::Memory) => Err(AllocError),
    }
}

// The first fault of tokens.
fn in_tokens(alloc: Global, target: Target, tokens: &[Token]) -> Result<Option<Fault>, AllocError>
    ensures { IfOk result (λ found. MatchOption found
        (AreTyped (target_of target) (lexemes_of tokens.now))
        (λ fault. IsTokensFault (target_of target) (lexemes_of tokens.now) fault.cause fault.at)) }
{
    match parse(alloc, tokens) {
        Ok(tree) => in_tree(alloc, target, &tree),
        Err(ParseFault::Syntax(at)) => Ok(Some(Fault {
            cause: Cause::Syntax,
            at,
        })),
        Err(ParseFault::Limit(limit, at)) => Ok(Some(Fault {
            cause: Cause::Limit(limit),
            at,
        })),
        Err(ParseFault::Memory) => Err(AllocError),
    }
}

// The first bad node of a tree.
fn in_tree(alloc: Global, target: Target, tree: &Unit) -> Result<Option<Fault>, AllocError>
    ensures { IfOk result (λ found. MatchOption found
        (IsTypedTree (target_of target) (tree_of tree.now))
        (λ fault. IsTreeFault (target_of target) (tree_of tree.now) fault.cause fault.at)) }
{
    match check_unit(alloc, target, tree) {
        Ok(_typed) => Ok(None),
        Err(TypeFault::Bad { at, kind }) => Ok(Some(Fault {
            cause: Cause::Typing(kind),
            at: at as usize,
        })),
        Err(TypeFault::Memory) => Err(AllocError),
    }
}
