//! The lines that refuse a C text.

ghost use Rattle.std.specs.Prelude.{◌≡◌, ◌++◌, IfOk, codes};
ghost use Rattle.std.specs.Fmt.{decimal};
ghost use Rattle.c_lex.specs.Answer.{Tells};
ghost use Rattle.c_lex.specs.Unsupported.{unsupported_text};
ghost use Rattle.answers.specs.Refusal.{cause_text, kind_text, limit_line, limit_text, source_line, IsParseRefusal};
ghost use Rattle.answers.specs.declared.status.Status.{Status};

use crate::answer::{Answer, push};
use crate::status::Status;
use c_lex::{LexFault, Unsupported};
use c_parse::{Limit, ParseFault};
use itoa::Buffer;
use std::alloc::{AllocError, Global};
use typing_rules::TypeKind;

/// The answer to a text that has no tokens, for the fault that the lexer tells.
pub fn lex_refusal(alloc: Global, fault: LexFault) -> Result<Answer, AllocError>
    ensures told { IfOk result
        (λ a. (a.status ≡ Status.Source)
        × Tells fault (λ cause at. a.lines.items ≡ source_line (cause_text cause) at)) }
    ensures memory { fault ≡ LexFault.Memory → IfOk result (λ _. ⊥) }
{
    match fault {
        LexFault::BadByte(at) => source(alloc, "bad byte", at),
        LexFault::BadNumber(at) => source(alloc, "bad number", at),
        LexFault::OpenComment(at) => source(alloc, "open comment", at),
        LexFault::Unsupported(word, at) => unsupported(alloc, word, at),
        LexFault::LongName(at) => source(alloc, "long name", at),
        LexFault::Memory => Err(AllocError),
    }
}

/// The answer to tokens that no tree spells, or whose tree passes a limit.
pub fn parse_refusal(alloc: Global, fault: ParseFault) -> Result<Answer, AllocError>
    ensures { IfOk result (λ a. IsParseRefusal fault a.status a.lines.items) }
{
    match fault {
        ParseFault::Syntax(at) => source(alloc, "syntax", at),
        ParseFault::Limit(limit, _at) => past(alloc, limit),
        ParseFault::Memory => Err(AllocError),
    }
}

/// The answer to an option that names no function.
pub fn unknown_name(alloc: Global, name: &str) -> Result<Answer, AllocError>
    ensures { IfOk result
        (λ a. (a.status ≡ Status.Words)
        × (a.lines.items ≡ codes "words: unknown " ++ (name.now ++ codes "\n"))) }
{
    let mut lines = Vec::from_slice(alloc, b"words: unknown ")?;
    push(&mut lines, name)?;
    push(&mut lines, "\n")?;
    Ok(Answer {
        status: Status::Words,
        lines,
    })
}

/// The answer to a text whose first bad node is this.
pub fn untyped(alloc: Global, at: u32, kind: TypeKind) -> Result<Answer, AllocError>
    ensures { IfOk result
        (λ a. (a.status ≡ Status.Source) × (a.lines.items ≡ source_line (kind_text kind) at)) }
{
    source(alloc, kind_name(kind), at as usize)
}

fn kind_name(kind: TypeKind) -> &'static str
    ensures { result.now ≡ kind_text kind }
{
    match kind {
        TypeKind::Unknown => "unknown",
        TypeKind::Twice => "twice",
        TypeKind::Mismatch => "mismatch",
        TypeKind::NotLvalue => "not an lvalue",
        TypeKind::Incomplete => "incomplete",
        TypeKind::NoBody => "no body",
        TypeKind::Arity => "arity",
        TypeKind::FallThrough => "fall through",
        TypeKind::OutOfSubset => "out of subset",
        TypeKind::Large => "too large",
    }
}

// The answer to a text that passes a limit.
fn past(alloc: Global, limit: Limit) -> Result<Answer, AllocError>
    ensures { IfOk result (λ a. (a.status ≡ Status.Limit) × (a.lines.items ≡ limit_line limit)) }
{
    let mut lines = Vec::from_slice(alloc, b"limit: ")?;
    push(&mut lines, limit_name(limit))?;
    push(&mut lines, "\n")?;
    Ok(Answer {
        status: Status::Limit,
        lines,
    })
}

fn limit_name(limit: Limit) -> &'static str
    ensures { result.now ≡ limit_text limit }
{
    match limit {
        Limit::Functions => "functions",
        Limit::Statements => "statements",
        Limit::Blocks => "blocks",
        Limit::Depth => "depth",
        Limit::Nodes => "nodes",
    }
}

fn unsupported(alloc: Global, word: Unsupported, at: usize) -> Result<Answer, AllocError>
    ensures { IfOk result
        (λ a. (a.status ≡ Status.Source)
        × (a.lines.items ≡ source_line (codes "unsupported " ++ unsupported_text word) at)) }
{
    let mut lines = Vec::from_slice(alloc, b"source: unsupported ")?;
    push(&mut lines, word.text())?;
    at_offset(lines, at)
}

fn source(alloc: Global, kind: &str, at: usize) -> Result<Answer, AllocError>
    ensures { IfOk result
        (λ a. (a.status ≡ Status.Source) × (a.lines.items ≡ source_line kind.now at)) }
{
    let mut lines = Vec::from_slice(alloc, b"source: ")?;
    push(&mut lines, kind)?;
    at_offset(lines, at)
}

// The end of the line, which tells the place.
fn at_offset(mut lines: Vec<u8>, at: usize) -> Result<Answer, AllocError>
    ensures { IfOk result
        (λ a. (a.status ≡ Status.Source)
        × (a.lines.items ≡ lines.items ++ (codes " at " ++ (decimal at ++ codes "\n")))) }
{
    push(&mut lines, " at ")?;
    push(&mut lines, Buffer::new().format(at))?;
    push(&mut lines, "\n")?;
    Ok(Answer {
        status: Status::Source,
        lines,
    })
}
