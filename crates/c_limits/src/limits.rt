//! The limits of a tree, found from the script of its text: no tree is built, however large it would be.

ghost use Rattle.std.specs.Prelude.{◌≡◌, ◌∷◌, [], IfOk, List, Some, map, reverse};
ghost use Rattle.c_lex.specs.Lexeme.{lexemes_of};
ghost use Rattle.c_grammar.specs.Tree.{External};
ghost use Rattle.c_grammar.specs.CodeBuild.{OfUnit};
ghost use Rattle.c_grammar.specs.CodeScript.{replay};
ghost use Rattle.c_limits.specs.Limits as limits;
ghost use Rattle.c_limits.specs.CodeMeasure as machine;

mod bounds;
pub mod laws;
mod measure;
mod offsets;
mod part;
mod role;

use self::bounds::stays_within;
use self::measure::Fault;
use self::part::{Part, reduce};
use c_grammar::Step;
use c_lex::Token;
use std::alloc::{AllocError, Global};

/// A limit of a tree.
#[derive(Clone, Copy, Debug, PartialEq, Eq)]
pub enum Limit {
    /// 1,024 functions with bodies in a text.
    Functions,
    /// 200 statements in a function. The declarator of a local counts as one, in the head of a `for` too; the block that is the
    /// function's body doesn't.
    Statements,
    /// 32 statements, one in the other. A statement of the function's body is the first of them.
    Blocks,
    /// 32 nodes of an expression, one in the other.
    Depth,
    /// 128 nodes of an expression. Each name, constant, operator and pair of parentheses is one.
    Nodes,
}

impl Limit {
    /// How many of its kind it allows.
    pub fn most(self) -> usize
        ensures { result ≡ limits.most self }
    {
        match self {
            Limit::Functions => 1024,
            Limit::Statements => 200,
            Limit::Blocks => 32,
            Limit::Depth => 32,
            Limit::Nodes => 128,
        }
    }
}

/// Takes a step of the script: its token, or the parts of its production.
fn advance<'a>(
    alloc: Global,
    parts: &mut Vec<Part>,
    tokens: &'a [Token],
    step: Step,
) -> Result<&'a [Token], AllocError>
    ensures { IfOk result
        (λ rest. (lexemes_of rest.now, reverse (map machine.part_of parts.new.items))
        ≡ machine.advanced machine.cut step
        (lexemes_of tokens.now, reverse (map machine.part_of parts.old.items))) }
{
    match step {
        Step::Shift => {
            let Some((token, rest)) = tokens.split_first() else {
                return Ok(tokens);
            };
            parts.push(Part::token(token.start))?;
            Ok(rest)
        }
        Step::Reduce(production) => {
            reduce(alloc, parts, production)?;
            Ok(tokens)
        }
    }
}

/// The parts that stand behind the steps of a script.
fn measured(alloc: Global, steps: &[Step], tokens: &[Token]) -> Result<Vec<Part>, AllocError>
    ensures { IfOk result
        (λ parts. reverse (map machine.part_of parts.items) ≡ machine.measured machine.cut steps.now
        (lexemes_of tokens.now)) }
{
    let mut parts = Vec::new(alloc);
    let mut rest = tokens;
    for step in steps {
        rest = advance(alloc, &mut parts, rest, *step)?;
    }
    Ok(parts)
}

/// The first limit that is passed where a whole text stands on the stack.
fn limit_of(mut parts: Vec<Part>) -> Option<Fault>
    ensures { result ≡ machine.limit_of (reverse (map machine.part_of parts.items)) }
{
    let part = parts.pop()?;
    let measure = part.measure?;
    measure.first_limit()
}

/// The first limit that the tree of a script passes, and the offset where it does. Where several are passed at one offset, it is
/// the first of them in the order of `Limit`.
///
/// It takes time and memory in proportion to the number of steps, however deep the tree is. Bounds are
/// counted first: only where they pass a limit are all parts measured, and places found.
pub fn first_limit(
    alloc: Global,
    steps: &[Step],
    tokens: &[Token],
) -> Result<Option<(Limit, usize)>, AllocError>
    ensures { (exts : List External) → replay steps.now (lexemes_of tokens.now) []
        ≡ Some (OfUnit exts ∷ []) → IfOk result (λ found. found ≡ limits.first_limit exts) }
{
    if stays_within(alloc, steps)? {
        return Ok(None);
    }
    Ok(limit_of(measured(alloc, steps, tokens)?))
}
