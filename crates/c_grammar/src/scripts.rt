//! The script of a text: its tokens and the ends of productions, in the order in which they come.

ghost use Rattle.std.specs.Prelude.{◌≡◌, ◌∷◌, [], IfErr, IfOk, List};
ghost use Rattle.c_lex.specs.Lexeme.{lexemes_of};
ghost use Rattle.c_grammar.specs.Tree.{External};
ghost use Rattle.c_grammar.specs.Spells.{Spells};
ghost use Rattle.c_grammar.specs.CodeBuild.{OfUnit};
ghost use Rattle.c_grammar.specs.CodeScript.{replay};
ghost use Rattle.c_grammar.specs.Faults.{IfSyntax};
ghost use Rattle.c_grammar.specs.Place.{IsPlaced};

use crate::fault::ScriptFault;
use crate::recogniser::write;
use crate::symbol::Production;
use c_lex::Token;
use std::alloc::Global;

/// A step of a script. Each part comes before its whole: a production takes its parts from the end of what stands.
#[derive(Clone, Copy, Debug, PartialEq, Eq)]
pub enum Step {
    /// The next token of the text.
    Shift,
    /// The end of a production.
    Reduce(Production),
}

/// The script of tokens: its steps build the tree that spells them, and there is one exactly where some tree does.
///
/// - `Syntax` where no tree spells the tokens: at the start of the first token that can't stand where it does, so that no
///   tree spells a text which begins with the tokens up to and with it; or at the end of the last token, where the text
///   ends too early.
/// - `Memory` where memory ran out.
///
/// It takes time in proportion to the number of tokens, and no nesting of theirs is too deep for it.
#[tactic(auto, using(crate::proofs::Replayed::has_script, crate::proofs::Accepted::has_no_tree, crate::proofs::Place::placed))]
pub fn script(alloc: Global, tokens: &[Token]) -> Result<Vec<Step>, ScriptFault>
    ensures spelled { IfOk result
        (λ steps. (exts : List External) × Spells exts (lexemes_of tokens.now)
        × (replay steps.items (lexemes_of tokens.now) [] ≡ Some (OfUnit exts ∷ []))) }
    ensures refused { IfErr result
        (λ fault. IfSyntax fault ((exts : List External) → Spells exts (lexemes_of tokens.now) →
        ⊥)) }
    ensures placed { IfErr result (λ fault. IsPlaced (lexemes_of tokens.now) fault) }
{
    write(alloc, tokens)
}
