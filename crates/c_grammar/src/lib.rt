//! The grammar of the C subset: its trees, which tree spells which tokens, and the script of a text.
#![tactic(auto)]

ghost use Rattle.std.specs.Prelude.{◌≡◌, List};
ghost use Rattle.c_lex.specs.Lexeme.{Lexeme};
ghost use Rattle.c_grammar.specs.Tree.{External};
ghost use Rattle.c_grammar.specs.Spells.{Spells};
ghost use Rattle.c_grammar.specs.Examples.{cast, dangling_else, difference, inner_else, left_sum, levels, with_typedef, without_typedef};

mod choose;
mod ends;
mod fault;
mod names;
pub mod operator;
mod recogniser;
mod scripts;
mod symbol;
pub mod tree;

pub use fault::ScriptFault;
pub use operator::{BinaryOperator, StepOperator, UnaryOperator};
pub use scripts::{Step, script};
pub use symbol::Production;

/// A law of the grammar: no list of tokens has two trees.
#[tactic(auto, using(crate::proofs::Texts::one_tree))]
pub fn one_tree()
    ensures { (u v : List External) (s : List Lexeme) → Spells u s → Spells v s → u ≡ v }
{}

/// Examples of the grammar: an `else` belongs to the last `if` without one; operators bind by their levels, each to the
/// left; and `(t)-a` is a difference, or a cast of `-a` where a typedef made `t`.
#[tactic(auto, using(crate::proofs::Samples::inner, crate::proofs::Samples::left, crate::proofs::Samples::minus, crate::proofs::Samples::casts))]
pub fn examples()
    ensures dangling_else { Spells inner_else dangling_else }
    ensures levels { Spells left_sum levels }
    ensures difference { Spells difference without_typedef }
    ensures cast { Spells cast with_typedef }
{}
