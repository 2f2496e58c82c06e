//! The names that loops begin with.

ghost use Rattle.std.specs.Prelude.{◌≡◌, ◌↔◌, map, IsTrue};
ghost use Rattle.monad_lang.specs.Run.{start_names};
ghost use Rattle.monad_lang.specs.CodeProgram.{start_of};

use monad_lang::Start;

/// Whether two lists of starts have the same names.
#[tactic(auto, using(crate::proofs::StartNames::names_end, crate::proofs::StartNames::names_go_on))]
pub fn same_start_names(starts: &[Start], others: &[Start]) -> bool
    ensures { IsTrue result
        ↔ (start_names (map start_of others.now) ≡ start_names (map start_of starts.now)) }
{
    let mut left = starts;
    let mut right = others;
    'along: while let Some((first, rest)) = left.split_first() {
        let Some((other, other_rest)) = right.split_first() else {
            return false;
        };
        if other.name.as_str() != first.name.as_str() {
            return false;
        }
        left = rest;
        right = other_rest;
    }
    right.is_empty()
}
