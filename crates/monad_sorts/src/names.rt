//! Names in order: whether they are distinct, and where one of them stands.

ghost use Rattle.std.specs.Prelude.{◌≡◌, map, IfSome, IfNone};
ghost use Rattle.c_values.specs.Name.{are_distinct};
ghost use Rattle.monad_lang.specs.Run.{start_names};
ghost use Rattle.monad_lang.specs.CodeProgram.{start_of, final_fn_of};
ghost use Rattle.monad_sorts.specs.CodeInside.{IsAt, IsNowhere};

use expression_lang::{Named, are_distinct};
use monad_lang::{FinalFn, Start};

/// Whether no two functions have one name.
pub(crate) fn are_functions_distinct(functions: &[FinalFn]) -> bool
    ensures { result ≡ are_distinct (map (λ f. f.name) (map final_fn_of functions.now)) }
{
    are_distinct(functions)
}

/// Whether no two of the names of a loop are one.
pub(crate) fn are_starts_distinct(starts: &[Start]) -> bool
    ensures { result ≡ are_distinct (start_names (map start_of starts.now)) }
{
    are_distinct(starts)
}

/// The position of the last of the names of a loop that is this one.
pub(crate) fn start_position(starts: &[Start], name: &str) -> Option<usize>
    ensures some { IfSome result (λ k. IsAt (start_names (map start_of starts.now)) name.now k) }
    ensures none { IfNone result (IsNowhere (start_names (map start_of starts.now)) name.now) }
{
    position(starts, name)
}

/// The position of the last that has the name.
pub(crate) fn position<T: Named>(items: &[T], name: &str) -> Option<usize>
    ensures some { IfSome result (λ k. IsAt (map T.named items.now) name.now k) }
    ensures none { IfNone result (IsNowhere (map T.named items.now) name.now) }
{
    let mut rest = items;
    'items: while let Some((last, others)) = rest.split_last() {
        if last.name() == name {
            return Some(others.len());
        }
        rest = others;
    }
    None
}
