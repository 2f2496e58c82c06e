//! What the text has declared outside functions so far, beside types.

use c_values::{CType, Number};
use indexmap::IndexMap;
use std::alloc::Global;
use std::collections::HashSet;

/// A global so far.
#[derive(Debug, Drop)]
pub struct GlobalSoFar {
    pub ty: CType,
    /// Whether a declaration of it without `extern` stood.
    pub is_defined: bool,
    /// The value of its initialiser, or none.
    pub initial: Option<Number>,
}

/// What the text has declared outside functions so far, beside types.
#[derive(Debug, Drop)]
pub struct File {
    /// The functions that have a body anywhere in the text.
    pub with_body: HashSet<String>,
    /// Those that had one so far.
    pub with_body_so_far: HashSet<String>,
    /// The globals in the order of their first declarations.
    pub globals: IndexMap<String, GlobalSoFar>,
}

impl File {
    ghost use Rattle.std.specs.Prelude.{◌≡◌, [], false};
    ghost use Rattle.std.specs.HashSet.{contains_text};
    ghost use Rattle.typing_scope.specs.CodeScope.{file_of};

    /// In front of a text with these functions.
    pub fn at_beginning(alloc: Global, with_body: HashSet<String>) -> File
        ensures { file_of result
            ≡ record {
              with_body = λ x. contains_text with_body x;
              with_body_so_far = λ x. false;
              globals = [];
            } }
    {
        File {
            with_body,
            with_body_so_far: HashSet::new(alloc),
            globals: IndexMap::new(alloc),
        }
    }
}
