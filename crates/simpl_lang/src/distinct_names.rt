//! Functions whose names are distinct.

ghost use Rattle.std.specs.Prelude.{◌≡◌, map};
ghost use Rattle.c_values.specs.Name.{are_distinct};
ghost use Rattle.simpl_lang.specs.CodeCommand.{simpl_fn_of};

use crate::units::SimplFn;
use expression_lang::{Named, are_distinct};

impl Named for SimplFn {
    ghost use Rattle.std.specs.Prelude.{string_bytes};

    ghost named = { λ f. string_bytes f.name };

    fn name(&self) -> &str {
        self.name.as_str()
    }
}

/// Whether no two functions have one name.
pub(crate) fn are_functions_distinct(functions: &[SimplFn]) -> bool
    ensures { result ≡ are_distinct (map (λ f. f.name) (map simpl_fn_of functions.now)) }
{
    are_distinct(functions)
}
