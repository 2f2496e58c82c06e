//! A chain of facts without any.

ghost use Rattle.std.specs.Prelude.{◌≡◌, []};
ghost use Rattle.ac_expr.specs.CodeChain.{facts_of};

use ac_expr::{Facts, Sequence};

/// No facts, in the same scope.
pub fn no_facts<'a, S: Sequence>(facts: &'a Facts<'a, S>) -> &'a Facts<'a, S>
    ensures { facts_of (S.parts) result.now ≡ [] }
{
    let mut rest = facts;
    'links: loop {
        match rest {
            Facts::None(_, _, _) => return rest,
            Facts::With(older, _) => rest = *older,
            Facts::Bound(older, _, _) => rest = *older,
            Facts::WithoutReads(older) => rest = *older,
            Facts::Passed(older, _, _) => rest = *older,
        }
    }
}
