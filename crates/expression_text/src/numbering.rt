//! The numbers of a tree's nodes.
ghost use Rattle.std.specs.Prelude.{◌≡◌};
ghost use Rattle.expression_text.specs.Reading.{next};

/// The number of the next node.
pub fn next(at: u32) -> u32
    ensures { result ≡ next at }
{
    at.saturating_add(1)
}
