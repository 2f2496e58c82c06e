//! How many parts rules may have.

ghost use Rattle.std.specs.Prelude.{◌≡◌};
ghost use Rattle.rule_text.specs.Arities as arities;

/// How many parts a rule may have.
#[derive(Clone, Copy)]
pub(crate) struct Arity {
    least: usize,
    most: Option<usize>,
}

impl Arity {
    pub(crate) fn exactly(parts: usize) -> Arity
        ensures { result ≡ arities.exactly parts }
    {
        Arity {
            least: parts,
            most: Some(parts),
        }
    }

    pub(crate) fn at_least(parts: usize) -> Arity
        ensures { result ≡ arities.at_least parts }
    {
        Arity {
            least: parts,
            most: None,
        }
    }

    /// From so many to so many.
    pub(crate) fn between(least: usize, most: usize) -> Arity
        ensures { result ≡ arities.between least most }
    {
        Arity {
            least,
            most: Some(most),
        }
    }

    /// Whether it may have so many.
    pub(crate) fn fits(self, parts: usize) -> bool
        ensures { result ≡ arities.fits self parts }
    {
        self.least <= parts && self.most.is_none_or(|most| parts <= most)
    }
}
