//! Sets of names, as the bits of a word.

ghost use Rattle.std.specs.Prelude.{◌≡◌, ◌≢◌, ◌<◌, ℕ, false, not, ◌&&◌, ◌||◌, IsTrue};
ghost use Rattle.rule_local.specs.CodeMarks.{is_marked};

/// Some of the first 64 names of a list, by their places in it.
#[derive(Clone, Copy)]
pub(crate) struct Marks {
    bits: u64,
}

impl Marks {
    /// None of the names.
    pub(crate) fn none() -> Marks
        ensures { (i : ℕ) → is_marked result.bits i ≡ false }
    {
        Marks { bits: 0 }
    }

    /// These, and the name at a place where it passes.
    pub(crate) fn with(self, place: u32, passes: bool) -> Marks
        requires { place < 64 }
        ensures there { is_marked result.bits place ≡ (is_marked self.bits place || passes) }
        ensures others { (i : ℕ) → i ≢ place → is_marked result.bits i ≡ is_marked self.bits i }
    {
        if passes {
            Marks {
                bits: self.bits | (1 << place),
            }
        } else {
            self
        }
    }

    /// Those of either.
    pub(crate) fn or(self, other: Marks) -> Marks
        ensures { (i : ℕ) →
            is_marked result.bits i ≡ (is_marked self.bits i || is_marked other.bits i) }
    {
        Marks {
            bits: self.bits | other.bits,
        }
    }

    /// Those of both.
    pub(crate) fn and(self, other: Marks) -> Marks
        ensures { (i : ℕ) →
            is_marked result.bits i ≡ (is_marked self.bits i && is_marked other.bits i) }
    {
        Marks {
            bits: self.bits & other.bits,
        }
    }

    /// Those that aren't among the others.
    pub(crate) fn but(self, others: Marks) -> Marks
        ensures { (i : ℕ) → i < 64 →
            is_marked result.bits i ≡ (not (is_marked others.bits i) && is_marked self.bits i) }
    {
        Marks {
            bits: !others.bits & self.bits,
        }
    }

    /// Whether there are none.
    pub(crate) fn is_none(self) -> bool
        ensures { IsTrue result → (i : ℕ) → is_marked self.bits i ≡ false }
    {
        self.bits == 0
    }
}
