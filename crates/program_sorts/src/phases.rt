//! What names of a kind have, before and after words become numbers.

ghost use Rattle.std.specs.Prelude.{◌≡◌};
ghost use Rattle.expression_lang.specs.CodeExpression.{kind_of};
ghost use Rattle.expression_lang.specs.CodeSort.{scalar_of};
ghost use Rattle.program_sorts.specs.CodeSorts.{sort_for};

use expression_lang::{Kind, Scalar, scalar_of_kind};

/// What a name of a kind has.
#[derive(Clone, Copy, Debug, PartialEq, Eq)]
pub enum Phase {
    /// The word, or the truth value.
    OnWords,
    /// What stands for it at the kind.
    OnNumbers,
}

impl Phase {
    /// What names of the kind have.
    pub fn scalar(self, kind: Kind) -> Scalar
        ensures { scalar_of result ≡ sort_for self (kind_of kind) }
    {
        match self {
            Phase::OnWords => scalar_of_kind(kind),
            Phase::OnNumbers => match kind {
                Kind::Word(width) => Scalar::Word(width),
                Kind::Nat(_) | Kind::Int(_) => Scalar::Num,
                Kind::Bool => Scalar::Truth,
            },
        }
    }
}
