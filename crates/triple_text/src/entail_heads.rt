//! The words of the rules of assertions.
ghost use Rattle.std.specs.Prelude.{◌≡◌, ◌≢◌, IfSome, IfNone};
ghost use Rattle.triple_text.specs.declared.entail_heads.EntailLeaf as L;
ghost use Rattle.triple_text.specs.declared.entail_heads.EntailHead as H;
ghost use Rattle.triple_text.specs.Words.{entail_leaf_word, entail_head_word};

/// A word that is a derivation of an assertion.
#[derive(Clone, Copy)]
pub(crate) enum EntailLeaf {
    Hyp,
    Same,
    Compute,
    Range,
}

impl EntailLeaf {
    pub(crate) fn word(self) -> &'static str
        ensures { result.now ≡ entail_leaf_word self }
    {
        match self {
            EntailLeaf::Hyp => "hyp",
            EntailLeaf::Same => "same",
            EntailLeaf::Compute => "compute",
            EntailLeaf::Range => "range",
        }
    }
}

/// The leaf that a word is.
pub(crate) fn entail_leaf(word: &str) -> Option<EntailLeaf>
    ensures some { IfSome result (λ l. word.now ≡ entail_leaf_word l) }
    ensures none { IfNone result ((l : L.EntailLeaf) → word.now ≢ entail_leaf_word l) }
{
    match word {
        "hyp" => Some(EntailLeaf::Hyp),
        "same" => Some(EntailLeaf::Same),
        "compute" => Some(EntailLeaf::Compute),
        "range" => Some(EntailLeaf::Range),
        _ => None,
    }
}

/// A word that a list which is a derivation of an assertion begins with.
#[derive(Clone, Copy)]
pub(crate) enum EntailHead {
    And,
    Imp,
    Or,
    Not,
    Between,
    Case,
    Cut,
    Absurd,
    Rewrite,
    Step,
    Linear,
}

impl EntailHead {
    pub(crate) fn word(self) -> &'static str
        ensures { result.now ≡ entail_head_word self }
    {
        match self {
            EntailHead::And => "and",
            EntailHead::Imp => "imp",
            EntailHead::Or => "or",
            EntailHead::Not => "not",
            EntailHead::Between => "between",
            EntailHead::Case => "case",
            EntailHead::Cut => "cut",
            EntailHead::Absurd => "absurd",
            EntailHead::Rewrite => "rewrite",
            EntailHead::Step => "step",
            EntailHead::Linear => "linear",
        }
    }
}

/// The head that a word is.
pub(crate) fn entail_head(word: &str) -> Option<EntailHead>
    ensures some { IfSome result (λ h. word.now ≡ entail_head_word h) }
    ensures none { IfNone result ((h : H.EntailHead) → word.now ≢ entail_head_word h) }
{
    match word {
        "and" => Some(EntailHead::And),
        "imp" => Some(EntailHead::Imp),
        "or" => Some(EntailHead::Or),
        "not" => Some(EntailHead::Not),
        "between" => Some(EntailHead::Between),
        "case" => Some(EntailHead::Case),
        "cut" => Some(EntailHead::Cut),
        "absurd" => Some(EntailHead::Absurd),
        "rewrite" => Some(EntailHead::Rewrite),
        "step" => Some(EntailHead::Step),
        "linear" => Some(EntailHead::Linear),
        _ => None,
    }
}
