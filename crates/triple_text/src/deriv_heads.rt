//! The words of the rules of programs.
ghost use Rattle.std.specs.Prelude.{◌≡◌, ◌≢◌, IfSome, IfNone};
ghost use Rattle.triple_text.specs.declared.deriv_heads.DerivHead as H;
ghost use Rattle.triple_text.specs.Words.{deriv_head_word};

/// A word that a list which is a derivation of a program begins with.
#[derive(Clone, Copy)]
pub(crate) enum DerivHead {
    Ret,
    Bind,
    Guard,
    If,
    Loop,
    Call,
    Pick,
    Write,
    Gset,
}

impl DerivHead {
    pub(crate) fn word(self) -> &'static str
        ensures { result.now ≡ deriv_head_word self }
    {
        match self {
            DerivHead::Ret => "ret",
            DerivHead::Bind => "bind",
            DerivHead::Guard => "guard",
            DerivHead::If => "if",
            DerivHead::Loop => "loop",
            DerivHead::Call => "call",
            DerivHead::Pick => "pick",
            DerivHead::Write => "write",
            DerivHead::Gset => "gset",
        }
    }
}

/// The head that a word is.
pub(crate) fn deriv_head(word: &str) -> Option<DerivHead>
    ensures some { IfSome result (λ h. word.now ≡ deriv_head_word h) }
    ensures none { IfNone result ((h : H.DerivHead) → word.now ≢ deriv_head_word h) }
{
    match word {
        "ret" => Some(DerivHead::Ret),
        "bind" => Some(DerivHead::Bind),
        "guard" => Some(DerivHead::Guard),
        "if" => Some(DerivHead::If),
        "loop" => Some(DerivHead::Loop),
        "call" => Some(DerivHead::Call),
        "pick" => Some(DerivHead::Pick),
        "write" => Some(DerivHead::Write),
        "gset" => Some(DerivHead::Gset),
        _ => None,
    }
}
