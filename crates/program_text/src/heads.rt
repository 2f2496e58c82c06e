//! What a list that is a program begins with.
ghost use Rattle.std.specs.Prelude.{◌≡◌, ◌≢◌, IfSome, IfNone};
ghost use Rattle.program_text.specs.declared.heads.MonHead as H;
ghost use Rattle.program_text.specs.MonText.{mon_word};

/// A word that a list which is a program begins with.
#[derive(Clone, Copy)]
pub(crate) enum MonHead {
    Ret,
    Do,
    Guard,
    If,
    Store,
    Write,
    Gset,
    Loop,
    Call,
    Pick,
}

impl MonHead {
    pub(crate) fn word(self) -> &'static str
        ensures { result.now ≡ mon_word self }
    {
        match self {
            MonHead::Ret => "ret",
            MonHead::Do => "do",
            MonHead::Guard => "guard",
            MonHead::If => "if",
            MonHead::Store => "store",
            MonHead::Write => "write",
            MonHead::Gset => "gset",
            MonHead::Loop => "loop",
            MonHead::Call => "call",
            MonHead::Pick => "pick",
        }
    }
}

/// The head that a word is.
pub(crate) fn mon_head(word: &str) -> Option<MonHead>
    ensures some { IfSome result (λ h. word.now ≡ mon_word h) }
    ensures none { IfNone result ((h : H.MonHead) → word.now ≢ mon_word h) }
{
    match word {
        "ret" => Some(MonHead::Ret),
        "do" => Some(MonHead::Do),
        "guard" => Some(MonHead::Guard),
        "if" => Some(MonHead::If),
        "store" => Some(MonHead::Store),
        "write" => Some(MonHead::Write),
        "gset" => Some(MonHead::Gset),
        "loop" => Some(MonHead::Loop),
        "call" => Some(MonHead::Call),
        "pick" => Some(MonHead::Pick),
        _ => None,
    }
}
