//! What a list that is a command begins with.
ghost use Rattle.std.specs.Prelude.{◌≡◌, ◌≢◌, IfSome, IfNone};
ghost use Rattle.command_text.specs.declared.heads.CommandHead as H;
ghost use Rattle.command_text.specs.CommandText.{command_word};

/// A word that a list which is a command begins with.
#[derive(Clone, Copy)]
pub(crate) enum CommandHead {
    Set,
    Gset,
    Store,
    Pick,
    Seq,
    Cond,
    Guard,
    Catch,
    While,
    Call,
}

impl CommandHead {
    pub(crate) fn word(self) -> &'static str
        ensures { result.now ≡ command_word self }
    {
        match self {
            CommandHead::Set => "set",
            CommandHead::Gset => "gset",
            CommandHead::Store => "store",
            CommandHead::Pick => "pick",
            CommandHead::Seq => "seq",
            CommandHead::Cond => "cond",
            CommandHead::Guard => "guard",
            CommandHead::Catch => "catch",
            CommandHead::While => "while",
            CommandHead::Call => "call",
        }
    }
}

/// The head that a word is.
pub(crate) fn command_head(word: &str) -> Option<CommandHead>
    ensures some { IfSome result (λ h. word.now ≡ command_word h) }
    ensures none { IfNone result ((h : H.CommandHead) → word.now ≢ command_word h) }
{
    match word {
        "set" => Some(CommandHead::Set),
        "gset" => Some(CommandHead::Gset),
        "store" => Some(CommandHead::Store),
        "pick" => Some(CommandHead::Pick),
        "seq" => Some(CommandHead::Seq),
        "cond" => Some(CommandHead::Cond),
        "guard" => Some(CommandHead::Guard),
        "catch" => Some(CommandHead::Catch),
        "while" => Some(CommandHead::While),
        "call" => Some(CommandHead::Call),
        _ => None,
    }
}
