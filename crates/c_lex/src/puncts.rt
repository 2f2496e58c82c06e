//! Punctuators.
ghost use Rattle.std.specs.Prelude.{◌≡◌, ◌≢◌, IfSome, IfNone};
ghost use Rattle.c_lex.specs.Punct.{punct_text, punct_at};
ghost use Rattle.c_lex.specs.declared.token.Punct.{Punct};

use crate::bytes::first;
use crate::token::Punct;

/// The punctuator that the bytes are.
fn punct(bytes: &[u8]) -> Option<Punct>
    ensures some { IfSome result (λ p. bytes.now ≡ punct_text p) }
    ensures none { IfNone result ((p : Punct) → bytes.now ≢ punct_text p) }
{
    match bytes {
        b"{" => Some(Punct::LeftBrace),
        b"}" => Some(Punct::RightBrace),
        b"(" => Some(Punct::LeftParenthesis),
        b")" => Some(Punct::RightParenthesis),
        b"[" => Some(Punct::LeftBracket),
        b"]" => Some(Punct::RightBracket),
        b";" => Some(Punct::Semicolon),
        b"," => Some(Punct::Comma),
        b":" => Some(Punct::Colon),
        b"?" => Some(Punct::Question),
        b"." => Some(Punct::Dot),
        b"->" => Some(Punct::Arrow),
        b"++" => Some(Punct::PlusPlus),
        b"--" => Some(Punct::MinusMinus),
        b"&" => Some(Punct::Ampersand),
        b"*" => Some(Punct::Star),
        b"+" => Some(Punct::Plus),
        b"-" => Some(Punct::Minus),
        b"~" => Some(Punct::Tilde),
        b"!" => Some(Punct::Exclamation),
        b"/" => Some(Punct::Slash),
        b"%" => Some(Punct::Percent),
        b"<<" => Some(Punct::LessLess),
        b">>" => Some(Punct::GreaterGreater),
        b"<" => Some(Punct::Less),
        b">" => Some(Punct::Greater),
        b"<=" => Some(Punct::LessEqual),
        b">=" => Some(Punct::GreaterEqual),
        b"==" => Some(Punct::EqualEqual),
        b"!=" => Some(Punct::ExclamationEqual),
        b"^" => Some(Punct::Caret),
        b"|" => Some(Punct::Bar),
        b"&&" => Some(Punct::AmpersandAmpersand),
        b"||" => Some(Punct::BarBar),
        b"=" => Some(Punct::Equal),
        b"*=" => Some(Punct::StarEqual),
        b"/=" => Some(Punct::SlashEqual),
        b"%=" => Some(Punct::PercentEqual),
        b"+=" => Some(Punct::PlusEqual),
        b"-=" => Some(Punct::MinusEqual),
        b"<<=" => Some(Punct::LessLessEqual),
        b">>=" => Some(Punct::GreaterGreaterEqual),
        b"&=" => Some(Punct::AmpersandEqual),
        b"^=" => Some(Punct::CaretEqual),
        b"|=" => Some(Punct::BarEqual),
        _ => None,
    }
}

/// The punctuator at the front: the longest that fits.
#[tactic(auto, unfolding(crate::specs::Punct::punct_at))]
pub(crate) fn punct_at(text: &[u8]) -> Option<Punct>
    ensures { result ≡ punct_at text.now }
{
    if let Some(punct) = punct(first(text, 3)) {
        return Some(punct);
    }
    if let Some(punct) = punct(first(text, 2)) {
        return Some(punct);
    }
    punct(first(text, 1))
}
