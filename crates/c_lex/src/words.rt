//! Words: keywords, words of C that the program doesn't take, and names.
ghost use Rattle.std.specs.Prelude.{◌≡◌, ◌≢◌, IfSome, IfNone};
ghost use Rattle.std.specs.List.{prefix_len};
ghost use Rattle.c_lex.specs.Bytes.{is_word};
ghost use Rattle.c_lex.specs.Keyword.{keyword_text};
ghost use Rattle.c_lex.specs.Unsupported.{unsupported_text};
ghost use Rattle.c_lex.specs.declared.token.Keyword.{Keyword};
ghost use Rattle.c_lex.specs.declared.fault.Unsupported.{Unsupported};

use crate::bytes::is_word;
use crate::fault::Unsupported;
use crate::token::Keyword;

/// How many bytes of a name stand at the front.
pub(crate) fn word_length(text: &[u8]) -> usize
    ensures { result ≡ prefix_len is_word text.now }
{
    text.iter().take_while(|byte| is_word(**byte)).count()
}

/// The keyword that a word is.
pub(crate) fn keyword(word: &[u8]) -> Option<Keyword>
    ensures some { IfSome result (λ k. word.now ≡ keyword_text k) }
    ensures none { IfNone result ((k : Keyword) → word.now ≢ keyword_text k) }
{
    match word {
        b"break" => Some(Keyword::Break),
        b"case" => Some(Keyword::Case),
        b"char" => Some(Keyword::Char),
        b"const" => Some(Keyword::Const),
        b"continue" => Some(Keyword::Continue),
        b"default" => Some(Keyword::Default),
        b"do" => Some(Keyword::Do),
        b"else" => Some(Keyword::Else),
        b"enum" => Some(Keyword::Enum),
        b"extern" => Some(Keyword::Extern),
        b"for" => Some(Keyword::For),
        b"if" => Some(Keyword::If),
        b"inline" => Some(Keyword::Inline),
        b"int" => Some(Keyword::Int),
        b"long" => Some(Keyword::Long),
        b"return" => Some(Keyword::Return),
        b"short" => Some(Keyword::Short),
        b"signed" => Some(Keyword::Signed),
        b"sizeof" => Some(Keyword::Sizeof),
        b"static" => Some(Keyword::Static),
        b"struct" => Some(Keyword::Struct),
        b"switch" => Some(Keyword::Switch),
        b"typedef" => Some(Keyword::Typedef),
        b"unsigned" => Some(Keyword::Unsigned),
        b"void" => Some(Keyword::Void),
        b"while" => Some(Keyword::While),
        _ => None,
    }
}

/// The word or mark of C that the bytes are, where it is one that the program doesn't take.
pub(crate) fn unsupported(word: &[u8]) -> Option<Unsupported>
    ensures some { IfSome result (λ u. word.now ≡ unsupported_text u) }
    ensures none { IfNone result ((u : Unsupported) → word.now ≢ unsupported_text u) }
{
    match word {
        b"asm" => Some(Unsupported::Asm),
        b"auto" => Some(Unsupported::Auto),
        b"double" => Some(Unsupported::Double),
        b"float" => Some(Unsupported::Float),
        b"goto" => Some(Unsupported::Goto),
        b"register" => Some(Unsupported::Register),
        b"restrict" => Some(Unsupported::Restrict),
        b"union" => Some(Unsupported::Union),
        b"volatile" => Some(Unsupported::Volatile),
        b"_Bool" => Some(Unsupported::Bool),
        b"_Complex" => Some(Unsupported::Complex),
        b"_Imaginary" => Some(Unsupported::Imaginary),
        b"__asm__" => Some(Unsupported::GnuAsm),
        b"__attribute__" => Some(Unsupported::Attribute),
        b"__extension__" => Some(Unsupported::Extension),
        b"\"" => Some(Unsupported::StringQuote),
        b"..." => Some(Unsupported::Ellipsis),
        b"#" => Some(Unsupported::Hash),
        _ => None,
    }
}
