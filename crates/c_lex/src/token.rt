//! The tokens of C that the program reads: their kinds and where they stand in the text.
ghost use Rattle.std.specs.Prelude.{◌≡◌};
ghost use Rattle.c_lex.specs.Keyword.{keyword_text};
ghost use Rattle.c_lex.specs.Punct.{punct_text};

/// A token: what it is, and that it stands in the bytes `start..end` of the text.
#[derive(Debug, PartialEq, Eq, Drop)]
pub struct Token {
    /// What stands there.
    pub kind: TokenKind,
    /// The offset of its first byte.
    pub start: usize,
    /// The offset past its last byte.
    pub end: usize,
}

/// What a token is, as its bytes say.
#[derive(Debug, PartialEq, Eq, Drop)]
pub enum TokenKind {
    /// A name that is no keyword: its bytes, 63 at most.
    Name(String),
    /// A keyword.
    Keyword(Keyword),
    /// A punctuator.
    Punct(Punct),
    /// A character constant: its value.
    Character(u8),
    /// A number: its value, whether it is decimal, whether its suffix has a `u`, and how many `l` it has.
    Number {
        value: u64,
        decimal: bool,
        unsigned: bool,
        longs: u8,
    },
}

/// The keywords.
#[derive(Clone, Copy, Debug, PartialEq, Eq)]
pub enum Keyword {
    /// `break`
    Break,
    /// `case`
    Case,
    /// `char`
    Char,
    /// `const`
    Const,
    /// `continue`
    Continue,
    /// `default`
    Default,
    /// `do`
    Do,
    /// `else`
    Else,
    /// `enum`
    Enum,
    /// `extern`
    Extern,
    /// `for`
    For,
    /// `if`
    If,
    /// `inline`
    Inline,
    /// `int`
    Int,
    /// `long`
    Long,
    /// `return`
    Return,
    /// `short`
    Short,
    /// `signed`
    Signed,
    /// `sizeof`
    Sizeof,
    /// `static`
    Static,
    /// `struct`
    Struct,
    /// `switch`
    Switch,
    /// `typedef`
    Typedef,
    /// `unsigned`
    Unsigned,
    /// `void`
    Void,
    /// `while`
    While,
}

/// The punctuators, each named by its characters.
#[derive(Clone, Copy, Debug, PartialEq, Eq)]
pub enum Punct {
    /// `{`
    LeftBrace,
    /// `}`
    RightBrace,
    /// `(`
    LeftParenthesis,
    /// `)`
    RightParenthesis,
    /// `[`
    LeftBracket,
    /// `]`
    RightBracket,
    /// `;`
    Semicolon,
    /// `,`
    Comma,
    /// `:`
    Colon,
    /// `?`
    Question,
    /// `.`
    Dot,
    /// `->`
    Arrow,
    /// `++`
    PlusPlus,
    /// `--`
    MinusMinus,
    /// `&`
    Ampersand,
    /// `*`
    Star,
    /// `+`
    Plus,
    /// `-`
    Minus,
    /// `~`
    Tilde,
    /// `!`
    Exclamation,
    /// `/`
    Slash,
    /// `%`
    Percent,
    /// `<<`
    LessLess,
    /// `>>`
    GreaterGreater,
    /// `<`
    Less,
    /// `>`
    Greater,
    /// `<=`
    LessEqual,
    /// `>=`
    GreaterEqual,
    /// `==`
    EqualEqual,
    /// `!=`
    ExclamationEqual,
    /// `^`
    Caret,
    /// `|`
    Bar,
    /// `&&`
    AmpersandAmpersand,
    /// `||`
    BarBar,
    /// `=`
    Equal,
    /// `*=`
    StarEqual,
    /// `/=`
    SlashEqual,
    /// `%=`
    PercentEqual,
    /// `+=`
    PlusEqual,
    /// `-=`
    MinusEqual,
    /// `<<=`
    LessLessEqual,
    /// `>>=`
    GreaterGreaterEqual,
    /// `&=`
    AmpersandEqual,
    /// `^=`
    CaretEqual,
    /// `|=`
    BarEqual,
}

impl Keyword {
    /// How it is written.
    pub fn text(self) -> &'static str
        ensures { result.now ≡ keyword_text self }
    {
        match self {
            Keyword::Break => "break",
            Keyword::Case => "case",
            Keyword::Char => "char",
            Keyword::Const => "const",
            Keyword::Continue => "continue",
            Keyword::Default => "default",
            Keyword::Do => "do",
            Keyword::Else => "else",
            Keyword::Enum => "enum",
            Keyword::Extern => "extern",
            Keyword::For => "for",
            Keyword::If => "if",
            Keyword::Inline => "inline",
            Keyword::Int => "int",
            Keyword::Long => "long",
            Keyword::Return => "return",
            Keyword::Short => "short",
            Keyword::Signed => "signed",
            Keyword::Sizeof => "sizeof",
            Keyword::Static => "static",
            Keyword::Struct => "struct",
            Keyword::Switch => "switch",
            Keyword::Typedef => "typedef",
            Keyword::Unsigned => "unsigned",
            Keyword::Void => "void",
            Keyword::While => "while",
        }
    }
}

impl Punct {
    /// How it is written.
    pub fn text(self) -> &'static str
        ensures { result.now ≡ punct_text self }
    {
        match self {
            Punct::LeftBrace => "{",
            Punct::RightBrace => "}",
            Punct::LeftParenthesis => "(",
            Punct::RightParenthesis => ")",
            Punct::LeftBracket => "[",
            Punct::RightBracket => "]",
            Punct::Semicolon => ";",
            Punct::Comma => ",",
            Punct::Colon => ":",
            Punct::Question => "?",
            Punct::Dot => ".",
            Punct::Arrow => "->",
            Punct::PlusPlus => "++",
            Punct::MinusMinus => "--",
            Punct::Ampersand => "&",
            Punct::Star => "*",
            Punct::Plus => "+",
            Punct::Minus => "-",
            Punct::Tilde => "~",
            Punct::Exclamation => "!",
            Punct::Slash => "/",
            Punct::Percent => "%",
            Punct::LessLess => "<<",
            Punct::GreaterGreater => ">>",
            Punct::Less => "<",
            Punct::Greater => ">",
            Punct::LessEqual => "<=",
            Punct::GreaterEqual => ">=",
            Punct::EqualEqual => "==",
            Punct::ExclamationEqual => "!=",
            Punct::Caret => "^",
            Punct::Bar => "|",
            Punct::AmpersandAmpersand => "&&",
            Punct::BarBar => "||",
            Punct::Equal => "=",
            Punct::StarEqual => "*=",
            Punct::SlashEqual => "/=",
            Punct::PercentEqual => "%=",
            Punct::PlusEqual => "+=",
            Punct::MinusEqual => "-=",
            Punct::LessLessEqual => "<<=",
            Punct::GreaterGreaterEqual => ">>=",
            Punct::AmpersandEqual => "&=",
            Punct::CaretEqual => "^=",
            Punct::BarEqual => "|=",
        }
    }
}
