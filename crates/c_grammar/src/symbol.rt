//! What is still to come: the symbols of the parser's stack.

ghost use Rattle.std.specs.Prelude.{◌≡◌};
ghost use Rattle.c_grammar.specs.CodeChoice as choice;
ghost use Rattle.c_grammar.specs.Operators as operators;

use crate::operator::{BinaryOperator, StepOperator, UnaryOperator};
use c_lex::Keyword;

/// What an expression is wanted for, which says what may follow its operands.
#[derive(Clone, Copy, Debug, PartialEq, Eq)]
pub enum Wanted {
    /// An expression of this level or a tighter one.
    Level(u8),
    /// The right side of an assignment, an initializer or a `return`: an expression or a call.
    Right,
    /// The place that a simple statement assigns, or its call, and the rest of that statement.
    Place,
    /// The operand of `sizeof`.
    Sized,
}

/// The sign of an integer type, as its words say so far.
#[derive(Clone, Copy, Debug, PartialEq, Eq)]
pub enum Sign {
    /// Neither `signed` nor `unsigned` yet.
    Plain,
    /// One of them.
    Told,
}

/// The size of an integer type, as its words say so far.
#[derive(Clone, Copy, Debug, PartialEq, Eq)]
pub enum Size {
    /// No word yet.
    Plain,
    /// `char`
    Char,
    /// `short`
    Short,
    /// `long`
    Long,
    /// `long long`
    LongLong,
}

/// Which words of a type have come so far.
#[derive(Clone, Copy, Debug, PartialEq, Eq)]
pub enum Seen {
    /// None.
    Nothing,
    /// Integer words: the sign, the size, and whether `int` was among them.
    Integer(Sign, Size, bool),
    /// A type that takes no further word.
    Whole,
}

impl Wanted {
    /// The level that the expression has at least.
    pub(crate) fn least(self) -> u8
        ensures { result ≡ choice.least self }
    {
        match self {
            Wanted::Level(level) => level,
            Wanted::Right => 0,
            Wanted::Place | Wanted::Sized => 12,
        }
    }

    /// Whether a type name in parentheses may begin it.
    pub(crate) fn may_open_type(self) -> bool
        ensures { result ≡ choice.may_open_type self }
    {
        match self {
            Wanted::Sized => true,
            _ => self.least() <= 11,
        }
    }
}

impl Seen {
    /// What has been seen after one more word, where the word may stand there.
    pub(crate) fn with(self, keyword: Keyword) -> Option<Seen>
        ensures { result ≡ operators.add self keyword }
    {
        match (keyword, self) {
            (Keyword::Const | Keyword::Static | Keyword::Inline | Keyword::Extern, seen) => Some(
                seen,
            ),
            (Keyword::Void, Seen::Nothing) => Some(Seen::Whole),
            (Keyword::Int, Seen::Nothing) => Some(Seen::Integer(Sign::Plain, Size::Plain, true)),
            (Keyword::Char, Seen::Nothing) => Some(Seen::Integer(Sign::Plain, Size::Char, false)),
            (Keyword::Short, Seen::Nothing) => Some(Seen::Integer(Sign::Plain, Size::Short, false)),
            (Keyword::Long, Seen::Nothing) => Some(Seen::Integer(Sign::Plain, Size::Long, false)),
            (Keyword::Signed | Keyword::Unsigned, Seen::Nothing) => Some(Seen::Integer(
                Sign::Told,
                Size::Plain,
                false,
            )),
            (Keyword::Signed | Keyword::Unsigned, Seen::Integer(Sign::Plain, size, int)) => Some(
                Seen::Integer(Sign::Told, size, int),
            ),
            (Keyword::Char, Seen::Integer(sign, Size::Plain, false)) => Some(Seen::Integer(
                sign,
                Size::Char,
                false,
            )),
            (Keyword::Short, Seen::Integer(sign, Size::Plain, int)) => Some(Seen::Integer(
                sign,
                Size::Short,
                int,
            )),
            (Keyword::Long, Seen::Integer(sign, Size::Plain, int)) => Some(Seen::Integer(
                sign,
                Size::Long,
                int,
            )),
            (Keyword::Long, Seen::Integer(sign, Size::Long, int)) => Some(Seen::Integer(
                sign,
                Size::LongLong,
                int,
            )),
            (Keyword::Int, Seen::Integer(sign, Size::Plain, false)) => Some(Seen::Integer(
                sign,
                Size::Plain,
                true,
            )),
            (Keyword::Int, Seen::Integer(sign, Size::Short, false)) => Some(Seen::Integer(
                sign,
                Size::Short,
                true,
            )),
            (Keyword::Int, Seen::Integer(sign, Size::Long, false)) => Some(Seen::Integer(
                sign,
                Size::Long,
                true,
            )),
            (Keyword::Int, Seen::Integer(sign, Size::LongLong, false)) => Some(Seen::Integer(
                sign,
                Size::LongLong,
                true,
            )),
            _ => None,
        }
    }

    /// Whether a type has been seen.
    pub(crate) fn is_complete(self) -> bool
        ensures { result ≡ operators.complete self }
    {
        !matches!(self, Seen::Nothing)
    }
}

/// A production of the grammar, at whose end its parts are complete. A list ends first and then takes its parts, the last
/// one first.
#[derive(Clone, Copy, Debug, PartialEq, Eq)]
pub enum Production {
    /// A name as an expression.
    Name,
    /// A number.
    Number,
    /// A character constant.
    Character,
    /// `(e)`
    Parenthesis,
    /// `e[i]`
    Index,
    /// `e.x`
    Member,
    /// `e->x`
    PointerMember,
    /// An operator before its operand.
    Unary(UnaryOperator),
    /// `sizeof e`
    SizeofValue,
    /// `sizeof(T)`
    SizeofType,
    /// `(T)e`
    Cast,
    /// An operator between operands.
    Binary(BinaryOperator),
    /// `c ? a : b`
    Conditional,
    /// An expression on the right of an assignment.
    Value,
    /// A name with its arguments.
    Call,
    /// A call on the right of an assignment.
    CallValue,
    /// The `)` of a call without arguments.
    NoArguments,
    /// The last argument and its `)`.
    LastArgument,
    /// An argument, `,` and those behind it.
    MoreArguments,
    /// Words and stars: the type name in `sizeof` or a cast.
    TypeName,
    /// The end of the words of a type.
    NoWords,
    /// A word of a type, and those behind it.
    MoreWords,
    /// A keyword among the words of a type.
    Reserved,
    /// A name that a typedef made.
    Named,
    /// `struct x`
    StructTag,
    /// `struct { .. }`
    StructBody,
    /// `struct x { .. }`
    TaggedStruct,
    /// `enum x`
    EnumTag,
    /// `enum { .. }`
    EnumBody,
    /// `enum x { .. }`
    TaggedEnum,
    /// The last member of a struct and the `}`.
    LastMember,
    /// A member, and those behind it.
    MoreMembers,
    /// The last declarator of a member and the `;`.
    LastDeclarator,
    /// A declarator of a member, `,` and those behind it.
    MoreDeclarators,
    /// The end of the stars.
    NoStars,
    /// A star, and those behind it.
    MoreStars,
    /// The `const` behind a star, which stands for nothing.
    StarConst,
    /// Stars, a name and array lengths.
    Declarator,
    /// The end of the array lengths.
    NoDimensions,
    /// An array length in brackets, and those behind it.
    MoreDimensions,
    /// An enumerator without a value.
    Implicit,
    /// An enumerator with a value.
    Explicit,
    /// The last enumerator and the `}`.
    LastEnumerator,
    /// The last enumerator, `,` and the `}`.
    LastEnumeratorComma,
    /// An enumerator, `,` and those behind it.
    MoreEnumerators,
    /// `;`
    Empty,
    /// `{ .. }`
    Block,
    /// `break;`
    Break,
    /// `continue;`
    Continue,
    /// `return;`
    Return,
    /// `return r;`
    ReturnValue,
    /// An `if` without `else`.
    If,
    /// An `if` with `else`.
    IfElse,
    /// `while (e) s`
    While,
    /// `do s while (e);`
    Do,
    /// `for (start; test; step) s`
    For,
    /// A switch, with its groups.
    Switch,
    /// A simple statement and its `;`.
    Simple,
    /// `e = r`
    Assign,
    /// `e += x` and its kin.
    Update(BinaryOperator),
    /// `e++` and `e--`
    After(StepOperator),
    /// `++e` and `--e`
    Before(StepOperator),
    /// A call as a statement.
    Invoke,
    /// The end of locals and statements.
    NoItems,
    /// Locals, and what is behind them.
    LocalItem,
    /// A statement, and what is behind it.
    StatementItem,
    /// The words of locals, and those locals.
    Local,
    /// `=` and the value of a local.
    Init,
    /// A local has no value.
    NoInit,
    /// The last local of a declaration and the `;`.
    LastInit,
    /// A local, `,` and those behind it.
    MoreInits,
    /// The `;` of a `for` that begins with nothing.
    NoStart,
    /// The local that a `for` begins with.
    StartLocal,
    /// The simple statement that a `for` begins with, and its `;`.
    StartSimple,
    /// The `;` of a `for` without a test.
    NoTest,
    /// The test of a `for` and its `;`.
    Test,
    /// The `)` of a `for` without a last part.
    NoStep,
    /// The last part of a `for` and the `)`.
    Step,
    /// The end of the groups of a switch.
    NoGroups,
    /// A group of a switch, and those behind it.
    MoreGroups,
    /// `case e:`
    Case,
    /// `default:`
    Default,
    /// The end of further labels.
    NoLabels,
    /// A further label of a group, and those behind it.
    MoreLabels,
    /// A function.
    Function,
    /// A declaration; whether it is a typedef.
    Declaration(bool),
    /// The `;` of a declaration without declarators.
    NoTops,
    /// The last declarator of a declaration and the `;`.
    LastTop,
    /// A declarator of a declaration, `,` and those behind it.
    MoreTops,
    /// A declarator with its parameters and its value, or without.
    Top,
    /// A declarator has no parameters.
    NoParameters,
    /// The parameters of a declarator.
    SomeParameters,
    /// A declarator has no value.
    NoValue,
    /// `=` and the value of a declarator.
    SomeValue,
    /// The `)` of empty parentheses.
    EmptyParameters,
    /// The last parameter and the `)`.
    LastParameter,
    /// A parameter, `,` and those behind it.
    MoreParameters,
    /// Words, stars, and the name and brackets of a parameter, or none.
    Parameter,
    /// The name of a parameter.
    ParameterName,
    /// A parameter has no name.
    NoParameterName,
    /// A parameter has no brackets.
    NoBracket,
    /// `[]`
    OpenBracket,
    /// `[e]`
    SizedBracket,
    /// The end of the text.
    NoExternals,
    /// A function or a declaration, and those behind it.
    MoreExternals,
}

/// What the parser still expects, the next first.
#[derive(Clone, Copy, Debug, PartialEq, Eq)]
pub enum Symbol {
    /// `(`
    LeftParenthesis,
    /// `)`
    RightParenthesis,
    /// `]`
    RightBracket,
    /// `{`
    LeftBrace,
    /// `}`
    RightBrace,
    /// `;`
    Semicolon,
    /// `:`
    Colon,
    /// `while`
    While,
    /// A name that no typedef made.
    Identifier,
    /// The name of a declarator outside functions.
    NewName,
    /// An expression. The first field says whether a struct or enum body may stand in it, here and below.
    Expression(bool, Wanted),
    /// What follows the `(` of an operand: a type name and `)`, or an expression and `)`.
    Open(bool, Wanted),
    /// What may follow an operand of this level.
    Tail(bool, Wanted, u8),
    /// Arguments and `)`.
    Arguments(bool),
    /// `,` and further arguments, or `)`.
    ArgumentsMore(bool),
    /// Words of a type and its storage, after those that have been seen.
    Words(bool, Seen),
    /// What follows `struct`.
    StructTag(bool),
    /// A body after the tag of a struct, or none.
    StructBody(bool),
    /// Members and `}`.
    Members,
    /// Further members, or `}`.
    MembersMore,
    /// `,` and further declarators, or `;`.
    DeclaratorsMore,
    /// Stars; after a star also `const`.
    Stars(bool),
    /// Array lengths in brackets.
    Dimensions(bool),
    /// What follows `enum`.
    EnumTag(bool),
    /// A body after the tag of an enum, or none.
    EnumBody(bool),
    /// Enumerators and `}`.
    Enumerators,
    /// The value of an enumerator, or none.
    EnumValue,
    /// `,`, or `}`.
    EnumMore,
    /// What follows the `,`: a further enumerator, or `}`.
    EnumNext,
    /// A statement.
    Statement,
    /// What follows `return`.
    ReturnValue,
    /// `else` and a statement, or nothing.
    Else,
    /// Locals and statements.
    Items,
    /// `=` and the value of a local, or nothing.
    InitValue,
    /// `,` and further locals, or `;`.
    InitMore,
    /// The first part of the head of a `for`, and its `;`.
    ForStart,
    /// The test in the head of a `for`, and its `;`.
    ForTest,
    /// The last part of the head of a `for`, and `)`.
    ForStep,
    /// The groups of a switch.
    Groups,
    /// Further labels of a group.
    Labels,
    /// Externals, up to the end of the text.
    Externals,
    /// What follows the specifiers of an external; whether it is a typedef.
    Tops(bool),
    /// Parameters of a declarator, or none.
    TopParameters,
    /// `=` and the value of a global, or nothing.
    TopValue,
    /// `,` and further declarators, or `;`.
    TopMore,
    /// What follows the first declarator of an external that may be a function.
    FirstParameters,
    /// What follows its parameters.
    FirstRest,
    /// What follows the `(` of parameters.
    Parameters,
    /// `,` and further parameters, or `)`.
    ParametersMore,
    /// The name of a parameter, or none.
    ParameterName,
    /// The brackets of a parameter, or none.
    ParameterBracket,
    /// What follows the `[` of a parameter.
    BracketRest,
    /// Here an external ends; whether it is a typedef, so that its names are types from here on.
    Made(bool),
    /// Here a production ends.
    End(Production),
}
