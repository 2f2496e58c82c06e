//! What a production does to the measures of its parts.

ghost use Rattle.std.specs.Prelude.{◌≡◌};
ghost use Rattle.c_limits.specs.CodeRoles as roles;

use c_grammar::Production;

/// What a production makes of its parts.
#[derive(Clone, Copy, Debug, PartialEq, Eq)]
pub(super) enum Role {
    /// No part: a `const` behind a star.
    Nothing,
    /// A name or a constant: a node of an expression with no other below it.
    Leaf,
    /// Any other node of an expression.
    Node,
    /// Words, stars or a declarator: what a declaration may begin with.
    Specifier,
    /// A list of parts of a type, or one alone. It may stand in an expression.
    TypePart,
    /// A list of other parts, or a part alone, which stands in no expression.
    Part,
    /// A call or a simple statement, whose expressions stand in no other.
    Simple,
    /// A part whose expressions stand in no other.
    Outermost,
    /// A statement in which no other stands.
    Statement,
    /// A statement with so many in it, or lists of them.
    Compound(usize),
    /// A list of statements, of so many and shorter lists.
    Sequence(usize),
    /// The declarator of a local.
    Local,
    /// A function.
    Function,
}

/// The role of a production.
pub(super) fn role_of(production: Production) -> Role
    ensures { result ≡ roles.role_of production }
{
    match production {
        Production::StarConst => Role::Nothing,
        Production::Name | Production::Number | Production::Character => Role::Leaf,
        Production::Parenthesis
        | Production::Index
        | Production::Member
        | Production::PointerMember
        | Production::Unary(_)
        | Production::SizeofValue
        | Production::SizeofType
        | Production::Cast
        | Production::Binary(_)
        | Production::Conditional => Role::Node,
        Production::NoWords
        | Production::MoreWords
        | Production::Reserved
        | Production::Named
        | Production::StructTag
        | Production::StructBody
        | Production::TaggedStruct
        | Production::EnumTag
        | Production::EnumBody
        | Production::TaggedEnum
        | Production::NoStars
        | Production::MoreStars
        | Production::Declarator => Role::Specifier,
        Production::Call
        | Production::Assign
        | Production::Update(_)
        | Production::After(_)
        | Production::Before(_)
        | Production::Invoke => Role::Simple,
        Production::Value
        | Production::LastArgument
        | Production::MoreArguments
        | Production::Local
        | Production::Test
        | Production::Case
        | Production::Declaration(_)
        | Production::Top
        | Production::SomeValue
        | Production::Parameter
        | Production::SizedBracket => Role::Outermost,
        Production::Empty
        | Production::Break
        | Production::Continue
        | Production::Return
        | Production::ReturnValue
        | Production::Simple => Role::Statement,
        Production::Block
        | Production::If
        | Production::While
        | Production::Do
        | Production::For
        | Production::Switch => Role::Compound(1),
        Production::IfElse => Role::Compound(2),
        Production::NoItems | Production::NoGroups => Role::Sequence(0),
        Production::LocalItem => Role::Sequence(1),
        Production::StatementItem => Role::Sequence(2),
        Production::MoreGroups => Role::Sequence(3),
        Production::LastInit | Production::MoreInits => Role::Local,
        Production::Function => Role::Function,
        Production::TypeName
        | Production::LastMember
        | Production::MoreMembers
        | Production::LastDeclarator
        | Production::MoreDeclarators
        | Production::NoDimensions
        | Production::MoreDimensions
        | Production::Implicit
        | Production::Explicit
        | Production::LastEnumerator
        | Production::LastEnumeratorComma
        | Production::MoreEnumerators => Role::TypePart,
        Production::CallValue
        | Production::NoArguments
        | Production::Init
        | Production::NoInit
        | Production::NoStart
        | Production::StartLocal
        | Production::StartSimple
        | Production::NoTest
        | Production::NoStep
        | Production::Step
        | Production::Default
        | Production::NoLabels
        | Production::MoreLabels => Role::Part,
        Production::NoTops
        | Production::LastTop
        | Production::MoreTops
        | Production::NoParameters
        | Production::SomeParameters
        | Production::NoValue
        | Production::EmptyParameters
        | Production::LastParameter
        | Production::MoreParameters
        | Production::ParameterName
        | Production::NoParameterName
        | Production::NoBracket
        | Production::OpenBracket
        | Production::NoExternals
        | Production::MoreExternals => Role::Part,
    }
}

/// How many parts a production has.
pub(super) fn arity(production: Production) -> usize
    ensures { result ≡ roles.arity production }
{
    match production {
        Production::NoWords
        | Production::NoStars
        | Production::NoDimensions
        | Production::NoItems
        | Production::NoInit
        | Production::NoGroups
        | Production::NoLabels
        | Production::NoParameters
        | Production::NoValue
        | Production::NoParameterName
        | Production::NoBracket
        | Production::NoExternals => 0,
        Production::Name
        | Production::Number
        | Production::Character
        | Production::Value
        | Production::CallValue
        | Production::NoArguments
        | Production::Reserved
        | Production::Named
        | Production::StarConst
        | Production::Implicit
        | Production::Empty
        | Production::Invoke
        | Production::NoStart
        | Production::StartLocal
        | Production::NoTest
        | Production::NoStep
        | Production::NoTops
        | Production::EmptyParameters
        | Production::ParameterName => 1,
        Production::Unary(_)
        | Production::SizeofValue
        | Production::LastArgument
        | Production::TypeName
        | Production::MoreWords
        | Production::StructTag
        | Production::EnumTag
        | Production::LastDeclarator
        | Production::MoreStars
        | Production::LastEnumerator
        | Production::Break
        | Production::Continue
        | Production::Return
        | Production::Simple
        | Production::After(_)
        | Production::Before(_)
        | Production::LocalItem
        | Production::StatementItem
        | Production::Local
        | Production::Init
        | Production::StartSimple
        | Production::Test
        | Production::Step
        | Production::Default
        | Production::MoreLabels
        | Production::LastTop
        | Production::SomeParameters
        | Production::SomeValue
        | Production::LastParameter
        | Production::OpenBracket
        | Production::MoreExternals => 2,
        Production::Index
        | Production::SizeofType
        | Production::Cast
        | Production::TaggedStruct
        | Production::TaggedEnum
        | Production::MoreDimensions
        | Production::MoreInits
        | Production::Parameter => 4,
        Production::Conditional | Production::If | Production::While | Production::MoreGroups => 5,
        Production::For | Production::Function => 6,
        Production::IfElse | Production::Do | Production::Switch => 7,
        Production::Declaration(typedef) => if typedef { 3 } else { 2 },
        Production::Parenthesis
        | Production::Member
        | Production::PointerMember
        | Production::Binary(_)
        | Production::Call
        | Production::MoreArguments
        | Production::StructBody
        | Production::EnumBody
        | Production::LastMember
        | Production::MoreMembers
        | Production::MoreDeclarators
        | Production::Declarator
        | Production::Explicit
        | Production::LastEnumeratorComma
        | Production::MoreEnumerators
        | Production::Block
        | Production::ReturnValue
        | Production::Assign
        | Production::Update(_)
        | Production::LastInit
        | Production::Case
        | Production::MoreTops
        | Production::Top
        | Production::MoreParameters
        | Production::SizedBracket => 3,
    }
}
