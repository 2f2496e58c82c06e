//! Typed units. Conversions, promotions, the decay of arrays and the operation of a compound assignment are explicit;
//! locals have names of their own; calls, switches and do-whiles have numbers from 1 on, in the order of the text.

ghost use Rattle.std.specs.Prelude.{◌≡◌};
ghost use Rattle.c_values.specs.CodeTypes.{type_of};
ghost use Rattle.c_lang.specs.Typed as C;
ghost use Rattle.c_lang.specs.CodeTyped.{place_of};

use c_values::{CType, IntType, Number, Program};

/// An operation on integers that can go out of its type, or has no result.
#[derive(Clone, Copy, Debug, PartialEq, Eq)]
pub enum Arithmetic {
    Add,
    Subtract,
    Multiply,
    Divide,
    Remainder,
}

/// An operation on bits.
#[derive(Clone, Copy, Debug, PartialEq, Eq)]
pub enum Bitwise {
    BitAnd,
    BitOr,
    BitXor,
}

/// Where a shift goes.
#[derive(Clone, Copy, Debug, PartialEq, Eq)]
pub enum Direction {
    Left,
    Right,
}

/// An order of integers.
#[derive(Clone, Copy, Debug, PartialEq, Eq)]
pub enum Relation {
    Less,
    LessEqual,
    Greater,
    GreaterEqual,
}

/// Whether two scalars are to be the same.
#[derive(Clone, Copy, Debug, PartialEq, Eq)]
pub enum Equality {
    Equal,
    NotEqual,
}

/// Which way a pointer moves.
#[derive(Clone, Copy, Debug, PartialEq, Eq)]
pub enum Sign {
    Plus,
    Minus,
}

/// An expression.
#[cycle(expr)]
#[derive(Debug)]
pub enum Expr {
    /// A value of an integer type.
    Constant(IntType, Number),
    /// A local, by its own name.
    Local(String, CType),
    /// What lies at a place.
    Value(Box<Place>),
    /// A conversion to a scalar type.
    Convert(CType, Box<Expr>),
    /// The same of a null pointer constant.
    ConvertNull(CType, Box<Expr>),
    /// `-a`
    Negate(IntType, Box<Expr>),
    /// `~a`
    Complement(IntType, Box<Expr>),
    /// Both operands and the result have the type.
    Compute(Arithmetic, IntType, Box<Expr>, Box<Expr>),
    /// Both operands and the result have the type.
    Combine(Bitwise, IntType, Box<Expr>, Box<Expr>),
    /// The left operand and the result have the type.
    Shift(Direction, IntType, Box<Expr>, Box<Expr>),
    /// Both operands have the type.
    Compare(Relation, IntType, Box<Expr>, Box<Expr>),
    /// Both operands have the type.
    Equate(Equality, CType, Box<Expr>, Box<Expr>),
    /// `!a`
    Not(Box<Expr>),
    /// `a && b`
    And(Box<Expr>, Box<Expr>),
    /// `a || b`
    Or(Box<Expr>, Box<Expr>),
    /// `c ? a : b`: both branches have the type.
    Choose(CType, Box<Expr>, Box<Expr>, Box<Expr>),
    /// A pointer to the type, and then an integer.
    Move(Sign, CType, Box<Expr>, Box<Expr>),
    /// An integer, and then a pointer to the type.
    MoveBy(CType, Box<Expr>, Box<Expr>),
    /// The address of a place of the type.
    Address(Box<Place>, CType),
    /// An array as a pointer to its first element, whose type this is.
    Decay(Box<Place>, CType),
}

impl Drop for Expr {
    #[cycle(expr)]
    fn drop(self) {
        match self {
            Expr::Constant(_, _) => {}
            Expr::Local(_a, _b) => {}
            Expr::Value(_a) => {}
            Expr::Convert(_a, _b) => {}
            Expr::ConvertNull(_a, _b) => {}
            Expr::Negate(_, _a) => {}
            Expr::Complement(_, _a) => {}
            Expr::Compute(_, _, _a, _b) => {}
            Expr::Combine(_, _, _a, _b) => {}
            Expr::Shift(_, _, _a, _b) => {}
            Expr::Compare(_, _, _a, _b) => {}
            Expr::Equate(_, _a, _b, _c) => {}
            Expr::Not(_a) => {}
            Expr::And(_a, _b) => {}
            Expr::Or(_a, _b) => {}
            Expr::Choose(_a, _b, _c, _d) => {}
            Expr::Move(_, _a, _b, _c) => {}
            Expr::MoveBy(_a, _b, _c) => {}
            Expr::Address(_a, _b) => {}
            Expr::Decay(_a, _b) => {}
        }
    }
}

/// A place in memory or in a global.
#[cycle(expr)]
#[derive(Debug, Drop)]
pub enum Place {
    /// The type of the root, the pointer to it, the path from there and the type at its end.
    Through(CType, Box<Expr>, Box<Path>, CType),
    /// The global, the path from there and the type at its end.
    InGlobal(String, Box<Path>, CType),
}

/// A path into a struct or an array.
#[cycle(expr)]
#[derive(Debug, Drop)]
pub enum Path {
    /// No further.
    Here,
    /// A member, from 0, and further.
    Member(u32, Box<Path>),
    /// An element: the length of the array, the index, and further.
    Element(u32, Box<Expr>, Box<Path>),
}

/// The type that lies at a place.
pub fn place_type(place: &Place) -> &CType
    ensures { type_of result.now ≡ C.place_type (place_of place.now) }
{
    match place {
        Place::Through(_, _, _, ty) | Place::InGlobal(_, _, ty) => ty,
    }
}

/// What is assigned.
#[derive(Debug)]
pub enum Destination {
    /// A local, by its own name.
    ToLocal(String, CType),
    /// A place.
    ToPlace(Place),
}

impl Drop for Destination {
    fn drop(self) {
        match self {
            Destination::ToLocal(_a, _b) => {}
            Destination::ToPlace(_a) => {}
        }
    }
}

impl Destination {
    ghost use Rattle.std.specs.Prelude.{◌≡◌};
    ghost use Rattle.c_values.specs.CodeTypes.{type_of};
    ghost use Rattle.c_lang.specs.Typed.{target_type};
    ghost use Rattle.c_lang.specs.CodeTyped.{destination_of};

    /// The type that lies there.
    pub fn ty(&self) -> &CType
        ensures { type_of result.now ≡ target_type (destination_of self.now) }
    {
        match self {
            Destination::ToLocal(_, ty) => ty,
            Destination::ToPlace(place) => place_type(place),
        }
    }
}

/// What becomes of a called function's result.
#[derive(Debug)]
pub enum Use {
    /// There is none.
    NoResult,
    /// Nothing: its type.
    Ignored(CType),
    /// It is assigned: its type, and where to.
    Assigned(CType, Destination),
    /// It is returned: its type, and the type that it is returned as.
    Returned(CType, CType),
}

impl Drop for Use {
    fn drop(self) {
        match self {
            Use::NoResult => {}
            Use::Ignored(_a) => {}
            Use::Assigned(_a, _b) => {}
            Use::Returned(_a, _b) => {}
        }
    }
}

/// The test of a loop.
#[derive(Debug)]
pub enum Test {
    /// Absent, and so true.
    Always,
    /// It is a scalar.
    Tested(Expr),
}

impl Drop for Test {
    fn drop(self) {
        match self {
            Test::Always => {}
            Test::Tested(_a) => {}
        }
    }
}

/// A statement.
#[cycle(statement)]
#[derive(Debug)]
pub enum Statement {
    /// `;`
    Empty,
    /// A block.
    Block(Box<Statements>),
    /// A declaration without initialiser.
    Declare(String, CType),
    /// The right side has the target's type.
    Assign(Destination, Expr),
    /// A call: its number, the function, the arguments at the parameters' types, and what becomes of the result.
    Call(u64, String, Vec<Expr>, Use),
    /// An `if`; an absent `else` is empty.
    If(Expr, Box<Statement>, Box<Statement>),
    /// `while (e) s`
    While(Expr, Box<Statement>),
    /// The number of a `do s while (e);`, its body and its test.
    DoWhile(u64, Box<Statement>, Expr),
    /// A `for`: what is done first, the test, the step, and the body.
    For(Box<Statements>, Test, Box<Statement>, Box<Statement>),
    /// A switch: its number, the type of its promoted operand, and that operand.
    Switch(u64, IntType, Expr, Box<Groups>),
    /// `break;`
    Break,
    /// `continue;`
    Continue,
    /// `return;`
    ReturnNothing,
    /// `return e;`
    Return(Expr),
}

impl Drop for Statement {
    #[cycle(statement)]
    fn drop(self) {
        match self {
            Statement::Empty => {}
            Statement::Block(_a) => {}
            Statement::Declare(_a, _b) => {}
            Statement::Assign(_a, _b) => {}
            Statement::Call(_, _a, _b, _c) => {}
            Statement::If(_a, _b, _c) => {}
            Statement::While(_a, _b) => {}
            Statement::DoWhile(_, _a, _b) => {}
            Statement::For(_a, _b, _c, _d) => {}
            Statement::Switch(_, _, _a, _b) => {}
            Statement::Break => {}
            Statement::Continue => {}
            Statement::ReturnNothing => {}
            Statement::Return(_a) => {}
        }
    }
}

/// Statements in their order.
#[cycle(statement)]
#[derive(Debug)]
pub enum Statements {
    /// No more.
    None,
    /// A statement, and more.
    Next(Box<Statement>, Box<Statements>),
}

/// The groups of a switch in their order.
#[cycle(statement)]
#[derive(Debug)]
pub enum Groups {
    /// No more.
    None,
    /// The labels of a group, as values of the switch's type; whether `default` is one of them; its statements; and more.
    Next(Vec<Number>, bool, Box<Statements>, Box<Groups>),
}

// A derived drop would call itself once for each statement.
impl Drop for Statements {
    #[cycle(statement)]
    fn drop(mut self) {
        loop {
            match self {
                Statements::None => return,
                Statements::Next(_, others) => self = Box::into_inner(others),
            }
        }
    }
}

impl Drop for Groups {
    #[cycle(statement)]
    fn drop(mut self) {
        loop {
            match self {
                Groups::None => return,
                Groups::Next(_, _, _, others) => self = Box::into_inner(others),
            }
        }
    }
}

/// A parameter or a local.
#[derive(Debug, Drop)]
pub struct Variable {
    /// Its own name.
    pub name: String,
    /// Its type, a scalar.
    pub ty: CType,
}

/// A function.
#[derive(Debug, Drop)]
pub struct TypedFn {
    /// Its name.
    pub name: String,
    /// The type of its result, or none.
    pub result: Option<CType>,
    /// Its parameters.
    pub params: Vec<Variable>,
    /// The locals that its body declares, in the order of the text.
    pub locals: Vec<Variable>,
    /// Whether a conversion to a pointer to a type that isn't void, from another type and not of a null pointer constant,
    /// stood where only a value is left: in an operand of `sizeof`, or in a constant.
    pub folds_cast: bool,
    /// Its body.
    pub body: Statements,
}

/// A typed text.
pub type TypedUnit = Program<TypedFn>;
