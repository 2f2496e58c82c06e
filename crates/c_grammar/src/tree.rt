//! The trees of the C subset: a variant for each production. A node keeps the offset of its first token as its first
//! field, unless that token is its first part's.
//!
//! Lists of parts are as long as a text makes them, so their drops are loops: a derived one would call itself for each part.
use crate::operator::{BinaryOperator, StepOperator, UnaryOperator};
use c_lex::Keyword;

/// An expression.
#[cycle(exp)]
#[derive(Drop)]
pub enum CExp {
    /// A name.
    Name(usize, String),
    /// A number: its value, whether it is decimal, whether its suffix has a `u`, and how many `l` it has.
    Number(usize, u64, bool, bool, u8),
    /// A character constant.
    Character(usize, u8),
    /// `(e)`
    Parenthesis(usize, Box<CExp>),
    /// `e[i]`
    Index(Box<CExp>, Box<CExp>),
    /// `e.x`
    Member(Box<CExp>, String),
    /// `e->x`
    PointerMember(Box<CExp>, String),
    /// An operator before its operand.
    Unary(usize, UnaryOperator, Box<CExp>),
    /// `sizeof e`
    SizeofValue(usize, Box<CExp>),
    /// `sizeof(T)`: the words of the type, and the offset of each star.
    SizeofType(usize, Box<Words>, Vec<usize>),
    /// `(T)e`
    Cast(usize, Box<Words>, Vec<usize>, Box<CExp>),
    /// An operator between operands.
    Binary(BinaryOperator, Box<CExp>, Box<CExp>),
    /// `c ? a : b`
    Conditional(Box<CExp>, Box<CExp>, Box<CExp>),
}

/// The words of a type and its storage, in their order.
#[cycle(exp)]
pub enum Words {
    /// No more.
    None,
    /// A word, and more.
    More(Box<Word>, Box<Words>),
}

impl Drop for Words {
    #[cycle(drop_exp)]
    fn drop(mut self) {
        loop {
            match self {
                Words::None => return,
                Words::More(_word, more) => self = Box::into_inner(more),
            }
        }
    }
}

/// A word of a type, or of its storage.
#[cycle(exp)]
pub enum Word {
    /// A keyword.
    Reserved(usize, Keyword),
    /// A name that a typedef made.
    Named(usize, String),
    /// A struct by its tag.
    StructTag(usize, String),
    /// A struct with its members.
    StructBody(usize, Option<String>, Box<Members>),
    /// An enum by its tag.
    EnumTag(usize, String),
    /// An enum with its enumerators.
    EnumBody(usize, Option<String>, Box<Enumerators>),
}

impl Drop for Word {
    #[cycle(drop_exp)]
    fn drop(self) {
        match self {
            Word::Reserved(_, _) => {}
            Word::Named(_, _a) => {}
            Word::StructTag(_, _a) => {}
            Word::StructBody(_, _a, _b) => {}
            Word::EnumTag(_, _a) => {}
            Word::EnumBody(_, _a, _b) => {}
        }
    }
}

/// The members of a struct, one at least.
#[cycle(exp)]
pub enum Members {
    /// The last one: its words and declarators.
    Last(Box<Words>, Box<Declarators>),
    /// One, and more.
    More(Box<Words>, Box<Declarators>, Box<Members>),
}

impl Drop for Members {
    #[cycle(drop_exp)]
    fn drop(mut self) {
        loop {
            match self {
                Members::Last(_words, _declarators) => return,
                Members::More(_words, _declarators, more) => self = Box::into_inner(more),
            }
        }
    }
}

/// The declarators of a member, one at least.
#[cycle(exp)]
pub enum Declarators {
    /// The last one.
    Last(Box<Declarator>),
    /// One, and more.
    More(Box<Declarator>, Box<Declarators>),
}

impl Drop for Declarators {
    #[cycle(drop_exp)]
    fn drop(mut self) {
        loop {
            match self {
                Declarators::Last(_declarator) => return,
                Declarators::More(_declarator, more) => self = Box::into_inner(more),
            }
        }
    }
}

/// A declarator.
#[cycle(exp)]
#[derive(Drop)]
pub enum Declarator {
    /// The offset of each star, the name and its offset, and the array lengths.
    Declare(Vec<usize>, usize, String, Box<Dimensions>),
}

/// The array lengths of a declarator.
#[cycle(exp)]
pub enum Dimensions {
    /// No more.
    None,
    /// A length, and more.
    More(Box<CExp>, Box<Dimensions>),
}

impl Drop for Dimensions {
    #[cycle(drop_exp)]
    fn drop(mut self) {
        loop {
            match self {
                Dimensions::None => return,
                Dimensions::More(_length, more) => self = Box::into_inner(more),
            }
        }
    }
}

/// The enumerators of an enum, one at least.
#[cycle(exp)]
pub enum Enumerators {
    /// The last one.
    Last(Box<Enumerator>),
    /// One, and more.
    More(Box<Enumerator>, Box<Enumerators>),
}

impl Drop for Enumerators {
    #[cycle(drop_exp)]
    fn drop(mut self) {
        loop {
            match self {
                Enumerators::Last(_enumerator) => return,
                Enumerators::More(_enumerator, more) => self = Box::into_inner(more),
            }
        }
    }
}

/// An enumerator.
#[cycle(exp)]
#[derive(Drop)]
pub enum Enumerator {
    /// A name.
    Implicit(usize, String),
    /// A name and its value.
    Explicit(usize, String, Box<CExp>),
}

/// A call.
#[derive(Drop)]
pub struct Call {
    /// The offset of its name.
    pub at: usize,
    /// The name of the function.
    pub name: String,
    /// The arguments.
    pub arguments: Vec<CExp>,
}

/// What may stand on the right of an assignment.
pub enum Rhs {
    /// An expression.
    Value(CExp),
    /// A call.
    Call(Call),
}

impl Drop for Rhs {
    fn drop(self) {
        match self {
            Rhs::Value(_a) => {}
            Rhs::Call(_a) => {}
        }
    }
}

/// A simple statement.
pub enum Simple {
    /// `e = r`
    Assign(CExp, Rhs),
    /// `e += x` and its kin.
    Update(BinaryOperator, CExp, CExp),
    /// `e++` and `e--`
    After(StepOperator, CExp),
    /// `++e` and `--e`
    Before(usize, StepOperator, CExp),
    /// A call.
    Call(Call),
}

impl Drop for Simple {
    fn drop(self) {
        match self {
            Simple::Assign(_a, _b) => {}
            Simple::Update(_, _a, _b) => {}
            Simple::After(_, _a) => {}
            Simple::Before(_, _, _a) => {}
            Simple::Call(_a) => {}
        }
    }
}

/// A local: its declarator and its value.
#[derive(Drop)]
pub struct Init {
    /// The declarator.
    pub declarator: Declarator,
    /// The value, or none.
    pub value: Option<Rhs>,
}

/// The locals of one declaration.
#[derive(Drop)]
pub struct Local {
    /// The words of their type.
    pub words: Words,
    /// The locals.
    pub inits: Vec<Init>,
}

/// A label of a switch.
#[derive(Drop)]
pub enum Label {
    /// `case e:`
    Case(usize, CExp),
    /// `default:`
    Default(usize),
}

/// The first part of the head of a `for`.
pub enum Start {
    /// None.
    None,
    /// A local.
    Local(Local),
    /// A simple statement.
    Simple(Simple),
}

impl Drop for Start {
    fn drop(self) {
        match self {
            Start::None => {}
            Start::Local(_a) => {}
            Start::Simple(_a) => {}
        }
    }
}

/// A statement.
#[cycle(stmt)]
pub enum Stmt {
    /// `;`
    Empty(usize),
    /// A block.
    Block(usize, Box<Items>),
    /// A simple statement.
    Simple(Simple),
    /// `break;`
    Break(usize),
    /// `continue;`
    Continue(usize),
    /// `return r;`
    Return(usize, Option<Rhs>),
    /// An `if` without `else`.
    If(usize, CExp, Box<Stmt>),
    /// An `if` with `else`.
    IfElse(usize, CExp, Box<Stmt>, Box<Stmt>),
    /// `while (e) s`
    While(usize, CExp, Box<Stmt>),
    /// `for (start; test; step) s`
    For(usize, Start, Option<CExp>, Option<Simple>, Box<Stmt>),
    /// `do s while (e);`
    Do(usize, Box<Stmt>, CExp),
    /// A switch, with its groups.
    Switch(usize, CExp, Box<Groups>),
}

impl Drop for Stmt {
    #[cycle(drop_stmt)]
    fn drop(self) {
        match self {
            Stmt::Empty(_) => {}
            Stmt::Block(_, _a) => {}
            Stmt::Simple(_a) => {}
            Stmt::Break(_) => {}
            Stmt::Continue(_) => {}
            Stmt::Return(_, _a) => {}
            Stmt::If(_, _a, _b) => {}
            Stmt::IfElse(_, _a, _b, _c) => {}
            Stmt::While(_, _a, _b) => {}
            Stmt::For(_, _a, _b, _c, _d) => {}
            Stmt::Do(_, _a, _b) => {}
            Stmt::Switch(_, _a, _b) => {}
        }
    }
}

/// Locals and statements.
#[cycle(stmt)]
pub enum Items {
    /// No more.
    None,
    /// Locals, and more.
    Local(Local, Box<Items>),
    /// A statement, and more.
    Statement(Box<Stmt>, Box<Items>),
}

impl Drop for Items {
    #[cycle(drop_stmt)]
    fn drop(mut self) {
        loop {
            match self {
                Items::None => return,
                Items::Local(_local, more) => self = Box::into_inner(more),
                Items::Statement(_statement, more) => self = Box::into_inner(more),
            }
        }
    }
}

/// The groups of a switch.
#[cycle(stmt)]
pub enum Groups {
    /// No more.
    None,
    /// The first label of a group, the others, its first statement, what follows, and more groups.
    More(Label, Vec<Label>, Box<Stmt>, Box<Items>, Box<Groups>),
}

impl Drop for Groups {
    #[cycle(drop_stmt)]
    fn drop(mut self) {
        loop {
            match self {
                Groups::None => return,
                Groups::More(_label, _labels, _first, _items, more) => self = Box::into_inner(more),
            }
        }
    }
}

/// The brackets of a parameter.
#[derive(Drop)]
pub enum Bracket {
    /// None.
    None,
    /// `[]`
    Open(usize),
    /// `[e]`
    Length(usize, CExp),
}

/// A parameter.
#[derive(Drop)]
pub struct Param {
    /// The words of its type.
    pub words: Words,
    /// The offset of each star.
    pub stars: Vec<usize>,
    /// The name with its offset, or none.
    pub name: Option<(usize, String)>,
    /// The brackets.
    pub bracket: Bracket,
}

/// A declarator outside functions.
#[derive(Drop)]
pub struct Top {
    /// The declarator.
    pub declarator: Declarator,
    /// Its parameters, or none.
    pub parameters: Option<Vec<Param>>,
    /// Its value, or none.
    pub value: Option<CExp>,
}

/// A function or a declaration.
pub enum Decl {
    /// A function: its words, declarator, parameters and body.
    Function(Words, Declarator, Vec<Param>, Items),
    /// A declaration: the offset of its `typedef`, where it begins with that word, its words and declarators.
    Declaration(Option<usize>, Words, Vec<Top>),
}

impl Drop for Decl {
    fn drop(self) {
        match self {
            Decl::Function(_a, _b, _c, _d) => {}
            Decl::Declaration(_a, _b, _c) => {}
        }
    }
}

/// A text.
#[derive(Drop)]
pub struct Unit {
    /// Its functions and declarations.
    pub externals: Vec<Decl>,
}
