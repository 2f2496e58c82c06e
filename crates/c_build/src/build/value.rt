//! The values that have been read: tokens, and the trees that have been built of them.

ghost use Rattle.c_grammar.specs.CodeTree.{exp_of, simple_of, stmt_of, word_of};
ghost use Rattle.c_grammar.specs.CodeBuild.{OfExp, OfSimple, OfStmt, OfWord};
ghost use Rattle.c_build.specs.CodeValues.{Puts, value_of, values_of};

use crate::build::stack::{BuildFault, Stack};
use c_grammar::tree::{
    Bracket, CExp, Call, Decl, Declarator, Declarators, Dimensions, Enumerator, Enumerators,
    Groups, Init, Items, Label, Local, Members, Param, Rhs, Simple, Start, Stmt, Top, Word, Words,
};
use c_lex::Token;
use std::alloc::Global;

/// A value of each form. A tree that stands in a box within others is in its box already, as is a
/// large one; a list that is being built has its last element at the bottom.
#[derive(Drop)]
pub(crate) enum Value<'a> {
    Token(&'a Token),
    Expression(Box<CExp>),
    TypeName(Box<Words>, Vec<usize>),
    Word(Box<Word>),
    Words(Box<Words>),
    Members(Box<Members>),
    Declarators(Box<Declarators>),
    Declarator(Box<Declarator>),
    Dimensions(Box<Dimensions>),
    Stars(Stack<usize>),
    Enumerators(Box<Enumerators>),
    Enumerator(Box<Enumerator>),
    Arguments(Stack<CExp>),
    Call(Box<Call>),
    Right(Box<Rhs>),
    Simple(Box<Simple>),
    Initial(Option<Box<Rhs>>),
    Inits(Stack<Init>),
    Local(Box<Local>),
    Label(Box<Label>),
    Labels(Stack<Label>),
    Start(Box<Start>),
    Test(Option<Box<CExp>>),
    Step(Option<Box<Simple>>),
    Statement(Box<Stmt>),
    Items(Box<Items>),
    Groups(Box<Groups>),
    Bracket(Box<Bracket>),
    ParameterName(Option<(usize, String)>),
    Parameter(Box<Param>),
    ParameterList(Stack<Param>),
    Parameters(Option<Vec<Param>>),
    Top(Box<Top>),
    Tops(Stack<Top>),
    External(Box<Decl>),
    Text(Stack<Decl>),
}

#[tactic(auto, unfolding(crate::specs::CodeValues::values_of))]
impl<'a> Stack<Value<'a>> {
    /// Puts a value on top.
    pub(crate) fn put(&mut self, value: Value<'a>) -> Result<(), BuildFault>
        ensures { Puts (value_of value.entry) (values_of self.old) result (values_of self.new) }
    {
        self.push(value)
    }

    /// Puts an expression on top, in a box.
    pub(crate) fn put_expression(
        &mut self,
        alloc: Global,
        expression: CExp,
    ) -> Result<(), BuildFault>
        ensures { Puts (OfExp (exp_of expression)) (values_of self.old)
            result (values_of self.new) }
    {
        self.put(Value::Expression(Box::new(alloc, expression)?))
    }

    /// Puts a statement on top, in a box.
    pub(crate) fn put_statement(&mut self, alloc: Global, statement: Stmt) -> Result<(), BuildFault>
        ensures { Puts (OfStmt (stmt_of statement)) (values_of self.old)
            result (values_of self.new) }
    {
        self.put(Value::Statement(Box::new(alloc, statement)?))
    }

    /// Puts a word on top, in a box.
    pub(crate) fn put_word(&mut self, alloc: Global, word: Word) -> Result<(), BuildFault>
        ensures { Puts (OfWord (word_of word)) (values_of self.old) result (values_of self.new) }
    {
        self.put(Value::Word(Box::new(alloc, word)?))
    }

    /// Puts a simple statement on top, in a box.
    pub(crate) fn put_simple(&mut self, alloc: Global, simple: Simple) -> Result<(), BuildFault>
        ensures { Puts (OfSimple (simple_of simple)) (values_of self.old)
            result (values_of self.new) }
    {
        self.put(Value::Simple(Box::new(alloc, simple)?))
    }
}
