//! The shape of an expression: its head and its parts.

ghost use Rattle.std.specs.Prelude.{◌≡◌, IfOk};
ghost use Rattle.c_values.specs.CodeTypes.{type_of};
ghost use Rattle.expression_lang.specs.declared.expression.Exp.{size-Exp};
ghost use Rattle.expression_lang.specs.CodeExpression.{exp_of, path_of};
ghost use Rattle.expression_lang.specs.CodeShape.{shape_of, whole_leaf, whole_one, whole_two, whole_root, whole_place};
ghost use Rattle.expression_lang.specs.CodeShapeView.{leaf_in, one_in, two_in, root_in, place_in, shape_in, AreSmaller, with_front};

use crate::expression::{CastOp, Exp};
use crate::paths::Path;
use c_values::{CType, Number, NumberOp, ShiftOp, UnaryOp, Word, WordOp, WordTest, copy_of};
use std::alloc::{AllocError, Global};

/// A head with no parts.
#[derive(Clone, Copy)]
pub enum Leaf<'a> {
    Var(&'a str),
    Word(Word),
    Number(Number),
    Truth(bool),
}

/// A head with one part.
#[derive(Clone, Copy, PartialEq, Eq)]
pub enum One {
    WordUnary(UnaryOp),
    Cast(CastOp, u8),
    ToNat,
    ToInt,
    ToWord(u8),
    Negate,
    Not,
}

/// A head with two parts.
#[derive(Clone, Copy, PartialEq, Eq)]
pub enum Two {
    WordBinary(WordOp),
    WordShift(ShiftOp),
    WordCompare(WordTest),
    Arith(NumberOp),
    Lt,
    Le,
    Eq,
    And,
    Or,
    Imp,
}

/// A test of a root.
#[derive(Clone, Copy, PartialEq, Eq)]
pub enum RootTest {
    Tagged,
    PtrOk,
}

/// What is asked of a place.
#[derive(Clone, Copy, PartialEq, Eq)]
pub enum PlaceHead {
    At,
    Load,
    Read,
}

/// The head and the parts of an expression.
#[derive(Clone, Copy)]
pub enum Shape<'a> {
    Leaf(Leaf<'a>),
    One(One, &'a Exp),
    Two(Two, &'a Exp, &'a Exp),
    Between(Number, &'a Exp, Number),
    If(&'a Exp, &'a Exp, &'a Exp),
    Padd(&'a CType, &'a Exp, &'a Exp),
    Root(RootTest, &'a CType, &'a Exp),
    Place(PlaceHead, &'a CType, &'a Exp, &'a Path),
    Global(&'a str, &'a Path),
    Sel(&'a Exp, &'a Path),
    Upd(&'a Exp, &'a Path, &'a Exp),
}

/// The shape of an expression.
pub fn shape_of(e: &Exp) -> Shape<'_>
    ensures same { shape_in result ≡ shape_of (exp_of e.now) }
    ensures smaller { AreSmaller result (size-Exp e.now) }
{
    match e {
        Exp::Var(name) => Shape::Leaf(Leaf::Var(name.as_str())),
        Exp::Word(word) => Shape::Leaf(Leaf::Word(*word)),
        Exp::Number(number) => Shape::Leaf(Leaf::Number(*number)),
        Exp::Truth(truth) => Shape::Leaf(Leaf::Truth(*truth)),
        Exp::WordBinary(op, a, b) => Shape::Two(Two::WordBinary(*op), &**a, &**b),
        Exp::WordShift(op, a, n) => Shape::Two(Two::WordShift(*op), &**a, &**n),
        Exp::WordUnary(op, a) => Shape::One(One::WordUnary(*op), &**a),
        Exp::WordCompare(op, a, b) => Shape::Two(Two::WordCompare(*op), &**a, &**b),
        Exp::Cast(op, width, a) => Shape::One(One::Cast(*op, *width), &**a),
        Exp::ToNat(a) => Shape::One(One::ToNat, &**a),
        Exp::ToInt(a) => Shape::One(One::ToInt, &**a),
        Exp::ToWord(width, a) => Shape::One(One::ToWord(*width), &**a),
        Exp::Arith(op, a, b) => Shape::Two(Two::Arith(*op), &**a, &**b),
        Exp::Negate(a) => Shape::One(One::Negate, &**a),
        Exp::Lt(a, b) => Shape::Two(Two::Lt, &**a, &**b),
        Exp::Le(a, b) => Shape::Two(Two::Le, &**a, &**b),
        Exp::Between(low, a, high) => Shape::Between(*low, &**a, *high),
        Exp::Eq(a, b) => Shape::Two(Two::Eq, &**a, &**b),
        Exp::And(a, b) => Shape::Two(Two::And, &**a, &**b),
        Exp::Or(a, b) => Shape::Two(Two::Or, &**a, &**b),
        Exp::Imp(a, b) => Shape::Two(Two::Imp, &**a, &**b),
        Exp::Not(a) => Shape::One(One::Not, &**a),
        Exp::If(c, a, b) => Shape::If(&**c, &**a, &**b),
        Exp::Padd(ty, p, n) => Shape::Padd(ty, &**p, &**n),
        Exp::At(ty, p, path) => Shape::Place(PlaceHead::At, ty, &**p, path),
        Exp::Load(ty, p, path) => Shape::Place(PlaceHead::Load, ty, &**p, path),
        Exp::Read(ty, p, path) => Shape::Place(PlaceHead::Read, ty, &**p, path),
        Exp::Tagged(ty, p) => Shape::Root(RootTest::Tagged, ty, &**p),
        Exp::PtrOk(ty, p) => Shape::Root(RootTest::PtrOk, ty, &**p),
        Exp::Global(name, path) => Shape::Global(name.as_str(), path),
        Exp::Sel(whole, path) => Shape::Sel(&**whole, path),
        Exp::Upd(whole, path, part) => Shape::Upd(&**whole, path, &**part),
    }
}

/// All but the last part of an expression.
#[derive(Drop)]
pub enum Front<'a> {
    One(One),
    Two(Two, Box<Exp>),
    Between(Number, Number),
    If(Box<Exp>, Box<Exp>),
    Padd(&'a CType, Box<Exp>),
    Root(RootTest, &'a CType),
    Place(PlaceHead, &'a CType, Path),
    Sel(Path),
    Upd(Box<Exp>, Path),
}

/// All but the last part of a path.
#[derive(Drop)]
pub enum PathFront {
    Field(u32),
    Index(Box<Exp>),
}

/// An expression of its own on the heap.
pub fn boxed(alloc: Global, e: Exp) -> Result<Box<Exp>, AllocError>
    ensures { IfOk result (λ boxed. boxed.value ≡ e) }
{
    Ok(Box::new(alloc, e)?)
}

/// An expression with no parts.
pub fn whole_leaf(alloc: Global, leaf: Leaf<'_>) -> Result<Exp, AllocError>
    ensures { IfOk result (λ e. exp_of e ≡ whole_leaf (leaf_in leaf.entry)) }
{
    match leaf {
        Leaf::Var(name) => Ok(Exp::Var(String::from_str(alloc, name)?)),
        Leaf::Word(word) => Ok(Exp::Word(word)),
        Leaf::Number(number) => Ok(Exp::Number(number)),
        Leaf::Truth(truth) => Ok(Exp::Truth(truth)),
    }
}

/// An expression with one part.
pub fn whole_one(head: One, a: Box<Exp>) -> Exp
    ensures { exp_of result ≡ whole_one (one_in head) (exp_of a.value) }
{
    match head {
        One::WordUnary(op) => Exp::WordUnary(op, a),
        One::Cast(op, width) => Exp::Cast(op, width, a),
        One::ToNat => Exp::ToNat(a),
        One::ToInt => Exp::ToInt(a),
        One::ToWord(width) => Exp::ToWord(width, a),
        One::Negate => Exp::Negate(a),
        One::Not => Exp::Not(a),
    }
}

/// An expression with two parts.
pub fn whole_two(head: Two, a: Box<Exp>, b: Box<Exp>) -> Exp
    ensures { exp_of result ≡ whole_two (two_in head) (exp_of a.value) (exp_of b.value) }
{
    match head {
        Two::WordBinary(op) => Exp::WordBinary(op, a, b),
        Two::WordShift(op) => Exp::WordShift(op, a, b),
        Two::WordCompare(op) => Exp::WordCompare(op, a, b),
        Two::Arith(op) => Exp::Arith(op, a, b),
        Two::Lt => Exp::Lt(a, b),
        Two::Le => Exp::Le(a, b),
        Two::Eq => Exp::Eq(a, b),
        Two::And => Exp::And(a, b),
        Two::Or => Exp::Or(a, b),
        Two::Imp => Exp::Imp(a, b),
    }
}

/// A test of a root.
pub fn whole_root(head: RootTest, ty: CType, p: Box<Exp>) -> Exp
    ensures { exp_of result ≡ whole_root (root_in head) (type_of ty) (exp_of p.value) }
{
    match head {
        RootTest::Tagged => Exp::Tagged(ty, p),
        RootTest::PtrOk => Exp::PtrOk(ty, p),
    }
}

/// What is asked of a place.
pub fn whole_place(head: PlaceHead, ty: CType, p: Box<Exp>, path: Path) -> Exp
    ensures { exp_of result
        ≡ whole_place (place_in head) (type_of ty) (exp_of p.value) (path_of path) }
{
    match head {
        PlaceHead::At => Exp::At(ty, p, path),
        PlaceHead::Load => Exp::Load(ty, p, path),
        PlaceHead::Read => Exp::Read(ty, p, path),
    }
}

/// An expression from all but its last part and that.
pub fn whole(alloc: Global, front: Front<'_>, last: Box<Exp>) -> Result<Exp, AllocError>
    ensures { IfOk result (λ e. exp_of e ≡ with_front front.entry (exp_of last.value)) }
{
    match front {
        Front::One(head) => Ok(whole_one(head, last)),
        Front::Two(head, a) => Ok(whole_two(head, a, last)),
        Front::Between(low, high) => Ok(Exp::Between(low, last, high)),
        Front::If(c, a) => Ok(Exp::If(c, a, last)),
        Front::Padd(ty, p) => Ok(Exp::Padd(copy_of(alloc, ty)?, p, last)),
        Front::Root(head, ty) => Ok(whole_root(head, copy_of(alloc, ty)?, last)),
        Front::Place(head, ty, path) => Ok(whole_place(head, copy_of(alloc, ty)?, last, path)),
        Front::Sel(path) => Ok(Exp::Sel(last, path)),
        Front::Upd(whole, path) => Ok(Exp::Upd(whole, path, last)),
    }
}
