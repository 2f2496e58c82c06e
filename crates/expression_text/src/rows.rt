//! How lists that are expressions go on behind their heads.
ghost use Rattle.std.specs.Prelude.{◌≡◌};
ghost use Rattle.expression_lang.specs.CodeShapeView.{one_in};
ghost use Rattle.expression_text.specs.Row as rows;
ghost use Rattle.expression_text.specs.CodeRow.{row_in, sized_in};

use crate::heads::Head;
use c_values::{NumberOp, ShiftOp, UnaryOp, WordOp, WordTest};
use expression_lang::{CastOp, One, PlaceHead, RootTest, Two};

/// An operation that a width stands before.
#[derive(Clone, Copy)]
pub(crate) enum Sized {
    Cast(CastOp),
    ToWord,
}

impl Sized {
    pub(crate) fn one(self, width: u8) -> One
        ensures { one_in result ≡ rows.sized_one (sized_in self) width }
    {
        match self {
            Sized::Cast(op) => One::Cast(op, width),
            Sized::ToWord => One::ToWord(width),
        }
    }
}

/// What a list has behind its head.
#[derive(Clone, Copy)]
pub(crate) enum Row {
    /// A width and the bits of a word.
    Word,
    Unary(One),
    Sized(Sized),
    Two(Two),
    Between,
    If,
    Padd,
    Root(RootTest),
    Place(PlaceHead),
    Global,
    Sel,
    Upd,
}

impl Head {
    pub(crate) fn row(self) -> Row
        ensures { row_in result ≡ rows.row_of self }
    {
        match self {
            Head::Word => Row::Word,
            Head::Wadd => Row::Two(Two::WordBinary(WordOp::Wadd)),
            Head::Wsub => Row::Two(Two::WordBinary(WordOp::Wsub)),
            Head::Wmul => Row::Two(Two::WordBinary(WordOp::Wmul)),
            Head::Wand => Row::Two(Two::WordBinary(WordOp::Wand)),
            Head::Wor => Row::Two(Two::WordBinary(WordOp::Wor)),
            Head::Wxor => Row::Two(Two::WordBinary(WordOp::Wxor)),
            Head::Wudiv => Row::Two(Two::WordBinary(WordOp::Wudiv)),
            Head::Wumod => Row::Two(Two::WordBinary(WordOp::Wumod)),
            Head::Wsdiv => Row::Two(Two::WordBinary(WordOp::Wsdiv)),
            Head::Wsmod => Row::Two(Two::WordBinary(WordOp::Wsmod)),
            Head::Wshl => Row::Two(Two::WordShift(ShiftOp::Wshl)),
            Head::Wushr => Row::Two(Two::WordShift(ShiftOp::Wushr)),
            Head::Wsshr => Row::Two(Two::WordShift(ShiftOp::Wsshr)),
            Head::Wneg => Row::Unary(One::WordUnary(UnaryOp::Wneg)),
            Head::Wnot => Row::Unary(One::WordUnary(UnaryOp::Wnot)),
            Head::Wult => Row::Two(Two::WordCompare(WordTest::Wult)),
            Head::Wule => Row::Two(Two::WordCompare(WordTest::Wule)),
            Head::Wslt => Row::Two(Two::WordCompare(WordTest::Wslt)),
            Head::Wsle => Row::Two(Two::WordCompare(WordTest::Wsle)),
            Head::Zext => Row::Sized(Sized::Cast(CastOp::Zext)),
            Head::Sext => Row::Sized(Sized::Cast(CastOp::Sext)),
            Head::Trunc => Row::Sized(Sized::Cast(CastOp::Trunc)),
            Head::Nat => Row::Unary(One::ToNat),
            Head::Int => Row::Unary(One::ToInt),
            Head::ToWord => Row::Sized(Sized::ToWord),
            Head::Add => Row::Two(Two::Arith(NumberOp::Add)),
            Head::Sub => Row::Two(Two::Arith(NumberOp::Sub)),
            Head::Mul => Row::Two(Two::Arith(NumberOp::Mul)),
            Head::Div => Row::Two(Two::Arith(NumberOp::Div)),
            Head::Mod => Row::Two(Two::Arith(NumberOp::Mod)),
            Head::Neg => Row::Unary(One::Negate),
            Head::Lt => Row::Two(Two::Lt),
            Head::Le => Row::Two(Two::Le),
            Head::Between => Row::Between,
            Head::Eq => Row::Two(Two::Eq),
            Head::And => Row::Two(Two::And),
            Head::Or => Row::Two(Two::Or),
            Head::Imp => Row::Two(Two::Imp),
            Head::Not => Row::Unary(One::Not),
            Head::If => Row::If,
            Head::Padd => Row::Padd,
            Head::At => Row::Place(PlaceHead::At),
            Head::Load => Row::Place(PlaceHead::Load),
            Head::Read => Row::Place(PlaceHead::Read),
            Head::Tagged => Row::Root(RootTest::Tagged),
            Head::PtrOk => Row::Root(RootTest::PtrOk),
            Head::Global => Row::Global,
            Head::Sel => Row::Sel,
            Head::Upd => Row::Upd,
        }
    }
}
