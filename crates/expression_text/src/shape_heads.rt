//! The heads of the lists that expressions are.
ghost use Rattle.std.specs.Prelude.{◌≡◌};
ghost use Rattle.c_values.specs.CodeWord.{word_op_of, shift_op_of, unary_op_of, word_test_of};
ghost use Rattle.c_values.specs.CodeNumber.{number_op_of};
ghost use Rattle.expression_lang.specs.CodeExpression.{cast_op_of};
ghost use Rattle.expression_lang.specs.CodeShapeView.{one_in, two_in, root_in, place_in};
ghost use Rattle.expression_text.specs.Row as rows;

use crate::heads::Head;
use c_values::{NumberOp, ShiftOp, UnaryOp, WordOp, WordTest};
use expression_lang::{CastOp, One, PlaceHead, RootTest, Two};

/// The head of an operation with one operand.
pub fn one_head(one: One) -> Head
    ensures { result ≡ rows.one_head (one_in one) }
{
    match one {
        One::WordUnary(op) => unary_op_head(op),
        One::Cast(op, _width) => cast_head(op),
        One::ToNat => Head::Nat,
        One::ToInt => Head::Int,
        One::ToWord(_width) => Head::ToWord,
        One::Negate => Head::Neg,
        One::Not => Head::Not,
    }
}

/// The head of an operation with two operands.
pub fn two_head(two: Two) -> Head
    ensures { result ≡ rows.two_head (two_in two) }
{
    match two {
        Two::WordBinary(op) => word_op_head(op),
        Two::WordShift(op) => shift_head(op),
        Two::WordCompare(op) => word_test_head(op),
        Two::Arith(op) => number_op_head(op),
        Two::Lt => Head::Lt,
        Two::Le => Head::Le,
        Two::Eq => Head::Eq,
        Two::And => Head::And,
        Two::Or => Head::Or,
        Two::Imp => Head::Imp,
    }
}

/// The head of a test of a root.
pub fn root_head(root: RootTest) -> Head
    ensures { result ≡ rows.root_head (root_in root) }
{
    match root {
        RootTest::Tagged => Head::Tagged,
        RootTest::PtrOk => Head::PtrOk,
    }
}

/// The head of what is asked of a place.
pub fn place_head(place: PlaceHead) -> Head
    ensures { result ≡ rows.place_head (place_in place) }
{
    match place {
        PlaceHead::At => Head::At,
        PlaceHead::Load => Head::Load,
        PlaceHead::Read => Head::Read,
    }
}

fn unary_op_head(op: UnaryOp) -> Head
    ensures { result ≡ rows.unary_op_head (unary_op_of op) }
{
    match op {
        UnaryOp::Wneg => Head::Wneg,
        UnaryOp::Wnot => Head::Wnot,
    }
}

fn cast_head(op: CastOp) -> Head
    ensures { result ≡ rows.cast_head (cast_op_of op) }
{
    match op {
        CastOp::Zext => Head::Zext,
        CastOp::Sext => Head::Sext,
        CastOp::Trunc => Head::Trunc,
    }
}

fn word_op_head(op: WordOp) -> Head
    ensures { result ≡ rows.word_op_head (word_op_of op) }
{
    match op {
        WordOp::Wadd => Head::Wadd,
        WordOp::Wsub => Head::Wsub,
        WordOp::Wmul => Head::Wmul,
        WordOp::Wand => Head::Wand,
        WordOp::Wor => Head::Wor,
        WordOp::Wxor => Head::Wxor,
        WordOp::Wudiv => Head::Wudiv,
        WordOp::Wumod => Head::Wumod,
        WordOp::Wsdiv => Head::Wsdiv,
        WordOp::Wsmod => Head::Wsmod,
    }
}

fn shift_head(op: ShiftOp) -> Head
    ensures { result ≡ rows.shift_head (shift_op_of op) }
{
    match op {
        ShiftOp::Wshl => Head::Wshl,
        ShiftOp::Wushr => Head::Wushr,
        ShiftOp::Wsshr => Head::Wsshr,
    }
}

fn word_test_head(op: WordTest) -> Head
    ensures { result ≡ rows.word_test_head (word_test_of op) }
{
    match op {
        WordTest::Wult => Head::Wult,
        WordTest::Wule => Head::Wule,
        WordTest::Wslt => Head::Wslt,
        WordTest::Wsle => Head::Wsle,
    }
}

fn number_op_head(op: NumberOp) -> Head
    ensures { result ≡ rows.number_op_head (number_op_of op) }
{
    match op {
        NumberOp::Add => Head::Add,
        NumberOp::Sub => Head::Sub,
        NumberOp::Mul => Head::Mul,
        NumberOp::Div => Head::Div,
        NumberOp::Mod => Head::Mod,
        NumberOp::Neg => Head::Neg,
    }
}
