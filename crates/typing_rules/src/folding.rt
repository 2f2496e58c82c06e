//! The steps of constant expressions: numbers at their types, and none where a step is undefined.

ghost use Rattle.std.specs.Prelude.{◌≡◌, ◌^◌, ◌<◌, false, pos, int_lt, Some, IfNone, IfSome};
ghost use Rattle.c_values.specs.CodeTypes.{int_type_of, type_of};
ghost use Rattle.c_values.specs.CodeWord.{word_op_of};
ghost use Rattle.c_values.specs.CodeNumber.{number_op_of};
ghost use Rattle.c_values.specs.Number as numbers;
ghost use Rattle.c_values.specs.Types.{width_of};
ghost use Rattle.c_values.specs.Path.{is_index};
ghost use Rattle.c_values.specs.Word.{power_of_two, is_shift};
ghost use Rattle.typing_rules.specs.Constant as constants;
ghost use Rattle.c_lang.specs.CodeTyped.{arithmetic_of, bitwise_of, direction_of, relation_of, equality_of, sign_of};

use c_lang::tree::{Arithmetic, Bitwise, Direction, Equality, Relation, Sign};
use c_values::views::word;
use c_values::{
    CType, IntType, Layout, Number, NumberOp, ShiftOp, UnaryOp, Word, WordOp, address_width, int,
    is_object, is_of_type, is_signed, nat, number_op, size_of, step_into, width_of, word_op,
    word_shift, word_unary,
};

// The bits of a number at a type.
fn bits_at(l: &Layout, ty: IntType, n: Number) -> Word
    ensures { result ≡ constants.bits_at l.now (int_type_of ty) n }
{
    word(width_of(l.target(), ty), n)
}

// The number that a word is at a type.
fn at_type(ty: IntType, bits: Word) -> Number
    ensures { result ≡ constants.at_type (int_type_of ty) bits }
{
    if is_signed(ty) { int(bits) } else { nat(bits) }
}

// The bits of an address.
fn address(l: &Layout, n: Number) -> Word
    ensures { result ≡ constants.address_bits l.now n }
{
    word(address_width(l.target()), n)
}

/// A number converted to a scalar type. A pointer is unsigned.
pub fn number_at(l: &Layout, to: &CType, n: Number) -> Number
    ensures { result ≡ constants.number_at l.now (type_of to.now) n }
{
    match to {
        CType::Int(ty) => at_type(*ty, bits_at(l, *ty, n)),
        CType::Void | CType::Ptr(_) | CType::Struct(_) | CType::Array(_, _) => nat(address(l, n)),
    }
}

// An exact result, where it is of the type.
fn exact(l: &Layout, ty: IntType, op: NumberOp, a: Number, b: Number) -> Option<Number>
    ensures { result ≡ constants.exact l.now (int_type_of ty)
        (numbers.number_op (number_op_of op) a b) }
{
    let n = number_op(op, a, b)?;
    if is_of_type(l.target(), ty, n) {
        Some(n)
    } else {
        None
    }
}

// A result modulo 2 to the width.
fn wrapped(l: &Layout, ty: IntType, op: WordOp, a: Number, b: Number) -> Number
    ensures { result ≡ constants.wrapped l.now (int_type_of ty) (word_op_of op) a b }
{
    at_type(ty, word_op(op, bits_at(l, ty, a), bits_at(l, ty, b)))
}

fn zero() -> Number
    ensures { result ≡ pos 0 }
{
    Number::new(false, 0)
}

/// `-a`
pub fn negated(l: &Layout, ty: IntType, a: Number) -> Option<Number>
    ensures { result ≡ constants.negated l.now (int_type_of ty) a }
{
    if is_signed(ty) {
        exact(l, ty, NumberOp::Neg, a, zero())
    } else {
        Some(at_type(ty, word_unary(UnaryOp::Wneg, bits_at(l, ty, a))))
    }
}

/// `~a`
pub fn complement(l: &Layout, ty: IntType, a: Number) -> Number
    ensures { result ≡ constants.complement l.now (int_type_of ty) a }
{
    at_type(ty, word_unary(UnaryOp::Wnot, bits_at(l, ty, a)))
}

/// Arithmetic: signed results are of their type, and unsigned ones modulo 2 to the width. By zero there is none.
pub fn computed(l: &Layout, op: Arithmetic, ty: IntType, a: Number, b: Number) -> Option<Number>
    ensures { result ≡ constants.computed l.now (arithmetic_of op) (int_type_of ty) a b }
{
    if is_signed(ty) {
        computed_signed(l, op, ty, a, b)
    } else {
        computed_unsigned(l, op, ty, a, b)
    }
}

fn computed_signed(l: &Layout, op: Arithmetic, ty: IntType, a: Number, b: Number) -> Option<Number>
    ensures { result ≡ constants.computed_signed l.now (arithmetic_of op) (int_type_of ty) a b }
{
    match op {
        Arithmetic::Add => exact(l, ty, NumberOp::Add, a, b),
        Arithmetic::Subtract => exact(l, ty, NumberOp::Sub, a, b),
        Arithmetic::Multiply => exact(l, ty, NumberOp::Mul, a, b),
        Arithmetic::Divide => quotient(l, ty, a, b),
        Arithmetic::Remainder => {
            let _quotient = quotient(l, ty, a, b)?;
            exact(l, ty, NumberOp::Mod, a, b)
        }
    }
}

// The quotient, where the divisor isn't zero and it is of the type.
fn quotient(l: &Layout, ty: IntType, a: Number, b: Number) -> Option<Number>
    ensures { result ≡ constants.divided b
        (constants.exact l.now (int_type_of ty) (numbers.quotient a b)) }
{
    if is_true(b) {
        exact(l, ty, NumberOp::Div, a, b)
    } else {
        None
    }
}

fn computed_unsigned(
    l: &Layout,
    op: Arithmetic,
    ty: IntType,
    a: Number,
    b: Number,
) -> Option<Number>
    ensures { result ≡ constants.computed_unsigned l.now (arithmetic_of op) (int_type_of ty) a b }
{
    match op {
        Arithmetic::Add => Some(wrapped(l, ty, WordOp::Wadd, a, b)),
        Arithmetic::Subtract => Some(wrapped(l, ty, WordOp::Wsub, a, b)),
        Arithmetic::Multiply => Some(wrapped(l, ty, WordOp::Wmul, a, b)),
        Arithmetic::Divide => divided(l, ty, WordOp::Wudiv, a, b),
        Arithmetic::Remainder => divided(l, ty, WordOp::Wumod, a, b),
    }
}

fn divided(l: &Layout, ty: IntType, op: WordOp, a: Number, b: Number) -> Option<Number>
    ensures { result ≡ constants.divided b
        (Some (constants.wrapped l.now (int_type_of ty) (word_op_of op) a b)) }
{
    if is_true(b) {
        Some(wrapped(l, ty, op, a, b))
    } else {
        None
    }
}

/// Bit by bit.
pub fn combined(l: &Layout, op: Bitwise, ty: IntType, a: Number, b: Number) -> Number
    ensures { result ≡ constants.combined l.now (bitwise_of op) (int_type_of ty) a b }
{
    match op {
        Bitwise::BitAnd => wrapped(l, ty, WordOp::Wand, a, b),
        Bitwise::BitOr => wrapped(l, ty, WordOp::Wor, a, b),
        Bitwise::BitXor => wrapped(l, ty, WordOp::Wxor, a, b),
    }
}

/// A shift by 0 to the width, less one. A signed value that is shifted left isn't negative, and its result fits.
pub fn shifted(
    l: &Layout,
    direction: Direction,
    ty: IntType,
    a: Number,
    by: Number,
) -> Option<Number>
    ensures { result ≡ constants.shifted l.now (direction_of direction) (int_type_of ty) a by }
{
    let count = count_in(width_of(l.target(), ty), by)?;
    match direction {
        Direction::Left => shifted_left(l, ty, a, count),
        Direction::Right => Some(shifted_right(l, ty, a, by)),
    }
}

fn count_in(width: u8, by: Number) -> Option<u8>
    ensures outside { IfNone result (is_shift width by ≡ false) }
    ensures inside { IfSome result (λ count. (by ≡ pos count) × (count < width)) }
{
    if by.negative() || by.magnitude() >= u128::from(width) {
        None
    } else {
        Some(by.magnitude() as u8)
    }
}

fn shifted_left(l: &Layout, ty: IntType, a: Number, count: u8) -> Option<Number>
    requires { count < 64 }
    ensures { result ≡ constants.shifted_left l.now (int_type_of ty) a (pos count) }
{
    let by = Number::new(false, u128::from(count));
    if !is_signed(ty) {
        return Some(at_type(ty, word_shift(ShiftOp::Wshl, bits_at(l, ty, a), by)));
    }
    if a.negative() {
        return None;
    }
    exact(l, ty, NumberOp::Mul, a, power_of_two(count))
}

// 2 to a count.
fn power_of_two(count: u8) -> Number
    requires { count < 64 }
    ensures { result ≡ power_of_two (pos count) }
{
    Number::new(false, 1u128 << count)
}

fn shifted_right(l: &Layout, ty: IntType, a: Number, by: Number) -> Number
    ensures { result ≡ constants.shifted_right l.now (int_type_of ty) a by }
{
    if is_signed(ty) {
        at_type(ty, word_shift(ShiftOp::Wsshr, bits_at(l, ty, a), by))
    } else {
        at_type(ty, word_shift(ShiftOp::Wushr, bits_at(l, ty, a), by))
    }
}

/// An order of numbers.
pub fn compares(relation: Relation, a: Number, b: Number) -> bool
    ensures { result ≡ constants.compares (relation_of relation) a b }
{
    match relation {
        Relation::Less => is_less(a, b),
        Relation::LessEqual => !is_less(b, a),
        Relation::Greater => is_less(b, a),
        Relation::GreaterEqual => !is_less(a, b),
    }
}

fn is_less(a: Number, b: Number) -> bool
    ensures { result ≡ int_lt a b }
{
    match (a.negative(), b.negative()) {
        (true, true) => b.magnitude() < a.magnitude(),
        (true, false) => true,
        (false, true) => false,
        (false, false) => a.magnitude() < b.magnitude(),
    }
}

/// Whether two numbers are, or aren't, the same.
pub fn equates(equality: Equality, a: Number, b: Number) -> bool
    ensures { result ≡ constants.equates (equality_of equality) a b }
{
    match equality {
        Equality::Equal => a == b,
        Equality::NotEqual => a != b,
    }
}

/// 1 or 0.
pub fn truth(b: bool) -> Number
    ensures { result ≡ constants.truth b }
{
    Number::new(false, if b { 1 } else { 0 })
}

/// Whether a number isn't 0.
pub fn is_true(n: Number) -> bool
    ensures { result ≡ constants.is_true n }
{
    n.magnitude() != 0
}

/// An address that moves by so many objects of a type.
pub fn moved(l: &Layout, sign: Sign, ty: &CType, from: Number, by: Number) -> Number
    ensures { result ≡ constants.moved l.now (sign_of sign) (type_of ty.now) from by }
{
    let bytes = Number::new(false, u128::from(stride(l, ty)));
    let distance = word_op(WordOp::Wmul, address(l, bytes), address(l, by));
    let op = match sign {
        Sign::Plus => WordOp::Wadd,
        Sign::Minus => WordOp::Wsub,
    };
    nat(word_op(op, address(l, from), distance))
}

// The bytes of an object of a type; 0 where there is none.
fn stride(l: &Layout, ty: &CType) -> u32
    ensures { result ≡ constants.stride l.now (type_of ty.now) }
{
    if is_object(l, ty) { size_of(l, ty) } else { 0 }
}

/// An address that moves by a number of bytes.
pub fn moved_by(l: &Layout, from: Number, offset: u32) -> Number
    ensures { result ≡ constants.moved_by l.now from (pos offset) }
{
    let offset = Number::new(false, u128::from(offset));
    nat(word_op(WordOp::Wadd, address(l, from), address(l, offset)))
}

/// Which element an index is, as far as there are such.
pub fn index_in(n: Number) -> Option<u32>
    ensures none { IfNone result (is_index n (2 ^ 32) ≡ false) }
    ensures some { IfSome result (λ k. (n ≡ pos k) × (k < 2 ^ 32)) }
{
    if n.negative() || n.magnitude() > u128::from(u32::MAX) {
        None
    } else {
        Some(n.magnitude() as u32)
    }
}
