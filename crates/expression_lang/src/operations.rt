//! Operations of expressions on numbers and addresses.

ghost use Rattle.std.specs.Prelude.{◌≡◌, ◌<◌, ◌^◌, ◌*ℤ◌, true, pos, map};
ghost use Rattle.c_values.specs.Number.{number_op};
ghost use Rattle.c_values.specs.Value.{Bits, Number as NumberValue};
ghost use Rattle.c_values.specs.Layout.{shape_of, size_of, space, is_object};
ghost use Rattle.c_values.specs.Path.{spot};
ghost use Rattle.c_values.specs.Types.{address_width};
ghost use Rattle.c_values.specs.CodeTypes.{target_of, type_of};
ghost use Rattle.c_values.specs.CodeNumber.{number_op_of};
ghost use Rattle.c_values.specs.CodeValue.{value_of};
ghost use Rattle.c_memory.specs.CodeStep.{step_of};
ghost use Rattle.c_memory.specs.Tags.{is_pointer_ok};
ghost use Rattle.expression_lang.specs.Evaluation.{cast_op, moved, moved_to};
ghost use Rattle.expression_lang.specs.CodeExpression.{cast_op_of};
ghost use Rattle.c_values.specs.Width.{IsWidth};
ghost use Rattle.expression_lang.specs.Wide.{wide_operation};
ghost use Rattle.expression_lang.specs.CodeFault.{Gives};

use crate::expression::CastOp;
use crate::faults::EvalFault;
use c_memory::{Step, element_address, place_at};
use c_values::{
    CType, Layout, Number, NumberOp, Target, Value, Word, address_width, align_of, cast, number_op,
    size_of,
};

/// The value of an operation on numbers, or none where its result is wide, which is then told.
pub(crate) fn arithmetic(op: NumberOp, a: Number, b: Number, fault: &mut EvalFault) -> Option<Value>
    ensures { Gives value_of result fault.new (NumberValue (number_op (number_op_of op) a b))
        (wide_operation (number_op_of op) a b) }
{
    match number_op(op, a, b) {
        Some(n) => Some(Value::Number(n)),
        None => {
            *fault = EvalFault::Wide(op, a, b);
            None
        }
    }
}

/// A word of another width.
pub(crate) fn cast_word(op: CastOp, width: u8, a: Word) -> Word
    requires { IsWidth width }
    ensures { result ≡ cast_op (cast_op_of op) width a }
{
    match op {
        CastOp::Zext | CastOp::Trunc => cast(false, width, a),
        CastOp::Sext => cast(true, width, a),
    }
}

/// A pointer, so many objects further on.
pub(crate) fn moved(l: &Layout, t: &CType, p: Word, n: Number) -> Word
    requires object { is_object l.now (type_of t.now) ≡ true }
    ensures { Bits result ≡ moved l.now p (pos (size_of l.now (type_of t.now)) *ℤ n) }
{
    let target = l.target();
    pointer(target, element_address(target, p.bits(), n, size_of(l, t)))
}

/// The address at the end of a path from a pointer.
pub(crate) fn place_address(l: &Layout, t: &CType, p: Word, path: &[Step]) -> Word
    requires object { is_object l.now (type_of t.now) ≡ true }
    requires address { p.bits < space l.now }
    ensures { Bits result
        ≡ moved_to l.now p (spot (shape_of l.now (type_of t.now)) (map step_of path.now)) }
{
    match place_at(l, t, p.bits(), path) {
        Some(place) => pointer(l.target(), place.address),
        None => p,
    }
}

// The pointer to an address.
fn pointer(target: Target, address: u64) -> Word
    requires { address < 2 ^ address_width (target_of target) }
    ensures { result ≡ record { width = address_width (target_of target); bits = address } }
{
    Word::new(address_width(target), address)
}

/// Whether a pointer is aligned, not null, and all of its object in the space.
pub(crate) fn is_pointer_ok(l: &Layout, t: &CType, address: u64) -> bool
    requires { is_object l.now (type_of t.now) ≡ true }
    ensures { result ≡ is_pointer_ok l.now (type_of t.now) address }
{
    let end = u128::from(address) + u128::from(size_of(l, t));
    address % u64::from(align_of(l, t)) == 0 && address != 0 && end <= space(l.target())
}

// How many addresses there are.
fn space(target: Target) -> u128
    ensures { result ≡ 2 ^ address_width (target_of target) }
{
    match target {
        Target::Ilp32 => 1 << 32,
        Target::Lp64 => 1 << 64,
    }
}
