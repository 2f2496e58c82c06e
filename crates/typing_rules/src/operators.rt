//! The rules of operators: typed operands to a typed expression, or what is wrong.

ghost use Rattle.std.specs.Prelude.{◌≡◌, IfOk, None};
ghost use Rattle.std.specs.Option.{option_map};
ghost use Rattle.c_values.specs.CodeTypes.{int_type_of, type_of};
ghost use Rattle.c_values.specs.Types.{Integer, Ptr};
ghost use Rattle.typing_rules.specs.CodeAnswers.{RulesAs};
ghost use Rattle.typing_rules.specs.CodeForm.{form_type};
ghost use Rattle.typing_rules.specs.CodeOperand.{pair_of, balanced_of};
ghost use Rattle.typing_rules.specs.Operators as operators;
ghost use Rattle.c_lang.specs.Typed as C;
ghost use Rattle.c_lang.specs.CodeTyped as view;
ghost use Rattle.c_lang.specs.CodeTyped.{expr_of};

use crate::constants::is_null;
use crate::fault::TypeKind;
use crate::operands::type_of;
use crate::rulings::{Refusal, refuse};
use crate::types::{Form, formed, is_integer, is_scalar};
use c_grammar::BinaryOperator;
use c_integers::{promoted, usual};
use c_lang::tree::{Arithmetic, Bitwise, Direction, Equality, Expr, Relation, Sign};
use c_values::{CType, IntType, Layout, copy_of, is_object};
use std::alloc::{AllocError, Global};

/// An expression at an integer type. A conversion stands only where the type is another.
pub fn to_integer(alloc: Global, ty: IntType, e: Expr) -> Result<Expr, AllocError>
    ensures { IfOk result (λ r. expr_of r ≡ operators.to_integer (int_type_of ty) (expr_of e)) }
{
    if is_of(ty, type_of(&e)) {
        Ok(e)
    } else {
        Ok(Expr::Convert(CType::Int(ty), Box::new(alloc, e)?))
    }
}

fn is_of(ty: IntType, form: Form<'_>) -> bool
    ensures { result ≡ operators.is_of (int_type_of ty) (form_type form.entry) }
{
    match form {
        Form::Integer(other) => ty == other,
        Form::Void | Form::Pointer(_) | Form::Struct(_) | Form::Array(_, _) => false,
    }
}

// A pointer at the type of those to void.
fn to_void_pointer(alloc: Global, e: Expr) -> Result<Expr, AllocError>
    ensures { IfOk result (λ r. expr_of r ≡ operators.to_void (expr_of e)) }
{
    if is_void_pointer(type_of(&e)) {
        Ok(e)
    } else {
        let ty = CType::Ptr(Box::new(alloc, CType::Void)?);
        Ok(Expr::Convert(ty, Box::new(alloc, e)?))
    }
}

/// Whether a type is `void`.
pub fn is_void(t: &CType) -> bool
    ensures { result ≡ operators.is_void (type_of t.now) }
{
    matches!(t, CType::Void)
}

/// Whether a type is the pointer to void.
pub fn is_void_pointer(form: Form<'_>) -> bool
    ensures { result ≡ operators.is_void_pointer (form_type form.entry) }
{
    match form {
        Form::Pointer(inner) => is_void(inner),
        Form::Integer(_) | Form::Void | Form::Struct(_) | Form::Array(_, _) => false,
    }
}

// Both operands of an integer operation at one type.
#[derive(Drop)]
struct Balanced {
    ty: IntType,
    left: Box<Expr>,
    right: Box<Expr>,
}

// Two integers at their common type.
fn balance(alloc: Global, l: &Layout, a: Expr, b: Expr) -> Result<Balanced, Refusal>
    ensures { RulesAs balanced_of result (operators.balance l.now.target (expr_of a) (expr_of b)) }
{
    match (integer_of(&a), integer_of(&b)) {
        (Some(i), Some(j)) => {
            let ty = usual(l.target(), i, j);
            let left = to_integer(alloc, ty, a)?;
            let right = to_integer(alloc, ty, b)?;
            Ok(Balanced {
                ty,
                left: Box::new(alloc, left)?,
                right: Box::new(alloc, right)?,
            })
        }
        _ => Err(Refusal::Kind(TypeKind::Mismatch)),
    }
}

// The type of an integer.
fn integer_of(e: &Expr) -> Option<IntType>
    ensures { option_map int_type_of result ≡ operators.integer_in (C.type_of (expr_of e.now)) }
{
    match type_of(e) {
        Form::Integer(ty) => Some(ty),
        Form::Void | Form::Pointer(_) | Form::Struct(_) | Form::Array(_, _) => None,
    }
}

fn computed(alloc: Global, l: &Layout, op: Arithmetic, a: Expr, b: Expr) -> Result<Expr, Refusal>
    ensures { RulesAs expr_of result
        (operators.balanced l.now.target (C.Compute (view.arithmetic_of op)) (expr_of a)
        (expr_of b)) }
{
    let both = balance(alloc, l, a, b)?;
    Ok(Expr::Compute(op, both.ty, both.left, both.right))
}

fn combined(alloc: Global, l: &Layout, op: Bitwise, a: Expr, b: Expr) -> Result<Expr, Refusal>
    ensures { RulesAs expr_of result
        (operators.balanced l.now.target (C.Combine (view.bitwise_of op)) (expr_of a) (expr_of b)) }
{
    let both = balance(alloc, l, a, b)?;
    Ok(Expr::Combine(op, both.ty, both.left, both.right))
}

fn compared(alloc: Global, l: &Layout, op: Relation, a: Expr, b: Expr) -> Result<Expr, Refusal>
    ensures { RulesAs expr_of result
        (operators.balanced l.now.target (C.Compare (view.relation_of op)) (expr_of a)
        (expr_of b)) }
{
    let both = balance(alloc, l, a, b)?;
    Ok(Expr::Compare(op, both.ty, both.left, both.right))
}

// Each operand at its promoted type.
fn shifted(alloc: Global, direction: Direction, a: Expr, b: Expr) -> Result<Expr, Refusal>
    ensures { RulesAs expr_of result (operators.shifted (view.direction_of direction) (expr_of a)
        (expr_of b)) }
{
    match (integer_of(&a), integer_of(&b)) {
        (Some(i), Some(j)) => {
            let left = to_integer(alloc, promoted(i), a)?;
            let right = to_integer(alloc, promoted(j), b)?;
            Ok(Expr::Shift(
                direction,
                promoted(i),
                Box::new(alloc, left)?,
                Box::new(alloc, right)?,
            ))
        }
        _ => Err(Refusal::Kind(TypeKind::Mismatch)),
    }
}

// Whether a type is a pointer to no object.
fn is_pointer_to_none(l: &Layout, form: Form<'_>) -> bool
    ensures { result ≡ operators.is_pointer_to_none l.now (form_type form.entry) }
{
    match form {
        Form::Pointer(inner) => !is_object(l, inner),
        Form::Integer(_) | Form::Void | Form::Struct(_) | Form::Array(_, _) => false,
    }
}

// `+` also takes a pointer on either side, with an integer.
fn added(alloc: Global, l: &Layout, a: Expr, b: Expr) -> Result<Expr, Refusal>
    ensures { RulesAs expr_of result (operators.added l.now (expr_of a) (expr_of b)) }
{
    refuse(
        is_pointer_to_none(l, type_of(&a)) || is_pointer_to_none(l, type_of(&b)),
        TypeKind::Incomplete,
    )?;
    match pointed_to(alloc, &a, &b)? {
        Some(inner) => Ok(moved(alloc, Sign::Plus, inner, a, b)?),
        None => added_on_the_right(alloc, l, a, b),
    }
}

// A pointer on the right, or two integers.
fn added_on_the_right(alloc: Global, l: &Layout, a: Expr, b: Expr) -> Result<Expr, Refusal>
    ensures { RulesAs expr_of result (operators.adds l.now (expr_of a) (expr_of b) None
        (operators.pointed_in (C.type_of (expr_of b)) (C.type_of (expr_of a)))) }
{
    match pointed_to(alloc, &b, &a)? {
        Some(inner) => {
            let a = Box::new(alloc, a)?;
            let b = Box::new(alloc, b)?;
            Ok(Expr::MoveBy(inner, a, b))
        }
        None => computed(alloc, l, Arithmetic::Add, a, b),
    }
}

// `-` also takes a pointer on the left, with an integer.
fn subtracted(alloc: Global, l: &Layout, a: Expr, b: Expr) -> Result<Expr, Refusal>
    ensures { RulesAs expr_of result (operators.subtracted l.now (expr_of a) (expr_of b)) }
{
    refuse(is_pointer_to_none(l, type_of(&a)), TypeKind::Incomplete)?;
    match pointed_to(alloc, &a, &b)? {
        Some(inner) => Ok(moved(alloc, Sign::Minus, inner, a, b)?),
        None => computed(alloc, l, Arithmetic::Subtract, a, b),
    }
}

// A pointer to a type, moved by an integer.
fn moved(
    alloc: Global,
    sign: Sign,
    inner: CType,
    pointer: Expr,
    by: Expr,
) -> Result<Expr, AllocError>
    ensures { IfOk result
        (λ r. expr_of r ≡ C.Move (view.sign_of sign) (type_of inner) (expr_of pointer)
        (expr_of by)) }
{
    let pointer = Box::new(alloc, pointer)?;
    let by = Box::new(alloc, by)?;
    Ok(Expr::Move(sign, inner, pointer, by))
}

// The type that a pointer points to, where the other operand is an integer.
fn pointed_to(alloc: Global, e: &Expr, other: &Expr) -> Result<Option<CType>, AllocError>
    ensures { IfOk result (λ found. option_map type_of found
        ≡ operators.pointed_in (C.type_of (expr_of e.now)) (C.type_of (expr_of other.now))) }
{
    match type_of(e) {
        Form::Pointer(inner) => {
            if is_integer(type_of(other)) {
                Ok(Some(copy_of(alloc, inner)?))
            } else {
                Ok(None)
            }
        }
        Form::Integer(_) | Form::Void | Form::Struct(_) | Form::Array(_, _) => Ok(None),
    }
}

// Two operands at one type.
#[derive(Drop)]
struct Pair {
    ty: CType,
    left: Box<Expr>,
    right: Box<Expr>,
}

// Integers at their common type, or two pointers.
fn paired(alloc: Global, l: &Layout, a: Expr, b: Expr) -> Result<Pair, Refusal>
    ensures { RulesAs pair_of result (operators.paired l.now (expr_of a) (expr_of b)) }
{
    match meeting_of(l, &a, &b) {
        Meeting::Integers => {
            let both = balance(alloc, l, a, b)?;
            Ok(Pair {
                ty: CType::Int(both.ty),
                left: both.left,
                right: both.right,
            })
        }
        Meeting::Same => {
            let ty = formed(alloc, type_of(&a))?;
            Ok(at_type(alloc, ty, a, b)?)
        }
        Meeting::LeftNull => {
            let ty = formed(alloc, type_of(&b))?;
            let a = null(alloc, type_of(&b), a)?;
            Ok(at_type(alloc, ty, a, b)?)
        }
        Meeting::RightNull => {
            let ty = formed(alloc, type_of(&a))?;
            let b = null(alloc, type_of(&a), b)?;
            Ok(at_type(alloc, ty, a, b)?)
        }
        Meeting::AtVoid => {
            let ty = CType::Ptr(Box::new(alloc, CType::Void)?);
            let a = to_void_pointer(alloc, a)?;
            let b = to_void_pointer(alloc, b)?;
            Ok(at_type(alloc, ty, a, b)?)
        }
        Meeting::Nowhere => Err(Refusal::Kind(TypeKind::Mismatch)),
    }
}

/// At which type two operands meet.
#[derive(Clone, Copy, Debug)]
pub enum Meeting {
    Integers,
    // at the type of both
    Same,
    // the left one is a null pointer constant
    LeftNull,
    RightNull,
    // at a pointer to void
    AtVoid,
    Nowhere,
}

fn meeting_of(l: &Layout, a: &Expr, b: &Expr) -> Meeting
    ensures { result ≡ operators.meeting l.now (expr_of a.now) (expr_of b.now) }
{
    match type_of(a) {
        Form::Integer(_) => match type_of(b) {
            Form::Integer(_) => Meeting::Integers,
            Form::Pointer(_) if is_null(l, a) => Meeting::LeftNull,
            _ => Meeting::Nowhere,
        },
        Form::Pointer(t) => match type_of(b) {
            Form::Integer(_) if is_null(l, b) => Meeting::RightNull,
            Form::Pointer(u) => pointers_meeting(l, a, b, t, u),
            _ => Meeting::Nowhere,
        },
        Form::Void | Form::Struct(_) | Form::Array(_, _) => Meeting::Nowhere,
    }
}

// Two pointers of one type, a pointer and a null pointer constant, or a pointer and one to void.
fn pointers_meeting(l: &Layout, a: &Expr, b: &Expr, t: &CType, u: &CType) -> Meeting
    ensures { result ≡ operators.pointers_meet l.now (expr_of a.now) (expr_of b.now) (type_of t.now)
        (type_of u.now) }
{
    if t == u {
        Meeting::Same
    } else if is_null(l, a) {
        Meeting::LeftNull
    } else if is_null(l, b) {
        Meeting::RightNull
    } else if is_void(t) || is_void(u) {
        Meeting::AtVoid
    } else {
        Meeting::Nowhere
    }
}

// A null pointer constant at a pointer's type.
fn null(alloc: Global, to: Form<'_>, e: Expr) -> Result<Expr, AllocError>
    ensures { IfOk result (λ r. expr_of r ≡ C.ConvertNull (form_type to.entry) (expr_of e)) }
{
    let ty = formed(alloc, to)?;
    Ok(Expr::ConvertNull(ty, Box::new(alloc, e)?))
}

fn at_type(alloc: Global, ty: CType, left: Expr, right: Expr) -> Result<Pair, AllocError>
    ensures { IfOk result
        (λ p. pair_of p
        ≡ record { type = type_of ty; left = expr_of left; right = expr_of right }) }
{
    Ok(Pair {
        ty,
        left: Box::new(alloc, left)?,
        right: Box::new(alloc, right)?,
    })
}

fn equated(alloc: Global, l: &Layout, op: Equality, a: Expr, b: Expr) -> Result<Expr, Refusal>
    ensures { RulesAs expr_of result
        (operators.equated l.now (view.equality_of op) (expr_of a) (expr_of b)) }
{
    let both = paired(alloc, l, a, b)?;
    Ok(Expr::Equate(op, both.ty, both.left, both.right))
}

// Two scalars.
fn scalars(alloc: Global, a: Expr, b: Expr) -> Result<(Box<Expr>, Box<Expr>), Refusal>
    ensures { RulesAs (λ p. (expr_of p.0.value, expr_of p.1.value)) result
        (operators.scalars (expr_of a) (expr_of b)) }
{
    refuse(!is_scalar(type_of(&a)), TypeKind::Mismatch)?;
    refuse(!is_scalar(type_of(&b)), TypeKind::Mismatch)?;
    Ok((Box::new(alloc, a)?, Box::new(alloc, b)?))
}

/// An operator between its operands, also that of a compound assignment.
pub fn binary(
    alloc: Global,
    l: &Layout,
    op: BinaryOperator,
    a: Expr,
    b: Expr,
) -> Result<Expr, Refusal>
    ensures { RulesAs expr_of result (operators.binary l.now op (expr_of a) (expr_of b)) }
{
    match op {
        BinaryOperator::Multiply => computed(alloc, l, Arithmetic::Multiply, a, b),
        BinaryOperator::Divide => computed(alloc, l, Arithmetic::Divide, a, b),
        BinaryOperator::Remainder => computed(alloc, l, Arithmetic::Remainder, a, b),
        BinaryOperator::Add => added(alloc, l, a, b),
        BinaryOperator::Subtract => subtracted(alloc, l, a, b),
        BinaryOperator::ShiftLeft => shifted(alloc, Direction::Left, a, b),
        BinaryOperator::ShiftRight => shifted(alloc, Direction::Right, a, b),
        BinaryOperator::And => combined(alloc, l, Bitwise::BitAnd, a, b),
        BinaryOperator::ExclusiveOr => combined(alloc, l, Bitwise::BitXor, a, b),
        BinaryOperator::Or => combined(alloc, l, Bitwise::BitOr, a, b),
        BinaryOperator::Less => compared(alloc, l, Relation::Less, a, b),
        BinaryOperator::Greater => compared(alloc, l, Relation::Greater, a, b),
        BinaryOperator::LessEqual => compared(alloc, l, Relation::LessEqual, a, b),
        BinaryOperator::GreaterEqual => compared(alloc, l, Relation::GreaterEqual, a, b),
        BinaryOperator::Equal => equated(alloc, l, Equality::Equal, a, b),
        BinaryOperator::NotEqual => equated(alloc, l, Equality::NotEqual, a, b),
        BinaryOperator::LogicalAnd => {
            let (a, b) = scalars(alloc, a, b)?;
            Ok(Expr::And(a, b))
        }
        BinaryOperator::LogicalOr => {
            let (a, b) = scalars(alloc, a, b)?;
            Ok(Expr::Or(a, b))
        }
    }
}

/// `c ? a : b`
pub fn chosen(alloc: Global, l: &Layout, c: Expr, a: Expr, b: Expr) -> Result<Expr, Refusal>
    ensures { RulesAs expr_of result (operators.chosen l.now (expr_of c) (expr_of a) (expr_of b)) }
{
    refuse(!is_scalar(type_of(&c)), TypeKind::Mismatch)?;
    let c = Box::new(alloc, c)?;
    let both = paired(alloc, l, a, b)?;
    Ok(Expr::Choose(both.ty, c, both.left, both.right))
}

/// `-a`
pub fn negated(alloc: Global, a: Expr) -> Result<Expr, Refusal>
    ensures { RulesAs expr_of result (operators.promoting C.Negate (expr_of a)) }
{
    let (ty, a) = promoting(alloc, a)?;
    Ok(Expr::Negate(ty, a))
}

/// `~a`
pub fn complemented(alloc: Global, a: Expr) -> Result<Expr, Refusal>
    ensures { RulesAs expr_of result (operators.promoting C.Complement (expr_of a)) }
{
    let (ty, a) = promoting(alloc, a)?;
    Ok(Expr::Complement(ty, a))
}

/// `+a`
pub fn kept(alloc: Global, a: Expr) -> Result<Expr, Refusal>
    ensures { RulesAs expr_of result (operators.promoting
        (λ i e. C.Convert (Integer i) e) (expr_of a)) }
{
    let (ty, a) = promoting(alloc, a)?;
    Ok(Expr::Convert(CType::Int(ty), a))
}

/// `!a`
pub fn inverted(alloc: Global, a: Expr) -> Result<Expr, Refusal>
    ensures { RulesAs expr_of result (operators.with_scalar (expr_of a) (C.Not (expr_of a))) }
{
    refuse(!is_scalar(type_of(&a)), TypeKind::Mismatch)?;
    Ok(Expr::Not(Box::new(alloc, a)?))
}

// An integer at its promoted type.
fn promoting(alloc: Global, a: Expr) -> Result<(IntType, Box<Expr>), Refusal>
    ensures { RulesAs (λ p. (int_type_of p.0, expr_of p.1.value)) result
        (operators.promotion (expr_of a)) }
{
    match integer_of(&a) {
        Some(i) => {
            let a = to_integer(alloc, promoted(i), a)?;
            Ok((promoted(i), Box::new(alloc, a)?))
        }
        None => Err(Refusal::Kind(TypeKind::Mismatch)),
    }
}

/// An expression at a type, as by assignment.
pub fn converted(alloc: Global, l: &Layout, to: Form<'_>, e: Expr) -> Result<Expr, Refusal>
    ensures { RulesAs expr_of result (operators.converted l.now (form_type to.entry) (expr_of e)) }
{
    match to {
        Form::Integer(i) => {
            refuse(!is_integer(type_of(&e)), TypeKind::Mismatch)?;
            Ok(to_integer(alloc, i, e)?)
        }
        Form::Pointer(inner) => to_pointer(alloc, l, inner, e),
        Form::Struct(name) => {
            refuse(!is_struct(name, type_of(&e)), TypeKind::Mismatch)?;
            Ok(e)
        }
        Form::Void | Form::Array(_, _) => Err(Refusal::Kind(TypeKind::Mismatch)),
    }
}

fn is_struct(name: &str, form: Form<'_>) -> bool
    ensures { result ≡ operators.is_struct name.now (form_type form.entry) }
{
    match form {
        Form::Struct(other) => name == other,
        Form::Integer(_) | Form::Void | Form::Pointer(_) | Form::Array(_, _) => false,
    }
}

// An expression at a pointer type, as by assignment.
fn to_pointer(alloc: Global, l: &Layout, inner: &CType, e: Expr) -> Result<Expr, Refusal>
    ensures { RulesAs expr_of result
        (operators.converted l.now (Ptr (type_of inner.now)) (expr_of e)) }
{
    match arrival_of(l, inner, &e) {
        Arrival::Same => Ok(e),
        Arrival::Null => Ok(null(alloc, Form::Pointer(inner), e)?),
        Arrival::Void => {
            let ty = formed(alloc, Form::Pointer(inner))?;
            Ok(Expr::Convert(ty, Box::new(alloc, e)?))
        }
        Arrival::None => Err(Refusal::Kind(TypeKind::Mismatch)),
    }
}

/// How an expression comes to a pointer type.
#[derive(Clone, Copy, Debug)]
pub enum Arrival {
    Same,
    Null,
    // one of the two is a pointer to void
    Void,
    None,
}

fn arrival_of(l: &Layout, inner: &CType, e: &Expr) -> Arrival
    ensures { result ≡ operators.arrives_from l.now (type_of inner.now) (expr_of e.now)
        (C.type_of (expr_of e.now)) }
{
    match type_of(e) {
        Form::Pointer(other) => {
            if inner == other {
                Arrival::Same
            } else if is_null(l, e) {
                Arrival::Null
            } else if is_void(inner) || is_void(other) {
                Arrival::Void
            } else {
                Arrival::None
            }
        }
        Form::Integer(_) if is_null(l, e) => Arrival::Null,
        _ => Arrival::None,
    }
}

/// A cast, between scalars. It stands also where the type is there already.
pub fn cast(alloc: Global, l: &Layout, to: CType, e: Expr) -> Result<Expr, Refusal>
    ensures { RulesAs expr_of result (operators.cast l.now (type_of to) (expr_of e)) }
{
    match &to {
        CType::Int(_) => {
            refuse(!is_scalar(type_of(&e)), TypeKind::Mismatch)?;
            Ok(Expr::Convert(to, Box::new(alloc, e)?))
        }
        CType::Ptr(_) => {
            refuse(!is_scalar(type_of(&e)), TypeKind::Mismatch)?;
            if is_null(l, &e) {
                Ok(Expr::ConvertNull(to, Box::new(alloc, e)?))
            } else {
                Ok(Expr::Convert(to, Box::new(alloc, e)?))
            }
        }
        CType::Void | CType::Struct(_) | CType::Array(_, _) => {
            Err(Refusal::Kind(TypeKind::Mismatch))
        }
    }
}
