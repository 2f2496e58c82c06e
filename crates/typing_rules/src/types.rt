//! Types: their outermost form, and what is in them. A text can nest types deeply, so each of these is a loop.

ghost use Rattle.std.specs.Prelude.{◌≡◌, IfOk};
ghost use Rattle.c_values.specs.Layout as layouts;
ghost use Rattle.typing_rules.specs.CodeForm.{form_type};
ghost use Rattle.typing_rules.specs.Declarations as declarations;
ghost use Rattle.typing_rules.specs.Operand as operand;
ghost use Rattle.typing_rules.specs.Operators as operators;
ghost use Rattle.c_values.specs.CodeTypes.{type_of};

use c_values::{CType, IntType, copy_of};
use std::alloc::{AllocError, Global};

/// The outermost form of a type.
#[derive(Clone, Copy)]
pub enum Form<'a> {
    Integer(IntType),
    Void,
    /// A pointer to the type.
    Pointer(&'a CType),
    Struct(&'a str),
    /// So many elements of the type.
    Array(&'a CType, u32),
}

/// The outermost form of a type.
pub fn form_of(t: &CType) -> Form<'_>
    ensures { form_type result ≡ type_of t.now }
{
    match t {
        CType::Int(integer) => Form::Integer(*integer),
        CType::Void => Form::Void,
        CType::Ptr(inner) => Form::Pointer(&**inner),
        CType::Struct(name) => Form::Struct(name.as_str()),
        CType::Array(inner, length) => Form::Array(&**inner, *length),
    }
}

/// A type of its own of this form.
pub fn formed(alloc: Global, form: Form<'_>) -> Result<CType, AllocError>
    ensures { IfOk result (λ t. type_of t ≡ form_type form.entry) }
{
    match form {
        Form::Integer(integer) => Ok(CType::Int(integer)),
        Form::Void => Ok(CType::Void),
        Form::Pointer(inner) => {
            let inner = copy_of(alloc, inner)?;
            Ok(CType::Ptr(Box::new(alloc, inner)?))
        }
        Form::Struct(name) => Ok(CType::Struct(String::from_str(alloc, name)?)),
        Form::Array(inner, length) => {
            let inner = copy_of(alloc, inner)?;
            Ok(CType::Array(Box::new(alloc, inner)?, length))
        }
    }
}

/// What the elements of an array are in the end.
pub fn element_of(t: &CType) -> &CType
    ensures { type_of result.now ≡ declarations.element (type_of t.now) }
{
    let mut element = t;
    while let CType::Array(inner, _) = element {
        element = &**inner;
    }
    element
}

/// Whether it is an array.
pub fn is_array(t: &CType) -> bool
    ensures { result ≡ operand.is_array (type_of t.now) }
{
    matches!(t, CType::Array(_, _))
}

/// Whether there is a pointer to an array in it.
pub fn points_to_array(t: &CType) -> bool
    ensures { result ≡ declarations.points_to_array (type_of t.now) }
{
    let mut outer = t;
    loop {
        match outer {
            CType::Ptr(inner) => {
                if is_array(&**inner) {
                    return true;
                }
                outer = &**inner;
            }
            CType::Array(inner, _) => outer = &**inner,
            CType::Int(_) | CType::Void | CType::Struct(_) => return false,
        }
    }
}

/// Whether it is a scalar.
pub fn is_scalar(t: Form<'_>) -> bool
    ensures { result ≡ layouts.is_scalar (form_type t.entry) }
{
    matches!(t, Form::Integer(_) | Form::Pointer(_))
}

/// Whether it is an integer.
pub fn is_integer(t: Form<'_>) -> bool
    ensures { result ≡ operators.is_integer (form_type t.entry) }
{
    matches!(t, Form::Integer(_))
}
