//! Places by pointers, elements and members, and the addresses of places.

ghost use Rattle.std.specs.Prelude.{◌≡◌, IfOk};
ghost use Rattle.std.specs.Option.{option_map};
ghost use Rattle.c_values.specs.CodeTypes.{type_of};
ghost use Rattle.c_values.specs.CodeLayout.{struct_def_of};
ghost use Rattle.typing_rules.specs.CodeAnswers.{RulesAs};
ghost use Rattle.typing_rules.specs.CodeForm.{form_type};
ghost use Rattle.typing_rules.specs.CodeOperand.{operand_of};
ghost use Rattle.typing_nodes.specs.CodeTail.{tail_of};
ghost use Rattle.typing_rules.specs.Expressions as expressions;
ghost use Rattle.c_lang.specs.Typed as C;
ghost use Rattle.c_lang.specs.CodeTyped.{expr_of, place_of, path_of};

use c_lang::tree::{Expr, Path, Place, Sign, place_type};
use c_values::{CType, Layout, StructDef, copy_of, is_object};
use std::alloc::{AllocError, Global};
use typing_rules::fault::TypeKind;
use typing_rules::operands::{Operand, place_then, type_of, value_in};
use typing_rules::rulings::{Refusal, refuse};
use typing_rules::types::{Form, formed, is_array, is_integer};

/// What a pointer points to.
pub(crate) fn followed(alloc: Global, l: &Layout, pointer: Expr) -> Result<Place, Refusal>
    ensures { RulesAs place_of result
        (expressions.followed l.now (expr_of pointer) (C.type_of (expr_of pointer))) }
{
    let target = target_of(alloc, l, type_of(&pointer))?;
    Ok(root(alloc, target, pointer)?)
}

// The object that a pointer type points to.
fn target_of(alloc: Global, l: &Layout, form: Form<'_>) -> Result<CType, Refusal>
    ensures { RulesAs type_of result (expressions.target l.now (form_type form.entry)) }
{
    match form {
        Form::Pointer(inner) => {
            refuse(!is_object(l, inner), TypeKind::Incomplete)?;
            Ok(copy_of(alloc, inner)?)
        }
        Form::Integer(_) | Form::Void | Form::Struct(_) | Form::Array(_, _) => {
            Err(Refusal::Kind(TypeKind::Mismatch))
        }
    }
}

// The whole of what a pointer points to, of a type.
fn root(alloc: Global, ty: CType, pointer: Expr) -> Result<Place, AllocError>
    ensures { IfOk result
        (λ p. place_of p ≡ C.Through (type_of ty) (expr_of pointer) C.Here (type_of ty)) }
{
    let same = copy_of(alloc, &ty)?;
    let pointer = Box::new(alloc, pointer)?;
    let path = Box::new(alloc, Path::Here)?;
    Ok(Place::Through(ty, pointer, path, same))
}

/// `a[i]`: an element of an array place, or `*(a + i)`.
pub(crate) fn indexed(alloc: Global, l: &Layout, a: Operand, index: Expr) -> Result<Place, Refusal>
    ensures { RulesAs place_of result (expressions.indexed l.now (operand_of a) (expr_of index)) }
{
    match a {
        Operand::At(place) => match array_of(alloc, place_type(&place))? {
            Some((element, length)) => element_at(alloc, place, index, element, length),
            None => stepped(alloc, l, value_in(alloc, Operand::At(place))?, index),
        },
        Operand::Valued(_) | Operand::Variable(_, _) => stepped(
            alloc,
            l,
            value_in(alloc, a)?,
            index,
        ),
    }
}

// An element of an array place.
fn element_at(
    alloc: Global,
    place: Place,
    index: Expr,
    element: CType,
    length: u32,
) -> Result<Place, Refusal>
    ensures { RulesAs place_of result
        (expressions.element_at (place_of place) (expr_of index) (type_of element) length) }
{
    refuse(!is_integer(type_of(&index)), TypeKind::Mismatch)?;
    let index = Box::new(alloc, index)?;
    let here = Box::new(alloc, Path::Here)?;
    Ok(place_then(alloc, place, Path::Element(length, index, here), element)?)
}

// The type of an array's elements, and its length.
fn array_of(alloc: Global, t: &CType) -> Result<Option<(CType, u32)>, AllocError>
    ensures { IfOk result
        (λ found. option_map (λ p. (type_of p.0, p.1)) found
        ≡ expressions.array_of (type_of t.now)) }
{
    match t {
        CType::Array(element, length) => Ok(Some((copy_of(alloc, &**element)?, *length))),
        CType::Int(_) | CType::Void | CType::Ptr(_) | CType::Struct(_) => Ok(None),
    }
}

// `*(p + i)`
fn stepped(alloc: Global, l: &Layout, pointer: Expr, index: Expr) -> Result<Place, Refusal>
    ensures { RulesAs place_of result (expressions.stepped l.now (expr_of pointer) (expr_of index)
        (C.type_of (expr_of pointer))) }
{
    let target = target_of(alloc, l, type_of(&pointer))?;
    refuse(!is_integer(type_of(&index)), TypeKind::Mismatch)?;
    let same = copy_of(alloc, &target)?;
    let pointer = Box::new(alloc, pointer)?;
    let index = Box::new(alloc, index)?;
    Ok(root(alloc, target, Expr::Move(Sign::Plus, same, pointer, index))?)
}

/// A member of a struct that lies at a place.
pub(crate) fn member_in(
    alloc: Global,
    l: &Layout,
    name: &str,
    place: Place,
) -> Result<Place, Refusal>
    ensures { RulesAs place_of result (expressions.member_in l.now name.now (place_of place)) }
{
    let (k, ty) = member_of(alloc, l, name, place_type(&place))?;
    let here = Box::new(alloc, Path::Here)?;
    Ok(place_then(alloc, place, Path::Member(k, here), ty)?)
}

// The number of a struct's member, and its type.
fn member_of(alloc: Global, l: &Layout, name: &str, t: &CType) -> Result<(u32, CType), Refusal>
    ensures { RulesAs (λ m. (m.0, type_of m.1)) result
        (expressions.member_of l.now name.now (type_of t.now)) }
{
    match t {
        CType::Struct(tag) => match l.definition(tag.as_str()) {
            Some(definition) => member_at(alloc, definition, name),
            None => Err(Refusal::Kind(TypeKind::Unknown)),
        },
        CType::Int(_) | CType::Void | CType::Ptr(_) | CType::Array(_, _) => {
            Err(Refusal::Kind(TypeKind::Mismatch))
        }
    }
}

// The first member of a name. More members than there are numbers for have no room.
#[tactic(auto, using(crate::proofs::MembersLeft::found_here, crate::proofs::MembersLeft::found_further, crate::proofs::MembersLeft::found_nowhere))]
fn member_at(alloc: Global, definition: &StructDef, name: &str) -> Result<(u32, CType), Refusal>
    ensures { RulesAs (λ m. (m.0, type_of m.1)) result
        (expressions.member_among (struct_def_of definition.now).members name.now) }
{
    for (k, (member, ty)) in definition.members.iter().enumerate() {
        if member.as_str() == name {
            if k > u32::MAX as usize {
                return Err(Refusal::Memory);
            }
            return Ok((k as u32, copy_of(alloc, ty)?));
        }
    }
    Err(Refusal::Kind(TypeKind::Unknown))
}

/// A member of an operand, where it is a place.
pub(crate) fn member_of_operand(
    alloc: Global,
    l: &Layout,
    name: &str,
    operand: Operand,
) -> Result<Place, Refusal>
    ensures { RulesAs place_of result
        (expressions.member_of_operand l.now name.now (operand_of operand)) }
{
    match operand {
        Operand::At(place) => member_in(alloc, l, name, place),
        Operand::Valued(_) | Operand::Variable(_, _) => Err(Refusal::Kind(TypeKind::Mismatch)),
    }
}

/// `&`, of a place through a pointer alone.
pub(crate) fn addressed(alloc: Global, operand: Operand) -> Result<Expr, Refusal>
    ensures { RulesAs expr_of result (expressions.addressed (operand_of operand)) }
{
    match operand {
        Operand::Valued(_) => Err(Refusal::Kind(TypeKind::NotLvalue)),
        Operand::Variable(_, _) | Operand::At(Place::InGlobal(_, _, _)) => {
            Err(Refusal::Kind(TypeKind::OutOfSubset))
        }
        Operand::At(Place::Through(root, pointer, path, ty)) => {
            refuse(is_array(&ty), TypeKind::OutOfSubset)?;
            let tail = split(alloc, Box::into_inner(path))?;
            Ok(address(alloc, root, pointer, tail, ty)?)
        }
    }
}

// What a path ends with: nothing, a member, or an element behind the path before it.
enum Tail {
    Nothing,
    // the whole path
    Member(Path),
    Element(Path, u32, Box<Expr>),
}

fn split(alloc: Global, path: Path) -> Result<Tail, AllocError>
    ensures { IfOk result (λ t. tail_of t ≡ expressions.tail (path_of path)) }
{
    match path {
        Path::Here => Ok(Tail::Nothing),
        Path::Member(k, further) => match split(alloc, Box::into_inner(further))? {
            Tail::Nothing => {
                let here = Box::new(alloc, Path::Here)?;
                Ok(Tail::Member(Path::Member(k, here)))
            }
            Tail::Member(path) => Ok(Tail::Member(Path::Member(k, Box::new(alloc, path)?))),
            Tail::Element(path, n, i) => {
                let path = Path::Member(k, Box::new(alloc, path)?);
                Ok(Tail::Element(path, n, i))
            }
        },
        Path::Element(length, index, further) => match split(alloc, Box::into_inner(further))? {
            Tail::Nothing => Ok(Tail::Element(Path::Here, length, index)),
            Tail::Member(path) => {
                let path = Box::new(alloc, path)?;
                Ok(Tail::Member(Path::Element(length, index, path)))
            }
            Tail::Element(path, n, i) => {
                let path = Path::Element(length, index, Box::new(alloc, path)?);
                Ok(Tail::Element(path, n, i))
            }
        },
    }
}

// The address of a place: `&*p` is `p`, and `&a[i]` is `a + i`.
fn address(
    alloc: Global,
    root: CType,
    pointer: Box<Expr>,
    tail: Tail,
    ty: CType,
) -> Result<Expr, AllocError>
    ensures { IfOk result
        (λ e. expr_of e ≡ expressions.address (type_of root) (expr_of pointer.value) (type_of ty)
        (tail_of tail)) }
{
    match tail {
        Tail::Nothing => Ok(Box::into_inner(pointer)),
        Tail::Member(path) => {
            let same = copy_of(alloc, &ty)?;
            let path = Box::new(alloc, path)?;
            let place = Place::Through(root, pointer, path, ty);
            Ok(Expr::Address(Box::new(alloc, place)?, same))
        }
        Tail::Element(path, length, index) => {
            let array = formed(alloc, Form::Array(&ty, length))?;
            let same = copy_of(alloc, &ty)?;
            let path = Box::new(alloc, path)?;
            let place = Place::Through(root, pointer, path, array);
            let first = Expr::Decay(Box::new(alloc, place)?, same);
            Ok(Expr::Move(Sign::Plus, ty, Box::new(alloc, first)?, index))
        }
    }
}
