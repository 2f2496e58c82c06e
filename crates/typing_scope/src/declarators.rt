//! Declarators: their types, and what can be wrong with these.

ghost use Rattle.std.specs.Prelude.{◌≡◌, IfOk};
ghost use Rattle.c_values.specs.CodeTypes.{type_of};
ghost use Rattle.typing_rules.specs.Declarations as declarations;
ghost use Rattle.typing_rules.specs.Expressions as expressions;

use c_values::{CType, Layout, Number, copy_of, is_object};
use std::alloc::{AllocError, Global};
use typing_rules::specifiers::pointers;
use typing_rules::types::{element_of, is_array};

/// A declarator's offset, name and type.
#[derive(Debug, Drop)]
pub struct Declared {
    pub at: usize,
    pub name: String,
    pub ty: CType,
}

/// A declarator begins with its first star, or its name.
pub fn declarator_start(stars: &[usize], at: usize) -> usize
    ensures { result ≡ expressions.declarator_start stars.now at }
{
    match stars.first() {
        Some(star) => *star,
        None => at,
    }
}

/// A declarator's type: the stars around the base type, and the arrays around that, whose lengths stand from the outermost.
#[tactic(auto, using(typing_rules::proofs::Lengths::arrays_last))]
pub fn declared_type(
    alloc: Global,
    base: &CType,
    stars: usize,
    lengths: &[u32],
) -> Result<CType, AllocError>
    ensures { IfOk result
        (λ t. type_of t
        ≡ declarations.arrays lengths.now (declarations.pointers stars (type_of base.now))) }
{
    let base = copy_of(alloc, base)?;
    let mut ty = pointers(alloc, stars, base)?;
    let mut outer = lengths;
    while let Some((length, rest)) = outer.split_last() {
        ty = CType::Array(Box::new(alloc, ty)?, *length);
        outer = rest;
    }
    Ok(ty)
}

/// An array's length. One outside 1 to 4,096 is 0, and no object has it.
pub fn length_at(n: Number) -> u32
    ensures { result ≡ declarations.length_at n }
{
    if n.negative() || n.magnitude() > 4096 {
        0
    } else {
        n.magnitude() as u32
    }
}

/// Whether it is `void` or a struct without a body, or an array of such.
pub fn is_incomplete(l: &Layout, t: &CType) -> bool
    ensures { result ≡ declarations.is_incomplete l.now (type_of t.now) }
{
    !is_object(l, element_of(t))
}

/// Whether it is an array of what is incomplete.
pub fn has_incomplete_elements(l: &Layout, t: &CType) -> bool
    ensures { result ≡ declarations.has_incomplete_elements l.now (type_of t.now) }
{
    is_array(t) && is_incomplete(l, t)
}

/// Whether it is an array with a length outside 1 to 4,096, or of more than 65,536 bytes.
pub fn is_large(l: &Layout, t: &CType) -> bool
    ensures { result ≡ declarations.is_large l.now (type_of t.now) }
{
    is_array(t) && !is_object(l, t)
}
