//! Places of typed heaps: what is covered, and what is in range.

ghost use Rattle.std.specs.Prelude.{◌≡◌, ◌↔◌, IsTrue, IfSome, IfNone};
ghost use Rattle.std.specs.Option.{option_map};
ghost use Rattle.c_values.specs.Path.{Field, step_spot};
ghost use Rattle.expression_lang.specs.CodeAlong.{shape_at};
ghost use Rattle.c_values.specs.Layout.{shape_of};
ghost use Rattle.c_values.specs.CodeTypes.{type_of};
ghost use Rattle.expression_lang.specs.Expression as plain;
ghost use Rattle.expression_lang.specs.CodeExpression.{exp_of, path_of};
ghost use Rattle.ac_expr.specs.Known.{IsKnown};
ghost use Rattle.rule_heap.specs.Table.{AreInRange, IsPlace};
ghost use Rattle.rule_heap.specs.CodeRule.{facts_at};

use crate::rule::Context;
use ac_expr::{Fact, known};
use c_values::{CType, Number};
use expression_lang::{Exp, Path};

/// Whether a place is known to be covered and its path to be in range.
pub(crate) fn is_place(t: &CType, p: &Exp, path: &Path, context: Context<'_>) -> bool
    ensures { IsTrue result
        ↔ IsPlace context.entry.layout.now (facts_at context.entry) (type_of t.now) (exp_of p.now)
        (path_of path.now) }
{
    is_covered(t, p, context) && are_in_range(path, t, context)
}

/// Whether a root is known to be covered.
pub(crate) fn is_covered(t: &CType, p: &Exp, context: Context<'_>) -> bool
    ensures { IsTrue result
        ↔ IsKnown (facts_at context.entry) (plain.Tagged (type_of t.now) (exp_of p.now)) }
{
    known(context.facts, &Fact::Tagged(t, p))
}

// The type of the elements of an array, where the index is known to be of one that is there.
#[tactic(auto, using(crate::proofs::RangeShapes::no_element))]
fn element<'a>(t: &'a CType, index: &Exp, context: Context<'_>) -> Option<&'a CType>
    ensures some { (path : plain.Path) → IfSome result (λ u.
        AreInRange (facts_at context.entry) path (shape_of context.entry.layout.now (type_of u.now))
        ↔ AreInRange (facts_at context.entry) (plain.IntoElement (exp_of index.now) path)
        (shape_of context.entry.layout.now (type_of t.now))) }
    ensures none { (path : plain.Path) → IfNone result
        (AreInRange (facts_at context.entry) (plain.IntoElement (exp_of index.now) path)
        (shape_of context.entry.layout.now (type_of t.now)) → ⊥) }
{
    match t {
        CType::Array(element, length) => {
            if *length == 0 {
                return None;
            }
            let low = Number::new(false, 0);
            let high = Number::new(false, u128::from(*length - 1));
            if known(context.facts, &Fact::Between(low, index, high)) {
                Some(&**element)
            } else {
                None
            }
        }
        CType::Struct(_) => None,
        CType::Int(_) | CType::Void | CType::Ptr(_) => None,
    }
}

// The type of a member.
fn member<'a>(t: &'a CType, k: u32, context: Context<'a>) -> Option<&'a CType>
    ensures { option_map (λ u. shape_of context.entry.layout.now (type_of u.now)) result
        ≡ shape_at (step_spot (shape_of context.entry.layout.now (type_of t.now)) (Field k)) }
{
    let CType::Struct(name) = t else {
        return None;
    };
    match context.layout.member(name.as_str(), k) {
        Some((_, ty)) => Some(ty),
        None => None,
    }
}

// Whether each member of a path into an object is there, and each index is known to be of an
// element that is. It goes along the path by a loop, since a type may nest deeply.
fn are_in_range(path: &Path, t: &CType, context: Context<'_>) -> bool
    ensures { IsTrue result ↔ AreInRange (facts_at context.entry) (path_of path.now)
        (shape_of context.entry.layout.now (type_of t.now)) }
{
    let mut rest = path;
    let mut whole = t;
    'steps: loop {
        match rest {
            Path::Here => return true,
            Path::Field(k, next) => {
                let Some(part) = member(whole, *k, context) else {
                    return false;
                };
                whole = part;
                rest = &**next;
            }
            Path::Index(index, next) => {
                let Some(part) = element(whole, index, context) else {
                    return false;
                };
                whole = part;
                rest = &**next;
            }
        }
    }
}
