//! Chains of steps: an expression that is a part of another one, step by step.

ghost use Rattle.std.specs.Prelude.{◌≡◌, ◌↔◌, [], ◌∷◌, IsTrue, IfNone, IfSome, None, Some};
ghost use Rattle.std.specs.Option.{option_map};
ghost use Rattle.expression_lang.specs.Expression as plain;
ghost use Rattle.expression_lang.specs.CodeExpression.{exp_of, path_of};
ghost use Rattle.ac_expr.specs.Heads.{path_children};
ghost use Rattle.assertion_walks.specs.CodeRebuilt.{out_of_field, out_of_element, index_in, peeled, indexes_in};
ghost use Rattle.assertion_walks.specs.Written.{part_of};

use ac_expr::Children;
use expression_lang::{Exp, Path};

// The whole of which an expression is this member.
fn out_of_field(k: u32, e: &Exp) -> Option<&Exp>
    ensures { option_map (λ whole. exp_of whole.now) result ≡ out_of_field k (Some (exp_of e.now)) }
{
    let Exp::Sel(whole, Path::Field(own, rest)) = e else {
        return None;
    };
    match &**rest {
        Path::Here if *own == k => Some(&**whole),
        _ => None,
    }
}

// The whole of which an expression is an element, and the index.
fn out_of_element(e: &Exp) -> Option<(&Exp, &Exp)>
    ensures some { IfSome result (λ (whole, index).
        (out_of_element (Some (exp_of e.now)) ≡ Some (exp_of whole.now))
        × (index_in (Some (exp_of e.now)) ≡ exp_of index.now ∷ [])) }
    ensures none { IfNone result ((out_of_element (Some (exp_of e.now)) ≡ None)
        × (index_in (Some (exp_of e.now)) ≡ [])) }
{
    let Exp::Sel(whole, Path::Index(index, rest)) = e else {
        return None;
    };
    match &**rest {
        Path::Here => Some((&**whole, &**index)),
        _ => None,
    }
}

/// That of which an expression is the part at a path, but for the path's indexes.
pub(crate) fn peeled<'a>(way: &Path, e: &'a Exp) -> Option<&'a Exp>
    ensures { option_map (λ whole. exp_of whole.now) result
        ≡ peeled (path_of way.now) (exp_of e.now) }
{
    match way {
        Path::Here => Some(e),
        Path::Field(k, rest) => match peeled(rest, e) {
            Some(part) => out_of_field(*k, part),
            None => None,
        },
        Path::Index(_, rest) => match peeled(rest, e) {
            Some(part) => match out_of_element(part) {
                Some((whole, _)) => Some(whole),
                None => None,
            },
            None => None,
        },
    }
}

/// The first index on the way, and the way behind it.
pub(crate) fn next_index<'a>(way: &'a Path, e: &'a Exp) -> Option<(&'a Exp, &'a Path)>
    ensures some { IfSome result (λ (index, rest). indexes_in (path_of way.now) (exp_of e.now)
        ≡ exp_of index.now ∷ indexes_in (path_of rest.now) (exp_of e.now)) }
    ensures none { IfNone result (indexes_in (path_of way.now) (exp_of e.now) ≡ []) }
{
    let mut rest = way;
    'steps: loop {
        match rest {
            Path::Here => return None,
            Path::Field(_, next) => rest = &**next,
            Path::Index(_, next) => {
                if let Some(part) = peeled(next, e) {
                    if let Some((_, index)) = out_of_element(part) {
                        return Some((index, &**next));
                    }
                }
                rest = &**next;
            }
        }
    }
}

// Whether the indexes on the way are those of the path.
fn has_its_indexes(way: &Path, e: &Exp) -> bool
    ensures { IsTrue result
        ↔ (indexes_in (path_of way.now) (exp_of e.now) ≡ path_children (path_of way.now)) }
{
    let mut ones = Children::Indexes(way);
    let mut rest = way;
    'along: loop {
        let Some((a, behind)) = ones.next() else {
            return next_index(rest, e).is_none();
        };
        let Some((b, next)) = next_index(rest, e) else {
            return false;
        };
        if !b.same(a) {
            return false;
        }
        ones = behind;
        rest = next;
    }
}

/// That of which an expression is the part at a path.
#[tactic(auto, using(crate::proofs::PeeledParts::part_exactly, crate::proofs::PeeledParts::never_part, crate::proofs::PeeledParts::other_indexes))]
pub(crate) fn whole_of<'a>(way: &Path, e: &'a Exp) -> Option<&'a Exp>
    ensures some { IfSome result (λ whole.
        exp_of e.now ≡ part_of (exp_of whole.now) (path_of way.now)) }
    ensures none { IfNone result ((whole : plain.Exp) →
        exp_of e.now ≡ part_of whole (path_of way.now) → ⊥) }
{
    match peeled(way, e) {
        Some(whole) => {
            if has_its_indexes(way, e) {
                Some(whole)
            } else {
                None
            }
        }
        None => None,
    }
}
