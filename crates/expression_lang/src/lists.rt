//! Lists of expressions and of names that are compared and copied.

ghost use Rattle.std.specs.Prelude.{◌≡◌, ◌↔◌, IsTrue, IfOk, map, string_bytes};
ghost use Rattle.expression_lang.specs.CodeExpression.{exp_of};

use crate::expression::Exp;
use std::alloc::{AllocError, Global};

/// Whether two lists have the same expressions.
#[tactic(auto, using(crate::proofs::SameLists::maps_end, crate::proofs::SameLists::maps_go_on))]
pub fn same_exps(exps: &[Exp], others: &[Exp]) -> bool
    ensures { IsTrue result ↔ (map exp_of exps.now ≡ map exp_of others.now) }
{
    let mut left = exps;
    let mut right = others;
    'along: while let Some((first, rest)) = left.split_first() {
        let Some((other, other_rest)) = right.split_first() else {
            return false;
        };
        if !first.same(other) {
            return false;
        }
        left = rest;
        right = other_rest;
    }
    right.is_empty()
}

/// Copies of expressions.
pub fn copy_exps(alloc: Global, exps: &[Exp]) -> Result<Vec<Exp>, AllocError>
    ensures { IfOk result (λ copies. map exp_of copies.items ≡ map exp_of exps.now) }
{
    let mut copies = Vec::new(alloc);
    for exp in exps {
        copies.push(exp.copy(alloc)?)?;
    }
    Ok(copies)
}

/// Whether two lists have the same names.
#[tactic(auto, using(crate::proofs::SameLists::maps_end, crate::proofs::SameLists::maps_go_on))]
pub fn same_names(names: &[String], others: &[String]) -> bool
    ensures { IsTrue result ↔ (map string_bytes names.now ≡ map string_bytes others.now) }
{
    let mut left = names;
    let mut right = others;
    'along: while let Some((first, rest)) = left.split_first() {
        let Some((other, other_rest)) = right.split_first() else {
            return false;
        };
        if first.as_str() != other.as_str() {
            return false;
        }
        left = rest;
        right = other_rest;
    }
    right.is_empty()
}

/// Copies of names.
pub fn copy_names(alloc: Global, names: &[String]) -> Result<Vec<String>, AllocError>
    ensures { IfOk result (λ copies.
        map string_bytes copies.items ≡ map string_bytes names.now) }
{
    let mut copies = Vec::new(alloc);
    for name in names {
        copies.push(name.clone()?)?;
    }
    Ok(copies)
}
