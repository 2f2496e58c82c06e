//! Lists of trees read as lists of expressions and of names.
ghost use Rattle.std.specs.Prelude.{◌≡◌, [], map, string_bytes};
ghost use Rattle.c_values.specs.Name.{is_among};
ghost use Rattle.ac_sx.specs.CodeSx.{tree_of, trees_in};
ghost use Rattle.expression_lang.specs.CodeExpression.{exp_of};
ghost use Rattle.expression_text.specs.Lists.{exps_at, new_name_at, named_at, names_at};
ghost use Rattle.expression_text.specs.CodeFault.{Gives};

use crate::exp_reading::exp_at;
use crate::fault::TextFault;
use crate::names::name_at;
use crate::numbering::next;
use ac_sx::Sx;
use expression_lang::{Exp, Named};
use std::alloc::Global;

/// The expressions that these trees are.
pub fn exps_at(alloc: Global, parts: &[Sx], at: u32) -> Result<(Vec<Exp>, u32), TextFault>
    ensures { Gives (λ exps. map exp_of exps.items) result (exps_at at (trees_in parts.now)) }
{
    let mut exps = Vec::new(alloc);
    let mut at = at;
    'parts: for part in parts {
        let (exp, behind) = exp_at(alloc, part, at)?;
        exps.push(exp)?;
        at = behind;
    }
    Ok((exps, at))
}

/// The name that a tree is, where none of those before it has this name.
pub fn new_name_at<T: Named>(
    alloc: Global,
    before: &[T],
    tree: &Sx,
    at: u32,
) -> Result<(String, u32), TextFault>
    ensures { Gives string_bytes result
        (new_name_at (map T.named before.now) at (tree_of tree.now)) }
{
    let (name, behind) = name_at(alloc, tree, at)?;
    if is_among(name.as_str(), before) {
        return Err(TextFault::Shape(at));
    }
    Ok((name, behind))
}

// Whether one of them has the name.
fn is_among<T: Named>(name: &str, items: &[T]) -> bool
    ensures { result ≡ is_among name.now (map T.named items.now) }
{
    'items: for item in items {
        if name == item.name() {
            return true;
        }
    }
    false
}

/// The names that a list is, no two the same.
pub fn names_at(alloc: Global, tree: &Sx, at: u32) -> Result<(Vec<String>, u32), TextFault>
    ensures { Gives (λ names. map string_bytes names.items) result
        (names_at at (tree_of tree.now)) }
{
    match tree.parts() {
        Some(parts) => new_names_at(alloc, parts, next(at)),
        None => Err(TextFault::Shape(at)),
    }
}

fn new_names_at(alloc: Global, parts: &[Sx], at: u32) -> Result<(Vec<String>, u32), TextFault>
    ensures { Gives (λ names. map string_bytes names.items) result
        (named_at (λ x. x) new_name_at [] at (trees_in parts.now)) }
{
    let mut names = Vec::new(alloc);
    let mut at = at;
    'parts: for part in parts {
        let (name, behind) = new_name_at(alloc, &names, part, at)?;
        names.push(name)?;
        at = behind;
    }
    Ok((names, at))
}
