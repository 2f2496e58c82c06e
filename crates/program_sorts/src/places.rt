//! Places that commands write to.

ghost use Rattle.std.specs.Prelude.{◌≡◌};
ghost use Rattle.std.specs.Option.{option_map};
ghost use Rattle.c_values.specs.Layout.{shape_of};
ghost use Rattle.c_values.specs.CodeTypes.{type_of};
ghost use Rattle.expression_lang.specs.Sort.{sort_at};
ghost use Rattle.expression_lang.specs.Sorted.{program_sort, part_place, typed_place, global_place, fits_place};
ghost use Rattle.expression_lang.specs.CodeExpression.{exp_of, path_of};
ghost use Rattle.expression_lang.specs.CodeSort.{sort_value, scope_by};
ghost use Rattle.program_sorts.specs.CodeSorts.{HasCompleteParts};

use crate::expressions::program_sort;
use c_values::{CType, GlobalVar, Layout, address_width, is_object, width_of};
use expression_lang::parts::global;
use expression_lang::sort_rules::{are_same, is_root, is_word_of};
use expression_lang::{Exp, IsPartOfValue, Path, Scope, Sort, along};

/// Whether a value may go to a part of a global.
pub fn fits_global<N: Scope>(
    name: &str,
    path: &Path,
    value: &Exp,
    names: &N,
    l: &Layout,
    globals: &[GlobalVar],
) -> bool
    ensures { let g = scope_by l.now (N.scalars names.now) globals.now in
        let place = global_place g (g.globals name.now) (path_of path.now) in
        result ≡ fits_place place (program_sort g (exp_of value.now)) }
{
    match global(globals, name) {
        Some(t) => is_object(l, t) && fits_part_of(t, path, value, names, l, globals),
        None => false,
    }
}

/// Whether a value may go to a part of the object of a type at a pointer.
pub fn fits_object<N: Scope>(
    t: &CType,
    pointer: &Exp,
    path: &Path,
    value: &Exp,
    names: &N,
    l: &Layout,
    globals: &[GlobalVar],
) -> bool
    ensures { let g = scope_by l.now (N.scalars names.now) globals.now in
        let place = typed_place g (type_of t.now) (exp_of pointer.now) (path_of path.now) in
        result ≡ fits_place place (program_sort g (exp_of value.now)) }
{
    is_root(l, t, program_sort(pointer, names, l, globals))
        && fits_part_of(t, path, value, names, l, globals)
}

// Whether a value may go to a part of an object of a type.
fn fits_part_of<N: Scope>(
    t: &CType,
    path: &Path,
    value: &Exp,
    names: &N,
    l: &Layout,
    globals: &[GlobalVar],
) -> bool
    ensures { let g = scope_by l.now (N.scalars names.now) globals.now in
        let place = part_place g (type_of t.now) (path_of path.now) in
        result ≡ fits_place place (program_sort g (exp_of value.now)) }
{
    if path.any(&IsPartOfValue) {
        return false;
    }
    match along(path, t, names, l, globals) {
        Some(part) => fits_part(l, part, program_sort(value, names, l, globals)),
        None => false,
    }
}

// Whether a sort is that of a part of a type.
#[tactic(auto, using(crate::proofs::PlaceTypes::struct_fits, crate::proofs::PlaceTypes::array_fits))]
fn fits_part(l: &Layout, part: &CType, sort: Option<Sort<'_>>) -> bool
    requires { HasCompleteParts l.now (option_map sort_value sort) }
    ensures { result ≡ fits_place (sort_at (shape_of l.now (type_of part.now)))
        (option_map sort_value sort.entry) }
{
    let target = l.target();
    match part {
        CType::Int(integer) => is_word_of(width_of(target, *integer), sort),
        CType::Ptr(_) => is_word_of(address_width(target), sort),
        CType::Void => false,
        CType::Struct(_) => are_same(Some(Sort::Parts(part)), sort),
        CType::Array(_, _) => are_same(Some(Sort::Parts(part)), sort),
    }
}
