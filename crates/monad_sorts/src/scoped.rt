//! What is asked of expressions in a scope.

ghost use Rattle.std.specs.Prelude.{◌≡◌, map};
ghost use Rattle.std.specs.Option.{option_map};
ghost use Rattle.c_values.specs.CodeTypes.{type_of};
ghost use Rattle.expression_lang.specs.Sort.{is_truth};
ghost use Rattle.expression_lang.specs.Sorted.{program_sort, scalars_of, typed_place, global_place, fits_place};
ghost use Rattle.expression_lang.specs.Signature.{kinds_of};
ghost use Rattle.expression_lang.specs.CodeExpression.{exp_of, path_of};
ghost use Rattle.expression_lang.specs.CodeSignature.{binder_of};
ghost use Rattle.expression_lang.specs.CodeSort.{sort_value};
ghost use Rattle.program_sorts.specs.Sorts.{may_take};
ghost use Rattle.monad_sorts.specs.CodeSorted.{is_scalar};
ghost use Rattle.monad_sorts.specs.CodeInside.{setting_in, scalars_in};

use crate::inside::Inside;
use crate::settings::Setting;
use c_values::CType;
use expression_lang::{Binder, Exp, Path, Sort};
use program_sorts::{fits_global, fits_object, is_test, may_take, program_sort};

/// Whether an expression is a test.
pub(crate) fn is_test_in(e: &Exp, inside: &Inside<'_>, setting: Setting<'_>) -> bool
    ensures { let t = setting_in setting.entry (scalars_in inside.now) in
        result ≡ is_truth (program_sort t.scope (exp_of e.now)) }
{
    is_test(e, inside, setting.layout, setting.globals)
}

/// Whether an expression has a scalar.
pub(crate) fn has_scalar(e: &Exp, inside: &Inside<'_>, setting: Setting<'_>) -> bool
    ensures { let t = setting_in setting.entry (scalars_in inside.now) in
        result ≡ is_scalar (program_sort t.scope (exp_of e.now)) }
{
    is_scalar(program_sort(e, inside, setting.layout, setting.globals))
}

fn is_scalar(sort: Option<Sort<'_>>) -> bool
    ensures { result ≡ is_scalar (option_map sort_value sort.entry) }
{
    match sort {
        Some(Sort::Of(_)) => true,
        Some(Sort::Parts(_)) | None => false,
    }
}

/// Whether a value may go to a part of the object of a type at a pointer.
pub(crate) fn fits_object_in(
    ty: &CType,
    pointer: &Exp,
    path: &Path,
    value: &Exp,
    inside: &Inside<'_>,
    setting: Setting<'_>,
) -> bool
    ensures { let g = (setting_in setting.entry (scalars_in inside.now)).scope in
        let place = typed_place g (type_of ty.now) (exp_of pointer.now) (path_of path.now) in
        result ≡ fits_place place (program_sort g (exp_of value.now)) }
{
    fits_object(
        ty,
        pointer,
        path,
        value,
        inside,
        setting.layout,
        setting.globals,
    )
}

/// Whether a value may go to a part of a global.
pub(crate) fn fits_global_in(
    name: &str,
    path: &Path,
    value: &Exp,
    inside: &Inside<'_>,
    setting: Setting<'_>,
) -> bool
    ensures { let g = (setting_in setting.entry (scalars_in inside.now)).scope in
        let place = global_place g (g.globals name.now) (path_of path.now) in
        result ≡ fits_place place (program_sort g (exp_of value.now)) }
{
    fits_global(name, path, value, inside, setting.layout, setting.globals)
}

/// Whether there are as many arguments as parameters, each of its parameter's kind.
pub(crate) fn may_take_in(
    params: &[Binder],
    arguments: &[Exp],
    inside: &Inside<'_>,
    setting: Setting<'_>,
) -> bool
    ensures { let t = setting_in setting.entry (scalars_in inside.now) in
        result ≡ may_take t.sort_for (kinds_of (map binder_of params.now))
        (scalars_of t.scope (map exp_of arguments.now)) }
{
    may_take(
        params,
        arguments,
        setting.phase,
        inside,
        setting.layout,
        setting.globals,
    )
}
