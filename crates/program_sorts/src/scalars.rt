//! Scalars of kinds and of expressions.

ghost use Rattle.std.specs.Prelude.{◌≡◌, map};
ghost use Rattle.std.specs.Option.{option_map};
ghost use Rattle.expression_lang.specs.Sort.{is_kind, are_kinds};
ghost use Rattle.expression_lang.specs.CodeExpression.{kind_of};
ghost use Rattle.expression_lang.specs.CodeSignature.{binder_of};
ghost use Rattle.expression_lang.specs.Signature.{kinds_of};
ghost use Rattle.expression_lang.specs.CodeSort.{scalar_of, sort_value};
ghost use Rattle.program_sorts.specs.Sorts.{is_scalar_of};

use expression_lang::{Binder, Kind, Scalar, Sort};

/// Whether words of the kind have one of the four widths.
pub fn is_kind(kind: Kind) -> bool
    ensures { result ≡ is_kind (kind_of kind) }
{
    match kind {
        Kind::Word(width) | Kind::Nat(width) | Kind::Int(width) => matches!(
            width,
            8 | 16 | 32 | 64
        ),
        Kind::Bool => true,
    }
}

/// Whether a sort is that of the scalar.
pub fn is_of(scalar: Scalar, sort: Option<Sort<'_>>) -> bool
    ensures { result ≡ is_scalar_of (Some (scalar_of scalar)) (option_map sort_value sort.entry) }
{
    match sort {
        Some(Sort::Of(other)) => scalar == other,
        Some(Sort::Parts(_)) | None => false,
    }
}

/// Whether each binder is of a kind that is.
pub fn are_kinds(binders: &[Binder]) -> bool
    ensures { result ≡ are_kinds (kinds_of (map binder_of binders.now)) }
{
    'binders: for binder in binders {
        if !is_kind(binder.kind) {
            return false;
        }
    }
    true
}
