//! The kinds of names.

ghost use Rattle.std.specs.Prelude.{◌≡◌};
ghost use Rattle.std.specs.Option.{option_map};
ghost use Rattle.c_values.specs.CodeTypes.{target_of, type_of};
ghost use Rattle.expression_lang.specs.Sort.{Numbers};
ghost use Rattle.expression_lang.specs.CodeExpression.{kind_of, level_of};
ghost use Rattle.expression_lang.specs.Signature as rules;

use c_values::{CType, Target, is_signed, width_of};
use expression_lang::{Kind, Level};
use simpl_expressions::scalars::bits_of_type;

/// The kind of a name of a type.
pub(crate) fn kind_at(target: Target, level: Level, ty: &CType) -> Kind
    ensures { kind_of result ≡ rules.kind_at (target_of target) (level_of level) (type_of ty.now) }
{
    match level {
        Level::Bytes | Level::Words => Kind::Word(bits_of_type(target, ty).width),
        Level::Numbers => number_kind(target, ty),
    }
}

// The same where numbers stand for integers.
fn number_kind(target: Target, ty: &CType) -> Kind
    ensures { kind_of result ≡ rules.kind_at (target_of target) Numbers (type_of ty.now) }
{
    match ty {
        CType::Int(integer) => {
            let width = width_of(target, *integer);
            if is_signed(*integer) {
                Kind::Int(width)
            } else {
                Kind::Nat(width)
            }
        }
        CType::Void | CType::Ptr(_) | CType::Struct(_) | CType::Array(_, _) => {
            Kind::Word(bits_of_type(target, ty).width)
        }
    }
}

/// The kind of a result of a type, or none.
pub(crate) fn result_kind(target: Target, level: Level, ty: &Option<CType>) -> Option<Kind>
    ensures { option_map kind_of result ≡ rules.result_kind (target_of target) (level_of level)
        (option_map type_of ty.now) }
{
    match ty {
        None => None,
        Some(ty) => Some(kind_at(target, level, ty)),
    }
}
