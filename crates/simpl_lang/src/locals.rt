//! Locals, by their names.

ghost use Rattle.std.specs.Prelude.{◌≡◌, map};
ghost use Rattle.std.specs.Option.{option_map};
ghost use Rattle.c_values.specs.Name.{is_among};
ghost use Rattle.expression_lang.specs.CodeExpression.{kind_of};
ghost use Rattle.expression_lang.specs.CodeSignature.{binder_of};
ghost use Rattle.expression_lang.specs.Signature.{names_of};
ghost use Rattle.simpl_lang.specs.Command as plain;

use expression_lang::{Binder, Kind};

/// Whether one of the binders has the name.
pub fn is_bound(name: &str, binders: &[Binder]) -> bool
    ensures { result ≡ is_among name.now (names_of (map binder_of binders.now)) }
{
    'binders: for binder in binders {
        if name == binder.name.as_str() {
            return true;
        }
    }
    false
}

/// The kind of the first binder of the name, where there is one.
pub fn kind_in(binders: &[Binder], name: &str) -> Option<Kind>
    ensures { option_map kind_of result ≡ plain.kind_of (map binder_of binders.now) name.now }
{
    'binders: for binder in binders {
        if binder.name.as_str() == name {
            return Some(binder.kind);
        }
    }
    None
}
