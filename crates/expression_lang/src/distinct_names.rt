//! Names that are distinct.

ghost use Rattle.std.specs.Prelude.{◌≡◌, map};
ghost use Rattle.c_values.specs.Name.{is_among, are_distinct};
ghost use Rattle.c_values.specs.CodeValue.{global_of};
ghost use Rattle.expression_lang.specs.Signature.{names_of};
ghost use Rattle.expression_lang.specs.CodeSignature.{binder_of};

use crate::signatures::Binder;
use c_values::GlobalVar;

/// What has a name.
pub trait Named {
    ghost use Rattle.c_values.specs.Name.{Name};

    ghost named: { Self → Name };

    /// The name.
    fn name(&self) -> &str
        ensures { result.now ≡ named self.now };
}

impl Named for GlobalVar {
    ghost use Rattle.std.specs.Prelude.{string_bytes};

    ghost named = { λ v. string_bytes v.name };

    fn name(&self) -> &str {
        self.name.as_str()
    }
}

impl Named for Binder {
    ghost use Rattle.std.specs.Prelude.{string_bytes};

    ghost named = { λ b. string_bytes b.name };

    fn name(&self) -> &str {
        self.name.as_str()
    }
}

impl Named for String {
    ghost use Rattle.std.specs.Prelude.{string_bytes};

    ghost named = { λ name. string_bytes name };

    fn name(&self) -> &str {
        self.as_str()
    }
}

/// Whether no two globals have one name.
pub fn are_globals_distinct(globals: &[GlobalVar]) -> bool
    ensures { result ≡ are_distinct (map (λ v. v.name) (map global_of globals.now)) }
{
    are_distinct(globals)
}

/// Whether no two binders have one name.
pub fn are_binders_distinct(binders: &[Binder]) -> bool
    ensures { result ≡ are_distinct (names_of (map binder_of binders.now)) }
{
    are_distinct(binders)
}

/// Whether no two have one name. Each is compared with those behind it, since there is no memory to
/// keep names in.
pub fn are_distinct<T: Named>(items: &[T]) -> bool
    ensures { result ≡ are_distinct (map T.named items.now) }
{
    let mut rest = items;
    'items: while let Some((first, others)) = rest.split_first() {
        if is_among(first.name(), others) {
            return false;
        }
        rest = others;
    }
    true
}

// Whether one of them has the name.
fn is_among<T: Named>(name: &str, items: &[T]) -> bool
    ensures { result ≡ is_among name.now (map T.named items.now) }
{
    'items: for item in items {
        if name == item.name() {
            return true;
        }
    }
    false
}
