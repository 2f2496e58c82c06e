//! Which functions have their signatures.

ghost use Rattle.std.specs.Prelude.{◌≡◌, map};
ghost use Rattle.std.specs.Option.{option_map};
ghost use Rattle.expression_lang.specs.CodeExpression.{kind_of, level_of};
ghost use Rattle.expression_lang.specs.CodeSignature.{binder_of, signature_of};
ghost use Rattle.simpl_lang.specs.Sorted.{are_signed, come_first, holds_result, same_kind, same_level};
ghost use Rattle.simpl_lang.specs.CodeCommand.{simpl_fn_of};
ghost use Rattle.simpl_lang.specs.CodeForms.{is_signed};

use crate::locals::kind_in;
use crate::units::SimplFn;
use expression_lang::{Binder, Kind, Level, Signature};

/// Whether the signatures are of the functions, in their order.
pub(crate) fn are_signed(functions: &[SimplFn], signatures: &[Signature]) -> bool
    ensures { result ≡ are_signed (map simpl_fn_of functions.now)
        (map signature_of signatures.now) }
{
    let mut left = functions;
    let mut right = signatures;
    'functions: while let Some((function, functions)) = left.split_first() {
        let Some((signature, signatures)) = right.split_first() else {
            return false;
        };
        if !is_signed(function, signature) {
            return false;
        }
        left = functions;
        right = signatures;
    }
    right.is_empty()
}

// Whether a signature is the function's.
fn is_signed(f: &SimplFn, s: &Signature) -> bool
    ensures { result ≡ is_signed (simpl_fn_of f.now) (signature_of s.now) }
{
    f.name.as_str() == s.name.as_str()
        && same_level(f.level, s.level)
        && come_first(&s.params, &f.locals)
        && holds_result(s.result, &f.locals)
}

fn same_level(level: Level, other: Level) -> bool
    ensures { result ≡ same_level (level_of level) (level_of other) }
{
    level == other
}

// Whether the parameters are the first locals.
fn come_first(params: &[Binder], locals: &[Binder]) -> bool
    ensures { result ≡ come_first (map binder_of params.now) (map binder_of locals.now) }
{
    let mut left = params;
    let mut right = locals;
    'params: while let Some((param, params)) = left.split_first() {
        let Some((local, locals)) = right.split_first() else {
            return false;
        };
        if param.name.as_str() != local.name.as_str() || !same_kind(param.kind, local.kind) {
            return false;
        }
        left = params;
        right = locals;
    }
    true
}

// Whether the local that holds the result has its kind.
fn holds_result(kind: Option<Kind>, locals: &[Binder]) -> bool
    ensures { result ≡ holds_result (option_map kind_of kind) (map binder_of locals.now) }
{
    match kind {
        Some(kind) => match kind_in(locals, "$ret") {
            Some(own) => same_kind(kind, own),
            None => false,
        },
        None => true,
    }
}

// Whether two kinds are the same.
fn same_kind(kind: Kind, other: Kind) -> bool
    ensures { result ≡ same_kind (kind_of kind) (kind_of other) }
{
    kind == other
}
