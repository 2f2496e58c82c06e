//! Functions by their names.

ghost use Rattle.std.specs.Prelude.{◌≡◌, Some, None, map, IfNone, IfSome, IsSomeAnd, slice_get};
ghost use Rattle.c_lang.specs.CodeTyped.{function_of};
ghost use Rattle.c_lang.specs.Typed.{typed_fn};

use c_lang::tree::TypedFn;

/// Where the first function of a name stands, from 0.
pub fn position_of(functions: &[TypedFn], name: &str) -> Option<usize>
    ensures found { IfSome result (λ k. IsSomeAnd (slice_get functions.now k) (λ f.
        typed_fn (map function_of functions.now) name.now ≡ Some (function_of f))) }
    ensures none { IfNone result (typed_fn (map function_of functions.now) name.now ≡ None) }
{
    'functions: for (k, function) in functions.iter().enumerate() {
        if function.name.as_str() == name {
            return Some(k);
        }
    }
    None
}
