//! Functions of a unit, by their names.

ghost use Rattle.std.specs.Prelude.{◌≡◌, map, Some, IfSome, IfNone, None};
ghost use Rattle.monad_lang.specs.Program.{final_fn};
ghost use Rattle.monad_lang.specs.CodeProgram.{final_fn_of};

use monad_lang::FinalFn;

/// The first function of the name, where there is one.
pub(crate) fn function_in<'a>(functions: &'a [FinalFn], name: &str) -> Option<&'a FinalFn>
    ensures found { IfSome result (λ f. final_fn (map final_fn_of functions.now) name.now
        ≡ Some (final_fn_of f.now)) }
    ensures none { IfNone result (final_fn (map final_fn_of functions.now) name.now ≡ None) }
{
    let mut rest = functions;
    'functions: while let Some((first, others)) = rest.split_first() {
        if first.name.as_str() == name {
            return Some(first);
        }
        rest = others;
    }
    None
}
