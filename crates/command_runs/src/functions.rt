//! Functions of a unit, by their names.

ghost use Rattle.std.specs.Prelude.{◌≡◌, map, Some, IfSome, IfNone, None};
ghost use Rattle.simpl_lang.specs.Command.{simpl_fn};
ghost use Rattle.simpl_lang.specs.CodeCommand.{simpl_fn_of};

use simpl_lang::SimplFn;

/// The first function of the name, where there is one.
pub(crate) fn function_in<'a>(functions: &'a [SimplFn], name: &str) -> Option<&'a SimplFn>
    ensures found { IfSome result (λ f. simpl_fn (map simpl_fn_of functions.now) name.now
        ≡ Some (simpl_fn_of f.now)) }
    ensures none { IfNone result (simpl_fn (map simpl_fn_of functions.now) name.now ≡ None) }
{
    let mut rest = functions;
    'functions: while let Some((first, others)) = rest.split_first() {
        if first.name.as_str() == name {
            return Some(first);
        }
        rest = others;
    }
    None
}
