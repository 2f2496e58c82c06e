//! The functions of two lists, by their names.

ghost use Rattle.std.specs.Prelude.{◌≡◌, map};
ghost use Rattle.std.specs.Option.{option_map};
ghost use Rattle.checking.specs.Checked.{listed_apart};

use acceptance::Steps;
use c_lang::tree::TypedFn;
use certificate_text::FunEntry;
use simpl_lang::SimplFn;

/// What has a function's name.
pub(crate) trait Named {
    ghost use Rattle.c_values.specs.Name.{Name};

    ghost named: { Self → Name };

    /// The name.
    fn name(&self) -> &str
        ensures { result.now ≡ named self.now };
}

impl Named for TypedFn {
    ghost use Rattle.std.specs.Prelude.{string_bytes};

    ghost named = { λ f. string_bytes f.name };

    fn name(&self) -> &str {
        self.name.as_str()
    }
}

impl Named for SimplFn {
    ghost use Rattle.std.specs.Prelude.{string_bytes};

    ghost named = { λ f. string_bytes f.name };

    fn name(&self) -> &str {
        self.name.as_str()
    }
}

impl Named for Steps {
    ghost use Rattle.std.specs.Prelude.{string_bytes};

    ghost named = { λ c. string_bytes c.name };

    fn name(&self) -> &str {
        self.name.as_str()
    }
}

impl Named for FunEntry {
    ghost use Rattle.std.specs.Prelude.{string_bytes};

    ghost named = { λ e. string_bytes e.name };

    fn name(&self) -> &str {
        self.name.as_str()
    }
}

/// The first position at which a certificate's functions aren't those of the other list in its
/// order, and the function there: the list's, or one that it hasn't.
pub(crate) fn apart<'a, F: Named, C: Named>(
    functions: &'a [F],
    certificate: &'a [C],
) -> Option<(usize, &'a str)>
    ensures { option_map (λ p. (p.0, p.1.now)) result
        ≡ listed_apart 0 (map F.named functions.now) (map C.named certificate.now) }
{
    let mut at = 0;
    let mut left = functions;
    let mut right = certificate;
    'functions: while let Some((function, functions)) = left.split_first() {
        let Some((steps, certificate)) = right.split_first() else {
            return Some((at, function.name()));
        };
        if function.name() != steps.name() {
            return Some((at, function.name()));
        }
        at += 1;
        left = functions;
        right = certificate;
    }
    match right.split_first() {
        Some((steps, _others)) => Some((at, steps.name())),
        None => None,
    }
}
