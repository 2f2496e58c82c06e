//! What derivations of a function's program stand on.

ghost use Rattle.std.specs.Prelude.{◌≡◌};
ghost use Rattle.triple_lang.specs.Deriv as plain;
ghost use Rattle.hoare_check.specs.DeriveTable.{setting};
ghost use Rattle.monad_sorts.specs.CodeInside.{setting_in};
ghost use Rattle.hoare_check.specs.CodePosed.{ground_of};

use monad_lang::FinalUnit;
use monad_sorts::{Functions, Setting};
use program_sorts::Phase;
use triple_lang::Triple;

/// The unit, whether the function is on typed heaps, and the triples.
#[derive(Clone, Copy)]
pub(crate) struct Ground<'a> {
    pub unit: &'a FinalUnit,
    pub lifted: bool,
    pub triples: &'a [Triple],
}

impl<'a> Ground<'a> {
    /// What programs may name beside their own names.
    pub fn setting(&self) -> Setting<'a>
        ensures { (ns : plain.Names) → setting_in result ns ≡ setting (ground_of self.now) ns }
    {
        Setting {
            layout: &self.unit.layout,
            globals: &self.unit.globals,
            functions: Functions::Programs(&self.unit.functions),
            phase: Phase::OnNumbers,
        }
    }
}
