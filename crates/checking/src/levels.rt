//! The levels of a certificate's functions, where they are those of a typed text.

ghost use Rattle.std.specs.Prelude.{◌≡◌, IfOk, length, map};
ghost use Rattle.expression_lang.specs.CodeExpression.{level_of};
ghost use Rattle.c_lang.specs.CodeTyped.{function_of, unit_of};
ghost use Rattle.c_lang.specs.WellTyped.{IsWellTyped};
ghost use Rattle.c_levels.specs.CodeModes.{AreLevels, levels_in};
ghost use Rattle.certificate_text.specs.CertificateText as texts;
ghost use Rattle.certificate_text.specs.CertificateIndex.{index_of};
ghost use Rattle.certificate_text.specs.CodeCertificate.{certificate_of};
ghost use Rattle.certificate_text.specs.CodeIndex.{index_in};
ghost use Rattle.checking.specs.Checked.{apart, function_names, level_in, listed_apart};
ghost use Rattle.checking.specs.Levels.{entry_levels, entry_names, levels_listed};
ghost use Rattle.checking.specs.CodeLevels.{AreTold};
ghost use Rattle.checking.specs.declared.levels.ListFault.TheVariants.{Memory};

use crate::names::{Named, apart};
use crate::refused::told;
use acceptance::Steps;
use c_lang::tree::{TypedFn, TypedUnit};
use c_levels::Modes;
use certificate_text::{CertIndex, Certificate, FunEntry};
use expression_lang::Level;
use std::alloc::{AllocError, AllocFailed, Global};
use thiserror::Error;

/// Why a certificate gives no levels for a text.
#[derive(Clone, Copy, Debug, PartialEq, Eq, Error)]
pub enum ListFault {
    /// The first position at which its functions aren't the text's in its order. Positions past the
    /// last number of 32 bits are told as that.
    #[error("another function at {0}")]
    Differs(u32),
    /// Memory ran out.
    #[error("out of memory")]
    Memory,
}

impl From<AllocError> for ListFault {
    ghost from_gives = { λ _ fault. fault ≡ Memory };

    fn from(_error: AllocError) -> ListFault {
        ListFault::Memory
    }
}

impl<T: Drop> From<AllocFailed<T>> for ListFault {
    ghost from_gives = { λ _ fault. fault ≡ Memory };

    fn from(_error: AllocFailed<T>) -> ListFault {
        ListFault::Memory
    }
}

/// The levels of a certificate, for the functions of a text.
pub fn levels_of(alloc: Global, c: &Certificate, u: &TypedUnit) -> Result<Modes, ListFault>
    ensures told { AreTold (apart (unit_of u.now) (certificate_of c.now).functions)
        (levels_listed (certificate_of c.now).functions) result }
    ensures one_each { IfOk result
        (λ modes. length modes.levels.items ≡ length u.now.functions.items) }
    ensures by_name { IsWellTyped (unit_of u.now) → IfOk result
        (λ modes. AreLevels (unit_of u.now) modes (level_in (certificate_of c.now).functions)) }
{
    listed_levels(alloc, &u.functions, &c.functions)
}

/// The levels of a certificate by its index, for the functions of a text.
pub fn index_levels(alloc: Global, index: &CertIndex, u: &TypedUnit) -> Result<Modes, ListFault>
    ensures told { AreTold (listed_apart 0 (function_names (unit_of u.now).functions)
        (entry_names (index_in index.now).functions))
        (entry_levels (index_in index.now).functions) result }
    ensures one_each { IfOk result
        (λ modes. length modes.levels.items ≡ length u.now.functions.items) }
    ensures by_name { (c : texts.Certificate) → index_in index.now ≡ index_of c →
        IsWellTyped (unit_of u.now) → IfOk result
        (λ modes. AreLevels (unit_of u.now) modes (level_in c.functions)) }
{
    listed_levels(alloc, &u.functions, &index.functions)
}

/// What has the level that a certificate gives a function.
pub(crate) trait Levelled: Named {
    ghost use Rattle.expression_lang.specs.Sort as sorts;
    ghost use Rattle.expression_lang.specs.CodeExpression.{level_of};

    ghost at_level: { Self → sorts.Level };

    /// The level.
    fn level(&self) -> Level
        ensures { level_of result ≡ at_level self.now };
}

impl Levelled for Steps {
    ghost use Rattle.expression_lang.specs.CodeExpression.{level_of};

    ghost at_level = { λ c. level_of c.level };

    fn level(&self) -> Level {
        self.level
    }
}

impl Levelled for FunEntry {
    ghost use Rattle.expression_lang.specs.CodeExpression.{level_of};

    ghost at_level = { λ e. level_of e.level };

    fn level(&self) -> Level {
        self.level
    }
}

// The levels of what a certificate lists, where that is what a text lists.
fn listed_levels<C: Levelled>(
    alloc: Global,
    functions: &[TypedFn],
    certificate: &[C],
) -> Result<Modes, ListFault>
    ensures { AreTold (listed_apart 0 (function_names (map function_of functions.now))
        (map C.named certificate.now)) (map C.at_level certificate.now) result }
{
    match apart(functions, certificate) {
        Some((at, _name)) => Err(ListFault::Differs(told(at))),
        None => Ok(levels(alloc, certificate)?),
    }
}

/// The levels of what a certificate lists.
pub(crate) fn levels<C: Levelled>(alloc: Global, certificate: &[C]) -> Result<Modes, AllocError>
    ensures { IfOk result (λ modes. levels_in modes ≡ map C.at_level certificate.now) }
{
    let mut levels = Vec::new(alloc);
    let mut rest = certificate;
    'functions: while let Some((steps, others)) = rest.split_first() {
        levels.push(steps.level())?;
        rest = others;
    }
    Ok(Modes { levels })
}
