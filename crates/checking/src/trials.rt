//! What a certificate's text comes to, whose functions are those of a typed text.

ghost use Rattle.std.specs.Prelude.{◌≡◌, ◌<◌, ◌^◌, None, IfOk, length};
ghost use Rattle.c_lang.specs.CodeTyped.{unit_of};
ghost use Rattle.c_lang.specs.WellTyped.{IsWellTyped};
ghost use Rattle.certificate_text.specs.CertificateText as texts;
ghost use Rattle.certificate_text.specs.CodeIndex.{index_in};
ghost use Rattle.certificate_text.specs.Answer.{IsCertificateText};
ghost use Rattle.certificate_text.specs.IndexAnswer.{IsIndexOf};
ghost use Rattle.checking.specs.Checked.{apart};
ghost use Rattle.checking.specs.CodeParts.{IsTried};

use crate::levels::levels;
use crate::refused::Refused;
use crate::texts::check_telling;
use ac_base::Progress;
use c_lang::tree::TypedUnit;
use c_levels::Modes;
use certificate_text::CertIndex;
use simpl_gen::generate;
use simpl_lang::SimplUnit;
use std::alloc::{AllocError, Global};

/// A certificate that was tried for a typed text: what was found in its text, its levels, what is
/// generated for the typed text at them, and the answer.
#[derive(Drop)]
pub(crate) struct Tried {
    pub(crate) index: CertIndex,
    pub(crate) modes: Modes,
    pub(crate) generated: SimplUnit,
    pub(crate) answer: Result<(), Refused>,
}

/// What a certificate comes to whose functions are the unit's in its order. It is told how far the
/// check is.
pub(crate) fn try_listed<P: Progress>(
    alloc: Global,
    unit: &TypedUnit,
    text: &[u8],
    index: CertIndex,
    progress: &P,
) -> Result<Tried, AllocError>
    requires typed { IsWellTyped (unit_of unit.now) }
    requires scanned { IsIndexOf text.now (index_in index) }
    requires short { length text.now < 2 ^ 32 }
    requires listed { (c : texts.Certificate) → IsCertificateText text.now c →
        apart (unit_of unit.now) c.functions ≡ None }
    ensures { (c : texts.Certificate) → IsCertificateText text.now c →
        IfOk result (IsTried (unit_of unit.now) c) }
{
    let modes = levels(alloc, &index.functions)?;
    let generated = generate(alloc, unit, &modes)?;
    let answer = check_telling(alloc, &generated, text, &index, progress)?;
    Ok(Tried {
        index,
        modes,
        generated,
        answer,
    })
}
