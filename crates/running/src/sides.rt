//! Both sides of a run, and the verdict.

ghost use Rattle.std.specs.Prelude.{◌≡◌, ◌<◌, ◌^◌, length, IfOk};
ghost use Rattle.certificate_text.specs.CertificateText as certificates;
ghost use Rattle.run_lines.specs.CodeEnds.{verdict_of};
ghost use Rattle.checking.specs.CodeJudged.{IsAcceptedAs};
ghost use Rattle.running.specs.Runs.{Runs};
ghost use Rattle.running.specs.CodeRuns.{IsStart, memory_at, unit_at, verdict_for};

use crate::c_side::c_side;
use crate::program_side::program_side;
use crate::start::{Came, Start};
use checking::Accepted;
use run_lines::{Verdict, write_verdict};
use std::alloc::{AllocError, Global};

/// The lines of both sides, and the verdict.
pub(crate) fn run_lines(
    alloc: Global,
    start: Start<'_>,
    certificate: &[u8],
    accepted: &Accepted,
) -> Result<Vec<u8>, AllocError>
    requires start { IsStart start }
    requires short { length certificate.now < 2 ^ 32 }
    requires accepted { (c : certificates.Certificate)
        × IsAcceptedAs certificate.now (unit_at start) c accepted.now }
    ensures { (c : certificates.Certificate) →
        IsAcceptedAs certificate.now (unit_at start.entry) c accepted.now → IfOk result (λ lines.
        Runs (unit_at start.entry) c.functions (memory_at start.entry) lines.items) }
{
    let mut lines = Vec::new(alloc);
    let c = c_side(alloc, start, &mut lines)?;
    let program = program_side(alloc, start, certificate, accepted, &mut lines)?;
    write_verdict(verdict(c, program), &mut lines)?;
    Ok(lines)
}

// What is said of what both sides came to.
fn verdict(c: Came, program: Came) -> Verdict
    ensures { verdict_of result ≡ verdict_for c program }
{
    match (c, program) {
        (_, Came::Failed) => Verdict::Failed,
        (Came::Value, Came::Value) => Verdict::Agree,
        _ => Verdict::Open,
    }
}
