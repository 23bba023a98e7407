//! The answer of `verify`: the verdict on a certificate.
ghost use Rattle.std.specs.Prelude.{◌≡◌, ◌≤◌, length, IfOk, IfErr};
ghost use Rattle.mintc_text.specs.Stops.{StopsAt};
ghost use Rattle.mintc_timing.specs.Design.{Timing};
ghost use Rattle.mintc_timing.specs.Order.{ArePathsShort, IsOrder};
ghost use Rattle.mintc_timing.specs.Paths.{ArePairs};
ghost use Rattle.mintc_certificate.specs.CertificateText.{IsCertificateRefusal};
ghost use Rattle.mintc_certificate.specs.Ranges.{IsCertificateInRange};
ghost use Rattle.mintc_command_answers.specs.Jobs.{IsJobAnswer, IsVerdictAnswer, verdict_status};

use crate::answer::Answer;
use crate::command::Job;
use crate::status::Status;
use mintc_certificate::{Certificate, read};
use mintc_checker::{Verdict, examine_flat};
use mintc_report::verdict_text;
use mintc_text::limits::MOST_BYTES;
use mintc_text::{Limits, OutOfMemory, Stop};
use mintc_timing::{Flat, Order};
use std::alloc::Global;

/// How a run ends that has this verdict.
fn status_of(verdict: Verdict) -> Status
    ensures { result ≡ verdict_status verdict }
{
    match verdict {
        Verdict::Valid => Status::Done,
        Verdict::Invalid(_) => Status::Found,
    }
}

/// The verdict on a certificate of a design.
fn examine_certificate(
    alloc: Global,
    flat: &Flat,
    order: &Order,
    certificate: &Certificate,
) -> Result<Answer, OutOfMemory>
    requires order { IsOrder flat.now.arcs order.now }
    requires short { ArePathsShort flat.now }
    requires in_range { IsCertificateInRange certificate.now }
    ensures { IfOk result (λ answer. (t : Timing) → t.flat ≡ flat.now → ArePairs t.flat t.pairs →
        IsVerdictAnswer t certificate.now answer.status answer.text) }
{
    let verdict = examine_flat(alloc, flat, order, certificate)?;
    let text = verdict_text(alloc, &verdict)?;
    Ok(Answer::new(status_of(verdict), text))
}

/// The verdict on the certificate of a text, or why the text is refused. It is the same for each list of the
/// design's pairs.
pub(crate) fn verify_answer(
    alloc: Global,
    limits: &Limits,
    flat: &Flat,
    order: &Order,
    file: &[u8],
) -> Result<Answer, Stop>
    requires order { IsOrder flat.now.arcs order.now }
    requires short { ArePathsShort flat.now }
    requires file { length file.now ≤ MOST_BYTES }
    ensures value { IfOk result (λ answer. (t : Timing) → t.flat ≡ flat.now → ArePairs t.flat t.pairs →
        IsJobAnswer limits.now Job.Verify t file.now answer.status answer.text) }
    ensures stop { IfErr result (StopsAt (IsCertificateRefusal limits.now.members file.now)) }
{
    let certificate = read(alloc, limits, file)?;
    Ok(examine_certificate(alloc, flat, order, &certificate)?)
}
