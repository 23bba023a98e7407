//! The answer of `safe`.
ghost use Rattle.std.specs.Prelude.{◌≡◌, ◌<◌, IfOk};
ghost use Rattle.mintc_safe.specs.SafeOptimum.{IsSafeOptimum};
ghost use Rattle.mintc_command_answers.specs.Jobs.{IsSafeJobAnswer, safe_status};

use crate::answer::Answer;
use crate::status::Status;
use mintc_graph_walks::Steps;
use mintc_safe::{SafeCertificate, safe, safe_text};
use mintc_text::OutOfMemory;
use mintc_timing::System;
use std::alloc::Global;
use std::marker::Brand;
use std::sync::ledger::{Blank, Ledger};

/// The certificate of the least cycle time that keeps every hold, with the steps of its search counted from a blank.
pub fn safe_from<L: Ledger>(
    alloc: Global,
    system: &System,
    blank: Blank,
) -> Result<SafeCertificate, OutOfMemory>
    requires name { blank.name ≡ L.name }
    requires parts { blank.parts ≡ L.parts }
    requires part { 0 < L.parts }
    ensures { IfOk result (IsSafeOptimum system.now) }
{
    let mut steps = Steps::<L>::open(blank);
    safe(alloc, system, &mut steps)
}

/// How a run ends that has this certificate.
fn status_of(certificate: &SafeCertificate) -> Status
    ensures { result ≡ safe_status certificate.now }
{
    match certificate {
        SafeCertificate::Least { .. } => Status::Done,
        SafeCertificate::Never { .. } => Status::Found,
    }
}

/// The text of the least cycle time that keeps every hold.
pub(crate) fn safe_answer(alloc: Global, system: &System) -> Result<Answer, OutOfMemory>
    ensures { IfOk result (λ answer. IsSafeJobAnswer system.now answer.status answer.text) }
{
    let certificate = safe_from::<Brand>(alloc, system, Blank::new(1))?;
    let text = safe_text(alloc, &certificate)?;
    Ok(Answer::new(status_of(&certificate), text))
}
