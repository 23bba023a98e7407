//! The answers of `optimise`, of `report` and of `sample`: the least cycle time with its certificate.
ghost use Rattle.std.specs.Prelude.{◌≡◌, ◌<◌, IfOk};
ghost use Rattle.mintc_certificate.specs.Ranges.{IsCertificateInRange};
ghost use Rattle.mintc_command_answers.specs.Jobs.{IsOptimum, IsOptimumAnswer, IsReportAnswer, IsSummaryAnswer};
ghost use Rattle.mintc_command_answers.specs.Jobs.{certificate_status};

use crate::answer::Answer;
use crate::status::Status;
use mintc_certificate::{Certificate, write};
use mintc_graph_walks::Steps;
use mintc_optimise::optimise;
use mintc_report::{report_text, summary_text};
use mintc_text::OutOfMemory;
use mintc_timing::System;
use std::alloc::Global;
use std::marker::Brand;
use std::sync::ledger::{Blank, Ledger};

/// The certificate of a system's optimum, with the steps of its search counted from a blank.
fn optimum_from<L: Ledger>(
    alloc: Global,
    system: &System,
    blank: Blank,
) -> Result<Certificate, OutOfMemory>
    requires name { blank.name ≡ L.name }
    requires parts { blank.parts ≡ L.parts }
    requires part { 0 < L.parts }
    ensures optimum { IfOk result (IsOptimum system.now) }
    ensures in_range { IfOk result IsCertificateInRange }
{
    let mut steps = Steps::<L>::open(blank);
    optimise(alloc, system, &mut steps)
}

/// The certificate of a system's optimum.
pub fn optimum(alloc: Global, system: &System) -> Result<Certificate, OutOfMemory>
    ensures optimum { IfOk result (IsOptimum system.now) }
    ensures in_range { IfOk result IsCertificateInRange }
{
    optimum_from::<Brand>(alloc, system, Blank::new(1))
}

/// How a run ends that has this certificate.
fn status_of(certificate: &Certificate) -> Status
    ensures { result ≡ certificate_status certificate.now }
{
    match certificate {
        Certificate::Least { .. } => Status::Done,
        Certificate::Never { .. } => Status::Found,
    }
}

/// The text of an optimum.
pub(crate) fn optimise_answer(alloc: Global, system: &System) -> Result<Answer, OutOfMemory>
    ensures { IfOk result (λ answer. IsOptimumAnswer system.now answer.status answer.text) }
{
    let certificate = optimum(alloc, system)?;
    let text = write(alloc, &certificate)?;
    Ok(Answer::new(status_of(&certificate), text))
}

/// The report of an optimum.
pub(crate) fn report_answer(alloc: Global, system: &System) -> Result<Answer, OutOfMemory>
    ensures { IfOk result (λ answer. IsReportAnswer system.now answer.status answer.text) }
{
    let certificate = optimum(alloc, system)?;
    let text = report_text(alloc, system, &certificate)?;
    Ok(Answer::new(status_of(&certificate), text))
}

/// The summary of the sample of a number, whose system this is.
pub(crate) fn summary_answer(
    alloc: Global,
    number: u64,
    system: &System,
) -> Result<Answer, OutOfMemory>
    ensures { IfOk result (λ answer. IsSummaryAnswer number system.now answer.status answer.text) }
{
    let certificate = optimum(alloc, system)?;
    let text = summary_text(alloc, number, system, &certificate)?;
    Ok(Answer::new(status_of(&certificate), text))
}
