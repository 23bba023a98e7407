//! The summary of a sample.
ghost use Rattle.std.specs.Prelude.{◌≡◌, ◌++◌, ◌∷◌, [], IfOk, OnOk, codes};
ghost use Rattle.mintc_text.specs.Lines.{ended, text_of};
ghost use Rattle.mintc_timing.specs.Limits.{IsInRange};
ghost use Rattle.mintc_certificate.specs.Ranges.{IsCertificateInRange};
ghost use Rattle.mintc_report.specs.Summaries.{count_line, count_lines, IsLeastSummary, IsSummaryText};

use crate::report::put_cycle;
use crate::writing::lowest;
use mintc_certificate::Certificate;
use mintc_text::{Lines, OutOfMemory};
use mintc_text_refusals::put_number;
use mintc_timing::{Schedule, System};
use std::alloc::Global;

/// Writes a line of a word and a count.
fn put_count(lines: &mut Lines, word: &[u8], count: u64) -> Result<(), OutOfMemory>
    ensures { OnOk result (lines.new ≡ lines.old ++ ended (count_line word.now count)) }
{
    lines.put(word)?;
    put_number(lines, count)?;
    lines.put(b"\n")
}

/// Writes the number of a sample, and the counts of its design.
fn put_counts(lines: &mut Lines, number: u64, system: &System) -> Result<(), OutOfMemory>
    ensures { OnOk result (lines.new ≡ lines.old ++ text_of (count_lines number system.now)) }
{
    let flat = system.flat();
    put_count(lines, b"sample", number)?;
    put_count(lines, b"phases", u64::from(flat.phase_count()))?;
    put_count(lines, b"elements", u64::from(flat.element_count()))?;
    put_count(lines, b"inner", flat.inner().items().len() as u64)?;
    put_count(lines, b"arcs", flat.arcs().len() as u64)?;
    put_count(lines, b"pairs", system.pairs().len() as u64)
}

/// The summary of a sample with a schedule.
fn least_summary(
    alloc: Global,
    number: u64,
    system: &System,
    schedule: &Schedule,
) -> Result<Vec<u8>, OutOfMemory>
    requires { IsInRange schedule.now }
    ensures { IfOk result (λ text. IsLeastSummary number system.now schedule.now text.items) }
{
    let mut lines = Lines::new(alloc);
    put_counts(&mut lines, number, system)?;
    put_cycle(&mut lines, &lowest(schedule.cycle, schedule.den))?;
    Ok(lines.into_bytes())
}

/// The text that summarises the design of a sample and its certificate: `sample N`, `phases K`, `elements N`,
/// `inner M`, `arcs A`, `pairs P` and `cycle F`, where F is in femtoseconds, as a fraction in lowest terms; or
/// `never`.
pub fn summary_text(
    alloc: Global,
    number: u64,
    system: &System,
    certificate: &Certificate,
) -> Result<Vec<u8>, OutOfMemory>
    requires { IsCertificateInRange certificate.now }
    ensures { IfOk result (λ text. IsSummaryText number system.now certificate.now text.items) }
{
    match certificate {
        Certificate::Least { schedule, .. } => least_summary(alloc, number, system, schedule),
        Certificate::Never { .. } => {
            let mut lines = Lines::new(alloc);
            lines.put(b"never\n")?;
            Ok(lines.into_bytes())
        }
    }
}
