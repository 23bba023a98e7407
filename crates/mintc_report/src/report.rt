//! The text of a report.
ghost use Rattle.std.specs.Prelude.{◌≡◌, ◌++◌, ◌∷◌, IfOk, OnOk, length, All, codes};
ghost use Rattle.mintc_text.specs.Lines.{ended, text_of, fraction_word};
ghost use Rattle.mintc_timing.specs.Design.{element_count, phase_count};
ghost use Rattle.mintc_timing.specs.Limits.{IsDenominator, IsInRange};
ghost use Rattle.mintc_certificate.specs.Ranges.{IsCertificateInRange, IsChainInRange};
ghost use Rattle.mintc_certificate.specs.Valid.{IsMember, IsValid};
ghost use Rattle.mintc_report.specs.Answers.{AppendsLines};
ghost use Rattle.mintc_report.specs.Reports.{chain_lines, cycle_line, late_line, phase_line, ArePhaseLines};
ghost use Rattle.mintc_report.specs.Reports.{AreLateLines, IsLeastReport, IsReportText};

use crate::chain::put_chain;
use crate::writing::{lowest, put_fraction};
use mintc_certificate::{Certificate, Member};
use mintc_fraction::Fraction;
use mintc_text::{Lines, Name, OutOfMemory};
use mintc_text_refusals::put_word;
use mintc_timing::{Element, Schedule, System};
use std::alloc::Global;

/// Writes the line of the cycle time.
pub(crate) fn put_cycle(lines: &mut Lines, cycle: &Fraction) -> Result<(), OutOfMemory>
    ensures { OnOk result (lines.new ≡ lines.old ++ ended (cycle_line (fraction_word cycle.now.num cycle.now.den))) }
{
    lines.put(b"cycle")?;
    put_fraction(lines, cycle)?;
    lines.put(b"\n")
}

/// Writes the line of a phase.
fn put_phase(
    lines: &mut Lines,
    name: &[u8],
    start: &Fraction,
    width: &Fraction,
) -> Result<(), OutOfMemory>
    ensures { OnOk result (lines.new ≡ lines.old
        ++ ended (phase_line name.now (fraction_word start.now.num start.now.den)
        (fraction_word width.now.num width.now.den))) }
{
    lines.put(b"phase")?;
    put_word(lines, name)?;
    put_word(lines, b"start")?;
    put_fraction(lines, start)?;
    put_word(lines, b"width")?;
    put_fraction(lines, width)?;
    lines.put(b"\n")
}

/// Writes the line of each phase.
fn put_phases(lines: &mut Lines, names: &[Name], schedule: &Schedule) -> Result<(), OutOfMemory>
    requires den { IsDenominator schedule.now.den }
    requires starts { length schedule.now.starts ≡ length names.now }
    requires widths { length schedule.now.widths ≡ length names.now }
    ensures { OnOk result (AppendsLines (ArePhaseLines names.now schedule.now (length names.now)) lines.old lines.new) }
{
    let starts = schedule.starts.items();
    let widths = schedule.widths.items();
    for index in 0..names.len() {
        put_phase(
            lines,
            names[index].bytes(),
            &lowest(starts[index], schedule.den),
            &lowest(widths[index], schedule.den),
        )?;
    }
    Ok(())
}

/// Writes the line of an element.
fn put_late(lines: &mut Lines, name: &[u8], late: &Fraction) -> Result<(), OutOfMemory>
    ensures { OnOk result (lines.new ≡ lines.old
        ++ ended (late_line name.now (fraction_word late.now.num late.now.den))) }
{
    lines.put(b"element")?;
    put_word(lines, name)?;
    put_word(lines, b"late")?;
    put_fraction(lines, late)?;
    lines.put(b"\n")
}

/// Writes the line of each element, with its departure over the denominator.
fn put_departures(
    lines: &mut Lines,
    elements: &[Element],
    den: i64,
    late: &[i64],
) -> Result<(), OutOfMemory>
    requires den { IsDenominator den }
    requires late { length late.now ≡ length elements.now }
    ensures { OnOk result
        (AppendsLines (AreLateLines elements.now den late.now (length elements.now)) lines.old lines.new) }
{
    for number in 0..elements.len() {
        put_late(
            lines,
            elements[number].name.bytes(),
            &lowest(late[number], den),
        )?;
    }
    Ok(())
}

/// The text of the report of a schedule with its departures, and of the chain that forbids every smaller cycle time.
fn least_text(
    alloc: Global,
    system: &System,
    schedule: &Schedule,
    departures: &[i64],
    chain: &[Member],
) -> Result<Vec<u8>, OutOfMemory>
    requires schedule { IsInRange schedule.now }
    requires starts { length schedule.now.starts ≡ phase_count system.now.flat }
    requires widths { length schedule.now.widths ≡ phase_count system.now.flat }
    requires departures { length departures.now ≡ element_count system.now.flat }
    requires chain { IsChainInRange chain.now }
    requires members { All (IsMember system.now) chain.now }
    ensures { IfOk result (λ text. IsLeastReport system.now.flat schedule.now departures.now chain.now text.items) }
{
    let flat = system.flat();
    let mut lines = Lines::new(alloc);
    put_cycle(&mut lines, &lowest(schedule.cycle, schedule.den))?;
    put_phases(&mut lines, flat.phases().items(), schedule)?;
    put_departures(&mut lines, flat.elements(), schedule.den, departures)?;
    put_chain(&mut lines, system, chain)?;
    Ok(lines.into_bytes())
}

/// The text of the report of a chain that forbids every cycle time.
fn never_text(alloc: Global, system: &System, chain: &[Member]) -> Result<Vec<u8>, OutOfMemory>
    requires chain { IsChainInRange chain.now }
    requires members { All (IsMember system.now) chain.now }
    ensures { IfOk result (λ text. text.items ≡ text_of (codes "never" ∷ chain_lines system.now.flat chain.now)) }
{
    let mut lines = Lines::new(alloc);
    lines.put(b"never\n")?;
    put_chain(&mut lines, system, chain)?;
    Ok(lines.into_bytes())
}

/// The text of the report of a valid certificate: `cycle F`, for each phase `phase NAME start F width F` and for
/// each element `element NAME late F`, or `never`; then `chain M delay D cycles C`, and for each of the chain's M
/// members its kind, the names of its phases or elements or the number of its bound, and `delay D cycles C`, and
/// after a reach `through NAME` for each inner bit on its path. F is in femtoseconds, as a fraction in lowest
/// terms, D in femtoseconds.
pub fn report_text(
    alloc: Global,
    system: &System,
    certificate: &Certificate,
) -> Result<Vec<u8>, OutOfMemory>
    requires valid { IsValid system.now certificate.now }
    requires in_range { IsCertificateInRange certificate.now }
    ensures { IfOk result (λ text. IsReportText system.now.flat certificate.now text.items) }
{
    match certificate {
        Certificate::Least {
            schedule,
            departures,
            chain,
        } => least_text(alloc, system, schedule, departures.items(), chain.items()),
        Certificate::Never { chain } => never_text(alloc, system, chain.items()),
    }
}
