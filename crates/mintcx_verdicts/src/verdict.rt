//! The text of a verdict.
ghost use Rattle.std.specs.Prelude.{◌≡◌, ◌≢◌, ◌++◌, List, All, IfOk, OnOk};
ghost use Rattle.mintc_fraction.specs.Ratio.{over};
ghost use Rattle.mintc_text.specs.Lines.{ended};
ghost use Rattle.mintc_certificate.specs.Ranges.{IsCertificateInRange, IsChainInRange};
ghost use Rattle.mintc_certificate.specs.Valid.{IsNamed};
ghost use Rattle.mintc_checker.specs.Verdicts.{FailsFirst, IsVerdict};
ghost use Rattle.mintcx_judgements.specs.Named.{AreNamed};
ghost use Rattle.mintcx_verdicts.specs.Chains.{AreSums, stuck_line, sums_over, tight_line};
ghost use Rattle.mintcx_verdicts.specs.Verdicts.{IsReason, IsVerdictText, IsWritten, chain_unit, test_of};

use crate::counts::put_counts;
use crate::elements::{put_departures, put_setups};
use crate::examined::Examined;
use crate::heads::{cycle_time, put_failed, put_valid};
use crate::judging::Judging;
use crate::ring::put_ring;
use crate::rules::put_rules;
use crate::sums::{delay, put_stuck, put_tight};
use mintc_certificate::{Certificate, ChainSums, Departures, Member, Members, sums_of};
use mintc_checker::Verdict;
use mintc_text::{Bytes, Lines, OutOfMemory};
use mintc_timing::{Schedule, System, Violation};
use mintcx_frame::View;
use mintcx_judgements::Told;
use std::alloc::Global;

/// The sums over a chain.
fn sums_over(system: &System, chain: &[Member]) -> ChainSums
    requires named { All (IsNamed system.now.flat) chain.now }
    requires chain { IsChainInRange chain.now }
    ensures value { result ≡ sums_over system.now.flat chain.now }
    ensures range { AreSums result }
{
    sums_of(system.flat(), chain)
}

/// Writes the sums of a chain that is to forbid each cycle time below a schedule's.
fn put_least_sums(lines: &mut Lines, told: &Told<'_>, chain: &[Member]) -> Result<(), OutOfMemory>
    requires named { All (IsNamed told.now.system.now.flat) chain.now }
    requires chain { IsChainInRange chain.now }
    ensures { OnOk result (lines.new ≡ lines.old ++ ended (tight_line told.now.unit
        (over told.now.schedule.now.cycle told.now.schedule.now.den)
        (sums_over told.now.system.now.flat chain.now))) }
{
    let _flat = told.flat();
    let sums = sums_over(told.system, chain);
    put_tight(lines, told.unit, &cycle_time(told.schedule), &sums)
}

/// Writes why a schedule with its departures and a chain fails the test of a number behind the first.
fn put_least_reason(
    alloc: Global,
    lines: &mut Lines,
    judging: &Judging<'_>,
    chain: &[Member],
    violations: &[Violation],
    number: u32,
) -> Result<(), OutOfMemory>
    requires behind { number ≢ 1 }
    requires chain { IsChainInRange chain.now }
    requires fails { FailsFirst judging.now.told.system.now
        (Certificate.Least judging.now.told.schedule.now judging.now.departures.now chain.now) (test_of number) }
    requires named { AreNamed judging.now.told.system.now violations.now }
    ensures { OnOk result (IsWritten (IsReason judging.now.told.system.now
        (Certificate.Least judging.now.told.schedule.now judging.now.departures.now chain.now)
        judging.now.told.unit violations.now (test_of number)) lines.old lines.new) }
{
    let told = &judging.told;
    match number {
        2 => put_rules(lines, told, false, violations),
        3 => put_rules(lines, told, true, violations),
        4 => put_departures(alloc, lines, judging),
        5 => put_setups(alloc, lines, judging),
        6 => put_ring(lines, told.system, chain),
        _ => put_least_sums(lines, told, chain),
    }
}

/// Writes why a chain alone fails a test.
fn put_never_reason(
    lines: &mut Lines,
    system: &System,
    chain: &[Member],
    number: u32,
    view: &View,
) -> Result<(), OutOfMemory>
    requires chain { IsChainInRange chain.now }
    requires fails { FailsFirst system.now (Certificate.Never chain.now) (test_of number) }
    ensures { (vs : List Violation) → OnOk result (IsWritten (IsReason system.now (Certificate.Never chain.now)
        (chain_unit system.now (Certificate.Never chain.now) view.now) vs (test_of number)) lines.old lines.new) }
{
    if number == 6 {
        return put_ring(lines, system, chain);
    }
    let sums = sums_over(system, chain);
    put_stuck(lines, view.unit_for(&delay(&sums)), &sums)
}

/// What a certificate with a schedule says.
#[derive(Clone, Copy)]
struct Least<'a> {
    schedule: &'a Schedule,
    departures: &'a Departures,
    chain: &'a Members,
}

/// Writes why a certificate with a schedule fails the test of a number.
fn put_least(
    alloc: Global,
    lines: &mut Lines,
    examined: &Examined<'_>,
    least: &Least<'_>,
    number: u32,
    view: &View,
) -> Result<(), OutOfMemory>
    requires is_least { examined.now.certificate.now
        ≡ Certificate.Least least.now.schedule.now least.now.departures.now least.now.chain.now }
    requires in_range { IsCertificateInRange examined.now.certificate.now }
    requires fails { FailsFirst examined.now.system.now examined.now.certificate.now (test_of number) }
    requires named { AreNamed examined.now.system.now examined.now.violations.now }
    ensures { OnOk result (IsWritten (IsReason examined.now.system.now examined.now.certificate.now
        (chain_unit examined.now.system.now examined.now.certificate.now view.now) examined.now.violations.now
        (test_of number)) lines.old lines.new) }
{
    let system = examined.system;
    let schedule = least.schedule;
    let departures = least.departures.items();
    if number == 1 {
        return put_counts(lines, system.flat(), schedule, departures);
    }
    let unit = view.unit_for(&cycle_time(schedule));
    let told = Told {
        system,
        schedule,
        unit,
    };
    let judging = Judging { told, departures };
    let violations = examined.violations;
    put_least_reason(
        alloc,
        lines,
        &judging,
        least.chain.items(),
        violations,
        number,
    )
}

/// Writes why a certificate fails the test of a number.
fn put_reason(
    alloc: Global,
    lines: &mut Lines,
    examined: &Examined<'_>,
    number: u32,
    view: &View,
) -> Result<(), OutOfMemory>
    requires in_range { IsCertificateInRange examined.now.certificate.now }
    requires fails { FailsFirst examined.now.system.now examined.now.certificate.now (test_of number) }
    requires named { AreNamed examined.now.system.now examined.now.violations.now }
    ensures { OnOk result (IsWritten (IsReason examined.now.system.now examined.now.certificate.now
        (chain_unit examined.now.system.now examined.now.certificate.now view.now) examined.now.violations.now
        (test_of number)) lines.old lines.new) }
{
    match examined.certificate {
        Certificate::Least {
            schedule,
            departures,
            chain,
        } => {
            let least = Least {
                schedule,
                departures,
                chain,
            };
            put_least(alloc, lines, examined, &least, number, view)
        }
        Certificate::Never { chain } => {
            put_never_reason(lines, examined.system, chain.items(), number, view)
        }
    }
}

/// The text of a verdict on a certificate: what it means that the certificate is valid, or the first test that fails,
/// and what fails it. The subject of the view is the certificate's name.
pub fn verdict_text(
    alloc: Global,
    examined: &Examined<'_>,
    view: &View,
) -> Result<Bytes, OutOfMemory>
    requires in_range { IsCertificateInRange examined.now.certificate.now }
    requires verdict { IsVerdict examined.now.system.now examined.now.certificate.now examined.now.verdict }
    requires named { AreNamed examined.now.system.now examined.now.violations.now }
    ensures { IfOk result (IsVerdictText examined.now.system.now examined.now.certificate.now examined.now.design.now
        view.now examined.now.violations.now examined.now.verdict) }
{
    let mut lines = Lines::new(alloc);
    match examined.verdict {
        Verdict::Valid => put_valid(&mut lines, examined.certificate, examined.design, view)?,
        Verdict::Invalid(number) => {
            put_failed(&mut lines, number, view)?;
            put_reason(alloc, &mut lines, examined, number, view)?;
        }
    }
    Ok(Bytes::new(lines.into_bytes()))
}
