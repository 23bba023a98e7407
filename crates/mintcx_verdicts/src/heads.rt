//! First lines of verdicts.
ghost use Rattle.std.specs.Prelude.{◌≡◌, ◌++◌, OnOk};
ghost use Rattle.mintc_fraction.specs.Ratio.{IsModest, over};
ghost use Rattle.mintc_timing.specs.Limits.{IsInRange};
ghost use Rattle.mintc_certificate.specs.Ranges.{IsCertificateInRange};
ghost use Rattle.mintcx_verdicts.specs.Verdicts.{failed_head, least_text, never_text, test_name, test_of};
ghost use Rattle.mintcx_verdicts.specs.Verdicts.{valid_text};

use mintc_certificate::Certificate;
use mintc_fraction::Fraction;
use mintc_text::{Lines, OutOfMemory};
use mintc_timing::Schedule;
use mintcx_frame::{View, put_number, put_subject, put_time};

/// What the test of a number looks at. Tests are counted from 1.
fn test_name(number: u32) -> &'static [u8]
    ensures { result.now ≡ test_name (test_of number) }
{
    match number {
        1 => b"counts",
        2 => b"rules of the clock",
        3 => b"bounds",
        4 => b"departures",
        5 => b"setups",
        6 => b"members of the chain",
        _ => b"sums of the chain",
    }
}

/// Writes the first line of a certificate that fails the test of a number, and an empty line.
pub(crate) fn put_failed(lines: &mut Lines, number: u32, view: &View) -> Result<(), OutOfMemory>
    ensures { OnOk result (lines.new ≡ lines.old ++ failed_head number view.now) }
{
    lines.put(b"invalid  test ")?;
    put_number(lines, u64::from(number))?;
    lines.put(b" of 7 fails: ")?;
    lines.put(test_name(number))?;
    put_subject(lines, view)?;
    lines.put(b"\n")
}

/// The cycle time of a schedule, in femtoseconds.
pub(crate) fn cycle_time(schedule: &Schedule) -> Fraction
    requires { IsInRange schedule.now }
    ensures value { result ≡ over schedule.now.cycle schedule.now.den }
    ensures modest { IsModest result }
{
    Fraction::new(i128::from(schedule.cycle), i128::from(schedule.den))
}

/// Writes what a valid certificate with a schedule means.
fn put_least(
    lines: &mut Lines,
    schedule: &Schedule,
    design: &[u8],
    view: &View,
) -> Result<(), OutOfMemory>
    requires { IsInRange schedule.now }
    ensures { OnOk result (lines.new ≡ lines.old ++ least_text schedule.now design.now view.now) }
{
    let cycle = cycle_time(schedule);
    lines.put(b"valid  cycle ")?;
    put_time(lines, &cycle, view.unit_for(&cycle))?;
    lines.put(b" is the least of all right schedules of ")?;
    lines.put(design)?;
    lines.put(b", and this schedule is right")?;
    put_subject(lines, view)
}

/// Writes what a valid certificate without a schedule means.
fn put_never(lines: &mut Lines, design: &[u8], view: &View) -> Result<(), OutOfMemory>
    ensures { OnOk result (lines.new ≡ lines.old ++ never_text design.now view.now) }
{
    lines.put(b"valid  no schedule of ")?;
    lines.put(design)?;
    lines.put(b" is right")?;
    put_subject(lines, view)
}

/// Writes what a valid certificate means.
pub(crate) fn put_valid(
    lines: &mut Lines,
    certificate: &Certificate,
    design: &[u8],
    view: &View,
) -> Result<(), OutOfMemory>
    requires { IsCertificateInRange certificate.now }
    ensures { OnOk result (lines.new ≡ lines.old ++ valid_text certificate.now design.now view.now) }
{
    match certificate {
        Certificate::Least { schedule, .. } => put_least(lines, schedule, design, view),
        Certificate::Never { .. } => put_never(lines, design, view),
    }
}
