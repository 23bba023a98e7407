//! The table of violations.
ghost use Rattle.std.specs.Prelude.{◌≡◌, ◌<◌, ◌++◌, ℕ, ℤ, length, map, All, IfOk, OnOk};
ghost use Rattle.csv.specs.Writing.{row_text};
ghost use Rattle.mintc_text.specs.Lines.{spaced};
ghost use Rattle.mintcx_judgements.specs.Named.{AreNamed, IsNamed};
ghost use Rattle.mintcx_judgements.specs.Sources.{from_of};
ghost use Rattle.mintcx_csv.specs.Records.{IsBetween, text_so_far};
ghost use Rattle.mintcx_csv.specs.Tables.{IsTable, by_rfc, shown_over};
ghost use Rattle.mintcx_csv.specs.Violations.{IsFailTable, both, fail_fields, fail_record, fail_records};
ghost use Rattle.mintcx_csv.specs.Violations.{kind_word, of_text, ring_text};

use crate::records::{Records, no_records, numeral, put_over, text_of};
use itoa::Buffer;
use mintc_text::{Bytes, Lines, OutOfMemory};
use mintc_timing::{Broken, System, Violation};
use mintcx_frame::{element_name, phase_name, put_number};
use mintcx_judgements::{Place, from_of, ranked};
use std::alloc::Global;

/// How many columns the table has before that of the denominator.
const FAIL_COLUMNS: usize = 3;

/// The word of a kind.
fn kind_word(broken: &Broken) -> &'static [u8]
    ensures { result.now ≡ kind_word broken.now }
{
    match broken {
        Broken::Cycle { .. } => b"cycle",
        Broken::Order { .. } => b"order",
        Broken::Span { .. } => b"span",
        Broken::Width { .. } => b"width",
        Broken::Apart { .. } => b"apart",
        Broken::Bound { .. } => b"bound",
        Broken::Loop { .. } => b"loop",
        Broken::Setup { .. } => b"setup",
        Broken::Hold { .. } => b"hold",
    }
}

/// Writes two names.
fn put_both(lines: &mut Lines, one: &[u8], other: &[u8]) -> Result<(), OutOfMemory>
    ensures { OnOk result (lines.new ≡ lines.old ++ both one.now other.now) }
{
    lines.put(one)?;
    lines.put(b" ")?;
    lines.put(other)
}

/// Writes names of elements from which the data of pairs comes, each after a space.
fn put_spaced(lines: &mut Lines, system: &System, pairs: &[u32]) -> Result<(), OutOfMemory>
    requires { All (λ n. n < length system.now.pairs) pairs.now }
    ensures { OnOk result (lines.new ≡ lines.old ++ spaced (map (from_of system.now) pairs.now)) }
{
    for pair in pairs {
        lines.put(b" ")?;
        lines.put(from_of(system, *pair))?;
    }
    Ok(())
}

/// Writes the elements round which data goes.
fn put_ring(lines: &mut Lines, system: &System, pairs: &[u32]) -> Result<(), OutOfMemory>
    requires { All (λ n. n < length system.now.pairs) pairs.now }
    ensures { OnOk result (lines.new ≡ lines.old ++ ring_text system.now pairs.now) }
{
    match pairs {
        [] => Ok(()),
        [first, rest @ ..] => {
            lines.put(from_of(system, *first))?;
            put_spaced(lines, system, rest)
        }
    }
}

/// Writes what a violation is of.
fn put_of(lines: &mut Lines, system: &System, broken: &Broken) -> Result<(), OutOfMemory>
    requires { IsNamed system.now broken.now }
    ensures { OnOk result (lines.new ≡ lines.old ++ of_text system.now broken.now) }
{
    let flat = system.flat();
    match broken {
        Broken::Cycle { phase } => lines.put(phase_name(flat, *phase)),
        Broken::Order { phase } => {
            put_both(
                lines,
                phase_name(flat, *phase),
                phase_name(flat, *phase + 1),
            )
        }
        Broken::Span { phase } => lines.put(phase_name(flat, *phase)),
        Broken::Width { phase } => lines.put(phase_name(flat, *phase)),
        Broken::Apart { i, j } => put_both(lines, phase_name(flat, *i), phase_name(flat, *j)),
        Broken::Bound { index } => put_number(lines, u64::from(*index) + 1),
        Broken::Loop { pairs } => put_ring(lines, system, pairs.items()),
        Broken::Setup { element } => lines.put(element_name(flat, *element)),
        Broken::Hold { element } => lines.put(element_name(flat, *element)),
    }
}

/// Writes the head line.
fn put_fail_head(records: &mut Records, den: i64) -> Result<(), OutOfMemory>
    requires { IsBetween records.old }
    ensures between { OnOk result (IsBetween records.new) }
    ensures text { OnOk result
        (text_so_far records.new ≡ text_so_far records.old ++ row_text by_rfc (shown_over den 3 fail_fields)) }
{
    put_over(records, &[b"kind", b"of", b"by", b"den"], FAIL_COLUMNS, den)
}

/// Writes the row of a violation.
fn put_violation(
    records: &mut Records,
    alloc: Global,
    system: &System,
    den: i64,
    violation: &Violation,
) -> Result<(), OutOfMemory>
    requires between { IsBetween records.old }
    requires named { IsNamed system.now violation.now.broken }
    ensures between { OnOk result (IsBetween records.new) }
    ensures text { OnOk result (text_so_far records.new
        ≡ text_so_far records.old ++ row_text by_rfc (shown_over den 3 (fail_record system.now den violation.now))) }
{
    let mut lines = Lines::new(alloc);
    put_of(&mut lines, system, &violation.broken)?;
    let of = lines.into_bytes();
    let (mut amounts, mut dens) = (Buffer::new(), Buffer::new());
    let by = numeral(&mut amounts, i128::from(violation.amount));
    let over = numeral(&mut dens, i128::from(den));
    put_over(
        records,
        &[kind_word(&violation.broken), &of, by, over],
        FAIL_COLUMNS,
        den,
    )
}

/// The table of violations in the order of their places.
fn ranked_csv(
    alloc: Global,
    system: &System,
    den: i64,
    violations: &[Violation],
    places: &[Place],
) -> Result<Bytes, OutOfMemory>
    requires named { AreNamed system.now violations.now }
    requires places { All (λ (place : ℕ × ℤ × ℕ). place.2 < length violations.now) places.now }
    ensures { IfOk result (IsTable (fail_records system.now den violations.now places.now)) }
{
    let mut records = no_records(alloc);
    put_fail_head(&mut records, den)?;
    for place in places {
        put_violation(&mut records, alloc, system, den, &violations[place.2])?;
    }
    text_of(records)
}

/// The table `kind,of,by` of the violations of a schedule with this denominator: the rules of the clock and a loop as
/// they stand, then the setups, then the holds, of each kind the worst first. Amounts are whole femtoseconds; where the
/// denominator is above 1, they are numerators over it, and it stands in a last column `den`.
pub fn fail_csv(
    alloc: Global,
    system: &System,
    den: i64,
    violations: &[Violation],
) -> Result<Bytes, OutOfMemory>
    requires { AreNamed system.now violations.now }
    ensures { IfOk result (IsFailTable system.now den violations.now) }
{
    let places = ranked(alloc, violations)?;
    ranked_csv(alloc, system, den, violations, &places)
}
