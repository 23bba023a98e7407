//! The text of an optimum, gate by gate.
ghost use Rattle.std.specs.Prelude.{◌≡◌, ◌<◌, ◌++◌, ℕ, ℤ, All, IfOk, OnOk};
ghost use Rattle.mintc_certificate.specs.Ranges.{IsCertificateInRange, IsChainInRange};
ghost use Rattle.mintc_certificate.specs.Valid.{IsMember, IsValid};
ghost use Rattle.mintc_timing.specs.Design.{element_count};
ghost use Rattle.mintcx_chain.specs.Rows.{IsClocked, rows_of};
ghost use Rattle.mintcx_columns.specs.Tables.{table_text};
ghost use Rattle.mintcx_optima.specs.Least.{IsRing};
ghost use Rattle.mintcx_reports.specs.Hops.{IsTraced};
ghost use Rattle.mintcx_reports.specs.Reports.{IsReportOf, IsReportText, deciding_text, report_text};
ghost use Rattle.mintcx_reports.specs.Rows.{hop_grid};

use crate::borrowers::{Borrowing, borrowing_of, put_borrowers};
use crate::stages::hop_table;
use crate::told::Told;
use mintc_certificate::{Certificate, Member};
use mintc_text::{Bytes, Lines, Name, OutOfMemory};
use mintc_timing::{Flat, Schedule, System};
use mintcx_chain::{Stage, rows_of, sums_of};
use mintcx_frame::{View, put_foot, put_head, put_phases};
use mintcx_optima::{chain_of, cycle_of, never_of, put_decided, unit_of};
use std::alloc::Global;

/// A schedule with its departures, the cells of the gates by the numbers of their arcs, the stages of the chain that
/// decides, and the latches that borrow.
#[derive(Clone, Copy)]
struct Decided<'a> {
    schedule: &'a Schedule,
    departures: &'a [i64],
    cells: &'a [Name],
    stages: &'a [Stage],
    borrowing: &'a Borrowing,
}

/// The text of the hops of the chain that decides.
fn hops_text(
    alloc: Global,
    told: &Told,
    departures: &[i64],
    stages: &[Stage],
) -> Result<Bytes, OutOfMemory>
    requires clocked { IsClocked told.now.flat.now told.now.schedule.now departures.now }
    requires ring { IsRing told.now.flat.now stages.now }
    requires traced { All (IsTraced told.now.flat.now) stages.now }
    ensures { IfOk result (λ text. text ≡ table_text (hop_grid told.now.flat.now told.now.schedule.now
        told.now.cells.now told.now.unit stages.now
        (rows_of told.now.flat.now told.now.schedule.now departures.now stages.now))) }
{
    let rows = rows_of(alloc, told.flat, told.schedule, departures, stages)?;
    let table = hop_table(alloc, told, stages, rows.items())?;
    Ok(Bytes::new(table.text(alloc)?))
}

/// Writes the chain that decides: its sums, and its hops.
fn put_deciding(
    lines: &mut Lines,
    alloc: Global,
    told: &Told,
    departures: &[i64],
    stages: &[Stage],
) -> Result<(), OutOfMemory>
    requires clocked { IsClocked told.now.flat.now told.now.schedule.now departures.now }
    requires ring { IsRing told.now.flat.now stages.now }
    requires traced { All (IsTraced told.now.flat.now) stages.now }
    ensures { OnOk result (lines.new ≡ lines.old ++ deciding_text told.now.flat.now told.now.schedule.now
        departures.now told.now.cells.now told.now.unit stages.now) }
{
    let hops = hops_text(alloc, told, departures, stages)?;
    let sums = sums_of(stages);
    put_decided(lines, stages.len() as u64, &sums, told.unit)?;
    lines.put(b"\n")?;
    lines.put(hops.items())
}

/// Writes the report of a least cycle: its head, the phases of its schedule, the chain that decides hop by hop, and the
/// latches that borrow.
fn put_report(
    lines: &mut Lines,
    alloc: Global,
    flat: &Flat,
    decided: &Decided,
    view: &View,
) -> Result<(), OutOfMemory>
    requires clocked { IsClocked flat.now decided.now.schedule.now decided.now.departures.now }
    requires ring { IsRing flat.now decided.now.stages.now }
    requires traced { All (IsTraced flat.now) decided.now.stages.now }
    requires places { All (λ (place : ℤ × ℕ). place.1 < element_count flat.now) decided.now.borrowing.now.places.items }
    ensures { OnOk result (lines.new ≡ lines.old ++ report_text flat.now decided.now.schedule.now
        decided.now.departures.now decided.now.cells.now decided.now.stages.now
        decided.now.borrowing.now.latches decided.now.borrowing.now.places.items view.now) }
{
    let schedule = decided.schedule;
    let departures = decided.departures;
    let borrowing = decided.borrowing;
    let unit = unit_of(schedule, view);
    let told = Told {
        flat,
        schedule,
        cells: decided.cells,
        unit,
    };
    put_head(lines, b"least", &cycle_of(schedule), view)?;
    lines.put(b"\n")?;
    put_phases(lines, alloc, flat, schedule, unit)?;
    lines.put(b"\n")?;
    put_deciding(lines, alloc, &told, departures, decided.stages)?;
    lines.put(b"\n")?;
    put_borrowers(lines, alloc, &told, departures, borrowing, view)?;
    lines.put(b"\n")?;
    put_foot(lines, unit, b"")
}

/// The report of a least cycle.
fn report_of(
    alloc: Global,
    flat: &Flat,
    decided: &Decided,
    view: &View,
) -> Result<Bytes, OutOfMemory>
    requires clocked { IsClocked flat.now decided.now.schedule.now decided.now.departures.now }
    requires ring { IsRing flat.now decided.now.stages.now }
    requires traced { All (IsTraced flat.now) decided.now.stages.now }
    requires places { All (λ (place : ℤ × ℕ). place.1 < element_count flat.now) decided.now.borrowing.now.places.items }
    ensures { IfOk result (λ text. text ≡ report_text flat.now decided.now.schedule.now
        decided.now.departures.now decided.now.cells.now decided.now.stages.now
        decided.now.borrowing.now.latches decided.now.borrowing.now.places.items view.now) }
{
    let mut lines = Lines::new(alloc);
    put_report(&mut lines, alloc, flat, decided, view)?;
    Ok(Bytes::new(lines.into_bytes()))
}

/// The parts of the certificate of a least cycle.
#[derive(Clone, Copy)]
struct Least<'a> {
    schedule: &'a Schedule,
    departures: &'a [i64],
    members: &'a [Member],
}

/// The report of the least cycle of a certificate.
fn least_of(
    alloc: Global,
    system: &System,
    least: &Least,
    cells: &[Name],
    view: &View,
) -> Result<Bytes, OutOfMemory>
    requires clocked { IsClocked system.now.flat least.now.schedule.now least.now.departures.now }
    requires chain { IsChainInRange least.now.members.now }
    requires members { All (IsMember system.now) least.now.members.now }
    ensures { IfOk result (IsReportOf system.now least.now.schedule.now least.now.departures.now
        least.now.members.now cells.now view.now) }
{
    let stages = chain_of(alloc, system, least.departures, least.members)?;
    let borrowing = borrowing_of(alloc, system, least.schedule, least.departures)?;
    let decided = Decided {
        schedule: least.schedule,
        departures: least.departures,
        cells,
        stages: stages.items(),
        borrowing: &borrowing,
    };
    report_of(alloc, system.flat(), &decided, view)
}

/// The report of a certificate for people: as its text, with each hop of the chain, and the latches that borrow. The
/// cells are those of the gates by the numbers of their arcs; where there are none, or a name is empty, none is told.
pub fn report_text(
    alloc: Global,
    system: &System,
    certificate: &Certificate,
    cells: &[Name],
    view: &View,
) -> Result<Bytes, OutOfMemory>
    requires valid { IsValid system.now certificate.now }
    requires in_range { IsCertificateInRange certificate.now }
    ensures { IfOk result (IsReportText system.now certificate.now cells.now view.now) }
{
    match certificate {
        Certificate::Least {
            schedule,
            departures,
            chain,
        } => {
            let least = Least {
                schedule,
                departures: departures.items(),
                members: chain.items(),
            };
            least_of(alloc, system, &least, cells, view)
        }
        Certificate::Never { chain } => never_of(alloc, system, chain.items(), view),
    }
}
