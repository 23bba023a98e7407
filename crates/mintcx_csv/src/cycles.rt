//! The tables of what there is at a cycle time.
ghost use Rattle.std.specs.Prelude.{◌≡◌, ◌++◌, ℕ, length, map, IfOk, OnOk};
ghost use Rattle.std.specs.List.{range_with_len};
ghost use Rattle.csv.specs.Writing.{row_text};
ghost use Rattle.mintc_timing.specs.Clocking.{start_of, width_of};
ghost use Rattle.mintc_timing.specs.Design.{phase_count};
ghost use Rattle.mintc_timing.specs.Limits.{IsInRange, IsPhase};
ghost use Rattle.mintcx_cycles.specs.AtCycles.{IsAtCycle, IsSayable};
ghost use Rattle.mintcx_csv.specs.Cycles.{IsCycleTable, phase_fields, phase_records, shown_phase};
ghost use Rattle.mintcx_csv.specs.Records.{IsBetween, text_so_far};
ghost use Rattle.mintcx_csv.specs.Tables.{IsTable, by_rfc, shown_over, text_of as table_text};

use crate::optimum::never_csv;
use crate::records::{Records, no_records, numeral, put_over, text_of};
use itoa::Buffer;
use mintc_text::{Bytes, OutOfMemory};
use mintc_timing::{Flat, Schedule, System};
use mintcx_cycles::AtCycle;
use mintcx_frame::phase_name;
use std::alloc::Global;

/// How many columns the table of a schedule has before that of the denominator.
const PHASE_COLUMNS: usize = 3;

/// When a phase starts.
fn start_at(schedule: &Schedule, phase: u32) -> i64
    requires { IsPhase (length schedule.now.starts) phase }
    ensures { result ≡ start_of schedule.now phase }
{
    schedule.starts.items()[phase as usize - 1]
}

/// How wide a phase is.
fn width_at(schedule: &Schedule, phase: u32) -> i64
    requires { IsPhase (length schedule.now.widths) phase }
    ensures { result ≡ width_of schedule.now phase }
{
    schedule.widths.items()[phase as usize - 1]
}

/// Writes the head line of a schedule.
fn put_phase_head(records: &mut Records, den: i64) -> Result<(), OutOfMemory>
    requires { IsBetween records.old }
    ensures between { OnOk result (IsBetween records.new) }
    ensures text { OnOk result
        (text_so_far records.new ≡ text_so_far records.old ++ row_text by_rfc (shown_over den 3 phase_fields)) }
{
    put_over(
        records,
        &[b"phase", b"start", b"width", b"den"],
        PHASE_COLUMNS,
        den,
    )
}

/// Writes the row of a phase.
fn put_phase(
    records: &mut Records,
    flat: &Flat,
    schedule: &Schedule,
    phase: u32,
) -> Result<(), OutOfMemory>
    requires between { IsBetween records.old }
    requires in_range { IsInRange schedule.now }
    requires alike { length schedule.now.starts ≡ phase_count flat.now }
    requires phase { IsPhase (phase_count flat.now) phase }
    ensures between { OnOk result (IsBetween records.new) }
    ensures text { OnOk result (text_so_far records.new
        ≡ text_so_far records.old ++ row_text by_rfc (shown_phase flat.now schedule.now phase)) }
{
    let (mut starts, mut widths, mut dens) = (Buffer::new(), Buffer::new(), Buffer::new());
    let start = numeral(&mut starts, i128::from(start_at(schedule, phase)));
    let width = numeral(&mut widths, i128::from(width_at(schedule, phase)));
    let over = numeral(&mut dens, i128::from(schedule.den));
    put_over(
        records,
        &[phase_name(flat, phase), start, width, over],
        PHASE_COLUMNS,
        schedule.den,
    )
}

/// Writes the rows of the phases of a schedule.
fn put_phases(records: &mut Records, flat: &Flat, schedule: &Schedule) -> Result<(), OutOfMemory>
    requires between { IsBetween records.old }
    requires in_range { IsInRange schedule.now }
    requires alike { length schedule.now.starts ≡ phase_count flat.now }
    ensures between { OnOk result (IsBetween records.new) }
    ensures text { OnOk result (text_so_far records.new ≡ text_so_far records.old
        ++ table_text (map (shown_phase flat.now schedule.now) (range_with_len 1 (phase_count flat.now)))) }
{
    for at in 0..flat.phase_count() {
        put_phase(records, flat, schedule, at + 1)?;
    }
    Ok(())
}

/// The table of the phases of a schedule.
fn phases_csv(alloc: Global, flat: &Flat, schedule: &Schedule) -> Result<Bytes, OutOfMemory>
    requires in_range { IsInRange schedule.now }
    requires alike { length schedule.now.starts ≡ phase_count flat.now }
    ensures { IfOk result (IsTable (phase_records flat.now schedule.now)) }
{
    let mut records = no_records(alloc);
    put_phase_head(&mut records, schedule.den)?;
    put_phases(&mut records, flat, schedule)?;
    text_of(records)
}

/// The table `phase,start,width` of the phases of a right schedule, in whole femtoseconds, or that of `hops_csv` for
/// the chain that forbids a cycle time.
pub fn cycle_csv(alloc: Global, system: &System, found: &AtCycle) -> Result<Bytes, OutOfMemory>
    requires found { (cycle : ℕ) × IsAtCycle system.now cycle found.now }
    requires sayable { IsSayable found.now }
    ensures { IfOk result (IsCycleTable system.now.flat found.now) }
{
    match found {
        AtCycle::Right { schedule, .. } => phases_csv(alloc, system.flat(), schedule),
        AtCycle::Short { chain } => never_csv(alloc, system, chain.items()),
    }
}
