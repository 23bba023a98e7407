//! The phases of latches and flops.
ghost use Rattle.std.specs.Prelude.{◌≡◌, ◌<◌, ◌^◌, ◌-◌, All, ℕ, List, length, true, false, MatchResult};
ghost use Rattle.std.specs.Prelude.{MatchOption};
ghost use Rattle.mintc_text.specs.Stops.{StopsAt};
ghost use Rattle.mintc_flatten_hierarchy.specs.Shape.{IsFlattened, IsGivenHierarchy};
ghost use Rattle.mintc_annotate.specs.Given.{IsGivenClock};
ghost use Rattle.mintc_annotate.specs.Phases.{drives, IsStart, same_spot, first_at, AreTraced, IsUntraced, AreTraces};
ghost use Rattle.mintc_annotate.specs.Phases.{IsTraceRefusal};
ghost use Rattle.mintc_annotate_resolve.specs.Pins.{is_storage, leaf_cell};
ghost use Rattle.mintc_annotate.specs.Searches.{AreDrivers, AreLongJumps, IsPhaseFrom};
ghost use Rattle.mintc_annotate.specs.declared.searching.Drive.{Drive};

use crate::drivers::drivers;
use crate::searching::{Drive, Jump, Spot, end_of, jumps};
use crate::spots::spots_of;
use mintc_annotate_resolve::inner_names;
use mintc_cells::{Cell, Cells};
use mintc_clock::Clock;
use mintc_flatten_hierarchy::{Hierarchy, hierarchies_are_in_shape};
use mintc_text::{Numbers, Refusal, Stop};
use std::alloc::Global;

/// Where the search from a leaf starts, if it is a latch or a flop.
fn start_of(hierarchy: &Hierarchy, cells: &Cells, number: usize) -> Option<Spot>
    requires shape { IsFlattened cells.now hierarchy.now }
    requires leaf { number < length hierarchy.now.leaves }
    ensures { MatchOption result (is_storage (leaf_cell hierarchy.now cells.now number) ≡ false)
        (λ s. (is_storage (leaf_cell hierarchy.now cells.now number) ≡ true)
        × IsStart hierarchy.now number (leaf_cell hierarchy.now cells.now number) s
        × (s.bit < length hierarchy.now.inner)) }
{
    let leaf = &hierarchy.leaves.items()[number];
    match cells.cell(leaf.cell) {
        Cell::Latch { high, .. } => Some(Spot {
            bit: leaf.first_pin + 1,
            high: *high,
        }),
        Cell::Flop { rising, .. } => Some(Spot {
            bit: leaf.first_pin + 1,
            high: *rising,
        }),
        Cell::Gate { .. } | Cell::Clock { .. } => None,
    }
}

/// Whether two spots are one.
fn is_same(one: Spot, other: Spot) -> bool
    ensures { result ≡ same_spot one other }
{
    one.bit == other.bit && one.high == other.high
}

/// The number of the first phase at a spot.
fn first_at(spots: &[Spot], spot: Spot) -> Option<u32>
    requires { length spots.now < 2 ^ 32 - 1 }
    ensures { result ≡ first_at 1 spots.now spot }
{
    for number in 0..spots.len() {
        if is_same(spots[number], spot) {
            return Some(number as u32 + 1);
        }
    }
    None
}

/// The phase to which the search from a spot leads.
fn phase_from(table: &[Option<Drive>], jumps: &[Jump], spots: &[Spot], start: Spot) -> Option<u32>
    requires jumps { (length jumps.now ≡ length table.now) × All (λ j. j.bit < length table.now) jumps.now }
    requires spots { length spots.now < 2 ^ 32 - 1 }
    requires start { start.bit < length table.now }
    ensures { (ds : List Drive) → AreDrivers ds (length table.now) table.now →
        AreLongJumps ds (length table.now) jumps.now →
        MatchOption result ((p : ℕ) → IsPhaseFrom ds spots.now start p → ⊥) (IsPhaseFrom ds spots.now start) }
{
    match end_of(table, jumps, start) {
        Some(end) => first_at(spots, end),
        None => None,
    }
}

/// The phases of all latches and flops.
fn trace(
    alloc: Global,
    hierarchy: &Hierarchy,
    cells: &Cells,
    table: &[Option<Drive>],
    jumps: &[Jump],
    spots: &[Spot],
) -> Result<Numbers, Stop>
    requires shape { IsFlattened cells.now hierarchy.now }
    requires table { AreDrivers (drives hierarchy.now cells.now) (length hierarchy.now.inner) table.now }
    requires jumps { AreLongJumps (drives hierarchy.now cells.now) (length hierarchy.now.inner) jumps.now }
    requires spots { length spots.now < 2 ^ 32 - 1 }
    ensures { MatchResult result (AreTraced hierarchy.now cells.now spots.now)
        (StopsAt (IsUntraced hierarchy.now cells.now spots.now)) }
{
    let mut phases = Vec::new(alloc);
    for number in 0..hierarchy.leaves.items().len() {
        let Some(start) = start_of(hierarchy, cells, number) else {
            continue;
        };
        let Some(phase) = phase_from(table, jumps, spots, start) else {
            let element = u32::try_from(phases.len())?;
            return Err(Stop::Refused(Refusal::NoPhase { element }));
        };
        phases.push(phase)?;
    }
    Ok(Numbers::new(phases))
}

/// The phases of all latches and flops, through the drivers of all bits.
pub fn trace_all(
    alloc: Global,
    hierarchy: &Hierarchy,
    cells: &Cells,
    spots: &[Spot],
) -> Result<Numbers, Stop>
    requires shape { IsFlattened cells.now hierarchy.now }
    requires spots { length spots.now < 2 ^ 32 - 1 }
    ensures { MatchResult result (AreTraced hierarchy.now cells.now spots.now)
        (StopsAt (IsUntraced hierarchy.now cells.now spots.now)) }
{
    let table = drivers(alloc, hierarchy, cells)?;
    let jumps = jumps(alloc, &table)?;
    trace(alloc, hierarchy, cells, &table, &jumps, spots)
}

/// The same over a hierarchy in shape.
fn trace_in_shape(
    alloc: Global,
    hierarchy: &Hierarchy,
    cells: &Cells,
    clock: &Clock,
) -> Result<Numbers, Stop>
    requires shape { IsFlattened cells.now hierarchy.now }
    requires clock { IsGivenClock clock.now }
    ensures { MatchResult result (AreTraces hierarchy.now cells.now clock.now)
        (StopsAt (IsTraceRefusal hierarchy.now cells.now clock.now)) }
{
    let names = inner_names(alloc, hierarchy)?;
    let spots = spots_of(alloc, &names, hierarchy.ports.items(), clock.phases.items())?;
    trace_all(alloc, hierarchy, cells, &spots)
}

/// The phase of each latch and flop, from 1, in leaf order. The refusal is NoInstance of the clock, with the first
/// phase whose port isn't one bit of an input of the top, or NoPhase of the first latch or flop that has none.
pub fn trace_phases(
    alloc: Global,
    hierarchy: &Hierarchy,
    cells: &Cells,
    clock: &Clock,
) -> Result<Numbers, Stop>
    requires hierarchy { IsGivenHierarchy cells.now hierarchy.now }
    requires clock { IsGivenClock clock.now }
    ensures { MatchResult result (AreTraces hierarchy.now cells.now clock.now)
        (StopsAt (IsTraceRefusal hierarchy.now cells.now clock.now)) }
{
    hierarchies_are_in_shape();
    trace_in_shape(alloc, hierarchy, cells, clock)
}
