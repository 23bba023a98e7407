//! The design of four files with edges kept apart.
ghost use Rattle.std.specs.Prelude.{◌≡◌, ◌≤◌, length, IfOk, IfErr};
ghost use Rattle.mintc_text.specs.declared.limits.TheConstants.{MOST_BYTES};
ghost use Rattle.mintc_text.specs.Stops.{StopsAt};
ghost use Rattle.mintc_timing.specs.Limits.{IsWithinLimits};
ghost use Rattle.mintcx_edges.specs.EdgeFiles.{IsEdgeFilesDesign, IsEdgeFilesRefusal, IsEdgeLibertyDesign};
ghost use Rattle.mintcx_edges.specs.Halts.{IsEdgeHalt};

use crate::halt::Halt;
use crate::reading::{Read, design_of};
use mintc_clock::read_clock;
use mintc_sdf_edges::read_edge_delays;
use mintc_senses::read_senses;
use mintc_text::{Limits, Name, Stop};
use mintc_timing::{Flat, unrefused_are_within};
use mintc_verilog::read_netlist;
use mintcx_clock_cells::clock_cells;
use mintcx_sense_keys::read_sensed_cells;
use std::alloc::Global;

/// The design with edges apart of a netlist, delays, cells and a clock. The senses are those that the keys of the
/// description say; where they don't name a pin, each edge of it may make both edges of an output. The refusal is the
/// first in the order of a run: Syntax of the netlist; Syntax, Range or Negative of the delays; BadCell, of which rule
/// 9 is about the keys; BadClock; those of the hierarchy; those of the clock's ports, of what delays speak of, of
/// phases, and of limits, which count each element and each inner bit twice.
pub fn from_edge_files(
    alloc: Global,
    limits: &Limits,
    netlist: &[u8],
    delays: &[u8],
    cells: &[u8],
    clock: &[u8],
) -> Result<Flat, Stop>
    requires netlist { length netlist.now ≤ MOST_BYTES }
    requires delays { length delays.now ≤ MOST_BYTES }
    requires cells { length cells.now ≤ MOST_BYTES }
    requires clock { length clock.now ≤ MOST_BYTES }
    ensures value { IfOk result (IsEdgeFilesDesign limits.now netlist.now delays.now cells.now clock.now) }
    ensures within { IfOk result (IsWithinLimits limits.now) }
    ensures stop { IfErr result (StopsAt (IsEdgeFilesRefusal limits.now netlist.now delays.now cells.now clock.now)) }
{
    unrefused_are_within();
    let netlist = read_netlist(alloc, netlist)?;
    let delays = read_edge_delays(alloc, delays)?;
    let described = read_sensed_cells(alloc, cells)?;
    let clock = read_clock(alloc, clock)?;
    let read = Read {
        netlist,
        delays,
        cells: described.cells,
        senses: described.senses,
        clock,
    };
    design_of(alloc, limits, &read)
}

/// The design with edges apart of a netlist, delays, a Liberty library with gates of these names for the clock, and a
/// clock. The senses are those that the library says of its cells with these gates. The refusals are those of files,
/// with the Syntax of the library in the place of BadCell, and behind it the first gate that doesn't fit.
pub fn from_edge_liberty(
    alloc: Global,
    limits: &Limits,
    netlist: &[u8],
    delays: &[u8],
    library: &[u8],
    gates: &[Name],
    clock: &[u8],
) -> Result<Flat, Halt>
    requires netlist { length netlist.now ≤ MOST_BYTES }
    requires delays { length delays.now ≤ MOST_BYTES }
    requires library { length library.now ≤ MOST_BYTES }
    requires clock { length clock.now ≤ MOST_BYTES }
    ensures value { IfOk result (IsEdgeLibertyDesign limits.now netlist.now delays.now library.now gates.now
        clock.now) }
    ensures within { IfOk result (IsWithinLimits limits.now) }
    ensures halt { IfErr result (IsEdgeHalt limits.now netlist.now delays.now library.now gates.now clock.now) }
{
    unrefused_are_within();
    let netlist = read_netlist(alloc, netlist)?;
    let delays = read_edge_delays(alloc, delays)?;
    let cells = clock_cells(alloc, library, gates)?;
    let clock = read_clock(alloc, clock)?;
    let senses = read_senses(alloc, library, &cells)?;
    let read = Read {
        netlist,
        delays,
        cells,
        senses,
        clock,
    };
    Ok(design_of(alloc, limits, &read)?)
}
