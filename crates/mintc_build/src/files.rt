//! The design of files.
ghost use Rattle.std.specs.Prelude.{◌≡◌, ◌≤◌, length, IfOk, IfErr};
ghost use Rattle.mintc_text.specs.declared.limits.TheConstants.{MOST_BYTES};
ghost use Rattle.mintc_text.specs.Stops.{StopsAt};
ghost use Rattle.mintc_timing.specs.Limits.{IsWithinLimits};
ghost use Rattle.mintc_build.specs.FilesDesign.{IsDesignOver, IsFilesDesign, IsFilesRefusal, IsLibertyDesign};
ghost use Rattle.mintc_build.specs.FilesDesign.{IsLibertyRefusal, IsRefusalOver, cell_text, file_bytes};

use mintc_annotate::annotate;
use mintc_cells::{Cells, read_cells};
use mintc_clock::read_clock;
use mintc_flatten::flatten;
use mintc_liberty::read_liberty;
use mintc_sdf::read_delays;
use mintc_text::{Limits, Stop};
use mintc_timing::{Flat, unrefused_are_within};
use mintc_verilog::read_netlist;
use std::alloc::Global;

/// What the cells are read from.
#[derive(Clone, Copy)]
enum CellFile<'a> {
    /// A description of cells.
    Description { text: &'a [u8] },
    /// A Liberty library.
    Library { text: &'a [u8] },
}

/// The cells of a text of either form, or its refusal.
fn cells_of(alloc: Global, file: CellFile) -> Result<Cells, Stop>
    requires { length (file_bytes file) ≤ MOST_BYTES }
    ensures value { IfOk result (cell_text file.entry).Describes }
    ensures stop { IfErr result (StopsAt (cell_text file.entry).Refuses) }
{
    match file {
        CellFile::Description { text } => read_cells(alloc, text),
        CellFile::Library { text } => read_liberty(alloc, text),
    }
}

/// The design of a netlist, delays, cells of either form and a clock, or their first refusal.
fn design_of_texts(
    alloc: Global,
    limits: &Limits,
    netlist: &[u8],
    delays: &[u8],
    cells: CellFile,
    clock: &[u8],
) -> Result<Flat, Stop>
    requires netlist { length netlist.now ≤ MOST_BYTES }
    requires delays { length delays.now ≤ MOST_BYTES }
    requires cells { length (file_bytes cells) ≤ MOST_BYTES }
    requires clock { length clock.now ≤ MOST_BYTES }
    ensures value { IfOk result (λ flat. IsDesignOver limits.now netlist.now delays.now (cell_text cells.entry)
        clock.now flat) }
    ensures within { IfOk result (λ flat. IsWithinLimits limits.now flat) }
    ensures stop { IfErr result (StopsAt (IsRefusalOver limits.now netlist.now delays.now (cell_text cells.entry)
        clock.now)) }
{
    unrefused_are_within();
    let modules = read_netlist(alloc, netlist)?;
    let said = read_delays(alloc, delays)?;
    let described = cells_of(alloc, cells)?;
    let clocked = read_clock(alloc, clock)?;
    let hierarchy = flatten(alloc, limits, &modules, &described, clocked.top.as_ref())?;
    annotate(alloc, limits, &hierarchy, &described, &clocked, &said)
}

/// The design of a netlist, delays, cells and a clock. The refusal is the first in the order of a run: Syntax of
/// the netlist; Syntax, Range or Negative of the delays; BadCell; BadClock; those of the hierarchy; those of the
/// clock's ports, of what delays speak of, of phases, and of limits.
pub fn from_files(
    alloc: Global,
    limits: &Limits,
    netlist: &[u8],
    delays: &[u8],
    cells: &[u8],
    clock: &[u8],
) -> Result<Flat, Stop>
    requires netlist { length netlist.now ≤ MOST_BYTES }
    requires delays { length delays.now ≤ MOST_BYTES }
    requires cells { length cells.now ≤ MOST_BYTES }
    requires clock { length clock.now ≤ MOST_BYTES }
    ensures value { IfOk result (λ flat. IsFilesDesign limits.now netlist.now delays.now cells.now clock.now flat) }
    ensures within { IfOk result (λ flat. IsWithinLimits limits.now flat) }
    ensures stop { IfErr result (StopsAt (IsFilesRefusal limits.now netlist.now delays.now cells.now clock.now)) }
{
    design_of_texts(
        alloc,
        limits,
        netlist,
        delays,
        CellFile::Description { text: cells },
        clock,
    )
}

/// The design of a netlist, delays, a Liberty library and a clock. The refusals are those of files, with the Syntax
/// of the library in the place of BadCell.
pub fn from_liberty(
    alloc: Global,
    limits: &Limits,
    netlist: &[u8],
    delays: &[u8],
    liberty: &[u8],
    clock: &[u8],
) -> Result<Flat, Stop>
    requires netlist { length netlist.now ≤ MOST_BYTES }
    requires delays { length delays.now ≤ MOST_BYTES }
    requires liberty { length liberty.now ≤ MOST_BYTES }
    requires clock { length clock.now ≤ MOST_BYTES }
    ensures value { IfOk result (λ flat. IsLibertyDesign limits.now netlist.now delays.now liberty.now clock.now flat) }
    ensures within { IfOk result (λ flat. IsWithinLimits limits.now flat) }
    ensures stop { IfErr result (StopsAt (IsLibertyRefusal limits.now netlist.now delays.now liberty.now clock.now)) }
{
    design_of_texts(
        alloc,
        limits,
        netlist,
        delays,
        CellFile::Library { text: liberty },
        clock,
    )
}
