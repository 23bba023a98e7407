//! The design of texts that are read.
ghost use Rattle.std.specs.Prelude.{MatchResult};
ghost use Rattle.mintc_text.specs.Stops.{StopsAt};
ghost use Rattle.mintc_netlist.specs.Ordinary.{IsOrdinary};
ghost use Rattle.mintc_annotate.specs.Given.{IsGivenClock};
ghost use Rattle.mintc_edges.specs.Given.{AreGivenEdgeDelays};
ghost use Rattle.mintcx_edges.specs.Seen.{IsReadDesign, IsReadRefusal};

use mintc_cells::Cells;
use mintc_clock::Clock;
use mintc_edges::{Sources, edges};
use mintc_flatten::flatten;
use mintc_netlist::Netlist;
use mintc_sdf_edges::EdgeDelays;
use mintc_senses::Senses;
use mintc_text::{Limits, Stop};
use mintc_timing::Flat;
use std::alloc::Global;

/// What four texts say, each by itself, and the senses of the cells.
#[derive(Drop)]
pub(crate) struct Read {
    pub(crate) netlist: Netlist,
    pub(crate) delays: EdgeDelays,
    pub(crate) cells: Cells,
    pub(crate) senses: Senses,
    pub(crate) clock: Clock,
}

/// The design of what texts say, or the first refusal of their hierarchy and of what is made of it.
pub(crate) fn design_of(alloc: Global, limits: &Limits, read: &Read) -> Result<Flat, Stop>
    requires netlist { IsOrdinary read.now.netlist }
    requires delays { AreGivenEdgeDelays read.now.delays.items }
    requires clock { IsGivenClock read.now.clock }
    ensures { MatchResult result (IsReadDesign limits.now read.now.netlist read.now.cells read.now.senses
        read.now.clock read.now.delays.items) (StopsAt (IsReadRefusal limits.now read.now.netlist read.now.cells
        read.now.senses read.now.clock read.now.delays.items)) }
{
    let top = read.clock.top.as_ref();
    let hierarchy = flatten(alloc, limits, &read.netlist, &read.cells, top)?;
    let sources = Sources {
        hierarchy: &hierarchy,
        cells: &read.cells,
        senses: &read.senses,
        clock: &read.clock,
    };
    edges(alloc, limits, &sources, &read.delays)
}
