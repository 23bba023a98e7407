//! What is gathered for a design before it is made.
ghost use Rattle.std.specs.Prelude.{MatchResult};
ghost use Rattle.mintc_text.specs.Stops.{StopsAt};
ghost use Rattle.mintc_text.specs.declared.limits.Most.{Most};
ghost use Rattle.mintc_flatten_hierarchy.specs.Shape.{IsFlattened};
ghost use Rattle.mintc_annotate.specs.Gathered.{AreGathered, IsResolved};
ghost use Rattle.mintc_annotate.specs.Made.{IsAnnotateRefusal};

use crate::clocked::clock_ports;
use crate::tracing::trace_all;
use mintc_annotate_delays::{Ranges, gather_ranges};
use mintc_annotate_resolve::inner_names;
use mintc_cells::Cells;
use mintc_clock::Clock;
use mintc_flatten_hierarchy::Hierarchy;
use mintc_sdf::Delays;
use mintc_text::{Name, Numbers, Stop};
use std::alloc::Global;

/// What inner bits are called, what delays say, the phases of latches and flops, and how many bits the listed
/// inputs and outputs have, each up to `MOST_TOLD`.
#[derive(Drop)]
pub(crate) struct Gathered {
    pub(crate) names: Vec<Name>,
    pub(crate) ranges: Ranges,
    pub(crate) phases: Numbers,
    pub(crate) inputs: u64,
    pub(crate) outputs: u64,
}

/// All that is gathered. The refusal is NoInstance of the clock, NoInstance or NoArc of the first delay that has
/// one, or NoPhase; in that order.
pub(crate) fn gather(
    alloc: Global,
    hierarchy: &Hierarchy,
    cells: &Cells,
    clock: &Clock,
    delays: &Delays,
) -> Result<Gathered, Stop>
    requires { IsFlattened cells.now hierarchy.now }
    ensures { MatchResult result (λ g. AreGathered hierarchy.now cells.now clock.now g
        × IsResolved hierarchy.now cells.now delays.now.items g)
        (StopsAt (λ r. (most : Most) → IsAnnotateRefusal most hierarchy.now cells.now clock.now delays.now.items r)) }
{
    let names = inner_names(alloc, hierarchy)?;
    let clocked = clock_ports(alloc, &names, hierarchy.ports.items(), clock)?;
    let ranges = gather_ranges(alloc, hierarchy, cells, &names, delays.items.items())?;
    let phases = trace_all(alloc, hierarchy, cells, &clocked.spots)?;
    Ok(Gathered {
        names,
        ranges,
        phases,
        inputs: clocked.inputs,
        outputs: clocked.outputs,
    })
}
