//! The design of files.
ghost use Rattle.std.specs.Prelude.{◌≡◌, ◌<◌, ◌≤◌, ◌+◌, ℕ, length, map, min, None, All, IfOk, MatchResult};
ghost use Rattle.mintc_text.specs.Limits.{AreLimits};
ghost use Rattle.mintc_text.specs.Refusals.{over_limit};
ghost use Rattle.mintc_text.specs.declared.limits.TheConstants.{MOST_ELEMENTS, MOST_INNER, MOST_LEAVES, MOST_TOLD};
ghost use Rattle.mintc_text.specs.Stops.{StopsAt};
ghost use Rattle.mintc_flatten_hierarchy.specs.Shape.{IsFlattened, IsGivenHierarchy};
ghost use Rattle.mintc_timing.specs.Limits.{HasParts, quantities, limit_of};
ghost use Rattle.mintc_clock.specs.declared.clock.Clock.{Clock};
ghost use Rattle.mintc_annotate_delays.specs.Ranges.{look};
ghost use Rattle.mintc_annotate.specs.Given.{IsGivenClock, AreGivenDelays};
ghost use Rattle.mintc_annotate.specs.Gathered.{AreFew, AreGathered, AreListed, design_of_gathered};
ghost use Rattle.mintc_annotate.specs.Counts.{leaf_arc_count};
ghost use Rattle.mintc_annotate.specs.Phases.{storage};
ghost use Rattle.mintc_annotate.specs.Made.{elements_of, arcs_of, IsAnnotated, IsAnnotateRefusal};

use crate::arcs::{push_inputs, push_joins, push_leaves, push_outputs};
use crate::counting::leaf_arc_count;
use crate::elements::{push_ports, push_storage};
use crate::gathering::{Gathered, gather};
use crate::listing::{ListedBits, listed_bits};
use crate::timed::Timed;
use mintc_cells::Cells;
use mintc_clock::{Clock, PhaseDef, clocks_keep_limits};
use mintc_flatten_hierarchy::{Hierarchy, hierarchies_are_in_shape};
use mintc_sdf::{Delays, delays_are_within};
use mintc_text::{Limits, Name, Names, OutOfMemory, Refusal, Stop};
use mintc_timing::{Bound, Element, Flat, TimingArc, first_over};
use std::alloc::Global;

/// How many elements a design has: its latches and flops, and the bits of its listed inputs and outputs, each of the
/// two up to `MOST_TOLD`.
#[derive(Clone, Copy)]
pub(crate) struct ElementCounts {
    stored: usize,
    inputs: u64,
    outputs: u64,
}

/// The refusal of the first quantity of the design that passes its limit, by how many elements it has.
fn limit_by_counts(
    limits: &Limits,
    hierarchy: &Hierarchy,
    cells: &Cells,
    clock: &Clock,
    counts: ElementCounts,
) -> Option<Refusal>
    requires shape { IsFlattened cells.now hierarchy.now }
    requires stored { counts.stored ≤ MOST_LEAVES }
    requires inputs { counts.inputs ≤ MOST_TOLD }
    requires outputs { counts.outputs ≤ MOST_TOLD }
    ensures refusal { (i o : ℕ) → counts.inputs ≡ min i MOST_TOLD → counts.outputs ≡ min o MOST_TOLD →
        result ≡ over_limit (quantities limits.now (length hierarchy.now.inner) (length clock.now.phases)
        (counts.stored + i + o)
        (length hierarchy.now.joins + leaf_arc_count hierarchy.now cells.now + i + o) (length clock.now.bounds)) }
    ensures kept { AreLimits limits.now }
{
    let elements = counts.stored as u64 + counts.inputs + counts.outputs;
    let arcs = hierarchy.joins.items().len() as u64
        + leaf_arc_count(hierarchy, cells)
        + counts.inputs
        + counts.outputs;
    first_over(
        limits,
        hierarchy.inner.items().len(),
        clock.phases.items().len(),
        elements as usize,
        arcs as usize,
        clock.bounds.items().len(),
    )
}

/// The refusal of the first quantity of the design that passes its limit.
fn limit(
    limits: &Limits,
    hierarchy: &Hierarchy,
    cells: &Cells,
    clock: &Clock,
    gathered: &Gathered,
) -> Option<Refusal>
    requires shape { IsFlattened cells.now hierarchy.now }
    requires gathered { AreGathered hierarchy.now cells.now clock.now gathered.now }
    ensures refusal { result ≡ limit_of limits.now
        (design_of_gathered hierarchy.now cells.now clock.now gathered.now) }
    ensures kept { AreLimits limits.now }
{
    let stored = gathered.phases.items().len();
    let counts = ElementCounts {
        stored,
        inputs: gathered.inputs,
        outputs: gathered.outputs,
    };
    limit_by_counts(limits, hierarchy, cells, clock, counts)
}

/// The elements: the latches and flops, the bits of listed inputs, the bits of listed outputs.
fn elements(
    alloc: Global,
    hierarchy: &Hierarchy,
    cells: &Cells,
    clock: &Clock,
    gathered: &Gathered,
    bits: &ListedBits,
) -> Result<Vec<Element>, OutOfMemory>
    requires shape { IsFlattened cells.now hierarchy.now }
    requires gathered { AreGathered hierarchy.now cells.now clock.now gathered.now }
    requires bits { AreListed hierarchy.now clock.now bits.now }
    ensures { IfOk result
        (λ v. v.items ≡ elements_of hierarchy.now cells.now clock.now (look gathered.now.ranges) gathered.now.phases) }
{
    let timed = Timed {
        hierarchy,
        cells,
        ranges: &gathered.ranges,
    };
    let names = &gathered.names;
    let phases = gathered.phases.items();
    let mut found = Vec::new(alloc);
    push_storage(alloc, &timed, phases, &mut found)?;
    let inputs = clock.inputs.items();
    push_ports(alloc, names, inputs, &bits.inputs, &mut found)?;
    let outputs = clock.outputs.items();
    push_ports(alloc, names, outputs, &bits.outputs, &mut found)?;
    Ok(found)
}

/// The arcs of joins, of leaves, of listed inputs and of listed outputs.
fn arcs(
    alloc: Global,
    hierarchy: &Hierarchy,
    cells: &Cells,
    gathered: &Gathered,
    bits: &ListedBits,
) -> Result<Vec<TimingArc>, OutOfMemory>
    requires shape { IsFlattened cells.now hierarchy.now }
    requires stored { length gathered.now.phases ≡ length (storage hierarchy.now cells.now) }
    requires inputs { All (λ x. x.bit < MOST_INNER) bits.now.inputs.items }
    requires outputs { All (λ x. x.bit < MOST_INNER) bits.now.outputs.items }
    requires few { length gathered.now.phases + length bits.now.inputs.items + length bits.now.outputs.items ≤
        MOST_ELEMENTS }
    ensures { (clock : Clock) → AreListed hierarchy.now clock bits.now →
        IfOk result (λ v. v.items ≡ arcs_of hierarchy.now cells.now clock (look gathered.now.ranges)) }
{
    let ranges = &gathered.ranges;
    let stored = gathered.phases.items().len() as u32;
    let first_output = stored + bits.inputs.len() as u32;
    let elements = first_output + bits.outputs.len() as u32;
    let timed = Timed {
        hierarchy,
        cells,
        ranges,
    };
    let mut found = Vec::new(alloc);
    push_joins(&mut found, ranges, elements, hierarchy.joins.items())?;
    push_leaves(&mut found, &timed, elements)?;
    push_inputs(&mut found, elements, stored, &bits.inputs)?;
    push_outputs(&mut found, ranges, elements, first_output, &bits.outputs)?;
    Ok(found)
}

/// The names of phases.
pub fn phase_names(alloc: Global, phases: &[PhaseDef]) -> Result<Vec<Name>, OutOfMemory>
    ensures { IfOk result (λ v. v.items ≡ map (λ p. p.name) phases.now) }
{
    let mut names = Vec::new(alloc);
    for phase in phases {
        let name = phase.name.copy(alloc)?;
        names.push(name)?;
    }
    Ok(names)
}

/// The same bounds once more.
pub fn copy_bounds(alloc: Global, bounds: &[Bound]) -> Result<Vec<Bound>, OutOfMemory>
    ensures { IfOk result (λ v. v.items ≡ bounds.now) }
{
    let mut copy = Vec::new(alloc);
    copy.extend_from_slice(bounds)?;
    Ok(copy)
}

/// The parts of a design besides what its inner bits are called.
#[derive(Drop)]
pub(crate) struct Parts {
    phases: Names,
    elements: Vec<Element>,
    arcs: Vec<TimingArc>,
    bounds: Vec<Bound>,
}

/// The elements and the arcs of a design.
fn elements_and_arcs(
    alloc: Global,
    hierarchy: &Hierarchy,
    cells: &Cells,
    clock: &Clock,
    gathered: &Gathered,
) -> Result<(Vec<Element>, Vec<TimingArc>), OutOfMemory>
    requires shape { IsFlattened cells.now hierarchy.now }
    requires gathered { AreGathered hierarchy.now cells.now clock.now gathered.now }
    requires few { AreFew hierarchy.now clock.now gathered.now }
    ensures elements { IfOk result (λ both. both.0.items
        ≡ elements_of hierarchy.now cells.now clock.now (look gathered.now.ranges) gathered.now.phases) }
    ensures arcs { IfOk result (λ both. both.1.items
        ≡ arcs_of hierarchy.now cells.now clock.now (look gathered.now.ranges)) }
{
    let bits = listed_bits(alloc, hierarchy, clock)?;
    let elements = elements(alloc, hierarchy, cells, clock, gathered, &bits)?;
    let arcs = arcs(alloc, hierarchy, cells, gathered, &bits)?;
    Ok((elements, arcs))
}

/// The parts of the design of what is gathered.
fn parts_of(
    alloc: Global,
    hierarchy: &Hierarchy,
    cells: &Cells,
    clock: &Clock,
    gathered: &Gathered,
) -> Result<Parts, OutOfMemory>
    requires shape { IsFlattened cells.now hierarchy.now }
    requires gathered { AreGathered hierarchy.now cells.now clock.now gathered.now }
    requires few { AreFew hierarchy.now clock.now gathered.now }
    ensures phases { IfOk result (λ parts. parts.phases ≡ map (λ p. p.name) clock.now.phases) }
    ensures elements { IfOk result (λ parts. parts.elements.items
        ≡ elements_of hierarchy.now cells.now clock.now (look gathered.now.ranges) gathered.now.phases) }
    ensures arcs { IfOk result (λ parts. parts.arcs.items
        ≡ arcs_of hierarchy.now cells.now clock.now (look gathered.now.ranges)) }
    ensures bounds { IfOk result (λ parts. parts.bounds.items ≡ clock.now.bounds) }
{
    let phases = Names::new(phase_names(alloc, clock.phases.items())?);
    let bounds = copy_bounds(alloc, clock.bounds.items())?;
    let (elements, arcs) = elements_and_arcs(alloc, hierarchy, cells, clock, gathered)?;
    Ok(Parts {
        phases,
        elements,
        arcs,
        bounds,
    })
}

/// The design of what is gathered, which is within the limits of this run.
fn build(
    alloc: Global,
    limits: &Limits,
    hierarchy: &Hierarchy,
    cells: &Cells,
    clock: &Clock,
    gathered: Gathered,
) -> Result<Flat, Stop>
    requires shape { IsFlattened cells.now hierarchy.now }
    requires gathered { AreGathered hierarchy.now cells.now clock.now gathered }
    requires parts { HasParts (design_of_gathered hierarchy.now cells.now clock.now gathered) }
    requires few { AreFew hierarchy.now clock.now gathered }
    requires within { limit_of limits.now (design_of_gathered hierarchy.now cells.now clock.now gathered) ≡ None }
    ensures { MatchResult result (λ flat. flat ≡ design_of_gathered hierarchy.now cells.now clock.now gathered)
        (StopsAt (λ refused. ⊥)) }
{
    let parts = parts_of(alloc, hierarchy, cells, clock, &gathered)?;
    let inner = Names::new(gathered.names);
    Ok(Flat::new(
        limits,
        parts.phases,
        parts.elements,
        inner,
        parts.arcs,
        parts.bounds,
    )?)
}

/// The same over a hierarchy in shape.
fn annotate_in_shape(
    alloc: Global,
    limits: &Limits,
    hierarchy: &Hierarchy,
    cells: &Cells,
    clock: &Clock,
    delays: &Delays,
) -> Result<Flat, Stop>
    requires shape { IsFlattened cells.now hierarchy.now }
    requires clock { IsGivenClock clock.now }
    requires delays { AreGivenDelays delays.now.items }
    ensures { MatchResult result (IsAnnotated limits.now hierarchy.now cells.now clock.now delays.now.items)
        (StopsAt (IsAnnotateRefusal limits.now hierarchy.now cells.now clock.now delays.now.items)) }
{
    clocks_keep_limits();
    delays_are_within();
    // The rules that cells keep are known from the count on.
    let _count = cells.count();
    let gathered = gather(alloc, hierarchy, cells, clock, delays)?;
    match limit(limits, hierarchy, cells, clock, &gathered) {
        Some(refusal) => Err(Stop::Refused(refusal)),
        None => build(alloc, limits, hierarchy, cells, clock, gathered),
    }
}

/// The design of a hierarchy with its cells, clock and delays. The refusal is NoInstance of the clock, NoInstance or
/// NoArc of the first delay that has one, NoPhase, or Limit of inner bits, phases, elements, arcs or bounds in this
/// run; in that order.
pub fn annotate(
    alloc: Global,
    limits: &Limits,
    hierarchy: &Hierarchy,
    cells: &Cells,
    clock: &Clock,
    delays: &Delays,
) -> Result<Flat, Stop>
    requires hierarchy { IsGivenHierarchy cells.now hierarchy.now }
    requires clock { IsGivenClock clock.now }
    requires delays { AreGivenDelays delays.now.items }
    ensures { MatchResult result (IsAnnotated limits.now hierarchy.now cells.now clock.now delays.now.items)
        (StopsAt (IsAnnotateRefusal limits.now hierarchy.now cells.now clock.now delays.now.items)) }
{
    hierarchies_are_in_shape();
    annotate_in_shape(alloc, limits, hierarchy, cells, clock, delays)
}
