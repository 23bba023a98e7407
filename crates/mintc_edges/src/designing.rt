//! The design with edges kept apart.
ghost use Rattle.std.specs.Prelude.{◌≡◌, ◌<◌, ◌≤◌, ◌+◌, ◌*◌, ◌^◌, ℕ, min, length, flat_map, true, false, None};
ghost use Rattle.std.specs.Prelude.{All, IfOk, MatchResult};
ghost use Rattle.mintc_text.specs.Limits.{AreLimits};
ghost use Rattle.mintc_text.specs.Stops.{StopsAt};
ghost use Rattle.mintc_text.specs.declared.limits.TheConstants.{MOST_ELEMENTS, MOST_INNER, MOST_LEAVES, MOST_TOLD};
ghost use Rattle.mintc_text.specs.declared.limits.Most.{Most};
ghost use Rattle.mintc_flatten_hierarchy.specs.Shape.{IsFlattened, IsGivenHierarchy};
ghost use Rattle.mintc_clock.specs.declared.clock.Clock.{Clock};
ghost use Rattle.mintc_text.specs.Refusals.{over_limit};
ghost use Rattle.mintc_timing.specs.Limits.{HasParts, quantities, limit_of};
ghost use Rattle.mintc_annotate.specs.Given.{IsGivenClock};
ghost use Rattle.mintc_annotate.specs.Gathered.{AreListed};
ghost use Rattle.mintc_annotate.specs.Made.{bits_of};
ghost use Rattle.mintc_annotate.specs.Phases.{storage};
ghost use Rattle.mintc_edges.specs.Given.{AreGivenEdgeDelays};
ghost use Rattle.mintc_sdf_edges.specs.Laws.{HasEdges};
ghost use Rattle.mintc_edges.specs.Numbers.{SenseOf, sense_of};
ghost use Rattle.mintc_edges.specs.Counts.{leaf_arc_count};
ghost use Rattle.mintc_edges.specs.Edges.{each_edge, edge_name};
ghost use Rattle.mintc_edges.specs.Apart.{IsEdgeDesign, IsEdgeRefusal};
ghost use Rattle.mintc_edges.specs.Gathered.{AreFew, AreGathered, IsResolved, design_of_gathered};
ghost use Rattle.mintc_edges.specs.Whole.{elements_kept, arcs_kept};

use crate::apart::Apart;
use crate::arcs::{push_inputs, push_joins, push_leaves, push_outputs};
use crate::counting::leaf_arc_count;
use crate::edge::Edge;
use crate::elements::{push_ports, push_storage};
use crate::gathering::gather_told;
use crate::told::Told;
use mintc_annotate::{ListedBits, clock_ports, copy_bounds, listed_bits, phase_names, trace_all};
use mintc_annotate_resolve::inner_names;
use mintc_cells::Cells;
use mintc_clock::{Clock, clocks_keep_limits};
use mintc_flatten_hierarchy::{Hierarchy, hierarchies_are_in_shape};
use mintc_sdf_edges::{EdgeDelays, edge_delays_are_within, edge_delays_have_edges};
use mintc_senses::Senses;
use mintc_text::limits::MOST_TOLD;
use mintc_text::{Limits, Name, Names, Numbers, OutOfMemory, Refusal, Stop};
use mintc_timing::{Element, Flat, TimingArc, first_over};
use std::alloc::Global;

/// What inner bits are called in the merged design, what delays say, the phases of latches and flops, and how many bits
/// the listed inputs and outputs have, each up to `MOST_TOLD`.
#[derive(Drop)]
pub(crate) struct Gathered {
    names: Vec<Name>,
    told: Told,
    phases: Numbers,
    inputs: u64,
    outputs: u64,
}

/// What a design is made from, but for its delays.
#[derive(Clone, Copy)]
pub struct Sources<'a> {
    pub hierarchy: &'a Hierarchy,
    /// The cells of its leaves.
    pub cells: &'a Cells,
    /// The senses of these cells.
    pub senses: &'a Senses,
    pub clock: &'a Clock,
}

/// All that is gathered. The refusal is NoInstance of the clock, NoInstance or NoArc of the first delay that has one,
/// or NoPhase; in that order.
fn gather(
    alloc: Global,
    hierarchy: &Hierarchy,
    cells: &Cells,
    clock: &Clock,
    delays: &EdgeDelays,
) -> Result<Gathered, Stop>
    requires shape { IsFlattened cells.now hierarchy.now }
    requires edges { All HasEdges delays.now.items }
    ensures { MatchResult result (λ g. AreGathered hierarchy.now cells.now clock.now g
        × IsResolved hierarchy.now cells.now delays.now.items g)
        (StopsAt (λ r. (most : Most) (senses : SenseOf) →
        IsEdgeRefusal most hierarchy.now cells.now senses clock.now delays.now.items r)) }
{
    let names = inner_names(alloc, hierarchy)?;
    let clocked = clock_ports(alloc, &names, hierarchy.ports.items(), clock)?;
    let told = gather_told(alloc, hierarchy, cells, &names, delays.items.items())?;
    let phases = trace_all(alloc, hierarchy, cells, &clocked.spots)?;
    Ok(Gathered {
        names,
        told,
        phases,
        inputs: clocked.inputs,
        outputs: clocked.outputs,
    })
}

/// Twice a number.
fn twice(number: usize) -> usize
    requires { number < 2 ^ 60 }
    ensures { result ≡ 2 * number }
{
    2 * number
}

/// How many elements of the merged design are latches and flops, and how many are bits of listed inputs and of listed
/// outputs, each of these up to `MOST_TOLD`.
#[derive(Clone, Copy)]
pub(crate) struct ElementCounts {
    stored: usize,
    inputs: u64,
    outputs: u64,
}

/// The refusal of the first quantity of the design that passes its limit, by how many elements the merged one has. Each
/// element and each inner bit stands twice.
fn limit_by_counts(limits: &Limits, sources: &Sources<'_>, counts: ElementCounts) -> Option<Refusal>
    requires shape { IsFlattened sources.now.cells.now sources.now.hierarchy.now }
    requires stored { counts.stored ≤ MOST_LEAVES }
    requires inputs { counts.inputs ≤ MOST_TOLD }
    requires outputs { counts.outputs ≤ MOST_TOLD }
    ensures refusal { (i o : ℕ) → counts.inputs ≡ min i MOST_TOLD → counts.outputs ≡ min o MOST_TOLD →
        result ≡ over_limit (quantities limits.now (2 * length sources.now.hierarchy.now.inner)
        (length sources.now.clock.now.phases) (2 * (counts.stored + (i + o)))
        (2 * (length sources.now.hierarchy.now.joins + (i + o)) + leaf_arc_count sources.now.hierarchy.now
        sources.now.cells.now (sense_of sources.now.senses.now sources.now.cells.now))
        (length sources.now.clock.now.bounds)) }
    ensures kept { AreLimits limits.now }
{
    let listed = counts.inputs + counts.outputs;
    let joins = (sources.hierarchy.joins.items().len() as u64).min(MOST_TOLD);
    let arcs = leaf_arc_count(sources.hierarchy, sources.cells, sources.senses);
    first_over(
        limits,
        twice(sources.hierarchy.inner.items().len()),
        sources.clock.phases.items().len(),
        twice(counts.stored + listed as usize),
        twice((joins + listed) as usize) + arcs as usize,
        sources.clock.bounds.items().len(),
    )
}

/// The refusal of the first quantity of the design that passes its limit.
fn limit(limits: &Limits, sources: &Sources<'_>, gathered: &Gathered) -> Option<Refusal>
    requires shape { IsFlattened sources.now.cells.now sources.now.hierarchy.now }
    requires gathered { AreGathered sources.now.hierarchy.now sources.now.cells.now sources.now.clock.now gathered.now }
    ensures refusal { result ≡ limit_of limits.now (design_of_gathered sources.now.hierarchy.now
        sources.now.cells.now sources.now.senses.now sources.now.clock.now gathered.now) }
    ensures kept { AreLimits limits.now }
{
    let stored = gathered.phases.items().len();
    let counts = ElementCounts {
        stored,
        inputs: gathered.inputs,
        outputs: gathered.outputs,
    };
    limit_by_counts(limits, sources, counts)
}

/// The elements: those of latches and flops, of the bits of listed inputs, of the bits of listed outputs.
fn elements(
    alloc: Global,
    apart: &Apart<'_>,
    clock: &Clock,
    gathered: &Gathered,
    bits: &ListedBits,
) -> Result<Vec<Element>, OutOfMemory>
    requires shape { IsFlattened apart.now.cells.now apart.now.hierarchy.now }
    requires gathered { AreGathered apart.now.hierarchy.now apart.now.cells.now clock.now gathered.now }
    requires bits { AreListed apart.now.hierarchy.now clock.now bits.now }
    ensures { IfOk result (λ v. v.items ≡ elements_kept apart.now.told.now apart.now.senses.now apart.now.hierarchy.now
        apart.now.cells.now clock.now gathered.now.phases) }
{
    let names = &gathered.names;
    let mut found = Vec::new(alloc);
    push_storage(alloc, apart, gathered.phases.items(), &mut found)?;
    let inputs = clock.inputs.items();
    push_ports(alloc, names, inputs, &bits.inputs, &mut found)?;
    let outputs = clock.outputs.items();
    push_ports(alloc, names, outputs, &bits.outputs, &mut found)?;
    Ok(found)
}

/// The arcs of joins, of leaves, of listed inputs and of listed outputs, where so many elements are latches and flops.
fn arcs(
    alloc: Global,
    apart: &Apart<'_>,
    stored: u32,
    bits: &ListedBits,
) -> Result<Vec<TimingArc>, OutOfMemory>
    requires shape { IsFlattened apart.now.cells.now apart.now.hierarchy.now }
    requires stored { stored ≡ length (storage apart.now.hierarchy.now apart.now.cells.now) }
    requires inputs { All (λ x. x.bit < MOST_INNER) bits.now.inputs.items }
    requires outputs { All (λ x. x.bit < MOST_INNER) bits.now.outputs.items }
    requires few { stored + length bits.now.inputs.items + length bits.now.outputs.items ≤ MOST_ELEMENTS }
    ensures { (clock : Clock) → AreListed apart.now.hierarchy.now clock bits.now → IfOk result
        (λ v. v.items ≡ arcs_kept apart.now.told.now apart.now.senses.now apart.now.hierarchy.now apart.now.cells.now
        (bits_of apart.now.hierarchy.now false clock.inputs) (bits_of apart.now.hierarchy.now true clock.outputs)) }
{
    let first_output = stored + bits.inputs.len() as u32;
    let elements = first_output + bits.outputs.len() as u32;
    let joins = apart.hierarchy.joins.items();
    let mut found = Vec::new(alloc);
    push_joins(&mut found, apart.told, elements, joins)?;
    push_leaves(&mut found, apart, elements)?;
    push_inputs(&mut found, elements, stored, &bits.inputs)?;
    push_outputs(
        &mut found,
        apart.told,
        elements,
        first_output,
        &bits.outputs,
    )?;
    Ok(found)
}

/// What inner bits are called at each edge.
fn names_apart(alloc: Global, names: &[Name]) -> Result<Vec<Name>, OutOfMemory>
    ensures { IfOk result (λ v. v.items ≡ flat_map (λ name. each_edge (edge_name name)) names.now) }
{
    let mut found = Vec::new(alloc);
    for name in names {
        found.push(Edge::Rise.name(alloc, name.bytes())?)?;
        found.push(Edge::Fall.name(alloc, name.bytes())?)?;
    }
    Ok(found)
}

/// The elements and the arcs of the design.
fn elements_and_arcs(
    alloc: Global,
    sources: &Sources<'_>,
    gathered: &Gathered,
) -> Result<(Vec<Element>, Vec<TimingArc>), OutOfMemory>
    requires shape { IsFlattened sources.now.cells.now sources.now.hierarchy.now }
    requires gathered { AreGathered sources.now.hierarchy.now sources.now.cells.now sources.now.clock.now gathered.now }
    requires few { AreFew sources.now.hierarchy.now sources.now.clock.now gathered.now }
    ensures elements { IfOk result (λ both. both.0.items ≡ elements_kept gathered.now.told sources.now.senses.now
        sources.now.hierarchy.now sources.now.cells.now sources.now.clock.now gathered.now.phases) }
    ensures arcs { IfOk result (λ both. both.1.items ≡ arcs_kept gathered.now.told sources.now.senses.now
        sources.now.hierarchy.now sources.now.cells.now
        (bits_of sources.now.hierarchy.now false sources.now.clock.now.inputs)
        (bits_of sources.now.hierarchy.now true sources.now.clock.now.outputs)) }
{
    let apart = Apart {
        hierarchy: sources.hierarchy,
        cells: sources.cells,
        senses: sources.senses,
        told: &gathered.told,
    };
    let bits = listed_bits(alloc, sources.hierarchy, sources.clock)?;
    let elements = elements(alloc, &apart, sources.clock, gathered, &bits)?;
    let stored = gathered.phases.items().len() as u32;
    let arcs = arcs(alloc, &apart, stored, &bits)?;
    Ok((elements, arcs))
}

/// The design of what is gathered, which is within the limits of this run.
fn build(
    alloc: Global,
    limits: &Limits,
    sources: &Sources<'_>,
    gathered: &Gathered,
) -> Result<Flat, Stop>
    requires shape { IsFlattened sources.now.cells.now sources.now.hierarchy.now }
    requires gathered { AreGathered sources.now.hierarchy.now sources.now.cells.now sources.now.clock.now gathered.now }
    requires few { AreFew sources.now.hierarchy.now sources.now.clock.now gathered.now }
    requires parts { HasParts (design_of_gathered sources.now.hierarchy.now sources.now.cells.now
        sources.now.senses.now sources.now.clock.now gathered.now) }
    requires within { limit_of limits.now (design_of_gathered sources.now.hierarchy.now sources.now.cells.now
        sources.now.senses.now sources.now.clock.now gathered.now) ≡ None }
    ensures { MatchResult result (λ flat. flat ≡ design_of_gathered sources.now.hierarchy.now sources.now.cells.now
        sources.now.senses.now sources.now.clock.now gathered.now) (StopsAt (λ refused. ⊥)) }
{
    let (elements, arcs) = elements_and_arcs(alloc, sources, gathered)?;
    let phases = Names::new(phase_names(alloc, sources.clock.phases.items())?);
    let bounds = copy_bounds(alloc, sources.clock.bounds.items())?;
    let inner = Names::new(names_apart(alloc, &gathered.names)?);
    Ok(Flat::new(limits, phases, elements, inner, arcs, bounds)?)
}

/// The same over a hierarchy in shape.
fn edges_in_shape(
    alloc: Global,
    limits: &Limits,
    sources: &Sources<'_>,
    delays: &EdgeDelays,
) -> Result<Flat, Stop>
    requires shape { IsFlattened sources.now.cells.now sources.now.hierarchy.now }
    requires clock { IsGivenClock sources.now.clock.now }
    requires delays { AreGivenEdgeDelays delays.now.items }
    ensures { MatchResult result
        (IsEdgeDesign limits.now sources.now.hierarchy.now sources.now.cells.now
        (sense_of sources.now.senses.now sources.now.cells.now) sources.now.clock.now delays.now.items)
        (StopsAt (IsEdgeRefusal limits.now sources.now.hierarchy.now sources.now.cells.now
        (sense_of sources.now.senses.now sources.now.cells.now) sources.now.clock.now delays.now.items)) }
{
    clocks_keep_limits();
    edge_delays_have_edges();
    edge_delays_are_within();
    // The rules that cells keep are known from the count on.
    let _count = sources.cells.count();
    let gathered = gather(
        alloc,
        sources.hierarchy,
        sources.cells,
        sources.clock,
        delays,
    )?;
    match limit(limits, sources, &gathered) {
        Some(refusal) => Err(Stop::Refused(refusal)),
        None => build(alloc, limits, sources, &gathered),
    }
}

/// The design, with edges kept apart, of a hierarchy with its cells, their senses, a clock and delays by edge. The
/// refusal is NoInstance of the clock, NoInstance or NoArc of the first delay that has one, NoPhase of the first latch
/// or flop in the order of leaves, or Limit of inner bits, phases, elements, arcs or bounds in this run; in that order.
/// The counts are those of the design that is made: each element and each inner bit stands twice.
pub fn edges(
    alloc: Global,
    limits: &Limits,
    sources: &Sources<'_>,
    delays: &EdgeDelays,
) -> Result<Flat, Stop>
    requires hierarchy { IsGivenHierarchy sources.now.cells.now sources.now.hierarchy.now }
    requires clock { IsGivenClock sources.now.clock.now }
    requires delays { AreGivenEdgeDelays delays.now.items }
    ensures { MatchResult result
        (IsEdgeDesign limits.now sources.now.hierarchy.now sources.now.cells.now
        (sense_of sources.now.senses.now sources.now.cells.now) sources.now.clock.now delays.now.items)
        (StopsAt (IsEdgeRefusal limits.now sources.now.hierarchy.now sources.now.cells.now
        (sense_of sources.now.senses.now sources.now.cells.now) sources.now.clock.now delays.now.items)) }
{
    hierarchies_are_in_shape();
    edges_in_shape(alloc, limits, sources, delays)
}
