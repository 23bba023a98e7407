//! What all delays say, by transitions.
ghost use Rattle.std.specs.Prelude.{◌≡◌, ◌<◌, ◌∷◌, [], ℕ, length, slice_index_or, None, Some, All, IfOk, IfErr, OnOk};
ghost use Rattle.std.specs.Prelude.{MatchResult};
ghost use Rattle.mintc_text.specs.Stops.{StopsAt};
ghost use Rattle.mintc_cells.specs.Entries.{AreOrdered};
ghost use Rattle.mintc_flatten_hierarchy.specs.Shape.{IsFlattened};
ghost use Rattle.mintc_sdf_edges.specs.Laws.{HasEdges};
ghost use Rattle.mintc_annotate_resolve.specs.Pins.{all_names};
ghost use Rattle.mintc_annotate_resolve.specs.Resolution.{of, targets, first_refusal, refusal_of, of_each, of_every};
ghost use Rattle.mintc_annotate_resolve.specs.Resolution.{of_instance, leaf_called, resolved};
ghost use Rattle.mintc_annotate_resolve.specs.declared.targets.Resolved.TheVariants as answer;
ghost use Rattle.mintc_annotate_resolve.specs.Targets.{target_of, targets_of, resolved_of, IsThere, AreThere};
ghost use Rattle.mintc_annotate_resolve.specs.Instances.{IsAt};
ghost use Rattle.mintc_annotate_resolve.specs.Lookups.{IsLookup};
ghost use Rattle.mintc_annotate_delays.specs.Groups.{AreGrouped};
ghost use Rattle.mintc_edges.specs.Numbers.{without_edges};
ghost use Rattle.mintc_edges.specs.Claims.{IsApt, IsTakenIn, begins_at_clock, said_of};
ghost use Rattle.mintc_edges.specs.Told.{HasRoom, IsUntold, AreTold};

use crate::edge::ANY_EDGE;
use crate::matters::{first_pin, matter_of};
use crate::told::{Said, Told};
use mintc_annotate_delays::{PathInstance, instance_at, leaves_by_cell, path_of};
use mintc_annotate_resolve::{
    Instance, Instances, Lookup, Resolved, Target, at_leaf, index_places,
};
use mintc_cells::Cells;
use mintc_flatten_hierarchy::Hierarchy;
use mintc_sdf::Subject;
use mintc_sdf_edges::EdgeDelay;
use mintc_text::{Name, OutOfMemory, Refusal, Role, Stop};
use std::alloc::Global;

/// Whether a target is of a path from an enable or a clock pin, whose first edge isn't read.
fn begins_at_clock(hierarchy: &Hierarchy, cells: &Cells, target: Target) -> bool
    requires shape { IsFlattened cells.now hierarchy.now }
    requires there { IsThere hierarchy.now target }
    ensures { result ≡ begins_at_clock hierarchy.now cells.now (target_of target) }
{
    match target {
        Target::CqOf { .. } => true,
        Target::DqOf { leaf } => {
            first_pin(cells.cell(hierarchy.leaves.items()[leaf as usize].cell)) == 1
        }
        _ => false,
    }
}

/// What a delay says of a target.
fn said_of(hierarchy: &Hierarchy, cells: &Cells, target: Target, delay: &EdgeDelay) -> Said
    requires shape { IsFlattened cells.now hierarchy.now }
    requires there { IsThere hierarchy.now target }
    ensures { result ≡ said_of hierarchy.now cells.now (target_of target) delay.now }
{
    let from = if begins_at_clock(hierarchy, cells, target) {
        ANY_EDGE
    } else {
        delay.edge
    };
    Said {
        from,
        to: delay.speaks,
        least: delay.delay.least,
        greatest: delay.delay.greatest,
    }
}

/// Takes in a delay of a target.
fn apply_target(
    lookup: &Lookup<'_>,
    told: &mut Told,
    target: Target,
    delay: &EdgeDelay,
) -> Result<(), OutOfMemory>
    requires lookup { IsLookup lookup.now }
    requires cells { AreOrdered lookup.now.cells.now }
    requires there { IsThere lookup.now.hierarchy.now target }
    requires apt { IsApt lookup.now.hierarchy.now lookup.now.cells.now delay.now.delay.subject (target_of target) }
    requires edges { HasEdges delay.now }
    requires room { HasRoom (length lookup.now.hierarchy.now.inner)
        (length lookup.now.hierarchy.now.leaves) told.old }
    ensures { OnOk result (IsTakenIn lookup.now.hierarchy.now lookup.now.cells.now delay.now
        (of (target_of target ∷ [])) told.old told.new) }
{
    let subject = &delay.delay.subject;
    match matter_of(lookup.hierarchy, lookup.cells, target, subject) {
        Some(matter) => {
            let said = said_of(lookup.hierarchy, lookup.cells, target, delay);
            told.widen(matter, said)
        }
        None => Ok(()),
    }
}

/// Takes in a delay of a target, if there is one.
fn apply_annotated(
    lookup: &Lookup<'_>,
    told: &mut Told,
    annotated: Option<Target>,
    delay: &EdgeDelay,
) -> Result<(), OutOfMemory>
    requires lookup { IsLookup lookup.now }
    requires cells { AreOrdered lookup.now.cells.now }
    requires there { AreThere lookup.now.hierarchy.now (answer.Of annotated) }
    requires apt { All (IsApt lookup.now.hierarchy.now lookup.now.cells.now delay.now.delay.subject)
        (targets_of annotated) }
    requires edges { HasEdges delay.now }
    requires room { HasRoom (length lookup.now.hierarchy.now.inner)
        (length lookup.now.hierarchy.now.leaves) told.old }
    ensures { OnOk result (IsTakenIn lookup.now.hierarchy.now lookup.now.cells.now delay.now
        (of (targets_of annotated)) told.old told.new) }
{
    match annotated {
        Some(target) => apply_target(lookup, told, target, delay),
        None => Ok(()),
    }
}

/// Takes in what a delay annotates.
fn apply_resolved(
    lookup: &Lookup<'_>,
    told: &mut Told,
    resolved: Resolved,
    delay: &EdgeDelay,
) -> Result<(), Stop>
    requires lookup { IsLookup lookup.now }
    requires cells { AreOrdered lookup.now.cells.now }
    requires there { AreThere lookup.now.hierarchy.now resolved }
    requires apt { All (IsApt lookup.now.hierarchy.now lookup.now.cells.now delay.now.delay.subject)
        (targets (resolved_of resolved)) }
    requires edges { HasEdges delay.now }
    requires room { HasRoom (length lookup.now.hierarchy.now.inner)
        (length lookup.now.hierarchy.now.leaves) told.old }
    ensures ok { OnOk result (IsTakenIn lookup.now.hierarchy.now lookup.now.cells.now delay.now (resolved_of resolved)
        told.old told.new) }
    ensures err { IfErr result
        (StopsAt (λ refused. refusal_of delay.now.delay.entry (resolved_of resolved) ≡ Some refused)) }
{
    let entry = delay.delay.entry;
    match resolved {
        Resolved::Of(annotated) => {
            apply_annotated(lookup, told, annotated, delay)?;
            Ok(())
        }
        Resolved::NoInstance => Err(Stop::Refused(Refusal::NoInstance {
            role: Role::Delays,
            entry,
        })),
        Resolved::NoArc => Err(Stop::Refused(Refusal::NoArc { entry })),
    }
}

/// Takes in a delay at some leaves.
fn apply_at_leaves(
    lookup: &Lookup<'_>,
    told: &mut Told,
    leaves: &[u32],
    delay: &EdgeDelay,
) -> Result<(), Stop>
    requires lookup { IsLookup lookup.now }
    requires cells { AreOrdered lookup.now.cells.now }
    requires edges { HasEdges delay.now }
    requires room { HasRoom (length lookup.now.hierarchy.now.inner)
        (length lookup.now.hierarchy.now.leaves) told.old }
    requires leaves { (k : ℕ) → k < length leaves.now →
        slice_index_or leaves.now k 0 < length lookup.now.hierarchy.now.leaves }
    ensures ok { OnOk result (IsTakenIn lookup.now.hierarchy.now lookup.now.cells.now delay.now
        (of_each lookup.now.hierarchy.now lookup.now.cells.now delay.now.delay.subject leaves.now) told.old told.new) }
    ensures err { IfErr result
        (StopsAt (λ refused. refusal_of delay.now.delay.entry
        (of_each lookup.now.hierarchy.now lookup.now.cells.now delay.now.delay.subject leaves.now) ≡ Some refused)) }
{
    for &leaf in leaves {
        let resolved = at_leaf(lookup.hierarchy, lookup.cells, leaf, &delay.delay.subject);
        apply_resolved(lookup, told, resolved, delay)?;
    }
    Ok(())
}

/// Takes in a delay at the instance of a path.
fn apply_at_instance(
    lookup: &Lookup<'_>,
    told: &mut Told,
    key: &mut Vec<u8>,
    instance: Instance,
    path: &[Name],
    delay: &EdgeDelay,
) -> Result<(), Stop>
    requires lookup { IsLookup lookup.now }
    requires cells { AreOrdered lookup.now.cells.now }
    requires edges { HasEdges delay.now }
    requires room { HasRoom (length lookup.now.hierarchy.now.inner)
        (length lookup.now.hierarchy.now.leaves) told.old }
    requires instance { IsAt lookup.now.hierarchy.now path.now instance }
    ensures ok { OnOk result (IsTakenIn lookup.now.hierarchy.now lookup.now.cells.now delay.now
        (of_instance lookup.now.hierarchy.now lookup.now.cells.now path.now delay.now.delay.subject
        (leaf_called lookup.now.hierarchy.now path.now)) told.old told.new) }
    ensures err { IfErr result
        (StopsAt (λ refused. refusal_of delay.now.delay.entry
        (of_instance lookup.now.hierarchy.now lookup.now.cells.now path.now delay.now.delay.subject
        (leaf_called lookup.now.hierarchy.now path.now)) ≡ Some refused)) }
{
    let resolved = lookup.at_instance(key, instance, path, &delay.delay.subject)?;
    apply_resolved(lookup, told, resolved, delay)
}

/// Takes in a delay at every leaf of its cell type.
fn apply_at_cell_type(
    lookup: &Lookup<'_>,
    groups: &[Vec<u32>],
    told: &mut Told,
    delay: &EdgeDelay,
) -> Result<(), Stop>
    requires lookup { IsLookup lookup.now }
    requires groups { AreGrouped lookup.now.hierarchy.now (length lookup.now.cells.now) groups.now }
    requires cells { AreOrdered lookup.now.cells.now }
    requires edges { HasEdges delay.now }
    requires room { HasRoom (length lookup.now.hierarchy.now.inner)
        (length lookup.now.hierarchy.now.leaves) told.old }
    ensures ok { OnOk result (IsTakenIn lookup.now.hierarchy.now lookup.now.cells.now delay.now
        (of_every lookup.now.hierarchy.now lookup.now.cells.now delay.now.delay.celltype delay.now.delay.subject)
        told.old told.new) }
    ensures err { IfErr result
        (StopsAt (λ refused. refusal_of delay.now.delay.entry
        (of_every lookup.now.hierarchy.now lookup.now.cells.now delay.now.delay.celltype delay.now.delay.subject)
        ≡ Some refused)) }
{
    match &delay.delay.subject {
        Subject::Interconnect { .. } => Err(Stop::Refused(Refusal::NoInstance {
            role: Role::Delays,
            entry: delay.delay.entry,
        })),
        _ => match lookup.cells.find(delay.delay.celltype.bytes()) {
            Some(cell) => apply_at_leaves(lookup, told, &groups[cell as usize], delay),
            None => Ok(()),
        },
    }
}

/// Takes in a delay, and gives the instance at which it was looked for, or else the last.
fn apply_delay<'a>(
    lookup: &Lookup<'_>,
    groups: &[Vec<u32>],
    told: &mut Told,
    key: &mut Vec<u8>,
    last: PathInstance<'a>,
    delay: &'a EdgeDelay,
) -> Result<PathInstance<'a>, Stop>
    requires lookup { IsLookup lookup.now }
    requires groups { AreGrouped lookup.now.hierarchy.now (length lookup.now.cells.now) groups.now }
    requires cells { AreOrdered lookup.now.cells.now }
    requires edges { HasEdges delay.now }
    requires room { HasRoom (length lookup.now.hierarchy.now.inner)
        (length lookup.now.hierarchy.now.leaves) told.old }
    requires last { IsAt lookup.now.hierarchy.now last.path.now last.instance }
    ensures ok { OnOk result (IsTakenIn lookup.now.hierarchy.now lookup.now.cells.now delay.now
        (resolved lookup.now.hierarchy.now lookup.now.cells.now delay.now.delay) told.old told.new) }
    ensures stands { IfOk result (λ s. IsAt lookup.now.hierarchy.now s.path.now s.instance) }
    ensures err { IfErr result (StopsAt (λ refused. refusal_of delay.now.delay.entry
        (resolved lookup.now.hierarchy.now lookup.now.cells.now delay.now.delay) ≡ Some refused)) }
{
    match path_of(&delay.delay.place) {
        None => {
            apply_at_cell_type(lookup, groups, told, delay)?;
            Ok(last)
        }
        Some(path) => {
            let next = instance_at(lookup, key, last, path)?;
            apply_at_instance(lookup, told, key, next.instance, next.path, delay)?;
            Ok(next)
        }
    }
}

/// Takes in all delays.
fn apply_all(
    alloc: Global,
    lookup: &Lookup<'_>,
    groups: &[Vec<u32>],
    told: &mut Told,
    delays: &[EdgeDelay],
) -> Result<(), Stop>
    requires lookup { IsLookup lookup.now }
    requires groups { AreGrouped lookup.now.hierarchy.now (length lookup.now.cells.now) groups.now }
    requires cells { AreOrdered lookup.now.cells.now }
    requires edges { All HasEdges delays.now }
    requires room { HasRoom (length lookup.now.hierarchy.now.inner)
        (length lookup.now.hierarchy.now.leaves) told.old }
    requires empty { IsUntold told.old }
    ensures ok { OnOk result (AreTold lookup.now.hierarchy.now lookup.now.cells.now delays.now told.new
        × (first_refusal lookup.now.hierarchy.now lookup.now.cells.now (without_edges delays.now) ≡ None)) }
    ensures err { IfErr result (StopsAt (λ refused.
        first_refusal lookup.now.hierarchy.now lookup.now.cells.now (without_edges delays.now) ≡ Some refused)) }
{
    let mut key = Vec::new(alloc);
    let mut last = PathInstance {
        path: &[],
        instance: Instance {
            scope: Some(0),
            leaf: None,
        },
    };
    for delay in delays {
        last = apply_delay(lookup, groups, told, &mut key, last, delay)?;
    }
    Ok(())
}

/// All that delays say. The refusal is that of the first delay that annotates nothing that is there: NoInstance of the
/// delays, or NoArc.
pub(crate) fn gather_told(
    alloc: Global,
    hierarchy: &Hierarchy,
    cells: &Cells,
    names: &[Name],
    delays: &[EdgeDelay],
) -> Result<Told, Stop>
    requires shape { IsFlattened cells.now hierarchy.now }
    requires names { names.now ≡ all_names hierarchy.now }
    requires edges { All HasEdges delays.now }
    ensures { MatchResult result (λ told. AreTold hierarchy.now cells.now delays.now told
        × (first_refusal hierarchy.now cells.now (without_edges delays.now) ≡ None))
        (StopsAt (λ refused. first_refusal hierarchy.now cells.now (without_edges delays.now) ≡ Some refused)) }
{
    let cell_count = cells.count();
    let instances = Instances::new(alloc, hierarchy)?;
    let groups = leaves_by_cell(alloc, hierarchy, cells)?;
    let bits = hierarchy.inner.items().len();
    let mut told = Told::new(alloc, bits, hierarchy.leaves.items().len())?;
    let places = index_places(alloc, names, hierarchy.ports.items())?;
    let lookup = Lookup {
        hierarchy,
        cells,
        places,
        instances,
    };
    apply_all(alloc, &lookup, &groups, &mut told, delays)?;
    Ok(told)
}
