//! The ranges of all that delays annotate.
ghost use Rattle.std.specs.Prelude.{◌≡◌, ◌<◌, ℕ, [], length, slice_index_or, None, Some, IfOk, IfErr, OnOk};
ghost use Rattle.std.specs.Prelude.{MatchResult};
ghost use Rattle.mintc_text.specs.Stops.{StopsAt};
ghost use Rattle.mintc_cells.specs.Entries.{AreOrdered};
ghost use Rattle.mintc_flatten_hierarchy.specs.Shape.{IsFlattened};
ghost use Rattle.mintc_annotate_resolve.specs.Pins.{all_names};
ghost use Rattle.mintc_annotate_resolve.specs.Resolution.{of, first_refusal, refusal_of, of_each, of_every};
ghost use Rattle.mintc_annotate_resolve.specs.Resolution.{of_instance, leaf_called, resolved};
ghost use Rattle.mintc_annotate_resolve.specs.declared.targets.Resolved.TheVariants as answer;
ghost use Rattle.mintc_annotate_resolve.specs.Targets.{targets_of, resolved_of};
ghost use Rattle.mintc_annotate_resolve.specs.Instances.{IsAt};
ghost use Rattle.mintc_annotate_resolve.specs.Lookups.{IsLookup};
ghost use Rattle.mintc_annotate_delays.specs.Ranges.{HasRoom, HasRanges, AreRanges};
ghost use Rattle.mintc_annotate_delays.specs.Groups.{AreGrouped};
ghost use Rattle.mintc_annotate_delays.specs.Gathered.{HasPlaceOf, IsTakenIn};

use crate::groups::leaves_by_cell;
use crate::paths::{PathInstance, instance_at, path_of};
use crate::ranges::Ranges;
use mintc_annotate_resolve::{
    Instance, Instances, Lookup, Resolved, Target, at_leaf, index_places,
};
use mintc_cells::Cells;
use mintc_flatten_hierarchy::Hierarchy;
use mintc_sdf::{Delay, Subject};
use mintc_text::{Name, OutOfMemory, Refusal, Role, Stop};
use std::alloc::Global;

/// Takes in numbers of a target, if there is one.
fn apply_target(
    ranges: &mut Ranges,
    annotated: Option<Target>,
    least: i64,
    greatest: i64,
) -> Result<(), OutOfMemory>
    requires { HasPlaceOf ranges.old (answer.Of annotated) }
    ensures { OnOk result ((entry : ℕ) →
        IsTakenIn entry (of (targets_of annotated)) least greatest ranges.old ranges.new) }
{
    let Some(target) = annotated else {
        return Ok(());
    };
    ranges.widen(target, least, greatest)?;
    Ok(())
}

/// Takes in what a delay annotates.
fn apply_resolved(ranges: &mut Ranges, resolved: Resolved, delay: &Delay) -> Result<(), Stop>
    requires { HasPlaceOf ranges.old resolved }
    ensures ok { OnOk result
        (IsTakenIn delay.now.entry (resolved_of resolved) delay.now.least delay.now.greatest ranges.old ranges.new) }
    ensures err { IfErr result (StopsAt (λ refused. refusal_of delay.now.entry (resolved_of resolved) ≡ Some refused)) }
{
    match resolved {
        Resolved::Of(annotated) => {
            apply_target(ranges, annotated, delay.least, delay.greatest)?;
            Ok(())
        }
        Resolved::NoInstance => Err(Stop::Refused(Refusal::NoInstance {
            role: Role::Delays,
            entry: delay.entry,
        })),
        Resolved::NoArc => Err(Stop::Refused(Refusal::NoArc { entry: delay.entry })),
    }
}

/// Takes in a delay at some leaves.
fn apply_at_leaves(
    lookup: &Lookup<'_>,
    ranges: &mut Ranges,
    leaves: &[u32],
    delay: &Delay,
) -> Result<(), Stop>
    requires lookup { IsLookup lookup.now }
    requires room { HasRoom (length lookup.now.hierarchy.now.inner)
        (length lookup.now.hierarchy.now.leaves) ranges.old }
    requires leaves { (k : ℕ) → k < length leaves.now →
        slice_index_or leaves.now k 0 < length lookup.now.hierarchy.now.leaves }
    ensures ok { OnOk result
        (IsTakenIn delay.now.entry (of_each lookup.now.hierarchy.now lookup.now.cells.now delay.now.subject leaves.now)
        delay.now.least delay.now.greatest ranges.old ranges.new) }
    ensures err { IfErr result
        (StopsAt (λ refused. refusal_of delay.now.entry
        (of_each lookup.now.hierarchy.now lookup.now.cells.now delay.now.subject leaves.now) ≡ Some refused)) }
{
    for &leaf in leaves {
        let resolved = at_leaf(lookup.hierarchy, lookup.cells, leaf, &delay.subject);
        apply_resolved(ranges, resolved, delay)?;
    }
    Ok(())
}

/// Takes in a delay at the instance of a path.
fn apply_at_instance(
    lookup: &Lookup<'_>,
    ranges: &mut Ranges,
    key: &mut Vec<u8>,
    instance: Instance,
    path: &[Name],
    delay: &Delay,
) -> Result<(), Stop>
    requires lookup { IsLookup lookup.now }
    requires room { HasRoom (length lookup.now.hierarchy.now.inner)
        (length lookup.now.hierarchy.now.leaves) ranges.old }
    requires instance { IsAt lookup.now.hierarchy.now path.now instance }
    ensures ok { OnOk result
        (IsTakenIn delay.now.entry (of_instance lookup.now.hierarchy.now lookup.now.cells.now path.now delay.now.subject
        (leaf_called lookup.now.hierarchy.now path.now)) delay.now.least delay.now.greatest ranges.old ranges.new) }
    ensures err { IfErr result
        (StopsAt (λ refused. refusal_of delay.now.entry
        (of_instance lookup.now.hierarchy.now lookup.now.cells.now path.now delay.now.subject
        (leaf_called lookup.now.hierarchy.now path.now)) ≡ Some refused)) }
{
    let resolved = lookup.at_instance(key, instance, path, &delay.subject)?;
    apply_resolved(ranges, resolved, delay)
}

/// Takes in a delay at every leaf of its cell type.
fn apply_at_cell_type(
    lookup: &Lookup<'_>,
    groups: &[Vec<u32>],
    ranges: &mut Ranges,
    delay: &Delay,
) -> Result<(), Stop>
    requires lookup { IsLookup lookup.now }
    requires groups { AreGrouped lookup.now.hierarchy.now (length lookup.now.cells.now) groups.now }
    requires cells { AreOrdered lookup.now.cells.now }
    requires room { HasRoom (length lookup.now.hierarchy.now.inner)
        (length lookup.now.hierarchy.now.leaves) ranges.old }
    ensures ok { OnOk result
        (IsTakenIn delay.now.entry
        (of_every lookup.now.hierarchy.now lookup.now.cells.now delay.now.celltype delay.now.subject) delay.now.least
        delay.now.greatest ranges.old ranges.new) }
    ensures err { IfErr result
        (StopsAt (λ refused. refusal_of delay.now.entry
        (of_every lookup.now.hierarchy.now lookup.now.cells.now delay.now.celltype delay.now.subject) ≡ Some refused)) }
{
    match &delay.subject {
        Subject::Interconnect { .. } => Err(Stop::Refused(Refusal::NoInstance {
            role: Role::Delays,
            entry: delay.entry,
        })),
        _ => match lookup.cells.find(delay.celltype.bytes()) {
            Some(cell) => apply_at_leaves(lookup, ranges, &groups[cell as usize], delay),
            None => Ok(()),
        },
    }
}

/// Takes in a delay, and gives the instance at which it was looked for, or else the last.
fn apply_delay<'a>(
    lookup: &Lookup<'_>,
    groups: &[Vec<u32>],
    ranges: &mut Ranges,
    key: &mut Vec<u8>,
    last: PathInstance<'a>,
    delay: &'a Delay,
) -> Result<PathInstance<'a>, Stop>
    requires lookup { IsLookup lookup.now }
    requires groups { AreGrouped lookup.now.hierarchy.now (length lookup.now.cells.now) groups.now }
    requires cells { AreOrdered lookup.now.cells.now }
    requires room { HasRoom (length lookup.now.hierarchy.now.inner)
        (length lookup.now.hierarchy.now.leaves) ranges.old }
    requires last { IsAt lookup.now.hierarchy.now last.path.now last.instance }
    ensures ok { OnOk result
        (IsTakenIn delay.now.entry (resolved lookup.now.hierarchy.now lookup.now.cells.now delay.now) delay.now.least
        delay.now.greatest ranges.old ranges.new) }
    ensures stands { IfOk result (λ s. IsAt lookup.now.hierarchy.now s.path.now s.instance) }
    ensures err { IfErr result
        (StopsAt (λ refused. refusal_of delay.now.entry
        (resolved lookup.now.hierarchy.now lookup.now.cells.now delay.now) ≡ Some refused)) }
{
    match path_of(&delay.place) {
        None => {
            apply_at_cell_type(lookup, groups, ranges, delay)?;
            Ok(last)
        }
        Some(path) => {
            let next = instance_at(lookup, key, last, path)?;
            apply_at_instance(lookup, ranges, key, next.instance, next.path, delay)?;
            Ok(next)
        }
    }
}

/// Takes in all delays.
fn apply_all(
    alloc: Global,
    lookup: &Lookup<'_>,
    groups: &[Vec<u32>],
    ranges: &mut Ranges,
    delays: &[Delay],
) -> Result<(), Stop>
    requires lookup { IsLookup lookup.now }
    requires groups { AreGrouped lookup.now.hierarchy.now (length lookup.now.cells.now) groups.now }
    requires cells { AreOrdered lookup.now.cells.now }
    requires room { HasRoom (length lookup.now.hierarchy.now.inner)
        (length lookup.now.hierarchy.now.leaves) ranges.old }
    requires empty { HasRanges ranges.old [] }
    ensures ok { OnOk result (AreRanges lookup.now.hierarchy.now lookup.now.cells.now delays.now ranges.new
        × (first_refusal lookup.now.hierarchy.now lookup.now.cells.now delays.now ≡ None)) }
    ensures err { IfErr result
        (StopsAt (λ refused. first_refusal lookup.now.hierarchy.now lookup.now.cells.now delays.now ≡ Some refused)) }
{
    let mut key = Vec::new(alloc);
    let mut last = PathInstance {
        path: &[],
        instance: Instance {
            scope: Some(0),
            leaf: None,
        },
    };
    for delay in delays {
        last = apply_delay(lookup, groups, ranges, &mut key, last, delay)?;
    }
    Ok(())
}

/// The ranges of all that delays annotate. The refusal is that of the first delay that annotates nothing that is there:
/// NoInstance of the delays, or NoArc.
pub fn gather_ranges(
    alloc: Global,
    hierarchy: &Hierarchy,
    cells: &Cells,
    names: &[Name],
    delays: &[Delay],
) -> Result<Ranges, Stop>
    requires shape { IsFlattened cells.now hierarchy.now }
    requires names { names.now ≡ all_names hierarchy.now }
    ensures { MatchResult result (λ r. AreRanges hierarchy.now cells.now delays.now r
        × (first_refusal hierarchy.now cells.now delays.now ≡ None))
        (StopsAt (λ refused. first_refusal hierarchy.now cells.now delays.now ≡ Some refused)) }
{
    let cell_count = cells.count();
    let instances = Instances::new(alloc, hierarchy)?;
    let groups = leaves_by_cell(alloc, hierarchy, cells)?;
    let mut ranges = Ranges::new(
        alloc,
        hierarchy.inner.items().len(),
        hierarchy.leaves.items().len(),
    )?;
    let places = index_places(alloc, names, hierarchy.ports.items())?;
    let lookup = Lookup {
        hierarchy,
        cells,
        places,
        instances,
    };
    apply_all(alloc, &lookup, &groups, &mut ranges, delays)?;
    Ok(ranges)
}
