//! The least and the greatest of all numbers that annotate a target.
ghost use Rattle.std.specs.Prelude.{◌≡◌, ◌<◌, ℕ, [], cond, None, Some, length, slice_index_or, IfOk, OnOk};
ghost use Rattle.mintc_annotate_resolve.specs.Resolution.{path_on, join_into, arcs_from, dq_of, cq_of, setup_of};
ghost use Rattle.mintc_annotate_resolve.specs.Resolution.{hold_of, width_of, widened};
ghost use Rattle.mintc_annotate_resolve.specs.Targets.{target_of};
ghost use Rattle.mintc_annotate_delays.specs.Ranges.{look, path_at, same_key, AreUnannotated, IsWidenedAt, HasRoom};
ghost use Rattle.mintc_annotate_delays.specs.Ranges.{HasRanges, HasPlace, IsWidened, IsSameRoom};

use mintc_annotate_resolve::Target;
use mintc_text::OutOfMemory;
use std::alloc::Global;
use std::collections::HashMap;

/// The least and the greatest number that annotates each target: of gates by their leaf and two pins, of joins and
/// of the arcs that leave ports by their bit, of latches and flops by their leaf.
#[derive(Drop)]
pub struct Ranges {
    paths: HashMap<(u32, u32, u32), (i64, i64)>,
    joins: Vec<Option<(i64, i64)>>,
    ports: Vec<Option<(i64, i64)>>,
    dq: Vec<Option<(i64, i64)>>,
    cq: Vec<Option<(i64, i64)>>,
    setup: Vec<Option<(i64, i64)>>,
    hold: Vec<Option<(i64, i64)>>,
    width: Vec<Option<(i64, i64)>>,
}

/// So many places that nothing annotates.
fn empty_ranges(alloc: Global, count: usize) -> Result<Vec<Option<(i64, i64)>>, OutOfMemory>
    ensures { IfOk result (λ v. AreUnannotated count v.items) }
{
    Ok(vec![in alloc; None; count]?)
}

/// A range with one more delay.
fn widen_range(range: Option<(i64, i64)>, least: i64, greatest: i64) -> (i64, i64)
    ensures { result ≡ widened least greatest range }
{
    match range {
        None => (least, greatest),
        Some(range) => (least.min(range.0), greatest.max(range.1)),
    }
}

/// Widens the range at a place.
fn widen_at(list: &mut [Option<(i64, i64)>], place: u32, least: i64, greatest: i64)
    requires { place < length list.old }
    ensures { IsWidenedAt list.old list.new place least greatest }
{
    let at = place as usize;
    list[at] = Some(widen_range(list[at], least, greatest));
}

/// Widens the range of a key.
fn widen_path(
    paths: &mut HashMap<(u32, u32, u32), (i64, i64)>,
    key: (u32, u32, u32),
    least: i64,
    greatest: i64,
) -> Result<(), OutOfMemory>
    ensures { OnOk result ((k : ℕ × ℕ × ℕ) →
        path_at paths.new k ≡ cond (same_key key k) (Some (widened least greatest (path_at paths.old k)))
        (path_at paths.old k)) }
{
    let range = widen_range(paths.get(&key).copied(), least, greatest);
    paths.insert(key, range)?;
    Ok(())
}

/// What a list has at a place.
fn at(list: &[Option<(i64, i64)>], place: u32) -> Option<(i64, i64)>
    ensures { result ≡ slice_index_or list.now place None }
{
    match list.get(place as usize) {
        Some(range) => *range,
        None => None,
    }
}

impl Ranges {
    /// The range of a gate's arc from one pin of a leaf to another.
    pub fn path(&self, leaf: u32, from: u32, to: u32) -> Option<(i64, i64)>
        ensures { result ≡ look self.now (path_on leaf from to) }
    {
        self.paths.get(&(leaf, from, to)).copied()
    }

    /// The range of the join into a bit.
    pub fn join(&self, bit: u32) -> Option<(i64, i64)>
        ensures { result ≡ look self.now (join_into bit) }
    {
        at(&self.joins, bit)
    }

    /// The range of the arcs that leave a bit of a port.
    pub fn port(&self, bit: u32) -> Option<(i64, i64)>
        ensures { result ≡ look self.now (arcs_from bit) }
    {
        at(&self.ports, bit)
    }

    /// The range of a latch or flop from its data.
    pub fn dq(&self, leaf: u32) -> Option<(i64, i64)>
        ensures { result ≡ look self.now (dq_of leaf) }
    {
        at(&self.dq, leaf)
    }

    /// The range of a latch from its enable.
    pub fn cq(&self, leaf: u32) -> Option<(i64, i64)>
        ensures { result ≡ look self.now (cq_of leaf) }
    {
        at(&self.cq, leaf)
    }

    /// The range of setups of a latch or flop.
    pub fn setup(&self, leaf: u32) -> Option<(i64, i64)>
        ensures { result ≡ look self.now (setup_of leaf) }
    {
        at(&self.setup, leaf)
    }

    /// The range of holds of a latch or flop.
    pub fn hold(&self, leaf: u32) -> Option<(i64, i64)>
        ensures { result ≡ look self.now (hold_of leaf) }
    {
        at(&self.hold, leaf)
    }

    /// The range of widths of a latch or flop.
    pub fn width(&self, leaf: u32) -> Option<(i64, i64)>
        ensures { result ≡ look self.now (width_of leaf) }
    {
        at(&self.width, leaf)
    }

    /// Ranges of nothing, for so many bits and leaves.
    pub fn new(alloc: Global, bits: usize, leaves: usize) -> Result<Ranges, OutOfMemory>
        ensures { IfOk result (λ r. HasRoom bits leaves r × HasRanges r []) }
    {
        Ok(Ranges {
            paths: HashMap::new(alloc),
            joins: empty_ranges(alloc, bits)?,
            ports: empty_ranges(alloc, bits)?,
            dq: empty_ranges(alloc, leaves)?,
            cq: empty_ranges(alloc, leaves)?,
            setup: empty_ranges(alloc, leaves)?,
            hold: empty_ranges(alloc, leaves)?,
            width: empty_ranges(alloc, leaves)?,
        })
    }

    /// Takes in a delay that annotates a target. After an error the ranges are of no use.
    pub fn widen(&mut self, target: Target, least: i64, greatest: i64) -> Result<(), OutOfMemory>
        requires { HasPlace self.old target }
        ensures widened { OnOk result (IsWidened self.old self.new (target_of target) least greatest) }
        ensures room { OnOk result (IsSameRoom self.old self.new) }
    {
        match target {
            Target::PathOn { leaf, from, to } => widen_path(
                &mut self.paths,
                (leaf, from, to),
                least,
                greatest,
            )?,
            Target::JoinInto { bit } => widen_at(&mut self.joins, bit, least, greatest),
            Target::ArcsFrom { bit } => widen_at(&mut self.ports, bit, least, greatest),
            Target::DqOf { leaf } => widen_at(&mut self.dq, leaf, least, greatest),
            Target::CqOf { leaf } => widen_at(&mut self.cq, leaf, least, greatest),
            Target::SetupOf { leaf } => widen_at(&mut self.setup, leaf, least, greatest),
            Target::HoldOf { leaf } => widen_at(&mut self.hold, leaf, least, greatest),
            Target::WidthOf { leaf } => widen_at(&mut self.width, leaf, least, greatest),
        }
        Ok(())
    }
}
