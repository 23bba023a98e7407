//! The pairs of a design with the extremes of their listed paths, and a path for each of these.
//!
//! The greatest and the least sums from eight elements stand in rows of mintc_paths_sums, one for each bit, a lane
//! for each element. They are filled by one pass over the arcs in their order, each after all arcs into the bit
//! that it leaves: so are the longest and the shortest paths of a graph without loops found (the order after A. B.
//! Kahn, "Topological sorting of large networks", 1962; the pass in T. H. Cormen and others, "Introduction to
//! Algorithms", 2009, section 24.2). Only arcs that leave rows that are reached are looked at. Where few inputs are
//! entered, sums are carried from there back, through the design reversed. A path is traced back from its end. A
//! `Finder` does so for many pairs, by sweeps of what lies between their elements alone. The crates above get all
//! pairs, or the first path that is too long, and a path with the sum that they ask for.
#![tactic(auto)]

ghost use Rattle.std.specs.Prelude.{◌≡◌, ◌≤◌, length, All, IfOk, IfErr, OnOk};
ghost use Rattle.mintc_text.specs.Limits.{AreLimits};
ghost use Rattle.mintc_text.specs.Stops.{StopsAt};
ghost use Rattle.mintc_timing.specs.declared.parts.Pair.{Pair};
ghost use Rattle.mintc_timing.specs.Order.{IsOrder, ArePathsShort};
ghost use Rattle.mintc_timing.specs.Paths.{ArePairs, IsPath, input_of, greatest_delay, least_delay};
ghost use Rattle.mintc_paths.specs.Refusals.{IsExtremesRefusal};
ghost use Rattle.mintc_paths.specs.Trace.{IsPairOf};

mod back;
mod blocks;
mod filled;
mod finder;
mod found;
mod laws;
mod listed;
mod long;
mod longest;
mod reached;
mod reversed;
mod route;
mod rows;
mod successors;
mod sums;
mod trace;
mod ways;
mod worklist;

pub use blocks::sequence_of;
pub use finder::Finder;
use found::Found;
pub use laws::{
    accepted_designs_have_systems, ordered_designs_have_systems_or_refusals, pairs_exist,
};
pub use longest::bound_is_within_limit;
use mintc_text::{Kind, Limits, Numbers, OutOfMemory, Refusal, Stop};
use mintc_timing::{Flat, Order, Pair, System};
pub use reversed::{element_order, reversed_sequence};
use route::best_path;
pub use rows::{ArcSequence, Rows};
use std::alloc::Global;
use trace::Extreme;
use ways::find;
pub use ways::is_backward_cheaper;
pub use worklist::Worklist;

/// All pairs of the design, in ascending order of their elements, with the least and the greatest sum of the listed
/// paths between them, in femtoseconds. The refusal is PathRange with the first element that a listed path with a
/// sum above 10^9 femtoseconds leaves, and the first bit that such a path from it leads to. It is Limit of the pairs
/// where no path is so long and they are more than the run takes.
pub fn extremes(
    alloc: Global,
    limits: &Limits,
    flat: &Flat,
    order: &Order,
) -> Result<Vec<Pair>, Stop>
    requires { IsOrder flat.now.arcs order.now }
    ensures pairs { IfOk result (λ pairs. ArePairs flat.now pairs.items) }
    ensures few { IfOk result (λ pairs. length pairs.items ≤ limits.now.pairs) }
    ensures short { OnOk result (ArePathsShort flat.now) }
    ensures stop { IfErr result (StopsAt (IsExtremesRefusal limits.now flat.now)) }
    ensures kept { AreLimits limits.now }
{
    let most = limits.most();
    let Found { pairs, count, .. } = find(alloc, most.pairs, flat, order)?;
    let limit = most.pairs as u64;
    if count > limit {
        return Err(Stop::Refused(Refusal::Limit {
            kind: Kind::Pairs,
            count,
        }));
    }
    Ok(pairs)
}

/// The arcs of a listed path from one element to another with the greatest sum.
pub fn path_of(alloc: Global, system: &System, from: u32, to: u32) -> Result<Numbers, OutOfMemory>
    requires { IsPairOf system.now.pairs from to }
    ensures path { IfOk result (λ path. IsPath system.now.flat.arcs from path (input_of to)) }
    ensures delay { IfOk result (λ path. All (λ (p : Pair). p.from ≡ from → p.to ≡ to
        → greatest_delay system.now.flat.arcs path ≡ p.max) system.now.pairs) }
{
    best_path(alloc, Extreme::Greatest, system, from, to)
}

/// The arcs of a listed path from one element to another with the least sum.
pub fn shortest_path_of(
    alloc: Global,
    system: &System,
    from: u32,
    to: u32,
) -> Result<Numbers, OutOfMemory>
    requires { IsPairOf system.now.pairs from to }
    ensures path { IfOk result (λ path. IsPath system.now.flat.arcs from path (input_of to)) }
    ensures delay { IfOk result (λ path. All (λ (p : Pair). p.from ≡ from → p.to ≡ to
        → least_delay system.now.flat.arcs path ≡ p.min) system.now.pairs) }
{
    best_path(alloc, Extreme::Least, system, from, to)
}
