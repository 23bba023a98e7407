//! The node that walks go home to: one on the chain that decides the least cycle, where the design's critical walks
//! pass, so that most others are near it. Which one it is decides how long walks take, and nothing else.
ghost use Rattle.std.specs.Prelude.{◌<◌, ℕ, List, All, IfSome};
ghost use Rattle.mintc_timing.specs.Links.{links_of, node_count};
ghost use Rattle.mintc_constraints.specs.Ordinary.{Leads};
ghost use Rattle.mintc_slack.specs.Gaps.{IsInside};

use crate::nearest::{FAR, begin_at, walk};
use crate::reduced_costs::{ReducedCost, turned};
use mintc_constraints::LinkList;
use mintc_text::OutOfMemory;
use mintc_timing::{Link, LinkKind, System};
use std::alloc::Global;
use std::collections::BinaryHeap;

/// The node of the element whose data a link speaks of.
fn moment_of(system: &System, link: &Link) -> Option<u32>
    ensures inside { IfSome result (λ node. node < node_count system.now.flat) }
    ensures back { IfSome result (λ node. (walk : List ℕ) × Leads (links_of system.now) node walk 0) }
{
    let element = match link.kind {
        LinkKind::Reach { to, .. } => to,
        LinkKind::Setup { element } => element,
        _ => return None,
    };
    if element as usize >= system.flat().elements().len() {
        return None;
    }
    Some(system.flat().element_node(element))
}

/// An element's node on a chain, given as link numbers, or node 0 where it passes none.
pub(crate) fn hub_of(system: &System, list: &LinkList, chain: &[u32]) -> u32
    ensures inside { result < node_count system.now.flat }
    ensures back { (walk : List ℕ) × Leads (links_of system.now) result walk 0 }
{
    for number in chain {
        if let Some(link) = list.items().get(*number as usize) {
            if let Some(node) = moment_of(system, link) {
                return node;
            }
        }
    }
    0
}

/// The distance from each node to the hub, as one walk the other way finds it. Nothing is proved of them: a walk that
/// stops at such a distance is tested.
pub(crate) fn homes(
    alloc: Global,
    gaps: &[ReducedCost],
    hub: u32,
    nodes: u32,
) -> Result<Vec<i64>, OutOfMemory>
    requires inside { hub < nodes }
    requires gaps { All (IsInside nodes) gaps.now }
{
    let rows = turned(alloc, gaps, nodes)?;
    let mut homes = vec![in alloc; FAR; nodes as usize]?;
    let mut ahead = BinaryHeap::with_capacity(alloc, gaps.len())?;
    begin_at(&mut homes, hub);
    walk(&rows, hub, hub, FAR, &mut homes, &mut ahead)?;
    Ok(homes)
}
