//! Closed chains among the arcs by which the nodes were raised.
ghost use Rattle.std.specs.Prelude.{◌≡◌, ◌<◌, ◌^◌, length, take, IfNone, IfSome};
ghost use Rattle.mintc_graph_walks.specs.Chains.{AreParents, IsLoop, IsRing, IsRooted};

use crate::network::{NONE, Network};

/// A node on a closed chain, and the chain's length.
#[derive(Clone, Copy)]
pub(crate) struct Ring {
    pub node: u32,
    pub len: usize,
}

/// Goes back from `last`, marking each node, until a marked node or one that was never raised.
pub(crate) fn mark<N: Network>(
    net: &N,
    before: &[u32],
    last: u32,
    marks: &mut [u32],
) -> Option<Ring>
    requires same { length marks.old ≡ length before.now }
    requires nodes { length before.now < 2 ^ 32 }
    requires last { last < length before.now }
    requires parents { AreParents (N.arcs net.now) before.now }
    ensures ring { IfSome result (λ r. IsRing (N.arcs net.now) before.now marks.new r.node r.len) }
    ensures none { IfNone result (IsRooted (N.arcs net.now) before.now last) }
{
    marks.fill(0);
    let mut node = last;
    for step in 0..before.len() {
        let first = marks[node as usize];
        if first > 0 {
            return Some(Ring {
                node,
                len: step + 1 - first as usize,
            });
        }
        let number = before[node as usize];
        if number == NONE {
            return None;
        }
        marks[node as usize] = step as u32 + 1;
        node = net.arc(number as usize).from;
    }
    let first = marks[node as usize];
    Some(Ring {
        node,
        len: before.len() + 1 - first as usize,
    })
}

/// Writes the arcs of the ring, in order.
pub(crate) fn collect<N: Network>(
    net: &N,
    before: &[u32],
    marks: &[u32],
    ring: Ring,
    chain: &mut [u32],
)
    requires same { length chain.old ≡ length before.now }
    requires parents { AreParents (N.arcs net.now) before.now }
    requires ring { IsRing (N.arcs net.now) before.now marks.now ring.node ring.len }
    ensures { IsLoop (N.arcs net.now) before.now ring.node (take ring.len chain.new) }
{
    let mut node = ring.node;
    for done in 0..ring.len {
        let number = before[node as usize];
        chain[ring.len - 1 - done] = number;
        node = net.arc(number as usize).from;
    }
}
