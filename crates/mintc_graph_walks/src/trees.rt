//! The arcs by which the nodes were raised, in an order in which they pass values on.
ghost use Rattle.std.specs.Prelude.{◌≡◌, ◌<◌, ◌≤◌, ◌^◌, length};
ghost use Rattle.mintc_graph_walks.specs.Bounds.{AreOrdinary};

use crate::network::{NONE, Network};

/// Goes back from a node, up to one that has a mark or was never raised. Marks each node on the way, and writes the
/// arcs from the place `start` on, the last one first. Gives the place behind them.
fn list_back<N: Network>(
    net: &N,
    before: &[u32],
    last: u32,
    marks: &mut [u32],
    list: &mut [u32],
    start: usize,
) -> usize
    requires marks { length marks.old ≡ length before.now }
    requires list { length list.old ≡ length before.now }
    requires last { last < length before.now }
    requires start { start ≤ length before.now }
    requires arcs { AreOrdinary (length before.now) (N.arcs net.now) }
    ensures later { start ≤ result }
    ensures fits { result ≤ length before.now }
{
    let mut node = last;
    for place in start..list.len() {
        let number = before[node as usize];
        if marks[node as usize] > 0 || number as usize >= net.len() {
            return place;
        }
        marks[node as usize] = 1;
        list[place] = number;
        node = net.arc(number as usize).from;
    }
    list.len()
}

/// Lists the arcs by which the nodes were raised, the arc into a node ahead of the arcs out of it where they close
/// no chain; then `NONE`, as often as there is place.
pub(crate) fn list_tree<N: Network>(net: &N, before: &[u32], marks: &mut [u32], list: &mut [u32])
    requires marks { length marks.old ≡ length before.now }
    requires list { length list.old ≡ length before.now }
    requires nodes { length before.now < 2 ^ 32 }
    requires arcs { AreOrdinary (length before.now) (N.arcs net.now) }
{
    marks.fill(0);
    list.fill(NONE);
    let mut count = 0;
    for node in 0..before.len() {
        let start = count;
        count = list_back(net, before, node as u32, marks, list, start);
        list[start..count].reverse();
    }
}
