//! The ring that weighs most on the mean, of all rings among the arcs by which the nodes were raised. Only that it
//! is a node is claimed of what is found here.
ghost use Rattle.std.specs.Prelude.{◌≡◌, ◌<◌, ◌≤◌, length, IfSome};
ghost use Rattle.mintc_graph_walks.specs.Bounds.{AreOrdinary, most_nodes};

use crate::network::Network;

/// Goes back from a node and marks each node on the way, up to one that has a mark or was never raised. Gives the
/// node where it has this very mark: a ring leads through it.
fn follow<N: Network>(
    net: &N,
    before: &[u32],
    last: u32,
    mark: u32,
    marks: &mut [u32],
) -> Option<u32>
    requires marks { length marks.old ≡ length before.now }
    requires last { last < length before.now }
    requires arcs { AreOrdinary (length before.now) (N.arcs net.now) }
    ensures { IfSome result (λ v. v < length before.now) }
{
    let mut node = last;
    for _step in 0..before.len() {
        if marks[node as usize] == mark {
            return Some(node);
        }
        let number = before[node as usize] as usize;
        if marks[node as usize] > 0 || number >= net.len() {
            return None;
        }
        marks[node as usize] = mark;
        node = net.arc(number).from;
    }
    Some(node)
}

/// The mean weight of the arcs on the way back from a node to itself, rounded towards 0.
fn mean_weight<N: Network>(net: &N, before: &[u32], first: u32) -> Option<i128>
    requires first { first < length before.now }
    requires nodes { length before.now ≤ most_nodes }
    requires arcs { AreOrdinary (length before.now) (N.arcs net.now) }
{
    let mut node = first;
    let mut weight: i128 = 0;
    for len in 0..before.len() {
        let number = before[node as usize] as usize;
        if number >= net.len() {
            return None;
        }
        let arc = net.arc(number);
        weight += arc.weight;
        node = arc.from;
        if node == first {
            return Some(weight / (len as i128 + 1));
        }
    }
    None
}

/// The node with which the search for rings begins, `last`, and then each node by its number.
fn node_of(step: u32, last: u32, nodes: u32) -> u32
    requires last { last < nodes }
    requires step { step ≤ nodes }
    ensures { result < nodes }
{
    if step == 0 { last } else { step - 1 }
}

/// A node of the ring whose arcs have the greatest mean weight. Of several such, the one behind `last` where it is
/// among them.
pub(crate) fn heaviest<N: Network>(
    net: &N,
    before: &[u32],
    last: u32,
    marks: &mut [u32],
) -> Option<u32>
    requires marks { length marks.old ≡ length before.now }
    requires nodes { length before.now ≤ most_nodes }
    requires last { last < length before.now }
    requires arcs { AreOrdinary (length before.now) (N.arcs net.now) }
    ensures { IfSome result (λ v. v < length before.now) }
{
    marks.fill(0);
    let nodes = before.len() as u32;
    let mut heaviest = None;
    let mut most = i128::MIN;
    for step in 0..nodes + 1 {
        if let Some(met) = follow(net, before, node_of(step, last, nodes), step + 1, marks)
            && let Some(mean) = mean_weight(net, before, met)
            && mean > most
        {
            heaviest = Some(met);
            most = mean;
        }
    }
    heaviest
}
