//! Longest ways through edges that lead round nowhere.

use mintc_text::OutOfMemory;
use mintcx_places::Range;
use std::alloc::Global;

/// An edge from a node to another: its line, and how long it is.
#[derive(Clone, Copy)]
pub(crate) struct Edge {
    pub(crate) line: Range,
    pub(crate) from: usize,
    pub(crate) to: usize,
    pub(crate) delay: u64,
}

/// No edge.
const NONE: usize = usize::MAX;

/// A node: how many edges lead to it that aren't passed yet, how long the longest way to it is and the last edge of
/// that way, and the first edge that leads from it.
#[derive(Clone, Copy)]
struct Node {
    waiting: usize,
    length: Option<u64>,
    last: usize,
    first: usize,
}

/// Nodes, and behind each edge the next one that leads from the same node.
#[derive(Drop)]
struct Graph {
    nodes: Vec<Node>,
    next: Vec<usize>,
}

/// A node that nothing leads to or from.
const ALONE: Node = Node {
    waiting: 0,
    length: None,
    last: NONE,
    first: NONE,
};

/// So many nodes without edges.
fn nodes_alone(alloc: Global, count: usize) -> Result<Vec<Node>, OutOfMemory> {
    let mut nodes = Vec::new(alloc);
    for _node in 0..count {
        nodes.push(ALONE)?;
    }
    Ok(nodes)
}

/// Adds an edge of a number to the nodes, and gives the one that led from the same node before.
fn add_edge(nodes: &mut [Node], edge: &Edge, number: usize) -> usize {
    if edge.from >= nodes.len() || edge.to >= nodes.len() {
        return NONE;
    }
    let from = nodes[edge.from];
    nodes[edge.from] = Node {
        first: number,
        ..from
    };
    let to = nodes[edge.to];
    nodes[edge.to] = Node {
        waiting: to.waiting.saturating_add(1),
        ..to
    };
    from.first
}

/// The graph of some edges, with two nodes more than so many.
fn graph_of(alloc: Global, edges: &[Edge], inner: usize) -> Result<Graph, OutOfMemory> {
    let mut nodes = nodes_alone(alloc, inner.saturating_add(2))?;
    let mut next = Vec::new(alloc);
    for number in 0..edges.len() {
        next.push(add_edge(nodes.as_mut_slice(), &edges[number], number))?;
    }
    Ok(Graph { nodes, next })
}

/// Whether a length is above another, or there is no other.
fn is_longer(length: u64, other: Option<u64>) -> bool {
    match other {
        Some(other) => length > other,
        None => true,
    }
}

/// A node behind an edge of a number, which is passed: the front of the edge is reached by a way of a length, if it is.
fn node_behind(to: &Node, front: Option<u64>, edge: &Edge, number: usize) -> Node {
    let waiting = to.waiting.saturating_sub(1);
    let length = match front {
        Some(front) => front.saturating_add(edge.delay),
        None => return Node { waiting, ..*to },
    };
    if !is_longer(length, to.length) {
        return Node { waiting, ..*to };
    }
    Node {
        waiting,
        length: Some(length),
        last: number,
        first: to.first,
    }
}

/// Passes an edge of a number. Whether no other one is left that leads to its end.
fn pass_edge(nodes: &mut [Node], edge: &Edge, number: usize) -> bool {
    if edge.from >= nodes.len() || edge.to >= nodes.len() {
        return false;
    }
    let front = nodes[edge.from].length;
    let to = node_behind(&nodes[edge.to], front, edge, number);
    nodes[edge.to] = to;
    to.waiting == 0
}

/// Passes each edge that leads from a node, and puts the nodes to which no other one leads any more behind the others.
fn pass_node(
    graph: &mut Graph,
    edges: &[Edge],
    node: usize,
    ready: &mut Vec<usize>,
) -> Result<(), OutOfMemory> {
    if node >= graph.nodes.len() {
        return Ok(());
    }
    let mut number = graph.nodes[node].first;
    for _edge in 0..edges.len() {
        if number >= edges.len() || number >= graph.next.len() {
            return Ok(());
        }
        let edge = edges[number];
        if pass_edge(graph.nodes.as_mut_slice(), &edge, number) {
            ready.push(edge.to)?;
        }
        number = graph.next[number];
    }
    Ok(())
}

/// The nodes to which no edge leads.
fn ready_nodes(alloc: Global, nodes: &[Node]) -> Result<Vec<usize>, OutOfMemory> {
    let mut ready = Vec::new(alloc);
    for node in 0..nodes.len() {
        if nodes[node].waiting == 0 {
            ready.push(node)?;
        }
    }
    Ok(ready)
}

/// Makes a node the first of all ways.
fn reach(nodes: &mut [Node], source: usize) {
    if source < nodes.len() {
        nodes[source] = Node {
            length: Some(0),
            ..nodes[source]
        };
    }
}

/// Finds the longest way to each node, each after those before it.
fn pass_nodes(alloc: Global, graph: &mut Graph, edges: &[Edge]) -> Result<(), OutOfMemory> {
    let mut ready = ready_nodes(alloc, &graph.nodes)?;
    for turn in 0..graph.nodes.len() {
        if turn >= ready.len() {
            return Ok(());
        }
        let node = ready[turn];
        pass_node(graph, edges, node, &mut ready)?;
    }
    Ok(())
}

/// The edges of the longest way to a node, the last one first.
fn way_back(
    alloc: Global,
    nodes: &[Node],
    edges: &[Edge],
    target: usize,
) -> Result<Vec<Edge>, OutOfMemory> {
    let mut way = Vec::new(alloc);
    let mut node = target;
    for _edge in 0..edges.len() {
        if node >= nodes.len() || nodes[node].last >= edges.len() {
            return Ok(way);
        }
        let edge = edges[nodes[node].last];
        way.push(edge)?;
        node = edge.from;
    }
    Ok(way)
}

/// The edges of the longest way from a node to another, in their order; none where no way leads there. The first node
/// is the one behind so many others, and edges lead round nowhere.
pub(crate) fn longest_way(
    alloc: Global,
    edges: &[Edge],
    source: usize,
    target: usize,
) -> Result<Vec<Edge>, OutOfMemory> {
    let mut graph = graph_of(alloc, edges, source)?;
    reach(graph.nodes.as_mut_slice(), source);
    pass_nodes(alloc, &mut graph, edges)?;
    let mut way = way_back(alloc, &graph.nodes, edges, target)?;
    way.reverse();
    Ok(way)
}
