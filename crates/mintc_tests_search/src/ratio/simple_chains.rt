//! Small lists of links at random, and the greatest ratio of their chains, found by a list of all that enter no
//! node twice.
ghost use Rattle.std.specs.Prelude.{◌<◌};

use crate::link_rows::Row;
use std::alloc::Global;

/// The greatest ratio of chains so far, at least 0/1, and whether one of them takes time and has no cycle.
#[derive(Clone, Copy)]
pub(crate) struct Greatest {
    pub stuck: bool,
    pub delay: i64,
    pub cycles: i64,
}

fn greater(best: Greatest, delay: i64, cycles: i64) -> Greatest {
    if cycles == 0 {
        Greatest {
            stuck: best.stuck || 0 < delay,
            delay: best.delay,
            cycles: best.cycles,
        }
    } else if best.delay.saturating_mul(cycles) < delay.saturating_mul(best.cycles) {
        Greatest {
            stuck: best.stuck,
            delay,
            cycles,
        }
    } else {
        best
    }
}

/// A walk that enters no node twice, from its first node to its last; `entered` has a bit for each node.
#[derive(Clone, Copy)]
struct Walk {
    first: u32,
    last: u32,
    entered: u64,
    delay: i64,
    cycles: i64,
}

fn bit(node: u32) -> u64 {
    1u64.wrapping_shl(node)
}

fn longer(walk: Walk, row: Row) -> Walk {
    let (_from, to, delay, cycles) = row;
    Walk {
        first: walk.first,
        last: to,
        entered: walk.entered | bit(to),
        delay: walk.delay.saturating_add(delay),
        cycles: walk.cycles.saturating_add(i64::from(cycles)),
    }
}

/// Every chain that goes on from the walk by at most so many links, and by no node before its first.
fn visit(rows: &[Row], walk: Walk, left: u32, best: Greatest) -> Greatest {
    let mut best = best;
    if left == 0 {
        return best;
    }
    for row in rows {
        let (from, to, _delay, _cycles) = *row;
        if from == walk.last {
            let next = longer(walk, *row);
            if to == walk.first {
                best = greater(best, next.delay, next.cycles);
            } else if walk.first < to && walk.entered & bit(to) == 0 {
                best = visit(rows, next, left - 1, best);
            }
        }
    }
    best
}

/// The greatest ratio of all chains.
pub(crate) fn greatest_of(nodes: u32, rows: &[Row]) -> Greatest {
    let mut best = Greatest {
        stuck: false,
        delay: 0,
        cycles: 1,
    };
    for first in 0..nodes {
        let walk = Walk {
            first,
            last: first,
            entered: bit(first),
            delay: 0,
            cycles: 0,
        };
        best = visit(rows, walk, nodes, best);
    }
    best
}

/// A number below `count`.
fn draw(state: &mut u64, count: u32) -> u32
    requires { 0 < count }
    ensures { result < count }
{
    *state = state
        .wrapping_mul(6_364_136_223_846_793_005)
        .wrapping_add(1_442_695_040_888_963_407);
    ((*state >> 33) % u64::from(count)) as u32
}

/// A link between two nodes. Where it isn't free, it has a cycle unless it leads to a node with a greater number.
fn draw_row(state: &mut u64, free: bool, from: u32, to: u32) -> Row {
    let delay = i64::from(draw(state, 151)) - 50;
    let cycles = if free || from < to { draw(state, 2) } else { 1 };
    (from, to, delay, cycles)
}

/// 3 to 6 nodes and at most 14 links between them, the two plain ones first.
pub(crate) fn drawn(alloc: Global, seed: u64) -> Option<(u32, Vec<Row>)> {
    let mut state = seed;
    let free = seed % 3 == 0;
    let nodes = 3 + draw(&mut state, 4);
    let mut rows = Vec::new(alloc);
    rows.push((0, 1, 0, 0)).ok()?;
    rows.push((1, 0, 0, 1)).ok()?;
    for node in 2..nodes {
        let from = draw(&mut state, node);
        rows.push(draw_row(&mut state, free, from, node)).ok()?;
    }
    for _more in 0..draw(&mut state, 9) {
        let from = draw(&mut state, nodes);
        let to = draw(&mut state, nodes);
        rows.push(draw_row(&mut state, free, from, to)).ok()?;
    }
    Some((nodes, rows))
}
