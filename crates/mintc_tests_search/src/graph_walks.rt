//! `greatest_walks` of mintc_graph_walks: the greatest walks of small networks and of a long ring, or a closed
//! chain whose weight is above 0.
ghost use Rattle.std.specs.Prelude.{◌<◌, ◌≤◌, ◌^◌, ◌≤ℤ◌, ◌<ℤ◌};
ghost use Rattle.std.specs.Bool.{OnTrue};
ghost use Rattle.mintc_graph_walks.specs.Bounds.{AreBounded, AreOrdinary, IsWithin};

use mintc_graph_walks::{Answer, Arc, NONE, Network, Tree, UNREACHED, greatest_walks_uncounted};
use std::alloc::{AllocError, Global};
use std::process::Abort;
use std::test::Fail;

const LIMIT: i128 = 1 << 80;

/// Arcs in a list.
#[derive(Clone, Copy)]
struct Table<'a>(&'a [Arc]);

impl Network for Table<'_> {
    ghost arcs = { λ t. t.0.now };

    fn len(&self) -> usize {
        self.0.len()
    }

    fn arc(&self, number: usize) -> Arc {
        self.0[number]
    }
}

fn is_ordinary(nodes: usize, arc: Arc) -> bool
    ensures from { OnTrue result (arc.from < nodes) }
    ensures to { OnTrue result (arc.to < nodes) }
    ensures weight { OnTrue result (IsWithin (2 ^ 80) arc.weight) }
{
    (arc.from as usize) < nodes
        && (arc.to as usize) < nodes
        && -LIMIT <= arc.weight
        && arc.weight <= LIMIT
}

fn are_ordinary(nodes: usize, arcs: &[Arc]) -> bool
    ensures { OnTrue result (AreOrdinary nodes arcs.now) }
{
    for arc in arcs {
        if !is_ordinary(nodes, *arc) {
            return false;
        }
    }
    true
}

fn is_bounded(start: i128) -> bool
    ensures low { UNREACHED ≤ℤ start }
    ensures bounded { OnTrue result (UNREACHED <ℤ start → IsWithin (2 ^ 80) start) }
{
    start == UNREACHED || (-LIMIT <= start && start <= LIMIT)
}

fn are_bounded(starts: &[i128]) -> bool
    ensures { OnTrue result (AreBounded (2 ^ 80) starts.now) }
{
    for start in starts {
        if !is_bounded(*start) {
            return false;
        }
    }
    true
}

/// What a call leaves.
#[derive(Drop)]
struct Found {
    answer: Answer,
    values: Vec<i128>,
    chain: Vec<u32>,
}

/// What the walks find that begin with the arcs of a list.
fn find(
    rt: &impl Abort,
    alloc: Global,
    arcs: &[Arc],
    starts: &[i128],
    first: &[u32],
) -> Result<Found, AllocError> {
    let nodes = starts.len();
    assert!(rt; 0 < nodes && nodes <= 32768 && arcs.len() < 1 << 28);
    assert!(rt; first.len() == nodes && are_ordinary(nodes, arcs) && are_bounded(starts));
    let mut values = starts.to_vec(alloc)?;
    let mut before = vec![in alloc; 0; nodes]?;
    let mut tree = Tree {
        arcs: first.to_vec(alloc)?,
        marks: vec![in alloc; 0; nodes]?,
    };
    let mut chain = vec![in alloc; 0; nodes]?;
    let answer = greatest_walks_uncounted(
        &Table(arcs),
        &mut values,
        &mut before,
        &mut tree,
        &mut chain,
    );
    Ok(Found {
        answer,
        values,
        chain,
    })
}

/// An arc's from, to and weight.
type Row = (u32, u32, i128);

/// Arcs in a list.
fn arcs_of(alloc: Global, rows: &[Row]) -> Result<Vec<Arc>, AllocError> {
    let mut arcs = Vec::new(alloc);
    for &(from, to, weight) in rows {
        arcs.push(Arc { from, to, weight })?;
    }
    Ok(arcs)
}

/// Whether these values are found, or this chain where it has an arc, in any order.
fn has_answer(found: &mut Found, values: &[i128], chain: &[u32]) -> bool {
    if chain.is_empty() {
        return found.answer == Answer::Values && found.values.as_slice() == values;
    }
    let len = chain.len();
    if found.answer != (Answer::Chain { len }) {
        return false;
    }
    found.chain.truncate(len);
    found.chain.sort_unstable();
    found.chain.as_slice() == chain
}

/// A network of few nodes, and what is to be found there: the values, or the numbers of a chain's arcs, ascending.
#[derive(Clone, Copy)]
struct Case {
    name: &'static str,
    arcs: &'static [Row],
    starts: &'static [i128],
    values: &'static [i128],
    chain: &'static [u32],
}

const NETWORKS: &[Case] = &[
    Case {
        name: "one node",
        arcs: &[],
        starts: &[7],
        values: &[7],
        chain: &[],
    },
    Case {
        name: "one node where no walk begins",
        arcs: &[(0, 0, 1)],
        starts: &[UNREACHED],
        values: &[UNREACHED],
        chain: &[],
    },
    Case {
        name: "a self loop of weight 0",
        arcs: &[(0, 0, 0)],
        starts: &[5],
        values: &[5],
        chain: &[],
    },
    Case {
        name: "a self loop of weight 1",
        arcs: &[(0, 1, 2), (1, 1, 1)],
        starts: &[5, UNREACHED],
        values: &[],
        chain: &[1],
    },
    Case {
        name: "nodes with no walk",
        arcs: &[(0, 1, -2), (2, 1, 9), (3, 2, 0)],
        starts: &[0, UNREACHED, UNREACHED, UNREACHED],
        values: &[0, -2, UNREACHED, UNREACHED],
        chain: &[],
    },
    Case {
        name: "a tie, on a ring of weight 0",
        arcs: &[(2, 0, -2), (1, 2, 1), (0, 2, 2), (0, 1, 1)],
        starts: &[0, UNREACHED, UNREACHED],
        values: &[0, 1, 2],
        chain: &[],
    },
    Case {
        name: "parallel arcs",
        arcs: &[(0, 1, 3), (0, 1, 5), (1, 0, -5), (0, 1, -4)],
        starts: &[0, UNREACHED],
        values: &[0, 5],
        chain: &[],
    },
    Case {
        name: "parallel arcs, of which one is on a chain",
        arcs: &[(0, 1, 3), (0, 1, 5), (1, 0, -4), (0, 1, -4)],
        starts: &[0, UNREACHED],
        values: &[],
        chain: &[1, 2],
    },
    Case {
        name: "a positive ring that no walk reaches",
        arcs: &[(1, 2, 1), (2, 1, 1), (1, 0, 1)],
        starts: &[0, UNREACHED, UNREACHED],
        values: &[0, UNREACHED, UNREACHED],
        chain: &[],
    },
    Case {
        name: "a positive ring that only the second start reaches",
        arcs: &[(1, 2, -1), (2, 3, -2), (3, 2, 3), (0, 1, -9)],
        starts: &[UNREACHED, 4, UNREACHED, UNREACHED],
        values: &[],
        chain: &[1, 2],
    },
    Case {
        name: "a start that a walk exceeds, and one that none does",
        arcs: &[(0, 2, 4), (1, 2, -5), (1, 0, -6)],
        starts: &[3, 10, 0],
        values: &[4, 10, 8],
        chain: &[],
    },
];

/// What the walks find that begin with no arcs of a list.
fn find_anew(
    rt: &impl Abort,
    alloc: Global,
    arcs: &[Arc],
    starts: &[i128],
) -> Result<Found, AllocError> {
    let none = vec![in alloc; NONE; starts.len()]?;
    find(rt, alloc, arcs, starts, &none)
}

/// What the walks find in a case's network.
fn found_in(rt: &impl Abort, alloc: Global, case: &Case) -> Result<Found, AllocError> {
    let arcs = arcs_of(alloc, case.arcs)?;
    find_anew(rt, alloc, &arcs, case.starts)
}

/// The walks in a case's network are those that it names.
fn is_answered(rt: &impl Abort, alloc: Global, case: &Case) -> Result<(), AllocError> {
    let mut found = found_in(rt, alloc, case)?;
    assert!(rt;
        has_answer(&mut found, case.values, case.chain),
        "{}",
        case.name
    );
    Ok(())
}

#[test]
fn small_networks_have_greatest_walks_or_a_chain(rt: HostRuntime) -> Result<(), Fail> {
    for case in NETWORKS {
        is_answered(&rt, rt.alloc(), case)?;
    }
    Ok(())
}

/// What a walk begins with, and what it finds in the network of the test.
#[derive(Clone, Copy)]
struct Kept {
    name: &'static str,
    closing: i128,
    first: [u32; 4],
    values: &'static [i128],
    chain: &'static [u32],
}

const KEPT: &[Kept] = &[
    Kept {
        name: "the tree, in order",
        closing: -9,
        first: [0, 1, 2, NONE],
        values: &[0, 2, 4, 6],
        chain: &[],
    },
    Kept {
        name: "the tree, from its leaves",
        closing: -9,
        first: [2, 1, 0, NONE],
        values: &[0, 2, 4, 6],
        chain: &[],
    },
    Kept {
        name: "arcs that no greatest walk takes",
        closing: -9,
        first: [4, 4, 3, 4],
        values: &[0, 2, 4, 6],
        chain: &[],
    },
    Kept {
        name: "numbers past the end",
        closing: -9,
        first: [5, 6, 4_000_000_000, 0],
        values: &[0, 2, 4, 6],
        chain: &[],
    },
    Kept {
        name: "a ring whose weight is below 0",
        closing: -7,
        first: [0, 1, 2, 3],
        values: &[0, 2, 4, 6],
        chain: &[],
    },
    Kept {
        name: "a ring of weight 0, from its middle",
        closing: -6,
        first: [2, 3, 0, 1],
        values: &[0, 2, 4, 6],
        chain: &[],
    },
    Kept {
        name: "a ring whose weight is above 0",
        closing: -5,
        first: [0, 1, 2, 3],
        values: &[],
        chain: &[0, 1, 2, 3],
    },
    Kept {
        name: "the same ring, turned round",
        closing: -5,
        first: [3, 2, 1, 0],
        values: &[],
        chain: &[0, 1, 2, 3],
    },
];

/// What the walks find that begin with a case's arcs.
fn found_with(rt: &impl Abort, alloc: Global, case: &Kept) -> Result<Found, AllocError> {
    let rows = [
        (0, 1, 2),
        (1, 2, 2),
        (2, 3, 2),
        (3, 0, case.closing),
        (0, 3, 5),
    ];
    let arcs = arcs_of(alloc, &rows)?;
    let starts = [0, UNREACHED, UNREACHED, UNREACHED];
    find(rt, alloc, &arcs, &starts, &case.first)
}

/// The walks that begin with a case's arcs are those that it names.
fn is_kept(rt: &impl Abort, alloc: Global, case: &Kept) -> Result<(), AllocError> {
    let mut found = found_with(rt, alloc, case)?;
    assert!(rt;
        has_answer(&mut found, case.values, case.chain),
        "{}",
        case.name
    );
    Ok(())
}

// The arcs that a walk takes first may be those of another network, or none at all.
#[test]
fn walks_may_begin_with_arcs_of_another_network(rt: HostRuntime) -> Result<(), Fail> {
    for case in KEPT {
        is_kept(&rt, rt.alloc(), case)?;
    }
    Ok(())
}

/// A ring of so many nodes whose arcs have weight 0 but the one that closes it. Each arc stands before the one that
/// it follows.
fn ring_of(alloc: Global, nodes: u32, closing: i128) -> Result<Vec<Arc>, AllocError>
    requires { 1 ≤ nodes }
{
    let mut arcs = Vec::new(alloc);
    arcs.push(Arc {
        from: nodes - 1,
        to: 0,
        weight: closing,
    })?;
    for from in (0..nodes - 1).rev() {
        arcs.push(Arc {
            from,
            to: from + 1,
            weight: 0,
        })?;
    }
    Ok(arcs)
}

/// Whether the numbers of a chain descend one by one, and 1999 comes after 0.
fn descends(chain: &[u32]) -> bool {
    let mut next = chain.first().copied();
    for number in chain {
        if Some(*number) != next {
            return false;
        }
        next = Some(number.checked_sub(1).unwrap_or(1999));
    }
    true
}

/// Whether all values are 0, or where the ring's weight is above 0 the whole of it is the chain.
fn is_right(found: &Found, closing: i128) -> bool {
    if closing <= 0 {
        found.answer == Answer::Values && found.values.iter().all(|v| *v == 0)
    } else {
        found.answer == (Answer::Chain { len: 2000 }) && descends(&found.chain)
    }
}

/// What the walks find that begin at one node of a ring of 2,000.
fn found_in_ring(rt: &impl Abort, alloc: Global, closing: i128) -> Result<Found, AllocError> {
    let mut starts = vec![in alloc; UNREACHED; 2000]?;
    starts[0] = 0;
    let arcs = ring_of(alloc, 2000, closing)?;
    find_anew(rt, alloc, &arcs, &starts)
}

// Each pass takes the walks one arc further, so that the last pass that may be taken is needed.
#[test]
fn a_ring_of_two_thousand_nodes_takes_every_pass(rt: HostRuntime) -> Result<(), Fail> {
    for closing in &[-1, 0, 1] {
        let found = found_in_ring(&rt, rt.alloc(), *closing)?;
        assert!(rt; is_right(&found, *closing), "{closing}");
    }
    Ok(())
}
