//! `search` of mintc_ratio: what it finds for lists of links that are written out, and for small ones all of whose
//! chains are listed.
ghost use Rattle.std.specs.Prelude.{◌≡◌, ◌<◌};

mod simple_chains;

use crate::link_rows::{Row, TWO_PHASES, joined, list_of};
use mintc_constraints::{LinkList, Room};
use mintc_graph_walks::Steps;
use mintc_ratio::{Outcome, search};
use simple_chains::{Greatest, drawn, greatest_of};
use std::alloc::Global;
use std::marker::Brand;
use std::sync::ledger::{Blank, Ledger};
use std::test::Fail;

/// What a search finds: the cycle time as a numerator and a denominator, or none where every one is forbidden; how many
/// links the chain has; and how many steps were taken.
#[derive(Clone, Copy)]
struct Found {
    cycle: Option<(i128, i128)>,
    chain: usize,
    taken: u64,
}

/// A search with a blank for its counter of steps.
fn searched<L: Ledger>(alloc: Global, list: &LinkList, blank: Blank) -> Option<Found>
    requires name { blank.name ≡ L.name }
    requires parts { blank.parts ≡ L.parts }
    requires part { 0 < L.parts }
{
    let mut room = Room::reserve(alloc, list.nodes() as usize, list.items().len()).ok()?;
    let mut steps = Steps::<L>::open(blank);
    let cycle = match search(list, &mut room, &mut steps) {
        Outcome::Least { cycle } => Some((cycle.num(), cycle.den())),
        Outcome::Never => None,
    };
    Some(Found {
        cycle,
        chain: room.chain().len(),
        taken: steps.taken(),
    })
}

/// What a search finds for these links.
fn find(alloc: Global, nodes: u32, rows: &[Row]) -> Option<Found> {
    let list = list_of(alloc, nodes, rows)?;
    searched::<Brand>(alloc, &list, Blank::new(1))
}

/// Whether no more steps were taken than a search may take.
fn is_in_time(nodes: u32, found: Found) -> bool {
    found.taken <= 68 * (u64::from(nodes) + 1)
}

/// The links of a design, and what is to be found for them.
#[derive(Clone, Copy)]
struct Case {
    name: &'static str,
    nodes: u32,
    rows: &'static [&'static [Row]],
    cycle: Option<(i128, i128)>,
}

/// What two latches add, each on one of two phases, of which the first has a setup of 10 in its phase.
const TWO_LATCHES: &[Row] = &[
    (4, 1, 0, 1),
    (2, 3, 0, 0),
    (1, 5, 0, 0),
    (3, 6, 0, 0),
    (1, 2, 10, 0),
];

const CASES: &[Case] = &[
    Case {
        name: "two latches in a loop",
        nodes: 7,
        rows: &[
            TWO_PHASES,
            TWO_LATCHES,
            &[
                (3, 4, 10, 0),
                (5, 6, 30, 0),
                (6, 5, 70, 1),
                (5, 2, 10, 0),
                (6, 4, 10, 0),
            ],
        ],
        cycle: Some((100, 1)),
    },
    Case {
        name: "half a step",
        nodes: 5,
        rows: &[&[
            (0, 1, 0, 0),
            (1, 0, 0, 1),
            (2, 1, 0, 1),
            (1, 2, 0, 0),
            (2, 1, 0, 1),
            (1, 3, 0, 0),
            (1, 4, 0, 0),
            (1, 2, 0, 0),
            (1, 2, 0, 0),
            (3, 4, 31, 1),
            (4, 3, 20, 1),
            (3, 2, 0, 0),
            (4, 2, 0, 0),
        ]],
        cycle: Some((51, 2)),
    },
    Case {
        name: "no elements",
        nodes: 3,
        rows: &[&[(0, 1, 0, 0), (1, 0, 0, 1), (2, 1, 0, 1), (1, 2, 0, 0)]],
        cycle: Some((0, 1)),
    },
    Case {
        name: "never",
        nodes: 4,
        rows: &[&[
            (0, 1, 0, 0),
            (1, 0, 0, 1),
            (2, 1, 0, 1),
            (1, 2, 0, 0),
            (1, 3, 0, 0),
            (1, 2, 10, 0),
            (3, 2, 10, 0),
            (2, 1, -5, 0),
        ]],
        cycle: None,
    },
    Case {
        name: "two tight chains",
        nodes: 7,
        rows: &[
            TWO_PHASES,
            TWO_LATCHES,
            &[
                (3, 4, 70, 0),
                (5, 6, 30, 0),
                (6, 5, 70, 1),
                (5, 2, 10, 0),
                (6, 4, 70, 0),
            ],
        ],
        cycle: Some((100, 1)),
    },
];

#[test]
fn written_links_have_their_cycle_time(rt: HostRuntime) -> Result<(), Fail> {
    for case in CASES {
        let rows = joined(rt.alloc(), case.rows)?;
        let result = find(rt.alloc(), case.nodes, &rows).ok_or("not ordinary")?;
        assert!(rt;
            result.cycle == case.cycle && is_in_time(case.nodes, result),
            "{}",
            case.name
        );
    }
    Ok(())
}

#[test]
fn links_that_ask_for_nothing_have_a_chain_of_two(rt: HostRuntime) -> Result<(), Fail> {
    let rows = [(0, 1, 0, 0), (1, 0, 0, 1), (0, 2, 0, 0)];
    let result = find(rt.alloc(), 3, &rows).ok_or("not ordinary")?;
    assert!(rt; result.cycle == Some((0, 1)) && result.chain == 2);
    Ok(())
}

/// Whether the cycle time is the greatest ratio, or there is none and a chain is stuck.
fn agrees(cycle: Option<(i128, i128)>, greatest: Greatest) -> bool {
    match cycle {
        Some((num, den)) => {
            !greatest.stuck
                && num.wrapping_mul(i128::from(greatest.cycles))
                    == i128::from(greatest.delay).wrapping_mul(den)
        }
        None => greatest.stuck,
    }
}

/// Whether the search finds for these links, in time, what the list of all their chains gives.
fn agrees_on(alloc: Global, nodes: u32, rows: &[Row]) -> bool {
    match find(alloc, nodes, rows) {
        Some(found) => agrees(found.cycle, greatest_of(nodes, rows)) && is_in_time(nodes, found),
        None => false,
    }
}

/// Whether it does so for the links of a seed.
fn agrees_at(alloc: Global, seed: u64) -> bool {
    match drawn(alloc, seed) {
        Some((nodes, rows)) => agrees_on(alloc, nodes, &rows),
        None => false,
    }
}

#[test]
fn drawn_links_have_the_greatest_ratio_of_their_chains(rt: HostRuntime) {
    for seed in 0..300 {
        assert!(rt; agrees_at(rt.alloc(), seed), "at {seed}");
    }
}
