//! `order` of mintc_order: orders and loops (refusal 16) of small designs and of a long chain.

use mintc_order::order;
use mintc_tests_designs::TWO_THROUGH_INNER;
use mintc_text::{Limits, Refusal, Stop};
use mintc_timing::Order;
use mintc_timing_text::read_table;
use std::alloc::{AllocError, Global};
use std::process::Abort;
use std::test::Fail;

/// A table of so many inner bits and of arcs between them.
fn table(alloc: Global, bits: u32, arcs: &[(u32, u32)]) -> Result<String, AllocError> {
    let count = arcs.len();
    let mut text = format!(in alloc;
        "table 1\nphases 1\nphase p\nelements 0\ninner {bits}\narcs {count}\n"
    )?;
    for &(from, to) in arcs {
        text.push_str(&format!(in alloc; "arc n{from} n{to} 0 0\n")?)?;
    }
    text.push_str("bounds 0\nend\n")?;
    Ok(text)
}

/// What is answered for a table's design.
fn answer(rt: &impl Abort, alloc: Global, text: &str) -> Result<Order, Stop> {
    assert!(rt; text.len() < 1_000_000);
    order(
        alloc,
        &read_table(alloc, &Limits::usual(), text.as_bytes())?,
    )
}

/// The place of a number in the list, or the list's length where it isn't there.
fn place(numbers: &[u32], number: u32) -> usize {
    numbers
        .iter()
        .position(|n| *n == number)
        .unwrap_or(numbers.len())
}

/// Arcs between a few inner bits, and what is to be found: each first arc of `before` stands before the second, or one
/// of the loops.
#[derive(Clone, Copy)]
struct Case {
    name: &'static str,
    arcs: &'static [(u32, u32)],
    before: &'static [(u32, u32)],
    loops: &'static [&'static [u32]],
}

const CASES: &[Case] = &[
    Case {
        name: "no arcs",
        arcs: &[],
        before: &[],
        loops: &[],
    },
    Case {
        name: "a chain, the last arc first",
        arcs: &[(3, 4), (2, 3), (1, 2), (0, 1)],
        before: &[(3, 2), (2, 1), (1, 0)],
        loops: &[],
    },
    Case {
        name: "a chain, the first arc first",
        arcs: &[(0, 1), (1, 2), (2, 3), (3, 4)],
        before: &[(0, 1), (1, 2), (2, 3)],
        loops: &[],
    },
    Case {
        name: "a chain of bits that descend",
        arcs: &[(1, 0), (4, 3), (2, 1), (3, 2)],
        before: &[(1, 3), (3, 2), (2, 0)],
        loops: &[],
    },
    Case {
        name: "a diamond",
        arcs: &[(1, 3), (0, 2), (2, 3), (0, 1), (3, 4)],
        before: &[(3, 0), (1, 2), (0, 4), (2, 4)],
        loops: &[],
    },
    Case {
        name: "two arcs from one bit to the same other",
        arcs: &[(1, 2), (0, 1), (0, 1)],
        before: &[(1, 0), (2, 0)],
        loops: &[],
    },
    Case {
        name: "a self loop",
        arcs: &[(0, 1), (1, 1), (1, 2)],
        before: &[],
        loops: &[&[1]],
    },
    Case {
        name: "a closed list of two arcs",
        arcs: &[(0, 1), (1, 0)],
        before: &[],
        loops: &[&[0, 1], &[1, 0]],
    },
    Case {
        name: "two loops, with arcs to, from and between them",
        arcs: &[(0, 1), (1, 2), (2, 1), (2, 3), (3, 4), (4, 3), (4, 0)],
        before: &[],
        loops: &[&[1, 2], &[2, 1], &[4, 5], &[5, 4], &[0, 1, 3, 4, 6]],
    },
    Case {
        name: "a loop beside a bit that arcs leave and enter",
        arcs: &[(0, 1), (1, 2), (2, 3), (3, 1), (0, 3), (2, 4)],
        before: &[],
        loops: &[&[1, 2, 3], &[2, 3, 1], &[3, 1, 2]],
    },
];

/// An order of a case's arcs has each arc, and those of `before` in their order.
fn is_ordered(rt: &impl Abort, case: &Case, numbers: &[u32]) {
    assert!(rt;
        case.loops.is_empty() && numbers.len() == case.arcs.len(),
        "{}",
        case.name
    );
    for &(first, second) in case.before {
        assert!(rt;
            place(numbers, first) < place(numbers, second),
            "{}",
            case.name
        );
    }
}

/// The arcs are one of a case's loops.
fn is_loop(rt: &impl Abort, case: &Case, arcs: &[u32]) {
    assert!(rt; case.loops.iter().any(|l| *l == arcs), "{}", case.name);
}

/// A case is answered as it says.
fn is_answered(rt: &impl Abort, alloc: Global, case: &Case) -> Result<(), Fail> {
    let text = table(alloc, 5, case.arcs)?;
    match answer(rt, alloc, &text) {
        Ok(order) => is_ordered(rt, case, order.arcs().items()),
        Err(Stop::Refused(Refusal::CombinationalLoop { arcs })) => is_loop(rt, case, arcs.items()),
        Err(_) => panic!(rt; "{}", case.name),
    }
    Ok(())
}

#[test]
fn small_designs_have_an_order_or_refusal_16(rt: HostRuntime) -> Result<(), Fail> {
    for case in CASES {
        is_answered(&rt, rt.alloc(), case)?;
    }
    Ok(())
}

#[test]
fn the_arc_to_an_inner_bit_comes_before_the_arc_from_it(rt: HostRuntime) -> Result<(), Fail> {
    match answer(&rt, rt.alloc(), TWO_THROUGH_INNER) {
        Ok(order) => {
            let numbers = order.arcs().items();
            assert!(rt; numbers.len() == 3 && place(numbers, 0) < place(numbers, 1));
        }
        Err(_) => panic!(rt; "an order is there"),
    }
    Ok(())
}

/// The order of these arcs is from the last to the first.
fn is_turned(rt: &impl Abort, alloc: Global, bits: u32, arcs: &[(u32, u32)]) -> Result<(), Fail> {
    let text = table(alloc, bits, arcs)?;
    match answer(rt, alloc, &text) {
        Ok(order) => {
            let numbers = order.arcs().items();
            assert!(rt; numbers.len() == arcs.len() && numbers.is_sorted_by(|a, b| a > b));
        }
        Err(_) => panic!(rt; "an order is there"),
    }
    Ok(())
}

/// All these arcs are a loop.
fn is_closed(rt: &impl Abort, alloc: Global, bits: u32, arcs: &[(u32, u32)]) -> Result<(), Fail> {
    let text = table(alloc, bits, arcs)?;
    match answer(rt, alloc, &text) {
        Err(Stop::Refused(Refusal::CombinationalLoop { arcs: closed })) => {
            assert!(rt; closed.items().len() == arcs.len());
        }
        _ => panic!(rt; "a loop is there"),
    }
    Ok(())
}

/// A chain through so many bits, the last arc first.
fn chain_of(alloc: Global, bits: u32) -> Result<Vec<(u32, u32)>, AllocError> {
    let mut arcs = Vec::new(alloc);
    for from in (1..bits).rev() {
        arcs.push((from - 1, from))?;
    }
    Ok(arcs)
}

// Each arc's end is left by the arc before it in the table, so that all arcs wait on the path at once.
#[test]
fn a_long_chain_has_an_order_and_closed_is_refused(rt: HostRuntime) -> Result<(), Fail> {
    let alloc = rt.alloc();
    let bits: u32 = 20_000;
    let mut arcs = chain_of(alloc, bits)?;
    is_turned(&rt, alloc, bits, &arcs)?;
    arcs.push((bits - 1, 0))?;
    is_closed(&rt, alloc, bits, &arcs)
}

/// Whether the order of a few arcs has them as they stand.
fn is_as_it_stands(rt: &impl Abort, alloc: Global, arcs: &[(u32, u32)]) -> Option<bool> {
    let text = table(alloc, 5, arcs).ok()?;
    let order = answer(rt, alloc, &text).ok()?;
    let numbers = order.arcs().items();
    Some(
        numbers
            .iter()
            .enumerate()
            .all(|(place, number)| place == *number as usize),
    )
}

#[test]
fn arcs_that_stand_in_an_order_keep_it(rt: HostRuntime) {
    let standing = &[(1, 3), (3, 0), (0, 2), (1, 2), (2, 4), (0, 4)];
    assert!(rt; is_as_it_stands(&rt, rt.alloc(), standing) == Some(true));
    let turned = &[(1, 3), (0, 2), (1, 2), (3, 0), (2, 4), (0, 4)];
    assert!(rt; is_as_it_stands(&rt, rt.alloc(), turned) == Some(false));
}
