//! mintc_build: with memory a table has its system or its refusal, and files have their design.
use mintc_build::{from_files, from_table, system};
use mintc_tests_designs::{
    CLOSED_INNER, GREATEST_SUM, SUM_PAST_LIMIT, TWO_CELLS, TWO_CLOCK, TWO_DELAYS, TWO_NETLIST,
    TWO_THROUGH_INNER,
};
use mintc_text::{Limits, Refusal, Stop};
use mintc_timing::{Flat, System};
use std::alloc::Global;
use std::process::Abort;
use std::test::Fail;

/// The system of a table, or what stops it.
fn built(rt: &impl Abort, alloc: Global, text: &str) -> Result<System, Stop> {
    assert!(rt; text.len() < 1_000);
    let limits = Limits::usual();
    system(alloc, &limits, from_table(alloc, &limits, text.as_bytes())?)
}

/// Whether these are the pairs of a system: the two elements, the least and the greatest delay.
fn has_pairs(system: &System, wanted: &[(u32, u32, i64, i64)]) -> bool {
    let pairs = system.pairs();
    pairs.len() == wanted.len()
        && pairs.iter().zip(wanted).all(|(p, w)| p.from == w.0
            && p.to == w.1
            && p.min == w.2
            && p.max == w.3)
}

// Row check-inner-bit.
#[test]
fn a_path_through_an_inner_bit_makes_a_pair(rt: HostRuntime) -> Result<(), Fail> {
    match built(&rt, rt.alloc(), TWO_THROUGH_INNER) {
        Ok(system) => assert!(rt; has_pairs(&system, &[(0, 1, 20, 20), (1, 0, 60, 60)])),
        Err(_) => panic!(rt; "no system"),
    }
    Ok(())
}

// Row closed-inner-arcs.
#[test]
fn refusal_16_names_arcs_that_lead_round(rt: HostRuntime) -> Result<(), Fail> {
    match built(&rt, rt.alloc(), CLOSED_INNER) {
        Err(Stop::Refused(Refusal::CombinationalLoop { arcs })) => {
            assert!(rt; arcs.items() == [0, 1].as_slice() || arcs.items() == [1, 0].as_slice());
        }
        _ => panic!(rt; "no loop"),
    }
    Ok(())
}

// Row path-sum-limit.
#[test]
fn a_path_may_have_the_greatest_sum(rt: HostRuntime) {
    match built(&rt, rt.alloc(), GREATEST_SUM) {
        Ok(system) => assert!(rt; has_pairs(&system, &[(0, 0, 1_000_000_000, 1_000_000_000)])),
        Err(_) => panic!(rt; "no system"),
    }
}

// Row path-sum-limit.
#[test]
fn refusal_21_names_a_path_above_the_greatest_sum(rt: HostRuntime) {
    match built(&rt, rt.alloc(), SUM_PAST_LIMIT) {
        Err(Stop::Refused(Refusal::PathRange { element, bit })) => {
            assert!(rt; element == 0 && bit == 0, "{element} {bit}");
        }
        _ => panic!(rt; "no refusal"),
    }
}

/// The design of files with these cells.
pub(crate) fn designed(
    rt: &impl Abort,
    alloc: Global,
    netlist: &str,
    delays: &str,
    clock: &str,
) -> Result<Flat, Stop> {
    assert!(rt;
        netlist.len() < 10_000
            && delays.len() < 10_000
            && TWO_CELLS.len() < 10_000
            && clock.len() < 10_000
    );
    from_files(
        alloc,
        &Limits::usual(),
        netlist.as_bytes(),
        delays.as_bytes(),
        TWO_CELLS.as_bytes(),
        clock.as_bytes(),
    )
}

/// The least and the greatest delay of an arc.
pub(crate) fn arc(flat: &Flat, number: usize) -> Option<(i64, i64)> {
    flat.arcs().get(number).map(|arc| (arc.min, arc.max))
}

/// Whether a design has so many elements, inner bits and arcs.
fn has_sizes(flat: &Flat, elements: usize, inner: usize, arcs: usize) -> bool {
    flat.elements().len() == elements
        && flat.inner().items().len() == inner
        && flat.arcs().len() == arcs
}

// Row worked-files-design.
#[test]
fn worked_files_have_their_design(rt: HostRuntime) -> Result<(), Fail> {
    match designed(&rt, rt.alloc(), TWO_NETLIST, TWO_DELAYS, TWO_CLOCK) {
        Ok(flat) => {
            assert!(rt; has_sizes(&flat, 2, 29, 27));
            assert!(rt; arc(&flat, 23) == Some((20, 20)) && arc(&flat, 26) == Some((50, 60)));
        }
        Err(_) => panic!(rt; "no design"),
    }
    Ok(())
}
