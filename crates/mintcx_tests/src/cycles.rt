//! mintcx_cycles: what there is at cycle times of two latches in a loop, whose least one is 100 femtoseconds, and of a
//! design that has no right schedule.

use mintc_build::{from_table, system};
use mintc_tests_designs::{HOPELESS, TWO_LATCHES};
use mintc_text::{Limits, Stop};
use mintcx_cycles::{AtCycle, at_cycle_uncounted};
use std::alloc::Global;
use std::process::Abort;
use std::test::Fail;

/// What there is at a cycle time of a table's design.
fn found(rt: &impl Abort, alloc: Global, table: &str, cycle: u32) -> Result<AtCycle, Stop> {
    assert!(rt; table.len() < 100_000);
    let limits = Limits::usual();
    let flat = from_table(alloc, &limits, table.as_bytes())?;
    let system = system(alloc, &limits, flat)?;
    Ok(at_cycle_uncounted(alloc, &system, cycle)?)
}

/// There is a schedule of this cycle time, over the denominator 1, with these starts and widths.
fn is_right(rt: &impl Abort, found: &AtCycle, cycle: i64, starts: &[i64], widths: &[i64]) {
    match found {
        AtCycle::Right { schedule, .. } => {
            assert!(rt; schedule.cycle == cycle && schedule.den == 1);
            assert!(rt; schedule.starts.items() == starts);
            assert!(rt; schedule.widths.items() == widths);
        }
        AtCycle::Short { .. } => panic!(rt; "no schedule at {cycle}"),
    }
}

/// There is a chain of so many members.
fn is_short(rt: &impl Abort, found: &AtCycle, count: usize) {
    match found {
        AtCycle::Right { .. } => panic!(rt; "no chain"),
        AtCycle::Short { chain } => assert!(rt; chain.items().len() == count),
    }
}

#[test]
fn a_cycle_time_that_is_long_enough_has_its_earliest_schedule(rt: HostRuntime) -> Result<(), Fail> {
    for cycle in [100, 107] {
        match found(&rt, rt.alloc(), TWO_LATCHES, cycle) {
            Ok(found) => is_right(&rt, &found, i64::from(cycle), &[0, 10], &[10, 30]),
            Err(_) => panic!(rt; "refused"),
        }
    }
    Ok(())
}

#[test]
fn a_cycle_time_that_is_too_short_has_a_chain(rt: HostRuntime) -> Result<(), Fail> {
    for (table, cycle) in [(TWO_LATCHES, 0), (TWO_LATCHES, 99), (HOPELESS, u32::MAX)] {
        match found(&rt, rt.alloc(), table, cycle) {
            Ok(found) => is_short(&rt, &found, 2),
            Err(_) => panic!(rt; "refused"),
        }
    }
    Ok(())
}
