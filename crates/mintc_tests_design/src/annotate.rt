//! mintc_annotate, by designs of files: the delays that the arcs of a leaf get.
use crate::build::{arc, designed};
use mintc_tests_designs::{TWO_CLOCK, TWO_NETLIST};
use std::test::Fail;

// Row two-entries-one-arc.
#[test]
fn two_entries_of_one_arc_join_their_delays(rt: HostRuntime) -> Result<(), Fail> {
    let twice =
        "(DELAYFILE (DIVIDER /) (TIMESCALE 1 fs)\n(CELL (CELLTYPE \"BUF\") (INSTANCE u1/s/b) (DELAY (ABSOLUTE \
         (IOPATH A Y (5)))))\n(CELL (CELLTYPE \"BUF\") (INSTANCE u1/s/b) (DELAY (ABSOLUTE (IOPATH A Y (3))))))\n";
    match designed(&rt, rt.alloc(), TWO_NETLIST, twice, TWO_CLOCK) {
        Ok(flat) => assert!(rt; arc(&flat, 23) == Some((3, 5))),
        Err(_) => panic!(rt; "no design"),
    }
    Ok(())
}
