//! Tables of designs, and their tables.

use mintc_tests_designs::{TWO_ENABLED, TWO_FLOPS, TWO_LATCHES};
use mintc_text::limits::MOST_BYTES;
use mintc_text::{Bytes, Limits, OutOfMemory};
use mintc_timing::Flat;
use mintc_timing_text::read_table;
use mintcx_tables::{obstacle_of, table_text};
use std::alloc::Global;
use std::test::Fail;

/// Two latches.
const LATCHES: &str = "table 3
phases 2
phase phi1
phase phi2
elements 2
element a 1 latch 10 - 10 10 10 10 0
element b 2 latch 10 - 10 10 10 10 0
inner 0
arcs 2
arc q0 d1 20 20
arc q1 d0 60 60
bounds 0
end
";

/// Two flops.
const FLOPS: &str = "table 3
phases 1
phase p
elements 2
element a 1 flop 5 - 10 10 10 10 0
element b 1 flop 5 - 10 10 10 10 0
inner 0
arcs 2
arc q0 d1 85 85
arc q1 d0 35 35
bounds 0
end
";

/// A design with all that a table can say: holds, delays from the opening edge, widths, inner bits on both sides of an
/// arc, and bounds on each kind of point.
const ALL: &str = "table 3
phases 2
phase phi1
phase phi2
elements 2
element a[0] 1 latch -10 -5 1 10 4 12 7
element u1.b/c 2 flop 10 0 10 11 10 11 1000000000
inner 2
arcs 4
arc q0 n0 0 20
arc n0 n1 5 5
arc n1 d1 1 1000000000
arc q1 d0 60 60
bounds 3
bound o s2 -1000000000 0
bound e1 s2 5 0
bound o o 90 1
end
";

/// Tables, and the tables of their designs.
const ROWS: &[(&str, &str)] = &[
    (TWO_LATCHES, LATCHES),
    (TWO_FLOPS, FLOPS),
    (TWO_ENABLED, TWO_ENABLED),
    (ALL, ALL),
];

/// The table of a design, where it has one.
fn table_of(alloc: Global, flat: &Flat) -> Result<Option<Bytes>, OutOfMemory> {
    match obstacle_of(flat) {
        Some(_) => Ok(None),
        None => Ok(Some(table_text(alloc, flat)?)),
    }
}

/// The table of a table's design.
fn written(alloc: Global, table: &str) -> Result<Option<Bytes>, OutOfMemory> {
    let text = table.as_bytes();
    if text.len() > MOST_BYTES {
        return Ok(None);
    }
    match read_table(alloc, &Limits::usual(), text) {
        Ok(flat) => table_of(alloc, &flat),
        Err(_) => Ok(None),
    }
}

/// Whether the table of a table's design is the one of its row.
fn is_written(alloc: Global, row: &(&str, &str)) -> Result<bool, OutOfMemory> {
    match written(alloc, row.0)? {
        Some(text) => Ok(text.items() == row.1.as_bytes()),
        None => Ok(false),
    }
}

#[test]
fn designs_have_their_tables(rt: HostRuntime) -> Result<(), Fail> {
    for row in ROWS {
        let same = is_written(rt.alloc(), row)?;
        assert!(rt; same, "{}", row.0);
    }
    Ok(())
}
