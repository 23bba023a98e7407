//! mintcx_edges: the worked design with edges apart is the one that is worked by hand, of a library as of a description
//! that says the same senses, and without senses it has more arcs; and what is wrong with the keys of senses.
use mintc_text::{Bytes, Limits, Refusal, Stop};
use mintc_timing::Flat;
use mintcx_edges::{Halt, from_edge_files, from_edge_liberty};
use mintcx_tables::{obstacle_of, table_text};
use std::alloc::Global;
use std::process::Abort;
use std::test::Fail;

/// Two latches, each on a phase of its own: from the first one to the second through an inverter, and back by a wire.
const NETLIST: &str =
    "module two(c1, c2);\ninput c1, c2;\nwire x, y, z;\nLAT a (.D(z), .G(c1), .Q(x));\n\
     NOT n (.A(x), .Y(y));\nLAT b (.D(y), .G(c2), .Q(z));\nendmodule\n";

/// The inverter's output rises 30 after its input falls, and falls 50 after its input rises. Each latch takes 20, and
/// its data comes 5 before it closes.
const DELAYS: &str = "(DELAYFILE (TIMESCALE 1fs)\n\
     (CELL (CELLTYPE \"NOT\") (INSTANCE n) (DELAY (ABSOLUTE (IOPATH A Y (30) (50)))))\n\
     (CELL (CELLTYPE \"LAT\") (INSTANCE *)\n\
     (DELAY (ABSOLUTE (IOPATH D Q (20)))) (TIMINGCHECK (SETUP D G (5)))))\n";

/// Both by their functions.
const LIBRARY: &str = "library (two) {\ncell (NOT) { pin (A) { direction : input ; }\n\
     pin (Y) { direction : output ; function : \"!A\" ; } }\n\
     cell (LAT) { latch (IQ, IQN) { enable : \"G\" ; data_in : \"D\" ; }\n\
     pin (D) { direction : input ; } pin (G) { direction : input ; }\n\
     pin (Q) { direction : output ; function : \"IQ\" ; } } }\n";

/// Both as a description that says no senses.
const CELLS: &str = "[cell.NOT]\nkind = \"gate\"\ninputs = [\"A\"]\noutputs = [\"Y\"]\n\
     [cell.LAT]\nkind = \"latch\"\nd = \"D\"\ng = \"G\"\noutputs = [\"Q\"]\n";

const CLOCK: &str =
    "[[phase]]\nname = \"p1\"\nport = \"c1\"\n[[phase]]\nname = \"p2\"\nport = \"c2\"\n";

/// The design by hand: each latch stands in it for data that comes to rise and for data that comes to fall, and the
/// inverter turns the one into the other.
const TABLE: &str =
    "table 3\nphases 2\nphase p1\nphase p2\nelements 4\nelement a/r 1 latch 5 - 20 20 20 20 0\n\
     element a/f 1 latch 5 - 20 20 20 20 0\nelement b/r 2 latch 5 - 20 20 20 20 0\n\
     element b/f 2 latch 5 - 20 20 20 20 0\ninner 26\narcs 26\narc n8 n10 0 0\narc n9 n11 0 0\n\
     arc n0 n12 0 0\narc n1 n13 0 0\narc n14 n4 0 0\narc n15 n5 0 0\narc n4 n16 0 0\narc n5 n17 0 0\n\
     arc n18 n6 0 0\narc n19 n7 0 0\narc n6 n20 0 0\narc n7 n21 0 0\narc n2 n22 0 0\narc n3 n23 0 0\n\
     arc n24 n8 0 0\narc n25 n9 0 0\narc n10 d0 0 0\narc n11 d1 0 0\narc q0 n14 0 0\narc q1 n15 0 0\n\
     arc n16 n19 50 50\narc n17 n18 30 30\narc n20 d2 0 0\narc n21 d3 0 0\narc q2 n24 0 0\n\
     arc q3 n25 0 0\nbounds 0\nend\n";

/// The design of the library.
fn of_library(rt: &impl Abort, alloc: Global) -> Result<Flat, Halt> {
    assert!(rt;
        NETLIST.len() < 10_000
            && DELAYS.len() < 10_000
            && LIBRARY.len() < 10_000
            && CLOCK.len() < 10_000
    );
    from_edge_liberty(
        alloc,
        &Limits::usual(),
        NETLIST.as_bytes(),
        DELAYS.as_bytes(),
        LIBRARY.as_bytes(),
        &[],
        CLOCK.as_bytes(),
    )
}

/// The design of a description.
fn of_description(rt: &impl Abort, alloc: Global, cells: &str) -> Result<Flat, Stop> {
    assert!(rt;
        NETLIST.len() < 10_000
            && DELAYS.len() < 10_000
            && cells.len() < 10_000
            && CLOCK.len() < 10_000
    );
    from_edge_files(
        alloc,
        &Limits::usual(),
        NETLIST.as_bytes(),
        DELAYS.as_bytes(),
        cells.as_bytes(),
        CLOCK.as_bytes(),
    )
}

/// The table of a design.
fn table_of(alloc: Global, flat: &Flat) -> Option<Bytes> {
    match obstacle_of(flat) {
        None => table_text(alloc, flat).ok(),
        Some(_) => None,
    }
}

/// Whether a design has the table by hand.
fn is_worked(alloc: Global, flat: &Flat) -> bool {
    match table_of(alloc, flat) {
        Some(table) => table.items() == TABLE.as_bytes(),
        None => false,
    }
}

/// Whether the design of the library has the table by hand.
fn has_table(rt: &impl Abort, alloc: Global) -> bool {
    match of_library(rt, alloc) {
        Ok(flat) => is_worked(alloc, &flat),
        Err(_) => false,
    }
}

/// Whether the design of a description has the table by hand.
fn is_described(rt: &impl Abort, alloc: Global, cells: &str) -> bool {
    match of_description(rt, alloc, cells) {
        Ok(flat) => is_worked(alloc, &flat),
        Err(_) => false,
    }
}

/// Whether the design of a description has so many arcs.
fn has_arcs(rt: &impl Abort, alloc: Global, cells: &str, count: usize) -> bool {
    match of_description(rt, alloc, cells) {
        Ok(flat) => flat.arcs().len() == count,
        Err(_) => false,
    }
}

/// Whether a description is refused at this cell by this rule.
fn is_refused(rt: &impl Abort, alloc: Global, cells: &str, wanted: (u32, u32)) -> bool {
    match of_description(rt, alloc, cells) {
        Err(Stop::Refused(Refusal::BadCell { entry, rule })) => (entry, rule) == wanted,
        _ => false,
    }
}

// Row edges-apart-worked.
#[test]
fn worked_files_have_their_design_with_edges_apart(rt: HostRuntime) -> Result<(), Fail> {
    assert!(rt; has_table(&rt, rt.alloc()));
    Ok(())
}

// Row edges-apart-no-senses: the inverter and both outputs of latches have an arc for each transition.
#[test]
fn a_description_has_all_transitions(rt: HostRuntime) {
    assert!(rt; has_arcs(&rt, rt.alloc(), CELLS, 32));
}

/// Descriptions that say of both cells what the library says of them, an output to itself or to all.
const SENSED: &[&str] = &[
    "[cell.NOT]\nkind = \"gate\"\ninputs = [\"A\"]\noutputs = [\"Y\"]\nnegative = [\"A\"]\n\
     [cell.LAT]\nkind = \"latch\"\nd = \"D\"\ng = \"G\"\noutputs = [\"Q\"]\npositive = [\"Q\"]\n",
    "[cell.NOT]\nkind = \"gate\"\ninputs = [\"A\"]\noutputs = [\"Y\"]\nnegative = [\"A Y\"]\npositive = []\n\
     [cell.LAT]\nkind = \"latch\"\nd = \"D\"\ng = \"G\"\noutputs = [\"Q\"]\npositive = [\"Q\"]\n",
];

// Row edges-apart-sensed-description.
#[test]
fn a_description_with_senses_has_the_design_of_the_library(rt: HostRuntime) {
    for cells in SENSED {
        assert!(rt; is_described(&rt, rt.alloc(), cells), "{cells}");
    }
}

/// Descriptions, and how many arcs their designs have: a pair that is named has two, one that isn't has four.
const COUNTED: &[(&str, usize)] = &[
    (
        "[cell.NOT]\nkind = \"gate\"\ninputs = [\"A\"]\noutputs = [\"Y\"]\nnegative = [\"A\"]\n\
         [cell.LAT]\nkind = \"latch\"\nd = \"D\"\ng = \"G\"\noutputs = [\"Q\"]\n",
        30,
    ),
    (
        "[cell.NOT]\nkind = \"gate\"\ninputs = [\"A\"]\noutputs = [\"Y\"]\nnegative = [\"A\"]\n\
         [cell.LAT]\nkind = \"latch\"\nd = \"D\"\ng = \"G\"\noutputs = [\"Q\", \"QN\"]\n\
         positive = [\"Q\"]\nnegative = [\"QN\"]\n",
        30,
    ),
    (
        "[cell.NOT]\nkind = \"gate\"\ninputs = [\"A\", \"B\"]\noutputs = [\"Y\"]\npositive = [\"B Y\"]\n\
         [cell.LAT]\nkind = \"latch\"\nd = \"D\"\ng = \"G\"\noutputs = [\"Q\"]\npositive = [\"Q\"]\n",
        30,
    ),
];

// Row edges-apart-named-pairs.
#[test]
fn each_pair_has_the_transitions_of_its_key(rt: HostRuntime) {
    for (cells, count) in COUNTED {
        assert!(rt; has_arcs(&rt, rt.alloc(), cells, *count), "{cells}");
    }
}

/// Descriptions, and the cell and the rule that they are refused for.
const REFUSED: &[(&str, (u32, u32))] = &[
    (
        "cell.a={kind=\"gate\",inputs=[\"A\"],outputs=[\"Y\"],positive=\"A\"}",
        (1, 9),
    ),
    (
        "cell.a={kind=\"gate\",inputs=[\"A\"],outputs=[\"Y\"],negative=[1]}",
        (1, 9),
    ),
    (
        "cell.a={kind=\"gate\",inputs=[\"A\"],outputs=[\"Y\"],positive=[\"B\"]}",
        (1, 9),
    ),
    (
        "cell.a={kind=\"gate\",inputs=[\"A\"],outputs=[\"Y\"],negative=[\"A Z\"]}",
        (1, 9),
    ),
    (
        "cell.a={kind=\"gate\",inputs=[\"A\"],outputs=[\"Y\"],negative=[\"A  Y\"]}",
        (1, 9),
    ),
    (
        "cell.a={kind=\"gate\",inputs=[\"A\"],outputs=[\"Y\"],positive=[\"A\",\"A Y\"]}",
        (1, 9),
    ),
    (
        "cell.a={kind=\"gate\",inputs=[\"A\"],outputs=[\"Y\"],positive=[\"A\"],negative=[\"A Y\"]}",
        (1, 9),
    ),
    (
        "cell.a={kind=\"latch\",d=\"D\",g=\"G\",outputs=[\"Q\"],positive=[\"D\"]}",
        (1, 9),
    ),
    (
        "cell.a={kind=\"flop\",d=\"D\",clock=\"C\",outputs=[\"Q\"],positive=[\"Q\",\"Q\"]}",
        (1, 9),
    ),
    (
        "cell.a={kind=\"clock\",input=\"I\",output=\"Z\",positive=[]}",
        (1, 3),
    ),
    (
        "cell.a={kind=\"gate\",inputs=[],outputs=[\"Y\"],positive=[\"Y\"]}\n\
         cell.b={kind=\"gate\",inputs=[],outputs=[\"Y\"],min=1,max=0}",
        (2, 7),
    ),
];

// Row refused-sense-keys.
#[test]
fn refusal_13_by_rule_9_names_its_cell(rt: HostRuntime) {
    for (cells, wanted) in REFUSED {
        assert!(rt; is_refused(&rt, rt.alloc(), cells, *wanted), "{cells}");
    }
}
