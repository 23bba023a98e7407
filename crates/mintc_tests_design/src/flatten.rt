//! `flatten` of mintc_flatten: the hierarchy of the worked netlist, the bits that are joined, and netlists that are
//! refused.
ghost use Rattle.mintc_netlist.specs.Ordinary.{IsOrdinary};

use mintc_cells::read_cells;
use mintc_flatten::flatten;
use mintc_flatten_hierarchy::Hierarchy;
use mintc_netlist::Netlist;
use mintc_tests_designs::{TWO_CELLS, TWO_NETLIST};
use mintc_text::{Limits, Refusal, Stop};
use mintc_verilog::read_netlist;
use std::alloc::{AllocError, Global};
use std::process::Abort;
use std::test::Fail;

/// The hierarchy of modules with these cells.
fn flattened_modules(rt: &impl Abort, alloc: Global, modules: &Netlist) -> Result<Hierarchy, Stop>
    requires { IsOrdinary modules.now }
{
    assert!(rt; TWO_CELLS.len() < 10_000);
    let cells = read_cells(alloc, TWO_CELLS.as_bytes())?;
    flatten(alloc, &Limits::usual(), modules, &cells, None)
}

/// The hierarchy of a netlist with these cells.
fn flattened(rt: &impl Abort, alloc: Global, netlist: &str) -> Result<Hierarchy, Stop> {
    assert!(rt; netlist.len() < 10_000);
    let modules = read_netlist(alloc, netlist.as_bytes())?;
    flattened_modules(rt, alloc, &modules)
}

/// Whether these are the joins of a hierarchy, in their order.
fn has_joins(hierarchy: &Hierarchy, wanted: &[(u32, u32)]) -> bool {
    let joins = hierarchy.joins.items();
    joins.len() == wanted.len()
        && joins
            .iter()
            .zip(wanted)
            .all(|(join, ends)| join.from == ends.0 && join.to == ends.1)
}

/// The joins of the worked netlist.
const WORKED_JOINS: &[(u32, u32)] = &[
    (3, 2),
    (0, 5),
    (3, 6),
    (7, 4),
    (6, 9),
    (5, 10),
    (11, 8),
    (8, 12),
    (14, 7),
    (12, 15),
    (16, 14),
    (1, 17),
    (4, 18),
    (19, 3),
    (18, 21),
    (17, 22),
    (23, 20),
    (20, 24),
    (26, 19),
    (24, 27),
    (28, 26),
];

/// Whether a hierarchy has so many scopes, leaves and inner bits.
fn has_counts(hierarchy: &Hierarchy, scopes: usize, leaves: usize, inner: usize) -> bool {
    hierarchy.scopes.items().len() == scopes
        && hierarchy.leaves.items().len() == leaves
        && hierarchy.inner.items().len() == inner
}

// Row worked-netlist-bits.
#[test]
fn the_worked_netlist_has_its_bits_and_joins(rt: HostRuntime) -> Result<(), Fail> {
    match flattened(&rt, rt.alloc(), TWO_NETLIST) {
        Ok(hierarchy) => {
            assert!(rt; has_counts(&hierarchy, 5, 4, 29));
            assert!(rt; has_joins(&hierarchy, WORKED_JOINS));
        }
        Err(_) => panic!(rt; "no hierarchy"),
    }
    Ok(())
}

/// Whether these are the joins of a netlist's hierarchy, in their order.
fn is_joined(rt: &impl Abort, alloc: Global, netlist: &str, wanted: &[(u32, u32)]) -> bool {
    match flattened(rt, alloc, netlist) {
        Ok(hierarchy) => has_joins(&hierarchy, wanted),
        Err(_) => false,
    }
}

/// The two bits of an instance with two latches are connected to this.
fn connected(alloc: Global, expr: &str) -> Result<String, AllocError> {
    format!(in alloc;
        "module t(c, x); input c; input [0:1] x; pair p (.c(c), .i({expr})); endmodule module pair(c, i); input c; \
         input [1:0] i; LAT a (.D(i[1]), .G(c)); LAT b (.D(i[0]), .G(c)); endmodule"
    )
}

/// What the bits are connected to, and the joins. The inner bits are c, x[1] and x[0] of t, c, i[0] and i[1] of the
/// instance, and the pins D, G and Q of each latch.
const CONNECTED: &[(&str, &[(u32, u32)])] = &[
    (
        "x",
        &[(0, 3), (1, 4), (2, 5), (5, 6), (3, 7), (4, 9), (3, 10)],
    ),
    (
        "{x[1], x[0]}",
        &[(0, 3), (2, 4), (1, 5), (5, 6), (3, 7), (4, 9), (3, 10)],
    ),
];

// Row bit-order: bits are joined from the right, whatever their indexes.
#[test]
fn bits_are_joined_from_the_right(rt: HostRuntime) -> Result<(), Fail> {
    for (expr, wanted) in CONNECTED {
        let netlist = connected(rt.alloc(), expr)?;
        assert!(rt; is_joined(&rt, rt.alloc(), &netlist, wanted), "{expr}");
    }
    Ok(())
}

/// The number of a refusal of the hierarchy, and its statement or count.
fn number_of(stop: &Stop) -> Option<(u8, u32)> {
    match stop {
        Stop::Refused(Refusal::NameTwice { entry }) => Some((3, *entry)),
        Stop::Refused(Refusal::NoModule { entry }) => Some((4, *entry)),
        Stop::Refused(Refusal::Recursive { entry }) => Some((5, *entry)),
        Stop::Refused(Refusal::NoPin { entry }) => Some((6, *entry)),
        Stop::Refused(Refusal::Width { entry }) => Some((7, *entry)),
        Stop::Refused(Refusal::TwoDrivers { entry }) => Some((8, *entry)),
        Stop::Refused(Refusal::TopUnclear { count }) => Some((9, *count)),
        _ => None,
    }
}

/// Whether a netlist is refused with this number, at this statement or with this count.
fn is_refused(rt: &impl Abort, alloc: Global, netlist: &str, wanted: (u8, u32)) -> bool {
    match flattened(rt, alloc, netlist) {
        Ok(_) => false,
        Err(stop) => number_of(&stop) == Some(wanted),
    }
}

/// Netlists, and the numbers of their refusals.
const REFUSED: &[(&str, (u8, u32))] = &[
    ("module m(c); input c; wire w; wire w; endmodule", (3, 4)),
    ("module m(c); input c; FOO a (); endmodule", (4, 3)),
    ("module m(c); input c; m u (.c(c)); endmodule", (5, 3)),
    (
        "module m(c); input c; LAT a (.D(1'b0), .G(c), .E(c)); endmodule",
        (6, 3),
    ),
    (
        "module m(c); input c; wire [1:0] w; assign w = c; endmodule",
        (7, 4),
    ),
    ("module m(c); input c; assign c = 1'b0; endmodule", (8, 3)),
    ("", (9, 0)),
];

// Row refused-netlists, at `flatten`.
#[test]
fn refusals_3_to_9_name_their_statements(rt: HostRuntime) {
    for (netlist, wanted) in REFUSED {
        assert!(rt; is_refused(&rt, rt.alloc(), netlist, *wanted), "{netlist}");
    }
}

// Two vectors with an inverter in a module, and an instance of it. The inner bits are p[0], p[1], q[1] and q[0] of
// t, a[0], a[1], y[0] and y[1] of m, and the inverter's pins.
#[test]
fn vectors_are_joined_from_the_top_down(rt: HostRuntime) {
    let netlist =
        "module m(a, y); input [1:0] a; output [1:0] y; BUF u (.A(a[0]), .Y(y[1])); endmodule module t(p); \
         input [1:0] p; wire [0:1] q; m i (.y(q), .a({1'b0, p[1]})); endmodule";
    let joins = [(1, 4), (6, 2), (7, 3), (4, 8), (9, 7)];
    assert!(rt; is_joined(&rt, rt.alloc(), netlist, &joins));
}
