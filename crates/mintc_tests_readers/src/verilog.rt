//! Netlists of mintc_verilog: the modules of the worked one, and the first statement at fault (refusal 1).
use mintc_netlist::{Connection, Item, Module};
use mintc_tests_designs::TWO_NETLIST;
use mintc_text::{Refusal, Role, Stop};
use mintc_verilog::read_netlist;
use std::alloc::Global;
use std::test::Fail;

/// Where its statements end.
const ENDS: [usize; 27] = [
    83, 97, 110, 124, 137, 149, 159, 179, 191, 217, 267, 317, 327, 349, 360, 371, 383, 393, 431,
    469, 479, 502, 513, 524, 536, 562, 572,
];

/// How many bytes of it end outside of every module, with no token behind the last whole statement.
const ACCEPTED: [usize; 11] = [0, 27, 28, 56, 57, 327, 328, 479, 480, 572, 573];

/// The statement at fault, 0 where there is none, and 1,000,000,000 where memory was wanting.
fn fault(alloc: Global, text: &[u8]) -> u32 {
    if text.len() > 67_108_864 {
        return 1_000_000_000;
    }
    match read_netlist(alloc, text) {
        Ok(_) => 0,
        Err(
            Stop::Refused(
                Refusal::Syntax {
                    role: Role::Netlist,
                    entry,
                },
            ),
        ) => entry,
        Err(_) => 1_000_000_000,
    }
}

/// Whether a module has this name, begins at this statement, and has so many ports and items.
fn is_module(module: &Module, name: &[u8], entry: u32, ports: usize, items: usize) -> bool {
    module.name.bytes() == name
        && module.entry == entry
        && module.ports.items().len() == ports
        && module.items.items().len() == items
}

/// Whether these are the modules of the worked netlist.
fn are_worked(modules: &[Module]) -> bool {
    match modules {
        [two, half, slice] => {
            is_module(two, b"two", 1, 3, 11)
                && is_module(half, b"half", 14, 3, 6)
                && is_module(slice, b"slice", 22, 3, 4)
        }
        _ => false,
    }
}

#[test]
fn the_worked_netlist_has_its_modules(rt: HostRuntime) -> Result<(), Fail> {
    let alloc = rt.alloc();
    match read_netlist(alloc, TWO_NETLIST.as_bytes()) {
        Ok(netlist) => assert!(rt; are_worked(netlist.modules.items())),
        Err(_) => panic!(rt; "no netlist"),
    }
    Ok(())
}

#[test]
fn refusal_1_names_the_statement_at_a_cut(rt: HostRuntime) -> Result<(), Fail> {
    let alloc = rt.alloc();
    let text = TWO_NETLIST.as_bytes();
    for size in 0..=text.len() {
        let mut want = 1;
        for at in 0..ENDS.len() {
            if ENDS[at] <= size {
                want = at + 2;
            }
        }
        if ACCEPTED.contains(&size) {
            want = 0;
        }
        assert!(rt;
            fault(alloc, &text[..size]) as usize == want,
            "of {size} bytes"
        );
    }
    Ok(())
}

#[test]
fn refusal_1_names_the_first_statement_at_fault(rt: HostRuntime) -> Result<(), Fail> {
    let alloc = rt.alloc();
    for (text, want) in &[
        ("", 0),
        ("module m(c); input c; inout d; endmodule", 3),
        ("module m(c); input c; LAT a (.D(c)", 3),
        ("module m(c); input c;", 3),
        ("module m(c); input c; FOO a (); endmodule", 0),
        ("module m(c); input c; m u (.c(c)); endmodule", 0),
        (
            "module m(c); input c; LAT a (.D(1'b0), .G(c), .E(c)); endmodule",
            0,
        ),
        (
            "module m(c); input c; wire [1:0] w; assign w = c; endmodule",
            0,
        ),
        ("module m(c); input c; assign c = 1'b0; endmodule", 0),
        ("module m(c); input c; wire w; wire w; endmodule", 0),
        (
            "module m(c); input c; LAT a (.D(w), .G(c), .Q()); BUF b (.A(c), .Y(w)); endmodule",
            0,
        ),
        (
            "module m; assign a = {{{{{{{{{{{{{{{{{{{{{{{{{{{{{{{{b}}}}}}}}}}}}}}}}}}}}}}}}}}}}}}}}; endmodule",
            0,
        ),
        (
            "module m; assign a = {{{{{{{{{{{{{{{{{{{{{{{{{{{{{{{{{b}}}}}}}}}}}}}}}}}}}}}}}}}}}}}}}}}; endmodule",
            2,
        ),
        (
            "module m; assign a = {{{{{{{{{{{{{{{{{{{{{{{{{{{{{{{2{b}}}}}}}}}}}}}}}}}}}}}}}}}}}}}}}}; endmodule",
            0,
        ),
        (
            "module m; assign a = {{{{{{{{{{{{{{{{{{{{{{{{{{{{{{{{2{b}}}}}}}}}}}}}}}}}}}}}}}}}}}}}}}}}; endmodule",
            2,
        ),
        ("module m; assign a = {{65535{b}}, c}; endmodule", 0),
        ("module m; assign a = {{65535{b}}, c, d}; endmodule", 2),
        ("module m; assign a = {65536{b}}; endmodule", 2),
        ("module m; assign a = {0{b}}; endmodule", 2),
        ("module m; assign a = 65536'd0; endmodule", 0),
        ("module m; assign a = 65537'd0; endmodule", 2),
        ("module m; assign a = 0'd0; endmodule", 2),
        ("module m; wire [65535:0] a; endmodule", 0),
        ("module m; wire [65536:0] a; endmodule", 2),
        ("module m(input c); input d; endmodule", 2),
        (
            "module m(input wire [3:0] c, d, output e); wire x; endmodule",
            0,
        ),
        ("module m(c, input d); endmodule", 1),
        ("module m(input c, wire d); endmodule", 1),
        ("module m; module n; endmodule", 2),
        ("module m; endmodule wire a;", 3),
        ("endmodule", 1),
        ("module m; endmodule endmodule", 3),
        ("module m; endmodule;", 3),
        ("module m(); ; endmodule", 2),
        ("module \\m ; wire \\endmodule ; endmodule", 0),
        ("module m; wire inout; endmodule", 2),
        ("module m; wire \\inout ; endmodule", 0),
        ("`timescale 1ns/1ps\nmodule m; // wire ;\nendmodule", 0),
        ("`timescales 1ns\nmodule m; endmodule", 1),
        ("module m; (* keep = \"*)\" *) wire a; endmodule", 0),
        ("module m; wire a; /* endmodule", 3),
        ("module m; A a (b, {c, d[3]}, e[4:5], 1'bx); endmodule", 0),
        ("module m; A a (b, .c(d)); endmodule", 2),
        ("module m; A a (.b(c), d); endmodule", 2),
        ("module m; A #(1) a (b); endmodule", 2),
    ] {
        assert!(rt; fault(alloc, text.as_bytes()) == *want, "{text}");
    }
    Ok(())
}

/// A pin of this name, with an expression or with none.
fn is_pin(connection: &Connection, name: &[u8], connected: bool) -> bool {
    match &connection.pin {
        Some(pin) => pin.bytes() == name && connection.expr.is_some() == connected,
        None => false,
    }
}

/// Whether an item is the latch `a;` of the third statement, whose second pin has an expression and whose third has
/// none.
fn is_latch(item: &Item) -> bool {
    match item {
        Item::Instance {
            entry: 3,
            name,
            by_name: true,
            connections,
            ..
        } => {
            let connections = connections.items();
            name.bytes() == b"a;".as_slice()
                && connections.len() == 3
                && is_pin(&connections[1], b"G", true)
                && is_pin(&connections[2], b"Q", false)
        }
        _ => false,
    }
}

/// Whether the second item of the first module is that latch.
fn have_latch(modules: &[Module]) -> bool {
    match modules {
        [module, ..] => match module.items.items() {
            [_, item, ..] => is_latch(item),
            _ => false,
        },
        _ => false,
    }
}

#[test]
fn a_pin_may_be_connected_to_nothing(rt: HostRuntime) {
    let text = b"module m(c); input c; LAT \\a;  (.D(w), .G(c), .Q()); endmodule";
    match read_netlist(rt.alloc(), text.as_slice()) {
        Ok(netlist) => assert!(rt; have_latch(netlist.modules.items())),
        Err(_) => panic!(rt; "no netlist"),
    }
}
