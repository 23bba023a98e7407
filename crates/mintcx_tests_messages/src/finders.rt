//! Finders by hand.
use mintc_text::OutOfMemory;
use mintcx_finders::{
    Fault, Found, Way, arc_ends, arc_lines, behaviour, bytes_of, field_fault, name_twice,
    possible_tops, ring, two_drivers,
};
use mintcx_places::{line_range, statement_range};
use std::process::Abort;

/// A text, a line or statement of it, and the bytes that are found.
type Row = (&'static str, u32, &'static str);

/// Whether the bytes are those that are found; none where nothing is.
fn is_found(text: &str, found: &Option<Found>, wanted: &str) -> bool {
    match found {
        Some(found) => bytes_of(text.as_bytes(), &found.range) == wanted.as_bytes(),
        None => wanted.is_empty(),
    }
}

const LINES: &[Row] = &[
    ("table 1\nelement a 1 10 - 20 10 0\n", 2, "20 10"),
    ("table 1\nelement a 1 10 - 10 20 0\n", 2, ""),
    ("table 1\nelement a 1 - 5 10 20 0\n", 2, "-"),
    ("table 3\nelement a 1 latch 1 - 1 2 4 3 0\n", 2, "4 3"),
    ("table 3\nelement a 1 latch 1 - 1 2 4 3\r\n", 2, "4 3"),
    ("table 1\narc q0 d1 6 5\n", 2, "6 5"),
    ("table 1\narc q0 d1 6. 5\n", 2, "6."),
    ("table 1\nphase 0.5\n", 2, ""),
    (
        "schedule 1\nden 1\ncycle 9\nphases 1\nphase 1 30.5\n",
        5,
        "30.5",
    ),
    ("schedule 1\nden 1.\n", 2, "1."),
    ("schedule 1\nden 1 \n", 2, ""),
    ("certificate 2\nleast\n", 2, ""),
    ("\n", 1, ""),
];

#[test]
fn fields_are_found(rt: HostRuntime) {
    for (text, number, wanted) in LINES {
        let found = match line_range(text.as_bytes(), *number) {
            Some(line) => field_fault(text.as_bytes(), &line),
            None => None,
        };
        assert!(rt; is_found(text, &found, wanted));
    }
}

const BEHAVIOUR: &[Row] = &[
    ("always @(posedge c) r <= (i);", 1, "always @(posedge c)"),
    ("always r; always (a);", 1, ""),
    ("wire a;", 1, ""),
];

#[test]
fn behaviour_is_found(rt: HostRuntime) {
    for (text, number, wanted) in BEHAVIOUR {
        let found = match statement_range(text.as_bytes(), *number) {
            Some(statement) => behaviour(text.as_bytes(), &statement),
            None => None,
        };
        assert!(rt; is_found(text, &found, wanted));
    }
}

const NETLIST: &str = "module a(x); input x; wire [1:0] v, w; endmodule
module b(x); input x; output y; wire v; wire y; wire u, \\v ; a w(.x(v)), w(x); b c(); endmodule
module c(); d k(); endmodule module d(); c l(); e m(); endmodule module a(z); endmodule";

/// A statement, the bytes that are found, and where they stood first.
const TWICE: &[(u32, &str, usize)] = &[
    (3, "", 0),
    (8, "", 0),
    (10, "\\v", 86),
    (11, "w", 112),
    (21, "a", 7),
];

#[test]
fn names_are_found(rt: HostRuntime) -> Result<(), OutOfMemory> {
    let text = NETLIST.as_bytes();
    for (number, wanted, earlier) in TWICE {
        let Some(statement) = statement_range(text, *number) else {
            continue;
        };
        let found = name_twice(rt.alloc(), text, &statement)?;
        assert!(rt; is_found(NETLIST, &found, wanted));
        if let Some(
            Found {
                fault: Fault::Again { earlier: range, .. },
                ..
            },
        ) = found
        {
            assert!(rt; range.from == *earlier);
        }
    }
    Ok(())
}

/// The name of the module and the way of a ring at a statement.
fn ring_at(number: u32) -> Option<Way> {
    let statement = statement_range(NETLIST.as_bytes(), number)?;
    match ring(NETLIST.as_bytes(), &statement)?.fault {
        Fault::Ring { way, .. } => Some(way),
        _ => None,
    }
}

#[test]
fn rings_are_found(rt: HostRuntime) {
    assert!(rt; ring_at(12) == Some(Way::Straight));
    assert!(rt; ring_at(15) == Some(Way::Through));
    assert!(rt; ring_at(19) == Some(Way::Far));
}

const DRIVEN: &str = "module h(i, o); input i; output o; endmodule
module t(a, b); input a; output b; wire m, n; assign n = m, b = a; h u(.i(m), .o(m)); h v(.i(a), .o(m)); assign n = a;
assign a = m; h w(.o({n})); endmodule module s(); endmodule";

/// A statement, the bytes that are found, and where they were driven first.
const AGAIN: &[(u32, &str, usize)] = &[(9, "", 0), (10, "", 0), (11, "m", 126), (14, "", 0)];

#[test]
fn drivers_are_found(rt: HostRuntime) -> Result<(), OutOfMemory> {
    let text = DRIVEN.as_bytes();
    for (number, wanted, earlier) in AGAIN {
        let Some(statement) = statement_range(text, *number) else {
            continue;
        };
        let found = two_drivers(rt.alloc(), text, &statement)?;
        assert!(rt; is_found(DRIVEN, &found, wanted));
        if let Some(
            Found {
                fault: Fault::Driven { earlier: range },
                ..
            },
        ) = found
        {
            assert!(rt; range.from == *earlier);
        }
    }
    Ok(())
}

#[test]
fn tops_are_found(rt: HostRuntime) -> Result<(), OutOfMemory> {
    let found = possible_tops(rt.alloc(), DRIVEN.as_bytes())?;
    assert!(rt; is_found(DRIVEN, &found, "t"));
    let none = possible_tops(rt.alloc(), b"")?;
    assert!(rt; none.is_none());
    Ok(())
}

#[test]
fn arcs_are_found(rt: HostRuntime) {
    let text = "table 1\narc n0 n1 2 2\narc n1 n0 5 5\n";
    let found = arc_lines(text.as_bytes(), &[1, 0]);
    assert!(rt; is_found(text, &found, "arc n1 n0 5 5"));
    let Some(found) = found else {
        return;
    };
    match arc_ends(text.as_bytes(), &found.range) {
        Some((from, to)) => {
            assert!(rt; bytes_of(text.as_bytes(), &from) == b"n1".as_slice());
            assert!(rt; bytes_of(text.as_bytes(), &to) == b"n0".as_slice());
        }
        None => assert!(rt; found.range.from > found.range.to),
    }
}
