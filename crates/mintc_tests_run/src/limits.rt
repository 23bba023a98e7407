//! Tables, netlists and corners at the limits and one past them (refusal 17).
use super::files::{PAIR_CELLS, PAIR_CLOCK};
use super::harness::{
    CLOCK, NO_ELEMENT, NO_TIME, Wanted, is_optimised, is_refused, is_wanted, push_text, run_on,
};
use mintc_command::Status;
use mintc_tests_designs::TWO_LATCHES;
use mintc_text::OutOfMemory;
use std::alloc::{AllocError, Global};
use std::process::Abort;
use std::test::Fail;

/// The rows after those of the two latches, for so many elements that are as the first one.
fn more_elements(alloc: Global, count: usize) -> Result<String, AllocError> {
    let mut more = String::new(alloc);
    for _ in 2..count {
        more.push_str("element a 1 10 - 10 10 0\n")?;
    }
    more.push_str("inner 0\n")?;
    Ok(more)
}

/// The two latches, with so many elements in their count.
fn counted(alloc: Global, count: usize) -> Result<String, AllocError> {
    let row = format!(in alloc; "elements {count}\n")?;
    TWO_LATCHES.replacen(alloc, "elements 2\n", &row, 1)
}

/// The two latches, and so many more elements that are as the first one.
pub(crate) fn many_elements(alloc: Global, count: usize) -> Result<String, AllocError> {
    let more = more_elements(alloc, count)?;
    counted(alloc, count)?.replacen(alloc, "inner 0\n", &more, 1)
}

/// A run of `optimise` on a table ends as it may.
fn table_is_optimised(
    rt: &impl Abort,
    alloc: Global,
    table: &str,
    wanted: Wanted<'_>,
) -> Result<(), OutOfMemory> {
    let (status, taken) = run_on(alloc, &[("TAB1", table)], "optimise table TAB1")?;
    assert!(rt; is_wanted(status, taken.as_slice(), wanted), "{}", wanted.1);
    Ok(())
}

/// The certificate of that table, up to its chain.
pub(crate) fn many_departures(alloc: Global, count: usize) -> Result<String, AllocError> {
    let mut front = format!(in alloc;
        "certificate 2\nleast\nden 1\ncycle 100\nphases 2\nphase 0 10\nphase 10 30\ndepartures {count}\n\
         departure 0\ndeparture 20\n"
    )?;
    for _ in 2..count {
        front.push_str("departure 0\n")?;
    }
    Ok(front)
}

/// The chain of that table.
pub(crate) const CHAINS: &[&str] = &["chain 2\nreach 0 1 1 0\nreach 1 0 1 1\nend\n"];

// Row element-limit.
#[test]
fn a_table_may_have_2000_elements(rt: HostRuntime) -> Result<(), Fail> {
    let alloc = rt.alloc();
    let front = many_departures(alloc, 2_000)?;
    let table = many_elements(alloc, 2_000)?;
    table_is_optimised(&rt, alloc, &table, (Status::Done, &front, CHAINS))?;
    Ok(())
}

/// Adds so many bounds, and the end.
fn push_bounds(alloc: Global, text: &mut String, bounds: usize) -> Result<(), AllocError> {
    push_text(text, format!(in alloc; "bounds {bounds}\n"))?;
    for _ in 0..bounds {
        text.push_str("bound o o 0 0\n")?;
    }
    text.push_str("end\n")
}

/// A table with nothing in it but so many phases and bounds.
fn empty_table(alloc: Global, phases: usize, bounds: usize) -> Result<String, AllocError> {
    let mut text = format!(in alloc; "table 1\nphases {phases}\n")?;
    for _ in 0..phases {
        text.push_str("phase p\n")?;
    }
    text.push_str("elements 0\ninner 0\narcs 0\n")?;
    push_bounds(alloc, &mut text, bounds)?;
    Ok(text)
}

#[test]
fn refusal_17_of_elements_of_a_table(rt: HostRuntime) -> Result<(), Fail> {
    let table = many_elements(rt.alloc(), 2_001)?;
    let answer = "refused 17 elements 2001\n";
    table_is_optimised(&rt, rt.alloc(), &table, (Status::Refused, answer, &[""]))?;
    Ok(())
}

/// Of tables with nothing in them but so many phases and bounds, what `optimise` gives: a phase and a bound too
/// many, and as many as there may be.
const OF_EMPTY: &[(usize, usize, Wanted<'static>)] = &[
    (9, 64, (Status::Refused, "refused 17 phases 9\n", &[""])),
    (8, 65, (Status::Refused, "refused 17 bounds 65\n", &[""])),
    (
        8,
        64,
        (
            Status::Done,
            "certificate 2\nleast\nden 1\ncycle 0\nphases 8\nphase 0 0\nphase 0 0\nphase 0 0\nphase 0 0\n\
             phase 0 0\nphase 0 0\nphase 0 0\nphase 0 0\ndepartures 0\n",
            NO_TIME,
        ),
    ),
];

// Row limits-and-one-past: phases and bounds.
#[test]
fn refusal_17_of_phases_and_bounds_of_a_table(rt: HostRuntime) -> Result<(), Fail> {
    for (phases, bounds, wanted) in OF_EMPTY {
        let table = empty_table(rt.alloc(), *phases, *bounds)?;
        table_is_optimised(&rt, rt.alloc(), &table, *wanted)?;
    }
    Ok(())
}

/// Adds the module of a number, with some instances of the next.
fn push_module(
    alloc: Global,
    text: &mut String,
    number: usize,
    instances: usize,
) -> Result<(), AllocError> {
    push_text(text, format!(in alloc; "module t{number}(c); input c;"))?;
    let next = number.saturating_add(1);
    for instance in 0..instances {
        push_text(text, format!(in alloc; " t{next} u{instance} (.c(c));"))?;
    }
    text.push_str(" endmodule\n")
}

/// So many modules, each but the last with some instances of the next; the last has a body of its own.
pub(crate) fn modules(
    alloc: Global,
    count: usize,
    instances: usize,
    body: &str,
) -> Result<String, AllocError> {
    let mut text = String::new(alloc);
    for number in 1..count {
        push_module(alloc, &mut text, number, instances)?;
    }
    push_text(
        &mut text,
        format!(in alloc; "module t{count}(c); input c; {body} endmodule\n"),
    )?;
    Ok(text)
}

/// Four leaves.
pub(crate) const LEAVES: &str = "BUF a (.A(c)); BUF b (.A(c)); BUF d (.A(c)); BUF e (.A(c));";

// Row limits-and-one-past: scopes, depth, leaves.
#[test]
fn refusal_17_of_scopes_depth_and_leaves(rt: HostRuntime) -> Result<(), Fail> {
    let alloc = rt.alloc();
    for (count, instances, body, answer) in &[
        (16, 2, "", "refused 17 scopes 65535\n"),
        (30, 2, "", "refused 17 scopes 1000000000\n"),
        (33, 1, "", "refused 17 depth 33\n"),
        (15, 2, LEAVES, "refused 17 leaves 65536\n"),
    ] {
        let netlist = modules(alloc, *count, *instances, body)?;
        is_refused(&rt, alloc, netlist.as_str(), &[*answer])?;
    }
    Ok(())
}

/// A module with four nets of many bits beside its port.
fn wide(alloc: Global, last: u32) -> Result<String, AllocError> {
    format!(in alloc;
        "module m(c); input c; wire [65535:0] w1; wire [65535:0] w2; wire [65535:0] w3; wire [{last}:0] w4; endmodule"
    )
}

// Row limits-and-one-past: inner bits.
#[test]
fn refusal_17_of_inner_bits(rt: HostRuntime) -> Result<(), Fail> {
    let alloc = rt.alloc();
    is_refused(
        &rt,
        alloc,
        &wide(alloc, 65_535)?,
        &["refused 17 inner 262145\n"],
    )?;
    let netlist = wide(alloc, 65_534)?;
    is_optimised(&rt, alloc, &netlist, "(DELAYFILE)", CLOCK, NO_ELEMENT)?;
    Ok(())
}

// Row limits-and-one-past: elements.
#[test]
fn refusal_17_of_elements_of_files(rt: HostRuntime) -> Result<(), Fail> {
    let alloc = rt.alloc();
    let netlist = "module m(c, x); input c; input [2000:0] x; endmodule";
    let clock = format!(in alloc; "{CLOCK}[[input]]\nport = \"x\"\nphase = \"p\"\n")?;
    let wanted = (
        Status::Refused,
        "refused 17 elements 2001\n",
        [""].as_slice(),
    );
    is_optimised(&rt, alloc, netlist, "(DELAYFILE)", &clock, wanted)?;
    Ok(())
}

/// A netlist of so many flops, none of which is fed by another.
fn many_flops(alloc: Global, count: usize) -> Result<String, AllocError> {
    let mut text = String::from_str(alloc, "module m(c1, c2); input c1, c2; wire p;")?;
    for number in 0..count {
        push_text(
            &mut text,
            format!(in alloc; " FF f{number} (.D(p), .C(c1));"),
        )?;
    }
    text.push_str(" endmodule\n")?;
    Ok(text)
}

/// What is answered for two corners of a netlist, the second with these delays.
fn answered(alloc: Global, netlist: &str, second: &str) -> Result<(Status, Vec<u8>), OutOfMemory> {
    let files = [
        ("many.v", netlist),
        ("pair.cells", PAIR_CELLS),
        ("pair.clock", PAIR_CLOCK),
        ("no.sdf", "(DELAYFILE)\n"),
        ("cut.sdf", "(DELAYFILE"),
    ];
    let words = format!(in alloc; "corners many.v pair.cells pair.clock no.sdf {second}")?;
    run_on(alloc, &files, words.as_str())
}

/// Two corners of a netlist, the second with these delays, are answered with this status and front.
fn are_answered(
    rt: &impl Abort,
    alloc: Global,
    netlist: &str,
    second: &str,
    status: Status,
    front: &str,
) -> Result<(), OutOfMemory> {
    let (found, taken) = answered(alloc, netlist, second)?;
    assert!(rt;
        found == status && taken.as_slice().starts_with(front.as_bytes()),
        "{front}"
    );
    Ok(())
}

// Two corners have as many elements together as a design may have, or two more; but a corner that is refused comes
// before.
#[test]
fn refusal_17_of_elements_of_corners(rt: HostRuntime) -> Result<(), Fail> {
    let alloc = rt.alloc();
    for (count, second, status, front) in &[
        (1_000, "no.sdf", Status::Done, "corners 1\nleast\n"),
        (
            1_001,
            "no.sdf",
            Status::Refused,
            "refused 17 elements 2002\n",
        ),
        (
            1_001,
            "cut.sdf",
            Status::Refused,
            "refused 22 2\nrefused 1 delays 1\n",
        ),
    ] {
        let netlist = many_flops(alloc, *count)?;
        are_answered(&rt, alloc, &netlist, second, *status, front)?;
    }
    Ok(())
}
