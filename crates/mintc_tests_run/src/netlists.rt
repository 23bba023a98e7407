//! Runs on netlists that are accepted: outputs without a connection, deep braces, and the order in which bits are
//! joined.
use super::harness::{CLOCK, NO_ELEMENT, Wanted, is_optimised, run_files};
use mintc_command::Status;
use mintc_text::OutOfMemory;
use std::alloc::Global;
use std::process::Abort;
use std::test::Fail;

/// The slacks of a netlist with this clock.
fn has_slacks(
    rt: &impl Abort,
    alloc: Global,
    netlist: &str,
    clock: &str,
    answer: &str,
) -> Result<(), OutOfMemory> {
    let words = "slack files v d c k";
    let (status, taken) = run_files(alloc, words, netlist, "(DELAYFILE)", clock)?;
    assert!(rt;
        status == Status::Done && taken.as_slice() == answer.as_bytes(),
        "{netlist}"
    );
    Ok(())
}

/// A latch whose output leads nowhere.
const UNCONNECTED: &str =
    "module m(c); input c; LAT a (.D(w), .G(c), .Q()); BUF b (.A(c), .Y(w)); endmodule";

/// The optimum of that one latch.
const OF_UNCONNECTED: Wanted<'static> = (
    Status::Done,
    "certificate 2\nleast\nden 1\ncycle 10\nphases 1\nphase 0 10\ndepartures 1\ndeparture 0\n",
    &[
        "chain 3\nspan 1\nopen 0\nsetup 0\nend\n",
        "chain 2\nspan 1\nopened 0\nend\n",
    ],
);

// Row refused-netlists, the text that is accepted: one element, and no pair.
#[test]
fn an_output_may_be_connected_to_nothing(rt: HostRuntime) -> Result<(), Fail> {
    let alloc = rt.alloc();
    is_optimised(
        &rt,
        alloc,
        UNCONNECTED,
        "(DELAYFILE)",
        CLOCK,
        OF_UNCONNECTED,
    )?;
    has_slacks(&rt, alloc, UNCONNECTED, CLOCK, "cycle 10/1\n")?;
    Ok(())
}

/// Braces as deep as they may be.
const BRACES: &str =
    "module m(c); input c; wire w; assign w = {{{{{{{{{{{{{{{{{{{{{{{{{{{{{{{{c}}}}}}}}}}}}}}}}}}}}}}}}}}}}}}}}; \
     endmodule";

#[test]
fn braces_may_be_32_deep(rt: HostRuntime) -> Result<(), Fail> {
    is_optimised(&rt, rt.alloc(), BRACES, "(DELAYFILE)", CLOCK, NO_ELEMENT)?;
    Ok(())
}

/// The slacks of a netlist whose module of two latches is connected to this.
fn have_slacks(
    rt: &impl Abort,
    alloc: Global,
    expr: &str,
    answer: &str,
) -> Result<(), OutOfMemory> {
    let netlist = format!(in alloc;
        "module t(c, x); input c; input [0:1] x; pair p (.c(c), .i({expr})); endmodule module pair(c, i); input c; \
         input [1:0] i; LAT a (.D(i[1]), .G(c)); LAT b (.D(i[0]), .G(c)); endmodule"
    )?;
    let clock = format!(in alloc; "{CLOCK}[[input]]\nport = \"x\"\nphase = \"p\"\n")?;
    has_slacks(rt, alloc, &netlist, &clock, answer)
}

// Row bit-order: bits are joined from the right, whatever their indexes.
#[test]
fn bits_are_joined_from_the_right(rt: HostRuntime) -> Result<(), Fail> {
    let alloc = rt.alloc();
    let plain = "cycle 10/1\nslack x[1] p.b 10\nslack x[0] p.a 10\n";
    have_slacks(&rt, alloc, "x", plain)?;
    let turned = "cycle 10/1\nslack x[1] p.a 10\nslack x[0] p.b 10\n";
    have_slacks(&rt, alloc, "{x[1], x[0]}", turned)?;
    Ok(())
}
