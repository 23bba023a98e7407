//! `files` of mintc_sample: the texts of a sample, by lines that were written by hand.
use mintc_sample::files;
use std::test::Fail;

/// Whether a text has some bytes in it.
fn has(text: &[u8], wanted: &[u8]) -> bool {
    for from in 0..text.len() {
        if text[from..].starts_with(wanted) {
            return true;
        }
    }
    false
}

const OF_NETLIST: &[u8] =
    b"MIX g0 (.A(y1999), .B(y1997), .Y(x0));\nLAT u0 (.D(x0), .G(c1), .Q(y0));\nMIX g1 (.A(y0), .B(y1998), .Y(x1));\n";

const OF_DELAYS: &[&str] = &[
    "(INSTANCE g0) (DELAY (ABSOLUTE (IOPATH A Y (1000.014)) (IOPATH B Y (0)))))\n",
    "(INSTANCE g3) (DELAY (ABSOLUTE (IOPATH A Y (1000.175)) (IOPATH B Y (0)))))\n",
];

#[test]
fn sample_seven_has_its_lines(rt: HostRuntime) -> Result<(), Fail> {
    let sample = files(rt.alloc(), 7)?;
    assert!(rt; has(sample.netlist.items(), OF_NETLIST));
    for line in OF_DELAYS {
        assert!(rt; has(sample.delays.items(), line.as_bytes()), "{line}");
    }
    Ok(())
}
