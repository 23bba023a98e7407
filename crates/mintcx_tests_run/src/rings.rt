//! A ring whose edges differ: words, and what a run with them leaves, with edges merged and apart.
use crate::rows::Rows;
use crate::runs::are_as_wanted;
use std::test::Fail;

/// A ring of two latches and one inverter, whose edges differ.
const RING_NETLIST: &str = "module two(c1, c2);
  input c1, c2;
  wire x, y, z;
  LAT a (.D(z), .G(c1), .Q(x));
  NOT n (.A(x), .Y(y));
  LAT b (.D(y), .G(c2), .Q(z));
endmodule
";

/// Its delays: 30 fs for a rise behind the inverter, and 50 for a fall.
const RING_DELAYS: &str = "(DELAYFILE (TIMESCALE 1fs)
 (CELL (CELLTYPE \"NOT\") (INSTANCE n) (DELAY (ABSOLUTE (IOPATH A Y (30) (50)))))
 (CELL (CELLTYPE \"LAT\") (INSTANCE a) (DELAY (ABSOLUTE (IOPATH D Q (20)))) (TIMINGCHECK (SETUP D G (5))))
 (CELL (CELLTYPE \"LAT\") (INSTANCE b) (DELAY (ABSOLUTE (IOPATH D Q (20)))) (TIMINGCHECK (SETUP D G (5)))))
";

/// Its cells.
const RING_LIBRARY: &str = "library (two) {
  cell (NOT) { pin (A) { direction : input ; } pin (Y) { direction : output ; function : \"!A\" ; } }
  cell (LAT) { latch (IQ, IQN) { enable : \"G\" ; data_in : \"D\" ; }
    pin (D) { direction : input ; } pin (G) { direction : input ; } pin (Q) { direction : output ; function : \"IQ\" ; } }
}
";

/// Its cells as a description that says the same senses.
const RING_CELLS: &str = "[cell.NOT]
kind = \"gate\"
inputs = [\"A\"]
outputs = [\"Y\"]
negative = [\"A\"]
[cell.LAT]
kind = \"latch\"
d = \"D\"
g = \"G\"
outputs = [\"Q\"]
positive = [\"Q\"]
";

/// The same, in which the inverter's input is named twice.
const RING_TWICE: &str = "[cell.NOT]
kind = \"gate\"
inputs = [\"A\"]
outputs = [\"Y\"]
negative = [\"A\", \"A Y\"]
[cell.LAT]
kind = \"latch\"
d = \"D\"
g = \"G\"
outputs = [\"Q\"]
";

/// Its clock.
const RING_CLOCK: &str = "[[phase]]
name = \"p1\"
port = \"c1\"
[[phase]]
name = \"p2\"
port = \"c2\"
";

/// Its table with edges apart.
const RING_APART: &str = "0|table 3
phases 2
phase p1
phase p2
elements 4
element a/r 1 latch 5 - 20 20 20 20 0
element a/f 1 latch 5 - 20 20 20 20 0
element b/r 2 latch 5 - 20 20 20 20 0
element b/f 2 latch 5 - 20 20 20 20 0
inner 26
arcs 26
arc n8 n10 0 0
arc n9 n11 0 0
arc n0 n12 0 0
arc n1 n13 0 0
arc n14 n4 0 0
arc n15 n5 0 0
arc n4 n16 0 0
arc n5 n17 0 0
arc n18 n6 0 0
arc n19 n7 0 0
arc n6 n20 0 0
arc n7 n21 0 0
arc n2 n22 0 0
arc n3 n23 0 0
arc n24 n8 0 0
arc n25 n9 0 0
arc n10 d0 0 0
arc n11 d1 0 0
arc q0 n14 0 0
arc q1 n15 0 0
arc n16 n19 50 50
arc n17 n18 30 30
arc n20 d2 0 0
arc n21 d3 0 0
arc q2 n24 0 0
arc q3 n25 0 0
bounds 0
end
||";

/// A ring with edges merged, and with edges apart: 70 and 20 fs each cycle, or 70, 20, 50 and 20 in two.
const RING: Rows = Rows {
    files: &[
        ("ring.v", RING_NETLIST),
        ("ring.sdf", RING_DELAYS),
        ("ring.lib", RING_LIBRARY),
        ("cells.toml", RING_CELLS),
        ("twice.toml", RING_TWICE),
        ("ring.toml", RING_CLOCK),
        (
            "three.schedule",
            "schedule 1\nden 1\ncycle 80\nphases 3\nphase 0 15\nphase 15 60\nphase 15 60\nend\n",
        ),
        (
            "apart.schedule",
            "schedule 1\nden 1\ncycle 80\nphases 2\nphase 0 15\nphase 15 60\nend\n",
        ),
    ],
    rows: &[
        (
            "mintcx schedule --netlist ring.v --sdf ring.sdf --lib ring.lib --clock ring.toml --edges merged",
            "0|schedule 1\nden 1\ncycle 90\nphases 2\nphase 0 5\nphase 5 70\nend\n||",
        ),
        (
            "mintcx schedule --netlist ring.v --sdf ring.sdf --lib ring.lib --clock ring.toml --edges apart",
            "0|schedule 1\nden 1\ncycle 80\nphases 2\nphase 0 15\nphase 15 60\nend\n||",
        ),
        (
            "mintcx table --netlist ring.v --sdf ring.sdf --lib ring.lib --clock ring.toml",
            RING_APART,
        ),
        (
            "mintcx sdc apart.schedule --netlist ring.v --sdf ring.sdf --lib ring.lib --clock ring.toml",
            "0|# mintcx 0.1.0: clocks of two from apart.schedule, a cycle of 80 fs
# All numbers are in ns, exactly; read this where the library's time unit is 1 ns.
set_units -time ns
create_clock -name {p1} -period 0.00008 -waveform {0 0.000015} [get_ports {c1}]
create_clock -name {p2} -period 0.00008 -waveform {0.000015 0.000075} [get_ports {c2}]
||",
        ),
        (
            "mintcx check three.schedule --netlist ring.v --sdf ring.sdf --lib ring.lib --clock ring.toml --format plain",
            "2|refused 19 2 3\n||",
        ),
        (
            "mintcx check apart.schedule --netlist ring.v --sdf ring.sdf --lib ring.lib --clock ring.toml --format plain",
            "0|pass
element a/r late 0/1 early 0/1
element a/f late 10/1 early 10/1
element b/r late 45/1 early 45/1
element b/f late 55/1 early 55/1
||",
        ),
        (
            "mintcx schedule --netlist ring.v --sdf ring.sdf --cells cells.toml --clock ring.toml --edges apart",
            "0|schedule 1\nden 1\ncycle 80\nphases 2\nphase 0 15\nphase 15 60\nend\n||",
        ),
        (
            "mintcx table --netlist ring.v --sdf ring.sdf --cells cells.toml --clock ring.toml --edges apart",
            RING_APART,
        ),
        (
            "mintcx optimise --netlist ring.v --sdf ring.sdf --cells cells.toml --clock ring.toml --errors short",
            "2||cells.toml:11:1: error[13]: cell `LAT`: its kind has no key `positive`\n|",
        ),
        (
            "mintcx optimise --netlist ring.v --sdf ring.sdf --cells twice.toml --clock ring.toml --edges apart --errors short",
            "2||twice.toml:1:1: error[13]: cell `NOT`: `positive` or `negative` is no list of names, names no pin, or names a pair of pins twice\n|",
        ),
        (
            "mintcx safe --netlist ring.v --sdf ring.sdf --lib ring.lib --clock ring.toml --clock-cell X",
            "3||error: '--clock-cell X' names no cell of the library\n|",
        ),
        (
            "mintcx optimise --netlist ring.v --sdf ring.v --lib ring.lib --clock ring.toml --errors short",
            "2||ring.v: error[1]: this part of the delays isn't read\n|",
        ),
    ],
};

#[test]
fn rings_are_answered(rt: HostRuntime) -> Result<(), Fail> {
    are_as_wanted(&rt, rt.alloc(), &RING)
}
