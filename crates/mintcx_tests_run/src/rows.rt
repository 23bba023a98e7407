//! Words, and what a run with them leaves.

use crate::runs::are_as_wanted;
use mintc_tests_designs::{
    TWO_CELLS, TWO_CERTIFICATE, TWO_CLOCK, TWO_DELAYS, TWO_LATCHES, TWO_LIBRARY, TWO_NETLIST,
    TWO_SCHEDULE,
};
use std::test::Fail;

/// The words of a run, and its status, what the two sinks took and what was made.
pub(crate) type Row = (&'static str, &'static str);

/// Rows over the same files.
pub(crate) struct Rows {
    pub(crate) files: &'static [(&'static str, &'static str)],
    pub(crate) rows: &'static [Row],
}

/// A schedule of the table that is too fast.
pub(crate) const FAST: &str =
    "schedule 1\nden 1\ncycle 80\nphases 2\nphase 0 10\nphase 10 30\nend\n";

/// The least cycle time of the table.
const LEAST: &str = "0|least  cycle 100 fs, 10.000 THz  (two.table)

  phase  starts  ends  width
  phi1        0    10     10
  phi2       10    40     30

decided by a chain of 2 constraints that takes 100 fs in 1 cycle:

  cycle  from   at  borrows  delay  to  through
      1  a       0              30  b
      1  b      30       20     70  a
      2  a     100

times in fs
||";

/// Its delays with a number below 0.
const LOW_DELAYS: &str = "(DELAYFILE (SDFVERSION \"3.0\") (DIVIDER /) (TIMESCALE 1ps)
(CELL (CELLTYPE \"BUF\") (INSTANCE u2/s/b)
 (DELAY (ABSOLUTE (IOPATH A Y (0.060) (-0.018))))))
";

/// The certificate of the table that a file takes, where nothing else is said.
const CERTIFIED: &str = "0|||own.certcertificate 2
least
den 1
cycle 100
phases 2
phase 0 10
phase 10 30
departures 2
departure 0
departure 20
chain 2
reach 0 1 1 0
reach 1 0 1 1
end
";

/// A latch whose width of a pulse and a bound exclude each other.
pub(crate) const PULSE_TABLE: &str =
    "table 1\nphases 1\nphase pulse\nelements 1\nelement state 1 20000 - 40000 45000 80000\ninner 0\narcs 1\n\
     arc q0 d0 150000 200000\nbounds 2\nbound s1 e1 60000 0\nbound e1 s1 -75000 0\nend\n";

/// Its certificate, beside the text that no schedule is right.
const PULSE_CERTIFIED: &str = "1|never  no schedule is right, whatever its cycle time  (pulse.table)

a chain of 2 constraints asks for 5 ps more than there are, in no cycle:

  from          to            at least  because
  pulse starts  pulse ends          80  least pulse width of state
  pulse ends    pulse starts       -75  bound 2

times in ps
||own.certcertificate 2
never
chain 2
width 1
bound 1
end
";

/// What there is at a cycle time above the least one.
const RIGHT: &str = "0|right  cycle 1000 ps, 1000.000 MHz  (two.table)

  phase  starts  ends  width
  phi1        0  0.01   0.01
  phi2     0.01  0.04   0.03

times in ps
||";

/// What there is at one below it.
const SHORT: &str = "1|short  cycle 80 fs, 12.500 THz  (two.table)

a chain of 2 constraints takes 100 fs in 1 cycle, and so needs a cycle of 100:

  from  delay  cycles  to  through
  a        30       0  b
  b        70       1  a

times in fs
||";

/// The least cycle time of the table that keeps each hold.
const SAFE: &str = "0|safe  cycle 100 fs, 10.000 THz  (two.table)
keeping each hold, with each output as early as it can be; without holds 100 fs would do

  phase  starts  ends  width
  phi1        0    10     10
  phi2       10    40     30

decided by a chain of 2 constraints that takes 100 fs in 1 cycle:

  cycle  from   at  borrows  delay  to  through
      1  a       0              30  b
      1  b      30       20     70  a
      2  a     100

times in fs
||";

/// The slacks of the table.
const SLACK: &str = "0|slack  cycle 100 fs, 10.000 THz  (two.table)

2 pairs of elements; 2 have no slack and hold the clock back

  slack  from  to  delay
      0  a     b      30
      0  b     a      70

times in fs; slack is how much a pair's delay may grow, alone, at this cycle
||";

/// The slacks of the table, counted.
const BARS: &str = "0|slack  cycle 100 fs, 10.000 THz  (two.table)

2 pairs of elements; 2 have no slack and hold the clock back

  slack  pairs
   none      2  ########################################

times in fs
||";

/// The judgement of the right schedule.
const PASS: &str = "0|pass  cycle 100 fs, 10.000 THz  (two.table under two.schedule)

  phase  starts  ends  width
  phi1        0    10     10
  phi2       10    40     30

room that each setup and each hold leaves, the least setup first:

  setup  hold  late  early  element  on
      0           0      0  a        latch on phi1
      0          20     20  b        latch on phi2

times in fs; late and early are when data leaves, from the start of the phase
||";

/// The judgement of the one that is too fast.
const FAIL: &str = "1|fail  cycle 80 fs, 12.500 THz  (two.table under fast.schedule)

1 violation:

  loop   data comes 20 fs later each time round a -> b -> a
         a to b takes 30, and has 10
         b to a takes 70, and has 70
         no data settles, so setups and holds can't be judged

times in fs
||";

/// The least cycle time of the files.
const LEAST_OF_FILES: &str = "0|least  cycle 100 fs, 10.000 THz  (two)

  phase  starts  ends  width
  p1          0    10     10
  p2         10    40     30

decided by a chain of 2 constraints that takes 100 fs in 1 cycle:

  cycle  from      at  borrows  delay  to       through
      1  u1.l[0]    0              30  u2.l[0]  b
      1  u2.l[0]   30       20     70  u1.l[0]  b
      2  u1.l[0]  100

times in fs
|warning: 1 port of the top is in no list: 1 output
 --> two.v:3:24
3 | module two(phi1, phi2, y);
  |                        ^ `y`
  = why: no time is known there: paths from such inputs and to such outputs are not judged
  = help: list them in the clock description, as `[[input]]` or `[[output]]` with a phase
|";

/// The least cycle time of the files with a library.
const LEAST_OF_LIBRARY: &str = "0|least  cycle 80 fs, 12.500 THz  (two)

  phase  starts  ends  width
  p1          0     0      0
  p2          0    20     20

decided by a chain of 2 constraints that takes 80 fs in 1 cycle:

  cycle  from     at  borrows  delay  to       through
      1  u1.l[0]   0              20  u2.l[0]  b
      1  u2.l[0]  20       20     60  u1.l[0]  b
      2  u1.l[0]  80

times in fs
|warning: 1 port of the top is in no list: 1 output
 --> two.v:3:24
3 | module two(phi1, phi2, y);
  |                        ^ `y`
  = why: no time is known there: paths from such inputs and to such outputs are not judged
  = help: list them in the clock description, as `[[input]]` or `[[output]]` with a phase
|";

/// The verdict on its certificate.
const VALID: &str =
    "0|valid  cycle 100 fs is the least of all right schedules of two.table, and this schedule is right  \
     (two.cert)\n||";

/// The optimum of the table, gate by gate.
const REPORT: &str = "0|least  cycle 100 fs, 10.000 THz  (two.table)

  phase  starts  ends  width
  phi1        0    10     10
  phi2       10    40     30

decided by a chain of 2 constraints that takes 100 fs in 1 cycle:

  cycle  delay  time  at
      1            0  a  latch on phi1, open from 0 to 10
            10    10    D -> Q
            20    30    to b
      1           30  b  latch on phi2, open from 10 to 40, borrows 20
            10    40    D -> Q
            60   100    to a
      2          100  a again, 1 cycle on

1 latch of 2 borrows:

  borrows  element  on
       20  b        latch on phi2

times in fs
||";

/// The schedule of the least cycle time of the table.
const TOLD_SCHEDULE: &str = "0|schedule 1
den 1
cycle 100
phases 2
phase 0 10
phase 10 30
end
||";

/// The clocks of the optimum.
const CLOCKS: &str = "0|# mintcx 0.1.0: clocks of two.table from two.cert, a cycle of 100 fs
# All numbers are in ns, exactly; read this where the library's time unit is 1 ns.
set_units -time ns
create_clock -name {phi1} -period 0.0001 -waveform {0 0.00001} [get_ports {phi1}]
create_clock -name {phi2} -period 0.0001 -waveform {0.00001 0.00004} [get_ports {phi2}]
||";

/// A right schedule of the table over the denominator 2.
const HALF: &str = "schedule 1\nden 2\ncycle 201\nphases 2\nphase 0 20\nphase 20 61\nend\n";

/// The optimum of the files at two corners, which are the same.
const JOINT: &str = "0|least  cycle 100 fs, 10.000 THz  (two, 2 corners)

  corner  delays   cycle alone
       1  two.sdf          100
       2  two.sdf          100

  phase  starts  ends  width
  p1          0    10     10
  p2         10    40     30

decided by a chain of 2 constraints that takes 100 fs in 1 cycle:

  corner  from     delay  to       through
       2  u1.l[0]     30  u2.l[0]  b
       2  u2.l[0]     70  u1.l[0]  b

times in fs
||";

/// The same with a library.
const JOINT_OF_LIBRARY: &str = "0|least  cycle 80 fs, 12.500 THz  (two, 2 corners)

  corner  delays   cycle alone
       1  two.sdf           80
       2  two.sdf           80

  phase  starts  ends  width
  p1          0     0      0
  p2          0    20     20

decided by a chain of 2 constraints that takes 80 fs in 1 cycle:

  corner  from     delay  to       through
       2  u1.l[0]     20  u2.l[0]  b
       2  u2.l[0]     60  u1.l[0]  b

times in fs
||";

/// A project file of a table.
pub(crate) const PROJECT: &str = "[design]\ntable = \"two.table\"\n";

/// The table of the table.
const TABLE_OF_TABLE: &str = "0|table 3
phases 2
phase phi1
phase phi2
elements 2
element a 1 latch 10 - 10 10 10 10 0
element b 2 latch 10 - 10 10 10 10 0
inner 0
arcs 2
arc q0 d1 20 20
arc q1 d0 60 60
bounds 0
end
||";

/// A table with its schedule and its certificate.
const TABLE: Rows = Rows {
    files: &[
        ("two.table", TWO_LATCHES),
        ("two.schedule", TWO_SCHEDULE),
        ("two.cert", TWO_CERTIFICATE),
        ("fast.schedule", FAST),
        ("half.schedule", HALF),
        ("pulse.table", PULSE_TABLE),
        ("mintc.toml", PROJECT),
        ("chip/mintc.toml", PROJECT),
        ("bad.toml", "[design]\ntabel = \"two.table\"\n"),
    ],
    rows: &[
        (
            "mintcx check two.schedule --format plain",
            "0|pass\nelement a late 0/1 early 0/1\nelement b late 20/1 early 20/1\n||",
        ),
        (
            "mintcx check two.schedule --table two.table --format plain -q",
            "0|||",
        ),
        (
            "mintcx verify two.cert --format plain -o told",
            "0|||toldvalid\n",
        ),
        (
            "mintcx verify two.schedule --format plain",
            "2|refused 1 certificate 1\n||",
        ),
        (
            "mintcx check two.cert",
            "2||error[1]: this line of the schedule is out of form
 --> two.cert:1:1
1 | certificate 2
  | ^^^^^^^^^^^^^
  = why: the lines are `schedule 1`, `den D`, `cycle C`, `phases K`, K times `phase START WIDTH` and `end`
  = help: mend this line, or what counts the lines before it
  = note: `refused 1 schedule 1`; `mintcx explain 1` says more
|",
        ),
        (
            "mintcx check two.cert --errors short",
            "2||two.cert:1:1: error[1]: this line of the schedule is out of form\n|",
        ),
        (
            "mintcx optimise -p chip/mintc.toml",
            "4||error: 'chip/two.table' can't be read\n|",
        ),
        (
            "mintcx optimise -p bad.toml",
            "3||error: 'bad.toml': `tabel` is no key here\n|",
        ),
        (
            "mintcx optimise -p none.toml",
            "4||error: 'none.toml' can't be read\n|",
        ),
        ("mintcx optimise --cycle 1ns", RIGHT),
        ("mintcx optimise --cycle 80fs", SHORT),
        (
            "mintcx optimise --cycle 80fs --format plain",
            "3||error: '--cycle' has no plain form; '--format text' has one\n|",
        ),
        (
            "mintcx optimise --lib x --table y",
            "3||error: a table stands in place of the four files, and both are named\n|",
        ),
        ("mintcx optimise --certificate own.cert -q", CERTIFIED),
        (
            "mintcx optimise --certificate own.cert --table pulse.table",
            PULSE_CERTIFIED,
        ),
        (
            "mintcx optimise --certificate own.cert --table two.cert",
            "2||error[1]: this line of the table is out of form
 --> two.cert:1:1
1 | certificate 2
  | ^^^^^^^^^^^^^
  = why: its parts are phases, elements, inner bits, arcs, bounds and `end`, in this order
  = help: mend this line, or what counts the lines before it
  = note: `refused 1 table 1`; `mintcx explain 1` says more
|",
        ),
        (
            "mintcx optimise --certificate no/own.cert",
            "5||error: 'no/own.cert' can't be written\n|",
        ),
        (
            "mintcx optimise --certificate own.cert --format plain",
            "3||error: '--certificate' goes with '--format text'; '--format plain -o FILE' writes the certificate \
             alone\n|",
        ),
        ("mintcx --version", "0|mintcx 0.1.0\n||"),
        (
            "mintcx explain 20",
            "3||error: there is no such page; refusals are 1 to 19, 21 and 22, warnings 'outputs' and 'same-phase'\n|",
        ),
        ("mintcx optimise", LEAST),
        ("mintcx report", REPORT),
        ("mintcx safe", SAFE),
        ("mintcx slack", SLACK),
        ("mintcx slack --histogram", BARS),
        (
            "mintcx slack --format csv",
            "0|from,to,delay,slack\r\na,b,30,0\r\nb,a,70,0\r\n||",
        ),
        (
            "mintcx optimise --format csv --unit ps",
            "0|cycle,from,at,borrows,delay,to\r\n1,a,0,0,30,b\r\n1,b,30,20,70,a\r\n||",
        ),
        (
            "mintcx report --format csv",
            "0|cycle,from,at,borrows,delay,to\r\n1,a,0,0,30,b\r\n1,b,30,20,70,a\r\n||",
        ),
        (
            "mintcx slack --histogram --format csv",
            "3||error: '--format csv' isn't there for 'schedule', 'sdc', 'draw', 'table', '--histogram' and \
             '--certificate'\n|",
        ),
        (
            "mintcx check two.schedule --format csv",
            "0|element,on,late,early,setup,hold\r\na,latch on phi1,0,0,0,\r\nb,latch on phi2,20,20,0,\r\n||",
        ),
        (
            "mintcx check fast.schedule --format csv",
            "1|kind,of,by\r\nloop,a b,20\r\n||",
        ),
        ("mintcx table", TABLE_OF_TABLE),
        ("mintcx table --format plain", TABLE_OF_TABLE),
        ("mintcx table -q", "0|||"),
        ("mintcx sdc two.cert", CLOCKS),
        ("mintcx sdc two.cert --format plain", CLOCKS),
        ("mintcx sdc fast.schedule", FAIL),
        (
            "mintcx sdc half.schedule",
            "1||error: SDC can't say this schedule: its times are over the denominator 2; `mintcx schedule --cycle` \
             gives whole femtoseconds\n|",
        ),
        ("mintcx verify two.cert", VALID),
        ("mintcx schedule", TOLD_SCHEDULE),
        ("mintcx schedule --format plain", TOLD_SCHEDULE),
        ("mintcx schedule two.cert", TOLD_SCHEDULE),
        ("mintcx schedule --cycle 80fs", SHORT),
        ("mintcx check two.schedule", PASS),
        ("mintcx check fast.schedule", FAIL),
    ],
};

/// The files as one table.
const TABLE_OF_FILES: &str = "0|table 3
phases 2
phase p1
phase p2
elements 2
element u1.l[0] 1 latch 10 - 10 10 10 10 0
element u2.l[0] 2 latch 10 - 10 10 10 10 0
inner 29
arcs 27
arc n3 n2 0 0
arc n0 n5 0 0
arc n3 n6 0 0
arc n7 n4 0 0
arc n6 n9 0 0
arc n5 n10 0 0
arc n11 n8 0 0
arc n8 n12 0 0
arc n14 n7 0 0
arc n12 n15 0 0
arc n16 n14 0 0
arc n1 n17 0 0
arc n4 n18 0 0
arc n19 n3 0 0
arc n18 n21 0 0
arc n17 n22 0 0
arc n23 n20 0 0
arc n20 n24 0 0
arc n26 n19 0 0
arc n24 n27 0 0
arc n28 n26 0 0
arc n9 d0 0 0
arc q0 n11 0 0
arc n15 n16 20 20
arc n21 d1 0 0
arc q1 n23 0 0
arc n27 n28 50 60
bounds 0
end
|warning: 1 port of the top is in no list: 1 output
 --> two.v:3:24
3 | module two(phi1, phi2, y);
  |                        ^ `y`
  = why: no time is known there: paths from such inputs and to such outputs are not judged
  = help: list them in the clock description, as `[[input]]` or `[[output]]` with a phase
|";

/// A netlist with delays, cells, a library and a clock.
const FILES: Rows = Rows {
    files: &[
        ("two.v", TWO_NETLIST),
        ("two.sdf", TWO_DELAYS),
        ("low.sdf", LOW_DELAYS),
        ("two.toml", TWO_CELLS),
        ("two.lib", TWO_LIBRARY),
        ("clock.toml", TWO_CLOCK),
    ],
    rows: &[
        (
            "mintcx optimise --netlist two.v --sdf two.sdf --cells two.toml --clock clock.toml",
            LEAST_OF_FILES,
        ),
        (
            "mintcx optimise --netlist two.v --sdf two.sdf --lib two.lib --clock clock.toml --edges merged",
            LEAST_OF_LIBRARY,
        ),
        (
            "mintcx corners --netlist two.v --sdf two.sdf --sdf two.sdf --cells two.toml --clock clock.toml",
            JOINT,
        ),
        (
            "mintcx corners --netlist two.v --sdf two.sdf --sdf two.sdf --lib two.lib --clock clock.toml",
            JOINT_OF_LIBRARY,
        ),
        (
            "mintcx corners --netlist two.sdf --sdf two.sdf --sdf two.sdf --cells two.toml --clock clock.toml",
            "2||error[22]: corner 1, two.sdf, is refused
error[1]: this statement isn't structural Verilog
 --> two.sdf:1:1
1 | (DELAYFILE (SDFVERSION \"3.0\") (DIVIDER /) (TIMESCALE 1ps)
  | ^^^^^^^^^^^^^^^^^^^^^^^^^^^^^^^^^^^^^^^^^^^^^^^^^^^^^^^^^
  = why: each corner has to be a design by itself
  = help: mend that file
  = note: `refused 22 1; refused 1 netlist 1`; `mintcx explain 22` says more
|",
        ),
        (
            "mintcx corners --netlist two.v --sdf two.sdf --sdf two.sdf --lib two.v --clock clock.toml",
            "2||error[1]: this statement of the library is out of form
 --> two.v
 = why: it doesn't begin as a library does
 = help: look whether it is a Liberty file, unpacked
 = note: `refused 1 cells 0`; `mintcx explain 1` says more
|",
        ),
        (
            "mintcx optimise --netlist two.v --sdf two.sdf --lib two.lib --clock-cell X --clock clock.toml",
            "3||error: '--clock-cell X' names no cell of the library\n|",
        ),
        (
            "mintcx table --netlist two.v --sdf two.sdf --cells two.toml --clock clock.toml",
            TABLE_OF_FILES,
        ),
        (
            "mintcx schedule --netlist two.v --sdf low.sdf --cells two.toml --clock clock.toml --clamp-negative",
            "0|schedule 1
den 1
cycle 80
phases 2
phase 0 10
phase 10 10
end
|warning: 1 delay of 1 number below 0 is taken as 0
 --> low.sdf:3:40
3 |  (DELAY (ABSOLUTE (IOPATH A Y (0.060) (-0.018))))))
  |                                        ^^^^^^ the first, at `u2.s.b`
  = why: the least is -18 fs, at `u2.s.b`; a cycle found so is safe for setups, holds may be told too well
  = help: buffer the nets (abc: buffer,-N,8) and write the delays anew
warning: 1 port of the top is in no list: 1 output
 --> two.v:3:24
3 | module two(phi1, phi2, y);
  |                        ^ `y`
  = why: no time is known there: paths from such inputs and to such outputs are not judged
  = help: list them in the clock description, as `[[input]]` or `[[output]]` with a phase
|",
        ),
        (
            "mintcx schedule --netlist two.v --sdf two.sdf --lib two.lib --clock-cell BUF --clock clock.toml --edges merged",
            "0|schedule 1
den 1
cycle 0
phases 2
phase 0 0
phase 0 0
end
|warning: clock cell `BUF` leads to data: 2 paths of it are left out
 --> two.lib
 = why: its output `u2.s.z` enters pin D of `u1.l[0]`
 = help: keep the cells of the clock out of the data: dont_use in the library that abc gets
warning: 1 port of the top is in no list: 1 output
 --> two.v:3:24
3 | module two(phi1, phi2, y);
  |                        ^ `y`
  = why: no time is known there: paths from such inputs and to such outputs are not judged
  = help: list them in the clock description, as `[[input]]` or `[[output]]` with a phase
|",
        ),
        (
            "mintcx corners --netlist two.v --sdf low.sdf --sdf two.sdf --cells two.toml --clock clock.toml --format plain --clamp-negative",
            "0|corners 1
least
den 1
cycle 100
phases 2
phase 0 10
phase 10 30
corners 2
departures 2
departure 0
departure 0
departures 2
departure 0
departure 20
chain 2
reach 2 0 1 11 22 6 7 9 23 10 8 3 12 14 24
reach 2 1 0 11 25 16 17 19 26 20 18 13 2 4 21
end
||",
        ),
    ],
};

#[test]
fn tables_are_answered(rt: HostRuntime) -> Result<(), Fail> {
    are_as_wanted(&rt, rt.alloc(), &TABLE)
}

#[test]
fn files_are_answered(rt: HostRuntime) -> Result<(), Fail> {
    are_as_wanted(&rt, rt.alloc(), &FILES)
}
