//! The files of the rows.
use mintc_tests_designs::{
    CLOSED_INNER, DEFINING_LIBRARY, GREATEST_SUM, HELD, HELD_TOO_LONG, OWN_LOOP, SUM_PAST_LIMIT,
    TWO_CELLS, TWO_CERTIFICATE, TWO_CLOCK, TWO_DELAYS, TWO_ENABLED, TWO_FLOPS, TWO_LATCHES,
    TWO_LIBRARY, TWO_NETLIST, TWO_SCHEDULE, TWO_THROUGH_INNER, UNUSABLE_LIBRARY,
};

/// A netlist of two flops in a ring, each of another phase.
const PAIR_V: &str =
    "module m(c1, c2); input c1, c2; wire p, q, r, s; FF a (.D(s), .C(c1), .Q(p)); BUF x (.A(p), .Y(q)); \
     FF b (.D(q), .C(c2), .Q(r)); BUF y (.A(r), .Y(s)); endmodule\n";

pub(crate) const PAIR_CELLS: &str =
    "[cell.FF]\nkind = \"flop\"\nd = \"D\"\nclock = \"C\"\noutputs = [\"Q\"]\n[cell.BUF]\nkind = \"gate\"\n\
     inputs = [\"A\"]\noutputs = [\"Y\"]\n";

pub(crate) const PAIR_CLOCK: &str =
    "[[phase]]\nname = \"p1\"\nport = \"c1\"\n[[phase]]\nname = \"p2\"\nport = \"c2\"\n";

const FIRST_SDF: &str =
    "(DELAYFILE (TIMESCALE 1 fs)\n(CELL (CELLTYPE \"BUF\") (INSTANCE x) (DELAY (ABSOLUTE (IOPATH A Y (60)))))\n\
     (CELL (CELLTYPE \"BUF\") (INSTANCE y) (DELAY (ABSOLUTE (IOPATH A Y (40))))))\n";

const SECOND_SDF: &str =
    "(DELAYFILE (TIMESCALE 1 fs)\n(CELL (CELLTYPE \"BUF\") (INSTANCE x) (DELAY (ABSOLUTE (IOPATH A Y (30)))))\n\
     (CELL (CELLTYPE \"BUF\") (INSTANCE y) (DELAY (ABSOLUTE (IOPATH A Y (70))))))\n";

/// The files of the rows, each a name and its bytes.
const FILES: &[(&str, &str)] = &[
    ("TAB1", TWO_LATCHES),
    ("SCH1", TWO_SCHEDULE),
    (
        "short.schedule",
        "schedule 1\nden 1\ncycle 99\nphases 2\nphase 0 10\nphase 10 30\nend\n",
    ),
    (
        "overlap.schedule",
        "schedule 1\nden 1\ncycle 100\nphases 2\nphase 0 12\nphase 10 25\nend\n",
    ),
    (
        "hold.table",
        "table 1\nphases 1\nphase p\nelements 1\nelement a 1 0 5 0 0 0\ninner 0\narcs 1\narc q0 d0 20 20\n\
         bounds 0\nend\n",
    ),
    (
        "one.schedule",
        "schedule 1\nden 1\ncycle 100\nphases 1\nphase 0 50\nend\n",
    ),
    (
        "early.table",
        "table 1\nphases 1\nphase p\nelements 3\nelement a 1 0 - 0 0 0\nelement b 1 0 - 0 0 0\n\
         element c 1 0 8 0 0 0\ninner 0\narcs 2\narc q0 d1 120 120\narc q1 d2 40 40\nbounds 0\nend\n",
    ),
    (
        "bound.table",
        "table 1\nphases 2\nphase phi1\nphase phi2\nelements 2\nelement a 1 10 - 10 10 0\n\
         element b 2 10 - 10 10 0\ninner 0\narcs 2\narc q0 d1 20 20\narc q1 d0 60 60\nbounds 1\nbound o o 101 1\n\
         end\n",
    ),
    ("inner.table", TWO_THROUGH_INNER),
    ("flops.table", TWO_FLOPS),
    (
        "flops.schedule",
        "schedule 1\nden 1\ncycle 95\nphases 1\nphase 0 0\nend\n",
    ),
    (
        "race.table",
        "table 2\nphases 1\nphase p\nelements 2\nelement a 1 flop 0 - 2 2 0\nelement b 1 flop 0 10 2 2 0\ninner 0\n\
         arcs 1\narc q0 d1 3 3\nbounds 0\nend\n",
    ),
    (
        "race.schedule",
        "schedule 1\nden 1\ncycle 100\nphases 1\nphase 0 0\nend\n",
    ),
    ("enable.table", TWO_ENABLED),
    ("sum.table", GREATEST_SUM),
    ("long.table", SUM_PAST_LIMIT),
    (
        "slow.schedule",
        "schedule 1\nden 1\ncycle 1000000000\nphases 1\nphase 0 50\nend\n",
    ),
    ("closed.table", CLOSED_INNER),
    (
        "cut.table",
        "table 1\nphases 2\nphase phi1\nphase phi2\nelements 2\n",
    ),
    ("empty.schedule", ""),
    (
        "half.table",
        "table 1\nphases 1\nphase p\nelements 2\nelement a 1 0 - 0 0 0\nelement b 1 0 - 0 0 0\ninner 0\narcs 2\n\
         arc q0 d1 31 31\narc q1 d0 20 20\nbounds 0\nend\n",
    ),
    (
        "empty.table",
        "table 1\nphases 1\nphase p\nelements 0\ninner 0\narcs 0\nbounds 0\nend\n",
    ),
    (
        "never.table",
        "table 1\nphases 1\nphase p\nelements 1\nelement a 1 10 - 0 0 0\ninner 0\narcs 0\nbounds 1\n\
         bound e1 s1 -5 0\nend\n",
    ),
    (
        "tight.table",
        "table 1\nphases 2\nphase phi1\nphase phi2\nelements 2\nelement a 1 10 - 10 10 0\n\
         element b 2 70 - 10 10 0\ninner 0\narcs 2\narc q0 d1 20 20\narc q1 d0 60 60\nbounds 0\nend\n",
    ),
    ("CERT1", TWO_CERTIFICATE),
    (
        "paths.table",
        "table 1\nphases 1\nphase p\nelements 2\nelement a 1 0 - 0 0 0\nelement b 1 0 - 0 0 0\ninner 1\narcs 3\n\
         arc q0 d1 20 20\narc q0 n0 1 1\narc n0 d1 2 2\nbounds 0\nend\n",
    ),
    ("two.v", TWO_NETLIST),
    ("two.sdf", TWO_DELAYS),
    ("two.cells", TWO_CELLS),
    ("two.clock", TWO_CLOCK),
    (
        "two.certificate",
        "certificate 2\nleast\nden 1\ncycle 100\nphases 2\nphase 0 10\nphase 10 30\ndepartures 2\ndeparture 0\n\
         departure 20\nchain 2\nreach 0 1 11 22 6 7 9 23 10 8 3 12 14 24\n\
         reach 1 0 11 25 16 17 19 26 20 18 13 2 4 21\nend\n",
    ),
    ("two.lib", TWO_LIBRARY),
    (
        "library.certificate",
        "certificate 2\nleast\nden 1\ncycle 80\nphases 2\nphase 0 0\nphase 0 20\ndepartures 2\ndeparture 0\n\
         departure 20\nchain 2\nreach 0 1 11 22 6 7 9 23 10 8 3 12 14 24\n\
         reach 1 0 11 25 16 17 19 26 20 18 13 2 4 21\nend\n",
    ),
    ("pair.v", PAIR_V),
    ("pair.cells", PAIR_CELLS),
    ("pair.clock", PAIR_CLOCK),
    ("first.sdf", FIRST_SDF),
    ("second.sdf", SECOND_SDF),
];

/// An edit of the certificate of the first table, the text `new` in place of `old`, and what `verify` answers.
pub(crate) struct Edit {
    pub old: &'static str,
    pub new: &'static str,
    pub answer: &'static str,
}

/// The rows on certificates.
pub(crate) const CERTIFICATES: &[Edit] = &[
    // Row verify-valid.
    Edit {
        old: "least",
        new: "least",
        answer: "valid\n",
    },
    // Row verify-wrong-departure.
    Edit {
        old: "departure 20",
        new: "departure 21",
        answer: "invalid 4\n",
    },
    // Row verify-open-chain.
    Edit {
        old: "chain 2\nreach 0 1 1 0\nreach 1 0 1 1\n",
        new: "chain 1\nreach 0 1 1 0\n",
        answer: "invalid 6\n",
    },
    // Row verify-later-departures.
    Edit {
        old: "phase 0 10\nphase 10 30\ndepartures 2\ndeparture 0\n",
        new: "phase 0 15\nphase 15 30\ndepartures 2\ndeparture 5\n",
        answer: "valid\n",
    },
    // Row verify-missing-departure.
    Edit {
        old: "departures 2\ndeparture 0\ndeparture 20\n",
        new: "departures 1\ndeparture 0\n",
        answer: "invalid 1\n",
    },
    // Row verify-above-least.
    Edit {
        old: "cycle 100",
        new: "cycle 101",
        answer: "invalid 7\n",
    },
    // Row certificate-without-end.
    Edit {
        old: "end\n",
        new: "",
        answer: "refused 1 certificate 14\n",
    },
];

/// The files of the rows. Each function that names them by this costs the proof less than one that names the list.
pub(crate) fn files() -> &'static [(&'static str, &'static str)] {
    FILES
}

/// The files of the rows of `safe` and `slack`.
pub(crate) const SAFE_AND_SLACK_FILES: &[(&str, &str)] = &[
    ("own.table", OWN_LOOP),
    (
        "half-own.table",
        "table 1\nphases 1\nphase p\nelements 2\nelement a 1 0 - 0 0 0\nelement b 1 0 - 0 0 0\ninner 0\narcs 3\n\
         arc q0 d1 31 31\narc q1 d0 20 20\narc q1 d1 20 20\nbounds 0\nend\n",
    ),
    ("half-hold.table", HELD),
    ("half-never.table", HELD_TOO_LONG),
];

/// The files of the rows on libraries: the worked one with a definition, with a cell that can't be used, and one
/// that isn't closed.
pub(crate) const LIBRARIES: &[(&str, &str)] = &[
    ("two.v", TWO_NETLIST),
    ("two.sdf", TWO_DELAYS),
    ("two.clock", TWO_CLOCK),
    ("define.lib", DEFINING_LIBRARY),
    ("unusable.lib", UNUSABLE_LIBRARY),
    ("open.lib", "library (t) { cell (A) {"),
];

/// The files of the rows on corners, beside those that all rows have: delays under which x and y are faster, or x
/// slower; a text that is cut off; delays of an instance that isn't there; and a clock whose second phase begins
/// too late for any cycle.
pub(crate) const CORNER_FILES: &[(&str, &str)] = &[
    ("pair.v", PAIR_V),
    ("pair.cells", PAIR_CELLS),
    ("pair.clock", PAIR_CLOCK),
    ("first.sdf", FIRST_SDF),
    ("second.sdf", SECOND_SDF),
    (
        "fast.sdf",
        "(DELAYFILE (TIMESCALE 1 fs)\n(CELL (CELLTYPE \"BUF\") (INSTANCE x) (DELAY (ABSOLUTE (IOPATH A Y (10)))))\n\
         (CELL (CELLTYPE \"BUF\") (INSTANCE y) (DELAY (ABSOLUTE (IOPATH A Y (10))))))\n",
    ),
    (
        "slow.sdf",
        "(DELAYFILE (TIMESCALE 1 fs)\n(CELL (CELLTYPE \"BUF\") (INSTANCE x) (DELAY (ABSOLUTE (IOPATH A Y (80)))))\n\
         (CELL (CELLTYPE \"BUF\") (INSTANCE y) (DELAY (ABSOLUTE (IOPATH A Y (10))))))\n",
    ),
    ("cut.sdf", "(DELAYFILE"),
    (
        "stray.sdf",
        "(DELAYFILE (TIMESCALE 1 fs)\n(CELL (CELLTYPE \"BUF\") (INSTANCE z) (DELAY (ABSOLUTE (IOPATH A Y (10))))))\n",
    ),
    (
        "never.clock",
        "[[phase]]\nname = \"p1\"\nport = \"c1\"\n[[phase]]\nname = \"p2\"\nport = \"c2\"\n[[bound]]\n\
         from = \"start p2\"\nto = \"start p1\"\ngap = 1\ncycles = 0\n",
    ),
];
