//! Cell descriptions with what they say, and with the rules that they fail.

use mintc_tests_designs::TWO_CELLS;

/// A cell of each kind with every key, the example of docs/formats.md.
pub(super) const EXAMPLE: &str =
    "[cell.AOI21]\nkind = \"gate\"\ninputs = [\"A1\", \"A2\", \"B\"]\noutputs = [\"ZN\"]\nmin = 20_000\n\
     max = 45_000\n\n\
[cell.DLL]\nkind = \"latch\"\nd = \"D\"\ng = \"GN\"\noutputs = [\"Q\", \"QN\"]\nactive = \"low\"\n\
ignored = [\"SE\"]\nsetup = 30_000\nhold = -5_000\n\
dq_min = 40_000\ndq_max = 60_000\ncq_min = 50_000\ncq_max = 70_000\nwidth = 100_000\n\n\
[cell.DFN]\nkind = \"flop\"\nd = \"D\"\nclock = \"CPN\"\noutputs = [\"Q\"]\nedge = \"falling\"\nignored = [\"RN\"]\n\
setup = 25_000\nhold = 10_000\n\
cq_min = 55_000\ncq_max = 80_000\nwidth = 90_000\n\n\
[cell.CKINV]\nkind = \"clock\"\ninput = \"I\"\noutput = \"ZN\"\ninvert = true\nignored = [\"TE\"]\n";

const EXAMPLE_SAID: &str =
    "AOI21 gate [A1 A2 B] [ZN] 20000 45000;CKINV clock I ZN true [TE];DFN flop D CPN false [Q] [RN] 25000 10000 true \
     55000 80000 90000;\
DLL latch D GN false [Q QN] [SE] 30000 -5000 true 40000 60000 50000 70000 true 100000;";

/// Cells with few keys more than those that they need.
const PLAIN: &str = "cell.h = { kind = \"gate\", inputs = [], outputs = [\"x\", \"y\"] }\n\
cell.m = { kind = \"latch\", d = \"d\", g = \"g\", outputs = [\"q\"], dq_min = 3, cq_max = 8 }\n\
cell.k = { kind = \"latch\", d = \"d\", g = \"g\", outputs = [\"q\"], active = \"high\", dq_min = 3, dq_max = 4 }\n\
cell.e = { kind = \"flop\", d = \"d\", clock = \"c\", outputs = [\"q\"], edge = \"rising\", cq_min = 2 }\n\
cell.b = { kind = \"clock\", input = \"a\", output = \"y\" }\n";

const PLAIN_SAID: &str =
    "b clock a y false [];e flop d c true [q] [] 0 0 false 2 2 0;h gate [] [x y] 0 0;k latch d g true [q] [] 0 0 \
     false 3 4 3 4 false 0;\
m latch d g true [q] [] 0 0 false 3 3 3 8 true 0;";

/// Descriptions, with the entry and the rule of the refusal.
pub(super) const TEXTS: &[(&str, Option<(u32, u32)>)] = &[
    ("", None),
    ("[cell]\n", None),
    ("=", Some((0, 0))),
    ("a=1", Some((0, 1))),
    ("cell.a=1", Some((1, 2))),
    ("cell.a={kind=\"gate\",a=1}", Some((1, 3))),
    ("cell.a={kind=\"gate\"}", Some((1, 4))),
    (
        "cell.a={kind=\"clock\",input=\"a\",output=\"a\"}",
        Some((1, 5)),
    ),
    (
        "cell.a={kind=\"gate\",inputs=[],outputs=[\"y\"],min=-1}",
        Some((1, 6)),
    ),
    (
        "cell.a={kind=\"gate\",inputs=[],outputs=[\"y\"],min=1,max=0}",
        Some((1, 7)),
    ),
    (
        "cell.a={kind=\"clock\",input=\"a\",output=\"y\",invert=1}",
        Some((1, 8)),
    ),
    ("cell = 1\ncell = 2\n", Some((0, 0))),
    ("cells = {}\n", Some((0, 1))),
    ("cell = 1\n", Some((0, 1))),
    ("[[cell]]\n", Some((0, 1))),
    (
        "[cell.\"a b\"]\nkind = \"clock\"\ninput = \"a\"\noutput = \"y\"\n",
        Some((1, 2)),
    ),
    (
        "[cell.\"\"]\nkind = \"clock\"\ninput = \"a\"\noutput = \"y\"\n",
        Some((1, 2)),
    ),
    (
        "cell.z = 1\n[cell.a]\nkind = \"clock\"\ninput = \"a\"\noutput = \"y\"\n",
        Some((2, 2)),
    ),
    (
        "[cell.b]\nkind = \"gate\"\n[cell.B]\n[cell.a]\nkind = \"gate\"\n",
        Some((1, 2)),
    ),
    (
        "[cell.b]\nkind = \"gate\"\n[cell.C]\nkind = \"clock\"\ninput = \"a\"\noutput = \"y\"\n[cell.a]\n\
         kind = \"clock\"\n",
        Some((2, 4)),
    ),
];

/// The keys of one cell, with the rule that they fail first.
pub(super) const CELLS: &[(&str, Option<u32>)] = &[
    ("inputs = []\noutputs = [\"y\"]\n", Some(2)),
    ("kind = 1\n", Some(2)),
    ("kind = \"Gate\"\ncolor = 1\n", Some(2)),
    (
        "kind = \"gate\"\ninputs = []\noutputs = [\"y\"]\nwidth = 0\n",
        Some(3),
    ),
    (
        "kind = \"gate\"\ninput = [\"a\"]\noutputs = [\"y\"]\n",
        Some(3),
    ),
    (
        "kind = \"flop\"\nd = \"d\"\ng = \"g\"\noutputs = [\"q\"]\n",
        Some(3),
    ),
    (
        "kind = \"flop\"\nd = \"d\"\nclock = \"c\"\noutputs = [\"q\"]\ndq_min = 1\n",
        Some(3),
    ),
    (
        "kind = \"latch\"\nd = \"d\"\ng = \"g\"\noutputs = [\"q\"]\nedge = \"rising\"\n",
        Some(3),
    ),
    (
        "kind = \"clock\"\ninput = \"a\"\noutput = \"y\"\nmin = 0\n",
        Some(3),
    ),
    ("kind = \"gate\"\noutputs = [\"y\"]\n", Some(4)),
    ("kind = \"gate\"\ninputs = []\n", Some(4)),
    ("kind = \"gate\"\ninputs = []\noutputs = []\n", Some(4)),
    (
        "kind = \"gate\"\ninputs = \"a\"\noutputs = [\"y\"]\n",
        Some(4),
    ),
    (
        "kind = \"gate\"\ninputs = [1]\noutputs = [\"y\"]\n",
        Some(4),
    ),
    (
        "kind = \"gate\"\ninputs = [\"a b\"]\noutputs = [\"y\"]\nmin = -1\n",
        Some(4),
    ),
    ("kind = \"latch\"\nd = \"d\"\noutputs = [\"q\"]\n", Some(4)),
    (
        "kind = \"latch\"\nd = [\"d\"]\ng = \"g\"\noutputs = [\"q\"]\n",
        Some(4),
    ),
    (
        "kind = \"latch\"\nd = \"d\"\ng = \"\"\noutputs = [\"q\"]\n",
        Some(4),
    ),
    (
        "kind = \"latch\"\nd = \"d\"\ng = \"g\"\noutputs = [\"q\", \"n\", \"m\"]\n",
        Some(4),
    ),
    (
        "kind = \"flop\"\nd = \"d\"\nclock = \"c\"\noutputs = [\"q\"]\nignored = 1\n",
        Some(4),
    ),
    ("kind = \"clock\"\ninput = \"a\"\n", Some(4)),
    (
        "kind = \"gate\"\ninputs = [\"a\", \"a\"]\noutputs = [\"y\"]\n",
        Some(5),
    ),
    (
        "kind = \"gate\"\ninputs = [\"a\"]\noutputs = [\"a\"]\nmin = -1\n",
        Some(5),
    ),
    (
        "kind = \"latch\"\nd = \"d\"\ng = \"d\"\noutputs = [\"q\"]\n",
        Some(5),
    ),
    (
        "kind = \"flop\"\nd = \"d\"\nclock = \"c\"\noutputs = [\"q\"]\nignored = [\"q\"]\n",
        Some(5),
    ),
    ("kind = \"clock\"\ninput = \"a\"\noutput = \"a\"\n", Some(5)),
    (
        "kind = \"gate\"\ninputs = []\noutputs = [\"y\"]\nmin = 1_000_000_000\n",
        None,
    ),
    (
        "kind = \"gate\"\ninputs = []\noutputs = [\"y\"]\nmax = 1_000_000_001\n",
        Some(6),
    ),
    (
        "kind = \"gate\"\ninputs = []\noutputs = [\"y\"]\nmin = -1\nmax = -2\n",
        Some(6),
    ),
    (
        "kind = \"gate\"\ninputs = []\noutputs = [\"y\"]\nmin = 1.0\n",
        Some(6),
    ),
    (
        "kind = \"latch\"\nd = \"d\"\ng = \"g\"\noutputs = [\"q\"]\nsetup = -1_000_000_000\nhold = 1_000_000_000\n\
         width = 1_000_000_000\n",
        None,
    ),
    (
        "kind = \"latch\"\nd = \"d\"\ng = \"g\"\noutputs = [\"q\"]\nsetup = -1_000_000_001\n",
        Some(6),
    ),
    (
        "kind = \"latch\"\nd = \"d\"\ng = \"g\"\noutputs = [\"q\"]\nhold = 1_000_000_001\n",
        Some(6),
    ),
    (
        "kind = \"latch\"\nd = \"d\"\ng = \"g\"\noutputs = [\"q\"]\nwidth = -1\n",
        Some(6),
    ),
    (
        "kind = \"latch\"\nd = \"d\"\ng = \"g\"\noutputs = [\"q\"]\ncq_max = true\n",
        Some(6),
    ),
    (
        "kind = \"flop\"\nd = \"d\"\nclock = \"c\"\noutputs = [\"q\"]\ncq_max = 1_000_000_001\n",
        Some(6),
    ),
    (
        "kind = \"gate\"\ninputs = []\noutputs = [\"y\"]\nmin = 2\nmax = 1\n",
        Some(7),
    ),
    (
        "kind = \"latch\"\nd = \"d\"\ng = \"g\"\noutputs = [\"q\"]\ndq_min = 2\ndq_max = 1\nactive = \"up\"\n",
        Some(7),
    ),
    (
        "kind = \"latch\"\nd = \"d\"\ng = \"g\"\noutputs = [\"q\"]\ndq_max = 1\ncq_min = 2\n",
        Some(7),
    ),
    (
        "kind = \"flop\"\nd = \"d\"\nclock = \"c\"\noutputs = [\"q\"]\ncq_min = 2\ncq_max = 1\n",
        Some(7),
    ),
    (
        "kind = \"latch\"\nd = \"d\"\ng = \"g\"\noutputs = [\"q\"]\nactive = \"up\"\n",
        Some(8),
    ),
    (
        "kind = \"flop\"\nd = \"d\"\nclock = \"c\"\noutputs = [\"q\"]\nedge = 3\n",
        Some(8),
    ),
    (
        "kind = \"clock\"\ninput = \"a\"\noutput = \"y\"\ninvert = \"yes\"\n",
        Some(8),
    ),
];

/// Descriptions with what they say.
pub(super) const SAID: &[(&str, &str)] = &[
    (
        TWO_CELLS,
        "BUF gate [A] [Y] 0 0;LAT latch D G true [Q] [] 10 0 false 10 10 10 10 false 0;",
    ),
    (EXAMPLE, EXAMPLE_SAID),
    (PLAIN, PLAIN_SAID),
];

/// The pins of the cells of `EXAMPLE`.
pub(super) const PINS: &[(&str, &str)] = &[
    ("AOI21", " A1 A2 B>ZN"),
    ("DLL", " D GN SE>Q>QN"),
    ("DFN", " D CPN RN>Q"),
    ("CKINV", " I TE>ZN"),
];

/// The keys of a cell of each kind that may ignore pins.
pub(super) const IGNORING: &[&str] = &[
    "kind = \"latch\"\nd = \"d\"\ng = \"g\"\noutputs = [\"q\"]\n",
    "kind = \"flop\"\nd = \"d\"\nclock = \"c\"\noutputs = [\"q\"]\n",
    "kind = \"clock\"\ninput = \"a\"\noutput = \"y\"\n",
];
