//! Rows: words, and what is answered over the files of the rows.
use crate::harness::NO_TIME;
use mintc_command::Status;

/// The words of which faults are made, and their answer.
pub(crate) const CHECK: &str = "check table TAB1 SCH1";

const PASS: &str = "pass\nelement a late 0/1 early 0/1\nelement b late 20/1 early 20/1\n";

const USAGE: &str =
    "usage: mintc check|optimise|verify|report|safe|slack table|files|liberty FILE.. | mintc sample N | mintc \
     corners V C K D D..\n";

/// A run over the files of the rows, and what may come of it: a status, and a text with this front and one of these
/// ends.
#[derive(Clone, Copy)]
pub(crate) struct Row {
    pub name: &'static str,
    pub words: &'static str,
    pub status: Status,
    pub front: &'static str,
    pub ends: &'static [&'static str],
}

/// Rows of `check`, `optimise` and `report`, and words that are no command.
pub(crate) const OVER_TABLES: &[Row] = &[
    Row {
        name: "check-two-latch-loop",
        words: "check table TAB1 SCH1",
        status: Status::Done,
        front: "",
        ends: &[PASS],
    },
    Row {
        name: "check-late-loop",
        words: "check table TAB1 short.schedule",
        status: Status::Found,
        front: "",
        ends: &[
            "fail\nloop 2 by 1/1\nreach 0 1\nreach 1 0\n",
            "fail\nloop 2 by 1/1\nreach 1 0\nreach 0 1\n",
        ],
    },
    Row {
        name: "check-apart-and-setup",
        words: "check table TAB1 overlap.schedule",
        status: Status::Found,
        front: "",
        ends: &["fail\nviolated apart 2 1 by 2/1\nviolated setup 1 by 5/1\n"],
    },
    Row {
        name: "check-hold",
        words: "check table hold.table one.schedule",
        status: Status::Found,
        front: "",
        ends: &["fail\nviolated hold 0 by 35/1\n"],
    },
    Row {
        name: "check-early-departures",
        words: "check table early.table one.schedule",
        status: Status::Done,
        front: "",
        ends: &[
            "pass\nelement a late 0/1 early 0/1\nelement b late 20/1 early 20/1\nelement c late 0/1 early 0/1\n",
        ],
    },
    Row {
        name: "check-violated-bound",
        words: "check table bound.table SCH1",
        status: Status::Found,
        front: "",
        ends: &["fail\nviolated bound 0 by 1/1\n"],
    },
    Row {
        name: "check-inner-bit",
        words: "check table inner.table SCH1",
        status: Status::Done,
        front: "",
        ends: &[PASS],
    },
    Row {
        name: "check-flop-setup",
        words: "check table flops.table flops.schedule",
        status: Status::Found,
        front: "",
        ends: &["fail\nviolated setup 1 by 5/1\n"],
    },
    Row {
        name: "check-flop-hold",
        words: "check table race.table race.schedule",
        status: Status::Found,
        front: "",
        ends: &["fail\nviolated hold 1 by 5/1\n"],
    },
    Row {
        name: "check-enable-delay",
        words: "check table enable.table SCH1",
        status: Status::Done,
        front: "",
        ends: &["pass\nelement a late -6/1 early -6/1\nelement b late 14/1 early 14/1\n"],
    },
    Row {
        name: "path-sum-limit",
        words: "check table sum.table slow.schedule",
        status: Status::Done,
        front: "",
        ends: &["pass\nelement a late 0/1 early 0/1\n"],
    },
    Row {
        name: "path-sum-limit",
        words: "check table long.table slow.schedule",
        status: Status::Refused,
        front: "",
        ends: &["refused 21 0 0\n"],
    },
    Row {
        name: "closed-inner-arcs",
        words: "check table closed.table one.schedule",
        status: Status::Refused,
        front: "",
        ends: &["refused 16 2 0 1\n", "refused 16 2 1 0\n"],
    },
    Row {
        name: "phase-mismatch",
        words: "check table TAB1 one.schedule",
        status: Status::Refused,
        front: "",
        ends: &["refused 19 2 1\n"],
    },
    Row {
        name: "cut-table",
        words: "check table cut.table SCH1",
        status: Status::Refused,
        front: "",
        ends: &["refused 1 table 6\n"],
    },
    Row {
        name: "the table comes first",
        words: "check table cut.table empty.schedule",
        status: Status::Refused,
        front: "",
        ends: &["refused 1 table 6\n"],
    },
    Row {
        name: "empty-schedule",
        words: "check table TAB1 empty.schedule",
        status: Status::Refused,
        front: "",
        ends: &["refused 1 schedule 1\n"],
    },
    Row {
        name: "usage-words",
        words: "check table TAB1",
        status: Status::Usage,
        front: "",
        ends: &[USAGE],
    },
    Row {
        name: "too many words",
        words: "check table TAB1 SCH1 SCH1",
        status: Status::Usage,
        front: "",
        ends: &[USAGE],
    },
    Row {
        name: "another source",
        words: "check tables TAB1 SCH1",
        status: Status::Usage,
        front: "",
        ends: &[USAGE],
    },
    Row {
        name: "an absent file",
        words: "check table absent.table SCH1",
        status: Status::ReadFault,
        front: "",
        ends: &[""],
    },
    Row {
        name: "optimise-two-latch-loop",
        words: "optimise table TAB1",
        status: Status::Done,
        front: "certificate 2\nleast\nden 1\ncycle 100\nphases 2\nphase 0 10\nphase 10 30\ndepartures 2\n\
            departure 0\ndeparture 20\n",
        ends: &["chain 2\nreach 0 1 1 0\nreach 1 0 1 1\nend\n"],
    },
    Row {
        name: "optimise-half-step",
        words: "optimise table half.table",
        status: Status::Done,
        front: "certificate 2\nleast\nden 2\ncycle 51\nphases 1\nphase 0 11\ndepartures 2\ndeparture 0\ndeparture 11\n",
        ends: &["chain 2\nreach 0 1 1 0\nreach 1 0 1 1\nend\n"],
    },
    Row {
        name: "optimise-no-elements",
        words: "optimise table empty.table",
        status: Status::Done,
        front: "certificate 2\nleast\nden 1\ncycle 0\nphases 1\nphase 0 0\ndepartures 0\n",
        ends: NO_TIME,
    },
    Row {
        name: "optimise-never",
        words: "optimise table never.table",
        status: Status::Found,
        front: "certificate 2\nnever\n",
        ends: &[
            "chain 3\nopen 0\nsetup 0\nbound 0\nend\n",
            "chain 2\nopened 0\nbound 0\nend\n",
        ],
    },
    Row {
        name: "optimise-two-tight-chains",
        words: "optimise table tight.table",
        status: Status::Done,
        front: "certificate 2\nleast\nden 1\ncycle 100\nphases 2\nphase 0 10\nphase 10 90\ndepartures 2\n\
            departure 0\ndeparture 20\n",
        ends: &[
            "chain 2\nreach 0 1 1 0\nreach 1 0 1 1\nend\n",
            "chain 4\napart 1 2\nopen 0\nreach 0 1 1 0\nsetup 1\nend\n",
        ],
    },
    Row {
        name: "report-two-latch-loop",
        words: "report table TAB1",
        status: Status::Done,
        front: "cycle 100/1\nphase phi1 start 0/1 width 10/1\nphase phi2 start 10/1 width 30/1\n\
            element a late 0/1\nelement b late 20/1\nchain 2 delay 100 cycles 1\n",
        ends: &["reach a b delay 30 cycles 0\nreach b a delay 70 cycles 1\n"],
    },
    Row {
        name: "a report names inner bits",
        words: "report table inner.table",
        status: Status::Done,
        front: "cycle 100/1\nphase phi1 start 0/1 width 10/1\nphase phi2 start 10/1 width 30/1\n\
            element a late 0/1\nelement b late 20/1\nchain 2 delay 100 cycles 1\n",
        ends: &["reach a b delay 30 cycles 0\nthrough n0\nreach b a delay 70 cycles 1\n"],
    },
    Row {
        name: "a report without a schedule",
        words: "report table never.table",
        status: Status::Found,
        front: "never\n",
        ends: &[
            "chain 3 delay 5 cycles 0\nopen a delay 0 cycles 0\nsetup a delay 10 cycles 0\nbound 0 delay -5 cycles 0\n",
            "chain 2 delay 5 cycles 0\nopened a delay 10 cycles 0\nbound 0 delay -5 cycles 0\n",
        ],
    },
    Row {
        name: "optimise-flops",
        words: "optimise table flops.table",
        status: Status::Done,
        front: "certificate 2\nleast\nden 1\ncycle 100\nphases 1\nphase 0 0\ndepartures 2\ndeparture 0\ndeparture 0\n",
        ends: &["chain 2\nreach 0 1 1 0\nsetup 1\nend\n"],
    },
    Row {
        name: "optimise-enable-delay",
        words: "optimise table enable.table",
        status: Status::Done,
        front: "certificate 2\nleast\nden 1\ncycle 100\nphases 2\nphase 0 10\nphase 10 24\ndepartures 2\n\
            departure -6\ndeparture 14\n",
        ends: &["chain 2\nreach 0 1 1 0\nreach 1 0 1 1\nend\n"],
    },
    Row {
        name: "path-sum-limit",
        words: "optimise table long.table",
        status: Status::Refused,
        front: "",
        ends: &["refused 21 0 0\n"],
    },
    Row {
        name: "closed-inner-arcs",
        words: "optimise table closed.table",
        status: Status::Refused,
        front: "",
        ends: &["refused 16 2 0 1\n", "refused 16 2 1 0\n"],
    },
    Row {
        name: "usage-words",
        words: "optimise table",
        status: Status::Usage,
        front: "",
        ends: &[USAGE],
    },
    Row {
        name: "usage-words",
        words: "report table TAB1 SCH1",
        status: Status::Usage,
        front: "",
        ends: &[USAGE],
    },
    Row {
        name: "an absent file",
        words: "verify table TAB1 absent.certificate",
        status: Status::ReadFault,
        front: "",
        ends: &[""],
    },
    Row {
        name: "optimise-worked-files",
        words: "optimise files two.v two.sdf two.cells two.clock",
        status: Status::Done,
        front: "certificate 2\nleast\nden 1\ncycle 100\nphases 2\nphase 0 10\nphase 10 30\ndepartures 2\n\
            departure 0\ndeparture 20\nchain 2\n",
        ends: &[
            "reach 0 1 11 22 6 7 9 23 10 8 3 12 14 24\nreach 1 0 11 25 16 17 19 26 20 18 13 2 4 21\nend\n",
        ],
    },
    Row {
        name: "check-worked-files",
        words: "check files two.v two.sdf two.cells two.clock SCH1",
        status: Status::Done,
        front: "",
        ends: &["pass\nelement u1.l[0] late 0/1 early 0/1\nelement u2.l[0] late 20/1 early 20/1\n"],
    },
];

/// Rows of `safe` and `slack`, and words that are no command, over files of their own.
pub(crate) const OF_SAFE_AND_SLACK: &[Row] = &[
    Row {
        name: "safe-half-step",
        words: "safe table half-hold.table",
        status: Status::Done,
        front: "safe 1\nleast\nden 1\ncycle 29\nphases 1\nphase 0 2\ndepartures 2\ndeparture 0\ndeparture 2\nchain 4\n",
        ends: &["open 0\nreach 0 1 1 0\nsetup 1\nhold 1 0 1 1\nend\n"],
    },
    Row {
        name: "safe-never",
        words: "safe table half-never.table",
        status: Status::Found,
        front: "safe 1\nnever\nchain 2\n",
        ends: &["width 1\nhold 1 0 1 1\nend\n"],
    },
    Row {
        name: "slack-own-loop",
        words: "slack table own.table",
        status: Status::Done,
        front: "",
        ends: &["cycle 100/1\nslack a a 85\nslack a b 0\nslack b a 0\n"],
    },
    Row {
        name: "slack-half-step",
        words: "slack table half-own.table",
        status: Status::Done,
        front: "",
        ends: &["cycle 51/2\nslack a b 0\nslack b a 0\nslack b b 5\n"],
    },
    Row {
        name: "usage-words",
        words: "sample",
        status: Status::Usage,
        front: "",
        ends: &[USAGE],
    },
    Row {
        name: "usage-words",
        words: "sample 07",
        status: Status::Usage,
        front: "",
        ends: &[USAGE],
    },
    Row {
        name: "usage-words",
        words: "sample +7",
        status: Status::Usage,
        front: "",
        ends: &[USAGE],
    },
    Row {
        name: "usage-words",
        words: "sample 18446744073709551616",
        status: Status::Usage,
        front: "",
        ends: &[USAGE],
    },
    Row {
        name: "usage-words",
        words: "sample 7 8",
        status: Status::Usage,
        front: "",
        ends: &[USAGE],
    },
];

/// Rows over the worked files.
pub(crate) const OVER_FILES: &[Row] = &[
    Row {
        name: "optimise-liberty",
        words: "optimise liberty two.v two.sdf two.lib two.clock",
        status: Status::Done,
        front: "certificate 2\nleast\nden 1\ncycle 80\nphases 2\nphase 0 0\nphase 0 20\ndepartures 2\n\
            departure 0\ndeparture 20\nchain 2\n",
        ends: &[
            "reach 0 1 11 22 6 7 9 23 10 8 3 12 14 24\nreach 1 0 11 25 16 17 19 26 20 18 13 2 4 21\nend\n",
        ],
    },
    Row {
        name: "safe-of-liberty",
        words: "safe liberty two.v two.sdf two.lib two.clock",
        status: Status::Done,
        front: "safe 1\nleast\nden 1\ncycle 80\nphases 2\nphase 0 0\nphase 0 20\ndepartures 2\ndeparture 0\n\
            departure 20\nchain 2\n",
        ends: &[
            "reach 0 1 11 22 6 7 9 23 10 8 3 12 14 24\nreach 1 0 11 25 16 17 19 26 20 18 13 2 4 21\nend\n",
        ],
    },
    Row {
        name: "slack-of-liberty",
        words: "slack liberty two.v two.sdf two.lib two.clock",
        status: Status::Done,
        front: "",
        ends: &["cycle 80/1\nslack u1.l[0] u2.l[0] 0\nslack u2.l[0] u1.l[0] 0\n"],
    },
    Row {
        name: "safe-of-files",
        words: "safe files two.v two.sdf two.cells two.clock",
        status: Status::Done,
        front: "safe 1\nleast\nden 1\ncycle 100\nphases 2\nphase 0 10\nphase 10 30\ndepartures 2\ndeparture 0\n\
            departure 20\nchain 2\n",
        ends: &[
            "reach 0 1 11 22 6 7 9 23 10 8 3 12 14 24\nreach 1 0 11 25 16 17 19 26 20 18 13 2 4 21\nend\n",
        ],
    },
    Row {
        name: "slack-never",
        words: "slack table never.table",
        status: Status::Found,
        front: "",
        ends: &["never\n"],
    },
    Row {
        name: "slack-of-files",
        words: "slack files two.v two.sdf two.cells two.clock",
        status: Status::Done,
        front: "",
        ends: &["cycle 100/1\nslack u1.l[0] u2.l[0] 0\nslack u2.l[0] u1.l[0] 0\n"],
    },
];

/// Rows over the libraries.
pub(crate) const OVER_LIBRARIES: &[Row] = &[
    Row {
        name: "liberty-define",
        words: "optimise liberty two.v two.sdf define.lib two.clock",
        status: Status::Done,
        front: "certificate 2\nleast\nden 1\ncycle 80\nphases 2\nphase 0 0\nphase 0 20\ndepartures 2\n\
            departure 0\ndeparture 20\nchain 2\n",
        ends: &[
            "reach 0 1 11 22 6 7 9 23 10 8 3 12 14 24\nreach 1 0 11 25 16 17 19 26 20 18 13 2 4 21\nend\n",
        ],
    },
    Row {
        name: "liberty-unusable-cell",
        words: "optimise liberty two.v two.sdf unusable.lib two.clock",
        status: Status::Refused,
        front: "",
        ends: &["refused 4 26\n"],
    },
    Row {
        name: "liberty-not-closed",
        words: "optimise liberty two.v two.sdf open.lib two.clock",
        status: Status::Refused,
        front: "",
        ends: &["refused 1 cells 1\n"],
    },
];

/// Rows over the files on corners.
pub(crate) const OVER_CORNERS: &[Row] = &[
    Row {
        name: "corners-two-files",
        words: "corners pair.v pair.cells pair.clock first.sdf second.sdf",
        status: Status::Done,
        front: "corners 1\nleast\nden 1\ncycle 130\nphases 2\nphase 0 0\nphase 60 0\ncorners 2\ndepartures 2\n\
            departure 0\ndeparture 0\ndepartures 2\ndeparture 0\ndeparture 0\nchain 4\n",
        ends: &[
            "reach 1 0 1 7 11 2 3 12 4 5 13\nsetup 1 1\nreach 2 1 0 7 14 7 8 15 9 0 10\nsetup 2 0\nend\n",
        ],
    },
    Row {
        name: "corners-three-files",
        words: "corners pair.v pair.cells pair.clock first.sdf second.sdf fast.sdf",
        status: Status::Done,
        front: "corners 1\nleast\nden 1\ncycle 130\nphases 2\nphase 0 0\nphase 60 0\ncorners 3\ndepartures 2\n\
            departure 0\ndeparture 0\ndepartures 2\ndeparture 0\ndeparture 0\ndepartures 2\ndeparture 0\n\
            departure 0\nchain 4\n",
        ends: &[
            "reach 1 0 1 7 11 2 3 12 4 5 13\nsetup 1 1\nreach 2 1 0 7 14 7 8 15 9 0 10\nsetup 2 0\nend\n",
        ],
    },
    Row {
        name: "corners-four-files",
        words: "corners pair.v pair.cells pair.clock first.sdf second.sdf fast.sdf slow.sdf",
        status: Status::Done,
        front: "corners 1\nleast\nden 1\ncycle 150\nphases 2\nphase 0 0\nphase 80 0\ncorners 4\ndepartures 2\n\
            departure 0\ndeparture 0\ndepartures 2\ndeparture 0\ndeparture 0\ndepartures 2\ndeparture 0\n\
            departure 0\ndepartures 2\ndeparture 0\ndeparture 0\nchain 4\n",
        ends: &[
            "reach 2 1 0 7 14 7 8 15 9 0 10\nsetup 2 0\nreach 4 0 1 7 11 2 3 12 4 5 13\nsetup 4 1\nend\n",
        ],
    },
    Row {
        name: "corners-never",
        words: "corners pair.v pair.cells never.clock first.sdf second.sdf",
        status: Status::Found,
        front: "corners 1\nnever\nchain ",
        ends: &[
            "3\nreach 1 0 1 7 11 2 3 12 4 5 13\nsetup 1 1\nbound 0\nend\n",
            "3\nbound 0\nreach 2 0 1 7 11 2 3 12 4 5 13\nsetup 2 1\nend\n",
            "2\norder 1\nbound 0\nend\n",
        ],
    },
    Row {
        name: "corners-refused-file",
        words: "corners pair.v pair.cells pair.clock first.sdf cut.sdf",
        status: Status::Refused,
        front: "",
        ends: &["refused 22 2\nrefused 1 delays 1\n"],
    },
    Row {
        name: "corners-first-of-two-refused",
        words: "corners pair.v pair.cells pair.clock cut.sdf stray.sdf",
        status: Status::Refused,
        front: "",
        ends: &["refused 22 1\nrefused 1 delays 1\n"],
    },
    Row {
        name: "corners-fourth-refused",
        words: "corners pair.v pair.cells pair.clock first.sdf second.sdf fast.sdf stray.sdf",
        status: Status::Refused,
        front: "",
        ends: &["refused 22 4\nrefused 10 delays 2\n"],
    },
    Row {
        name: "corners-cells-refused",
        words: "corners pair.v pair.clock pair.clock first.sdf second.sdf",
        status: Status::Refused,
        front: "",
        ends: &["refused 22 1\nrefused 13 0 1\n"],
    },
    Row {
        name: "corners-netlist-refused",
        words: "corners cut.sdf pair.cells pair.clock cut.sdf second.sdf",
        status: Status::Refused,
        front: "",
        ends: &["refused 22 1\nrefused 1 netlist 1\n"],
    },
    Row {
        name: "usage-words",
        words: "corners pair.v pair.cells pair.clock first.sdf",
        status: Status::Usage,
        front: "",
        ends: &[USAGE],
    },
    Row {
        name: "usage-words",
        words: "corners pair.v pair.cells pair.clock first.sdf second.sdf fast.sdf slow.sdf first.sdf",
        status: Status::Usage,
        front: "",
        ends: &[USAGE],
    },
    Row {
        name: "usage-words",
        words: "corners",
        status: Status::Usage,
        front: "",
        ends: &[USAGE],
    },
    Row {
        name: "usage-words",
        words: "corners files",
        status: Status::Usage,
        front: "",
        ends: &[USAGE],
    },
];
