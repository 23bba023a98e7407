//! Rows of mintc_lanes: what is added and compared in each lane, at the limits and where lanes are absent.
ghost use Rattle.std.specs.Prelude.{unsigned_abs};
ghost use Rattle.std.specs.Bool.{OnTrue};
ghost use Rattle.mintc_lanes.specs.Lanes.{AreLanes};

use mintc_lanes::{ABSENT, max_plus_row, max_row, min_plus_row, plus_row};
use std::process::Abort;

const MOST: i64 = 2_000_000_000_000_000_000;

/// Two rows and a number, what the calls leave of the first row, and its greatest lane.
#[derive(Clone, Copy)]
struct Case {
    name: &'static str,
    row: [i64; 8],
    other: [i64; 8],
    add: i64,
    greater: [i64; 8],
    lesser: [i64; 8],
    greatest: i64,
}

/// Whether each lane of a row is absent or small enough.
fn are_lanes(row: &[i64; 8]) -> bool
    ensures { OnTrue result (AreLanes row.now) }
{
    for lane in row {
        if *lane != ABSENT && lane.unsigned_abs() > 2_000_000_000_000_000_000 {
            return false;
        }
    }
    true
}

const CASES: &[Case] = &[
    Case {
        name: "alone",
        row: [
            ABSENT, ABSENT, ABSENT, ABSENT, ABSENT, ABSENT, ABSENT, ABSENT,
        ],
        other: [5, ABSENT, ABSENT, ABSENT, ABSENT, ABSENT, ABSENT, ABSENT],
        add: -3,
        greater: [2, ABSENT, ABSENT, ABSENT, ABSENT, ABSENT, ABSENT, ABSENT],
        lesser: [2, ABSENT, ABSENT, ABSENT, ABSENT, ABSENT, ABSENT, ABSENT],
        greatest: ABSENT,
    },
    Case {
        name: "ends up",
        row: [ABSENT, ABSENT, MOST, MOST, -MOST, -MOST, 0, MOST],
        other: [MOST, ABSENT, ABSENT, MOST, MOST, -MOST, -MOST, -MOST],
        add: 1_000_000_000_000_000_000,
        greater: [
            3_000_000_000_000_000_000,
            ABSENT,
            MOST,
            3_000_000_000_000_000_000,
            3_000_000_000_000_000_000,
            -1_000_000_000_000_000_000,
            0,
            MOST,
        ],
        lesser: [
            3_000_000_000_000_000_000,
            ABSENT,
            MOST,
            MOST,
            -MOST,
            -MOST,
            -1_000_000_000_000_000_000,
            -1_000_000_000_000_000_000,
        ],
        greatest: MOST,
    },
    Case {
        name: "ends down",
        row: [ABSENT, MOST, -MOST, -MOST, 0, 1, ABSENT, -MOST],
        other: [-MOST, -MOST, -MOST, ABSENT, ABSENT, MOST, MOST, MOST],
        add: -1_000_000_000_000_000_000,
        greater: [
            -3_000_000_000_000_000_000,
            MOST,
            -MOST,
            -MOST,
            0,
            1_000_000_000_000_000_000,
            1_000_000_000_000_000_000,
            1_000_000_000_000_000_000,
        ],
        lesser: [
            -3_000_000_000_000_000_000,
            -3_000_000_000_000_000_000,
            -3_000_000_000_000_000_000,
            -MOST,
            0,
            1,
            1_000_000_000_000_000_000,
            -MOST,
        ],
        greatest: MOST,
    },
    Case {
        name: "mixed",
        row: [-7, ABSENT, 12, 0, ABSENT, -1, 3, ABSENT],
        other: [1, -2, ABSENT, 0, ABSENT, 4, -5, 6],
        add: -3,
        greater: [-2, -5, 12, 0, ABSENT, 1, 3, 3],
        lesser: [-7, -5, 12, -3, ABSENT, -1, -8, 3],
        greatest: 12,
    },
    Case {
        name: "level",
        row: [2, -2, ABSENT, 5, 5, 5, ABSENT, 0],
        other: [2, -2, 1, 4, 6, 5, ABSENT, 0],
        add: 0,
        greater: [2, -2, 1, 5, 6, 5, ABSENT, 0],
        lesser: [2, -2, 1, 4, 5, 5, ABSENT, 0],
        greatest: 5,
    },
    Case {
        name: "none beside",
        row: [MOST, -MOST, ABSENT, 0, -1, 1, ABSENT, MOST],
        other: [
            ABSENT, ABSENT, ABSENT, ABSENT, ABSENT, ABSENT, ABSENT, ABSENT,
        ],
        add: 1_000_000_000_000_000_000,
        greater: [MOST, -MOST, ABSENT, 0, -1, 1, ABSENT, MOST],
        lesser: [MOST, -MOST, ABSENT, 0, -1, 1, ABSENT, MOST],
        greatest: MOST,
    },
];

fn check(rt: &impl Abort, case: &Case) {
    let (row, other, add) = (case.row, case.other, case.add);
    let (mut greater, mut lesser, mut alone) = (row, row, [ABSENT; 8]);
    assert!(rt; are_lanes(&row) && are_lanes(&other) && are_lanes(&alone));
    assert!(rt; add.unsigned_abs() <= 1_000_000_000_000_000_000);
    max_plus_row(&mut greater, &other, add);
    min_plus_row(&mut lesser, &other, add);
    max_plus_row(&mut alone, &other, add);
    assert!(rt;
        greater == case.greater && lesser == case.lesser,
        "the greater and the lesser, {}",
        case.name
    );
    assert!(rt;
        plus_row(&other, add) == alone && max_row(&row) == case.greatest,
        "alone and the greatest, {}",
        case.name
    );
}

#[test]
fn rows_are_added_and_compared_lane_by_lane(rt: HostRuntime) {
    for case in CASES {
        check(&rt, case);
    }
}
