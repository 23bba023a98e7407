//! Certificates that fail one test after the other.

use crate::rows::{PROJECT, PULSE_TABLE, Rows};
use crate::runs::are_as_wanted;
use mintc_tests_designs::TWO_LATCHES;
use std::test::Fail;

/// A departure too many.
const A_DEPARTURE_TOO_MANY: &str = "certificate 2
least
den 1
cycle 100
phases 2
phase 0 10
phase 10 30
departures 3
departure 0
departure 20
departure 5
chain 2
reach 1 0 1 1
reach 0 1 1 0
end
";

/// What is wrong with it.
const A_DEPARTURE_TOO_MANY_TOLD: &str = "1|invalid  test 1 of 7 fails: counts  (1.cert)

  the design has 2 elements, the certificate 3 departures
||";

/// Phases that are open at once, though they feed each other.
const OPEN_AT_ONCE: &str = "certificate 2
least
den 1
cycle 100
phases 2
phase 0 10
phase 9 31
departures 2
departure 0
departure 20
chain 2
reach 1 0 1 1
reach 0 1 1 0
end
";

/// What is wrong with it.
const OPEN_AT_ONCE_TOLD: &str = "1|invalid  test 2 of 7 fails: rules of the clock  (2.cert)

  apart  phi2 starts 1 fs before phi1 has ended
         data of b (phi2) could run through a (phi1) too soon
||";

/// Three phases with a bound, and two latches.
const BOUND_TABLE: &str =
    "table 1\nphases 3\nphase p1\nphase p2\nphase p3\nelements 2\nelement a 1 10 - 10 10 60\n\
     element b 2 10 - 10 10 0\ninner 0\narcs 2\narc q0 d1 20 20\narc q1 d0 60 60\nbounds 1\nbound s1 s3 110 0\nend\n";

/// A phase that starts before its bound.
const MISSED_BOUND: &str = "certificate 2
least
den 1
cycle 110
phases 3
phase 0 60
phase 60 10
phase 105 0
departures 2
departure 20
departure 0
chain 3
start 1
bound 0
cycle 3
end
";

/// What is wrong with it.
const MISSED_BOUND_TOLD: &str = "1|invalid  test 3 of 7 fails: bounds  (3.cert)

  bound  bound 1 is missed by 5 fs
         from p1 starts to p3 starts it asks for 110
||";

/// A departure that is other than the others make it.
const OTHER_DEPARTURE: &str = "certificate 2
least
den 1
cycle 100
phases 2
phase 0 10
phase 10 30
departures 2
departure 0
departure 19
chain 2
reach 1 0 1 1
reach 0 1 1 0
end
";

/// What is wrong with it.
const OTHER_DEPARTURE_TOLD: &str = "1|invalid  test 4 of 7 fails: departures  (4.cert)

  b (latch on phi2) departs at 20 by the others, the certificate says 19
||";

/// A phase that ends too soon for a setup.
const LATE_DATA: &str = "certificate 2
least
den 1
cycle 100
phases 2
phase 0 10
phase 10 29
departures 2
departure 0
departure 20
chain 2
reach 1 0 1 1
reach 0 1 1 0
end
";

/// What is wrong with it.
const LATE_DATA_TOLD: &str = "1|invalid  test 5 of 7 fails: setups  (5.cert)

  b (latch on phi2) departs at 20, 1 fs too late for its setup of 10
||";

/// A chain that doesn't lead round.
const BROKEN_CHAIN: &str = "certificate 2
least
den 1
cycle 100
phases 2
phase 0 10
phase 10 30
departures 2
departure 0
departure 20
chain 3
reach 1 0 1 1
setup 0
reach 1 0 1 1
end
";

/// What is wrong with it.
const BROKEN_CHAIN_TOLD: &str = "1|invalid  test 6 of 7 fails: members of the chain  (6.cert)

  member 2 leads to phi1 ends, and the next begins at b
||";

/// A cycle time above the least.
const LONG_CYCLE: &str = "certificate 2
least
den 1
cycle 101
phases 2
phase 0 10
phase 10 30
departures 2
departure 0
departure 20
chain 2
reach 1 0 1 1
reach 0 1 1 0
end
";

/// What is wrong with it.
const LONG_CYCLE_TOLD: &str = "1|invalid  test 7 of 7 fails: sums of the chain  (7.cert)

  the chain takes 100 fs in 1 cycle, which asks for 100, and the schedule has 101
||";

/// That no schedule of a table is right.
const PULSE: &str = "certificate 2\nnever\nchain 2\nwidth 1\nbound 1\nend\n";

/// Certificates, each of which fails another test or none.
const VERDICTS: Rows = Rows {
    files: &[
        ("two.table", TWO_LATCHES),
        ("mintc.toml", PROJECT),
        ("1.cert", A_DEPARTURE_TOO_MANY),
        ("2.cert", OPEN_AT_ONCE),
        ("4.cert", OTHER_DEPARTURE),
        ("5.cert", LATE_DATA),
        ("6.cert", BROKEN_CHAIN),
        ("7.cert", LONG_CYCLE),
        ("bound.table", BOUND_TABLE),
        ("3.cert", MISSED_BOUND),
        ("pulse.table", PULSE_TABLE),
        ("pulse.cert", PULSE),
    ],
    rows: &[
        ("mintcx verify 1.cert", A_DEPARTURE_TOO_MANY_TOLD),
        ("mintcx verify 2.cert", OPEN_AT_ONCE_TOLD),
        (
            "mintcx verify 3.cert --table bound.table",
            MISSED_BOUND_TOLD,
        ),
        ("mintcx verify 4.cert", OTHER_DEPARTURE_TOLD),
        ("mintcx verify 5.cert", LATE_DATA_TOLD),
        ("mintcx verify 6.cert", BROKEN_CHAIN_TOLD),
        ("mintcx verify 7.cert", LONG_CYCLE_TOLD),
        ("mintcx schedule 5.cert", LATE_DATA_TOLD),
        (
            "mintcx verify pulse.cert --table pulse.table",
            "0|valid  no schedule of pulse.table is right  (pulse.cert)\n||",
        ),
        (
            "mintcx sdc pulse.cert --table pulse.table",
            "1|valid  no schedule of pulse.table is right  (pulse.cert)\n||",
        ),
        ("mintcx sdc 7.cert", LONG_CYCLE_TOLD),
    ],
};

#[test]
fn certificates_are_judged(rt: HostRuntime) -> Result<(), Fail> {
    are_as_wanted(&rt, rt.alloc(), &VERDICTS)
}
