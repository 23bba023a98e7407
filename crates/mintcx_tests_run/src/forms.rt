//! Words of forms for programs, and what a run with them leaves.

use crate::rows::{FAST, PROJECT, PULSE_TABLE, Rows};
use crate::runs::are_as_wanted;
use mintc_tests_designs::{
    TWO_CELLS, TWO_CERTIFICATE, TWO_CLOCK, TWO_DELAYS, TWO_LATCHES, TWO_NETLIST, TWO_SCHEDULE,
};
use std::test::Fail;

/// The object of the least cycle time of the table.
const LEAST_OBJECT: &str =
    "0|{\"mintcx\":1,\"command\":\"optimise\",\"status\":0,\"warnings\":[],\"answer\":\"least\",\
     \"design\":\"two.table\",\"unit\":\"fs\",\"den\":1,\"cycle\":100,\"phases\":[{\"name\":\"phi1\",\"start\":0,\
     \"width\":10},{\"name\":\"phi2\",\"start\":10,\"width\":30}],\"elements\":[{\"name\":\"a\",\
     \"kind\":\"latch\",\"phase\":\"phi1\",\"late\":0},{\"name\":\"b\",\"kind\":\"latch\",\"phase\":\"phi2\",\
     \"late\":20}],\"chain\":{\"delay\":100,\"cycles\":1,\"members\":[{\"kind\":\"reach\",\"from\":\"a\",\
     \"to\":\"b\",\"delay\":30,\"cycles\":0,\"path\":[{\"arc\":0,\"to\":\"b\",\"delay\":20}]},{\"kind\":\"reach\",\
     \"from\":\"b\",\"to\":\"a\",\"delay\":70,\"cycles\":1,\"path\":[{\"arc\":1,\"to\":\"a\",\
     \"delay\":60}]}]}}\n||";

/// The same of a report.
const REPORT_OBJECT: &str =
    "0|{\"mintcx\":1,\"command\":\"report\",\"status\":0,\"warnings\":[],\"answer\":\"least\",\
     \"design\":\"two.table\",\"unit\":\"fs\",\"den\":1,\"cycle\":100,\"phases\":[{\"name\":\"phi1\",\"start\":0,\
     \"width\":10},{\"name\":\"phi2\",\"start\":10,\"width\":30}],\"elements\":[{\"name\":\"a\",\
     \"kind\":\"latch\",\"phase\":\"phi1\",\"late\":0},{\"name\":\"b\",\"kind\":\"latch\",\"phase\":\"phi2\",\
     \"late\":20}],\"chain\":{\"delay\":100,\"cycles\":1,\"members\":[{\"kind\":\"reach\",\"from\":\"a\",\
     \"to\":\"b\",\"delay\":30,\"cycles\":0,\"path\":[{\"arc\":0,\"to\":\"b\",\"delay\":20}]},{\"kind\":\"reach\",\
     \"from\":\"b\",\"to\":\"a\",\"delay\":70,\"cycles\":1,\"path\":[{\"arc\":1,\"to\":\"a\",\
     \"delay\":60}]}]}}\n||";

/// The object of what there is at a cycle time above the least one.
const RIGHT_OBJECT: &str =
    "0|{\"mintcx\":1,\"command\":\"optimise\",\"status\":0,\"warnings\":[],\"answer\":\"right\",\
     \"design\":\"two.table\",\"unit\":\"fs\",\"den\":1,\"cycle\":1000000,\"phases\":[{\"name\":\"phi1\",\
     \"start\":0,\"width\":10},{\"name\":\"phi2\",\"start\":10,\"width\":30}],\"elements\":[{\"name\":\"a\",\
     \"kind\":\"latch\",\"phase\":\"phi1\",\"late\":0},{\"name\":\"b\",\"kind\":\"latch\",\"phase\":\"phi2\",\
     \"late\":20}]}\n||";

/// The object of what there is at one below it.
const SHORT_OBJECT: &str =
    "1|{\"mintcx\":1,\"command\":\"optimise\",\"status\":1,\"warnings\":[],\"answer\":\"short\",\
     \"design\":\"two.table\",\"unit\":\"fs\",\"den\":1,\"cycle\":80,\"chain\":{\"delay\":100,\"cycles\":1,\
     \"members\":[{\"kind\":\"reach\",\"from\":\"a\",\"to\":\"b\",\"delay\":30,\"cycles\":0,\"path\":[{\"arc\":0,\
     \"to\":\"b\",\"delay\":20}]},{\"kind\":\"reach\",\"from\":\"b\",\"to\":\"a\",\"delay\":70,\"cycles\":1,\
     \"path\":[{\"arc\":1,\"to\":\"a\",\"delay\":60}]}]}}\n||";

/// The object of a table for which no schedule is right.
const NEVER_OBJECT: &str =
    "1|{\"mintcx\":1,\"command\":\"optimise\",\"status\":1,\"warnings\":[],\"answer\":\"never\",\
     \"design\":\"pulse.table\",\"unit\":\"fs\",\"den\":1,\"chain\":{\"delay\":5000,\"cycles\":0,\
     \"members\":[{\"kind\":\"width\",\"from\":\"pulse starts\",\"to\":\"pulse ends\",\"delay\":80000,\
     \"cycles\":0},{\"kind\":\"bound\",\"from\":\"pulse ends\",\"to\":\"pulse starts\",\"delay\":-75000,\
     \"cycles\":0,\"bound\":2}]}}\n||";

/// The object of the least cycle time that keeps each hold.
const SAFE_OBJECT: &str =
    "0|{\"mintcx\":1,\"command\":\"safe\",\"status\":0,\"warnings\":[],\"answer\":\"safe\",\
     \"design\":\"two.table\",\"unit\":\"fs\",\"den\":1,\"cycle\":100,\"phases\":[{\"name\":\"phi1\",\"start\":0,\
     \"width\":10},{\"name\":\"phi2\",\"start\":10,\"width\":30}],\"elements\":[{\"name\":\"a\",\
     \"kind\":\"latch\",\"phase\":\"phi1\",\"late\":0},{\"name\":\"b\",\"kind\":\"latch\",\"phase\":\"phi2\",\
     \"late\":20}],\"chain\":{\"delay\":100,\"cycles\":1,\"members\":[{\"kind\":\"reach\",\"from\":\"a\",\
     \"to\":\"b\",\"delay\":30,\"cycles\":0,\"path\":[{\"arc\":0,\"to\":\"b\",\"delay\":20}]},{\"kind\":\"reach\",\
     \"from\":\"b\",\"to\":\"a\",\"delay\":70,\"cycles\":1,\"path\":[{\"arc\":1,\"to\":\"a\",\"delay\":60}]}]},\
     \"without\":{\"den\":1,\"cycle\":100}}\n||";

/// The object of the slacks of the table.
const SLACK_OBJECT: &str =
    "0|{\"mintcx\":1,\"command\":\"slack\",\"status\":0,\"warnings\":[],\"answer\":\"slack\",\
     \"design\":\"two.table\",\"unit\":\"fs\",\"den\":1,\"cycle\":100,\"pairs\":[{\"from\":\"a\",\"to\":\"b\",\
     \"delay\":30,\"slack\":0},{\"from\":\"b\",\"to\":\"a\",\"delay\":70,\"slack\":0}]}\n||";

/// The object of the verdict on its certificate.
const VALID_OBJECT: &str =
    "0|{\"mintcx\":1,\"command\":\"verify\",\"status\":0,\"warnings\":[],\"answer\":\"valid\",\
     \"design\":\"two.table\",\"unit\":\"fs\",\"certificate\":\"two.cert\",\"claim\":\"least\",\"den\":1,\
     \"cycle\":100}\n||";

/// The object of the judgement of the right schedule.
const PASS_OBJECT: &str =
    "0|{\"mintcx\":1,\"command\":\"check\",\"status\":0,\"warnings\":[],\"answer\":\"pass\",\
     \"design\":\"two.table under two.schedule\",\"unit\":\"fs\",\"den\":1,\"cycle\":100,\
     \"phases\":[{\"name\":\"phi1\",\"start\":0,\"width\":10},{\"name\":\"phi2\",\"start\":10,\"width\":30}],\
     \"elements\":[{\"name\":\"a\",\"kind\":\"latch\",\"phase\":\"phi1\",\"late\":0,\"early\":0},{\"name\":\"b\",\
     \"kind\":\"latch\",\"phase\":\"phi2\",\"late\":20,\"early\":20}]}\n||";

/// The object of the judgement of the one that is too fast.
const FAIL_OBJECT: &str =
    "1|{\"mintcx\":1,\"command\":\"check\",\"status\":1,\"warnings\":[],\"answer\":\"fail\",\
     \"design\":\"two.table under fast.schedule\",\"unit\":\"fs\",\"den\":1,\"cycle\":80,\
     \"phases\":[{\"name\":\"phi1\",\"start\":0,\"width\":10},{\"name\":\"phi2\",\"start\":10,\"width\":30}],\
     \"violations\":[{\"kind\":\"loop\",\"by\":20,\"of\":[\"a\",\"b\"]}]}\n||";

/// The object of a refusal.
const REFUSED_OBJECT: &str =
    "2|{\"mintcx\":1,\"command\":\"check\",\"status\":2,\"warnings\":[],\"refusal\":{\"number\":1,\
     \"fields\":[\"schedule\",1],\"message\":\"this line of the schedule is out of form\",\
     \"places\":[{\"file\":\"two.cert\",\"line\":1,\"column\":1,\"length\":13,\"label\":\"\"}],\
     \"help\":\"mend this line, or what counts the lines before it\"}}\n||";

/// The object of the optimum of two corners, which are the same.
const JOINT_OBJECT: &str =
    "0|{\"mintcx\":1,\"command\":\"corners\",\"status\":0,\"warnings\":[],\"answer\":\"least\",\
     \"design\":\"two\",\"unit\":\"fs\",\"den\":1,\"cycle\":100,\"phases\":[{\"name\":\"p1\",\"start\":0,\
     \"width\":10},{\"name\":\"p2\",\"start\":10,\"width\":30}],\"corners\":[{\"delays\":\"two.sdf\",\
     \"alone\":\"least\",\"den\":1,\"cycle\":100},{\"delays\":\"two.sdf\",\"alone\":\"least\",\"den\":1,\
     \"cycle\":100}],\"chain\":{\"delay\":100,\"cycles\":1,\"members\":[{\"corner\":2,\"kind\":\"reach\",\
     \"from\":\"u1.l[0]\",\"to\":\"u2.l[0]\",\"delay\":30,\"cycles\":0,\"path\":[{\"arc\":22,\
     \"to\":\"u1.l[0].Q\",\"delay\":0},{\"arc\":6,\"to\":\"u1.q\",\"delay\":0},{\"arc\":7,\"to\":\"u1.s.a\",\
     \"delay\":0},{\"arc\":9,\"to\":\"u1.s.b.A\",\"delay\":0},{\"arc\":23,\"to\":\"u1.s.b.Y\",\"delay\":20},\
     {\"arc\":10,\"to\":\"u1.s.z\",\"delay\":0},{\"arc\":8,\"to\":\"u1.o\",\"delay\":0},{\"arc\":3,\
     \"to\":\"mid\",\"delay\":0},{\"arc\":12,\"to\":\"u2.i\",\"delay\":0},{\"arc\":14,\"to\":\"u2.l[0].D\",\
     \"delay\":0},{\"arc\":24,\"to\":\"u2.l[0]\",\"delay\":0}]},{\"corner\":2,\"kind\":\"reach\",\
     \"from\":\"u2.l[0]\",\"to\":\"u1.l[0]\",\"delay\":70,\"cycles\":1,\"path\":[{\"arc\":25,\
     \"to\":\"u2.l[0].Q\",\"delay\":0},{\"arc\":16,\"to\":\"u2.q\",\"delay\":0},{\"arc\":17,\"to\":\"u2.s.a\",\
     \"delay\":0},{\"arc\":19,\"to\":\"u2.s.b.A\",\"delay\":0},{\"arc\":26,\"to\":\"u2.s.b.Y\",\"delay\":60},\
     {\"arc\":20,\"to\":\"u2.s.z\",\"delay\":0},{\"arc\":18,\"to\":\"u2.o\",\"delay\":0},{\"arc\":13,\
     \"to\":\"loop.back\",\"delay\":0},{\"arc\":2,\"to\":\"u1.i\",\"delay\":0},{\"arc\":4,\"to\":\"u1.l[0].D\",\
     \"delay\":0},{\"arc\":21,\"to\":\"u1.l[0]\",\"delay\":0}]}]}}\n||";

/// A table with its schedule and its certificate.
const TABLE: Rows = Rows {
    files: &[
        ("two.table", TWO_LATCHES),
        ("two.schedule", TWO_SCHEDULE),
        ("two.cert", TWO_CERTIFICATE),
        ("fast.schedule", FAST),
        ("pulse.table", PULSE_TABLE),
        ("mintc.toml", PROJECT),
    ],
    rows: &[
        ("mintcx optimise --format json", LEAST_OBJECT),
        (
            "mintcx optimise --format json -q --table pulse.table",
            "1|||",
        ),
        (
            "mintcx optimise --format json --table pulse.table",
            NEVER_OBJECT,
        ),
        ("mintcx optimise --format json --cycle 1ns", RIGHT_OBJECT),
        ("mintcx optimise --format json --cycle 80fs", SHORT_OBJECT),
        ("mintcx report --format json", REPORT_OBJECT),
        ("mintcx safe --format json", SAFE_OBJECT),
        ("mintcx slack --format json", SLACK_OBJECT),
        ("mintcx verify two.cert --format json", VALID_OBJECT),
        ("mintcx check two.schedule --format json", PASS_OBJECT),
        ("mintcx check fast.schedule --format json", FAIL_OBJECT),
        ("mintcx check two.cert --format json", REFUSED_OBJECT),
        ("mintcx check two.cert --format json -q", "2|||"),
        (
            "mintcx optimise --format csv --cycle 1ns",
            "0|phase,start,width\r\nphi1,0,10\r\nphi2,10,30\r\n||",
        ),
        (
            "mintcx optimise --format csv --cycle 80fs",
            "1|from,delay,cycles,to\r\na,30,0,b\r\nb,70,1,a\r\n||",
        ),
        (
            "mintcx safe --format csv",
            "0|cycle,from,at,borrows,delay,to\r\n1,a,0,0,30,b\r\n1,b,30,20,70,a\r\n||",
        ),
        (
            "mintcx verify two.cert --format csv",
            "0|verdict,test,fails\r\nvalid,,\r\n||",
        ),
        (
            "mintcx draw --format json",
            "3||error: '--format json' isn't there for 'schedule', 'sdc', 'draw', 'table', '--histogram' and \
             '--certificate'\n|",
        ),
        (
            "mintcx draw fast.schedule",
            "1||error: nothing is drawn: data comes later each time round a loop\n|",
        ),
    ],
};

/// A netlist with delays, cells and a clock.
const FILES: Rows = Rows {
    files: &[
        ("two.v", TWO_NETLIST),
        ("two.sdf", TWO_DELAYS),
        ("two.toml", TWO_CELLS),
        ("clock.toml", TWO_CLOCK),
    ],
    rows: &[
        (
            "mintcx corners --netlist two.v --sdf two.sdf --sdf two.sdf --cells two.toml --clock clock.toml \
             --format json",
            JOINT_OBJECT,
        ),
        (
            "mintcx corners --netlist two.v --sdf two.sdf --sdf two.sdf --cells two.toml --clock clock.toml \
             --format csv",
            "0|corner,from,delay,cycles,to\r\n2,u1.l[0],30,0,u2.l[0]\r\n2,u2.l[0],70,1,u1.l[0]\r\n||",
        ),
    ],
};

#[test]
fn tables_have_forms(rt: HostRuntime) -> Result<(), Fail> {
    are_as_wanted(&rt, rt.alloc(), &TABLE)
}

#[test]
fn files_have_forms(rt: HostRuntime) -> Result<(), Fail> {
    are_as_wanted(&rt, rt.alloc(), &FILES)
}
