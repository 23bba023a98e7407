//! Tables of worked answers.
ghost use Rattle.std.specs.Prelude.{OnOk};
ghost use Rattle.mintcx_csv.specs.Records.{IsBetween};

use crate::chains::put_chain_head;
use crate::records::{Records, no_records, put_over, text_of};
use crate::slacks::{put_head, put_row};
use mintc_text::{Bytes, OutOfMemory};
use mintcx_slacks::{Place, by_slack};
use std::alloc::Global;
use std::process::Abort;

/// Two elements, how long the data between them takes, and its slack.
type Pair = (&'static str, &'static str, i64, i64);

/// The pairs of a ring of latches, by their elements.
const RING: &[Pair] = &[
    ("_20_", "_23_", 534_000, 317_500),
    ("_20_", "_24_", 739_000, 81_500),
    ("_20_", "_25_", 900_000, 0),
    ("_20_", "y[0]", 363_000, 624_500),
    ("_21_", "_24_", 788_000, 0),
    ("_21_", "_25_", 813_000, 54_500),
    ("_21_", "y[1]", 384_000, 571_000),
    ("_22_", "_25_", 751_000, 250_500),
    ("_22_", "y[2]", 353_000, 660_500),
    ("_23_", "_20_", 456_000, 317_500),
    ("_24_", "_20_", 487_000, 0),
    ("_24_", "_21_", 507_000, 12_500),
    ("_25_", "_21_", 440_000, 0),
    ("_25_", "_22_", 306_000, 250_500),
    ("x[0]", "_23_", 528_000, 426_000),
    ("x[0]", "_24_", 759_000, 164_000),
    ("x[0]", "_25_", 920_000, 82_500),
    ("x[1]", "_24_", 759_000, 164_000),
    ("x[1]", "_25_", 828_000, 174_500),
    ("x[2]", "_25_", 759_000, 243_500),
];

const RING_TEXT: &str = "from,to,delay,slack\r\n\
_20_,_25_,900000,0\r\n\
_21_,_24_,788000,0\r\n\
_24_,_20_,487000,0\r\n\
_25_,_21_,440000,0\r\n\
_24_,_21_,507000,12500\r\n\
_21_,_25_,813000,54500\r\n\
_20_,_24_,739000,81500\r\n\
x[0],_25_,920000,82500\r\n\
x[0],_24_,759000,164000\r\n\
x[1],_24_,759000,164000\r\n\
x[1],_25_,828000,174500\r\n\
x[2],_25_,759000,243500\r\n\
_22_,_25_,751000,250500\r\n\
_25_,_22_,306000,250500\r\n\
_20_,_23_,534000,317500\r\n\
_23_,_20_,456000,317500\r\n\
x[0],_23_,528000,426000\r\n\
_21_,y[1],384000,571000\r\n\
_20_,y[0],363000,624500\r\n\
_22_,y[2],353000,660500\r\n\
";

/// Names that need quotes, and such as need none.
const NAMES: &[Pair] = &[
    ("a,b", "say \"on\"", 9, 7),
    ("a b", " c ", -5, 5),
    ("two\nlines", "back\rslash\\", 0, 3),
    ("", "\u{e9}", 4_000_000_000, i64::MAX),
    ("#", "'", i64::MIN, 1),
];

const NAMES_TEXT: &str = "from,to,delay,slack\r\n\
#,',-9223372036854775808,1\r\n\
\"two\nlines\",\"back\rslash\\\",0,3\r\n\
a b, c ,-5,5\r\n\
\"a,b\",\"say \"\"on\"\"\",9,7\r\n\
,\u{e9},4000000000,9223372036854775807\r\n\
";

const TABLES: &[(&[Pair], &str)] = &[
    (RING, RING_TEXT),
    (NAMES, NAMES_TEXT),
    (&[], "from,to,delay,slack\r\n"),
];

/// The fields of a row of a chain.
type Fields = [&'static str; 7];

/// The chain of the ring, by elements.
const RING_CHAIN: &[Fields] = &[
    ["1", "_24_", "0", "0", "487000", "_20_", "1"],
    ["1", "_20_", "487000", "102500", "900000", "_25_", "1"],
    ["2", "_25_", "1387000", "79500", "440000", "_21_", "1"],
    ["2", "_21_", "1827000", "135000", "788000", "_24_", "1"],
];

const RING_CHAIN_TEXT: &str = "cycle,from,at,borrows,delay,to\r\n\
1,_24_,0,0,487000,_20_\r\n\
1,_20_,487000,102500,900000,_25_\r\n\
2,_25_,1387000,79500,440000,_21_\r\n\
2,_21_,1827000,135000,788000,_24_\r\n";

/// A chain of which two cycles take an odd number of femtoseconds.
const HALF_CHAIN: &[Fields] = &[
    ["1", "p1 starts", "-1", "0", "6", "a,b", "2"],
    ["3", "a,b", "5", "0", "-2", "p1 starts", "2"],
];

const HALF_CHAIN_TEXT: &str = "cycle,from,at,borrows,delay,to,den\r\n\
1,p1 starts,-1,0,6,\"a,b\",2\r\n\
3,\"a,b\",5,0,-2,p1 starts,2\r\n";

const CHAINS: &[(i64, &[Fields], &str)] = &[
    (1, RING_CHAIN, RING_CHAIN_TEXT),
    (2, HALF_CHAIN, HALF_CHAIN_TEXT),
];

fn put_place(records: &mut Records, pairs: &[Pair], place: &Place) -> Result<(), OutOfMemory>
    requires { IsBetween records.old }
    ensures { OnOk result (IsBetween records.new) }
{
    let Some((from, to, delay, _)) = pairs.get(place.1) else {
        return Ok(());
    };
    put_row(records, from.as_bytes(), to.as_bytes(), *delay, place.0)
}

fn table_of(alloc: Global, pairs: &[Pair]) -> Result<Bytes, OutOfMemory> {
    let mut extra = Vec::new(alloc);
    for pair in pairs {
        extra.push(pair.3)?;
    }
    let places = by_slack(alloc, &extra)?;
    let mut records = no_records(alloc);
    put_head(&mut records)?;
    for place in &places {
        put_place(&mut records, pairs, place)?;
    }
    text_of(records)
}

#[test]
fn tables_are_as_worked(rt: HostRuntime) -> Result<(), OutOfMemory> {
    for (pairs, text) in TABLES {
        let table = table_of(rt.alloc(), pairs)?;
        assert!(rt; table.items() == text.as_bytes(), "{text}");
    }
    Ok(())
}

fn put_fields(records: &mut Records, fields: &Fields, den: i64) -> Result<(), OutOfMemory>
    requires { IsBetween records.old }
    ensures { OnOk result (IsBetween records.new) }
{
    let [cycle, from, at, borrows, delay, to, over] = fields;
    let names = [
        cycle.as_bytes(),
        from.as_bytes(),
        at.as_bytes(),
        borrows.as_bytes(),
        delay.as_bytes(),
        to.as_bytes(),
        over.as_bytes(),
    ];
    put_over(records, &names, 6, den)
}

fn chain_of(alloc: Global, den: i64, rows: &[Fields]) -> Result<Bytes, OutOfMemory> {
    let mut records = no_records(alloc);
    put_chain_head(&mut records, den)?;
    for fields in rows {
        put_fields(&mut records, fields, den)?;
    }
    text_of(records)
}

#[test]
fn chains_are_as_worked(rt: HostRuntime) -> Result<(), OutOfMemory> {
    for (den, rows, text) in CHAINS {
        let table = chain_of(rt.alloc(), *den, rows)?;
        assert!(rt; table.items() == text.as_bytes(), "{text}");
    }
    Ok(())
}
