//! The table of a verdict.
ghost use Rattle.std.specs.Prelude.{◌≡◌, ◌++◌, IfOk, OnOk};
ghost use Rattle.csv.specs.Writing.{row_text};
ghost use Rattle.mintcx_verdicts.specs.Verdicts.{test_name, test_of};
ghost use Rattle.mintcx_csv.specs.Records.{IsBetween, text_so_far};
ghost use Rattle.mintcx_csv.specs.Tables.{by_rfc};
ghost use Rattle.mintcx_csv.specs.Verdicts.{IsVerdictTable, verdict_fields, verdict_record};

use crate::records::{Records, no_records, numeral, put_record, text_of};
use itoa::Buffer;
use mintc_checker::Verdict;
use mintc_text::{Bytes, OutOfMemory};
use std::alloc::Global;

/// What the test of a number looks at. Tests are counted from 1.
fn test_name(number: u32) -> &'static [u8]
    ensures { result.now ≡ test_name (test_of number) }
{
    match number {
        1 => b"counts",
        2 => b"rules of the clock",
        3 => b"bounds",
        4 => b"departures",
        5 => b"setups",
        6 => b"members of the chain",
        _ => b"sums of the chain",
    }
}

/// Writes the head line.
fn put_verdict_head(records: &mut Records) -> Result<(), OutOfMemory>
    requires { IsBetween records.old }
    ensures between { OnOk result (IsBetween records.new) }
    ensures text { OnOk result (text_so_far records.new ≡ text_so_far records.old ++ row_text by_rfc verdict_fields) }
{
    put_record(records, &[b"verdict", b"test", b"fails"])
}

/// Writes the row of a verdict.
fn put_verdict(records: &mut Records, verdict: Verdict) -> Result<(), OutOfMemory>
    requires { IsBetween records.old }
    ensures between { OnOk result (IsBetween records.new) }
    ensures text { OnOk result
        (text_so_far records.new ≡ text_so_far records.old ++ row_text by_rfc (verdict_record verdict)) }
{
    match verdict {
        Verdict::Valid => put_record(records, &[b"valid", b"", b""]),
        Verdict::Invalid(number) => {
            let mut numbers = Buffer::new();
            let test = numeral(&mut numbers, i128::from(number));
            put_record(records, &[b"invalid", test, test_name(number)])
        }
    }
}

/// The table `verdict,test,fails` of one row: the verdict, and of a certificate that isn't valid the first test that
/// fails, by its number from 1 to 7 and by what it looks at.
pub fn verdict_csv(alloc: Global, verdict: Verdict) -> Result<Bytes, OutOfMemory>
    ensures { IfOk result (IsVerdictTable verdict) }
{
    let mut records = no_records(alloc);
    put_verdict_head(&mut records)?;
    put_verdict(&mut records, verdict)?;
    text_of(records)
}
