//! The records of a table, written one by one.
ghost use Rattle.std.specs.Prelude.{◌≡◌, ◌<◌, ◌≤◌, ◌+◌, ◌-◌, ◌^◌, ◌++◌, [], pos, int_lt, if◌then◌else◌, length, map};
ghost use Rattle.std.specs.Prelude.{IfOk, OnOk};
ghost use Rattle.csv.specs.Writing.{row_text};
ghost use Rattle.mintc_text.specs.Lines.{numeral_of};
ghost use Rattle.mintcx_csv.specs.Records.{IsBetween, text_so_far};
ghost use Rattle.mintcx_csv.specs.Tables.{by_rfc, shown_over};

use csv::{Terminator, Writer, WriterBuilder};
use itoa::Buffer;
use mintc_text::{Bytes, OutOfMemory};
use std::alloc::Global;

/// A table that is being written.
pub(crate) type Records = Writer<Vec<u8>>;

/// A table without a record. It takes no memory.
pub(crate) fn no_records(alloc: Global) -> Records
    ensures between { IsBetween result }
    ensures text { text_so_far result ≡ [] }
{
    WriterBuilder::new()
        .terminator(Terminator::CRLF)
        .from_writer(Vec::new(alloc))
}

/// Appends a record. Err leaves part of it, and the table is no more to be written to.
pub(crate) fn put_record(records: &mut Records, fields: &[&[u8]]) -> Result<(), OutOfMemory>
    requires { IsBetween records.old }
    ensures between { OnOk result (IsBetween records.new) }
    ensures text { OnOk result (text_so_far records.new
        ≡ text_so_far records.old ++ row_text by_rfc (map (λ field. field.now) fields.now)) }
{
    match records.write_fields(fields) {
        Ok(()) => Ok(()),
        Err(_) => Err(OutOfMemory),
    }
}

/// How many fields are shown of some columns and a denominator, which is left out where it is 1.
fn shown(columns: usize, den: i64) -> usize
    requires { columns < 2 ^ 64 - 1 }
    ensures value { result ≡ (if int_lt (pos 1) den then columns + 1 else columns) }
    ensures most { result ≤ columns + 1 }
{
    if den > 1 { columns + 1 } else { columns }
}

/// Appends a record of some columns and the denominator of its times, which is left out where it is 1. Err leaves part
/// of it.
pub(crate) fn put_over(
    records: &mut Records,
    fields: &[&[u8]],
    columns: usize,
    den: i64,
) -> Result<(), OutOfMemory>
    requires between { IsBetween records.old }
    requires fields { columns < length fields.now }
    ensures between { OnOk result (IsBetween records.new) }
    ensures text { OnOk result (text_so_far records.new
        ≡ text_so_far records.old ++ row_text by_rfc (shown_over den columns (map (λ field. field.now) fields.now))) }
{
    put_record(records, &fields[..shown(columns, den)])
}

/// The numeral of a number.
pub(crate) fn numeral(buffer: &mut Buffer, value: i128) -> &[u8]
    ensures { result.now ≡ numeral_of value }
{
    buffer.format(value).as_bytes()
}

/// The text of a table.
pub(crate) fn text_of(records: Records) -> Result<Bytes, OutOfMemory>
    ensures { IfOk result (λ text. text ≡ text_so_far records) }
{
    match records.into_inner() {
        Ok(text) => Ok(Bytes::new(text)),
        Err(_) => Err(OutOfMemory),
    }
}
