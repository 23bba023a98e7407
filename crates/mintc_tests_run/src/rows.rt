//! The worked rows: each command has its answer over the files of the rows, and what `optimise` writes is what
//! `verify` calls valid.
mod cases;

use super::files::{CERTIFICATES, CORNER_FILES, Edit, LIBRARIES, SAFE_AND_SLACK_FILES, files};
use super::harness::{bytes_shelf, is_answered, is_wanted, run_on, succeeds};
pub(crate) use cases::CHECK;
use cases::{OF_SAFE_AND_SLACK, OVER_CORNERS, OVER_FILES, OVER_LIBRARIES, OVER_TABLES, Row};
use mintc_command::Status;
use mintc_tests_designs::{TWO_CERTIFICATE, TWO_LATCHES, shelf_of};
use mintc_text::OutOfMemory;
use std::alloc::{AllocError, Global};
use std::process::Abort;
use std::test::Fail;

/// Whether a run of the row over these files ends as it may.
fn ends_so(alloc: Global, files: &[(&str, &str)], row: &Row) -> bool {
    match run_on(alloc, files, row.words) {
        Ok((status, taken)) => {
            is_wanted(status, taken.as_slice(), (row.status, row.front, row.ends))
        }
        Err(_) => false,
    }
}

/// Each row over these files ends as it may.
fn rows_are_answered(rt: &impl Abort, alloc: Global, files: &[(&str, &str)], rows: &[Row]) {
    for row in rows {
        assert!(rt; ends_so(alloc, files, row), "{} {}", row.name, row.words);
    }
}

#[test]
fn check_optimise_and_report_have_their_answers(rt: HostRuntime) {
    rows_are_answered(&rt, rt.alloc(), files(), OVER_TABLES);
}

#[test]
fn safe_and_slack_have_their_answers(rt: HostRuntime) {
    rows_are_answered(&rt, rt.alloc(), SAFE_AND_SLACK_FILES, OF_SAFE_AND_SLACK);
}

#[test]
fn libraries_have_their_answers(rt: HostRuntime) {
    rows_are_answered(&rt, rt.alloc(), LIBRARIES, OVER_LIBRARIES);
}

#[test]
fn corners_have_their_answers(rt: HostRuntime) {
    rows_are_answered(&rt, rt.alloc(), CORNER_FILES, OVER_CORNERS);
}

#[test]
fn worked_files_have_their_answers(rt: HostRuntime) {
    rows_are_answered(&rt, rt.alloc(), files(), OVER_FILES);
}

/// The status with which `verify` gives this answer.
fn status_of(answer: &[u8]) -> Status {
    if answer.starts_with(b"v") {
        Status::Done
    } else if answer.starts_with(b"i") {
        Status::Found
    } else {
        Status::Refused
    }
}

/// A certificate of the first table is judged so.
fn is_judged(rt: &impl Abort, alloc: Global, text: &str, answer: &[u8]) -> Result<(), OutOfMemory> {
    let mut shelf = shelf_of(alloc, &[("TAB1", TWO_LATCHES), ("judged", text)], &[])?;
    let wanted = (status_of(answer), answer);
    is_answered(
        rt,
        alloc,
        &mut shelf,
        "verify table TAB1 judged",
        None,
        wanted,
    );
    Ok(())
}

/// An edited certificate of the first table, with this first line.
fn edited(alloc: Global, first_line: &str, edit: &Edit) -> Result<String, AllocError> {
    let edited = TWO_CERTIFICATE.replacen(alloc, edit.old, edit.new, 1)?;
    edited.replacen(alloc, "certificate 2", first_line, 1)
}

// The rows on certificates, in both versions.
#[test]
fn verify_judges_certificates_of_both_versions(rt: HostRuntime) -> Result<(), Fail> {
    let alloc = rt.alloc();
    for edit in CERTIFICATES {
        for first_line in &["certificate 1", "certificate 2"] {
            let text = edited(alloc, first_line, edit)?;
            is_judged(&rt, alloc, &text, edit.answer.as_bytes())?;
        }
    }
    Ok(())
}

/// A certificate that is found for a table is valid.
fn is_valid(rt: &impl Abort, alloc: Global, table: &str, found: &[u8]) -> Result<(), OutOfMemory> {
    let files = [("a.table", table.as_bytes()), ("found", found)];
    let mut shelf = bytes_shelf(alloc, &files)?;
    succeeds(
        rt,
        alloc,
        &mut shelf,
        "verify table a.table found",
        b"valid\n",
    );
    Ok(())
}

/// What `optimise` writes for a table is what `verify` calls valid, where it isn't refused.
fn optimum_is_valid(rt: &impl Abort, alloc: Global, table: &str) -> Result<(), OutOfMemory> {
    let (status, found) = run_on(alloc, &[("a.table", table)], "optimise table a.table")?;
    if status == Status::Refused {
        return Ok(());
    }
    is_valid(rt, alloc, table, found.as_slice())
}

// What `optimise` writes is what `verify` calls valid.
#[test]
fn verify_calls_each_optimum_valid(rt: HostRuntime) -> Result<(), Fail> {
    for (_, text) in files() {
        optimum_is_valid(&rt, rt.alloc(), text)?;
    }
    Ok(())
}

#[test]
fn statuses_have_their_numbers(rt: HostRuntime) {
    assert!(rt; Status::Done.number() == 0 && Status::Found.number() == 1);
    assert!(rt; Status::OutOfMemory.number() == 6);
}
