//! Runs, and rows of what they leave.

use crate::folder::MemoryFolder;
use crate::rows::{Row, Rows};
use mintc_tests_designs::{shelf_of, words_of};
use mintc_text::MemorySink;
use mintcx_run::run;
use std::alloc::{AllocError, Global};
use std::process::Abort;
use std::test::Fail;

/// Bytes as text.
fn shown(bytes: &[u8]) -> &str {
    std::str::from_utf8(bytes).unwrap_or("?")
}

/// What a run with the words of a line leaves, as text: its status, what the two sinks took, and what was made.
fn left_by(alloc: Global, files: &[(&str, &str)], line: &str) -> Result<String, Fail> {
    let words = words_of(alloc, line)?;
    let mut shelf = shelf_of(alloc, files, &[])?;
    let mut out = MemorySink::new(alloc, 100_000, None)?;
    let mut errors = MemorySink::new(alloc, 100_000, None)?;
    let mut folder = MemoryFolder::new(alloc);
    let status = run(
        alloc,
        &words,
        &mut shelf,
        &mut out,
        &mut errors,
        &mut folder,
    )
    .number();
    let (out, errors, made) = (
        shown(out.taken()),
        shown(errors.taken()),
        shown(folder.text()),
    );
    Ok(format!(in alloc; "{status}|{out}|{errors}|{made}")?)
}

/// Tries the rows of some files.
pub(crate) fn are_as_wanted(rt: &impl Abort, alloc: Global, rows: &Rows) -> Result<(), Fail> {
    let mut wrong = String::new(alloc);
    for row in rows.rows {
        let found = left_by(alloc, rows.files, row.0)?;
        if found.as_str() != row.1 {
            wrong.push_str(row.0)?;
            wrong.push_str("\n")?;
            wrong.push_str(&found)?;
            wrong.push_str("\n")?;
        }
    }
    assert!(rt; wrong.is_empty(), "{wrong}");
    Ok(())
}
