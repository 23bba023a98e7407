//! The text of a verdict.
ghost use Rattle.std.specs.Prelude.{◌≡◌, ◌++◌, IfOk, OnOk};
ghost use Rattle.mintc_report.specs.Reports.{verdict_text_of};

use mintc_checker::Verdict;
use mintc_text::{Lines, OutOfMemory};
use mintc_text_refusals::put_number;
use std::alloc::Global;

/// Writes the line of an invalid certificate, with the test that it fails.
fn put_invalid(lines: &mut Lines, test: u32) -> Result<(), OutOfMemory>
    ensures { OnOk result (lines.new ≡ lines.old ++ verdict_text_of (Verdict.Invalid test)) }
{
    lines.put(b"invalid")?;
    put_number(lines, test as u64)?;
    lines.put(b"\n")
}

/// The text of a verdict: `valid`, or `invalid` and the number of the first test that fails, from 1 to 7; and a line
/// feed.
pub fn verdict_text(alloc: Global, verdict: &Verdict) -> Result<Vec<u8>, OutOfMemory>
    ensures { IfOk result (λ text. text.items ≡ verdict_text_of verdict.now) }
{
    let mut lines = Lines::new(alloc);
    match verdict {
        Verdict::Valid => lines.put(b"valid\n")?,
        Verdict::Invalid(test) => put_invalid(&mut lines, *test)?,
    }
    Ok(lines.into_bytes())
}
