//! Counts as people read them.

use crate::writing::put_number;
use mintc_text::{Lines, OutOfMemory};
use std::alloc::Global;

/// Writes a count with a comma before each three digits, as `2,304`.
pub(crate) fn put_count(alloc: Global, out: &mut Lines, count: u64) -> Result<(), OutOfMemory> {
    let mut lines = Lines::new(alloc);
    put_number(&mut lines, count)?;
    let digits = lines.into_bytes();
    for at in 0..digits.len() {
        if at > 0 && (digits.len() - at) % 3 == 0 {
            out.put(b",")?;
        }
        out.put(&digits[at..at + 1])?;
    }
    Ok(())
}

/// Writes a count of what may be one or many.
pub(crate) fn put_many(
    alloc: Global,
    out: &mut Lines,
    count: u64,
    one: &[u8],
    many: &[u8],
) -> Result<(), OutOfMemory> {
    put_count(alloc, out, count)?;
    out.put(b" ")?;
    out.put(if count == 1 { one } else { many })
}
