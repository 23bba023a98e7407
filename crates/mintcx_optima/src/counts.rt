//! Numbers of things, and the sums of a chain in words.
ghost use Rattle.std.specs.Prelude.{◌≡◌, ◌≤◌, ◌++◌, pos, ◌≤ℤ◌, negsuc, length, OnOk, All};
ghost use Rattle.mintcx_optima.specs.Counts.{counted, decided_text, plural};

use mintc_fraction::Fraction;
use mintc_text::{Lines, OutOfMemory};
use mintcx_amounts::Unit;
use mintcx_chain::Sums;
use mintcx_frame::{put_number, put_time};

/// What makes a word that of so many things.
fn plural(count: u64) -> &'static [u8]
    ensures { result.now ≡ plural count }
{
    if count == 1 { b"" } else { b"s" }
}

/// Writes so many of a thing, by its word for one.
pub fn put_counted(lines: &mut Lines, count: u64, word: &[u8]) -> Result<(), OutOfMemory>
    ensures { OnOk result (lines.new ≡ lines.old ++ counted count word.now) }
{
    put_number(lines, count)?;
    lines.put(b" ")?;
    lines.put(word)?;
    lines.put(plural(count))
}

/// Writes the line that says how long a chain takes, in how many cycles.
pub fn put_decided(
    lines: &mut Lines,
    count: u64,
    sums: &Sums,
    unit: Unit,
) -> Result<(), OutOfMemory>
    requires least { negsuc 131071999999999 ≤ℤ sums.now.delay }
    requires greatest { sums.now.delay ≤ℤ pos 131072000000000 }
    ensures { OnOk result (lines.new ≡ lines.old ++ decided_text count sums.now.delay sums.now.cycles unit) }
{
    lines.put(b"decided by a chain of ")?;
    put_counted(lines, count, b"constraint")?;
    lines.put(b" that takes ")?;
    put_time(lines, &Fraction::new(i128::from(sums.delay), 1), unit)?;
    lines.put(b" in ")?;
    put_counted(lines, sums.cycles, b"cycle")?;
    lines.put(b":\n")
}
