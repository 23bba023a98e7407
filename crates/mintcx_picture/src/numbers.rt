//! Numerals and attributes.
ghost use Rattle.std.specs.Prelude.{◌≡◌, ◌++◌, decimal, OnOk};
ghost use Rattle.mintcx_picture.specs.Attributes.{numbered, worded};

use mintc_text::{Lines, OutOfMemory};

/// Writes a whole number.
pub(crate) fn put_decimal(lines: &mut Lines, number: u32) -> Result<(), OutOfMemory>
    ensures { OnOk result (lines.new ≡ lines.old ++ decimal number) }
{
    lines.number(i128::from(number))
}

/// Writes an attribute that is a number, by the text before the number, as ` x="`.
pub(crate) fn put_numbered(lines: &mut Lines, name: &[u8], number: u32) -> Result<(), OutOfMemory>
    ensures { OnOk result (lines.new ≡ lines.old ++ numbered name.now number) }
{
    lines.put(name)?;
    put_decimal(lines, number)?;
    lines.put(b"\"")
}

/// Writes an attribute that is a word, by the text before it, as ` fill="`.
pub(crate) fn put_worded(lines: &mut Lines, name: &[u8], word: &[u8]) -> Result<(), OutOfMemory>
    ensures { OnOk result (lines.new ≡ lines.old ++ worded name.now word.now) }
{
    lines.put(name)?;
    lines.put(word)?;
    lines.put(b"\"")
}
