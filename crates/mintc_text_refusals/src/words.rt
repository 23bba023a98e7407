//! Words and numbers that follow a space.
ghost use Rattle.std.specs.Prelude.{◌≡◌, ◌++◌, ◌∷◌, OnOk, decimal};

use mintc_text::{Lines, OutOfMemory};

/// Appends a space and a word.
pub fn put_word(lines: &mut Lines, word: &[u8]) -> Result<(), OutOfMemory>
    ensures { OnOk result (lines.new ≡ lines.old ++ 32 ∷ word.now) }
{
    lines.put(b" ")?;
    lines.put(word)
}

/// Appends a space and a number in decimal.
pub fn put_number(lines: &mut Lines, number: u64) -> Result<(), OutOfMemory>
    ensures { OnOk result (lines.new ≡ lines.old ++ 32 ∷ decimal number) }
{
    lines.put(b" ")?;
    lines.number(number as i128)
}
