//! Members of objects.
ghost use Rattle.std.specs.Prelude.{◌≡◌, ◌++◌, [], ◌∷◌, OnOk};
ghost use Rattle.json.specs.Json.{string};
ghost use Rattle.mintcx_json.specs.Objects.{array_of, count, head_fields, name, whole};
ghost use Rattle.mintcx_json.specs.Pieces.{fields_tokens};

use crate::sheet::Sheet;
use mintc_text::OutOfMemory;
use std::alloc::Global;

/// What an answer is headed by.
#[derive(Clone, Copy)]
pub struct Heading<'a> {
    /// The command, as its word stands in the command line.
    pub command: &'a str,
    /// What the answer is about.
    pub subject: &'a [u8],
}

/// Writes a member that is a word.
pub(crate) fn put_word(sheet: &mut Sheet, key: &str, word: &str) -> Result<(), OutOfMemory>
    ensures { OnOk result (sheet.new ≡ sheet.old ++ fields_tokens ((key.now, string word.now) ∷ [])) }
{
    sheet.key(key)?;
    sheet.word(word)
}

/// Writes a member that is a name.
pub(crate) fn put_name(
    sheet: &mut Sheet,
    alloc: Global,
    key: &str,
    bytes: &[u8],
) -> Result<(), OutOfMemory>
    ensures { OnOk result (sheet.new ≡ sheet.old ++ fields_tokens ((key.now, name bytes.now) ∷ [])) }
{
    sheet.key(key)?;
    sheet.name(alloc, bytes)
}

/// Writes a member that is a whole number.
pub(crate) fn put_whole(sheet: &mut Sheet, key: &str, value: i64) -> Result<(), OutOfMemory>
    ensures { OnOk result (sheet.new ≡ sheet.old ++ fields_tokens ((key.now, whole value) ∷ [])) }
{
    sheet.key(key)?;
    sheet.whole(value)
}

/// Writes a member that is a whole number of 128 bits.
pub(crate) fn put_long(sheet: &mut Sheet, key: &str, value: i128) -> Result<(), OutOfMemory>
    ensures { OnOk result (sheet.new ≡ sheet.old ++ fields_tokens ((key.now, whole value) ∷ [])) }
{
    sheet.key(key)?;
    sheet.long(value)
}

/// Writes a member that is a count.
pub(crate) fn put_count(sheet: &mut Sheet, key: &str, number: u64) -> Result<(), OutOfMemory>
    ensures { OnOk result (sheet.new ≡ sheet.old ++ fields_tokens ((key.now, count number) ∷ [])) }
{
    sheet.key(key)?;
    sheet.count(number)
}

/// Writes a member that is an array without items.
pub(crate) fn put_none(sheet: &mut Sheet, key: &str) -> Result<(), OutOfMemory>
    ensures { OnOk result (sheet.new ≡ sheet.old ++ fields_tokens ((key.now, array_of []) ∷ [])) }
{
    sheet.key(key)?;
    sheet.open_array()?;
    sheet.close_array()
}

/// Writes the first members of an answer: the version of this form, the command, how its run ends, warnings, what is
/// answered, what it is about, and the unit of its times.
pub(crate) fn put_head(
    sheet: &mut Sheet,
    alloc: Global,
    command: &str,
    status: u64,
    answer: &str,
    subject: &[u8],
) -> Result<(), OutOfMemory>
    ensures { OnOk result (sheet.new
        ≡ sheet.old ++ fields_tokens (head_fields command.now status answer.now subject.now)) }
{
    put_count(sheet, "mintcx", 1)?;
    put_word(sheet, "command", command)?;
    put_count(sheet, "status", status)?;
    put_none(sheet, "warnings")?;
    put_word(sheet, "answer", answer)?;
    put_name(sheet, alloc, "design", subject)?;
    put_word(sheet, "unit", "fs")
}
