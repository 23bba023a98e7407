//! Tokens that have to come next.
ghost use Rattle.std.specs.Prelude.{◌≡◌, Some, None, MatchResult};
ghost use Rattle.mintc_text.specs.ReadErrors.{Halts};
ghost use Rattle.mintc_sdf_tokens.specs.Items.{after};
ghost use Rattle.mintc_sdf_tokens.specs.Reading.{after_opening, after_closing, word_at, string_at};

use mintc_sdf_tokens::Reader;
use mintc_text::ReadError;

/// Passes the word that has to come next.
pub fn read_word<'a>(reader: &mut Reader<'a>) -> Result<&'a [u8], ReadError>
    ensures { MatchResult result (λ w. word_at reader.old ≡ Some (w.now, reader.new))
        (Halts (word_at reader.old ≡ None)) }
{
    reader.word().ok_or(ReadError::Malformed)
}

/// Passes the string that has to come next.
pub(crate) fn read_string<'a>(reader: &mut Reader<'a>) -> Result<&'a [u8], ReadError>
    ensures { MatchResult result (λ s. string_at reader.old ≡ Some (s.now, reader.new))
        (Halts (string_at reader.old ≡ None)) }
{
    reader.string().ok_or(ReadError::Malformed)
}

/// Passes the opening parenthesis that has to come next.
pub fn read_opening(reader: &mut Reader) -> Result<(), ReadError>
    ensures { MatchResult result (λ _. after_opening reader.old ≡ Some reader.new)
        (Halts (after_opening reader.old ≡ None)) }
{
    if reader.open() {
        Ok(())
    } else {
        Err(ReadError::Malformed)
    }
}

/// Passes the closing parenthesis that has to come next.
pub(crate) fn read_closing(reader: &mut Reader) -> Result<(), ReadError>
    ensures { MatchResult result (λ _. after_closing reader.old ≡ Some reader.new)
        (Halts (after_closing reader.old ≡ None)) }
{
    if reader.close() {
        Ok(())
    } else {
        Err(ReadError::Malformed)
    }
}

/// Passes what is left of the list that is open, and the parenthesis that has to close it.
pub(crate) fn pass_rest(reader: &mut Reader) -> Result<(), ReadError>
    ensures { MatchResult result (λ _. after_closing (after reader.old) ≡ Some reader.new)
        (Halts (after_closing (after reader.old) ≡ None)) }
{
    if reader.pass() {
        Ok(())
    } else {
        Err(ReadError::Malformed)
    }
}
