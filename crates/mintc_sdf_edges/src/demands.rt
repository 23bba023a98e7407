//! What has to be left of a list.
ghost use Rattle.std.specs.Prelude.{◌≡◌, Some, None, MatchResult};
ghost use Rattle.mintc_text.specs.ReadErrors.{Halts};
ghost use Rattle.mintc_sdf_tokens.specs.Items.{after};
ghost use Rattle.mintc_sdf_tokens.specs.Reading.{after_closing};

use mintc_sdf_tokens::Reader;
use mintc_text::ReadError;

/// Passes what is left of the list that is open, and the parenthesis that has to close it.
pub(crate) fn pass_rest(reader: &mut Reader) -> Result<(), ReadError>
    ensures { MatchResult result (λ _. after_closing (after reader.old) ≡ Some reader.new)
        (Halts (after_closing (after reader.old) ≡ None)) }
{
    if reader.pass() {
        Ok(())
    } else {
        Err(ReadError::Malformed)
    }
}
