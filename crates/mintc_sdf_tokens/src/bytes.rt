//! The bytes of words.
ghost use Rattle.std.specs.Prelude.{◌≡◌, ◌≤◌, length, not, true, false, if◌then◌else◌};
ghost use Rattle.mintc_sdf_tokens.specs.Tokens.{ends_word, word_size};

use mintc_text_scan::{is_white, keeps};

/// What no word goes on with.
fn ends_word(b: u8) -> bool
    ensures { result ≡ ends_word b }
{
    is_white(b) || b == b'(' || b == b')' || b == b'"'
}

/// Whether a word goes on with a byte; one that stands behind a backslash is kept.
fn goes_on(b: u8, kept: bool) -> bool
    ensures { result ≡ (if kept then true else not (ends_word b)) }
{
    kept || !ends_word(b)
}

/// How many bytes the word at the front has.
pub(crate) fn word_size(bytes: &[u8]) -> usize
    ensures value { result ≡ word_size false bytes.now }
    ensures within { result ≤ length bytes.now }
{
    let mut kept = false;
    for (at, byte) in bytes.iter().enumerate() {
        if !goes_on(*byte, kept) {
            return at;
        }
        kept = keeps(*byte, kept);
    }
    bytes.len()
}
