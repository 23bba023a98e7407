//! The bytes of words.
ghost use Rattle.std.specs.Prelude.{◌≡◌, ◌≤◌, ◌<◌, ◌+◌, length, slice_index, ◌==◌, ◌&&◌, ◌||◌};
ghost use Rattle.mintc_liberty_tokens.specs.Tokens.{is_sign, ends_word, word_size};

use mintc_text_scan::{is_pair, is_white};

/// One of the seven signs.
fn is_sign(b: u8) -> bool
    ensures { result ≡ is_sign b }
{
    b == b'(' || b == b')' || b == b'{' || b == b'}' || b == b':' || b == b';' || b == b','
}

/// What no word goes on with.
fn ends_word(b: u8) -> bool
    ensures { result ≡ ends_word b }
{
    is_white(b) || is_sign(b) || b == b'"'
}

/// Whether a word stops at a place.
fn stops_word(bytes: &[u8], at: usize) -> bool
    requires { at < length bytes.now }
    ensures { result ≡ (ends_word (slice_index bytes.now at)
        || ((slice_index bytes.now at == 92) && (slice_index bytes.now (at + 1) == 10))) }
{
    ends_word(bytes[at]) || is_pair(bytes, at, b'\\', b'\n')
}

/// How many bytes the word at the front has.
pub(crate) fn word_size(bytes: &[u8]) -> usize
    ensures value { result ≡ word_size bytes.now }
    ensures within { result ≤ length bytes.now }
{
    for at in 0..bytes.len() {
        if stops_word(bytes, at) {
            return at;
        }
    }
    bytes.len()
}
