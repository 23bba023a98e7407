//! The bytes at a place, white space, strings and lines.
ghost use Rattle.std.specs.Prelude.{◌≡◌, ◌≤◌, ◌<◌, ◌+◌, IfSome, drop, length, slice_index, ◌==◌, ◌&&◌, not, false};
ghost use Rattle.mintc_text_scan.specs.Bytes.{is_white, string_size, line_size};

/// Space, tab, line feed, carriage return, form feed.
pub fn is_white(b: u8) -> bool
    ensures { result ≡ is_white b }
{
    b == b' ' || b == b'\t' || b == b'\n' || b == b'\r' || b == 12
}

/// The byte at a place, and 0 past the end.
pub fn byte_at(bytes: &[u8], at: usize) -> u8
    ensures { result ≡ slice_index bytes.now at }
{
    if at < bytes.len() { bytes[at] } else { 0 }
}

/// The bytes from a place on, none past the end.
pub fn rest_from(bytes: &[u8], at: usize) -> &[u8]
    ensures { result.now ≡ drop at bytes.now }
{
    if at < bytes.len() {
        &bytes[at..]
    } else {
        &bytes[bytes.len()..]
    }
}

/// Whether these two bytes stand at a place.
pub fn is_pair(bytes: &[u8], at: usize, first: u8, second: u8) -> bool
    requires { at < length bytes.now }
    ensures { result ≡ ((slice_index bytes.now at == first) && (slice_index bytes.now (at + 1) == second)) }
{
    bytes[at] == first && byte_at(bytes, at + 1) == second
}

/// Whether a byte is a backslash that keeps the next one.
pub fn keeps(b: u8, kept: bool) -> bool
    ensures { result ≡ (not kept && (b == 92)) }
{
    !kept && b == b'\\'
}

/// Whether a byte closes a string.
fn closes_string(b: u8, kept: bool) -> bool
    ensures { result ≡ (not kept && (b == 34)) }
{
    !kept && b == b'"'
}

/// How many bytes stand before the quote that closes a string.
pub fn string_size(bytes: &[u8]) -> Option<usize>
    ensures value { result ≡ string_size false 0 bytes.now }
    ensures within { IfSome result (λ n. n < length bytes.now) }
{
    let mut kept = false;
    for at in 0..bytes.len() {
        if closes_string(bytes[at], kept) {
            return Some(at);
        }
        kept = keeps(bytes[at], kept);
    }
    None
}

/// How many bytes stand before the line feed.
pub fn line_size(bytes: &[u8]) -> usize
    ensures value { result ≡ line_size bytes.now }
    ensures within { result ≤ length bytes.now }
{
    for at in 0..bytes.len() {
        if bytes[at] == b'\n' {
            return at;
        }
    }
    bytes.len()
}
