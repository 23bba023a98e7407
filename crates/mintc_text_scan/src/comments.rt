//! Comments, and where the last of them may end.
ghost use Rattle.std.specs.Prelude.{◌≡◌, ◌≤◌, ◌<◌, ◌+◌, ◌==◌, ◌&&◌, false, drop, length, slice_index};
ghost use Rattle.mintc_text_scan.specs.Bytes.{comment_end, comment_size, EndsBefore};

use crate::bytes::{byte_at, is_pair, line_size, rest_from};
use mintc_text::place_of;

/// Whether a star and a slash stand at a place.
fn is_end_mark(bytes: &[u8], at: usize) -> bool
    requires { at < length bytes.now }
    ensures { result ≡ ((slice_index bytes.now at == 42) && (slice_index bytes.now (at + 1) == 47)) }
{
    is_pair(bytes, at, b'*', b'/')
}

/// The place behind the first `*/`, from the third byte on.
pub fn comment_end(bytes: &[u8]) -> Option<usize>
    requires { 2 ≤ length bytes.now }
    ensures { result ≡ comment_end 2 (drop 2 bytes.now) }
{
    for at in 2..bytes.len() {
        if is_end_mark(bytes, at) {
            return Some(at + 2);
        }
    }
    None
}

/// A place behind the last `*/` so far, where one may stand here.
fn later_end(text: &[u8], at: usize, last: usize) -> usize
    requires { at < length text.now }
    ensures here { result < at + 2 → ((slice_index text.now at == 42) && (slice_index text.now (at + 1) == 47))
        ≡ false }
    ensures before { last ≤ at + 2 → last ≤ result }
    ensures within { last ≤ at + 2 → result ≤ at + 2 }
{
    if is_end_mark(text, at) { at + 2 } else { last }
}

/// The place behind the last `*/`, or 0. The stars of a text are looked for, which are few.
pub fn last_end(text: &[u8]) -> usize
    ensures { EndsBefore text.now result }
{
    let mut last = 0;
    let mut at = place_of(b'*', text, 0);
    while at < text.len() {
        last = later_end(text, at, last);
        at = place_of(b'*', text, at + 1);
    }
    last
}

/// The place behind the first `*/` of a comment that may begin at a place.
fn comment_at(text: &[u8], at: usize, last: usize) -> Option<usize>
    requires within { at + 2 ≤ length text.now }
    requires last { EndsBefore text.now last }
    ensures { result ≡ comment_end 2 (drop 2 (drop at text.now)) }
{
    if last < at + 4 {
        None
    } else {
        comment_end(rest_from(text, at))
    }
}

/// How many bytes the comment has that a slash at a place begins.
pub fn comment_size(text: &[u8], at: usize, last: usize) -> Option<usize>
    requires within { at < length text.now }
    requires last { EndsBefore text.now last }
    ensures { result ≡ comment_size (drop at text.now) }
{
    let next = byte_at(text, at + 1);
    if next == b'/' {
        Some(line_size(rest_from(text, at)))
    } else if next == b'*' {
        comment_at(text, at, last)
    } else {
        None
    }
}
