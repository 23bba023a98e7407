//! From one token to the next: what is passed over.
ghost use Rattle.std.specs.Prelude.{◌≡◌, ◌≤◌, ◌<◌, ◌+◌, true, drop, length};
ghost use Rattle.mintc_text_scan.specs.Bytes.{EndsBefore};
ghost use Rattle.mintc_text_scan.specs.Pieces.{passed_by, is_settled};
ghost use Rattle.mintc_sdf_tokens.specs.Tokens.{slash_piece, piece_of, tokens_of};

use mintc_text_scan::{comment_size, is_white};

/// How many bytes are passed over at a slash.
fn passed_at_slash(text: &[u8], at: usize, last: usize) -> usize
    requires within { at < length text.now }
    requires last { EndsBefore text.now last }
    ensures { result ≡ passed_by (slash_piece (drop at text.now)).token (slash_piece (drop at text.now)).size }
{
    comment_size(text, at, last).unwrap_or(0)
}

/// How many bytes are passed over at a place: 0 where a token begins.
#[tactic(auto, unfolding(crate::specs::Tokens::piece_of))]
fn trivia_size(text: &[u8], at: usize, last: usize) -> usize
    requires within { at < length text.now }
    requires last { EndsBefore text.now last }
    ensures { result ≡ passed_by (piece_of (drop at text.now)).token (piece_of (drop at text.now)).size }
{
    let first = text[at];
    if is_white(first) {
        1
    } else if first == b'/' {
        passed_at_slash(text, at, last)
    } else {
        0
    }
}

/// The place of the next token, or the end.
pub(crate) fn skip_trivia(text: &[u8], from: usize, last: usize) -> usize
    requires within { from ≤ length text.now }
    requires last { EndsBefore text.now last }
    ensures same { tokens_of (drop result text.now) ≡ tokens_of (drop from text.now) }
    ensures settled { is_settled piece_of (drop result text.now) ≡ true }
    ensures within { result ≤ length text.now }
    ensures ahead { from ≤ result }
{
    let mut at = from;
    while at < text.len() {
        let size = trivia_size(text, at, last);
        if size == 0 {
            return at;
        }
        at += size;
    }
    at
}
