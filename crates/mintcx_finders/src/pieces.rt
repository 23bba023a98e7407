//! Tokens of the delays, one after another.

use crate::found::bytes_of;
use mintc_sdf_tokens::{Scanner, TokenKind, is_key};
use mintcx_places::Range;

/// A token of an entry, and where it stands in the file.
#[derive(Clone, Copy)]
pub(crate) struct Piece {
    pub(crate) kind: TokenKind,
    pub(crate) range: Range,
}

/// Passes the token of a kind that comes next, and says how many bytes it has. None at the end.
fn pass_token(scanner: &mut Scanner<'_>, kind: TokenKind) -> Option<usize> {
    match kind {
        TokenKind::Open if scanner.open() => Some(1),
        TokenKind::Close if scanner.close() => Some(1),
        TokenKind::Word => Some(scanner.word()?.len()),
        TokenKind::Quote => Some(scanner.string()?.len().saturating_add(2)),
        TokenKind::Open | TokenKind::Close | TokenKind::End => None,
    }
}

/// The next token of a part of the file that begins at `base`. None at its end.
pub(crate) fn next_piece(scanner: &mut Scanner<'_>, base: usize) -> Option<Piece> {
    let from = base.saturating_add(scanner.place());
    let kind = scanner.mark();
    let size = pass_token(scanner, kind)?;
    Some(Piece {
        kind,
        range: Range {
            from,
            to: from.saturating_add(size),
        },
    })
}

/// Whether a token is a keyword, in any case.
pub(crate) fn is_keyword(text: &[u8], piece: &Piece, key: &[u8]) -> bool {
    piece.kind == TokenKind::Word && is_key(bytes_of(text, &piece.range), key)
}

/// Whether a token is one of several keywords.
pub(crate) fn is_one_of(text: &[u8], piece: &Piece, keys: &[&[u8]]) -> bool {
    for key in keys {
        if is_keyword(text, piece, key) {
            return true;
        }
    }
    false
}

/// The token of a kind that stands right behind the first keyword of an entry.
pub(crate) fn behind_key(text: &[u8], entry: &Range, key: &[u8], kind: TokenKind) -> Option<Range> {
    let bytes = bytes_of(text, entry);
    let mut scanner = Scanner::new(bytes);
    let mut is_behind = false;
    for _token in 0..bytes.len() {
        let piece = next_piece(&mut scanner, entry.from)?;
        if is_behind && piece.kind == kind {
            return Some(piece.range);
        }
        if is_behind {
            return None;
        }
        is_behind = is_keyword(text, &piece, key);
    }
    None
}

/// The first of several keywords of an entry.
pub(crate) fn first_key(text: &[u8], entry: &Range, keys: &[&[u8]]) -> Option<Range> {
    let bytes = bytes_of(text, entry);
    let mut scanner = Scanner::new(bytes);
    for _token in 0..bytes.len() {
        let piece = next_piece(&mut scanner, entry.from)?;
        if is_one_of(text, &piece, keys) {
            return Some(piece.range);
        }
    }
    None
}
