//! The text with `0` in the place of numbers below 0.

use crate::walking::{Mode, is_value, turned};
use crate::words::put_word;
use mintc_sdf_tokens::{Scanner, TokenKind};
use mintc_text::OutOfMemory;
use mintc_text_scan::rest_from;
use std::alloc::Global;

/// Text that is written, and up to which place of the other text.
#[derive(Drop)]
struct Front {
    out: Vec<u8>,
    at: usize,
}

/// Writes the text up to a place.
fn put_text(front: &mut Front, text: &[u8], place: usize) -> Result<(), OutOfMemory> {
    let rest = rest_from(text, front.at);
    let size = place.saturating_sub(front.at).min(rest.len());
    front.out.extend_from_slice(&rest[..size])?;
    front.at = place;
    Ok(())
}

/// Writes what a value becomes that stands at a place.
fn put_value(front: &mut Front, text: &[u8], place: usize, word: &[u8]) -> Result<(), OutOfMemory> {
    put_text(front, text, place)?;
    put_word(&mut front.out, word)?;
    front.at = place.saturating_add(word.len());
    Ok(())
}

/// Passes a word, and writes what it becomes where it is a value. None where no word comes next.
fn pass_word(
    front: &mut Front,
    text: &[u8],
    mode: Mode,
    scanner: &mut Scanner,
) -> Result<Option<Mode>, OutOfMemory> {
    let place = scanner.place();
    let Some(word) = scanner.word() else {
        return Ok(None);
    };
    if is_value(mode, scanner.mark()) {
        put_value(front, text, place, word)?;
    }
    Ok(turned(mode, TokenKind::Word, word))
}

/// Passes a token, and writes what it becomes where it is a value. None at the end.
fn pass_token(
    front: &mut Front,
    text: &[u8],
    mode: Mode,
    scanner: &mut Scanner,
) -> Result<Option<Mode>, OutOfMemory> {
    let kind = scanner.mark();
    let is_passed = match kind {
        TokenKind::Open => scanner.open(),
        TokenKind::Close => scanner.close(),
        TokenKind::Quote => scanner.string().is_some(),
        TokenKind::Word => return pass_word(front, text, mode, scanner),
        TokenKind::End => false,
    };
    if is_passed {
        Ok(turned(mode, kind, b""))
    } else {
        Ok(None)
    }
}

/// A text with `0` in the place of numbers below 0 that may not be.
pub(crate) fn clamped_text(alloc: Global, text: &[u8]) -> Result<Vec<u8>, OutOfMemory> {
    let mut front = Front {
        out: Vec::with_capacity(alloc, text.len())?,
        at: 0,
    };
    let mut scanner = Scanner::new(text);
    let mut mode = Mode::Free;
    for _token in 0..text.len() {
        let Some(next) = pass_token(&mut front, text, mode, &mut scanner)? else {
            break;
        };
        mode = next;
    }
    put_text(&mut front, text, text.len())?;
    let Front { out, at: _ } = front;
    Ok(out)
}
