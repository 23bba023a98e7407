//! The bytes of a value, one by one.
ghost use Rattle.std.specs.Prelude.{◌≡◌, ◌∷◌, [], drop, IfSome, IfNone};
ghost use Rattle.mintc_liberty_cell.specs.Expressions.{stripped};
ghost use Rattle.mintc_liberty_cell.specs.Passing.{value_bytes};

use mintc_liberty_tokens::{Reader, value_token};
use mintc_text_scan::is_white;
use std::marker::Model;

/// The bytes that are left of a value: those of a token, and the tokens behind it.
#[derive(Drop)]
pub(crate) struct ValueBytes<'a> {
    piece: &'a [u8],
    behind: Reader<'a>,
}

impl<'a> Model for ValueBytes<'a> {
    ghost use Rattle.std.specs.Prelude.{List, ℕ, ◌++◌};
    ghost use Rattle.mintc_liberty_cell.specs.Passing.{value_bytes};

    ghost Value = { List ℕ };

    ghost view = { λ b. b.piece.now ++ value_bytes b.behind };
}

impl<'a> ValueBytes<'a> {
    /// All bytes of a value.
    pub(crate) fn new(value: &Reader<'a>) -> ValueBytes<'a>
        ensures { result ≡ value_bytes value.now }
    {
        ValueBytes {
            piece: &[],
            behind: value.copy(),
        }
    }

    /// Passes a byte, if one comes.
    fn byte(&mut self) -> Option<u8>
        ensures none { IfNone result ((self.old ≡ []) × (self.new ≡ [])) }
        ensures some { IfSome result (λ b. self.old ≡ b ∷ self.new) }
    {
        while self.piece.is_empty() {
            let Some(piece) = value_token(&mut self.behind) else {
                return None;
            };
            self.piece = piece;
        }
        let byte = self.piece[0];
        self.piece = &self.piece[1..];
        Some(byte)
    }

    /// Passes white space and the byte behind it, if one comes.
    pub(crate) fn next(&mut self) -> Option<u8>
        ensures none { IfNone result ((stripped self.old ≡ []) × (stripped self.new ≡ [])) }
        ensures some { IfSome result (λ b. stripped self.old ≡ b ∷ stripped self.new) }
    {
        while let Some(byte) = self.byte() {
            if !is_white(byte) {
                return Some(byte);
            }
        }
        None
    }
}

/// What is left of a value behind so many bytes, white space not counted.
pub(crate) fn bytes_from<'a>(value: &Reader<'a>, from: usize) -> ValueBytes<'a>
    ensures { stripped result ≡ drop from (stripped (value_bytes value.now)) }
{
    let mut bytes = ValueBytes::new(value);
    for _ in 0..from {
        let Some(_) = bytes.next() else {
            return bytes;
        };
    }
    bytes
}
