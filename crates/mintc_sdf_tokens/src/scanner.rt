//! Reading a text token by token, from any place of it.
ghost use Rattle.std.specs.Prelude.{◌≡◌, ◌≤◌, ◌<◌, ◌+◌, ◌∷◌, true, drop, length, Some, None, IfSome, IfNone, MatchBool};
ghost use Rattle.mintc_sdf_tokens.specs.Tokens.{closing, tokens_of};
ghost use Rattle.mintc_sdf_tokens.specs.Scans.{IsAhead};
ghost use Rattle.mintc_sdf_tokens.specs.Items.{after};
ghost use Rattle.mintc_sdf_tokens.specs.Reading.{after_opening, after_closing, word_at, string_at, mark_of, mark_by};
ghost use Rattle.mintc_sdf_tokens.specs.Reading.{stepped};

use crate::bytes::word_size;
use crate::reader::TokenKind;
use crate::trivia::skip_trivia;
use mintc_text_scan::{last_end, rest_from, string_size};
use std::marker::Model;

/// A text and the tokens from a place on.
#[derive(Drop)]
pub struct Scanner<'a> {
    text: &'a [u8],
    last: usize,
    at: usize,
}

impl<'a> Model for Scanner<'a> {
    ghost use Rattle.std.specs.Prelude.{drop, length, true, ◌≡◌, ◌≤◌};
    ghost use Rattle.mintc_sdf_tokens.specs.Scans.{Scan, scan_at};
    ghost use Rattle.mintc_sdf_tokens.specs.Tokens.{piece_of};
    ghost use Rattle.mintc_text_scan.specs.Bytes.{EndsBefore};
    ghost use Rattle.mintc_text_scan.specs.Pieces.{is_settled};

    ghost Value = { Scan };

    ghost view = { λ r. scan_at r.text.now r.at };

    ghost invariant = { λ r. (r.at ≤ length r.text.now) × (is_settled piece_of (drop r.at r.text.now) ≡ true)
        × EndsBefore r.text.now r.last };
}

/// What the first byte says that comes next.
fn mark_at(text: &[u8], at: usize) -> TokenKind
    requires { at ≤ length text.now }
    ensures { result ≡ mark_by (drop at text.now) }
{
    if at == text.len() {
        return TokenKind::End;
    }
    match text[at] {
        b'(' => TokenKind::Open,
        b')' => TokenKind::Close,
        b'"' => TokenKind::Quote,
        _ => TokenKind::Word,
    }
}

impl<'a> Scanner<'a> {
    /// All tokens of a text.
    pub fn new(text: &'a [u8]) -> Scanner<'a>
        ensures text { result.text ≡ text.now }
        ensures tokens { result.tokens ≡ tokens_of text.now }
    {
        let last = last_end(text);
        let at = skip_trivia(text, 0, last);
        Scanner { text, last, at }
    }

    /// What comes next.
    pub fn mark(&self) -> TokenKind
        ensures { result ≡ mark_of self.now.tokens }
    {
        mark_at(self.text, self.at)
    }

    /// Passes an opening parenthesis, if it comes next.
    pub fn open(&mut self) -> bool
        ensures passed { MatchBool result (after_opening self.old.tokens ≡ Some self.new.tokens)
            ((after_opening self.old.tokens ≡ None) × (self.new ≡ self.old)) }
        ensures ahead { IsAhead self.old self.new }
    {
        let TokenKind::Open = self.mark() else {
            return false;
        };
        self.at = skip_trivia(self.text, self.at + 1, self.last);
        true
    }

    /// Passes a closing parenthesis, if it comes next.
    pub fn close(&mut self) -> bool
        ensures passed { MatchBool result (after_closing self.old.tokens ≡ Some self.new.tokens)
            ((after_closing self.old.tokens ≡ None) × (self.new ≡ self.old)) }
        ensures ahead { IsAhead self.old self.new }
    {
        let TokenKind::Close = self.mark() else {
            return false;
        };
        self.at = skip_trivia(self.text, self.at + 1, self.last);
        true
    }

    /// Passes a word, if it comes next.
    pub fn word(&mut self) -> Option<&'a [u8]>
        ensures none { IfNone result ((word_at self.old.tokens ≡ None) × (self.new ≡ self.old)) }
        ensures some { IfSome result (λ w. word_at self.old.tokens ≡ Some (w.now, self.new.tokens)) }
        ensures full { IfSome result (λ w. 0 < length w.now) }
        ensures ahead { IsAhead self.old self.new }
    {
        let TokenKind::Word = self.mark() else {
            return None;
        };
        let rest = rest_from(self.text, self.at);
        let size = word_size(rest);
        self.at = skip_trivia(self.text, self.at + size, self.last);
        Some(&rest[..size])
    }

    /// Passes a string, if it comes next.
    pub fn string(&mut self) -> Option<&'a [u8]>
        ensures none { IfNone result ((string_at self.old.tokens ≡ None) × (self.new ≡ self.old)) }
        ensures some { IfSome result (λ s. string_at self.old.tokens ≡ Some (s.now, self.new.tokens)) }
        ensures ahead { IsAhead self.old self.new }
    {
        let TokenKind::Quote = self.mark() else {
            return None;
        };
        let rest = rest_from(self.text, self.at + 1);
        let size = string_size(rest)?;
        self.at = skip_trivia(self.text, self.at + (size + 2), self.last);
        Some(&rest[..size])
    }

    /// Passes one token and gives its mark. At the end, and at a string that isn't closed, nothing is passed.
    pub(crate) fn step(&mut self) -> TokenKind
        ensures kind { result ≡ (stepped self.old.tokens).0 }
        ensures rest { self.new.tokens ≡ (stepped self.old.tokens).1 }
        ensures ahead { IsAhead self.old self.new }
    {
        if self.open() {
            TokenKind::Open
        } else if self.close() {
            TokenKind::Close
        } else if self.word().is_some() {
            TokenKind::Word
        } else if self.string().is_some() {
            TokenKind::Quote
        } else {
            TokenKind::End
        }
    }

    /// Passes what is left of the list that is open, and the parenthesis that closes it, and gives the place of that
    /// parenthesis. None of a list that isn't closed.
    pub fn pass(&mut self) -> Option<usize>
        ensures some { IfSome result (λ place. after_closing (after self.old.tokens) ≡ Some self.new.tokens) }
        ensures place { IfSome result (λ place. tokens_of (drop place self.old.text) ≡ closing ∷ self.new.tokens) }
        ensures within { IfSome result (λ place. (self.old.place ≤ place) × (place < length self.old.text)) }
        ensures none { IfNone result (after_closing (after self.old.tokens) ≡ None) }
        ensures ahead { IsAhead self.old self.new }
    {
        let _ = &self.text;
        let mut depth: usize = 0;
        loop {
            let place = self.place();
            match self.step() {
                TokenKind::Open => depth += 1,
                TokenKind::Close if depth == 0 => return Some(place),
                TokenKind::Close => depth -= 1,
                TokenKind::Word | TokenKind::Quote => {}
                TokenKind::End => return None,
            }
        }
    }

    /// The place in the text.
    pub fn place(&self) -> usize
        ensures place { result ≡ self.now.place }
        ensures tokens { self.now.tokens ≡ tokens_of (drop result self.now.text) }
        ensures within { result ≤ length self.now.text }
    {
        self.at
    }

    /// How many bytes are left, and no more tokens than that.
    pub(crate) fn bytes_left(&self) -> usize
        ensures { length self.now.tokens ≤ result }
    {
        self.text.len() - self.at
    }

    /// The same place once more.
    pub(crate) fn copy(&self) -> Scanner<'a>
        ensures { result ≡ self.now }
    {
        Scanner {
            text: self.text,
            last: self.last,
            at: self.at,
        }
    }
}
