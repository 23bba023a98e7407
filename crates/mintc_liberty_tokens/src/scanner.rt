//! Reading a text token by token, from any place of it.
ghost use Rattle.std.specs.Prelude.{◌≡◌, ◌≤◌, ◌<◌, ◌+◌, ◌∷◌, true, drop, length, Some, None, IfSome, IfNone, List, ℕ};
ghost use Rattle.mintc_liberty_tokens.specs.Tokens.{Token, tokens_of};
ghost use Rattle.mintc_liberty_tokens.specs.Scans.{Scan, IsAhead};
ghost use Rattle.mintc_liberty_tokens.specs.Reading.{kind_of, kind_by, token_of, is_sign_kind, word_at, string_at};
ghost use Rattle.mintc_liberty_tokens.specs.Reading.{name_at};

use crate::bytes::word_size;
use crate::reader::Kind;
use crate::trivia::skip_trivia;
use mintc_text_scan::{last_end, rest_from, string_size};
use std::marker::Model;

/// A text and the tokens from a place on.
#[derive(Drop)]
pub struct Scanner<'a> {
    text: &'a [u8],
    last: usize,
    at: usize,
}

impl<'a> Model for Scanner<'a> {
    ghost use Rattle.std.specs.Prelude.{drop, length, true, ◌≡◌, ◌≤◌};
    ghost use Rattle.mintc_liberty_tokens.specs.Scans.{Scan, scan_at};
    ghost use Rattle.mintc_text_scan.specs.Bytes.{EndsBefore};
    ghost use Rattle.mintc_text_scan.specs.Pieces.{is_settled};
    ghost use Rattle.mintc_liberty_tokens.specs.Tokens.{piece_of};

    ghost Value = { Scan };

    ghost view = { λ r. scan_at r.text.now r.at };

    ghost invariant = { λ r. (r.at ≤ length r.text.now) × (is_settled piece_of (drop r.at r.text.now) ≡ true)
        × EndsBefore r.text.now r.last };
}

/// What the first byte says that comes next.
fn kind_at(text: &[u8], at: usize) -> Kind
    requires { at ≤ length text.now }
    ensures { result ≡ kind_by (drop at text.now) }
{
    if at == text.len() {
        return Kind::End;
    }
    match text[at] {
        b'(' => Kind::Opening,
        b')' => Kind::Closing,
        b'{' => Kind::Left,
        b'}' => Kind::Right,
        b':' => Kind::Colon,
        b';' => Kind::Semicolon,
        b',' => Kind::Comma,
        b'"' => Kind::Text,
        _ => Kind::Word,
    }
}

impl<'a> Scanner<'a> {
    /// All tokens of a text.
    pub fn new(text: &'a [u8]) -> Scanner<'a>
        ensures text { result.text ≡ text.now }
        ensures tokens { result.tokens ≡ tokens_of text.now }
    {
        let last = last_end(text);
        let at = skip_trivia(text, 0, last);
        Scanner { text, last, at }
    }

    /// The kind of what comes next.
    pub fn kind(&self) -> Kind
        ensures { result ≡ kind_of self.now.tokens }
    {
        kind_at(self.text, self.at)
    }

    /// Passes a word, if it comes next.
    pub fn word(&mut self) -> Option<&'a [u8]>
        ensures none { IfNone result ((word_at self.old.tokens ≡ None) × (self.new ≡ self.old)) }
        ensures some { IfSome result (λ w. word_at self.old.tokens ≡ Some (w.now, self.new.tokens)) }
        ensures ahead { IsAhead self.old self.new }
    {
        match self.kind() {
            Kind::Word => {
                let rest = rest_from(self.text, self.at);
                let size = word_size(rest);
                self.at = skip_trivia(self.text, self.at + size, self.last);
                Some(&rest[..size])
            }
            _ => None,
        }
    }

    /// Passes a string, if it comes next.
    pub fn string(&mut self) -> Option<&'a [u8]>
        ensures none { IfNone result ((string_at self.old.tokens ≡ None) × (self.new ≡ self.old)) }
        ensures some { IfSome result (λ s. string_at self.old.tokens ≡ Some (s.now, self.new.tokens)) }
        ensures ahead { IsAhead self.old self.new }
    {
        match self.kind() {
            Kind::Text => {
                let rest = rest_from(self.text, self.at + 1);
                match string_size(rest) {
                    Some(size) => {
                        self.at = skip_trivia(self.text, self.at + (size + 2), self.last);
                        Some(&rest[..size])
                    }
                    None => None,
                }
            }
            _ => None,
        }
    }

    /// What the word or string that comes next stands for.
    pub fn name(&self) -> Option<&'a [u8]>
        ensures none { IfNone result (name_at self.now.tokens ≡ None) }
        ensures some { IfSome result (λ name. name_at self.now.tokens ≡ Some name.now) }
    {
        match self.kind() {
            Kind::Word => {
                let rest = rest_from(self.text, self.at);
                Some(&rest[..word_size(rest)])
            }
            Kind::Text => {
                let rest = rest_from(self.text, self.at + 1);
                match string_size(rest) {
                    Some(size) => Some(&rest[..size]),
                    None => None,
                }
            }
            _ => None,
        }
    }

    /// Passes the sign that comes next, which is of this kind.
    pub fn sign(&mut self, kind: Kind)
        requires next { kind ≡ kind_of self.old.tokens }
        requires sign { is_sign_kind kind ≡ true }
        ensures sign { (w : List ℕ) → self.old.tokens ≡ token_of kind w ∷ self.new.tokens }
        ensures ahead { IsAhead self.old self.new }
    {
        self.at = skip_trivia(self.text, self.at + 1, self.last);
    }

    /// The place in the text.
    pub fn place(&self) -> usize
        ensures place { result ≡ self.now.place }
        ensures tokens { self.now.tokens ≡ tokens_of (drop result self.now.text) }
        ensures within { result ≤ length self.now.text }
    {
        self.at
    }

    /// The same text from a place on, of which there is nothing past the end.
    pub fn from_place(&self, place: usize) -> Scanner<'a>
        ensures text { result.text ≡ self.now.text }
        ensures tokens { result.tokens ≡ tokens_of (drop place self.now.text) }
    {
        Scanner {
            text: self.text,
            last: self.last,
            at: skip_trivia(self.text, place.min(self.text.len()), self.last),
        }
    }

    /// The same place once more.
    pub fn copy(&self) -> Scanner<'a>
        ensures same { result ≡ self.now }
        ensures tokens { self.now.tokens ≡ tokens_of (drop self.now.place self.now.text) }
    {
        Scanner {
            text: self.text,
            last: self.last,
            at: self.at,
        }
    }
}
