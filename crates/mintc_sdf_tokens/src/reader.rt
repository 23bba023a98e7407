//! The tokens that are left of a text, read one by one.
ghost use Rattle.std.specs.Prelude.{◌≡◌, ◌≤◌, ◌<◌, length, Some, None, IfSome, IfNone, MatchBool};
ghost use Rattle.mintc_sdf_tokens.specs.Tokens.{tokens_of};
ghost use Rattle.mintc_sdf_tokens.specs.Items.{after};
ghost use Rattle.mintc_sdf_tokens.specs.Reading.{after_opening, after_closing, word_at, string_at, mark_of};
ghost use Rattle.mintc_sdf_tokens.specs.Reading.{stepped};

use crate::scanner::Scanner;
use std::marker::Model;

/// What comes next.
#[derive(Clone, Copy, PartialEq, Eq)]
pub enum TokenKind {
    End,
    Open,
    Close,
    Word,
    Quote,
}

/// The tokens that are left, seen as their list.
#[derive(Drop)]
pub struct Reader<'a> {
    scanner: Scanner<'a>,
}

impl<'a> Model for Reader<'a> {
    ghost use Rattle.std.specs.Prelude.{List};
    ghost use Rattle.mintc_sdf_tokens.specs.Tokens.{Token};

    ghost Value = { List Token };

    ghost view = { λ r. r.scanner.tokens };
}

impl<'a> Reader<'a> {
    /// All tokens of a text.
    pub fn new(text: &'a [u8]) -> Reader<'a>
        ensures { result ≡ tokens_of text.now }
    {
        Reader {
            scanner: Scanner::new(text),
        }
    }

    /// What comes next.
    pub fn mark(&self) -> TokenKind
        ensures { result ≡ mark_of self.now }
    {
        self.scanner.mark()
    }

    /// Passes an opening parenthesis, if it comes next.
    pub fn open(&mut self) -> bool
        ensures { MatchBool result (after_opening self.old ≡ Some self.new) ((after_opening self.old ≡ None)
            × (self.new ≡ self.old)) }
    {
        self.scanner.open()
    }

    /// Passes a closing parenthesis, if it comes next.
    pub fn close(&mut self) -> bool
        ensures { MatchBool result (after_closing self.old ≡ Some self.new) ((after_closing self.old ≡ None)
            × (self.new ≡ self.old)) }
    {
        self.scanner.close()
    }

    /// Passes a word, if it comes next.
    pub fn word(&mut self) -> Option<&'a [u8]>
        ensures none { IfNone result ((word_at self.old ≡ None) × (self.new ≡ self.old)) }
        ensures some { IfSome result (λ w. word_at self.old ≡ Some (w.now, self.new)) }
        ensures full { IfSome result (λ w. 0 < length w.now) }
    {
        self.scanner.word()
    }

    /// Passes a string, if it comes next.
    pub fn string(&mut self) -> Option<&'a [u8]>
        ensures none { IfNone result ((string_at self.old ≡ None) × (self.new ≡ self.old)) }
        ensures some { IfSome result (λ s. string_at self.old ≡ Some (s.now, self.new)) }
    {
        self.scanner.string()
    }

    /// Passes one token and gives its mark. At the end, and at a string that isn't closed, nothing is passed.
    pub(crate) fn step(&mut self) -> TokenKind
        ensures kind { result ≡ (stepped self.old).0 }
        ensures rest { self.new ≡ (stepped self.old).1 }
    {
        self.scanner.step()
    }

    /// Passes what is left of the list that is open, and the parenthesis that closes it. False of a list that isn't
    /// closed.
    pub fn pass(&mut self) -> bool
        ensures { MatchBool result (after_closing (after self.old) ≡ Some self.new) (after_closing (after self.old)
            ≡ None) }
    {
        self.scanner.pass().is_some()
    }

    /// How many bytes are left, and no more tokens than that.
    pub(crate) fn bytes_left(&self) -> usize
        ensures { length self.now ≤ result }
    {
        self.scanner.bytes_left()
    }

    /// Another reader of the same tokens.
    pub(crate) fn copy(&self) -> Reader<'a>
        ensures { result ≡ self.now }
    {
        Reader {
            scanner: self.scanner.copy(),
        }
    }
}
