//! The tokens that are left of a text, read one by one.
ghost use Rattle.std.specs.Prelude.{◌≡◌, ◌∷◌, true, Some, None, IfSome, IfNone, MatchBool, List, ℕ};
ghost use Rattle.mintc_liberty_tokens.specs.Tokens.{Token, is_item, tokens_of};
ghost use Rattle.mintc_liberty_tokens.specs.Statements.{past_semicolon};
ghost use Rattle.mintc_liberty_tokens.specs.Reading.{kind_of, token_of, is_sign_kind, word_at, string_at, past};
ghost use Rattle.mintc_liberty_tokens.specs.Reading.{value_at, items_rest, statement_rest};

use crate::scanner::Scanner;
use crate::statements;
use std::marker::Model;

/// The kind of a token, or the end.
#[derive(Clone, Copy, PartialEq, Eq)]
pub enum Kind {
    Opening,
    Closing,
    Left,
    Right,
    Colon,
    Semicolon,
    Comma,
    Word,
    Text,
    End,
}

/// The tokens that are left, seen as their list.
#[derive(Drop)]
pub struct Reader<'a> {
    scanner: Scanner<'a>,
}

impl<'a> Model for Reader<'a> {
    ghost use Rattle.std.specs.Prelude.{List};
    ghost use Rattle.mintc_liberty_tokens.specs.Tokens.{Token};

    ghost Value = { List Token };

    ghost view = { λ r. r.scanner.tokens };
}

impl<'a> Reader<'a> {
    /// All tokens of a text.
    pub fn new(text: &'a [u8]) -> Reader<'a>
        ensures { result ≡ tokens_of text.now }
    {
        Reader {
            scanner: Scanner::new(text),
        }
    }

    /// The tokens from a scanner's place on.
    pub fn at(scanner: &Scanner<'a>) -> Reader<'a>
        ensures { result ≡ scanner.now.tokens }
    {
        Reader {
            scanner: scanner.copy(),
        }
    }

    /// The kind of what comes next.
    pub fn kind(&self) -> Kind
        ensures { result ≡ kind_of self.now }
    {
        self.scanner.kind()
    }

    /// Passes a word, if it comes next.
    pub fn word(&mut self) -> Option<&'a [u8]>
        ensures none { IfNone result ((word_at self.old ≡ None) × (self.new ≡ self.old)) }
        ensures some { IfSome result (λ w. word_at self.old ≡ Some (w.now, self.new)) }
    {
        self.scanner.word()
    }

    /// Passes a string, if it comes next.
    pub fn string(&mut self) -> Option<&'a [u8]>
        ensures none { IfNone result ((string_at self.old ≡ None) × (self.new ≡ self.old)) }
        ensures some { IfSome result (λ s. string_at self.old ≡ Some (s.now, self.new)) }
    {
        self.scanner.string()
    }

    /// Passes the sign that comes next, which is of this kind.
    pub fn sign(&mut self, kind: Kind)
        requires next { kind ≡ kind_of self.old }
        requires sign { is_sign_kind kind ≡ true }
        ensures { (w : List ℕ) → self.old ≡ token_of kind w ∷ self.new }
    {
        self.scanner.sign(kind);
    }

    /// The same place once more.
    pub fn copy(&self) -> Reader<'a>
        ensures { result ≡ self.now }
    {
        Reader {
            scanner: self.scanner.copy(),
        }
    }
}

/// Passes a sign of this kind, if it comes next.
pub fn eat_sign(reader: &mut Reader, kind: Kind) -> bool
    requires { is_sign_kind kind ≡ true }
    ensures { MatchBool result ((w : List ℕ) → reader.old ≡ token_of kind w ∷ reader.new)
        ((kind ≡ kind_of reader.old → ⊥) × (reader.new ≡ reader.old)) }
{
    statements::eat_sign(&mut reader.scanner, kind)
}

/// Passes a token of a value, if one comes next, and gives what it stands for.
pub fn value_token<'a>(reader: &mut Reader<'a>) -> Option<&'a [u8]>
    ensures none { IfNone result ((value_at reader.old ≡ None) × (reader.new ≡ reader.old)) }
    ensures some { IfSome result (λ bytes. value_at reader.old ≡ Some (bytes.now, reader.new)) }
{
    statements::value_token(&mut reader.scanner)
}

/// Passes an item, if one comes next.
pub fn item(reader: &mut Reader) -> bool
    ensures { MatchBool result (past is_item reader.old ≡ Some reader.new) ((past is_item reader.old ≡ None)
        × (reader.new ≡ reader.old)) }
{
    statements::item(&mut reader.scanner)
}

/// Behind `WORD (`, passes the items and their parenthesis.
pub fn items(reader: &mut Reader) -> bool
    ensures { MatchBool result (items_rest reader.old ≡ Some reader.new) (items_rest reader.old ≡ None) }
{
    statements::items(&mut reader.scanner)
}

/// Passes a `;`, if it comes next.
pub fn semicolon(reader: &mut Reader)
    ensures { reader.new ≡ past_semicolon reader.old }
{
    statements::semicolon(&mut reader.scanner);
}

/// Passes one statement.
pub fn statement(reader: &mut Reader, room: u32) -> bool
    ensures { MatchBool result (statement_rest room reader.old ≡ Some reader.new) (statement_rest room reader.old
        ≡ None) }
{
    statements::statement(&mut reader.scanner, room)
}
