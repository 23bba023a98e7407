//! The tokens of a statement that are left, read from the text one by one.
ghost use Rattle.std.specs.Prelude.{◌≡◌, ◌≤◌, ◌<◌, List, Some, None, [], IsSome, IfSome, IfNone, IfOk, MatchBool, drop};
ghost use Rattle.std.specs.Prelude.{length, map, codes, ◌||◌};
ghost use Rattle.mintc_verilog_expressions.specs.Left.{left_of, behind};
ghost use Rattle.mintc_verilog_expressions.specs.Lexemes.{lexeme_of, lexeme_by, lexemes_at};
ghost use Rattle.mintc_verilog_expressions.specs.Reading.{eat, IsOtherThan, IsNoNumber, sign_lexeme, number_lexeme};
ghost use Rattle.mintc_verilog_expressions.specs.Reading.{number_at, select_or_net, name_at, name_lexeme, IsNoName};
ghost use Rattle.mintc_verilog_expressions.specs.Reading.{width_at, width_lexeme, IsNoWidth, plain_at};
ghost use Rattle.mintc_verilog_expressions.specs.Keys.{direction_at, eat_key, is_key};
ghost use Rattle.mintc_vlex.specs.declared.token_list.TokenKind.TheVariants as kind;
ghost use Rattle.mintc_verilog_expressions.specs.declared.reader.Ahead.{Ahead};
ghost use Rattle.mintc_vlex.specs.Tokens.{LiesWithin};

use crate::numbers::{digit_count, value_within};
use crate::words::is_reserved;
use mintc_netlist::Piece;
use mintc_text::limits::MOST_WIDTH;
use mintc_text::{Name, OutOfMemory};
use mintc_vlex::{Token, TokenKind, is_endmodule, is_semicolon, next_token};
use std::alloc::Global;
use std::marker::Model;

/// The token that comes next, and whether it is the last of its statement.
#[derive(Clone, Copy)]
pub struct Ahead {
    pub token: Token,
    pub last: bool,
}

/// The tokens of a statement that are left, seen as their lexemes.
#[derive(Drop)]
pub struct Reader<'a> {
    text: &'a [u8],
    next: Option<Ahead>,
}

impl<'a> Model for Reader<'a> {
    ghost use Rattle.std.specs.Prelude.{List, map, IfSome, length};
    ghost use Rattle.mintc_verilog_expressions.specs.declared.reader.Ahead.{Ahead};
    ghost use Rattle.mintc_verilog_expressions.specs.Left.{left_of};
    ghost use Rattle.mintc_verilog_expressions.specs.Lexemes.{Lexeme, lexeme_of};
    ghost use Rattle.mintc_vlex.specs.Tokens.{LiesWithin};

    ghost Value = { List Lexeme };

    ghost view = { λ r. map (lexeme_of r.text.now) (left_of r.text.now r.next) };

    ghost invariant = { λ r. IfSome r.next (λ (a : Ahead). LiesWithin (length r.text.now) a.token) };
}

/// What comes next in a statement behind a token.
fn following(text: &[u8], ahead: &Ahead) -> Option<Ahead>
    ensures value { left_of text.now result ≡ behind text.now ahead.now }
    ensures within { IfSome result (λ (a : Ahead). LiesWithin (length text.now) a.token) }
{
    if ahead.last {
        return None;
    }
    let token = next_token(text, ahead.token.to)?;
    Some(Ahead {
        token,
        last: is_semicolon(text, &token),
    })
}

impl<'a> Reader<'a> {
    /// All of the statement that a token of a text begins.
    pub fn new(text: &'a [u8], first: Token) -> Reader<'a>
        requires { LiesWithin (length text.now) first }
        ensures { result ≡ lexemes_at text.now first }
    {
        let last = is_endmodule(text, &first) || is_semicolon(text, &first);
        Reader {
            text,
            next: Some(Ahead { token: first, last }),
        }
    }

    /// Whether a sign comes next.
    pub fn is_next(&self, sign: u8) -> bool
        ensures { MatchBool result (IsSome (eat sign self.now)) (eat sign self.now ≡ None) }
    {
        match self.next {
            Some(ahead) => is_sign(self.text, &ahead.token, sign),
            None => false,
        }
    }

    /// Whether a direction comes next.
    pub fn is_direction_next(&self) -> bool
        ensures { MatchBool result (IsSome (direction_at self.now)) (direction_at self.now ≡ None) }
    {
        match self.next {
            Some(ahead) => is_direction(self.text, &ahead.token),
            None => false,
        }
    }

    /// Passes a reserved word, if it comes next.
    pub fn key(&mut self, word: &[u8]) -> bool
        ensures { MatchBool result (eat_key word.now self.old ≡ Some self.new) ((eat_key word.now self.old ≡ None)
            × (self.new ≡ self.old)) }
    {
        let Some(ahead) = self.next else {
            return false;
        };
        if !is_key(self.text, &ahead.token, word) {
            return false;
        }
        self.next = following(self.text, &ahead);
        true
    }

    /// Whether nothing is left.
    pub fn is_done(&self) -> bool
        ensures { MatchBool result (self.now ≡ []) (0 < length self.now) }
    {
        self.next.is_none()
    }

    /// Passes a sign, if it comes next.
    pub fn eat(&mut self, sign: u8) -> bool
        ensures { MatchBool result (eat sign self.old ≡ Some self.new) ((eat sign self.old ≡ None)
            × (self.new ≡ self.old)) }
    {
        let Some(ahead) = self.next else {
            return false;
        };
        if !is_sign(self.text, &ahead.token, sign) {
            return false;
        }
        self.next = following(self.text, &ahead);
        true
    }

    /// Passes a number of at most 65,535, if it comes next.
    pub fn number(&mut self) -> Option<u32>
        ensures none { IfNone result ((number_at self.old ≡ None) × (self.new ≡ self.old)) }
        ensures some { IfSome result (λ n. number_at self.old ≡ Some (n, self.new)) }
    {
        let ahead = self.next?;
        let value = number_of(self.text, &ahead.token)?;
        self.next = following(self.text, &ahead);
        Some(value)
    }

    /// Passes a name, if it comes next.
    pub fn name(&mut self) -> Option<&'a [u8]>
        ensures none { IfNone result ((name_at self.old ≡ None) × (self.new ≡ self.old)) }
        ensures some { IfSome result (λ n. name_at self.old ≡ Some (n.now, self.new)) }
    {
        let ahead = self.next?;
        let name = name_of(self.text, &ahead.token)?;
        self.next = following(self.text, &ahead);
        Some(name)
    }

    /// Passes a constant, if it comes next.
    pub fn width(&mut self) -> Option<u32>
        ensures none { IfNone result ((width_at self.old ≡ None) × (self.new ≡ self.old)) }
        ensures some { IfSome result (λ w. width_at self.old ≡ Some (w, self.new)) }
    {
        let ahead = self.next?;
        let width = width_of(self.text, &ahead.token)?;
        self.next = following(self.text, &ahead);
        Some(width)
    }

    /// Passes an expression without braces, if one comes next.
    pub fn plain(&mut self, alloc: Global) -> Result<Option<Piece>, OutOfMemory>
        ensures none { IfOk result (λ o. IfNone o (plain_at self.old ≡ None)) }
        ensures some { IfOk result (λ o. IfSome o (λ p. plain_at self.old ≡ Some (p, self.new))) }
    {
        if let Some(width) = self.width() {
            return Ok(Some(Piece::Constant { width }));
        }
        match self.name() {
            None => Ok(None),
            Some(name) => {
                let name = Name::new(alloc, name)?;
                Ok(self.select(name))
            }
        }
    }

    /// What a name begins: the net, one bit of it, or some. None where a range has no form.
    pub fn select(&mut self, name: Name) -> Option<Piece>
        ensures none { IfNone result (select_or_net name self.old (eat 91 self.old) ≡ None) }
        ensures some { IfSome result (λ p. select_or_net name self.old (eat 91 self.old) ≡ Some (p, self.new)) }
    {
        if !self.eat(b'[') {
            return Some(Piece::Net { name });
        }
        let msb = self.number()?;
        if self.eat(b']') {
            return Some(Piece::Bit { name, at: msb });
        }
        if !self.eat(b':') {
            return None;
        }
        let lsb = self.number()?;
        if !self.eat(b']') {
            return None;
        }
        Some(Piece::Part { name, msb, lsb })
    }
}

/// Whether a token is a direction.
fn is_direction(text: &[u8], token: &Token) -> bool
    requires order { token.now.from < token.now.to }
    requires within { token.now.to ≤ length text.now }
    ensures { result ≡ (is_key (codes "output") (lexeme_of text.now token.now)
        || is_key (codes "input") (lexeme_of text.now token.now)) }
{
    is_key(text, token, b"output") || is_key(text, token, b"input")
}

/// Whether a token is this reserved word.
fn is_key(text: &[u8], token: &Token, word: &[u8]) -> bool
    requires order { token.now.from < token.now.to }
    requires within { token.now.to ≤ length text.now }
    ensures { result ≡ is_key word.now (lexeme_of text.now token.now) }
{
    match token.kind {
        TokenKind::Word => {
            let bytes = &text[token.from..token.to];
            bytes == word && is_reserved(bytes)
        }
        _ => false,
    }
}

/// Whether a token is this sign.
fn is_sign(text: &[u8], token: &Token, sign: u8) -> bool
    requires order { token.now.from < token.now.to }
    requires within { token.now.to ≤ length text.now }
    ensures { MatchBool result (lexeme_of text.now token.now ≡ sign_lexeme sign)
        (IsOtherThan sign (lexeme_of text.now token.now)) }
{
    matches!(token.kind, TokenKind::Sign) && text[token.from] == sign
}

/// The number that a token is.
fn number_of(text: &[u8], token: &Token) -> Option<u32>
    requires order { token.now.from < token.now.to }
    requires within { token.now.to ≤ length text.now }
    ensures none { IfNone result (IsNoNumber (lexeme_of text.now token.now)) }
    ensures some { IfSome result (λ n. lexeme_of text.now token.now ≡ number_lexeme n) }
{
    match token.kind {
        TokenKind::Digits => value_within(&text[token.from..token.to], 65535),
        _ => None,
    }
}

/// The name that a token is.
fn name_of<'a>(text: &'a [u8], token: &Token) -> Option<&'a [u8]>
    requires order { token.now.from < token.now.to }
    requires within { token.now.to ≤ length text.now }
    ensures none { IfNone result (IsNoName (lexeme_of text.now token.now)) }
    ensures some { IfSome result (λ n. lexeme_of text.now token.now ≡ name_lexeme n.now) }
{
    match token.kind {
        TokenKind::Word => {
            let word = &text[token.from..token.to];
            if is_reserved(word) { None } else { Some(word) }
        }
        TokenKind::Escaped => Some(tail(&text[token.from..token.to])),
        _ => None,
    }
}

/// The bytes behind the first.
fn tail(bytes: &[u8]) -> &[u8]
    requires { 0 < length bytes.now }
    ensures { result.now ≡ drop 1 bytes.now }
{
    &bytes[1..]
}

/// How many bits the constant has that a token is, from 1 to 65,536.
fn width_of(text: &[u8], token: &Token) -> Option<u32>
    requires order { token.now.from < token.now.to }
    requires within { token.now.to ≤ length text.now }
    ensures none { IfNone result (IsNoWidth (lexeme_of text.now token.now)) }
    ensures some { IfSome result (λ n. lexeme_of text.now token.now ≡ width_lexeme n) }
{
    match token.kind {
        TokenKind::Constant => constant_width(&text[token.from..token.to]),
        _ => None,
    }
}

/// The number in front of a constant's `'`, where it is from 1 to 65,536.
fn constant_width(bytes: &[u8]) -> Option<u32>
    ensures none { IfNone result (IsNoWidth (lexeme_by kind.Constant bytes.now)) }
    ensures some { IfSome result (λ n. lexeme_by kind.Constant bytes.now ≡ width_lexeme n) }
{
    let width = value_within(&bytes[..digit_count(bytes)], MOST_WIDTH as u32)?;
    if width == 0 { None } else { Some(width) }
}
