//! Reading a text line by line.
ghost use Rattle.std.specs.Prelude.{◌≡◌, ◌++◌, ◌≤◌, [], ℕ, ℤ, pos, negsuc, ◌≤ℤ◌, List, true, Option, MatchOption};
ghost use Rattle.std.specs.Prelude.{IfSome, IfNone};
ghost use Rattle.mintc_text.specs.Lines.{ended, words};
ghost use Rattle.mintc_timing_text.specs.Fields.{plain, plain_line, IsWordLine, IsNumberLine, IsCountLine, IsNameLine};
ghost use Rattle.mintc_timing_text.specs.Reading.{HasNone, HasRead, number_after};
ghost use Rattle.mintc_timing_text.specs.Texts.{IsPhaseLine};

use crate::Fields;
use mintc_text::Cursor;
use mintc_text::limits::MOST_NUMERATOR;
use std::marker::Model;

/// A text from some line on, and the number of the line that was asked for last, counted from 1.
#[derive(Drop)]
pub struct Reader<'a> {
    text: Cursor<'a>,
    number: u32,
}

impl<'a> Model for Reader<'a> {
    ghost use Rattle.mintc_timing_text.specs.Reading.{Reading};

    ghost Value = { Reading };

    ghost view = { λ r. record { left = r.text; number = r.number } };
}

impl<'a> Reader<'a> {
    /// A reader at the first line of a text.
    pub fn new(text: &'a [u8]) -> Reader<'a>
        ensures left { result.left ≡ text.now }
        ensures number { result.number ≡ 0 }
    {
        Reader {
            text: Cursor::new(text),
            number: 0,
        }
    }

    /// The number of the line that was asked for last, 0 before the first.
    pub fn number(&self) -> u32
        ensures { result ≡ self.now.number }
    {
        self.number
    }

    /// Asks for one line more. Some where the text has no byte left.
    pub fn end(&mut self) -> Option<()>
        ensures read { MatchOption result (self.old.left ≡ [] → ⊥) (λ _. self.old.left ≡ []) }
        ensures counted { self.new.number ≡ number_after self.old.number }
    {
        self.number = self.number.saturating_add(1);
        if self.text.rest().is_empty() {
            Some(())
        } else {
            None
        }
    }

    /// The words of the next line, which is passed. None where the text has no whole line left.
    #[tactic(auto, using(crate::proofs::SharedFieldsLaws::words_fields))]
    pub fn fields(&mut self) -> Option<Fields<'a>>
        ensures whole { IfSome result (λ fields. self.old.left ≡ ended (words fields) ++ self.new.left) }
        ensures only { IfSome result (λ fields. (ws : List (List ℕ)) (more : List ℕ) → plain_line ws ≡ true →
            self.old.left ≡ ended (words ws) ++ more → fields ≡ ws) }
        ensures none { IfNone result ((ws : List (List ℕ)) (more : List ℕ) → plain_line ws ≡ true →
            self.old.left ≡ ended (words ws) ++ more → ⊥) }
        ensures counted { self.new.number ≡ number_after self.old.number }
    {
        self.number = self.number.saturating_add(1);
        let line = self.text.line()?;
        Some(Fields::new(line))
    }

    /// Reads a line of this word alone.
    pub fn word_line(&mut self, word: &[u8]) -> Option<()>
        requires { plain word.now ≡ true }
        ensures read { MatchOption result (HasNone (IsWordLine word.now) self.old.left)
            (λ _. HasRead (IsWordLine word.now) self.old.left tt self.new.left) }
        ensures counted { self.new.number ≡ number_after self.old.number }
    {
        let fields = self.fields()?;
        word_of(fields, word)
    }

    /// Reads a line of this word and a canonical numeral from `least` to `most`.
    pub fn number_line(&mut self, word: &[u8], least: i64, most: i64) -> Option<i64>
        requires plain { plain word.now ≡ true }
        requires least { negsuc 999999999999999998 ≤ℤ least }
        requires most { most ≤ℤ pos 999999999999999999 }
        ensures read { MatchOption result (HasNone (IsNumberLine word.now least most) self.old.left)
            (λ z. HasRead (IsNumberLine word.now least most) self.old.left z self.new.left) }
        ensures counted { self.new.number ≡ number_after self.old.number }
    {
        let fields = self.fields()?;
        number_of(fields, word, least, most)
    }

    /// Reads a line of this word and a canonical numeral from `least` to `most`, of which none is below 0.
    #[tactic(auto, using(crate::proofs::SharedFieldsLaws::seen))]
    pub fn count_line(&mut self, word: &[u8], least: u32, most: u32) -> Option<u32>
        requires { plain word.now ≡ true }
        ensures read { MatchOption result (HasNone (IsCountLine word.now least most) self.old.left)
            (λ n. HasRead (IsCountLine word.now least most) self.old.left n self.new.left) }
        ensures counted { self.new.number ≡ number_after self.old.number }
    {
        let fields = self.fields()?;
        count_of(fields, word, least, most)
    }

    /// Reads a line of this word and a name of 1 to 1,000 bytes from 33 to 126.
    #[tactic(auto, using(crate::proofs::SharedFieldsLaws::seen))]
    pub fn name_line(&mut self, word: &[u8]) -> Option<&'a [u8]>
        requires { plain word.now ≡ true }
        ensures read { MatchOption result (HasNone (IsNameLine word.now) self.old.left)
            (λ name. HasRead (IsNameLine word.now) self.old.left name.now self.new.left) }
        ensures counted { self.new.number ≡ number_after self.old.number }
    {
        let fields = self.fields()?;
        name_of(fields, word)
    }

    /// Reads a line `phase START WIDTH`: the start and the width of a phase, numerators over the schedule's
    /// denominator. None where the next line is no such line, or where a numeral is not canonical or not from 0 to
    /// 100,000,000,000,000.
    #[tactic(auto, using(crate::proofs::SharedFieldsLaws::seen))]
    pub fn phase_line(&mut self) -> Option<(i64, i64)>
        ensures read { MatchOption result (HasNone IsPhaseLine self.old.left)
            (λ p. HasRead IsPhaseLine self.old.left (p.0, p.1) self.new.left) }
        ensures counted { self.new.number ≡ number_after self.old.number }
    {
        let fields = self.fields()?;
        phase_of(fields)
    }
}

/// Passes the words of a line that is this word alone.
fn word_of(mut fields: Fields, word: &[u8]) -> Option<()>
    ensures { MatchOption result ((u : Unit {0}) → IsWordLine word.now u fields.entry →
        ⊥) (λ _. IsWordLine word.now tt fields.entry) }
{
    fields.expect_word(word)?;
    fields.end()
}

/// The number of a line of this word and a canonical numeral.
fn number_of(mut fields: Fields, word: &[u8], least: i64, most: i64) -> Option<i64>
    ensures { MatchOption result ((z : ℤ) → IsNumberLine word.now least most z fields.entry →
        ⊥) (λ z. IsNumberLine word.now least most z fields.entry) }
{
    fields.expect_word(word)?;
    let number = fields.number(least, most)?;
    fields.end()?;
    Some(number)
}

/// The count of a line of this word and a count.
fn count_of(mut fields: Fields, word: &[u8], least: u32, most: u32) -> Option<u32>
    ensures { MatchOption result ((n : ℕ) → IsCountLine word.now least most n fields.entry →
        ⊥) (λ n. IsCountLine word.now least most n fields.entry) }
{
    fields.expect_word(word)?;
    let count = fields.count(least, most)?;
    fields.end()?;
    Some(count)
}

/// The name of a line of this word and a name.
fn name_of<'a>(mut fields: Fields<'a>, word: &[u8]) -> Option<&'a [u8]>
    ensures { MatchOption result ((name : List ℕ) → IsNameLine word.now name fields.entry →
        ⊥) (λ name. IsNameLine word.now name.now fields.entry) }
{
    fields.expect_word(word)?;
    let name = fields.name()?;
    fields.end()?;
    Some(name)
}

/// The start and the width of a phase, from the words of its line.
fn phase_of(mut fields: Fields) -> Option<(i64, i64)>
    ensures { MatchOption result ((p : ℤ × ℤ) → IsPhaseLine p fields.entry →
        ⊥) (λ p. IsPhaseLine (p.0, p.1) fields.entry) }
{
    fields.expect_word(b"phase")?;
    let start = fields.number(0, MOST_NUMERATOR)?;
    let width = fields.number(0, MOST_NUMERATOR)?;
    fields.end()?;
    Some((start, width))
}
