//! Reading a line by its words.
ghost use Rattle.std.specs.Prelude.{◌≡◌, ◌∷◌, [], ◌≤◌, ◌<◌, ◌≢◌, ℕ, ℤ, List, true, MatchOption, MatchBool, IfSome};
ghost use Rattle.std.specs.Prelude.{IfNone, IsTrue, ◌↔◌, ◌^◌, slice_index, length};
ghost use Rattle.mintc_text.specs.Lines.{numeral_of, IsWithin};
ghost use Rattle.mintc_timing_text.specs.Fields.{IsName, AreDelays, number, fields_of};

use mintc_text::limits::MOST_DELAY;
use mintc_text::{leading_digits, numeral, place_of};
use std::marker::Model;

/// Bytes of a name, which has one at least.
const MOST_NAME: usize = 1_000;

/// The words of a line that are not yet read, seen as their list. One space stands between two words.
#[derive(Drop)]
pub struct Fields<'a> {
    rest: &'a [u8],
    done: bool,
}

impl<'a> Model for Fields<'a> {
    ghost use Rattle.std.specs.Prelude.{ℕ, List};
    ghost use Rattle.mintc_timing_text.specs.Fields.{fields_left};

    ghost Value = { List (List ℕ) };

    ghost view = { λ f. fields_left f.done f.rest.now };
}

/// Whether the digits up to a place are 1 to 17, with no zero before others, and end a word.
fn is_short_number(rest: &[u8], end: usize) -> bool
    requires { end ≤ length rest.now }
    ensures { IsTrue result ↔ ((1 ≤ end) × (end ≤ 17) × (slice_index rest.now 0 ≡ 48 → end ≡ 1)
        × (end < length rest.now → slice_index rest.now end ≡ 32)) }
{
    1 <= end
        && end <= 17
        && (rest[0] != b'0' || end == 1)
        && (end == rest.len() || rest[end] == b' ')
}

/// Whether a word without a space stands at the front of a line.
fn begins_with(rest: &[u8], word: &[u8]) -> bool
    ensures { IsTrue result → (length word.now ≤ length rest.now)
        × ((k : ℕ) → k < length word.now → (slice_index rest.now k ≡ slice_index word.now k)
        × (slice_index rest.now k ≢ 32))
        × (length word.now < length rest.now → slice_index rest.now (length word.now) ≡ 32) }
{
    if rest.len() < word.len() {
        return false;
    }
    for at in 0..word.len() {
        if rest[at] != word[at] || rest[at] == b' ' {
            return false;
        }
    }
    rest.len() == word.len() || rest[word.len()] == b' '
}

/// Whether a word is a name: 1 to 1,000 bytes from 33 to 126.
pub fn is_name(word: &[u8]) -> bool
    ensures { MatchBool result (IsName word.now) (IsName word.now → ⊥) }
{
    if word.is_empty() || word.len() > MOST_NAME {
        return false;
    }
    for byte in word {
        if *byte < b'!' || *byte > b'~' {
            return false;
        }
    }
    true
}

impl<'a> Fields<'a> {
    /// All the words of a line.
    pub fn new(line: &'a [u8]) -> Fields<'a>
        ensures { result ≡ fields_of line.now }
    {
        Fields {
            rest: line,
            done: false,
        }
    }

    /// The next word. None where the last one was read.
    #[tactic(auto, using(crate::proofs::SharedFieldsLaws::cuts))]
    pub fn word(&mut self) -> Option<&'a [u8]>
        ensures { MatchOption result (self.old ≡ []) (λ word. self.old ≡ word.now ∷ self.new) }
    {
        if self.done {
            return None;
        }
        let rest = self.rest;
        let end = place_of(b' ', rest, 0);
        if end == rest.len() {
            self.done = true;
            return Some(rest);
        }
        self.rest = &rest[end + 1..];
        Some(&rest[..end])
    }

    /// The next word as a number that is written in 1 to 17 digits, with no zero before others. Where it gives none,
    /// the word is left.
    fn short_number(&mut self) -> Option<u64>
        ensures some { IfSome result (λ n. (n < 10 ^ 17) × (self.old ≡ number n ∷ self.new)) }
        ensures left { IfNone result (self.new ≡ self.old) }
    {
        if self.done {
            return None;
        }
        let rest = self.rest;
        let (value, end) = leading_digits(rest);
        if !is_short_number(rest, end) {
            return None;
        }
        if end == rest.len() {
            self.done = true;
        } else {
            self.rest = &rest[end + 1..];
        }
        Some(value)
    }
}

impl<'a> Fields<'a> {
    /// Passes this word where it has no space. Where it gives none, the word is left.
    fn pass(&mut self, word: &[u8]) -> Option<()>
        ensures some { IfSome result (λ _. self.old ≡ word.now ∷ self.new) }
        ensures left { IfNone result (self.new ≡ self.old) }
    {
        let rest = self.rest;
        if self.done || !begins_with(rest, word) {
            return None;
        }
        if word.len() == rest.len() {
            self.done = true;
        } else {
            self.rest = &rest[word.len() + 1..];
        }
        Some(())
    }
}

impl<'a> Fields<'a> {
    /// Passes this word. None where another comes, or none.
    pub fn expect_word(&mut self, word: &[u8]) -> Option<()>
        ensures { MatchOption result
            ((more : List (List ℕ)) → self.old ≡ word.now ∷ more → ⊥)
            (λ _. self.old ≡ word.now ∷ self.new) }
    {
        if self.pass(word).is_some() {
            return Some(());
        }
        let found = self.word()?;
        if found == word { Some(()) } else { None }
    }

    /// The next word as a canonical numeral from `least` to `most`. None where none comes.
    pub fn number(&mut self, least: i64, most: i64) -> Option<i64>
        ensures { MatchOption result
            ((z : ℤ) (more : List (List ℕ)) → IsWithin least most z → self.old ≡ numeral_of z ∷ more → ⊥)
            (λ z. IsWithin least most z × (self.old ≡ numeral_of z ∷ self.new)) }
    {
        if let Some(value) = self.short_number() {
            let value = value as i64;
            return if least <= value && value <= most {
                Some(value)
            } else {
                None
            };
        }
        let found = self.word()?;
        numeral(found, least, most)
    }

    /// The next word as a canonical numeral from `least` to `most`, of which none is below 0. None where none comes.
    pub fn count(&mut self, least: u32, most: u32) -> Option<u32>
        ensures { MatchOption result
            ((n : ℕ) (more : List (List ℕ)) → least ≤ n → n ≤ most → self.old ≡ number n ∷ more → ⊥)
            (λ n. (least ≤ n) × (n ≤ most) × (self.old ≡ number n ∷ self.new)) }
    {
        let found = self.number(least as i64, most as i64)?;
        Some(found as u32)
    }

    /// The next word as a name: 1 to 1,000 bytes from 33 to 126. None where none comes.
    pub fn name(&mut self) -> Option<&'a [u8]>
        ensures { MatchOption result
            ((name : List ℕ) (more : List (List ℕ)) → IsName name → self.old ≡ name ∷ more → ⊥)
            (λ name. IsName name.now × (self.old ≡ name.now ∷ self.new)) }
    {
        let found = self.word()?;
        if is_name(found) { Some(found) } else { None }
    }

    /// The next two words as delays from 0 to 10^9 femtoseconds, the first at most the second. None where none come.
    pub fn delays(&mut self) -> Option<(i64, i64)>
        ensures { MatchOption result
            ((low high : ℤ) (more : List (List ℕ)) → AreDelays low high →
            self.old ≡ numeral_of low ∷ numeral_of high ∷ more → ⊥)
            (λ found. AreDelays found.0 found.1 × (self.old ≡ numeral_of found.0 ∷ numeral_of found.1 ∷ self.new)) }
    {
        let low = self.number(0, MOST_DELAY)?;
        let high = self.number(0, MOST_DELAY)?;
        if low <= high { Some((low, high)) } else { None }
    }

    /// Some where no word is left.
    pub fn end(&self) -> Option<()>
        ensures { MatchOption result (self.now ≡ [] → ⊥) (λ _. self.now ≡ []) }
    {
        if self.done { Some(()) } else { None }
    }
}
