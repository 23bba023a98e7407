//! Entries of delays.
ghost use Rattle.std.specs.Prelude.{◌≡◌, ◌≤◌, ◌<◌, Some, None, IfNone, IfSome, MatchBool, length};
ghost use Rattle.mintc_sdf_tokens.specs.Reading.{after_opening};
ghost use Rattle.mintc_sdf_tokens.specs.Tokens.{tokens_of};
ghost use Rattle.mintc_sdf_tokens.specs.Scans.{IsAhead};
ghost use Rattle.mintcx_places.specs.Entries.{HasNoEntry, IsEntry, IsList, behind_entries, behind_entry};
ghost use Rattle.mintcx_places.specs.Entries.{behind_head, left_behind};

use crate::lines::{Range, rest_of_line};
use mintc_sdf_tokens::Scanner;

/// Passes the parenthesis and the word that delays begin with.
fn pass_head(scanner: &mut Scanner<'_>) -> bool
    ensures passed { MatchBool result (behind_head scanner.old.tokens ≡ Some scanner.new.tokens)
        (behind_head scanner.old.tokens ≡ None) }
    ensures ahead { IsAhead scanner.old scanner.new }
{
    scanner.open() && scanner.word().is_some()
}

/// Passes an entry.
fn pass_entry(scanner: &mut Scanner<'_>) -> bool
    ensures passed { MatchBool result (behind_entry scanner.old.tokens ≡ Some scanner.new.tokens)
        (behind_entry scanner.old.tokens ≡ None) }
    ensures ahead { IsAhead scanner.old scanner.new }
{
    scanner.open() && scanner.pass().is_some()
}

/// Passes so many entries.
fn pass_entries(scanner: &mut Scanner<'_>, count: u32) -> bool
    ensures passed { MatchBool result (behind_entries count scanner.old.tokens ≡ Some scanner.new.tokens)
        (behind_entries count scanner.old.tokens ≡ None) }
    ensures ahead { IsAhead scanner.old scanner.new }
{
    for _passed in 0..count {
        if !pass_entry(scanner) {
            return false;
        }
    }
    true
}

/// A scanner behind so many entries of a text. None where there are fewer.
fn scanner_behind(text: &[u8], count: u32) -> Option<Scanner<'_>>
    ensures some { IfSome result (λ scanner. left_behind text.now count ≡ Some scanner.tokens) }
    ensures text { IfSome result (λ scanner. scanner.text ≡ text.now) }
    ensures none { IfNone result (left_behind text.now count ≡ None) }
{
    let mut scanner = Scanner::new(text);
    if pass_head(&mut scanner) && pass_entries(&mut scanner, count) {
        Some(scanner)
    } else {
        None
    }
}

/// The bytes of the list in parentheses that comes next.
fn list_range(text: &[u8], scanner: &mut Scanner<'_>) -> Option<Range>
    requires { scanner.old.text ≡ text.now }
    ensures list { IfSome result (IsList text.now scanner.old.tokens) }
    ensures within { IfSome result (λ range. (range.from ≤ range.to) × (range.to ≤ length text.now)) }
    ensures none { IfNone result (after_opening scanner.old.tokens ≡ None) }
{
    let from = scanner.place();
    if !scanner.open() {
        return None;
    }
    match scanner.pass() {
        Some(end) => Some(Range { from, to: end + 1 }),
        None => Some(rest_of_line(text, from)),
    }
}

/// The bytes of the list that delays are, from its parenthesis to the one that closes it, or to the end of its first
/// line where it isn't closed. None where a text begins with another token.
pub fn delays_range(text: &[u8]) -> Option<Range>
    ensures list { IfSome result (IsList text.now (tokens_of text.now)) }
    ensures within { IfSome result (λ range. (range.from ≤ range.to) × (range.to ≤ length text.now)) }
    ensures none { IfNone result (after_opening (tokens_of text.now) ≡ None) }
{
    let mut scanner = Scanner::new(text);
    list_range(text, &mut scanner)
}

/// The bytes of an entry, by its number.
fn range_of(text: &[u8], number: u32) -> Option<Range>
    requires { 0 < number }
    ensures entry { IfSome result (IsEntry text.now number) }
    ensures within { IfSome result (λ range. (range.from ≤ range.to) × (range.to ≤ length text.now)) }
    ensures none { IfNone result (HasNoEntry text.now number) }
{
    match scanner_behind(text, number - 1) {
        Some(mut scanner) => list_range(text, &mut scanner),
        None => None,
    }
}

/// The bytes of an entry of delays, from its parenthesis to the one that closes it, or to the end of its first line
/// where it isn't closed, by its number from 1 on as the reader of delays counts: headers and cells alike. None where
/// there are fewer.
pub fn entry_range(text: &[u8], number: u32) -> Option<Range>
    ensures entry { IfSome result (IsEntry text.now number) }
    ensures within { IfSome result (λ range. (range.from ≤ range.to) × (range.to ≤ length text.now)) }
    ensures none { IfNone result (HasNoEntry text.now number) }
{
    if number == 0 {
        return None;
    }
    range_of(text, number)
}
