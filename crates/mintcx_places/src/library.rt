//! Statements of a Liberty library.
ghost use Rattle.std.specs.Prelude.{◌≡◌, ◌≤◌, ◌<◌, ◌+◌, Some, None, IfNone, IfSome, MatchBool, drop, length};
ghost use Rattle.std.specs.Option.{option_and_then};
ghost use Rattle.mintc_liberty_tokens.specs.Tokens.{tokens_of};
ghost use Rattle.mintc_liberty_tokens.specs.Scans.{IsAhead};
ghost use Rattle.mintcx_places.specs.Library.{HasNoLibraryStatement, IsLibraryStatement, behind_head, behind_name};
ghost use Rattle.mintcx_places.specs.Library.{EndsStatement, behind_statements, left_behind};
ghost use Rattle.mintcx_places.specs.Library.{more};

use crate::lines::Range;
use mintc_liberty_tokens::{Kind, Scanner, statements};

/// How deep groups nest in the library, which is the first of 64.
const MOST_OPEN: u32 = 63;

/// Passes `( item ) {`.
fn pass_name(scanner: &mut Scanner<'_>) -> bool
    ensures passed { MatchBool result (behind_name scanner.old.tokens ≡ Some scanner.new.tokens)
        (behind_name scanner.old.tokens ≡ None) }
    ensures same { scanner.new.text ≡ scanner.old.text }
{
    if !statements::eat_sign(scanner, Kind::Opening) {
        return false;
    }
    if !statements::item(scanner) {
        return false;
    }
    if !statements::eat_sign(scanner, Kind::Closing) {
        return false;
    }
    statements::eat_sign(scanner, Kind::Left)
}

/// Passes `WORD ( item ) {`, with which a library begins.
fn pass_head(scanner: &mut Scanner<'_>) -> bool
    ensures passed { MatchBool result (behind_head scanner.old.tokens ≡ Some scanner.new.tokens)
        (behind_head scanner.old.tokens ≡ None) }
    ensures same { scanner.new.text ≡ scanner.old.text }
{
    scanner.word().is_some() && pass_name(scanner)
}

/// Passes so many statements.
fn pass_statements(scanner: &mut Scanner<'_>, count: u32) -> bool
    ensures passed { MatchBool result (behind_statements count scanner.old.tokens ≡ Some scanner.new.tokens)
        (behind_statements count scanner.old.tokens ≡ None) }
    ensures same { scanner.new.text ≡ scanner.old.text }
{
    for _passed in 0..count {
        if !statements::statement(scanner, MOST_OPEN) {
            return false;
        }
    }
    true
}

/// A scanner behind so many statements of a text's library. None where there are fewer.
fn scanner_behind(text: &[u8], count: u32) -> Option<Scanner<'_>>
    ensures some { IfSome result (λ scanner. left_behind text.now count ≡ Some scanner.tokens) }
    ensures text { IfSome result (λ scanner. scanner.text ≡ text.now) }
    ensures none { IfNone result (left_behind text.now count ≡ None) }
{
    let mut scanner = Scanner::new(text);
    if pass_head(&mut scanner) && pass_statements(&mut scanner, count) {
        Some(scanner)
    } else {
        None
    }
}

/// Whether a statement may come next: a token does that doesn't close the library.
fn has_more(scanner: &Scanner<'_>) -> bool
    ensures { MatchBool result (more scanner.now.tokens ≡ Some scanner.now.tokens) (more scanner.now.tokens ≡ None) }
{
    !matches!(scanner.kind(), Kind::End | Kind::Right)
}

/// The bytes of the statement that comes next, up to the token behind it, or to the end where it is out of form.
fn next_range(text: &[u8], begun: Scanner<'_>) -> Range
    requires { begun.text ≡ text.now }
    ensures from { tokens_of (drop result.from text.now) ≡ begun.entry.tokens }
    ensures to { EndsStatement text.now begun.entry.tokens result }
    ensures order { result.from ≤ result.to }
    ensures within { result.to ≤ length text.now }
{
    let mut scanner = begun;
    let from = scanner.place();
    if statements::statement(&mut scanner, MOST_OPEN) {
        return Range {
            from,
            to: scanner.place(),
        };
    }
    Range {
        from,
        to: text.len(),
    }
}

/// The bytes of a statement, by its number.
fn range_of(text: &[u8], number: u32) -> Option<Range>
    requires { 0 < number }
    ensures statement { IfSome result (IsLibraryStatement text.now number) }
    ensures within { IfSome result (λ range. (range.from ≤ range.to) × (range.to ≤ length text.now)) }
    ensures none { IfNone result (HasNoLibraryStatement text.now number) }
{
    match scanner_behind(text, number - 1) {
        Some(scanner) if has_more(&scanner) => Some(next_range(text, scanner)),
        _ => None,
    }
}

/// The bytes of a statement directly in a Liberty library, from its first token to the one behind it, by its number
/// from 1 on as the library's reader counts. None where there are fewer. A statement that is out of form is there too,
/// goes on to the end of the text, and ends the count.
pub fn library_statement_range(text: &[u8], number: u32) -> Option<Range>
    ensures statement { IfSome result (IsLibraryStatement text.now number) }
    ensures within { IfSome result (λ range. (range.from ≤ range.to) × (range.to ≤ length text.now)) }
    ensures none { IfNone result (HasNoLibraryStatement text.now number) }
{
    if number == 0 {
        return None;
    }
    range_of(text, number)
}
