//! Statements of a library that are out of form.
ghost use Rattle.std.specs.Prelude.{IfSome};
ghost use Rattle.mintcx_finders.specs.Places.{IsInside};

use crate::found::{Fault, Found, found_inside};
use crate::quoting::trimmed;
use crate::sections::line_at;
use mintc_liberty_tokens::{Kind, Scanner, statements};
use mintcx_places::Range;

/// How deep groups nest in a statement of the library.
const MOST_OPEN: u32 = 63;

/// What a statement of a library lacks.
#[derive(Clone, Copy, Debug, PartialEq, Eq)]
pub enum Lack {
    /// The `;` behind the value of an attribute.
    Semicolon,
    /// The `}` behind the statements of a group.
    Brace,
    /// The form of a statement.
    Form,
}

/// Passes what a group begins with, up to its `{`.
fn pass_head(scanner: &mut Scanner<'_>) -> bool {
    scanner.word().is_some()
        && statements::eat_sign(scanner, Kind::Opening)
        && statements::items(scanner)
        && statements::eat_sign(scanner, Kind::Left)
}

/// Passes the name and the `:` of an attribute.
fn pass_key(scanner: &mut Scanner<'_>) -> bool {
    scanner.word().is_some() && statements::eat_sign(scanner, Kind::Colon)
}

/// Where the first statement from a place on begins that isn't whole.
fn first_broken(scanner: &Scanner<'_>, from: usize, most: usize) -> usize {
    let mut at = from;
    for _statement in 0..most {
        let mut next = scanner.from_place(at);
        if !statements::statement(&mut next, MOST_OPEN) {
            return at;
        }
        at = next.place();
    }
    at
}

/// Where the statement begins that is broken inside of the group at a place. None where it is no group, or where all
/// statements inside of it are whole.
fn broken_inside(scanner: &Scanner<'_>, from: usize, most: usize) -> Option<usize> {
    let mut next = scanner.from_place(from);
    if !pass_head(&mut next) {
        return None;
    }
    let at = first_broken(scanner, next.place(), most);
    let end = scanner.from_place(at);
    if end.kind() == Kind::End {
        None
    } else {
        Some(at)
    }
}

/// Where the innermost statement begins that is broken, of the broken one at a place.
fn innermost(scanner: &Scanner<'_>, from: usize, most: usize) -> usize {
    let mut at = from;
    for _group in 0..MOST_OPEN {
        match broken_inside(scanner, at, most) {
            Some(inside) => at = inside,
            None => return at,
        }
    }
    at
}

/// What the statement at a place lacks.
fn lack_at(scanner: &Scanner<'_>, at: usize) -> Lack {
    let mut attribute = scanner.from_place(at);
    if pass_key(&mut attribute) {
        return Lack::Semicolon;
    }
    let mut group = scanner.from_place(at);
    if pass_head(&mut group) {
        Lack::Brace
    } else {
        Lack::Form
    }
}

/// The innermost statement that is out of form of one directly in a library: what of it stands on its first line, and
/// the name of the statement directly in the library, where that is another.
pub fn broken_statement(text: &[u8], statement: &Range) -> Option<Found>
    ensures { IfSome result (λ found. IsInside statement.now found.range) }
{
    let scanner = Scanner::new(text);
    let at = innermost(&scanner, statement.from, text.len());
    let line = trimmed(text, &line_at(text, at)?);
    let mut outer = scanner.from_place(statement.from);
    let name = outer.word()?;
    let holder = if at > statement.from {
        Some(Range {
            from: statement.from,
            to: statement.from.saturating_add(name.len()),
        })
    } else {
        None
    };
    let lack = lack_at(&scanner, at);
    found_inside(statement, line, Fault::Broken { lack, holder })
}
