//! The places in a text where the cells of its library stand, in byte order of their names.
ghost use Rattle.std.specs.Prelude.{◌≡◌, ◌≤◌, ◌<◌, ◌∷◌, List, [], drop, length, Some, None, IfOk, IfSome, IfNone};
ghost use Rattle.std.specs.Prelude.{OnSome, MatchBool, MatchOption, option_map};
ghost use Rattle.mintc_liberty_tokens.specs.Tokens.{Token};
ghost use Rattle.mintc_liberty_tokens.specs.Scans.{IsAhead};
ghost use Rattle.mintc_liberty_tokens.specs.Reading.{statement_rest};
ghost use Rattle.mintc_liberty.specs.Meaning.{put_all};
ghost use Rattle.mintc_liberty.specs.Places.{opened, IsBehind, cells_next, named_cells, entry_from, entry_at};
ghost use Rattle.mintc_liberty.specs.Places.{entries_at, name_from, place_cmp, is_same, firsts, Ascends};

use crate::presorting::presort;
use crate::texts::MOST_OPEN;
use mintc_liberty_cell::{group_at, only_name};
use mintc_liberty_tokens::statements::{call, eat_sign, statement};
use mintc_liberty_tokens::{Kind, Reader, Scanner};
use mintc_text::OutOfMemory;
use mintc_toml::is_name;
use std::alloc::Global;
use std::cmp::Ordering;

/// Passes `WORD (`, if that comes next.
fn opens(scanner: &mut Scanner) -> bool
    ensures passed { MatchBool result (opened scanner.old.tokens ≡ Some scanner.new.tokens) (opened scanner.old.tokens
        ≡ None) }
    ensures ahead { IsAhead scanner.old scanner.new }
{
    match scanner.word() {
        Some(_) => eat_sign(scanner, Kind::Opening),
        None => false,
    }
}

/// Passes one statement, and gives the place behind its `WORD (` if it begins so, else the place behind it.
fn pass(scanner: &mut Scanner) -> Option<usize>
    ensures passed { MatchOption result (statement_rest 63 scanner.old.tokens ≡ None)
        (λ place. statement_rest 63 scanner.old.tokens ≡ Some scanner.new.tokens) }
    ensures place { IfSome result (λ place. IsBehind scanner.old place) }
    ensures within { IfSome result (λ place. (scanner.old.place ≤ place) × (place ≤ scanner.new.place)) }
    ensures ahead { IsAhead scanner.old scanner.new }
{
    let mut behind = scanner.copy();
    if !opens(&mut behind) {
        return if statement(scanner, MOST_OPEN) {
            Some(scanner.place())
        } else {
            None
        };
    }
    let place = behind.place();
    if !call(&mut behind, MOST_OPEN) {
        return None;
    }
    *scanner = behind;
    Some(place)
}

/// Whether a cell with a name within the rules comes next.
fn is_cell(reader: &Reader) -> bool
    ensures { MatchBool result ((items : List Token) × (opened reader.now ≡ Some items)
        × (cells_next reader.now ≡ entry_from items ∷ [])) (cells_next reader.now ≡ []) }
{
    let Some(group) = group_at(reader) else {
        return false;
    };
    if group.name != b"cell".as_slice() {
        return false;
    }
    match only_name(&group.items) {
        Some(name) => is_name(name),
        None => false,
    }
}

/// Passes the statements up to the next cell with a name, and that one. Gives the place behind its `cell (`.
fn next_cell(scanner: &mut Scanner) -> Option<usize>
    ensures none { IfNone result (named_cells scanner.old.tokens ≡ []) }
    ensures some { IfSome result (λ place. named_cells scanner.old.tokens ≡ entry_at scanner.old.text place ∷
        named_cells scanner.new.tokens) }
    ensures within { IfSome result (λ place. (scanner.old.place ≤ place) × (place ≤ scanner.new.place)) }
    ensures shorter { OnSome result (length scanner.new.tokens < length scanner.old.tokens) }
    ensures ahead { IsAhead scanner.old scanner.new }
{
    loop {
        let reader = Reader::at(scanner);
        let Some(place) = pass(scanner) else {
            return None;
        };
        if is_cell(&reader) {
            return Some(place);
        }
    }
}

/// How many cells with a name a text has at most: each has a brace, and nine bytes or more.
fn most_cells(text: &[u8]) -> usize {
    let mut braces: usize = 0;
    for byte in text {
        if *byte == b'{' {
            braces = braces.saturating_add(1);
        }
    }
    braces.min(text.len() / 9)
}

/// The places of the cells with a name, as they come. There is room for `most` of them.
fn places_of(alloc: Global, library: &Scanner, most: usize) -> Result<Vec<u32>, OutOfMemory>
    ensures cells { IfOk result (λ places. named_cells library.now.tokens ≡ entries_at library.now.text places.items) }
    ensures ascending { IfOk result (λ places. Ascends places.items) }
{
    let mut places = Vec::with_capacity(alloc, most)?;
    let mut scanner = library.copy();
    while let Some(place) = next_cell(&mut scanner) {
        let place = u32::try_from(place)?;
        places.push(place)?;
    }
    Ok(places)
}

/// The name at a place.
pub(crate) fn name_from<'a>(library: &Scanner<'a>, place: u32) -> &'a [u8]
    ensures { result.now ≡ name_from library.now.text place }
{
    match library.from_place(place as usize).name() {
        Some(name) => name,
        None => &[],
    }
}

/// By names, and by places where the names are the same.
fn compare(library: &Scanner, one: u32, two: u32) -> Ordering
    ensures { result ≡ place_cmp library.now.text one two }
{
    name_from(library, one)
        .cmp(name_from(library, two))
        .then(one.cmp(&two))
}

/// The places of the cells with a name, in byte order of the names, and as they come where names are the same. What
/// is kept to sort them takes no more than half of the text with them.
pub(crate) fn sorted_places(
    alloc: Global,
    text: &[u8],
    library: &Scanner,
) -> Result<Vec<u32>, OutOfMemory>
    ensures { IfOk result (λ places. put_all (named_cells library.now.tokens) []
        ≡ entries_at library.now.text (firsts library.now.text None places.items)) }
{
    let mut places = places_of(alloc, library, most_cells(text))?;
    let room = (text.len() / 2).saturating_sub(places.len().saturating_mul(4)) / 16;
    presort(alloc, library, &mut places, room)?;
    places.sort_unstable_by(
        |one: &u32, two: &u32| -> Ordering
            ensures { result ≡ place_cmp library.entry.now.text one.now two.now }
        { compare(library, *one, *two) },
    );
    Ok(places)
}

/// Whether a name was the one before.
pub(crate) fn is_same(before: Option<&[u8]>, name: &[u8]) -> bool
    ensures { result ≡ is_same (option_map (λ b. b.now) before.entry) name.now }
{
    match before {
        Some(before) => before == name,
        None => false,
    }
}
