//! The cells of a text: one group `library`.
ghost use Rattle.std.specs.Prelude.{◌≡◌, ◌≤◌, ◌++◌, ◌∷◌, ℕ, [], filter_map, length, Some, None, Ok, Err, IsOk, IfOk};
ghost use Rattle.std.specs.Prelude.{OnOk, MatchBool, MatchOption, MatchResult};
ghost use Rattle.mintc_text.specs.declared.limits.TheConstants.{MOST_BYTES};
ghost use Rattle.mintc_text.specs.declared.refusals.Refusal.TheVariants.{Syntax};
ghost use Rattle.mintc_text.specs.declared.refusals.Role.TheVariants as role;
ghost use Rattle.mintc_text.specs.Stops.{StopsAt};
ghost use Rattle.mintc_cells.specs.Entries.{AreOrdered};
ghost use Rattle.mintc_liberty_tokens.specs.Statements.{past_semicolon, front};
ghost use Rattle.mintc_liberty.specs.Texts.{behind_name, behind_head, is_empty, library_of};
ghost use Rattle.mintc_liberty.specs.Places.{entry_at, entries_at};
ghost use Rattle.mintc_liberty.specs.Meaning.{usable, cells_of_library, liberty_cells};

use crate::places::{is_same, name_from, sorted_places};
use mintc_cells::{Cell, Cells};
use mintc_liberty_cell::{body, cell_of};
use mintc_liberty_tokens::{Kind, Reader, Scanner, eat_sign, semicolon, statement, statements};
use mintc_text::{Name, OutOfMemory, Refusal, Role, Stop};
use mintc_toml::is_name;
use std::alloc::Global;

/// How deep groups nest in the library, which is the first of 64.
pub(crate) const MOST_OPEN: u32 = 63;

/// Behind `library`, passes `( item ) {`.
fn behind_name(scanner: &mut Scanner) -> bool
    ensures { MatchBool result (behind_name scanner.old.tokens ≡ Some scanner.new.tokens)
        (behind_name scanner.old.tokens ≡ None) }
{
    if !statements::eat_sign(scanner, Kind::Opening) {
        return false;
    }
    if !statements::item(scanner) {
        return false;
    }
    if !statements::eat_sign(scanner, Kind::Closing) {
        return false;
    }
    statements::eat_sign(scanner, Kind::Left)
}

/// Passes `library ( item ) {`.
fn head(scanner: &mut Scanner) -> bool
    ensures { MatchBool result (behind_head scanner.old.tokens ≡ Some scanner.new.tokens)
        (behind_head scanner.old.tokens ≡ None) }
{
    let Some(name) = scanner.word() else {
        return false;
    };
    if name != b"library".as_slice() {
        return false;
    }
    behind_name(scanner)
}

/// Behind the library's `}`, whether the text ends there; a `;` may come before.
fn ends(reader: &mut Reader) -> bool
    ensures { result ≡ is_empty (past_semicolon reader.old) }
{
    semicolon(reader);
    matches!(reader.kind(), Kind::End)
}

/// The number of the text's Syntax, none where it is in the grammar.
pub(crate) fn syntax_of(text: &[u8]) -> Option<usize>
    ensures { MatchOption result (IsOk (library_of text.now)) (λ n. library_of text.now ≡ Err n) }
{
    let mut scanner = Scanner::new(text);
    if !head(&mut scanner) {
        return Some(0);
    }
    let mut reader = Reader::at(&scanner);
    let mut count = 0;
    loop {
        if eat_sign(&mut reader, Kind::Right) {
            return if ends(&mut reader) {
                None
            } else {
                Some(count + 1)
            };
        }
        if !statement(&mut reader, MOST_OPEN) {
            return Some(count + 1);
        }
        count += 1;
    }
}

/// The cell at a place, if it is one that can be used.
fn usable(alloc: Global, library: &Scanner, place: u32) -> Result<Option<(Name, Cell)>, OutOfMemory>
    ensures { IfOk result (λ o. o ≡ usable (entry_at library.now.text place)) }
{
    let name = name_from(library, place);
    if !is_name(name) {
        return Ok(None);
    }
    let Some(inside) = body(&Reader::at(&library.from_place(place as usize))) else {
        return Ok(None);
    };
    match cell_of(alloc, &inside, MOST_OPEN - 1)? {
        Some(cell) => Ok(Some((Name::new(alloc, name)?, cell))),
        None => Ok(None),
    }
}

/// Adds the cell at a place, if it is one that can be used.
fn add(
    alloc: Global,
    cells: &mut Vec<(Name, Cell)>,
    library: &Scanner,
    place: u32,
) -> Result<(), OutOfMemory>
    ensures { OnOk result (cells.new.items ≡ cells.old.items
        ++ filter_map usable (entries_at library.now.text (place ∷ []))) }
{
    if let Some(entry) = usable(alloc, library, place)? {
        cells.push(entry)?;
    }
    Ok(())
}

/// The cells of a library in a text.
fn library_cells(
    alloc: Global,
    text: &[u8],
    library: &Scanner,
) -> Result<Vec<(Name, Cell)>, OutOfMemory>
    ensures cells { IfOk result (λ cells. cells.items ≡ cells_of_library (front 63 library.now.tokens).statements) }
    ensures ordered { IfOk result (λ cells. AreOrdered cells.items) }
{
    let places = sorted_places(alloc, text, library)?;
    let mut cells = Vec::new(alloc);
    let mut before = None;
    for place in places {
        let name = name_from(library, place);
        if !is_same(before, name) {
            add(alloc, &mut cells, library, place)?;
        }
        before = Some(name);
    }
    u32::try_from(cells.len())?;
    Ok(cells)
}

/// The cells of a text in the grammar.
fn cells_of(alloc: Global, text: &[u8]) -> Result<Vec<(Name, Cell)>, OutOfMemory>
    requires { IsOk (library_of text.now) }
    ensures cells { IfOk result (λ cells. liberty_cells text.now ≡ Ok cells.items) }
    ensures ordered { IfOk result (λ cells. AreOrdered cells.items) }
{
    let mut library = Scanner::new(text);
    if !head(&mut library) {
        return Ok(Vec::new(alloc));
    }
    library_cells(alloc, text, &library)
}

/// The cells of a Liberty text, or its Syntax: 0 where it doesn't begin `library ( item ) {`, else the number of
/// the first statement directly in the library that is out of form, or of one more than there are. A cell that
/// can't be used is passed over.
pub fn read_liberty(alloc: Global, text: &[u8]) -> Result<Cells, Stop>
    requires { length text.now ≤ MOST_BYTES }
    ensures { MatchResult result (λ cells. liberty_cells text.now ≡ Ok cells)
        (StopsAt (λ r. (n : ℕ) × (liberty_cells text.now ≡ Err n) × (r ≡ Syntax role.Cells n))) }
{
    match syntax_of(text) {
        Some(entry) => {
            let entry = u32::try_from(entry)?;
            Err(Stop::Refused(Refusal::Syntax {
                role: Role::Cells,
                entry,
            }))
        }
        None => {
            let cells = cells_of(alloc, text)?;
            Ok(Cells::new(alloc, cells)?)
        }
    }
}
