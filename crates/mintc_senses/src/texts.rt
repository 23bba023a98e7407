//! The cells of a library's text.
ghost use Rattle.std.specs.Prelude.{◌≡◌, ◌<◌, ℕ, length, Some, None, MatchBool, MatchOption, IfOk, option_map};
ghost use Rattle.std.specs.Prelude.{slice_index_or, vec_len};
ghost use Rattle.std.specs.Option.{option_or};
ghost use Rattle.mintc_cells.specs.Entries.{name_at};
ghost use Rattle.mintc_liberty_tokens.specs.Tokens.{tokens_of};
ghost use Rattle.mintc_liberty_tokens.specs.Statements.{front, none};
ghost use Rattle.mintc_liberty_cell.specs.Meaning.{groups};
ghost use Rattle.mintc_liberty_cell.specs.Seen.{group_seen};
ghost use Rattle.mintc_liberty.specs.Texts.{behind_name, behind_head};
ghost use Rattle.mintc_liberty.specs.Meaning.{cell_in, cells_in};
ghost use Rattle.mintc_senses.specs.Senses.{library_inside, cell_inside};
ghost use Rattle.mintc_senses.specs.Seen.{inside_seen};

use mintc_cells::Cells;
use mintc_liberty_cell::{Group, next_group, only_name};
use mintc_liberty_tokens::{Kind, Reader, eat_sign, item};
use mintc_text::OutOfMemory;
use std::alloc::Global;

/// How deep groups nest in a library, which is the first of 64.
const MOST_OPEN: u32 = 63;

/// Behind `library`, passes `( item ) {`.
fn behind_name(reader: &mut Reader) -> bool
    ensures { MatchBool result (behind_name reader.old ≡ Some reader.new) (behind_name reader.old ≡ None) }
{
    if !eat_sign(reader, Kind::Opening) {
        return false;
    }
    if !item(reader) {
        return false;
    }
    if !eat_sign(reader, Kind::Closing) {
        return false;
    }
    eat_sign(reader, Kind::Left)
}

/// Passes `library ( item ) {`.
fn head(reader: &mut Reader) -> bool
    ensures { MatchBool result (behind_head reader.old ≡ Some reader.new) (behind_head reader.old ≡ None) }
{
    let Some(name) = reader.word() else {
        return false;
    };
    if name != b"library".as_slice() {
        return false;
    }
    behind_name(reader)
}

/// No statement.
pub(crate) fn no_statements<'a>() -> Reader<'a>
    ensures { (room : ℕ) → (front room result).statements ≡ none }
{
    Reader::new(&[])
}

/// What begins with the statements directly in the library of a text.
pub(crate) fn library(text: &[u8]) -> Reader
    ensures { (front 63 result).statements ≡ library_inside text.now }
{
    let mut reader = Reader::new(text);
    if head(&mut reader) {
        reader
    } else {
        no_statements()
    }
}

/// Keeps the inside of a group where it is the first of a cell.
fn note<'a>(found: &mut Vec<Option<Reader<'a>>>, cells: &Cells, group: Group<'a>)
    requires { vec_len found.old ≡ length cells.now }
    ensures length { vec_len found.new ≡ length cells.now }
    ensures found { (k : ℕ) → k < length cells.now → inside_seen (slice_index_or found.new.items k None)
        ≡ option_or (inside_seen (slice_index_or found.old.items k None))
        (cell_inside (name_at cells.now k) (cell_in (group_seen 62 group.entry))) }
{
    if group.name != b"cell".as_slice() {
        return;
    }
    let Some(name) = only_name(&group.items) else {
        return;
    };
    let _count = cells.count();
    let Some(number) = cells.find(name) else {
        return;
    };
    if found[number as usize].is_none() {
        found[number as usize] = Some(group.inside);
    }
}

/// A place for each of some cells.
fn places<'a>(alloc: Global, count: u32) -> Result<Vec<Option<Reader<'a>>>, OutOfMemory>
    ensures length { IfOk result (λ v. vec_len v ≡ count) }
    ensures none { IfOk result (λ v. (k : ℕ) → k < count → inside_seen (slice_index_or v.items k None) ≡ None) }
{
    let mut found = Vec::with_capacity(alloc, count as usize)?;
    for _place in 0..count {
        found.push(None)?;
    }
    Ok(found)
}

/// For each cell what begins with the statements inside the first group of its name.
pub(crate) fn insides<'a>(
    alloc: Global,
    library: &Reader<'a>,
    cells: &Cells,
) -> Result<Vec<Option<Reader<'a>>>, OutOfMemory>
    ensures length { IfOk result (λ v. vec_len v ≡ length cells.now) }
    ensures found { IfOk result (λ v. (k : ℕ) → k < length cells.now → inside_seen (slice_index_or v.items k None)
        ≡ cell_inside (name_at cells.now k) (cells_in (groups (front 63 library.now).statements))) }
{
    let mut found = places(alloc, cells.count())?;
    let mut reader = library.copy();
    while let Some(group) = next_group(&mut reader, MOST_OPEN) {
        note(&mut found, cells, group);
    }
    Ok(found)
}
