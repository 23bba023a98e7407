//! Where an item of a description stands, by its number or its name.
ghost use Rattle.std.specs.Prelude.{IfSome};
ghost use Rattle.mintcx_finders.specs.Places.{IsRange};

use crate::cells::section_named;
use crate::clocks::{Item, header_of};
use crate::descriptions::has_long_strings;
use crate::sections::{entry_of, is_plain, nth_section};
use mintcx_places::Range;

/// A range, where it has a byte and is one of a text.
fn range_in(text: &[u8], range: Range) -> Option<Range>
    ensures { IfSome result (IsRange text.now) }
{
    if range.from < range.to && range.to <= text.len() {
        Some(range)
    } else {
        None
    }
}

/// Where the value of a key stands in an item of a clock description, by the item's number from 1 on among those of its
/// kind. None where it isn't found, as in items that aren't written over lines of their own.
pub fn item_value(text: &[u8], item: Item, number: u32, key: &[u8]) -> Option<Range>
    ensures { IfSome result (IsRange text.now) }
{
    if has_long_strings(text) {
        return None;
    }
    let section = nth_section(text, header_of(item), number)?;
    if !is_plain(text, &section) {
        return None;
    }
    range_in(text, entry_of(text, &section, key)?.value)
}

/// Where the cell of a name begins in a cell description. None where it isn't found.
pub fn cell_heading(text: &[u8], name: &[u8]) -> Option<Range>
    ensures { IfSome result (IsRange text.now) }
{
    if has_long_strings(text) {
        return None;
    }
    let (_, section) = section_named(text, name)?;
    range_in(text, section.header)
}
