//! Parts of texts about places that are found.

use mintc_sdf_tokens::names;
use mintc_text::{Lines, OutOfMemory};
use mintcx_finders::{MOST_PLACES, Places, name_of};
use std::alloc::Global;

/// Writes names with commas between them.
pub(crate) fn put_names(out: &mut Lines, file: &[u8], places: &Places) -> Result<(), OutOfMemory> {
    let mut before: &[u8] = b"";
    for place in places {
        if let Some(name) = place {
            out.put(before)?;
            out.put(name_of(file, name))?;
            before = b", ";
        }
    }
    Ok(())
}

/// Writes the first of some names with commas between them, and `..` behind them where there are more.
pub(crate) fn put_first(out: &mut Lines, names: &[&[u8]]) -> Result<(), OutOfMemory> {
    let mut before: &[u8] = b"";
    for place in 0..MOST_PLACES {
        if place < names.len() {
            out.put(before)?;
            out.put(names[place])?;
            before = b", ";
        }
    }
    if names.len() > MOST_PLACES {
        out.put(b", ..")?;
    }
    Ok(())
}

/// Writes a path of the delays with a dot between its names.
pub(crate) fn put_path(
    alloc: Global,
    out: &mut Lines,
    path: &[u8],
    divider: u8,
) -> Result<(), OutOfMemory> {
    let mut before: &[u8] = b"";
    let parts = names(alloc, path, divider)?;
    for name in parts.items() {
        out.put(before)?;
        out.put(name.bytes())?;
        before = b".";
    }
    Ok(())
}

/// Writes a name in backquotes behind words.
pub(crate) fn put_named(out: &mut Lines, before: &[u8], name: &[u8]) -> Result<(), OutOfMemory> {
    out.put(before)?;
    out.put(b" `")?;
    out.put(name)?;
    out.put(b"`")
}
