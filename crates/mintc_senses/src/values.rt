//! The bytes of attributes' values.
ghost use Rattle.std.specs.Prelude.{◌≡◌, ◌++◌, IfOk, OnOk, option_map};
ghost use Rattle.mintc_liberty_tokens.specs.Statements.{front};
ghost use Rattle.mintc_liberty_cell.specs.Passing.{value_bytes};
ghost use Rattle.mintc_liberty_cell.specs.Meaning.{last_value};

use mintc_liberty_cell::last_value;
use mintc_liberty_tokens::{Reader, value_token};
use mintc_text::OutOfMemory;
use std::alloc::Global;

/// Puts the bytes of a value behind others.
fn append_value(bytes: &mut Vec<u8>, value: &Reader) -> Result<(), OutOfMemory>
    ensures { OnOk result (bytes.new.items ≡ bytes.old.items ++ value_bytes value.now) }
{
    let mut reader = value.copy();
    while let Some(piece) = value_token(&mut reader) {
        bytes.extend_from_slice(piece)?;
    }
    Ok(())
}

/// The bytes of the last attribute of a name, none where there is no such attribute.
pub(crate) fn value_of(
    alloc: Global,
    inside: &Reader,
    name: &[u8],
    room: u32,
) -> Result<Option<Vec<u8>>, OutOfMemory>
    ensures { IfOk result (λ o. option_map (λ v. v.items) o ≡ last_value name.now (front room inside.now).statements) }
{
    match last_value(inside, name, room) {
        Some(value) => {
            let mut bytes = Vec::new(alloc);
            append_value(&mut bytes, &value)?;
            Ok(Some(bytes))
        }
        None => Ok(None),
    }
}
