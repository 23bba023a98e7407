//! The values of attributes, read while statements are passed.
ghost use Rattle.std.specs.Prelude.{◌≡◌, Some, None, IfSome, IfNone, option_map, bytes_eq};
ghost use Rattle.std.specs.Option.{option_or};
ghost use Rattle.mintc_liberty_cell.specs.Passing.{value_bytes, attribute_at, value_if};
ghost use Rattle.mintc_liberty_tokens.specs.Statements.{front};
ghost use Rattle.mintc_liberty_cell.specs.Meaning.{last_value, says};

use mintc_liberty_tokens::{Kind, Reader, eat_sign, statement, value_token};

/// An attribute's name and what begins with its value.
#[derive(Drop)]
pub(crate) struct Found<'a> {
    pub name: &'a [u8],
    pub value: Reader<'a>,
}

/// The attribute that comes next, if one does.
fn attribute_at<'a>(reader: &Reader<'a>) -> Option<Found<'a>>
    ensures none { IfNone result (attribute_at reader.now ≡ None) }
    ensures some { IfSome result (λ f. attribute_at reader.now ≡ Some (f.name.now, f.value)) }
{
    let mut value = reader.copy();
    let Some(name) = value.word() else {
        return None;
    };
    if eat_sign(&mut value, Kind::Colon) {
        Some(Found { name, value })
    } else {
        None
    }
}

/// The later of two values: the next attribute's, if it has the name, else the one before.
fn later<'a>(found: Option<Reader<'a>>, next: Option<Found<'a>>, name: &[u8]) -> Option<Reader<'a>>
    ensures none { IfNone next.entry (option_map value_bytes result ≡ option_map value_bytes found.entry) }
    ensures some { IfSome next.entry (λ f. option_map value_bytes result
        ≡ option_or (value_if name.now (Some (f.name.now, f.value))) (option_map value_bytes found.entry)) }
{
    match next {
        None => found,
        Some(next) => if next.name == name {
            Some(next.value)
        } else {
            found
        },
    }
}

/// What begins with the value of the last attribute of a name, directly in the group that the reader stands in.
pub fn last_value<'a>(inside: &Reader<'a>, name: &[u8], room: u32) -> Option<Reader<'a>>
    ensures { option_map value_bytes result ≡ last_value name.now (front room inside.now).statements }
{
    let mut reader = inside.copy();
    let mut found = None;
    loop {
        let next = attribute_at(&reader);
        if !statement(&mut reader, room) {
            return found;
        }
        found = later(found, next, name);
    }
}

/// Whether a value's bytes are a text.
pub fn is_text(value: &Reader, text: &[u8]) -> bool
    ensures { result ≡ bytes_eq (value_bytes value.now) text.now }
{
    let mut reader = value.copy();
    let mut left = text;
    while let Some(piece) = value_token(&mut reader) {
        if left.len() < piece.len() {
            return false;
        }
        let (front, rest) = left.split_at(piece.len());
        if front != piece {
            return false;
        }
        left = rest;
    }
    left.is_empty()
}

/// Whether the last attribute of a name, directly in the group that the reader stands in, has this value.
pub fn says(inside: &Reader, name: &[u8], text: &[u8], room: u32) -> bool
    ensures { result ≡ says name.now text.now (front room inside.now).statements }
{
    match last_value(inside, name, room) {
        Some(value) => is_text(&value, text),
        None => false,
    }
}
