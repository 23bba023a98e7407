//! What messages are made of: a refusal, the files of the command, and the place.
ghost use Rattle.std.specs.Prelude.{◌≤◌, IfSome, length};

use crate::files::Inputs;
use crate::places::Place;
use mintc_text::{Refusal, Role};
use mintc_vlex::{TokenKind, next_token};
use mintcx_finders::{bytes_of, name_of};

/// A refusal with the files of the command, the bytes of the file that it speaks of, and the place there, which is that
/// of `own`: the refusal itself, or of a corner that of its files.
#[derive(Clone, Copy)]
pub(crate) struct Case<'a> {
    pub(crate) refusal: &'a Refusal,
    pub(crate) own: &'a Refusal,
    pub(crate) inputs: &'a Inputs<'a>,
    pub(crate) file: &'a [u8],
    pub(crate) place: Option<Place>,
}

/// Whether the file ends too soon.
pub(crate) fn is_last(place: Option<Place>) -> bool {
    match place {
        Some(place) => place.is_last,
        None => false,
    }
}

/// The bytes of a place; none where there is no place.
pub(crate) fn bytes_at(file: &[u8], place: Option<Place>) -> &[u8] {
    match place {
        Some(place) => bytes_of(file, &place.range),
        None => b"",
    }
}

/// What is marked of a place; none where there is no place.
pub(crate) fn marked<'a>(case: &Case<'a>) -> &'a [u8] {
    match case.place {
        Some(place) => bytes_of(case.file, &place.mark),
        None => b"",
    }
}

/// The name that is marked; none where there is no place.
pub(crate) fn marked_name<'a>(case: &Case<'a>) -> &'a [u8] {
    match case.place {
        Some(place) => name_of(case.file, &place.mark),
        None => b"",
    }
}

/// The name or the word that a place begins with; none where it begins with another token.
pub(crate) fn first_word(file: &[u8], place: Option<Place>) -> &[u8] {
    let bytes = bytes_at(file, place);
    match next_token(bytes, 0) {
        Some(token) => match token.kind {
            TokenKind::Word | TokenKind::Escaped => &bytes[token.from..token.to],
            TokenKind::Digits | TokenKind::Constant | TokenKind::Sign | TokenKind::Bad => b"",
        },
        None => b"",
    }
}

/// Why a line is out of form that has the right words but ends in another way than by a line feed alone.
pub(crate) fn bad_ending(file: &[u8], place: Option<Place>) -> &'static [u8] {
    match place {
        Some(place) if place.range.to == file.len() => b"no line feed ends it",
        Some(place) if place.range.to < file.len() && file[place.range.to] == b'\r' => {
            b"a carriage return stands before its line feed"
        }
        _ => b"",
    }
}

/// What a text is called, where lines or statements of it are out of form.
pub(crate) fn text_name(role: Role) -> &'static [u8] {
    match role {
        Role::Netlist => b"netlist",
        Role::Delays => b"delays",
        Role::Cells => b"library",
        Role::Clock => b"clock description",
        Role::Schedule => b"schedule",
        Role::Certificate => b"certificate",
        Role::Table => b"table",
    }
}
