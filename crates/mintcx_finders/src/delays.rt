//! Entries of the delays whose instance or keywords are at fault.
ghost use Rattle.std.specs.Prelude.{IfSome};
ghost use Rattle.mintcx_finders.specs.Places.{IsInside};

use crate::found::{Fault, Found, bytes_of, found_inside};
use crate::header::header_of;
use crate::pieces::{behind_key, first_key};
use mintc_sdf_tokens::{Scanner, TokenKind};
use mintcx_places::Range;

/// Keywords of delays that aren't read.
const OUTSIDE: &[&[u8]] = &[b"INCREMENT", b"NETDELAY", b"DEVICE", b"RETAIN"];

/// Keywords of what speaks of other instances than that of its entry.
const BETWEEN: &[&[u8]] = &[b"INTERCONNECT"];

/// The parenthesis that begins a list of the delays, where none closes it.
pub fn unclosed_list(text: &[u8], list: &Range) -> Option<Found>
    ensures { IfSome result (λ found. IsInside list.now found.range) }
{
    let behind = Range {
        from: list.from,
        to: text.len(),
    };
    let mut scanner = Scanner::new(bytes_of(text, &behind));
    if !scanner.open() || scanner.pass().is_some() {
        return None;
    }
    let mark = Range {
        from: list.from,
        to: list.from.saturating_add(1),
    };
    found_inside(list, mark, Fault::Unclosed)
}

/// The first keyword of an entry of the delays that isn't read.
pub fn unread_key(text: &[u8], entry: &Range) -> Option<Found>
    ensures { IfSome result (λ found. IsInside entry.now found.range) }
{
    found_inside(entry, first_key(text, entry, OUTSIDE)?, Fault::Keyword)
}

/// The path of the instance that an entry of the delays speaks of. None where it speaks of others too.
pub fn missing_instance(text: &[u8], entry: &Range) -> Option<Found>
    ensures { IfSome result (λ found. IsInside entry.now found.range) }
{
    if first_key(text, entry, BETWEEN).is_some() {
        return None;
    }
    let path = behind_key(text, entry, b"INSTANCE", TokenKind::Word)?;
    let header = header_of(text);
    found_inside(entry, path, Fault::Instance { header })
}
