//! What the headers of the delays say.

use mintc_sdf_tokens::{Scanner, is_key, product, time_of, times_of, unit_of};
use mintcx_places::Range;

/// The femtoseconds of a unit where no header says another: 1 ns.
const USUAL_SCALE: u64 = 1_000_000;

/// What the headers of the delays say of names and numbers.
#[derive(Clone, Copy, Debug)]
pub struct Header {
    /// What parts the names of a path.
    pub divider: u8,
    /// Whether a header says so.
    pub is_divided: bool,
    /// How many femtoseconds the unit of numbers has.
    pub scale: u64,
    /// The header that says so.
    pub timescale: Option<Range>,
}

/// The femtoseconds that a TIMESCALE says: a number and a unit, in one word or in two.
fn read_scale(scanner: &mut Scanner<'_>) -> Option<u64> {
    let first = scanner.word()?;
    match scanner.word() {
        Some(second) => product(times_of(first), unit_of(second)),
        None => time_of(first),
    }
}

/// The byte that a DIVIDER says.
fn read_divider(scanner: &mut Scanner<'_>) -> Option<u8> {
    match scanner.word()? {
        [byte] => Some(*byte),
        _ => None,
    }
}

/// The header with what an entry says, whose first parenthesis stands at a place. None behind the last header.
fn with_entry(scanner: &mut Scanner<'_>, header: Header, from: usize) -> Option<Header> {
    let key = scanner.word()?;
    if is_key(key, b"CELL") {
        return None;
    }
    let divider = if is_key(key, b"DIVIDER") {
        read_divider(scanner)
    } else {
        None
    };
    let scale = if is_key(key, b"TIMESCALE") {
        read_scale(scanner)
    } else {
        None
    };
    let to = scanner.pass()?.saturating_add(1);
    let timescale = if scale.is_some() {
        Some(Range { from, to })
    } else {
        header.timescale
    };
    Some(Header {
        divider: divider.unwrap_or(header.divider),
        is_divided: header.is_divided || divider.is_some(),
        scale: scale.unwrap_or(header.scale),
        timescale,
    })
}

/// The header with what the next entry says. None behind the last header.
fn with_next(scanner: &mut Scanner<'_>, header: Header) -> Option<Header> {
    let from = scanner.place();
    if !scanner.open() {
        return None;
    }
    with_entry(scanner, header, from)
}

/// What the headers of the delays say. Of several of a kind the last one counts.
pub(crate) fn header_of(text: &[u8]) -> Header {
    let mut header = Header {
        divider: b'.',
        is_divided: false,
        scale: USUAL_SCALE,
        timescale: None,
    };
    let mut scanner = Scanner::new(text);
    if !(scanner.open() && scanner.word().is_some()) {
        return header;
    }
    for _entry in 0..text.len() {
        match with_next(&mut scanner, header) {
            Some(next) => header = next,
            None => return header,
        }
    }
    header
}
