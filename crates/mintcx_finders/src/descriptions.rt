//! What of a description can't be scanned by lines, and quotes that are left open.
ghost use Rattle.std.specs.Prelude.{IfSome};
ghost use Rattle.mintcx_finders.specs.Places.{IsRange};

use crate::found::{Fault, Found, bytes_of, found_anywhere};
use crate::quoting::{inked, open_quote};
use crate::sections::line_at;
use mintcx_places::Range;

/// Whether a text has strings that may go over several lines.
pub(crate) fn has_long_strings(text: &[u8]) -> bool {
    for at in 0..text.len() {
        let rest = &text[at..];
        if rest.starts_with(b"\"\"\"") || rest.starts_with(b"'''") {
            return true;
        }
    }
    false
}

/// The first quote of a description that isn't closed on its line, and what stands behind it there.
pub(crate) fn quote_fault(text: &[u8]) -> Option<Found>
    ensures { IfSome result (λ found. IsRange text.now found.range) }
{
    let mut at = 0;
    while let Some(line) = line_at(text, at) {
        if let Some(place) = open_quote(bytes_of(text, &line)) {
            let range = Range {
                from: line.from.saturating_add(place),
                to: inked(text, &line).to,
            };
            return found_anywhere(text, Some(range), Fault::OpenQuote);
        }
        at = line.to + 1;
    }
    None
}
