//! The heading of a statement that says how a circuit behaves.
ghost use Rattle.std.specs.Prelude.{IfSome};
ghost use Rattle.mintcx_finders.specs.Places.{IsInside};

use crate::found::{Fault, Found, found_inside};
use crate::walk::{is_sign, is_word};
use mintc_vlex::next_token;
use mintcx_places::Range;

/// Where the first `)` behind a place ends. None where a text has none.
fn closing_behind(text: &[u8], from: usize) -> Option<usize> {
    let mut at = from;
    while let Some(token) = next_token(text, at) {
        at = token.to;
        if is_sign(text, &token, b')') {
            return Some(at);
        }
    }
    None
}

/// The heading `always @(..)` of a statement.
pub fn behaviour(text: &[u8], statement: &Range) -> Option<Found>
    ensures { IfSome result (λ found. IsInside statement.now found.range) }
{
    let first = next_token(text, statement.from)?;
    if !is_word(text, &first, b"always") {
        return None;
    }
    let heading = Range {
        from: first.from,
        to: closing_behind(text, first.to)?,
    };
    found_inside(statement, heading, Fault::Word)
}
