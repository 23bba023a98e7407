//! Connections of instances by name.
ghost use Rattle.std.specs.Prelude.{◌<◌, ◌≤◌, IfSome, length};

use crate::walk::{is_sign, range_of};
use mintc_vlex::{is_semicolon, next_token};
use mintcx_places::Range;

/// A connection by name: where its dot stands, its port, what stands in its parentheses, and a place inside of it.
#[derive(Clone, Copy)]
pub(crate) struct Connection {
    pub(crate) from: usize,
    pub(crate) port: Range,
    pub(crate) bits: Range,
    pub(crate) to: usize,
}

/// The next dot of a statement. None where its `;` comes first.
pub(crate) fn next_dot(text: &[u8], from: usize) -> Option<usize>
    ensures behind { IfSome result (λ to. from < to) }
    ensures within { IfSome result (λ to. to ≤ length text.now) }
{
    let mut at = from;
    while let Some(token) = next_token(text, at) {
        if is_semicolon(text, &token) {
            return None;
        }
        at = token.to;
        if is_sign(text, &token, b'.') {
            return Some(at);
        }
    }
    None
}

/// The tokens from a place on up to a `)`; none where that comes first.
fn bits_from(text: &[u8], from: usize) -> Range {
    let mut range = Range { from, to: from };
    let mut at = from;
    while let Some(token) = next_token(text, at) {
        if is_sign(text, &token, b')') || is_semicolon(text, &token) {
            return range;
        }
        at = token.to;
        range.to = at;
    }
    range
}

/// The next connection by name of a statement.
pub(crate) fn next_connection(text: &[u8], from: usize) -> Option<Connection>
    ensures behind { IfSome result (λ c. from < c.to) }
    ensures within { IfSome result (λ c. c.to ≤ length text.now) }
{
    let dot = next_dot(text, from)?;
    let port = next_token(text, dot)?;
    let open = next_token(text, port.to)?;
    let first = next_token(text, open.to)?;
    Some(Connection {
        from: dot.saturating_sub(1),
        port: range_of(&port),
        bits: bits_from(text, first.from),
        to: open.to,
    })
}
