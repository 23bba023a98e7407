//! Statements of a netlist.
ghost use Rattle.std.specs.Prelude.{◌≡◌, ◌≤◌, ◌<◌, IfNone, IfSome, length};
ghost use Rattle.mintc_vlex.specs.Tokens.{LiesWithin, tokens_behind, tokens_of};
ghost use Rattle.mintc_vlex.specs.Statements.{first_statement};
ghost use Rattle.mintcx_places.specs.Statements.{HasNoStatement, IsStatement, behind_statements, end_of};

use crate::lines::Range;
use mintc_vlex::{Token, is_endmodule, is_semicolon, next_token, statement_end};

/// Where the last token of a statement ends that a token begins.
fn last_end(text: &[u8], first: &Token) -> usize
    requires { LiesWithin (length text.now) first.now }
    ensures value { result
        ≡ end_of first.now.to (first_statement text.now first.now (tokens_behind text.now first.now.to)) }
    ensures behind { first.now.to ≤ result }
    ensures within { result ≤ length text.now }
{
    let mut at = first.to;
    let mut ended = is_endmodule(text, first) || is_semicolon(text, first);
    while !ended {
        let Some(token) = next_token(text, at) else {
            return at;
        };
        at = token.to;
        ended = is_semicolon(text, &token);
    }
    at
}

/// A place behind so many statements, where a piece of the text ends. It is the end of the text where there are
/// fewer.
fn place_behind(text: &[u8], count: u32) -> usize
    ensures value { tokens_behind text.now result ≡ behind_statements text.now count (tokens_of text.now) }
    ensures within { result ≤ length text.now }
{
    let mut at = 0;
    for _passed in 0..count {
        match next_token(text, at) {
            Some(first) => at = statement_end(text, &first),
            None => return text.len(),
        }
    }
    at
}

/// The bytes of a statement, by its number. None where there are fewer.
fn range_of(text: &[u8], number: u32) -> Option<Range>
    requires { 0 < number }
    ensures statement { IfSome result (IsStatement text.now number) }
    ensures within { IfSome result (λ range. (range.from < range.to) × (range.to ≤ length text.now)) }
    ensures none { IfNone result (HasNoStatement text.now number) }
{
    match next_token(text, place_behind(text, number - 1)) {
        Some(first) => Some(Range {
            from: first.from,
            to: last_end(text, &first),
        }),
        None => None,
    }
}

/// The bytes of a statement of a netlist, from its first token to its last, by its number from 1 on as the netlist's
/// reader counts: a statement goes to its `;`, and `endmodule` is one. None where there are fewer.
pub fn statement_range(text: &[u8], number: u32) -> Option<Range>
    ensures statement { IfSome result (IsStatement text.now number) }
    ensures within { IfSome result (λ range. (range.from < range.to) × (range.to ≤ length text.now)) }
    ensures none { IfNone result (HasNoStatement text.now number) }
{
    if number == 0 {
        return None;
    }
    range_of(text, number)
}
