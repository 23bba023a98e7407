//! All numbers of the delays that are below 0 and may not be.

use crate::found::{Number, bytes_of};
use crate::header::{Header, header_of};
use crate::numbers::{Rule, Sought, State, part_of, state_behind};
use crate::pieces::{Piece, is_keyword, next_piece};
use mintc_sdf_tokens::{Scanner, TokenKind};
use mintc_text::OutOfMemory;
use mintcx_places::Range;
use std::alloc::Global;

/// A number of the delays that is below 0 and may not be.
#[derive(Clone, Copy, Debug)]
pub struct Negative {
    /// Where it stands.
    pub range: Range,
    /// The value of which it is a part, as numbers between colons.
    pub value: Range,
    pub number: Number,
    /// The path of the instance that it is of, where its entry names one.
    pub instance: Option<Range>,
}

/// Where a walk through all delays stands, and the path of the instance of the entry that it is in.
#[derive(Clone, Copy)]
struct Walk {
    state: State,
    /// Whether the token before is the keyword of an instance.
    is_named: bool,
    instance: Option<Range>,
}

/// Where a walk stands behind a token.
fn walk_behind(text: &[u8], piece: &Piece, walk: Walk) -> Walk {
    let instance = if walk.is_named && piece.kind == TokenKind::Word {
        Some(piece.range)
    } else if is_keyword(text, piece, b"CELL") {
        None
    } else {
        walk.instance
    };
    Walk {
        state: state_behind(text, piece, walk.state),
        is_named: walk.state.is_opened && is_keyword(text, piece, b"INSTANCE"),
        instance,
    }
}

/// Adds the numbers of a value that are below 0 and may not be.
fn add_parts(
    found: &mut Vec<Negative>,
    text: &[u8],
    value: &Range,
    header: &Header,
    walk: &Walk,
) -> Result<(), OutOfMemory> {
    let mut rest = *value;
    for _part in value.from..value.to {
        if rest.from >= rest.to {
            return Ok(());
        }
        let Some((range, number)) = part_of(text, &rest, header, walk.state.rule, Sought::Negative)
        else {
            return Ok(());
        };
        if range.to <= rest.from {
            return Ok(());
        }
        found.push(Negative {
            range,
            value: *value,
            number,
            instance: walk.instance,
        })?;
        rest.from = range.to.saturating_add(1);
    }
    Ok(())
}

/// All numbers of the delays that are below 0 and may not be, in their order.
pub fn negative_numbers(alloc: Global, text: &[u8]) -> Result<Vec<Negative>, OutOfMemory> {
    let header = header_of(text);
    let mut found = Vec::new(alloc);
    let mut scanner = Scanner::new(text);
    let mut walk = Walk {
        state: State {
            rule: Rule::Passed,
            is_opened: false,
            is_value: false,
        },
        is_named: false,
        instance: None,
    };
    for _token in 0..text.len() {
        let Some(piece) = next_piece(&mut scanner, 0) else {
            return Ok(found);
        };
        walk = walk_behind(text, &piece, walk);
        if walk.state.is_value && walk.state.rule != Rule::Passed {
            add_parts(&mut found, text, &piece.range, &header, &walk)?;
        }
    }
    Ok(found)
}
