//! The legend of a chart.
ghost use Rattle.std.specs.Prelude.{◌≤◌, ◌+◌, length, IfOk};

use crate::lanes::{Kind, Lane};
use crate::parts::PartKind;
use crate::sheet::{Beam, Sheet, Spot, beam_of, soft_words};
use mintc_text::{Name, OutOfMemory};
use mintcx_picture::{Colour, Form, LEFT, Paint, room};
use std::alloc::Global;

/// Whether a row has a part of a kind.
fn has_part(lane: &Lane, kind: PartKind) -> bool {
    lane.parts.items().iter().any(|part| part.kind == kind)
}

/// Whether some row has a part of a kind.
fn occurs(sheet: &Sheet, kind: PartKind) -> bool {
    sheet.lanes.iter().any(|lane| has_part(lane, kind))
}

/// Whether some latch borrows.
fn has_lent(sheet: &Sheet) -> bool {
    sheet.lanes.iter().any(|lane| lane.borrowed > 0)
}

/// Whether elements of a kind are open for some time.
fn has_window(kind: Kind) -> bool {
    kind != Kind::Flop && kind != Kind::Clock
}

/// Whether the setup of a latch or of a flop is drawn.
fn has_setup(sheet: &Sheet) -> bool {
    sheet
        .lanes
        .iter()
        .any(|lane| has_window(lane.kind) && lane.setup > 0)
        || occurs(sheet, PartKind::Setup)
}

/// Adds a colour and its word to the legend, and says where the next one stands, in pixels.
pub fn push_word(
    forms: &mut Vec<Form>,
    alloc: Global,
    spot: Spot,
    colour: Colour,
    word: &[u8],
) -> Result<u32, OutOfMemory>
    requires x { spot.x ≤ 10000 }
    requires y { spot.y ≤ 10000 }
    requires short { length word.now ≤ 20 }
    ensures { IfOk result (λ x. x ≤ spot.x + 200) }
{
    let beam = Beam {
        from: spot.x,
        to: spot.x + 14,
        y: spot.y,
        height: 12,
    };
    forms.push(beam_of(beam, Paint::Filled(colour), None))?;
    let text = Spot {
        x: spot.x + 20,
        y: spot.y + 10,
    };
    forms.push(soft_words(text, Name::new(alloc, word)?))?;
    Ok(spot.x + 38 + room(word.len(), 11))
}

/// The same where the colour occurs.
fn push_if(
    forms: &mut Vec<Form>,
    alloc: Global,
    occurs: bool,
    spot: Spot,
    colour: Colour,
    word: &[u8],
) -> Result<u32, OutOfMemory>
    requires x { spot.x ≤ 10000 }
    requires y { spot.y ≤ 10000 }
    requires short { length word.now ≤ 20 }
    ensures { IfOk result (λ x. x ≤ spot.x + 200) }
{
    if occurs {
        push_word(forms, alloc, spot, colour, word)
    } else {
        Ok(spot.x)
    }
}

/// The word for gates: in a table each arc is one.
fn gate_word(table: bool) -> &'static [u8]
    ensures { length result.now ≤ 4 }
{
    if table { b"arc" } else { b"gate" }
}

/// Adds the words of the legend for rows: when their elements are open, and what these take.
fn push_element_words(
    forms: &mut Vec<Form>,
    alloc: Global,
    sheet: &Sheet,
    y: u32,
) -> Result<u32, OutOfMemory>
    requires { y ≤ 10000 }
    ensures { IfOk result (λ x. x ≤ 1072) }
{
    let lent = has_lent(sheet);
    let setup = has_setup(sheet);
    let own = occurs(sheet, PartKind::Own);
    let x = push_word(forms, alloc, Spot { x: LEFT, y }, Colour::Open, b"open")?;
    let x = push_if(forms, alloc, lent, Spot { x, y }, Colour::Lent, b"borrowed")?;
    let x = push_if(forms, alloc, setup, Spot { x, y }, Colour::Setup, b"setup")?;
    push_if(
        forms,
        alloc,
        own,
        Spot { x, y },
        Colour::Own,
        b"latch or flop",
    )
}

/// Adds the legend at a height, what the colours that occur are for, and says where one more word would stand, in
/// pixels.
pub fn push_legend(
    forms: &mut Vec<Form>,
    alloc: Global,
    sheet: &Sheet,
    y: u32,
) -> Result<u32, OutOfMemory>
    requires { y ≤ 10000 }
    ensures { IfOk result (λ x. x ≤ 1672) }
{
    let gates = occurs(sheet, PartKind::Gate);
    let wires = occurs(sheet, PartKind::Wire);
    let rules = occurs(sheet, PartKind::Rule);
    let gate = gate_word(sheet.table);
    let x = push_element_words(forms, alloc, sheet, y)?;
    let x = push_if(forms, alloc, gates, Spot { x, y }, Colour::Gate, gate)?;
    let x = push_if(forms, alloc, wires, Spot { x, y }, Colour::Wire, b"wire")?;
    push_if(
        forms,
        alloc,
        rules,
        Spot { x, y },
        Colour::Rule,
        b"rule of the clock",
    )
}
