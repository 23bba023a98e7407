//! What stands above and below the rows of a chain: how long it takes.
ghost use Rattle.std.specs.Prelude.{◌≤◌};
ghost use Rattle.mintcx_chart.specs.Ranges.{IsAcross, IsHeight};
ghost use Rattle.mintcx_chart.specs.Sheets.{IsLane};
ghost use Rattle.mintcx_draw.specs.Chains.{IsChain};

use crate::chain::{Chain, SHOWN};
use mintc_text::{Lines, Name, OutOfMemory};
use mintcx_chart::{
    Beam, Kind, Lane, Spot, beam_of, bold_words, filled, name_of, push_diamond, put_cycle,
    put_span, stroke, words,
};
use mintcx_frame::put_number;
use mintcx_optima::put_counted;
use mintcx_picture::{Anchor, Colour, Form, Paint, Step, room};
use std::alloc::Global;

/// Writes how long the chain takes, and in how many cycles.
fn put_takes(lines: &mut Lines, chain: &Chain) -> Result<(), OutOfMemory>
    requires { IsChain chain.now }
{
    put_span(lines, chain.sheet.unit, chain.sums.delay)?;
    lines.put(b" in ")?;
    put_counted(lines, chain.sums.cycles, b"cycle")
}

/// What a picture shows.
pub(crate) fn about_of(alloc: Global, chain: &Chain) -> Result<Name, OutOfMemory>
    requires { IsChain chain.now }
{
    let mut lines = Lines::new(alloc);
    lines.put(b"A chain of ")?;
    put_counted(&mut lines, chain.members as u64, b"constraint")?;
    lines.put(b" takes ")?;
    put_takes(&mut lines, chain)?;
    lines.put(b".")?;
    name_of(alloc, lines)
}

/// The second line at the top.
pub(crate) fn second_line(alloc: Global, chain: &Chain) -> Result<Name, OutOfMemory>
    requires { IsChain chain.now }
{
    let mut lines = Lines::new(alloc);
    lines.put(b"decided by a chain of ")?;
    put_counted(&mut lines, chain.members as u64, b"constraint")?;
    lines.put(b" that takes ")?;
    put_takes(&mut lines, chain)?;
    name_of(alloc, lines)
}

/// How it is said that so many stages are not drawn.
fn more_word(count: u64) -> &'static [u8] {
    if count == 1 {
        b" more constraint, to the end of cycle "
    } else {
        b" more constraints, to the end of cycle "
    }
}

/// How many stages are not drawn, in words.
fn more_words(alloc: Global, chain: &Chain) -> Result<Name, OutOfMemory> {
    let mut lines = Lines::new(alloc);
    lines.put(b"and ")?;
    let count = chain.members.saturating_sub(SHOWN) as u64;
    put_number(&mut lines, count)?;
    lines.put(more_word(count))?;
    put_number(&mut lines, chain.sums.cycles)?;
    lines.put(b", not drawn")?;
    name_of(alloc, lines)
}

/// Adds the line that says how many stages are not drawn.
fn push_more(forms: &mut Vec<Form>, alloc: Global, chain: &Chain) -> Result<(), OutOfMemory>
    requires { IsChain chain.now }
{
    let spot = Spot {
        x: 20,
        y: chain.sheet.foot - 14,
    };
    let text = more_words(alloc, chain)?;
    forms.push(words(spot, text, 12, Colour::Soft, Anchor::Start))?;
    Ok(())
}

/// How long the chain takes, in words.
fn takes_words(alloc: Global, chain: &Chain) -> Result<Name, OutOfMemory>
    requires { IsChain chain.now }
{
    let mut lines = Lines::new(alloc);
    put_takes(&mut lines, chain)?;
    if chain.sums.cycles > 1 {
        lines.put(b", ")?;
        put_cycle(&mut lines, &chain.sheet)?;
        lines.put(b" each")?;
    }
    name_of(alloc, lines)
}

/// Adds a tip of the measure, which points from one place at another.
fn push_tip(
    forms: &mut Vec<Form>,
    alloc: Global,
    at: u32,
    back: u32,
    y: u32,
) -> Result<(), OutOfMemory>
    requires y { IsHeight y }
    requires low { 8 ≤ y }
{
    let steps = vec![in alloc;
        Step::Move { x: at, y },
        Step::Line { x: back, y: y - 4 },
        Step::Down(y + 4),
        Step::Close,
    ]?;
    Ok(forms.push(filled(steps, Colour::Ink))?)
}

/// Adds the lines of the measure below the rows, from one place to another.
fn push_measure(
    forms: &mut Vec<Form>,
    alloc: Global,
    from: u32,
    to: u32,
    y: u32,
) -> Result<(), OutOfMemory>
    requires from { IsAcross from }
    requires to { IsAcross to }
    requires y { IsHeight y }
    requires low { 8 ≤ y }
{
    let steps = vec![in alloc;
        Step::Move { x: from, y: y - 8 },
        Step::Down(y + 8),
        Step::Move { x: to, y: y - 8 },
        Step::Down(y + 8),
        Step::Move { x: from, y },
        Step::Across(to),
    ]?;
    forms.push(stroke(steps, Colour::Ink, 1))?;
    push_tip(forms, alloc, from, from + 8, y)?;
    push_tip(forms, alloc, to, to - 8, y)
}

/// Adds the words of the measure: in its middle where there is room, else behind it.
fn push_measured(
    forms: &mut Vec<Form>,
    text: Name,
    from: u32,
    to: u32,
    y: u32,
) -> Result<(), OutOfMemory>
    requires from { IsAcross from }
    requires to { IsAcross to }
    requires y { IsHeight y }
    requires low { 9 ≤ y }
{
    let room = room(text.bytes().len(), 12);
    if to < from + room + 36 {
        let spot = Spot {
            x: to + 10,
            y: y + 4,
        };
        forms.push(bold_words(spot, text, 12, Anchor::Start))?;
        return Ok(());
    }
    let begins = (from + to - (room + 16)) / 2;
    let beam = Beam {
        from: begins,
        to: begins + room + 16,
        y: y - 9,
        height: 18,
    };
    forms.push(beam_of(beam, Paint::Filled(Colour::Paper), None))?;
    let spot = Spot {
        x: (from + to) / 2,
        y: y + 4,
    };
    forms.push(bold_words(spot, text, 12, Anchor::Middle))?;
    Ok(())
}

/// Adds how long the chain takes, from the first row to the last.
fn push_takes(
    forms: &mut Vec<Form>,
    alloc: Global,
    chain: &Chain,
    first: &Lane,
    last: &Lane,
) -> Result<(), OutOfMemory>
    requires chain { IsChain chain.now }
    requires first { IsLane first.now }
    requires last { IsLane last.now }
{
    if last.kind == Kind::Clock {
        push_diamond(forms, alloc, chain.sheet.scale.place(last.at), last.top)?;
    }
    let from = chain.sheet.scale.place(first.at);
    let to = chain.sheet.scale.place(last.at);
    let y = chain.sheet.foot + 16;
    push_measure(forms, alloc, from, to, y)?;
    let text = takes_words(alloc, chain)?;
    push_measured(forms, text, from, to, y)
}

/// Adds what stands below the rows: how long the whole chain takes, or how much of it isn't drawn.
pub(crate) fn push_end(
    forms: &mut Vec<Form>,
    alloc: Global,
    chain: &Chain,
) -> Result<(), OutOfMemory>
    requires { IsChain chain.now }
{
    match (chain.sheet.lanes.first(), chain.sheet.lanes.last()) {
        (Some(first), Some(last)) if chain.whole => push_takes(forms, alloc, chain, first, last),
        _ => push_more(forms, alloc, chain),
    }
}
