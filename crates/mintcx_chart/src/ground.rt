//! What lies below the rows of a chart: the lines at the top, the axis and the waves.
ghost use Rattle.mintcx_chart.specs.Sheets.{IsSheet};

use crate::axis::{push_cycles, push_edges, push_grid};
use crate::sheet::{Sheet, Spot, bold_words, words};
use crate::waves::push_waves;
use crate::wording::{moment_of, name_of, put_moment};
use mintc_text::{Lines, Name, OutOfMemory};
use mintcx_amounts::put_frequency;
use mintcx_picture::{Anchor, Colour, Form, Layer, cut};
use std::alloc::Global;

/// The bytes of a name that show, and a sign for each other one.
pub fn shown_subject(alloc: Global, name: &[u8]) -> Result<Name, OutOfMemory> {
    let mut bytes = Vec::new(alloc);
    for byte in name {
        let shows = 32 <= *byte && *byte <= 126;
        bytes.push(if shows { *byte } else { b'?' })?;
    }
    Name::new(alloc, &bytes)
}

/// Writes the cycle time.
pub fn put_cycle(lines: &mut Lines, sheet: &Sheet) -> Result<(), OutOfMemory>
    requires { IsSheet sheet.now }
{
    put_moment(lines, sheet.unit, sheet.den, i128::from(sheet.cycle))
}

/// The title of a chart: what it is of, and the cycle time.
pub fn title_of(alloc: Global, sheet: &Sheet, subject: &[u8]) -> Result<Name, OutOfMemory>
    requires { IsSheet sheet.now }
{
    let mut lines = Lines::new(alloc);
    lines.put(subject)?;
    lines.put(b": cycle ")?;
    put_cycle(&mut lines, sheet)?;
    name_of(alloc, lines)
}

/// The line at the top.
fn headline(alloc: Global, sheet: &Sheet, subject: &[u8]) -> Result<Name, OutOfMemory>
    requires { IsSheet sheet.now }
{
    let most = (sheet.scale.wide as usize + 252) / 11 - 30;
    let mut lines = Lines::new(alloc);
    lines.put(cut(alloc, subject, most)?.bytes())?;
    lines.put(b": cycle ")?;
    put_cycle(&mut lines, sheet)?;
    lines.put(b", ")?;
    put_frequency(&mut lines, &moment_of(i128::from(sheet.cycle), sheet.den))?;
    name_of(alloc, lines)
}

/// Adds the lines at the top, the second one as it is given.
fn push_title(
    forms: &mut Vec<Form>,
    alloc: Global,
    sheet: &Sheet,
    subject: &[u8],
    second: Name,
) -> Result<(), OutOfMemory>
    requires { IsSheet sheet.now }
{
    let first = Spot { x: 20, y: 32 };
    forms.push(bold_words(first, headline(alloc, sheet, subject)?, 17, Anchor::Start))?;
    let below = Spot { x: 20, y: 54 };
    forms.push(words(below, second, 12, Colour::Soft, Anchor::Start))?;
    Ok(())
}

/// What lies below the rows: the lines at the top, the first one with what the chart is of, then the axis and the
/// waves.
pub fn ground_of(
    alloc: Global,
    sheet: &Sheet,
    subject: &[u8],
    second: Name,
) -> Result<Layer, OutOfMemory>
    requires { IsSheet sheet.now }
{
    let mut forms = Vec::new(alloc);
    push_title(&mut forms, alloc, sheet, subject, second)?;
    push_cycles(&mut forms, alloc, sheet)?;
    push_grid(&mut forms, alloc, sheet)?;
    push_edges(&mut forms, alloc, sheet)?;
    push_waves(&mut forms, alloc, sheet)?;
    Ok(Layer::new(forms))
}
