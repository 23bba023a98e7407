//! How forms are written.
ghost use Rattle.std.specs.Prelude.{◌≡◌, ◌++◌, flat_map, OnOk};
ghost use Rattle.mintcx_picture.specs.Forms.{anchor_text, area_text, bold_text, box_text, dash_text, form_text};
ghost use Rattle.mintcx_picture.specs.Forms.{label_head, label_text, path_line_text, paint_text, solid_text, spot_text};
ghost use Rattle.mintcx_picture.specs.Forms.{tip_text};

use crate::escapes::put_escaped;
use crate::forms::{Anchor, Area, Form, Label, Line, Paint, Solid};
use crate::numbers::{put_numbered, put_worded};
use crate::paths::put_steps;
use mintc_text::{Lines, Name, OutOfMemory};

/// How it is written where a text's place is not at its first letter.
fn anchor_text(anchor: Anchor) -> &'static [u8]
    ensures { result.now ≡ anchor_text anchor }
{
    match anchor {
        Anchor::Start => b"",
        Anchor::Middle => b" text-anchor=\"middle\"",
        Anchor::End => b" text-anchor=\"end\"",
    }
}

/// How it is written that a text is bold.
fn bold_text(bold: bool) -> &'static [u8]
    ensures { result.now ≡ bold_text bold }
{
    if bold { b" font-weight=\"bold\"" } else { b"" }
}

/// How it is written that a line is dashed.
fn dash_text(dashed: bool) -> &'static [u8]
    ensures { result.now ≡ dash_text dashed }
{
    if dashed {
        b" stroke-dasharray=\"4 3\""
    } else {
        b""
    }
}

/// Writes a place.
fn put_spot(lines: &mut Lines, x: u32, y: u32) -> Result<(), OutOfMemory>
    ensures { OnOk result (lines.new ≡ lines.old ++ spot_text x y) }
{
    put_numbered(lines, b" x=\"", x)?;
    put_numbered(lines, b" y=\"", y)
}

/// Writes a place and a size.
pub(crate) fn put_box(
    lines: &mut Lines,
    x: u32,
    y: u32,
    width: u32,
    height: u32,
) -> Result<(), OutOfMemory>
    ensures { OnOk result (lines.new ≡ lines.old ++ box_text x y width height) }
{
    put_spot(lines, x, y)?;
    put_numbered(lines, b" width=\"", width)?;
    put_numbered(lines, b" height=\"", height)
}

/// Writes what stands before the words of a text.
fn put_label_head(lines: &mut Lines, label: &Label) -> Result<(), OutOfMemory>
    ensures { OnOk result (lines.new ≡ lines.old ++ label_head label.now) }
{
    put_spot(lines, label.x, label.y)?;
    put_numbered(lines, b" font-size=\"", label.size)?;
    put_worded(lines, b" fill=\"", label.fill.code())?;
    lines.put(anchor_text(label.anchor))?;
    lines.put(bold_text(label.bold))
}

/// Writes a text.
fn put_label(lines: &mut Lines, label: &Label) -> Result<(), OutOfMemory>
    ensures { OnOk result (lines.new ≡ lines.old ++ label_text label.now) }
{
    lines.put(b"<text")?;
    put_label_head(lines, label)?;
    lines.put(b">")?;
    put_escaped(lines, label.text.bytes())?;
    lines.put(b"</text>\n")
}

/// Writes how a rectangle is painted.
fn put_paint(lines: &mut Lines, paint: Paint) -> Result<(), OutOfMemory>
    ensures { OnOk result (lines.new ≡ lines.old ++ paint_text paint) }
{
    match paint {
        Paint::Filled(colour) => put_worded(lines, b" fill=\"", colour.code()),
        Paint::Outlined(colour) => put_worded(lines, b" fill=\"none\" stroke=\"", colour.code()),
    }
}

/// Writes how a rectangle ends, with the text that is shown over it.
fn put_tip(lines: &mut Lines, tip: &Option<Name>) -> Result<(), OutOfMemory>
    ensures { OnOk result (lines.new ≡ lines.old ++ tip_text tip.now) }
{
    match tip {
        Some(text) => {
            lines.put(b"><title>")?;
            put_escaped(lines, text.bytes())?;
            lines.put(b"</title></rect>\n")
        }
        None => lines.put(b"/>\n"),
    }
}

/// Writes a rectangle.
fn put_area(lines: &mut Lines, area: &Area) -> Result<(), OutOfMemory>
    ensures { OnOk result (lines.new ≡ lines.old ++ area_text area.now) }
{
    lines.put(b"<rect")?;
    put_box(lines, area.x, area.y, area.width, area.height)?;
    put_paint(lines, area.paint)?;
    put_tip(lines, &area.tip)
}

/// Writes a line.
fn put_line(lines: &mut Lines, line: &Line) -> Result<(), OutOfMemory>
    ensures { OnOk result (lines.new ≡ lines.old ++ path_line_text line.now) }
{
    lines.put(b"<path d=\"")?;
    put_steps(lines, line.steps.items())?;
    put_worded(lines, b"\" fill=\"none\" stroke=\"", line.stroke.code())?;
    put_numbered(lines, b" stroke-width=\"", line.width)?;
    lines.put(dash_text(line.dashed))?;
    lines.put(b"/>\n")
}

/// Writes a solid.
fn put_solid(lines: &mut Lines, solid: &Solid) -> Result<(), OutOfMemory>
    ensures { OnOk result (lines.new ≡ lines.old ++ solid_text solid.now) }
{
    lines.put(b"<path d=\"")?;
    put_steps(lines, solid.steps.items())?;
    put_worded(lines, b"\" fill=\"", solid.fill.code())?;
    lines.put(b"/>\n")
}

/// Writes a form, on a line of its own.
pub(crate) fn put_form(lines: &mut Lines, form: &Form) -> Result<(), OutOfMemory>
    ensures { OnOk result (lines.new ≡ lines.old ++ form_text form.now) }
{
    match form {
        Form::Text(label) => put_label(lines, label),
        Form::Rect(area) => put_area(lines, area),
        Form::Line(line) => put_line(lines, line),
        Form::Solid(solid) => put_solid(lines, solid),
    }
}
