//! The steps of paths.
ghost use Rattle.std.specs.Prelude.{◌≡◌, ◌++◌, flat_map, OnOk};
ghost use Rattle.mintcx_picture.specs.Paths.{line_text, place_text, step_text, steps_text};

use crate::numbers::put_decimal;
use mintc_text::{Items, Lines, OutOfMemory};

/// A step of a path.
#[derive(Clone, Copy, Debug, PartialEq, Eq, Drop)]
pub enum Step {
    /// To a place, with no line.
    Move { x: u32, y: u32 },
    /// In a line to a place.
    Line { x: u32, y: u32 },
    /// In a line at the same height.
    Across(u32),
    /// In a line straight down or up.
    Down(u32),
    /// Back to where the path began.
    Close,
}

/// The steps of a path, seen as their list.
pub type Steps = Items<Step>;

/// Writes a step to a place, by its letter.
fn put_place(lines: &mut Lines, letter: &[u8], x: u32, y: u32) -> Result<(), OutOfMemory>
    ensures { OnOk result (lines.new ≡ lines.old ++ place_text letter.now x y) }
{
    lines.put(letter)?;
    put_decimal(lines, x)?;
    lines.put(b" ")?;
    put_decimal(lines, y)
}

/// Writes a step along an axis, by its letter.
fn put_line(lines: &mut Lines, letter: &[u8], to: u32) -> Result<(), OutOfMemory>
    ensures { OnOk result (lines.new ≡ lines.old ++ line_text letter.now to) }
{
    lines.put(letter)?;
    put_decimal(lines, to)
}

/// Writes a step.
fn put_step(lines: &mut Lines, step: &Step) -> Result<(), OutOfMemory>
    ensures { OnOk result (lines.new ≡ lines.old ++ step_text step.now) }
{
    match step {
        Step::Move { x, y } => put_place(lines, b"M", *x, *y),
        Step::Line { x, y } => put_place(lines, b"L", *x, *y),
        Step::Across(x) => put_line(lines, b"H", *x),
        Step::Down(y) => put_line(lines, b"V", *y),
        Step::Close => lines.put(b"Z"),
    }
}

/// Writes the steps of a path.
pub(crate) fn put_steps(lines: &mut Lines, steps: &[Step]) -> Result<(), OutOfMemory>
    ensures { OnOk result (lines.new ≡ lines.old ++ steps_text steps.now) }
{
    for step in steps {
        put_step(lines, step)?;
    }
    Ok(())
}
