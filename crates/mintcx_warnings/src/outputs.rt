//! Listed outputs that are due later than the next edge of their phase.
ghost use Rattle.std.specs.Prelude.{◌≡◌, ◌≤◌, ◌++◌, IfOk, IfSome, OnOk, length};
ghost use Rattle.mintcx_warnings.specs.Outputs.{late_help, late_kind, late_label, late_said, late_verb, late_what};
ghost use Rattle.mintcx_warnings.specs.Outputs.{late_why, width_text};
ghost use Rattle.mintcx_warnings.specs.Warnings.{IsWarning};

use crate::said::Said;
use crate::writing::{Scene, put_more, put_quoted, warning_text};
use mintc_text::{Bytes, Lines, OutOfMemory};
use std::alloc::Global;

/// Listed outputs on a phase of flops: the first by its name, how many there are, and the phase by its name; and how
/// wide the phase is, as people read it, or no byte where that isn't known.
#[derive(Clone, Copy)]
pub struct Late<'a> {
    pub output: &'a [u8],
    pub count: usize,
    pub phase: &'a [u8],
    pub width: &'a [u8],
}

/// What kind of thing so many are.
fn late_kind(count: usize) -> &'static [u8]
    ensures { result.now ≡ late_kind count }
{
    if count <= 1 { b"output " } else { b"outputs " }
}

/// How that goes on.
fn late_verb(count: usize) -> &'static [u8]
    ensures { result.now ≡ late_verb count }
{
    if count <= 1 { b" is" } else { b" are" }
}

/// Which outputs they are.
fn late_what(alloc: Global, late: &Late<'_>) -> Result<Bytes, OutOfMemory>
    ensures { IfOk result (λ what. what ≡ late_what late.now.output.now late.now.count late.now.phase.now) }
{
    let mut lines = Lines::new(alloc);
    lines.put(late_kind(late.count))?;
    put_quoted(&mut lines, late.output)?;
    put_more(&mut lines, b" and ", late.count)?;
    lines.put(late_verb(late.count))?;
    lines.put(b" due later than the next edge of ")?;
    put_quoted(&mut lines, late.phase)?;
    Ok(Bytes::new(lines.into_bytes()))
}

/// Writes how wide a phase is.
fn put_width(lines: &mut Lines, width: &[u8]) -> Result<(), OutOfMemory>
    ensures { OnOk result (lines.new ≡ lines.old ++ width_text width.now) }
{
    if width.is_empty() {
        lines.put(b"its width")
    } else {
        lines.put(width)
    }
}

/// When they are due.
fn late_label(alloc: Global, phase: &[u8], width: &[u8]) -> Result<Bytes, OutOfMemory>
    ensures { IfOk result (λ label. label ≡ late_label phase.now width.now) }
{
    let mut lines = Lines::new(alloc);
    lines.put(b" due where ")?;
    put_quoted(&mut lines, phase)?;
    lines.put(b" ends, a cycle and ")?;
    put_width(&mut lines, width)?;
    lines.put(b" after its data's edge")?;
    Ok(Bytes::new(lines.into_bytes()))
}

/// Why that is so.
fn late_why(alloc: Global, phase: &[u8]) -> Result<Bytes, OutOfMemory>
    ensures { IfOk result (λ why. why ≡ late_why phase.now) }
{
    let mut lines = Lines::new(alloc);
    lines.put(b"all latches and flops on ")?;
    put_quoted(&mut lines, phase)?;
    lines.put(b" are flops")?;
    Ok(Bytes::new(lines.into_bytes()))
}

/// What helps.
fn late_help(alloc: Global, phase: &[u8]) -> Result<Bytes, OutOfMemory>
    ensures { IfOk result (λ help. help ≡ late_help phase.now) }
{
    let mut lines = Lines::new(alloc);
    lines.put(b"bind a phase to end where ")?;
    put_quoted(&mut lines, phase)?;
    lines.put(b" starts, and list the output on it: `mintcx explain outputs`")?;
    Ok(Bytes::new(lines.into_bytes()))
}

/// What is said of such outputs.
fn late_said(alloc: Global, late: &Late<'_>) -> Result<Said, OutOfMemory>
    ensures { IfOk result (λ said. said ≡ late_said late.now.output.now late.now.count late.now.phase.now
        late.now.width.now) }
{
    let what = late_what(alloc, late)?;
    let label = late_label(alloc, late.phase, late.width)?;
    let why = late_why(alloc, late.phase)?;
    let help = late_help(alloc, late.phase)?;
    Ok(Said {
        what,
        label,
        why,
        help,
    })
}

/// The warning of listed outputs on a phase of flops, shown at the port of the first.
pub fn late_text(alloc: Global, late: &Late<'_>, scene: &Scene<'_>) -> Result<Bytes, OutOfMemory>
    requires place { IfSome scene.now.place (λ range. range.from ≤ length scene.now.text.now) }
    ensures { IfOk result (IsWarning scene.now.name.now scene.now.text.now scene.now.place
        (late_said late.now.output.now late.now.count late.now.phase.now late.now.width.now)) }
{
    let said = late_said(alloc, late)?;
    warning_text(alloc, scene, &said)
}
