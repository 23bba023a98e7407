//! Latches that lead to latches on the same phase.
ghost use Rattle.std.specs.Prelude.{◌≡◌, ◌<◌, ◌≤◌, ◌++◌, IfOk, IfSome, OnOk, length};
ghost use Rattle.mintc_timing.specs.Design.{element_count};
ghost use Rattle.mintcx_warnings.specs.Latches.{same_label, same_phase_said, same_verb, same_what, same_why};
ghost use Rattle.mintcx_warnings.specs.Warnings.{IsWarning};

use crate::said::Said;
use crate::writing::{Scene, owned, put_more, put_quoted, warning_text};
use mintc_text::{Bytes, Lines, OutOfMemory};
use mintc_timing::Flat;
use mintcx_frame::{element_name, put_number};
use mintcx_lint::SamePhase;
use std::alloc::Global;

/// The verb of so many pairs.
fn same_verb(count: usize) -> &'static [u8]
    ensures { result.now ≡ same_verb count }
{
    if count == 1 { b"leads" } else { b"lead" }
}

/// How many pairs of how many there are.
fn same_what(alloc: Global, count: usize, all: usize) -> Result<Bytes, OutOfMemory>
    ensures { IfOk result (λ what. what ≡ same_what count all) }
{
    let mut lines = Lines::new(alloc);
    put_number(&mut lines, count as u64)?;
    lines.put(b" of ")?;
    put_number(&mut lines, all as u64)?;
    lines.put(b" pairs ")?;
    lines.put(same_verb(count))?;
    lines.put(b" from a latch to a latch on the same phase")?;
    Ok(Bytes::new(lines.into_bytes()))
}

/// The first pair by its names, and how many others there are.
fn same_label(alloc: Global, from: &[u8], to: &[u8], count: usize) -> Result<Bytes, OutOfMemory>
    ensures { IfOk result (λ label. label ≡ same_label from.now to.now count) }
{
    let mut lines = Lines::new(alloc);
    lines.put(b" ")?;
    put_quoted(&mut lines, from)?;
    lines.put(b" to ")?;
    put_quoted(&mut lines, to)?;
    put_more(&mut lines, b", and ", count)?;
    Ok(Bytes::new(lines.into_bytes()))
}

/// Why it is worth a look.
fn same_why(alloc: Global) -> Result<Bytes, OutOfMemory>
    ensures { IfOk result (λ why. why ≡ same_why) }
{
    let mut lines = Lines::new(alloc);
    lines.put(b"data of one opening is taken by the next one, a cycle later; ")?;
    lines.put(b"where flops were split into latches the same opening is often meant")?;
    Ok(Bytes::new(lines.into_bytes()))
}

/// What is said of such pairs, of so many in all.
fn same_phase_said(
    alloc: Global,
    flat: &Flat,
    all: usize,
    found: &SamePhase,
) -> Result<Said, OutOfMemory>
    requires from { found.now.first.from < element_count flat.now }
    requires to { found.now.first.to < element_count flat.now }
    ensures { IfOk result (λ said. said ≡ same_phase_said flat.now all found.now) }
{
    let what = same_what(alloc, found.count, all)?;
    let from = element_name(flat, found.first.from);
    let to = element_name(flat, found.first.to);
    let label = same_label(alloc, from, to, found.count)?;
    let why = same_why(alloc)?;
    let help = owned(alloc, b"give one of the two a phase of its own")?;
    Ok(Said {
        what,
        label,
        why,
        help,
    })
}

/// The warning of pairs of latches on one phase, of so many pairs in all, shown at the name of that phase.
pub fn same_phase_text(
    alloc: Global,
    flat: &Flat,
    all: usize,
    found: &SamePhase,
    scene: &Scene<'_>,
) -> Result<Bytes, OutOfMemory>
    requires from { found.now.first.from < element_count flat.now }
    requires to { found.now.first.to < element_count flat.now }
    requires place { IfSome scene.now.place (λ range. range.from ≤ length scene.now.text.now) }
    ensures { IfOk result (IsWarning scene.now.name.now scene.now.text.now scene.now.place
        (same_phase_said flat.now all found.now)) }
{
    let said = same_phase_said(alloc, flat, all, found)?;
    warning_text(alloc, scene, &said)
}
