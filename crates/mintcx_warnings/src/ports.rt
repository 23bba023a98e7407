//! Ports of the top that no phase and no list names.
ghost use Rattle.std.specs.Prelude.{◌≡◌, ◌<◌, ◌≤◌, ◌+◌, ◌^◌, ◌++◌, IfOk, IfSome, OnOk, codes, length};
ghost use Rattle.mintcx_warnings.specs.Ports.{kinds_text, missing_text, plural, ports_label, ports_said, ports_what};
ghost use Rattle.mintcx_warnings.specs.Ports.{so_many};
ghost use Rattle.mintcx_warnings.specs.Warnings.{IsWarning};

use crate::said::Said;
use crate::writing::{Scene, owned, put_more, put_quoted, warning_text};
use mintc_text::{Bytes, Lines, OutOfMemory};
use mintcx_frame::put_number;
use mintcx_lint::Unlisted;
use std::alloc::Global;

/// What the name of a kind ends with where there are so many.
fn plural(count: usize) -> &'static [u8]
    ensures { result.now ≡ plural count }
{
    if count == 1 { b"" } else { b"s" }
}

/// Writes so many of a kind.
fn put_so_many(lines: &mut Lines, count: usize, kind: &[u8]) -> Result<(), OutOfMemory>
    ensures { OnOk result (lines.new ≡ lines.old ++ so_many count kind.now) }
{
    put_number(lines, count as u64)?;
    lines.put(kind)?;
    lines.put(plural(count))
}

/// Writes how many are inputs and how many are outputs, where there are some of both.
fn put_both(lines: &mut Lines, inputs: usize, outputs: usize) -> Result<(), OutOfMemory>
    ensures { OnOk result (lines.new
        ≡ lines.old ++ (so_many inputs (codes " input") ++ codes ", " ++ so_many outputs (codes " output"))) }
{
    put_so_many(lines, inputs, b" input")?;
    lines.put(b", ")?;
    put_so_many(lines, outputs, b" output")
}

/// Writes how many are inputs and how many are outputs.
fn put_kinds(lines: &mut Lines, inputs: usize, outputs: usize) -> Result<(), OutOfMemory>
    ensures { OnOk result (lines.new ≡ lines.old ++ kinds_text inputs outputs) }
{
    if inputs == 0 {
        put_so_many(lines, outputs, b" output")
    } else if outputs == 0 {
        put_so_many(lines, inputs, b" input")
    } else {
        put_both(lines, inputs, outputs)
    }
}

/// Where so many are missing.
fn missing_text(count: usize) -> &'static [u8]
    ensures { result.now ≡ missing_text count }
{
    if count == 1 {
        b" of the top is in no list: "
    } else {
        b" of the top are in no list: "
    }
}

/// How many there are.
fn ports_what(alloc: Global, inputs: usize, outputs: usize) -> Result<Bytes, OutOfMemory>
    requires { inputs + outputs < 2 ^ 64 }
    ensures { IfOk result (λ what. what ≡ ports_what inputs outputs) }
{
    let count = inputs + outputs;
    let mut lines = Lines::new(alloc);
    put_so_many(&mut lines, count, b" port")?;
    lines.put(missing_text(count))?;
    put_kinds(&mut lines, inputs, outputs)?;
    Ok(Bytes::new(lines.into_bytes()))
}

/// The first by its name, and how many others there are.
fn ports_label(alloc: Global, first: &[u8], count: usize) -> Result<Bytes, OutOfMemory>
    ensures { IfOk result (λ label. label ≡ ports_label first.now count) }
{
    let mut lines = Lines::new(alloc);
    lines.put(b" ")?;
    put_quoted(&mut lines, first)?;
    put_more(&mut lines, b", and ", count)?;
    Ok(Bytes::new(lines.into_bytes()))
}

/// What is said of such ports.
fn ports_said(alloc: Global, found: &Unlisted) -> Result<Said, OutOfMemory>
    requires { found.now.inputs + found.now.outputs < 2 ^ 64 }
    ensures { IfOk result (λ said. said ≡ ports_said found.now) }
{
    let what = ports_what(alloc, found.inputs, found.outputs)?;
    let label = ports_label(alloc, found.first.bytes(), found.inputs + found.outputs)?;
    let why = owned(
        alloc,
        b"no time is known there: paths from such inputs and to such outputs are not judged",
    )?;
    let help = owned(
        alloc,
        b"list them in the clock description, as `[[input]]` or `[[output]]` with a phase",
    )?;
    Ok(Said {
        what,
        label,
        why,
        help,
    })
}

/// The warning of ports of the top that no phase and no list names, shown at the first of them.
pub fn ports_text(alloc: Global, found: &Unlisted, scene: &Scene<'_>) -> Result<Bytes, OutOfMemory>
    requires few { found.now.inputs + found.now.outputs < 2 ^ 64 }
    requires place { IfSome scene.now.place (λ range. range.from ≤ length scene.now.text.now) }
    ensures { IfOk result (IsWarning scene.now.name.now scene.now.text.now scene.now.place (ports_said found.now)) }
{
    let said = ports_said(alloc, found)?;
    warning_text(alloc, scene, &said)
}
