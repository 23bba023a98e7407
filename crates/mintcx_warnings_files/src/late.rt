//! The warnings of listed outputs on phases of flops.
ghost use Rattle.std.specs.Prelude.{◌≡◌, IfOk, length};
ghost use Rattle.mintc_flatten_hierarchy.specs.Shape.{IsGivenHierarchy};
ghost use Rattle.mintc_timing.specs.Design.{phase_count};
ghost use Rattle.mintc_timing.specs.Limits.{IsPhase};
ghost use Rattle.mintcx_warnings_files.specs.Written.{IsOfPhase, IsOfPhases, IsShownIn, late_of, late_on, output_name};

use crate::files::{File, scene};
use crate::parts::Parts;
use mintc_clock::Listed;
use mintc_text::{Bytes, Lines, Numbers, OutOfMemory};
use mintcx_finders::{Item, item_value};
use mintcx_frame::phase_name;
use mintcx_lint::{late_outputs, storage_count};
use mintcx_warnings::{Late, late_text};
use std::alloc::Global;

/// The numbers of the late outputs on a phase.
fn late_on(alloc: Global, parts: &Parts, phase: u32) -> Result<Numbers, OutOfMemory>
    requires { IsGivenHierarchy parts.now.cells parts.now.hierarchy }
    ensures { IfOk result (λ numbers. numbers ≡ late_on parts.now phase) }
{
    let storage = storage_count(&parts.hierarchy, &parts.cells);
    late_outputs(
        alloc,
        parts.system.flat(),
        storage,
        parts.clock.outputs.items(),
        phase,
    )
}

/// The name of the port of a listed output, by its number from 1 on; no byte where there is none.
fn output_name(outputs: &[Listed], number: u32) -> &[u8]
    ensures { result.now ≡ output_name outputs.now number }
{
    match outputs.get((number as usize).saturating_sub(1)) {
        Some(listed) => listed.port.bytes(),
        None => b"",
    }
}

/// The warning of so many late outputs on a phase, the first of which has this number.
fn outputs_text(
    alloc: Global,
    parts: &Parts,
    clock: &File<'_>,
    phase: u32,
    first: u32,
    count: usize,
) -> Result<Bytes, OutOfMemory>
    requires phase { IsPhase (phase_count parts.now.system.flat) phase }
    requires count { count ≡ length (late_on parts.now phase) }
    ensures { IfOk result (IsShownIn clock.now (late_of parts.now phase first)) }
{
    let late = Late {
        output: output_name(parts.clock.outputs.items(), first),
        count,
        phase: phase_name(parts.system.flat(), phase),
        width: b"",
    };
    let place = item_value(clock.text, Item::Output, first, b"port");
    late_text(alloc, &late, &scene(clock, place))
}

/// The warning of late outputs on a phase; no byte where there are none.
fn phase_text(
    alloc: Global,
    parts: &Parts,
    clock: &File<'_>,
    phase: u32,
) -> Result<Bytes, OutOfMemory>
    requires given { IsGivenHierarchy parts.now.cells parts.now.hierarchy }
    requires phase { IsPhase (phase_count parts.now.system.flat) phase }
    ensures { IfOk result (IsOfPhase clock.now parts.now phase) }
{
    let numbers = late_on(alloc, parts, phase)?;
    match numbers.items() {
        [] => Ok(Bytes::new(Vec::new(alloc))),
        [first, ..] => outputs_text(alloc, parts, clock, phase, *first, numbers.items().len()),
    }
}

/// The warnings of late outputs on all phases, one behind the other.
pub(crate) fn late_texts(
    alloc: Global,
    parts: &Parts,
    clock: &File<'_>,
) -> Result<Bytes, OutOfMemory>
    requires { IsGivenHierarchy parts.now.cells parts.now.hierarchy }
    ensures { IfOk result (IsOfPhases clock.now parts.now) }
{
    let mut lines = Lines::new(alloc);
    for at in 0..parts.system.flat().phase_count() {
        lines.put(phase_text(alloc, parts, clock, at + 1)?.items())?;
    }
    Ok(Bytes::new(lines.into_bytes()))
}
