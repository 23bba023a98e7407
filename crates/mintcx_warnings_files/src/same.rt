//! The warning of latches that lead to latches on the same phase.
ghost use Rattle.std.specs.Prelude.{◌<◌, IfOk, length};
ghost use Rattle.mintc_flatten_hierarchy.specs.Shape.{IsGivenHierarchy};
ghost use Rattle.mintc_timing.specs.Design.{element_count};
ghost use Rattle.mintcx_warnings.specs.Latches.{same_phase_said};
ghost use Rattle.mintcx_warnings_files.specs.Written.{IsOfPairs, IsShownIn};

use crate::files::{File, scene};
use crate::parts::Parts;
use mintc_text::{Bytes, OutOfMemory};
use mintc_timing::System;
use mintcx_finders::{Item, item_value};
use mintcx_lint::{SamePhase, same_phase, storage_count};
use mintcx_warnings::same_phase_text;
use std::alloc::Global;

/// The warning of some pairs of latches on one phase.
fn pairs_text(
    alloc: Global,
    system: &System,
    found: &SamePhase,
    clock: &File<'_>,
) -> Result<Bytes, OutOfMemory>
    requires from { found.now.first.from < element_count system.now.flat }
    requires to { found.now.first.to < element_count system.now.flat }
    ensures { IfOk result (IsShownIn clock.now (same_phase_said system.now.flat (length system.now.pairs) found.now)) }
{
    let flat = system.flat();
    let phase = flat.element(found.first.from).phase;
    let place = item_value(clock.text, Item::Phase, phase, b"name");
    let all = system.pairs().len();
    same_phase_text(alloc, flat, all, found, &scene(clock, place))
}

/// The warning of latches that lead to latches on the same phase; no byte where there are none.
pub(crate) fn same_text(
    alloc: Global,
    parts: &Parts,
    clock: &File<'_>,
) -> Result<Bytes, OutOfMemory>
    requires { IsGivenHierarchy parts.now.cells parts.now.hierarchy }
    ensures { IfOk result (IsOfPairs clock.now parts.now) }
{
    let storage = storage_count(&parts.hierarchy, &parts.cells);
    match same_phase(&parts.system, storage) {
        Some(found) => pairs_text(alloc, &parts.system, &found, clock),
        None => Ok(Bytes::new(Vec::new(alloc))),
    }
}
