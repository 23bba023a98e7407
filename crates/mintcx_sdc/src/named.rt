//! The clock of a design whose phases have names alone, as that of a table.
ghost use Rattle.std.specs.Prelude.{◌≡◌, map, IfOk};
ghost use Rattle.mintc_clock.specs.Laws.{KeepsLimits};
ghost use Rattle.mintcx_sdc.specs.Named.{named_clock, named_phase};

use mintc_clock::{BoundList, Clock, ListedList, PhaseDef, PhaseDefList};
use mintc_text::{Name, OutOfMemory};
use mintc_timing::Flat;
use std::alloc::Global;

/// A phase that is active while the port of its name is high.
fn named_phase(alloc: Global, name: &Name) -> Result<PhaseDef, OutOfMemory>
    ensures { IfOk result (λ phase. phase ≡ named_phase name.now) }
{
    let port = name.copy(alloc)?;
    Ok(PhaseDef {
        name: name.copy(alloc)?,
        port,
        high: true,
    })
}

/// Phases of these names.
fn named_phases(alloc: Global, names: &[Name]) -> Result<PhaseDefList, OutOfMemory>
    ensures { IfOk result (λ phases. phases ≡ map named_phase names.now) }
{
    let mut phases = Vec::new(alloc);
    for name in names {
        phases.push(named_phase(alloc, name)?)?;
    }
    Ok(PhaseDefList::new(phases))
}

/// The clock of a design whose phases have names alone, as that of a table: each phase is active while the port of its
/// name is high, and no port is listed.
pub fn clock_by_names(alloc: Global, flat: &Flat) -> Result<Clock, OutOfMemory>
    ensures value { IfOk result (λ clock. clock ≡ named_clock flat.now.phases) }
    ensures limits { IfOk result KeepsLimits }
{
    Ok(Clock {
        top: None,
        phases: named_phases(alloc, flat.phases().items())?,
        bounds: BoundList::new(Vec::new(alloc)),
        inputs: ListedList::new(Vec::new(alloc)),
        outputs: ListedList::new(Vec::new(alloc)),
    })
}
