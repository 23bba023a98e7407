//! The system that an answer speaks of: that of the design that files give, or of one at hand in its place.
ghost use Rattle.std.specs.Prelude.{◌≡◌, ◌≤◌, length, IfErr, IfOk, IfSome};
ghost use Rattle.mintc_text.specs.Stops.{StopsAt};
ghost use Rattle.mintc_timing.specs.Limits.{IsWithinLimits};
ghost use Rattle.mintc_build.specs.Designs.{IsDesignRefusal};
ghost use Rattle.mintc_command_answers.specs.Commands.{source_roles};
ghost use Rattle.mintc_command_answers.specs.Sources.{AreShort, IsSystemOf, own_file};
ghost use Rattle.mintcx_answers.specs.Shown.{HasNoSystem, IsSystemFor};

use mintc_build::system;
use mintc_command_answers::{Source, system_of};
use mintc_text::{Bytes, Limits, Stop};
use mintc_timing::{Flat, System, systems_are_accepted};
use std::alloc::Global;

/// The system of a design, or its first refusal.
fn system_from(alloc: Global, limits: &Limits, flat: Flat) -> Result<System, Stop>
    requires { IsWithinLimits limits.now flat }
    ensures value { IfOk result (IsSystemOf limits.now flat) }
    ensures stop { IfErr result (StopsAt (IsDesignRefusal limits.now flat)) }
{
    systems_are_accepted();
    let _phases = flat.phases();
    let system = system(alloc, limits, flat)?;
    let _pairs = system.pairs();
    Ok(system)
}

/// The system of the design at hand, or else of the one that the first files give, or the first refusal of these. The
/// memory of files that are read is given back.
pub(crate) fn system_for(
    alloc: Global,
    limits: &Limits,
    source: Source,
    shown: Option<Flat>,
    files: &mut [Bytes],
) -> Result<System, Stop>
    requires all { length (source_roles source) ≤ length files.old }
    requires short { AreShort limits.now files.old }
    requires within { IfSome shown (IsWithinLimits limits.now) }
    ensures value { IfOk result (IsSystemFor limits.now shown source files.old) }
    ensures stop { IfErr result (StopsAt (HasNoSystem limits.now shown source files.old)) }
    ensures own { own_file source files.new ≡ own_file source files.old }
    ensures short { AreShort limits.now files.new }
{
    match shown {
        Some(flat) => system_from(alloc, limits, flat),
        None => system_of(alloc, limits, source, files),
    }
}
