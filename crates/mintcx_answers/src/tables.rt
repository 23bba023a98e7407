//! Designs as one table.
ghost use Rattle.std.specs.Prelude.{◌≡◌, ◌≤◌, length, IfErr, IfOk, IfSome};
ghost use Rattle.mintc_text.specs.Stops.{StopsAt};
ghost use Rattle.mintc_timing.specs.Limits.{IsWithinLimits};
ghost use Rattle.mintc_command_answers.specs.Commands.{roles_of, source_roles};
ghost use Rattle.mintc_command_answers.specs.Sources.{AreShort};
ghost use Rattle.mintcx_answers.specs.Shown.{HasNoSystem, IsFirstRefusalFor};
ghost use Rattle.mintcx_answers.specs.Tables.{HasTable, IsOfFiles, IsTabled};

use crate::shown::system_for;
use mintc_command_answers::{Command, Job, Source, too_long};
use mintc_text::{Bytes, Limits, OutOfMemory, Stop};
use mintc_timing::Flat;
use mintcx_tables::{Obstacle, obstacle_of, table_text};
use std::alloc::Global;

/// What is told of a design as one table.
#[derive(Drop)]
pub enum Tabled {
    /// The table.
    Said(Bytes),
    /// What of the design no table can say.
    Unsaid(Obstacle),
}

/// The table of a design, or what of it no table can say.
fn told_table(alloc: Global, flat: &Flat) -> Result<Tabled, OutOfMemory>
    ensures { IfOk result (IsTabled flat.now) }
{
    match obstacle_of(flat) {
        Some(obstacle) => Ok(Tabled::Unsaid(obstacle)),
        None => Ok(Tabled::Said(table_text(alloc, flat)?)),
    }
}

/// The table of the design at hand, or of that of texts, none of them too long, or their first refusal.
fn tabled_design(
    alloc: Global,
    limits: &Limits,
    source: Source,
    shown: Option<Flat>,
    texts: &mut [Bytes],
) -> Result<Tabled, Stop>
    requires all { length (source_roles source) ≤ length texts.old }
    requires short { AreShort limits.now texts.old }
    requires within { IfSome shown (IsWithinLimits limits.now) }
    ensures value { IfOk result (IsOfFiles limits.now shown source texts.old) }
    ensures stop { IfErr result (StopsAt (HasNoSystem limits.now shown source texts.old)) }
{
    let system = system_for(alloc, limits, source, shown, texts)?;
    Ok(told_table(alloc, system.flat())?)
}

/// A design as one table, of the first bytes of its files, or their first refusal, which is that of mintc's `optimise`.
/// Where a design is at hand, it is that one. The memory of files is given back once their design is read.
pub fn table_for(
    alloc: Global,
    limits: &Limits,
    source: Source,
    shown: Option<Flat>,
    files: &mut [Bytes],
) -> Result<Tabled, Stop>
    requires count { length files.old ≡ length (roles_of (Command.OfDesign Job.Optimise source)) }
    requires within { IfSome shown (IsWithinLimits limits.now) }
    ensures value { IfOk result (HasTable limits.now shown source files.old) }
    ensures stop { IfErr result
        (StopsAt (IsFirstRefusalFor limits.now shown (Command.OfDesign Job.Optimise source) files.old)) }
{
    let command = Command::OfDesign {
        job: Job::Optimise,
        source,
    };
    if let Some(refusal) = too_long(limits, command.roles(), files) {
        return Err(Stop::Refused(refusal));
    }
    tabled_design(alloc, limits, source, shown, files)
}
