//! From the files that a command names to the system of their design.
ghost use Rattle.std.specs.Prelude.{◌≡◌, ◌≤◌, ◌<◌, length, MatchOption, IfOk, IfErr};
ghost use Rattle.mintc_text.specs.Stops.{StopsAt};
ghost use Rattle.mintc_text.specs.declared.limits.Most.{Most};
ghost use Rattle.mintc_text.specs.declared.limits.TheConstants.{MOST_BYTES};
ghost use Rattle.mintc_command_answers.specs.Commands.{source_roles};
ghost use Rattle.mintc_timing.specs.Limits.{IsDesign, IsWithinLimits};
ghost use Rattle.mintc_build.specs.Designs.{IsDesignRefusal};
ghost use Rattle.mintc_command_answers.specs.Sources.{AreShort, Describes, Gives, GivesOrdered, HasNoDesign};
ghost use Rattle.mintc_command_answers.specs.Sources.{IsLengthRefusal, IsSourceRefused, IsSystemOf, file_at, own_file};

use crate::command::Source;
use mintc_build::{from_files, from_liberty, from_table, system, system_order};
use mintc_text::{Bytes, Limits, Refusal, Role, Stop};
use mintc_timing::{Flat, Order, System, systems_are_accepted};
use std::alloc::Global;

/// The refusal of the first file that is too long.
pub fn too_long(limits: &Limits, roles: &[Role], files: &[Bytes]) -> Option<Refusal>
    requires { length files.now ≡ length roles.now }
    ensures { MatchOption result (AreShort limits.now files.now) (IsLengthRefusal limits.now roles.now files.now) }
{
    let most = limits.most().bytes;
    for place in 0..files.len() {
        if files[place].items().len() > most {
            return Some(Refusal::TooLong { role: roles[place] });
        }
    }
    None
}

/// The bytes of the file at a place, of files that aren't too long.
pub(crate) fn file_at<'a>(limits: &Limits, files: &'a [Bytes], place: usize) -> &'a [u8]
    requires place { place < length files.now }
    requires short { AreShort limits.now files.now }
    ensures value { result.now ≡ file_at files.now place }
    ensures short { length result.now ≤ MOST_BYTES }
    ensures limit { limits.now.bytes ≤ MOST_BYTES }
{
    let _most = limits.most();
    files[place].items()
}

/// The design that the first files stand for, or their first refusal.
fn design_of(alloc: Global, limits: &Limits, source: Source, files: &[Bytes]) -> Result<Flat, Stop>
    requires all { length (source_roles source) ≤ length files.now }
    requires short { AreShort limits.now files.now }
    ensures within { IfOk result (λ flat. IsWithinLimits limits.now flat) }
    ensures value { IfOk result (λ flat. Describes limits.now source files.now flat) }
    ensures stop { IfErr result (StopsAt (HasNoDesign limits.now source files.now)) }
{
    match source {
        Source::Table => from_table(alloc, limits, file_at(limits, files, 0)),
        Source::Files => from_files(
            alloc,
            limits,
            file_at(limits, files, 0),
            file_at(limits, files, 1),
            file_at(limits, files, 2),
            file_at(limits, files, 3),
        ),
        Source::Liberty => from_liberty(
            alloc,
            limits,
            file_at(limits, files, 0),
            file_at(limits, files, 1),
            file_at(limits, files, 2),
            file_at(limits, files, 3),
        ),
    }
}

/// The system of a design, or its first refusal.
pub(crate) fn accepted_system(alloc: Global, limits: &Limits, flat: Flat) -> Result<System, Stop>
    requires { IsWithinLimits limits.now flat }
    ensures limits { IsDesign flat }
    ensures value { IfOk result (IsSystemOf limits.now flat) }
    ensures stop { IfErr result (StopsAt (IsDesignRefusal limits.now flat)) }
{
    systems_are_accepted();
    let _phases = flat.phases();
    let system = system(alloc, limits, flat)?;
    let _pairs = system.pairs();
    Ok(system)
}

/// Gives back the memory of the files of a design, which comes first. The file that stands after them stays.
fn give_back(alloc: Global, source: Source, files: &mut [Bytes])
    ensures own { own_file source files.new ≡ own_file source files.old }
    ensures short { (most : Most) → AreShort most files.old → AreShort most files.new }
{
    let count = match source {
        Source::Table => 1,
        Source::Files | Source::Liberty => 4,
    };
    for place in 0..files.len().min(count) {
        files[place] = Bytes::new(Vec::new(alloc));
    }
}

/// The system of the design that the first files give, or the first refusal of these files. The memory of these
/// files is given back once the design is read.
pub fn system_of(
    alloc: Global,
    limits: &Limits,
    source: Source,
    files: &mut [Bytes],
) -> Result<System, Stop>
    requires all { length (source_roles source) ≤ length files.old }
    requires short { AreShort limits.now files.old }
    ensures value { IfOk result (Gives limits.now source files.old) }
    ensures stop { IfErr result (StopsAt (IsSourceRefused limits.now source files.old)) }
    ensures own { own_file source files.new ≡ own_file source files.old }
    ensures short { AreShort limits.now files.new }
{
    let flat = design_of(alloc, limits, source, files)?;
    give_back(alloc, source, files);
    accepted_system(alloc, limits, flat)
}

/// A design and an order of its arcs.
#[derive(Drop)]
pub(crate) struct Ordered {
    pub flat: Flat,
    pub order: Order,
}

/// The design that the first files give, where it has a system, or the first refusal of these files. Its pairs
/// aren't listed. The memory of these files is given back once the design is read.
pub(crate) fn ordered_of(
    alloc: Global,
    limits: &Limits,
    source: Source,
    files: &mut [Bytes],
) -> Result<Ordered, Stop>
    requires all { length (source_roles source) ≤ length files.old }
    requires short { AreShort limits.now files.old }
    ensures value { IfOk result (λ ordered. GivesOrdered limits.now source files.old ordered.flat ordered.order) }
    ensures stop { IfErr result (StopsAt (IsSourceRefused limits.now source files.old)) }
    ensures own { own_file source files.new ≡ own_file source files.old }
    ensures short { AreShort limits.now files.new }
{
    let flat = design_of(alloc, limits, source, files)?;
    give_back(alloc, source, files);
    systems_are_accepted();
    let _phases = flat.phases();
    let order = system_order(alloc, limits, &flat)?;
    Ok(Ordered { flat, order })
}

/// The bytes of the file that stands after those of the design, or none where there is no such file.
pub fn own_file<'a>(limits: &Limits, source: Source, files: &'a [Bytes]) -> &'a [u8]
    requires { AreShort limits.now files.now }
    ensures value { result.now ≡ own_file source files.now }
    ensures short { length result.now ≤ MOST_BYTES }
{
    let place = match source {
        Source::Table => 1,
        Source::Files | Source::Liberty => 4,
    };
    if place < files.len() {
        file_at(limits, files, place)
    } else {
        &[]
    }
}
