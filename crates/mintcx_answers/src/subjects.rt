//! What an answer is about.
ghost use Rattle.std.specs.Prelude.{◌≡◌, ◌≤◌, ◌<◌, length, IfOk};
ghost use Rattle.mintc_command_answers.specs.Commands.{roles_of, source_roles};
ghost use Rattle.mintcx_answers.specs.Answers.{AreNamed};

use mintc_clock::read_clock;
use mintc_command_answers::{Command, Job, Source};
use mintc_netlist::{Item, Module};
use mintc_text::limits::MOST_BYTES;
use mintc_text::{Bytes, Lines, Name, Names, OutOfMemory};
use mintc_text_names::NameSet;
use mintc_verilog::read_netlist;
use mintcx_sdc::Titles;
use std::alloc::Global;

/// Where the name of a file begins behind its folders.
fn name_start(path: &[u8]) -> usize
    ensures { result ≤ length path.now }
{
    let mut start = path.len();
    while start > 0 && path[start - 1] != b'/' {
        start -= 1;
    }
    start
}

/// The name of a file without its folders.
fn base_name(path: &Name) -> &[u8] {
    &path.bytes()[name_start(path.bytes())..]
}

/// Adds the cells that the instances of a module name.
fn add_cells(alloc: Global, module: &Module, cells: &mut NameSet) -> Result<(), OutOfMemory> {
    for item in module.items.items() {
        if let Item::Instance { cell, .. } = item {
            cells.add(alloc, cell.bytes())?;
        }
    }
    Ok(())
}

/// The first module that no module instantiates, where there is one.
fn first_top(alloc: Global, modules: &[Module]) -> Result<Option<Name>, OutOfMemory> {
    let mut cells = NameSet::new(alloc);
    for module in modules {
        add_cells(alloc, module, &mut cells)?;
    }
    for module in modules {
        if cells.find(module.name.bytes()).is_none() {
            return Ok(Some(module.name.copy(alloc)?));
        }
    }
    Ok(None)
}

/// The top module that a clock names, where it can be read and names one.
fn clock_top(alloc: Global, clock: &[u8]) -> Option<Name> {
    if clock.len() > MOST_BYTES {
        return None;
    }
    match read_clock(alloc, clock) {
        Ok(clock) => clock.top,
        Err(_) => None,
    }
}

/// The top module of a netlist with a clock, where both can be read: the one that the clock names, or else the first
/// that no module instantiates.
fn top_name(alloc: Global, netlist: &[u8], clock: &[u8]) -> Result<Option<Name>, OutOfMemory> {
    if let Some(top) = clock_top(alloc, clock) {
        return Ok(Some(top));
    }
    if netlist.len() > MOST_BYTES {
        return Ok(None);
    }
    match read_netlist(alloc, netlist) {
        Ok(netlist) => first_top(alloc, netlist.modules.items()),
        Err(_) => Ok(None),
    }
}

/// What the design of a netlist is called: by its top module, or by its file where that isn't found.
fn netlist_subject(
    alloc: Global,
    name: &Name,
    netlist: &[u8],
    clock: &[u8],
) -> Result<Name, OutOfMemory> {
    match top_name(alloc, netlist, clock)? {
        Some(top) => Ok(top),
        None => Name::new(alloc, base_name(name)),
    }
}

/// What one design is called: by the file of its table, or by its top module.
fn design_subject(
    alloc: Global,
    source: Source,
    names: &[Name],
    files: &[Bytes],
) -> Result<Name, OutOfMemory>
    requires names { length (source_roles source) ≤ length names.now }
    requires files { length (source_roles source) ≤ length files.now }
{
    match source {
        Source::Table => Name::new(alloc, base_name(&names[0])),
        Source::Files | Source::Liberty => {
            netlist_subject(alloc, &names[0], files[0].items(), files[3].items())
        }
    }
}

/// What a judgement is about: a design under the schedule of a file.
fn under(alloc: Global, design: &Name, schedule: &Name) -> Result<Name, OutOfMemory> {
    let mut lines = Lines::new(alloc);
    lines.put(design.bytes())?;
    lines.put(b" under ")?;
    lines.put(base_name(schedule))?;
    Name::new(alloc, &lines.into_bytes())
}

/// What the answer to a command is about, by the names and the first bytes of its files: the file of a table or the top
/// module of a netlist, and of a judgement the schedule's file; of a verdict the certificate's file alone.
pub fn subject_of(
    alloc: Global,
    command: Command,
    names: &[Name],
    files: &[Bytes],
) -> Result<Name, OutOfMemory>
    requires count { length files.now ≡ length (roles_of command) }
    requires names { length names.now ≡ length (roles_of command) }
{
    match command {
        Command::OfDesign { job, source } => {
            let own = &names[names.len() - 1];
            match job {
                Job::Check => under(alloc, &design_subject(alloc, source, names, files)?, own),
                Job::Verify => Name::new(alloc, base_name(own)),
                _ => design_subject(alloc, source, names, files),
            }
        }
        Command::Corners { .. } => {
            netlist_subject(alloc, &names[0], files[0].items(), files[2].items())
        }
        Command::Sample { .. } => Name::new(alloc, b"sample"),
    }
}

/// What clocks are called after: the design, and the file that their schedule is from.
pub fn titles_of(
    alloc: Global,
    source: Source,
    names: &[Name],
    files: &[Bytes],
) -> Result<Titles, OutOfMemory>
    requires names { length (source_roles source) < length names.now }
    requires files { length (source_roles source) ≤ length files.now }
{
    Ok(Titles {
        subject: design_subject(alloc, source, names, files)?,
        source: Name::new(alloc, base_name(&names[names.len() - 1]))?,
    })
}

/// The names of files without their folders.
fn base_names(alloc: Global, names: &[Name]) -> Result<Names, OutOfMemory>
    ensures { IfOk result (λ bases. length bases ≡ length names.now) }
{
    let mut bases = Vec::new(alloc);
    for name in names {
        bases.push(Name::new(alloc, base_name(name))?)?;
    }
    Ok(Names::new(bases))
}

/// What stands beside the subject of an answer, as it is called: of `verify` the design, and of `corners` the files of
/// delays, in their order.
pub fn names_beside(
    alloc: Global,
    command: Command,
    names: &[Name],
    files: &[Bytes],
) -> Result<Names, OutOfMemory>
    requires count { length files.now ≡ length (roles_of command) }
    requires names { length names.now ≡ length (roles_of command) }
    ensures { IfOk result (AreNamed command) }
{
    match command {
        Command::OfDesign {
            job: Job::Verify,
            source,
        } => Ok(Names::new(vec![in alloc; design_subject(alloc, source, names, files)?]?)),
        Command::Corners { .. } => base_names(alloc, &names[3..]),
        Command::OfDesign { .. } | Command::Sample { .. } => Ok(Names::new(Vec::new(alloc))),
    }
}
