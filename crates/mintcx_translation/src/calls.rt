//! What a request asks of mintc.
ghost use Rattle.std.specs.Prelude.{◌≡◌, ◌≢◌, ◌<◌, ◌++◌, ◌∷◌, [], ℕ, true, length, option_to_list, IfOk, IfErr, Ok};
ghost use Rattle.std.specs.Prelude.{if◌then◌else◌};
ghost use Rattle.mintc_command_answers.specs.Commands.{IsNumberInRange, roles_of};
ghost use Rattle.mintcx_translation.specs.Calls.{IsNoCall, aspect_of, call_for, cells_file, certificate_file};
ghost use Rattle.mintcx_translation.specs.Calls.{cells_place, command_for, corners_on, design_files, is_certified};
ghost use Rattle.mintcx_translation.specs.Calls.{form_gap, gates_in, gates_of, has_data, has_library, is_corners};
ghost use Rattle.mintcx_translation.specs.Calls.{is_fitting, job_of, job_on, object_of};
ghost use Rattle.mintcx_translation.specs.Calls.{own_file, plain_gap, rows_of, source_of, takes_description, told_in};
ghost use Rattle.mintcx_translation.specs.Calls.{is_apart, takes_four};

use mintc_command_answers::{Command, Job, Source};
use mintc_text::{Name, Names, OutOfMemory};
use mintcx_manners::Format;
use mintcx_project::Edges;
use mintcx_requests::{Cells, Design, Task};
use std::alloc::Global;

/// What of a command is told to people.
#[derive(Clone, Copy, Debug, PartialEq, Eq)]
pub enum Aspect {
    /// What mintc answers.
    Whole,
    /// Of `optimise`: what there is at a cycle time in femtoseconds.
    Cycle(u32),
    /// Of `slack`: the pairs counted by their slack.
    Histogram,
    /// The rows alone, as CSV: of `check` the rooms or the violations, of `optimise`, `report`, `safe` and `corners`
    /// the chain that decides, of `slack` the pairs, of `verify` the verdict.
    Rows,
    /// The rows alone, as CSV, of `optimise`: of what there is at a cycle time in femtoseconds.
    CycleRows(u32),
    /// The schedule, as `check` takes it: of `optimise` that of the least cycle time, or of another one in
    /// femtoseconds; of `verify` that of the certificate.
    Schedule(Option<u32>),
    /// One object, as JSON: of `check` the departures or the violations, of `optimise`, `report`, `safe` and `corners`
    /// the schedule and the chain, of `slack` the pairs, of `verify` the verdict.
    Object,
    /// One object, as JSON, of `optimise`: what there is at a cycle time in femtoseconds.
    CycleObject(u32),
    /// The clocks as SDC: of `check` those of the schedule, of `verify` those of the certificate's.
    Clocks,
    /// A picture as SVG: of `check` how the schedule fares, of `optimise` and `verify` the schedule with the chain that
    /// decides, of `slack` the pairs counted by their slack.
    Picture,
    /// Of `optimise`: the design as one table.
    Table,
}

/// A command of mintc, what of it is told, and the names of its files, in their order. Where `of_library` is set, the
/// file of the cells is a Liberty library, and the command is asked of a description of its cells, of which these gates
/// carry the clock alone. Where `clamp` is set, 0 is taken for each delay below 0. Where `apart` is set, the command is
/// asked of the table of the design of four files with edges apart. Where `certificate` names a file, the certificate
/// of `optimise` is written to it.
#[derive(Debug, Drop)]
pub struct Call {
    pub command: Command,
    pub aspect: Aspect,
    pub of_library: bool,
    pub gates: Names,
    pub clamp: bool,
    pub apart: bool,
    pub files: Names,
    pub certificate: Option<Name>,
}

/// What of a request is not there yet.
#[derive(Clone, Copy, Debug, PartialEq, Eq)]
pub enum Gap {
    /// The form of the answer.
    Json,
    /// The form of the answer.
    Csv,
    /// mintc's own text of a cycle time other than the least.
    Cycle,
    /// A file for a certificate beside mintc's own text, which is the certificate.
    Certificate,
    /// mintc's own text of pairs counted by their slack.
    Histogram,
    /// The files aren't as many as the command takes; no request of words has it.
    Misfit,
}

/// Why a request is no call.
#[derive(Clone, Copy, Debug, PartialEq, Eq)]
pub enum NoCall {
    /// This of it is not there yet.
    Missing(Gap),
    /// Memory was wanting.
    OutOfMemory,
}

impl From<Gap> for NoCall {
    ghost use Rattle.std.specs.Prelude.{◌≡◌};
    ghost use Rattle.mintcx_translation.specs.declared.calls.NoCall.TheVariants as none;

    ghost from_gives = { λ gap e. e ≡ none.Missing gap };

    fn from(gap: Gap) -> Self {
        NoCall::Missing(gap)
    }
}

impl From<OutOfMemory> for NoCall {
    ghost use Rattle.std.specs.Prelude.{◌≡◌};
    ghost use Rattle.mintcx_translation.specs.declared.calls.NoCall.TheVariants as none;

    ghost from_gives = { λ _ e. e ≡ none.OutOfMemory };

    fn from(_: OutOfMemory) -> Self {
        NoCall::OutOfMemory
    }
}

/// What the cells are read from, and the gates of a library that carry the clock alone.
#[derive(Drop)]
struct CellsFile {
    file: Name,
    gates: Names,
}

/// What the cells are read from.
fn cells_file(alloc: Global, cells: Cells) -> CellsFile
    ensures file { result.file ≡ cells_file cells }
    ensures gates { result.gates ≡ gates_in cells }
{
    match cells {
        Cells::Description(file) => CellsFile {
            file,
            gates: Names::new(Vec::new(alloc)),
        },
        Cells::Library { file, clock_cells } => CellsFile {
            file,
            gates: clock_cells,
        },
    }
}

/// The files of a design, in mintc's order, and the gates of its library that carry the clock alone.
#[derive(Drop)]
struct Sources {
    files: Vec<Name>,
    gates: Names,
}

/// The files of a design with its delays, in the order of `corners`.
fn corners_files(
    alloc: Global,
    netlist: Name,
    delays: Names,
    cells: Name,
    clock: Name,
) -> Result<Vec<Name>, OutOfMemory>
    ensures { IfOk result (λ files. files.items ≡ (netlist ∷ cells ∷ clock ∷ []) ++ delays) }
{
    let mut files = vec![in alloc; netlist, cells, clock]?;
    files.append(&mut delays.into_vec())?;
    Ok(files)
}

/// The files of a design with its delays, in the order of one design.
fn lone_files(
    alloc: Global,
    netlist: Name,
    delays: Names,
    cells: Name,
    clock: Name,
) -> Result<Vec<Name>, OutOfMemory>
    ensures { IfOk result
        (λ files. files.items ≡ ((netlist ∷ []) ++ delays) ++ (cells ∷ clock ∷ [])) }
{
    let mut files = vec![in alloc; netlist]?;
    files.append(&mut delays.into_vec())?;
    files.append(&mut vec![in alloc; cells, clock]?)?;
    Ok(files)
}

/// The files of a design with its delays, in mintc's order.
fn all_files(
    alloc: Global,
    for_corners: bool,
    netlist: Name,
    delays: Names,
    cells: Name,
    clock: Name,
) -> Result<Vec<Name>, OutOfMemory>
    ensures { IfOk result (λ files. files.items ≡ if for_corners
        then (netlist ∷ cells ∷ clock ∷ []) ++ delays
        else ((netlist ∷ []) ++ delays) ++ (cells ∷ clock ∷ [])) }
{
    if for_corners {
        corners_files(alloc, netlist, delays, cells, clock)
    } else {
        lone_files(alloc, netlist, delays, cells, clock)
    }
}

/// The files of a design, in mintc's order, and the gates of its library that carry the clock alone.
fn design_files(alloc: Global, for_corners: bool, design: Design) -> Result<Sources, OutOfMemory>
    ensures files { IfOk result (λ sources. sources.files.items ≡ design_files for_corners design) }
    ensures gates { IfOk result (λ sources. sources.gates ≡ gates_of design) }
{
    match design {
        Design::Table(table) => Ok(Sources {
            files: vec![in alloc; table]?,
            gates: Names::new(Vec::new(alloc)),
        }),
        Design::Files {
            netlist,
            delays,
            cells,
            clock,
            edges: _,
        } => {
            let CellsFile { file, gates } = cells_file(alloc, cells);
            let files = all_files(alloc, for_corners, netlist, delays, file, clock)?;
            Ok(Sources { files, gates })
        }
    }
}

/// Whether a task is about several delay files.
fn is_corners(task: &Task) -> bool
    ensures { result ≡ is_corners task.now }
{
    matches!(task, Task::Corners)
}

/// The files of a task beside the design's.
#[derive(Drop)]
struct Beside {
    /// One that is read with the design's.
    own: Option<Name>,
    /// One that a certificate is written to.
    certificate: Option<Name>,
}

/// The files of a task beside the design's.
fn beside_of(task: Task) -> Beside
    ensures own { result.own ≡ own_file task }
    ensures certificate { result.certificate ≡ certificate_file task }
{
    match task {
        Task::Check { schedule } => Beside {
            own: Some(schedule),
            certificate: None,
        },
        Task::Optimise { certificate, .. } => Beside {
            own: None,
            certificate,
        },
        Task::Verify { certificate } => Beside {
            own: Some(certificate),
            certificate: None,
        },
        Task::Schedule { certificate, .. } => Beside {
            own: certificate,
            certificate: None,
        },
        Task::Sdc { file } => Beside {
            own: Some(file),
            certificate: None,
        },
        Task::Draw { file, .. } => Beside {
            own: file,
            certificate: None,
        },
        _ => Beside {
            own: None,
            certificate: None,
        },
    }
}

/// Some files, and one more behind them, where there is one.
fn with_own(mut files: Vec<Name>, own: Option<Name>) -> Result<Names, OutOfMemory>
    ensures { IfOk result (λ names. names ≡ files.items ++ option_to_list own) }
{
    if let Some(own) = own {
        files.push(own)?;
    }
    Ok(Names::new(files))
}

/// The job of a task on one design.
fn job_of(task: &Task) -> Result<Job, Gap>
    ensures { result ≡ job_of task.now }
{
    match task {
        Task::Check { .. } => Ok(Job::Check),
        Task::Optimise { .. } => Ok(Job::Optimise),
        Task::Verify { .. } | Task::Sdc { .. } => Ok(Job::Verify),
        Task::Report => Ok(Job::Report),
        Task::Safe => Ok(Job::Safe),
        Task::Slack { .. } => Ok(Job::Slack),
        Task::Corners => Err(Gap::Misfit),
        Task::Schedule {
            certificate: Some(_),
            ..
        } => Ok(Job::Verify),
        Task::Schedule {
            certificate: None,
            ..
        } => Ok(Job::Optimise),
        Task::Draw {
            histogram: true,
            ..
        } => Ok(Job::Slack),
        Task::Draw { file: Some(_), .. } => Ok(Job::Verify),
        Task::Draw { file: None, .. } => Ok(Job::Optimise),
        Task::Table => Ok(Job::Optimise),
    }
}

/// What of a task's command is told.
fn aspect_of(task: &Task) -> Aspect
    ensures { result ≡ aspect_of task.now }
{
    match task {
        Task::Optimise {
            cycle: Some(cycle),
            ..
        } => Aspect::Cycle(*cycle),
        Task::Slack { histogram: true } => Aspect::Histogram,
        Task::Schedule { cycle, .. } => Aspect::Schedule(*cycle),
        Task::Sdc { .. } => Aspect::Clocks,
        Task::Draw { .. } => Aspect::Picture,
        Task::Table => Aspect::Table,
        _ => Aspect::Whole,
    }
}

/// The source of a design with these cells: a library with gates that carry the clock is described.
fn source_of(cells: &Cells) -> Source
    ensures { result ≡ source_of cells.now }
{
    match cells {
        Cells::Description(_) => Source::Files,
        Cells::Library { clock_cells, .. } => {
            if clock_cells.items().is_empty() {
                Source::Liberty
            } else {
                Source::Files
            }
        }
    }
}

/// The command of a job on a design.
fn job_on(job: Job, design: &Design) -> Command
    ensures { result ≡ job_on job design.now }
{
    let source = match design {
        Design::Table(_) => Source::Table,
        Design::Files { cells, .. } => source_of(cells),
    };
    Command::OfDesign { job, source }
}

/// The command of corners.
fn corners_on(design: &Design) -> Result<Command, Gap>
    ensures { result ≡ corners_on design.now }
{
    let Design::Files { delays, .. } = design else {
        return Err(Gap::Misfit);
    };
    let count = delays.items().len();
    if 2 <= count && count <= 4 {
        Ok(Command::Corners {
            count: count as u32,
        })
    } else {
        Err(Gap::Misfit)
    }
}

/// Whether the cells of a design are those of a library.
fn has_library(design: &Design) -> bool
    ensures { result ≡ has_library design.now }
{
    matches!(
        design,
        Design::Files {
            cells: Cells::Library { .. },
            ..
        }
    )
}

/// Whether a command is asked of a description of cells.
fn takes_description(command: Command) -> bool
    ensures { result ≡ takes_description command }
{
    match command {
        Command::OfDesign { source, .. } => matches!(source, Source::Files),
        Command::Corners { .. } => true,
        Command::Sample { .. } => false,
    }
}

/// Whether a command is asked of one design of four files.
fn takes_four(command: Command) -> bool
    ensures { result ≡ takes_four command }
{
    match command {
        Command::OfDesign { source, .. } => matches!(source, Source::Files | Source::Liberty),
        Command::Corners { .. } | Command::Sample { .. } => false,
    }
}

/// Whether a command is asked of a design of four files with edges apart.
fn is_apart(command: Command, design: &Design) -> bool
    ensures { result ≡ is_apart command design.now }
{
    takes_four(command)
        && matches!(
            design,
            Design::Files {
                edges: Edges::Apart,
                ..
            }
        )
}

/// The number of the file of the cells among those of a command that is asked of a description.
pub fn cells_place(command: Command) -> usize
    ensures { result ≡ cells_place command }
{
    match command {
        Command::Corners { .. } => 1,
        Command::OfDesign { .. } | Command::Sample { .. } => 2,
    }
}

/// The command of a task on a design.
fn command_for(task: &Task, design: &Design) -> Result<Command, Gap>
    ensures { result ≡ command_for task.now design.now }
{
    if is_corners(task) {
        return corners_on(design);
    }
    let job = job_of(task)?;
    Ok(job_on(job, design))
}

/// Whether a command names so many files.
fn is_fitting(command: Command, count: usize) -> bool
    ensures { result ≡ is_fitting command count }
{
    match command {
        Command::OfDesign { .. } => count == command.roles().len(),
        Command::Sample { .. } => false,
        Command::Corners { count: corners } => {
            2 <= corners && corners <= 4 && count == corners as usize + 3
        }
    }
}

/// Whether a certificate is written to a file.
fn is_certified(task: &Task) -> bool
    ensures { result ≡ is_certified task.now }
{
    match task {
        Task::Optimise { certificate, .. } => certificate.is_some(),
        _ => false,
    }
}

/// The rows of a task.
fn rows_of(task: &Task) -> Aspect
    ensures { result ≡ rows_of task.now }
{
    match task {
        Task::Optimise {
            cycle: Some(cycle),
            ..
        } => Aspect::CycleRows(*cycle),
        _ => Aspect::Rows,
    }
}

/// The object of a task.
fn object_of(task: &Task) -> Aspect
    ensures { result ≡ object_of task.now }
{
    match task {
        Task::Optimise {
            cycle: Some(cycle),
            ..
        } => Aspect::CycleObject(*cycle),
        _ => Aspect::Object,
    }
}

/// What of a task is told in a form.
fn told_in(format: Format, task: &Task) -> Aspect
    ensures { result ≡ told_in format task.now }
{
    match format {
        Format::Csv => rows_of(task),
        Format::Json => object_of(task),
        Format::Text | Format::Plain => aspect_of(task),
    }
}

/// Whether an answer has rows as CSV, and is an object as JSON.
fn has_data(task: &Task) -> bool
    ensures { result ≡ has_data task.now }
{
    match task {
        Task::Optimise { certificate, .. } => certificate.is_none(),
        Task::Slack { histogram } => !*histogram,
        Task::Check { .. } | Task::Verify { .. } | Task::Report | Task::Safe | Task::Corners =>
            true,
        Task::Schedule { .. } | Task::Sdc { .. } | Task::Draw { .. } | Task::Table => false,
    }
}

/// What of an answer mintc has no text for.
fn plain_gap(certified: bool, aspect: Aspect) -> Option<Gap>
    ensures { result ≡ plain_gap certified aspect }
{
    if certified {
        return Some(Gap::Certificate);
    }
    match aspect {
        Aspect::Whole | Aspect::Schedule(_) | Aspect::Clocks | Aspect::Picture => None,
        Aspect::Table => None,
        Aspect::Rows | Aspect::CycleRows(_) | Aspect::Object | Aspect::CycleObject(_) => None,
        Aspect::Cycle(_) => Some(Gap::Cycle),
        Aspect::Histogram => Some(Gap::Histogram),
    }
}

/// What of a form isn't there yet for a task.
fn form_gap(format: Format, task: &Task) -> Option<Gap>
    ensures { result ≡ form_gap format task.now }
{
    match format {
        Format::Json => {
            if has_data(task) {
                None
            } else {
                Some(Gap::Json)
            }
        }
        Format::Csv => { if has_data(task) { None } else { Some(Gap::Csv) } }
        Format::Text => None,
        Format::Plain => plain_gap(is_certified(task), aspect_of(task)),
    }
}

/// What a task on a design asks of mintc, where its form is there; `clamp` says whether 0 is taken for each delay
/// below 0.
pub fn call_of(
    alloc: Global,
    format: Format,
    clamp: bool,
    task: Task,
    design: Design,
) -> Result<Call, NoCall>
    ensures value { IfOk result (λ call. call_for format clamp task design ≡ Ok call) }
    ensures none { IfErr result (IsNoCall (call_for format clamp task design)) }
    ensures count { IfOk result (λ call. length call.files ≡ length (roles_of call.command)) }
    ensures in_range { IfOk result (λ call. IsNumberInRange call.command) }
    ensures files { IfOk result (λ call. (number : ℕ) → call.command ≢ Command.Sample number) }
    ensures library { IfOk result (λ call. call.of_library ≡ true → cells_place call.command < length call.files) }
    ensures apart { IfOk result (λ call. call.apart ≡ true → takes_four call.command ≡ true) }
{
    if let Some(gap) = form_gap(format, &task) {
        return Err(NoCall::Missing(gap));
    }
    let aspect = told_in(format, &task);
    let command = command_for(&task, &design)?;
    let of_library = takes_description(command) && has_library(&design);
    let apart = is_apart(command, &design);
    let for_corners = is_corners(&task);
    let beside = beside_of(task);
    let Sources { files, gates } = design_files(alloc, for_corners, design)?;
    let files = with_own(files, beside.own)?;
    if !is_fitting(command, files.items().len()) {
        return Err(NoCall::Missing(Gap::Misfit));
    }
    Ok(Call {
        command,
        aspect,
        of_library,
        gates,
        clamp,
        apart,
        files,
        certificate: beside.certificate,
    })
}
