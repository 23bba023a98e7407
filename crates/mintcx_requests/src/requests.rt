//! What is asked, by the words and the project file together.
ghost use Rattle.std.specs.Prelude.{◌≡◌, ◌≢◌, Some};
ghost use Rattle.mintcx_requests.specs.Requests.{list_or, first_or, kept, clock_cells_or, names_a_file, merged};
ghost use Rattle.mintcx_project.specs.Edges.{are_apart};
ghost use Rattle.mintcx_requests.specs.Requests.{cells_of, counted, edges_for, files_of, lone_table, names_nothing};
ghost use Rattle.mintcx_requests.specs.Requests.{table_of, usual_edges};
ghost use Rattle.mintcx_requests.specs.Requests.{design_of, cycle_in, optimise_of, schedule_of, draw_of, subject_of};
ghost use Rattle.mintcx_requests.specs.Requests.{task_of, limit_in, manner_of, request_of};

use crate::commands::Asked;
use crate::given::{Given, MannerWords, Particulars};
use mintc_text::{Name, Names};
use mintcx_manners::{Color, Detail, Format, Limit, TimeUnit, read_time};
use mintcx_project::{Edges, Settings, Sources};

/// What the cells of a netlist are read from.
#[derive(Debug, Drop)]
pub enum Cells {
    /// A cell description.
    Description(Name),
    /// A Liberty library, and the gates in it that carry the clock alone.
    Library { file: Name, clock_cells: Names },
}

/// The files of a design, in the order in which they are read.
#[derive(Debug, Drop)]
pub enum Design {
    Table(Name),
    Files {
        netlist: Name,
        delays: Names,
        cells: Cells,
        clock: Name,
        edges: Edges,
    },
}

/// What is asked of a design, with the file beside it.
#[derive(Debug, Drop)]
pub enum Task {
    Check {
        schedule: Name,
    },
    /// The certificate is written to a file, or the schedule is of a cycle time in femtoseconds.
    Optimise {
        certificate: Option<Name>,
        cycle: Option<u32>,
    },
    Verify {
        certificate: Name,
    },
    Report,
    Safe,
    Slack {
        histogram: bool,
    },
    Corners,
    /// The schedule is of a certificate, or of a cycle time in femtoseconds, or of the least one.
    Schedule {
        certificate: Option<Name>,
        cycle: Option<u32>,
    },
    Sdc {
        file: Name,
    },
    Draw {
        file: Option<Name>,
        histogram: bool,
    },
    Table,
}

/// How the answer is given.
#[derive(Debug, Drop)]
pub struct Manner {
    pub format: Format,
    pub unit: TimeUnit,
    pub limit: Limit,
    pub output: Option<Name>,
    pub quiet: bool,
    pub detail: Detail,
    pub color: Color,
}

/// What a run is asked.
#[derive(Debug, Drop)]
pub enum Request {
    OfDesign {
        task: Task,
        design: Design,
        clamp: bool,
        manner: Manner,
    },
    Explain {
        topic: Name,
    },
}

/// Why words and a project file are no request.
#[derive(Debug, Drop)]
pub enum Fault {
    /// The file is missing that the command is about; clap lets no such words through.
    NoSubject,
    /// A certificate is of the least cycle time, and another one is named.
    CertificateOfCycle,
    /// A schedule is of a certificate or of a cycle time.
    CertificateAndCycle,
    /// A file is drawn, or the slacks.
    FileAndSlack,
    /// This is no time.
    Cycle(Name),
    /// This is no limit.
    Limit(Name),
    /// No design is named.
    NoDesign,
    /// A table and files are named.
    TableAndFiles,
    /// Corners have no table.
    TableOfCorners,
    /// Edges are kept apart for corners.
    EdgesOfCorners,
    /// Edges are kept apart, and a table is named.
    EdgesOfTable,
    /// A cell description and a library are named.
    CellsAndLibrary,
    /// Gates of a library are named, and no library.
    ClockCellsWithoutLibrary,
    NoNetlist,
    NoDelays,
    NoCells,
    NoClock,
    /// So many delay files are named, where one is taken.
    TooManyDelays { count: usize },
    /// So many delay files are named, where two to four are taken.
    CornerCount { count: usize },
}

/// The first list, or the second where that is empty.
fn list_or(first: Names, second: Names) -> Names
    ensures { result ≡ list_or first second }
{
    if first.items().is_empty() {
        second
    } else {
        first
    }
}

/// Whether a file of a design but a table is named.
fn names_a_file(sources: &Sources) -> bool
    ensures { result ≡ names_a_file sources.now }
{
    sources.netlist.is_some()
        || !sources.delays.items().is_empty()
        || sources.cells.is_some()
        || sources.library.is_some()
        || sources.clock.is_some()
}

/// The first, or the second where that is missing and nothing else replaces it.
fn first_or(is_replaced: bool, first: Option<Name>, second: Option<Name>) -> Option<Name>
    ensures { result ≡ first_or is_replaced first second }
{
    if is_replaced { first } else { first.or(second) }
}

/// What isn't replaced.
fn kept(is_replaced: bool, name: Option<Name>) -> Option<Name>
    ensures { result ≡ kept is_replaced name }
{
    if is_replaced { None } else { name }
}

/// The gates of a library that a cell description replaces, or doesn't.
fn clock_cells_or(is_replaced: bool, first: Names, second: Names) -> Names
    ensures { result ≡ clock_cells_or is_replaced first second }
{
    if is_replaced {
        first
    } else {
        list_or(first, second)
    }
}

/// The parts that the words name, and for each that they leave out the project's.
fn merged(words: Sources, project: Sources) -> Sources
    ensures { result ≡ merged words project }
{
    if words.table.is_some() {
        return words;
    }
    let has_files = names_a_file(&words);
    let has_cells = words.cells.is_some();
    let has_library = words.library.is_some();
    Sources {
        netlist: words.netlist.or(project.netlist),
        delays: list_or(words.delays, project.delays),
        cells: first_or(has_library, words.cells, project.cells),
        library: first_or(has_cells, words.library, project.library),
        clock_cells: clock_cells_or(has_cells, words.clock_cells, project.clock_cells),
        clock: words.clock.or(project.clock),
        table: kept(has_files, project.table),
        edges: words.edges.or(project.edges),
    }
}

/// What the cells are read from.
fn cells_of(cells: Option<Name>, library: Option<Name>, clock_cells: Names) -> Result<Cells, Fault>
    ensures { result ≡ cells_of cells library clock_cells }
{
    let is_bare = clock_cells.items().is_empty();
    match (cells, library) {
        (Some(_), Some(_)) => Err(Fault::CellsAndLibrary),
        (Some(file), None) => {
            if is_bare {
                Ok(Cells::Description(file))
            } else {
                Err(Fault::ClockCellsWithoutLibrary)
            }
        }
        (None, Some(file)) => Ok(Cells::Library { file, clock_cells }),
        (None, None) => Err(if is_bare {
            Fault::NoCells
        } else {
            Fault::ClockCellsWithoutLibrary
        }),
    }
}

/// The delay files, where they are as many as the command takes.
fn counted(asked: Asked, delays: Names) -> Result<Names, Fault>
    ensures { result ≡ counted asked delays }
{
    if delays.items().is_empty() {
        return Err(Fault::NoDelays);
    }
    let count = delays.items().len();
    if asked.has_table() {
        if count == 1 {
            Ok(delays)
        } else {
            Err(Fault::TooManyDelays { count })
        }
    } else if 2 <= count && count <= 4 {
        Ok(delays)
    } else {
        Err(Fault::CornerCount { count })
    }
}

/// Whether edges are kept apart.
fn are_apart(edges: Option<Edges>) -> bool
    ensures { result ≡ are_apart edges }
{
    matches!(edges, Some(Edges::Apart))
}

/// What is made of edges where nothing is said: they are kept apart for one design with cells of a library, whose
/// functions tell which edge leads to which.
fn usual_edges(asked: Asked, cells: &Cells) -> Edges
    ensures { result ≡ usual_edges asked cells.now }
{
    match cells {
        Cells::Library { .. } if asked.has_table() => Edges::Apart,
        _ => Edges::Merged,
    }
}

/// What is made of edges.
fn edges_for(asked: Asked, cells: &Cells, edges: Option<Edges>) -> Result<Edges, Fault>
    ensures { result ≡ edges_for asked cells.now edges }
{
    if are_apart(edges) && !asked.has_table() {
        return Err(Fault::EdgesOfCorners);
    }
    Ok(edges.unwrap_or(usual_edges(asked, cells)))
}

/// The design of four files.
fn files_of(asked: Asked, sources: Sources) -> Result<Design, Fault>
    ensures { result ≡ files_of asked sources }
{
    let cells = cells_of(sources.cells, sources.library, sources.clock_cells)?;
    let netlist = sources.netlist.ok_or(Fault::NoNetlist)?;
    let delays = counted(asked, sources.delays)?;
    let clock = sources.clock.ok_or(Fault::NoClock)?;
    let edges = edges_for(asked, &cells, sources.edges)?;
    Ok(Design::Files {
        netlist,
        delays,
        cells,
        clock,
        edges,
    })
}

/// Whether neither a file of a design but a table nor a gate of a library is named.
fn names_nothing(sources: &Sources) -> bool
    ensures { result ≡ names_nothing sources.now }
{
    !names_a_file(sources) && sources.clock_cells.items().is_empty()
}

/// The design of a table, in which edges are as they are.
fn lone_table(edges: Option<Edges>, table: Name) -> Result<Design, Fault>
    ensures { result ≡ lone_table edges table }
{
    if are_apart(edges) {
        Err(Fault::EdgesOfTable)
    } else {
        Ok(Design::Table(table))
    }
}

/// The design of a table, which stands alone or not.
fn table_of(asked: Asked, is_lone: bool, edges: Option<Edges>, table: Name) -> Result<Design, Fault>
    ensures { result ≡ table_of asked is_lone edges table }
{
    if !is_lone {
        Err(Fault::TableAndFiles)
    } else if asked.has_table() {
        lone_table(edges, table)
    } else {
        Err(Fault::TableOfCorners)
    }
}

/// The design: one table or four files.
fn design_of(asked: Asked, sources: Sources) -> Result<Design, Fault>
    ensures { result ≡ design_of asked sources }
{
    let is_lone = names_nothing(&sources);
    if sources.table.is_none() {
        return if is_lone {
            Err(Fault::NoDesign)
        } else {
            files_of(asked, sources)
        };
    }
    let edges = sources.edges;
    let table = sources.table.ok_or(Fault::NoDesign)?;
    table_of(asked, is_lone, edges, table)
}

/// The cycle time of a text, where there is one.
fn cycle_in(text: Option<Name>) -> Result<Option<u32>, Fault>
    ensures { result ≡ cycle_in text }
{
    let Some(text) = text else {
        return Ok(None);
    };
    match read_time(text.bytes()) {
        Some(cycle) => Ok(Some(cycle)),
        None => Err(Fault::Cycle(text)),
    }
}

/// What `optimise` is asked.
fn optimise_of(words: Particulars) -> Result<Task, Fault>
    ensures { result ≡ optimise_of words }
{
    if words.certificate.is_some() && words.cycle.is_some() {
        return Err(Fault::CertificateOfCycle);
    }
    let cycle = cycle_in(words.cycle)?;
    Ok(Task::Optimise {
        certificate: words.certificate,
        cycle,
    })
}

/// What `schedule` is asked.
fn schedule_of(words: Particulars) -> Result<Task, Fault>
    ensures { result ≡ schedule_of words }
{
    if words.subject.is_some() && words.cycle.is_some() {
        return Err(Fault::CertificateAndCycle);
    }
    let cycle = cycle_in(words.cycle)?;
    Ok(Task::Schedule {
        certificate: words.subject,
        cycle,
    })
}

/// What `draw` is asked.
fn draw_of(words: Particulars) -> Result<Task, Fault>
    ensures { result ≡ draw_of words }
{
    if words.subject.is_some() && words.histogram {
        return Err(Fault::FileAndSlack);
    }
    Ok(Task::Draw {
        file: words.subject,
        histogram: words.histogram,
    })
}

/// The file that a command is about.
fn subject_of(words: Particulars) -> Result<Name, Fault>
    ensures { result ≡ subject_of words }
{
    words.subject.ok_or(Fault::NoSubject)
}

/// What is asked of a design.
fn task_of(asked: Asked, words: Particulars) -> Result<Task, Fault>
    requires { asked ≢ Asked.Explain }
    ensures { task_of asked words ≡ Some result }
{
    match asked {
        Asked::Check => Ok(Task::Check {
            schedule: subject_of(words)?,
        }),
        Asked::Optimise => optimise_of(words),
        Asked::Verify => Ok(Task::Verify {
            certificate: subject_of(words)?,
        }),
        Asked::Report => Ok(Task::Report),
        Asked::Safe => Ok(Task::Safe),
        Asked::Slack => Ok(Task::Slack {
            histogram: words.histogram,
        }),
        Asked::Corners => Ok(Task::Corners),
        Asked::Schedule => schedule_of(words),
        Asked::Sdc => Ok(Task::Sdc {
            file: subject_of(words)?,
        }),
        Asked::Draw => draw_of(words),
        Asked::Table => Ok(Task::Table),
        Asked::Explain => unreachable!(),
    }
}

/// The limit of a text, ten rows where there is none.
fn limit_in(text: Option<Name>) -> Result<Limit, Fault>
    ensures { result ≡ limit_in text }
{
    let Some(text) = text else {
        return Ok(Limit::Rows(10));
    };
    match Limit::of(text.bytes()) {
        Some(limit) => Ok(limit),
        None => Err(Fault::Limit(text)),
    }
}

/// How the answer is given.
fn manner_of(words: MannerWords, unit: Option<TimeUnit>) -> Result<Manner, Fault>
    ensures { result ≡ manner_of words unit }
{
    let limit = limit_in(words.limit)?;
    Ok(Manner {
        format: words.format,
        unit: words.unit.or(unit).unwrap_or(TimeUnit::Auto),
        limit,
        output: words.output,
        quiet: words.quiet,
        detail: words.detail,
        color: words.color,
    })
}

/// What is asked, by what the words give and what the project file says.
pub fn request_of(given: Given, settings: Settings) -> Result<Request, Fault>
    ensures { result ≡ request_of given settings }
{
    if let Asked::Explain = given.asked {
        let topic = subject_of(given.particulars)?;
        return Ok(Request::Explain { topic });
    }
    let task = task_of(given.asked, given.particulars)?;
    let design = design_of(given.asked, merged(given.sources, settings.sources))?;
    let manner = manner_of(given.manner, settings.unit)?;
    Ok(Request::OfDesign {
        task,
        design,
        clamp: given.clamp,
        manner,
    })
}
