//! Requests as text.

use mintc_text::{Name, Names};
use mintcx_manners::Limit;
use mintcx_project::Edges;
use mintcx_requests::{Cells, Design, Manner, Request, Task};
use std::alloc::{AllocError, Global};
use std::test::Fail;

/// The words of a line, which stand between blanks.
pub(crate) fn words_of(alloc: Global, line: &str) -> Result<Vec<String>, Fail> {
    let mut words = Vec::new(alloc);
    for word in line.split(' ') {
        words.push(String::from_str(alloc, word)?)?;
    }
    Ok(words)
}

/// A name as text.
fn name(name: &Name) -> &str {
    std::str::from_utf8(name.bytes()).unwrap_or("?")
}

/// Names, each after a blank.
fn names(alloc: Global, names: &Names) -> Result<String, Fail> {
    let mut text = String::new(alloc);
    for one in names.items() {
        text.push_str(" ")?;
        text.push_str(name(one))?;
    }
    Ok(text)
}

/// A name that may be missing.
fn maybe(found: &Option<Name>) -> &str {
    match found {
        Some(found) => name(found),
        None => "-",
    }
}

/// What is asked of a design.
fn task(alloc: Global, task: &Task) -> Result<String, Fail> {
    let text = match task {
        Task::Check { schedule } => format!(in alloc; "check {}", name(schedule)),
        Task::Optimise { certificate, cycle } => {
            format!(in alloc; "optimise {} {}", maybe(certificate), cycle.unwrap_or(0))
        }
        Task::Verify { certificate } => format!(in alloc; "verify {}", name(certificate)),
        Task::Report => format!(in alloc; "report"),
        Task::Safe => format!(in alloc; "safe"),
        Task::Slack { histogram } => format!(in alloc; "slack {histogram}"),
        Task::Corners => format!(in alloc; "corners"),
        Task::Schedule { certificate, cycle } => {
            format!(in alloc; "schedule {} {}", maybe(certificate), cycle.unwrap_or(0))
        }
        Task::Sdc { file } => format!(in alloc; "sdc {}", name(file)),
        Task::Draw { file, histogram } => { format!(in alloc; "draw {} {histogram}", maybe(file)) }
        Task::Table => format!(in alloc; "table"),
    };
    Ok(text?)
}

/// A design.
fn design(alloc: Global, design: &Design) -> Result<String, Fail> {
    match design {
        Design::Table(table) => Ok(format!(in alloc; "table {}", name(table))?),
        Design::Files {
            netlist,
            delays,
            cells,
            clock,
            edges,
        } => {
            let delays = names(alloc, delays)?;
            let cells = match cells {
                Cells::Description(file) => format!(in alloc; "cells {}", name(file))?,
                Cells::Library { file, clock_cells } => {
                    let gates = names(alloc, clock_cells)?;
                    format!(in alloc; "lib {}{gates}", name(file))?
                }
            };
            let apart = match edges {
                Edges::Merged => "",
                Edges::Apart => " apart",
            };
            Ok(format!(in alloc;
                "{} sdf{delays} {cells} {}{apart}",
                name(netlist),
                name(clock)
            )?)
        }
    }
}

/// How an answer is given.
fn manner(alloc: Global, manner: &Manner) -> Result<String, Fail> {
    let limit = match manner.limit {
        Limit::All => 0,
        Limit::Rows(rows) => rows,
    };
    let (format, unit, detail, color) = (manner.format, manner.unit, manner.detail, manner.color);
    let (output, quiet) = (maybe(&manner.output), manner.quiet);
    Ok(format!(in alloc; "{format:?} {unit:?} {limit} {output} {quiet} {detail:?} {color:?}")?)
}

/// A request.
pub(crate) fn request(alloc: Global, request: &Request) -> Result<String, Fail> {
    match request {
        Request::OfDesign {
            task: what,
            design: files,
            clamp,
            manner: how,
        } => {
            let what = task(alloc, what)?;
            let files = design(alloc, files)?;
            let how = manner(alloc, how)?;
            Ok(format!(in alloc; "{what}; {files}; {clamp}; {how}")?)
        }
        Request::Explain { topic } => Ok(format!(in alloc; "explain {}", name(topic))?),
    }
}
