//! Reports, with the cells of gates.
ghost use Rattle.std.specs.Prelude.{◌≡◌, ◌<◌, length, IfOk};
ghost use Rattle.mintcx_answers.specs.Answers.{IsReportAnswer};

use crate::jobs::certificate_status;
use mintc_certificate::Certificate;
use mintc_command_answers::{Answer, Job, Source, optimum};
use mintc_netlist::Netlist;
use mintc_text::limits::MOST_BYTES;
use mintc_text::{Bytes, Names, OutOfMemory, Stop};
use mintc_timing::System;
use mintc_verilog::read_netlist;
use mintcx_frame::View;
use mintcx_reports::{cells_of, report_text};
use std::alloc::Global;

/// The netlist that names the cells of a report's gates, where there is one that can be read. Others need none.
pub(crate) fn netlist_for(
    alloc: Global,
    job: Job,
    source: Source,
    files: &[Bytes],
) -> Result<Option<Netlist>, OutOfMemory>
    requires { 0 < length files.now }
{
    let of_netlist = matches!(source, Source::Files | Source::Liberty);
    if !matches!(job, Job::Report) || !of_netlist || files[0].items().len() > MOST_BYTES {
        return Ok(None);
    }
    match read_netlist(alloc, files[0].items()) {
        Ok(netlist) => Ok(Some(netlist)),
        Err(Stop::Refused(_)) => Ok(None),
        Err(Stop::OutOfMemory) => Err(OutOfMemory),
    }
}

/// The cells of the gates of a certificate's chain, by the numbers of their arcs. The netlist's top module is the
/// subject of the answer.
fn cells_for(
    alloc: Global,
    netlist: Option<&Netlist>,
    system: &System,
    certificate: &Certificate,
    view: &View,
) -> Result<Names, OutOfMemory> {
    match netlist {
        Some(netlist) => cells_of(
            alloc,
            netlist,
            view.subject.bytes(),
            system.flat(),
            certificate,
        ),
        None => Ok(Names::new(Vec::new(alloc))),
    }
}

/// The report of the optimum.
pub(crate) fn report_answer(
    alloc: Global,
    netlist: Option<&Netlist>,
    system: &System,
    view: &View,
) -> Result<Answer, OutOfMemory>
    ensures { IfOk result (λ answer. IsReportAnswer system.now view.now answer.status answer.text) }
{
    let certificate = optimum(alloc, system)?;
    let cells = cells_for(alloc, netlist, system, &certificate, view)?;
    let text = report_text(alloc, system, &certificate, cells.items(), view)?;
    let status = certificate_status(&certificate);
    Ok(Answer { status, text })
}
