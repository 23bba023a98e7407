//! What the files of a design say, and their system.
ghost use Rattle.std.specs.Prelude.{◌≡◌, ◌≤◌, IfOk, IfErr, length};
ghost use Rattle.mintc_text.specs.declared.limits.TheConstants.{MOST_BYTES};
ghost use Rattle.mintc_text.specs.Stops.{StopsAt};
ghost use Rattle.mintc_flatten_hierarchy.specs.Shape.{IsGivenHierarchy};
ghost use Rattle.mintcx_warnings_files.specs.Parts.{AreParts, AreShort, cells_by};

use crate::files::{CellsForm, Files};
use mintc_annotate::annotate;
use mintc_build::system;
use mintc_cells::{Cells, read_cells};
use mintc_clock::{Clock, read_clock};
use mintc_flatten::flatten;
use mintc_flatten_hierarchy::Hierarchy;
use mintc_liberty::read_liberty;
use mintc_netlist::Netlist;
use mintc_sdf::read_delays;
use mintc_text::{Limits, Stop};
use mintc_timing::System;
use mintc_verilog::read_netlist;
use std::alloc::Global;

/// What the files of a design say, and the system that they give.
#[derive(Drop)]
pub(crate) struct Parts {
    pub(crate) cells: Cells,
    pub(crate) clock: Clock,
    pub(crate) hierarchy: Hierarchy,
    pub(crate) system: System,
    /// The number of the statement that begins the top module, counted from 1; 0 where there is none.
    pub(crate) top: u32,
}

/// The cells of a description or of a library.
fn cells_of(alloc: Global, files: &Files<'_>) -> Result<Cells, Stop>
    requires { AreShort files.now }
    ensures { IfOk result (cells_by files.now).Describes }
{
    if matches!(files.form, CellsForm::Library) {
        read_liberty(alloc, files.cells.text)
    } else {
        read_cells(alloc, files.cells.text)
    }
}

/// The number of the statement that begins the top module; 0 where there is none.
fn top_statement(netlist: &Netlist, hierarchy: &Hierarchy) -> u32 {
    let Some(top) = hierarchy.scopes.items().get(0) else {
        return 0;
    };
    match netlist.modules.items().get(top.module as usize) {
        Some(module) => module.entry,
        None => 0,
    }
}

/// What the files of a design say, and the system that they give.
pub(crate) fn parts_of(alloc: Global, limits: &Limits, files: &Files<'_>) -> Result<Parts, Stop>
    requires { AreShort files.now }
    ensures parts { IfOk result (AreParts limits.now files.now) }
    ensures given { IfOk result (λ parts. IsGivenHierarchy parts.cells parts.hierarchy) }
{
    let modules = read_netlist(alloc, files.netlist.text)?;
    let delays = read_delays(alloc, files.delays.text)?;
    let cells = cells_of(alloc, files)?;
    let clock = read_clock(alloc, files.clock.text)?;
    let hierarchy = flatten(alloc, limits, &modules, &cells, clock.top.as_ref())?;
    let flat = annotate(alloc, limits, &hierarchy, &cells, &clock, &delays)?;
    let system = system(alloc, limits, flat)?;
    let _flat = system.flat();
    let top = top_statement(&modules, &hierarchy);
    Ok(Parts {
        cells,
        clock,
        hierarchy,
        system,
        top,
    })
}
