//! The design with edges apart, and its table.
ghost use Rattle.std.specs.Prelude.{◌≡◌, ◌≤◌, length, IfErr, IfOk};
ghost use Rattle.mintc_timing.specs.Limits.{IsWithinLimits};
ghost use Rattle.mintc_command_answers.specs.Sources.{AreShort};
ghost use Rattle.mintcx_apart.specs.Apart.{IsDesignApart, IsHaltApart, IsToldApart};

use mintc_text::{Bytes, Limits, Name, OutOfMemory};
use mintc_timing::Flat;
use mintcx_edges::{Halt, from_edge_files, from_edge_liberty};
use mintcx_tables::{Obstacle, obstacle_of, table_text};
use std::alloc::Global;

/// What is told of a design with edges apart.
#[derive(Drop)]
pub enum Apart {
    /// The table.
    Said(Bytes),
    /// What of the design no table can say.
    Unsaid(Obstacle),
}

/// The design with edges apart of the first four texts: a netlist, delays, a library with gates of these names for the
/// clock or else a description of cells, and a clock. Or why there is none: their first refusal, or the first gate that
/// isn't fit.
pub fn design_apart(
    alloc: Global,
    limits: &Limits,
    is_library: bool,
    gates: &[Name],
    texts: &[Bytes],
) -> Result<Flat, Halt>
    requires four { 4 ≤ length texts.now }
    requires short { AreShort limits.now texts.now }
    ensures value { IfOk result (IsDesignApart limits.now is_library gates.now texts.now) }
    ensures within { IfOk result (IsWithinLimits limits.now) }
    ensures halt { IfErr result (IsHaltApart limits.now is_library gates.now texts.now) }
{
    let _most = limits.most();
    let netlist = texts[0].items();
    let delays = texts[1].items();
    let cells = texts[2].items();
    let clock = texts[3].items();
    if is_library {
        from_edge_liberty(alloc, limits, netlist, delays, cells, gates, clock)
    } else {
        Ok(from_edge_files(alloc, limits, netlist, delays, cells, clock)?)
    }
}

/// What is told of a design, whose memory is given back: its table, or what of it no table can say.
pub fn table_apart(alloc: Global, flat: Flat) -> Result<Apart, OutOfMemory>
    ensures { IfOk result (IsToldApart flat) }
{
    match obstacle_of(&flat) {
        Some(obstacle) => Ok(Apart::Unsaid(obstacle)),
        None => Ok(Apart::Said(table_text(alloc, &flat)?)),
    }
}
