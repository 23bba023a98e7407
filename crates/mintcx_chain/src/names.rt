//! What the ends of a stage are called.
ghost use Rattle.std.specs.Prelude.{◌≡◌, ◌<◌, IfOk, IfSome};
ghost use Rattle.mintc_timing.specs.Design.{element_count};
ghost use Rattle.mintc_timing.specs.Links.{node_count};
ghost use Rattle.mintcx_frame.specs.Names.{node_name};
ghost use Rattle.mintcx_chain.specs.Names.{element_of, from_name, IsStage};

use crate::stages::{Stage, Why};
use mintc_text::{Name, OutOfMemory};
use mintc_timing::{Flat, LinkKind};
use mintcx_frame::node_name;
use std::alloc::Global;

/// The element that a stage begins at: of data its first element, of a setup its own. Other stages begin at a moment of
/// the clock.
pub fn element_of_stage(stage: &Stage) -> Option<u32>
    ensures { result ≡ element_of stage.now.why }
{
    match &stage.why {
        Why::Reach { from, .. } => Some(*from),
        Why::Rule {
            kind: LinkKind::Setup { element },
        } => Some(*element),
        _ => None,
    }
}

/// What a stage begins at, by name: its element, or the moment of the clock.
pub fn stage_from(alloc: Global, flat: &Flat, stage: &Stage) -> Result<Name, OutOfMemory>
    requires { IsStage flat.now stage.now }
    ensures { IfOk result (λ name. name ≡ from_name flat.now stage.now) }
{
    match element_of_stage(stage) {
        Some(element) => flat.element(element).name.copy(alloc),
        None => node_name(alloc, flat, stage.from),
    }
}

/// What a stage leads to, by name.
pub fn stage_to(alloc: Global, flat: &Flat, stage: &Stage) -> Result<Name, OutOfMemory>
    requires { IsStage flat.now stage.now }
    ensures { IfOk result (λ name. name ≡ node_name flat.now stage.now.to) }
{
    node_name(alloc, flat, stage.to)
}
