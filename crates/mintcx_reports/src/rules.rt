//! What rules of the clock ask for, in words.
ghost use Rattle.std.specs.Prelude.{◌≡◌, ◌<◌, ◌++◌, All, OnOk};
ghost use Rattle.mintc_timing.specs.Design.{element_count};
ghost use Rattle.mintcx_chain.specs.Names.{IsStage, elements_of};
ghost use Rattle.mintcx_reports.specs.Hops.{opening_text, reason_text, rule_text};

use mintc_text::{Lines, OutOfMemory};
use mintc_timing::{Flat, LinkKind};
use mintcx_chain::{Stage, Why};
use mintcx_frame::put_node;
use mintcx_optima::put_because;
use std::alloc::Global;

/// How an element's opening stands to the start of its phase.
fn opening_text(flop: bool, delay: i64) -> &'static [u8]
    ensures { result.now ≡ opening_text flop delay }
{
    if flop {
        b"its setup before its edge"
    } else if delay < 0 {
        b"before its edge, as D -> Q is longer than G -> Q"
    } else if delay > 0 {
        b"after its edge, as G -> Q is longer than D -> Q"
    } else {
        b"at its edge"
    }
}

/// Writes why a rule asks for time, where it isn't a setup.
fn put_reason(
    lines: &mut Lines,
    alloc: Global,
    flat: &Flat,
    stage: &Stage,
    kind: LinkKind,
) -> Result<(), OutOfMemory>
    requires stage { IsStage flat.now stage.now }
    requires rule { All (λ l. l < element_count flat.now) (elements_of (Why.Rule kind)) }
    ensures { OnOk result (lines.new ≡ lines.old ++ reason_text flat.now stage.now kind) }
{
    if let LinkKind::Opening { element } = kind {
        return lines.put(opening_text(flat.element(element).flop, stage.delay));
    }
    put_because(lines, alloc, flat, stage)
}

/// Writes what a rule asks for.
pub(crate) fn put_rule(
    lines: &mut Lines,
    alloc: Global,
    flat: &Flat,
    stage: &Stage,
    kind: LinkKind,
) -> Result<(), OutOfMemory>
    requires stage { IsStage flat.now stage.now }
    requires rule { All (λ l. l < element_count flat.now) (elements_of (Why.Rule kind)) }
    ensures { OnOk result (lines.new ≡ lines.old ++ rule_text flat.now stage.now kind) }
{
    if let LinkKind::Setup { .. } = kind {
        return lines.put(b"  setup");
    }
    lines.put(b"  to ")?;
    put_node(lines, flat, stage.to)?;
    lines.put(b": ")?;
    put_reason(lines, alloc, flat, stage, kind)
}
