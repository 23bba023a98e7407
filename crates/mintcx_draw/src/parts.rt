//! The parts of a stage: what takes its time.
ghost use Rattle.std.specs.Prelude.{◌≡◌};
ghost use Rattle.mintc_timing.specs.Limits.{IsInRange};
ghost use Rattle.mintcx_chain.specs.Names.{IsShort, IsStage};
ghost use Rattle.mintcx_chain.specs.Rows.{IsChainTime};
ghost use Rattle.mintcx_draw.specs.Parts.{rule_kind, rule_name, IsCounted};

use mintc_text::{Items, OutOfMemory};
use mintc_timing::LinkKind;
use mintcx_chain::{Stage, Why};
use mintcx_chart::{Lapse, Part, PartKind, Path, Told, Travel, push_part, push_path, span_time};
use std::alloc::Global;

/// The word of a rule.
fn rule_name(kind: LinkKind) -> &'static [u8]
    ensures { result.now ≡ rule_name kind }
{
    match kind {
        LinkKind::Start { .. } => b"start",
        LinkKind::Cycle { .. } => b"cycle",
        LinkKind::Order { .. } => b"order",
        LinkKind::Span { .. } => b"span",
        LinkKind::Width { .. } => b"width",
        LinkKind::Apart { .. } => b"apart",
        LinkKind::Opening { .. } => b"open",
        LinkKind::Opened { .. } => b"opened",
        LinkKind::Setup { .. } => b"setup",
        LinkKind::Bound { .. } => b"bound",
        _ => b"",
    }
}

/// What a part by a rule is of.
fn rule_kind(kind: LinkKind) -> PartKind
    ensures { result ≡ rule_kind kind }
{
    match kind {
        LinkKind::Setup { .. } => PartKind::Setup,
        _ => PartKind::Rule,
    }
}

/// Adds the parts of a stage that begins at a time, at what has a name.
fn push_parts(
    parts: &mut Vec<Part>,
    alloc: Global,
    told: &Told,
    stage: &Stage,
    name: &[u8],
    begin: i128,
) -> Result<(), OutOfMemory>
    requires in_range { IsInRange told.now.schedule.now }
    requires stage { IsStage told.now.flat.now stage.now }
    requires short { IsShort stage.now }
    requires counted { IsCounted stage.now }
    requires time { IsChainTime begin }
{
    match &stage.why {
        Why::Rule { kind } => {
            let lapse = Lapse {
                delay: stage.delay,
                from: begin,
                to: begin + i128::from(span_time(stage.delay, told.schedule.den)),
            };
            push_part(parts, alloc, rule_kind(*kind), rule_name(*kind), lapse)
        }
        Why::Reach { from, to, arcs } => {
            let path = Path {
                from: *from,
                to: *to,
                arcs: arcs.items(),
                travel: Travel::Longest,
            };
            push_path(parts, alloc, told, name, path, begin)
        }
        Why::Hold { .. } => Ok(()),
    }
}

/// The parts of a stage that begins at a time, at what has a name.
pub(crate) fn parts_of(
    alloc: Global,
    told: &Told,
    stage: &Stage,
    name: &[u8],
    begin: i128,
) -> Result<Items<Part>, OutOfMemory>
    requires in_range { IsInRange told.now.schedule.now }
    requires stage { IsStage told.now.flat.now stage.now }
    requires short { IsShort stage.now }
    requires counted { IsCounted stage.now }
    requires time { IsChainTime begin }
{
    let mut parts = Vec::new(alloc);
    push_parts(&mut parts, alloc, told, stage, name, begin)?;
    Ok(Items::new(parts))
}
