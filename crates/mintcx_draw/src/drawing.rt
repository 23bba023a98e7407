//! The picture of a certificate.
ghost use Rattle.std.specs.Prelude.{◌≤◌, pos, ◌≤ℤ◌, length, All, IfOk};
ghost use Rattle.mintc_certificate.specs.Ranges.{IsCertificateInRange, IsChainInRange};
ghost use Rattle.mintc_certificate.specs.Valid.{IsMember, IsValid};
ghost use Rattle.mintc_timing.specs.Limits.{IsDesign, IsInRange};
ghost use Rattle.mintcx_chain.specs.Rows.{IsClocked};
ghost use Rattle.mintcx_optima.specs.Least.{IsRing};
ghost use Rattle.mintcx_picture.specs.Places.{IsScale};
ghost use Rattle.mintcx_picture.specs.Pictures.{IsDrawn};
ghost use Rattle.mintcx_draw.specs.Chains.{IsChain};
ghost use Rattle.mintcx_draw.specs.Drawings.{AreLayers, IsDrawnChain, IsDrawnOf, IsLeastDrawn, IsOfRows};
ghost use Rattle.mintcx_draw.specs.Lanes.{drawn_count};
ghost use Rattle.mintcx_draw.specs.Parts.{IsCounted};
ghost use Rattle.mintcx_chart.specs.Sheets.{IsLane};

use crate::bars::push_bars;
use crate::chain::{Chain, Lanes, SHOWN, Staged, lanes_of};
use crate::ends::{about_of, push_end, second_line};
use mintc_certificate::{Certificate, Member};
use mintc_text::{Bytes, Name, OutOfMemory};
use mintc_timing::{Schedule, System};
use mintcx_chain::{Stage, rows_of, sums_of};
use mintcx_chart::{
    Sheet, Span, Told, ground_of, push_legend, push_rows, scale_for, shown_subject, title_of,
    waves_of,
};
use mintcx_frame::View;
use mintcx_optima::{chain_of, unit_of};
use mintcx_picture::{Drawn, Head, Layer, Scale, picture_text};
use std::alloc::Global;

/// What stands below the rows.
fn ends_layer(alloc: Global, chain: &Chain) -> Result<Layer, OutOfMemory>
    requires { IsChain chain.now }
{
    let mut forms = Vec::new(alloc);
    push_end(&mut forms, alloc, chain)?;
    push_legend(&mut forms, alloc, &chain.sheet, chain.sheet.foot + 48)?;
    Ok(Layer::new(forms))
}

/// The layers of a picture.
fn layers_of(alloc: Global, chain: &Chain, subject: &[u8]) -> Result<Vec<Layer>, OutOfMemory>
    requires { IsChain chain.now }
    ensures { IfOk result (λ layers. AreLayers chain.now.sheet.scale chain.now.sheet.unit chain.now.bars
        chain.now.sheet.lanes.now layers.items) }
{
    let second = second_line(alloc, chain)?;
    let ground = ground_of(alloc, &chain.sheet, subject, second)?;
    let ends = ends_layer(alloc, chain)?;
    let mut layers = vec![in alloc; ground]?;
    push_rows(&mut layers, alloc, &chain.sheet)?;
    push_bars(&mut layers, alloc, chain)?;
    layers.push(ends)?;
    Ok(layers)
}

/// What stands before the layers.
fn head_of(alloc: Global, chain: &Chain, subject: &[u8]) -> Result<Head, OutOfMemory>
    requires { IsChain chain.now }
{
    let title = title_of(alloc, &chain.sheet, subject)?;
    let about = about_of(alloc, chain)?;
    Ok(Head {
        width: chain.sheet.scale.edge() + 28,
        height: chain.sheet.foot + 84,
        title,
        about,
    })
}

/// The picture of a chain.
fn picture_of(alloc: Global, chain: &Chain, subject: &Name) -> Result<Bytes, OutOfMemory>
    requires { IsChain chain.now }
    ensures { IfOk result (IsOfRows chain.now.sheet.scale chain.now.sheet.unit chain.now.bars
        chain.now.sheet.lanes.now) }
{
    let subject = shown_subject(alloc, subject.bytes())?;
    let head = head_of(alloc, chain, subject.bytes())?;
    let layers = layers_of(alloc, chain, subject.bytes())?;
    picture_text(alloc, &head, &layers)
}

/// The picture of these rows of a chain on a scale.
fn on_scale(
    alloc: Global,
    told: &Told,
    stages: &[Stage],
    shown: &Lanes,
    scale: Scale,
    subject: &Name,
) -> Result<Bytes, OutOfMemory>
    requires design { IsDesign told.now.flat.now }
    requires in_range { IsInRange told.now.schedule.now }
    requires cycle { pos 1 ≤ℤ told.now.schedule.now.cycle }
    requires ring { IsRing told.now.flat.now stages.now }
    requires lanes { All IsLane shown.now.lanes.items }
    requires count { drawn_count stages.now ≤ length shown.now.lanes.items }
    requires least { 138 ≤ shown.now.below }
    requires most { shown.now.below ≤ 1876 }
    requires scale { IsScale scale }
    ensures { IfOk result (IsOfRows scale told.now.unit (drawn_count stages.now) shown.now.lanes.items) }
{
    let waves = waves_of(alloc, told.flat, told.schedule)?;
    let sheet = Sheet {
        lanes: &shown.lanes,
        waves: &waves,
        scale,
        den: told.schedule.den,
        cycle: told.schedule.cycle,
        unit: told.unit,
        table: told.table,
        foot: shown.below + 6,
    };
    let chain = Chain {
        sheet,
        members: stages.len(),
        sums: sums_of(stages),
        whole: stages.len() <= SHOWN,
        bars: stages.len().min(SHOWN),
    };
    picture_of(alloc, &chain, subject)
}

/// The picture of the stages of a chain, by a schedule with its departures.
fn drawn_of(
    alloc: Global,
    told: &Told,
    departures: &[i64],
    stages: &[Stage],
    subject: &Name,
) -> Result<Drawn, OutOfMemory>
    requires design { IsDesign told.now.flat.now }
    requires cycle { pos 1 ≤ℤ told.now.schedule.now.cycle }
    requires clocked { IsClocked told.now.flat.now told.now.schedule.now departures.now }
    requires ring { IsRing told.now.flat.now stages.now }
    requires counted { All IsCounted stages.now }
    ensures { IfOk result
        (IsDrawnChain told.now.flat.now told.now.schedule.now departures.now stages.now) }
{
    let rows = rows_of(alloc, told.flat, told.schedule, departures, stages)?;
    let staged = Staged {
        stages,
        rows: rows.items(),
    };
    let shown = lanes_of(alloc, told, &staged)?;
    let next = rows.items()[stages.len().min(SHOWN)].at;
    let marks = Span {
        first: next,
        last: next,
    };
    let (den, cycle) = (told.schedule.den, told.schedule.cycle);
    match scale_for(den, cycle, &shown.lanes, marks) {
        Some(scale) => {
            let text = on_scale(alloc, told, stages, &shown, scale, subject)?;
            Ok(Drawn::Picture(text))
        }
        None => Ok(Drawn::TooLong),
    }
}

/// The parts of the certificate of a least cycle.
#[derive(Clone, Copy)]
struct Least<'a> {
    schedule: &'a Schedule,
    departures: &'a [i64],
    members: &'a [Member],
}

/// The picture of the certificate of a least cycle.
fn least_drawn(
    alloc: Global,
    system: &System,
    least: &Least,
    table: bool,
    view: &View,
) -> Result<Drawn, OutOfMemory>
    requires clocked { IsClocked system.now.flat least.now.schedule.now least.now.departures.now }
    requires chain { IsChainInRange least.now.members.now }
    requires members { All (IsMember system.now) least.now.members.now }
    ensures { IfOk result (IsLeastDrawn system.now.flat least.now.schedule.now least.now.departures.now
        least.now.members.now) }
{
    let stages = chain_of(alloc, system, least.departures, least.members)?;
    if least.schedule.cycle <= 0 {
        return Ok(Drawn::NoCycle);
    }
    let told = Told {
        flat: system.flat(),
        schedule: least.schedule,
        unit: unit_of(least.schedule, view),
        table,
    };
    drawn_of(
        alloc,
        &told,
        least.departures,
        stages.items(),
        &view.subject,
    )
}

/// The picture of a certificate: its schedule, with the chain that decides the least cycle time. It says whether the
/// design is a table, as the arcs of a table are called by the bits that they enter.
pub fn draw(
    alloc: Global,
    system: &System,
    certificate: &Certificate,
    table: bool,
    view: &View,
) -> Result<Drawn, OutOfMemory>
    requires valid { IsValid system.now certificate.now }
    requires in_range { IsCertificateInRange certificate.now }
    ensures drawn { IfOk result IsDrawn }
    ensures of { IfOk result (IsDrawnOf system.now.flat certificate.now) }
{
    match certificate {
        Certificate::Least {
            schedule,
            departures,
            chain,
        } => {
            let least = Least {
                schedule,
                departures: departures.items(),
                members: chain.items(),
            };
            least_drawn(alloc, system, &least, table, view)
        }
        Certificate::Never { .. } => Ok(Drawn::NoSchedule),
    }
}
