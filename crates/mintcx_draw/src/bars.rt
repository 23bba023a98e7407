//! The bars of a chain: what takes the time of each stage, and what follows it.
ghost use Rattle.std.specs.Prelude.{◌≤◌, take, IfSome, OnOk};
ghost use Rattle.mintcx_chart.specs.Rows.{HasBar, HasBars};
ghost use Rattle.mintcx_chart.specs.Sheets.{IsLane, IsSheet};
ghost use Rattle.mintcx_draw.specs.Chains.{IsChain};

use crate::chain::Chain;
use mintc_text::OutOfMemory;
use mintcx_chart::{
    Kind, Lane, PartKind, Sheet, arrow_begins, parts_layer, push_arrow, push_delay, push_joint,
};
use mintcx_picture::{Form, Layer};
use std::alloc::Global;

/// Where the arrow into a row ends: at its bar where that is a flop's setup.
fn arrow_ends(lane: &Lane) -> u32
    requires { IsLane lane.now }
    ensures least { 7 ≤ result }
    ensures most { result ≤ 4029 }
{
    if lane.kind != Kind::Flop {
        return lane.top + 7;
    }
    match lane.parts.items().first() {
        Some(part) if part.kind == PartKind::Setup => lane.top + 29,
        _ => lane.top + 11,
    }
}

/// Adds the arrow from a row to the next one, if there is one.
fn push_next(
    forms: &mut Vec<Form>,
    alloc: Global,
    sheet: &Sheet,
    lane: &Lane,
    next: Option<&Lane>,
) -> Result<(), OutOfMemory>
    requires sheet { IsSheet sheet.now }
    requires lane { IsLane lane.now }
    requires next { IfSome next (λ other. IsLane other.now) }
{
    match next {
        Some(other) => {
            let x = sheet.scale.place(lane.ends);
            push_arrow(forms, alloc, x, arrow_begins(lane), arrow_ends(other))
        }
        None => Ok(()),
    }
}

/// What joins the bar of a row to that row and to the next one, and its delay in words.
fn joints_layer(
    alloc: Global,
    sheet: &Sheet,
    lane: &Lane,
    next: Option<&Lane>,
) -> Result<Layer, OutOfMemory>
    requires sheet { IsSheet sheet.now }
    requires lane { IsLane lane.now }
    requires next { IfSome next (λ other. IsLane other.now) }
{
    let mut forms = Vec::new(alloc);
    push_joint(&mut forms, alloc, lane, sheet.scale.place(lane.at))?;
    push_delay(&mut forms, alloc, sheet, lane)?;
    push_next(&mut forms, alloc, sheet, lane, next)?;
    Ok(Layer::new(forms))
}

/// Adds the layers of the bar of a row.
fn push_bar(
    layers: &mut Vec<Layer>,
    alloc: Global,
    sheet: &Sheet,
    lane: &Lane,
    next: Option<&Lane>,
) -> Result<(), OutOfMemory>
    requires sheet { IsSheet sheet.now }
    requires lane { IsLane lane.now }
    requires next { IfSome next (λ other. IsLane other.now) }
    ensures { OnOk result
        (HasBar sheet.now.scale sheet.now.unit lane.now layers.old.items layers.new.items) }
{
    let parts = parts_layer(alloc, sheet, lane)?;
    let joints = joints_layer(alloc, sheet, lane, next)?;
    layers.push(parts)?;
    layers.push(joints)?;
    Ok(())
}

/// Adds the layers of the bars of the rows, with an arrow from each to the next. The first stage again has no bar.
pub(crate) fn push_bars(
    layers: &mut Vec<Layer>,
    alloc: Global,
    chain: &Chain,
) -> Result<(), OutOfMemory>
    requires { IsChain chain.now }
    ensures { OnOk result (HasBars chain.now.sheet.scale chain.now.sheet.unit
        (take chain.now.bars chain.now.sheet.lanes.now) layers.old.items layers.new.items) }
{
    let sheet = &chain.sheet;
    for at in 0..chain.bars {
        push_bar(
            layers,
            alloc,
            sheet,
            &sheet.lanes[at],
            sheet.lanes.get(at + 1),
        )?;
    }
    Ok(())
}
