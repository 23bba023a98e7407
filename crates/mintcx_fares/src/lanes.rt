//! The rows of setups and holds.
ghost use Rattle.std.specs.Prelude.{◌≡◌, pos, ◌≤ℤ◌, IfOk};
ghost use Rattle.mintc_timing.specs.Limits.{IsInRange};
ghost use Rattle.mintc_paths.specs.Trace.{IsPairOf};
ghost use Rattle.mintcx_chain.specs.Names.{IsStageDelay};
ghost use Rattle.mintcx_frame.specs.Names.{element_name};
ghost use Rattle.mintcx_chart.specs.Ranges.{IsHeight};
ghost use Rattle.mintcx_chart.specs.Sheets.{IsLane};
ghost use Rattle.mintcx_fares.specs.Items.{IsItem};

use crate::items::Item;
use crate::words::{judged_word, note_of};
use mintc_paths::{path_of, shortest_path_of};
use mintc_text::limits::MOST_COUNT;
use mintc_text::{Items, Numbers, OutOfMemory};
use mintc_timing::System;
use mintcx_chart::{Holder, Kind, Lane, Part, Path, Told, Travel, element_holder, push_path};
use std::alloc::Global;

/// What an element of a kind borrows: how long after its phase starts data leaves it. A flop borrows nothing.
fn lent(kind: Kind, departures: &[i64], element: u32) -> i64
    ensures some { pos 0 ≤ℤ result }
    ensures few { result ≤ℤ pos 9223372036854775807 }
{
    if kind == Kind::Flop {
        return 0;
    }
    match departures.get(element as usize) {
        Some(departure) => (*departure).max(0),
        None => 0,
    }
}

/// What the element of a kind borrows that data comes to, where its setup is judged and kept.
fn kept_lent(kind: Kind, late: &[i64], item: &Item) -> i64
    ensures some { pos 0 ≤ℤ result }
    ensures few { result ≤ℤ pos 9223372036854775807 }
{
    if item.hold || !item.is_kept() {
        return 0;
    }
    lent(kind, late, item.to)
}

/// The setup that is drawn: that of a latch whose setup is judged.
fn drawn_setup(holder: &Holder, hold: bool) -> i64
    requires { IsStageDelay holder.now.setup }
    ensures { IsStageDelay result }
{
    if hold || holder.kind == Kind::Flop {
        return 0;
    }
    holder.setup
}

/// The arcs along which the data of a setup or a hold comes.
pub(crate) fn arcs_of(alloc: Global, system: &System, item: &Item) -> Result<Numbers, OutOfMemory>
    requires { IsPairOf system.now.pairs item.now.from item.now.to }
{
    if item.hold {
        shortest_path_of(alloc, system, item.from, item.to)
    } else {
        path_of(alloc, system, item.from, item.to)
    }
}

/// The parts of the data of a setup or a hold, from an element by its name.
fn parts_of(
    alloc: Global,
    told: &Told,
    item: &Item,
    arcs: &[u32],
    name: &[u8],
) -> Result<Items<Part>, OutOfMemory>
    requires in_range { IsInRange told.now.schedule.now }
    requires item { IsItem told.now.flat.now item.now }
{
    let mut parts = Vec::new(alloc);
    let path = Path {
        from: item.from,
        to: item.to,
        arcs: &arcs[..arcs.len().min(MOST_COUNT as usize)],
        travel: if item.hold {
            Travel::Shortest
        } else {
            Travel::Longest
        },
    };
    push_path(&mut parts, alloc, told, name, path, item.at)?;
    Ok(Items::new(parts))
}

/// The row of the element from which data comes, along arcs, with the departures by which it does.
pub(crate) fn source_lane(
    alloc: Global,
    told: &Told,
    departures: &[i64],
    item: &Item,
    arcs: &[u32],
    top: u32,
) -> Result<Lane, OutOfMemory>
    requires in_range { IsInRange told.now.schedule.now }
    requires item { IsItem told.now.flat.now item.now }
    requires top { IsHeight top }
    ensures lane { IfOk result IsLane }
    ensures name { IfOk result (λ lane. lane.name ≡ element_name told.now.flat.now item.now.from) }
{
    let holder = element_holder(told, item.from);
    let name = told.flat.element(item.from).name.copy(alloc)?;
    let note = note_of(alloc, told.flat, holder.kind, item.from, b"")?;
    let parts = parts_of(alloc, told, item, arcs, name.bytes())?;
    Ok(Lane {
        kind: holder.kind,
        name,
        note,
        start: holder.start,
        width: holder.width,
        setup: 0,
        borrowed: lent(holder.kind, departures, item.from),
        at: item.at,
        lap: 0,
        delay: item.delay,
        ends: item.come,
        parts,
        top,
    })
}

/// The row of the element that data comes to, with its late departures.
pub(crate) fn element_lane(
    alloc: Global,
    told: &Told,
    late: &[i64],
    item: &Item,
    top: u32,
) -> Result<Lane, OutOfMemory>
    requires in_range { IsInRange told.now.schedule.now }
    requires item { IsItem told.now.flat.now item.now }
    requires top { IsHeight top }
    ensures lane { IfOk result IsLane }
    ensures name { IfOk result (λ lane. lane.name ≡ element_name told.now.flat.now item.now.to) }
{
    let holder = element_holder(told, item.to);
    let name = told.flat.element(item.to).name.copy(alloc)?;
    let note = note_of(
        alloc,
        told.flat,
        holder.kind,
        item.to,
        judged_word(item.hold),
    )?;
    let borrowed = kept_lent(holder.kind, late, item);
    Ok(Lane {
        kind: holder.kind,
        name,
        note,
        start: holder.start,
        width: holder.width,
        setup: drawn_setup(&holder, item.hold),
        borrowed,
        at: item.opens + i128::from(borrowed),
        lap: item.lap,
        delay: 0,
        ends: item.come,
        parts: Items::new(Vec::new(alloc)),
        top,
    })
}
