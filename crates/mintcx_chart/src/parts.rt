//! The parts of a row: what takes its time.
ghost use Rattle.std.specs.Prelude.{◌≡◌, ◌<◌, ◌≤◌, ◌++◌, codes, pos, negsuc, ◌≤ℤ◌, length, IfOk};
ghost use Rattle.mintc_text.specs.declared.limits.TheConstants.{MOST_COUNT};
ghost use Rattle.mintc_timing.specs.Design.{element_count};
ghost use Rattle.mintc_timing.specs.Limits.{IsDelay, IsInRange};
ghost use Rattle.mintc_timing.specs.Paths.{arc_at};
ghost use Rattle.mintcx_chain.specs.Names.{IsStageDelay};
ghost use Rattle.mintcx_chain.specs.Rows.{IsChainTime};

use crate::times::time_after;
use crate::told::Told;
use crate::wording::name_of;
use mintc_text::{Lines, Name, OutOfMemory};
use mintc_timing::{Flat, TimingArc};
use mintcx_chain::{bit_name, gate_of};
use std::alloc::Global;

/// What a part is of.
#[derive(Clone, Copy, Debug, PartialEq, Eq, Drop)]
pub enum PartKind {
    /// The delay of an element.
    Own,
    /// That of a gate.
    Gate,
    /// That of a wire.
    Wire,
    /// A setup.
    Setup,
    /// What a rule of the clock asks for.
    Rule,
}

/// A part: what it is of, its name, its delay in femtoseconds, and from when to when it takes, as numerators over the
/// schedule's denominator.
#[derive(Drop)]
pub struct Part {
    pub kind: PartKind,
    pub name: Name,
    pub delay: i64,
    pub from: i128,
    pub to: i128,
}

/// A delay in femtoseconds, from when to when it takes, as numerators over the schedule's denominator.
#[derive(Clone, Copy)]
pub struct Lapse {
    pub delay: i64,
    pub from: i128,
    pub to: i128,
}

/// Which delays data has: the greatest ones, or the least.
#[derive(Clone, Copy, Debug, PartialEq, Eq, Drop)]
pub enum Travel {
    /// The greatest.
    Longest,
    /// The least.
    Shortest,
}

/// Adds a part; none of no delay.
pub fn push_part(
    parts: &mut Vec<Part>,
    alloc: Global,
    kind: PartKind,
    name: &[u8],
    lapse: Lapse,
) -> Result<(), OutOfMemory> {
    if lapse.delay == 0 {
        return Ok(());
    }
    parts.push(Part {
        kind,
        name: Name::new(alloc, name)?,
        delay: lapse.delay,
        from: lapse.from,
        to: lapse.to,
    })?;
    Ok(())
}

/// The arc of a number, and one of zeros past the last.
fn arc_at(flat: &Flat, number: u32) -> TimingArc
    ensures value { result ≡ arc_at flat.now.arcs number }
    ensures min { IsDelay result.min }
    ensures max { IsDelay result.max }
{
    match flat.arcs().get(number as usize) {
        Some(arc) => *arc,
        None => TimingArc {
            from: 0,
            to: 0,
            min: 0,
            max: 0,
        },
    }
}

/// The greatest delay of an arc, or the least.
fn arc_delay(arc: &TimingArc, travel: Travel) -> i64
    requires min { IsDelay arc.now.min }
    requires max { IsDelay arc.now.max }
    ensures { IsDelay result }
{
    match travel {
        Travel::Longest => arc.max,
        Travel::Shortest => arc.min,
    }
}

/// The delay of an element from its data to its output.
fn own_delay(flat: &Flat, travel: Travel, number: u32) -> i64
    requires { number < element_count flat.now }
    ensures { IsStageDelay result }
{
    let element = flat.element(number);
    match travel {
        Travel::Longest => element.dq_max,
        Travel::Shortest => element.dq_min,
    }
}

/// What the bit that an arc on the way to an element enters is called: its own name, or where it has none the
/// element's.
fn end_name(flat: &Flat, element: u32, number: u32) -> &[u8]
    requires { element < element_count flat.now }
{
    let name = match flat.arcs().get(number as usize) {
        Some(arc) => bit_name(flat, arc.to),
        None => b"",
    };
    if name.is_empty() {
        flat.element(element).name.bytes()
    } else {
        name
    }
}

/// The name of a wire to a bit.
fn wire_name(alloc: Global, end: &[u8]) -> Result<Name, OutOfMemory>
    ensures { IfOk result (λ name. name ≡ codes "to " ++ end.now) }
{
    let mut lines = Lines::new(alloc);
    lines.put(b"to ")?;
    lines.put(end)?;
    name_of(alloc, lines)
}

/// Adds an arc on the way to an element: of a gate or of a wire. In a table each arc is of a gate.
fn push_arc(
    parts: &mut Vec<Part>,
    alloc: Global,
    told: &Told,
    number: u32,
    element: u32,
    lapse: Lapse,
) -> Result<(), OutOfMemory>
    requires { element < element_count told.now.flat.now }
{
    if let Some(gate) = gate_of(told.flat, number) {
        return push_part(parts, alloc, PartKind::Gate, gate, lapse);
    }
    let end = end_name(told.flat, element, number);
    if told.table {
        return push_part(parts, alloc, PartKind::Gate, end, lapse);
    }
    let wire = wire_name(alloc, end)?;
    push_part(parts, alloc, PartKind::Wire, wire.bytes(), lapse)
}

/// A path from one element to another by its arcs, and which delays data has along it.
#[derive(Clone, Copy)]
pub struct Path<'a> {
    pub from: u32,
    pub to: u32,
    pub arcs: &'a [u32],
    pub travel: Travel,
}

/// Adds the arcs of a path, along which data goes from a time on.
fn push_arcs(
    parts: &mut Vec<Part>,
    alloc: Global,
    told: &Told,
    path: Path,
    begin: i128,
) -> Result<(), OutOfMemory>
    requires in_range { IsInRange told.now.schedule.now }
    requires few { length path.arcs.now ≤ MOST_COUNT }
    requires element { path.to < element_count told.now.flat.now }
    requires low { negsuc 20000400000000000000 ≤ℤ begin }
    requires high { begin ≤ℤ pos 20000400000000000000 }
{
    let mut at = begin;
    for number in path.arcs {
        let delay = arc_delay(&arc_at(told.flat, *number), path.travel);
        let from = at;
        at = time_after(from, delay, told.schedule.den);
        let lapse = Lapse {
            delay,
            from,
            to: at,
        };
        push_arc(parts, alloc, told, *number, path.to, lapse)?;
    }
    Ok(())
}

/// Adds the parts of data that goes from an element, by its name, along a path, where it leaves at a time: the delay of
/// the element, and those of the arcs.
pub fn push_path(
    parts: &mut Vec<Part>,
    alloc: Global,
    told: &Told,
    name: &[u8],
    path: Path,
    begin: i128,
) -> Result<(), OutOfMemory>
    requires in_range { IsInRange told.now.schedule.now }
    requires from { path.from < element_count told.now.flat.now }
    requires to { path.to < element_count told.now.flat.now }
    requires few { length path.arcs.now ≤ MOST_COUNT }
    requires time { IsChainTime begin }
{
    let delay = own_delay(told.flat, path.travel, path.from);
    let out = time_after(begin, delay, told.schedule.den);
    let lapse = Lapse {
        delay,
        from: begin,
        to: out,
    };
    push_part(parts, alloc, PartKind::Own, name, lapse)?;
    push_arcs(parts, alloc, told, path, out)
}
