//! Latches and flops that are on no phase.
ghost use Rattle.std.specs.Prelude.{IfOk, IfSome};
ghost use Rattle.mintcx_finders.specs.Places.{IsRange};

use crate::connections::{Connection, next_connection};
use crate::described::pin_said;
use crate::drives::name_alone;
use crate::found::{Fault, Found, MOST_PLACES, Places, found_anywhere, name_of};
use crate::hierarchy::{Element, Instance, Level, element_at, next_instance, start_of};
use crate::kinds::{CellKind, Kinds, kinds_of};
use crate::tops::top_module;
use crate::walk::next_outer;
use mintc_text::OutOfMemory;
use mintc_vlex::next_token;
use mintcx_places::Range;
use std::alloc::Global;

/// How many cells of the clock's way and ends of modules are passed on a way back.
const MOST_PASSED: usize = 64;

/// A cell on the way of a clock that is of no kind for that.
#[derive(Clone, Copy, Debug)]
pub struct Through {
    pub kind: CellKind,
    pub cell: Range,
    pub name: Range,
    /// Inside of how many instances it stands: the first ones of those of the latch or flop.
    pub depth: usize,
}

/// A latch or flop that is on no phase.
#[derive(Clone, Copy, Debug)]
pub struct Unclocked {
    pub kind: CellKind,
    pub name: Range,
    /// The instances that it stands inside of, from the top on. Where there are more than have room, the first ones.
    pub levels: Places,
    pub depth: usize,
    /// The cell that its clock comes through, where that is found.
    pub through: Option<Through>,
}

/// The place where the connections of an instance end.
fn connections_end(text: &[u8], instance: &Instance) -> usize {
    match next_outer(text, instance.name.to) {
        Some(name) => name.from,
        None => text.len(),
    }
}

/// The connection of a pin or a port of an instance by its name.
fn connection_of(text: &[u8], instance: &Instance, pin: &[u8]) -> Option<Connection> {
    let end = connections_end(text, instance);
    let mut at = instance.name.to;
    while let Some(connection) = next_connection(text, at) {
        if connection.port.from >= end {
            return None;
        }
        if name_of(text, &connection.port) == pin {
            return Some(connection);
        }
        at = connection.to;
    }
    None
}

/// The net that is connected alone to a pin or a port of an instance.
fn net_at(text: &[u8], instance: &Instance, pin: &[u8]) -> Option<Range> {
    name_alone(text, &connection_of(text, instance, pin)?)
}

/// Whether a connection of an instance is that of an output of its cell to a net alone.
fn is_driving(
    alloc: Global,
    text: &[u8],
    kinds: &Kinds,
    instance: &Instance,
    connection: &Connection,
    net: &[u8],
) -> Result<bool, OutOfMemory> {
    match name_alone(text, connection) {
        Some(name) if name_of(text, &name) == net => {
            let port = name_of(text, &connection.port);
            kinds.is_output(alloc, name_of(text, &instance.cell), port)
        }
        _ => Ok(false),
    }
}

/// Whether an instance drives a net at an output of its cell.
fn drives(
    alloc: Global,
    text: &[u8],
    kinds: &Kinds,
    instance: &Instance,
    net: &[u8],
) -> Result<bool, OutOfMemory> {
    let end = connections_end(text, instance);
    let mut at = instance.name.to;
    while let Some(connection) = next_connection(text, at) {
        if connection.port.from >= end {
            return Ok(false);
        }
        if is_driving(alloc, text, kinds, instance, &connection, net)? {
            return Ok(true);
        }
        at = connection.to;
    }
    Ok(false)
}

/// The instance of a described cell in a module that drives a net.
fn driver_of(
    alloc: Global,
    text: &[u8],
    kinds: &Kinds,
    module: &Range,
    net: &[u8],
) -> Result<Option<Instance>, OutOfMemory> {
    let mut cursor = start_of(module);
    for _instance in 0..text.len() {
        let Some((instance, next)) = next_instance(text, &cursor) else {
            return Ok(None);
        };
        if drives(alloc, text, kinds, &instance, net)? {
            return Ok(Some(instance));
        }
        cursor = next;
    }
    Ok(None)
}

/// A net on a way back, and inside of how many instances it stands.
#[derive(Clone, Copy)]
struct Place {
    depth: usize,
    net: Range,
}

/// What stands before a net on a way back.
#[derive(Clone, Copy)]
enum Source {
    /// Another net: behind a cell for clocks, or outside of the module.
    Net(Place),
    /// A cell that is none for clocks.
    Cell(Through),
    /// Nothing that is found.
    Nothing,
}

/// The net before the port of a module that a net is, outside of the module.
fn outside(text: &[u8], level: &Level, place: &Place) -> Source {
    let Some(instance) = level.instance else {
        return Source::Nothing;
    };
    match net_at(text, &instance, name_of(text, &place.net)) {
        Some(net) => Source::Net(Place {
            depth: place.depth.saturating_sub(1),
            net,
        }),
        None => Source::Nothing,
    }
}

/// What stands before a cell of a kind at some depth.
fn before_cell(
    text: &[u8],
    cells: &[u8],
    kind: CellKind,
    instance: &Instance,
    depth: usize,
) -> Source {
    if kind != CellKind::Clock {
        return Source::Cell(Through {
            kind,
            cell: instance.cell,
            name: instance.name,
            depth,
        });
    }
    let Some(pin) = pin_said(cells, name_of(text, &instance.cell), b"input") else {
        return Source::Nothing;
    };
    match net_at(text, instance, pin) {
        Some(net) => Source::Net(Place { depth, net }),
        None => Source::Nothing,
    }
}

/// What stands before a net on a way back.
fn before(
    alloc: Global,
    text: &[u8],
    cells: &[u8],
    kinds: &Kinds,
    level: &Level,
    place: &Place,
) -> Result<Source, OutOfMemory> {
    let net = name_of(text, &place.net);
    let Some(driver) = driver_of(alloc, text, kinds, &level.module, net)? else {
        return Ok(outside(text, level, place));
    };
    match kinds.kind(name_of(text, &driver.cell)) {
        Some(kind) => Ok(before_cell(text, cells, kind, &driver, place.depth)),
        None => Ok(Source::Nothing),
    }
}

/// The first cell on the way back from a net that is none for clocks.
fn first_through(
    alloc: Global,
    text: &[u8],
    cells: &[u8],
    kinds: &Kinds,
    levels: &[Level],
    from: Place,
) -> Result<Option<Through>, OutOfMemory> {
    let mut place = from;
    for _passed in 0..MOST_PASSED {
        if place.depth >= levels.len() {
            return Ok(None);
        }
        let level = levels[place.depth];
        match before(alloc, text, cells, kinds, &level, &place)? {
            Source::Net(next) => place = next,
            Source::Cell(through) => return Ok(Some(through)),
            Source::Nothing => return Ok(None),
        }
    }
    Ok(None)
}

/// The cell that the clock of a latch or flop comes through.
fn through_of(
    alloc: Global,
    text: &[u8],
    cells: &[u8],
    kinds: &Kinds,
    element: &Element,
    connection: &Connection,
) -> Result<Option<Through>, OutOfMemory> {
    let Some(net) = name_alone(text, connection) else {
        return Ok(None);
    };
    let depth = element.levels.len().saturating_sub(1);
    let place = Place { depth, net };
    first_through(alloc, text, cells, kinds, &element.levels, place)
}

/// The names of the instances of some levels, without the top.
fn names_of(levels: &[Level]) -> Places {
    let mut places = [None; MOST_PLACES];
    for place in 0..MOST_PLACES {
        if place + 1 < levels.len() {
            places[place] = match levels[place + 1].instance {
                Some(instance) => Some(instance.name),
                None => None,
            };
        }
    }
    places
}

/// A connection from its dot to its `)`.
fn whole_connection(text: &[u8], connection: &Connection) -> Option<Range> {
    let close = next_token(text, connection.bits.to)?;
    Some(Range {
        from: connection.from,
        to: close.to,
    })
}

/// The key of the pin of a latch or flop that a clock comes to.
fn clock_key(kind: CellKind) -> &'static [u8] {
    match kind {
        CellKind::Latch => b"g",
        CellKind::Gate | CellKind::Flop | CellKind::Clock => b"clock",
    }
}

/// The latch or flop that is on no phase, marked at its enable or clock pin.
fn fault_of(
    alloc: Global,
    text: &[u8],
    cells: &[u8],
    kinds: &Kinds,
    element: &Element,
) -> Result<Option<Found>, OutOfMemory>
    ensures { IfOk result (λ o. IfSome o (λ found. IsRange text.now found.range)) }
{
    let instance = element.instance;
    let cell = name_of(text, &instance.cell);
    let Some(pin) = pin_said(cells, cell, clock_key(element.kind)) else {
        return Ok(None);
    };
    let Some(connection) = connection_of(text, &instance, pin) else {
        return Ok(None);
    };
    let through = through_of(alloc, text, cells, kinds, element, &connection)?;
    let unclocked = Unclocked {
        kind: element.kind,
        name: instance.name,
        levels: names_of(&element.levels),
        depth: element.levels.len().saturating_sub(1),
        through,
    };
    let range = whole_connection(text, &connection);
    Ok(found_anywhere(text, range, Fault::Unclocked { unclocked }))
}

/// The enable or clock pin of a latch or flop that is on no phase, by its number from 0 on in the order of a walk
/// through the design, with the cell description. None where that or the top isn't found.
pub fn clockless(
    alloc: Global,
    text: &[u8],
    cells: &[u8],
    number: u32,
) -> Result<Option<Found>, OutOfMemory>
    ensures { IfOk result (λ o. IfSome o (λ found. IsRange text.now found.range)) }
{
    let kinds = kinds_of(alloc, cells)?;
    let Some(top) = top_module(alloc, text, b"")? else {
        return Ok(None);
    };
    match element_at(alloc, text, &kinds, top, number)? {
        Some(element) => fault_of(alloc, text, cells, &kinds, &element),
        None => Ok(None),
    }
}
