//! Ports of modules that aren't there.
ghost use Rattle.std.specs.Prelude.{◌<◌, ◌≤◌, IfOk, IfSome, length};
ghost use Rattle.mintcx_finders.specs.Places.{IsInside};

use crate::connections::next_connection;
use crate::described::{Side, pins_of_cell};
use crate::found::{Fault, Found, MOST_PLACES, Places, found_inside, name_of};
use crate::modules::cell_of;
use crate::walk::{is_name, is_sign, is_word, next_outer, range_of};
use mintc_text::OutOfMemory;
use mintc_text_names::NameSet;
use mintc_vlex::{Token, is_semicolon, next_token, statement_end};
use mintcx_places::Range;
use std::alloc::Global;

/// Words in a list of ports that name none.
const NO_NAMES: &[&[u8]] = &[b"input", b"output", b"wire", b"tri", b"supply0", b"supply1"];

/// Whether a token of a list of ports is the name of one.
pub(crate) fn is_port(text: &[u8], token: &Token) -> bool {
    for word in NO_NAMES {
        if is_word(text, token, word) {
            return false;
        }
    }
    is_name(token)
}

/// The name of the module of a name, where its statement gives it.
pub(crate) fn module_of(text: &[u8], wanted: &[u8]) -> Option<Token>
    ensures { IfSome result (λ t. t.to ≤ length text.now) }
{
    let mut from = 0;
    while let Some(first) = next_token(text, from) {
        if is_word(text, &first, b"module") {
            let name = next_outer(text, first.to)?;
            if name_of(text, &range_of(&name)) == wanted {
                return Some(name);
            }
        }
        from = statement_end(text, &first);
    }
    None
}

/// The next port of a module's statement.
fn next_port(text: &[u8], from: usize) -> Option<Token>
    ensures behind { IfSome result (λ t. from < t.to) }
    ensures within { IfSome result (λ t. t.to ≤ length text.now) }
{
    let mut at = from;
    while let Some(token) = next_token(text, at) {
        if is_semicolon(text, &token) {
            return None;
        }
        if is_port(text, &token) {
            return Some(token);
        }
        at = token.to;
    }
    None
}

/// The ports of a module behind its name.
fn ports_of(alloc: Global, text: &[u8], module: &Token) -> Result<NameSet, OutOfMemory> {
    let mut names = NameSet::new(alloc);
    let mut at = module.to;
    while let Some(port) = next_port(text, at) {
        let _added = names.add(alloc, name_of(text, &range_of(&port)))?;
        at = port.to;
    }
    Ok(names)
}

/// The first ports of a module behind its name.
fn first_ports(text: &[u8], module: &Token) -> Places {
    let mut places = [None; MOST_PLACES];
    let mut at = module.to;
    for place in 0..MOST_PLACES {
        let Some(port) = next_port(text, at) else {
            return places;
        };
        places[place] = Some(range_of(&port));
        at = port.to;
    }
    places
}

/// The first port of a statement that isn't among these.
fn port_beside(text: &[u8], statement: &Range, ports: &NameSet) -> Option<Range> {
    let mut at = statement.from;
    while let Some(connection) = next_connection(text, at) {
        if ports.find(name_of(text, &connection.port)).is_none() {
            return Some(connection.port);
        }
        at = connection.to;
    }
    None
}

/// Names as a set.
fn set_of(alloc: Global, names: &[&[u8]]) -> Result<NameSet, OutOfMemory> {
    let mut set = NameSet::new(alloc);
    for name in names {
        let _added = set.add(alloc, *name)?;
    }
    Ok(set)
}

/// The first pin that a statement of instances connects by name and that its cell doesn't have by a cell description.
/// None where that doesn't describe the cell.
pub fn missing_pin(
    alloc: Global,
    text: &[u8],
    cells: &[u8],
    statement: &Range,
) -> Result<Option<Found>, OutOfMemory>
    ensures { IfOk result (λ o. IfSome o (λ found. IsInside statement.now found.range)) }
{
    let Some(cell) = cell_of(text, statement) else {
        return Ok(None);
    };
    let Some(names) = pins_of_cell(alloc, cells, name_of(text, &cell), Side::All)? else {
        return Ok(None);
    };
    let pins = set_of(alloc, &names)?;
    match port_beside(text, statement, &pins) {
        Some(pin) => Ok(found_inside(statement, pin, Fault::NoPin { cell })),
        None => Ok(None),
    }
}

/// The first port that a statement of instances connects by name and that its module doesn't have. None where the cell
/// is no module of the netlist.
pub fn missing_port_of_module(
    alloc: Global,
    text: &[u8],
    statement: &Range,
) -> Result<Option<Found>, OutOfMemory>
    ensures { IfOk result (λ o. IfSome o (λ found. IsInside statement.now found.range)) }
{
    let Some(cell) = cell_of(text, statement) else {
        return Ok(None);
    };
    let Some(module) = module_of(text, name_of(text, &cell)) else {
        return Ok(None);
    };
    let ports = ports_of(alloc, text, &module)?;
    let Some(port) = port_beside(text, statement, &ports) else {
        return Ok(None);
    };
    let fault = Fault::NoPort {
        module: range_of(&module),
        ports: first_ports(text, &module),
        count: ports.len(),
    };
    Ok(found_inside(statement, port, fault))
}
