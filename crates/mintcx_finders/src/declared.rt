//! Ports of the top, as its module declares them.

use crate::clocks::Item;
use crate::found::{bytes_of, name_of};
use crate::pins::is_port;
use crate::quoting::inside_quotes;
use crate::sections::next_entry;
use crate::tops::top_module;
use crate::walk::{is_word, range_of};
use crate::widths::widths_of;
use mintc_text::{OutOfMemory, place_of};
use mintc_text_names::NameSet;
use mintc_vlex::{Token, is_endmodule, is_semicolon, next_token, statement_end};
use mintcx_places::Range;
use std::alloc::Global;

/// Whether the names behind a token are ports of a direction, `input` or `output`.
fn is_wanted_behind(text: &[u8], token: &Token, direction: &[u8], is_wanted: bool) -> bool {
    if is_word(text, token, b"input")
        || is_word(text, token, b"output")
        || is_word(text, token, b"inout")
    {
        is_word(text, token, direction)
    } else {
        is_wanted
    }
}

/// Takes in the ports of a direction that a statement declares, from a place of it on.
fn add_declared<'a>(
    text: &'a [u8],
    from: usize,
    direction: &[u8],
    ports: &mut Vec<&'a [u8]>,
) -> Result<(), OutOfMemory> {
    let mut is_wanted = false;
    let mut at = from;
    while let Some(token) = next_token(text, at) {
        if is_semicolon(text, &token) {
            return Ok(());
        }
        is_wanted = is_wanted_behind(text, &token, direction, is_wanted);
        if is_wanted && is_port(text, &token) {
            ports.push(name_of(text, &range_of(&token)))?;
        }
        at = token.to;
    }
    Ok(())
}

/// The ports of a direction, `input` or `output`, that the module of a name declares, in its order.
fn ports_declared<'a>(
    alloc: Global,
    text: &'a [u8],
    module: &Range,
    direction: &[u8],
) -> Result<Vec<&'a [u8]>, OutOfMemory> {
    let mut ports = Vec::new(alloc);
    let mut from = module.to;
    while let Some(first) = next_token(text, from) {
        if is_endmodule(text, &first) {
            return Ok(ports);
        }
        add_declared(text, first.from, direction, &mut ports)?;
        from = statement_end(text, &first);
    }
    Ok(ports)
}

/// The direction of the ports that items of the clock description name.
fn direction_of(item: Item) -> &'static [u8] {
    match item {
        Item::Phase | Item::Bound | Item::Input => b"input",
        Item::Output => b"output",
    }
}

/// The ports of the top that such items of the clock description may name. None where the top isn't clear.
pub fn ports_of_top<'a>(
    alloc: Global,
    text: &'a [u8],
    clock: &[u8],
    item: Item,
) -> Result<Option<Vec<&'a [u8]>>, OutOfMemory> {
    match top_module(alloc, text, clock)? {
        Some(top) => Ok(Some(ports_declared(alloc, text, &top, direction_of(item))?)),
        None => Ok(None),
    }
}

/// A port's name without the bit that is taken of it.
fn whole_port(name: &[u8]) -> &[u8] {
    &name[..place_of(b'[', name, 0)]
}

/// The ports that items of a clock description name.
fn ports_named(alloc: Global, clock: &[u8]) -> Result<NameSet, OutOfMemory> {
    let mut names = NameSet::new(alloc);
    let mut from = 0;
    while let Some((entry, to)) = next_entry(clock, from) {
        if bytes_of(clock, &entry.key) == b"port".as_slice() {
            if let Some(name) = inside_quotes(clock, &entry.value) {
                let _added = names.add(alloc, whole_port(bytes_of(clock, &name)))?;
            }
        }
        from = to;
    }
    Ok(names)
}

/// The one of these ports that isn't among those that are named. None where several aren't.
fn lone_port<'a>(ports: &[&'a [u8]], named: &NameSet) -> Option<&'a [u8]> {
    let mut lone = None;
    for port in ports {
        if named.find(*port).is_none() {
            if lone.is_some() {
                return None;
            }
            lone = Some(*port);
        }
    }
    lone
}

/// Whether a port may be named by such an item: a phase is on one bit.
fn may_be_named(
    alloc: Global,
    text: &[u8],
    top: &Range,
    port: &[u8],
    item: Item,
) -> Result<bool, OutOfMemory> {
    if item != Item::Phase {
        return Ok(true);
    }
    let widths = widths_of(alloc, text)?;
    Ok(widths.width(alloc, name_of(text, top), port)? == 1)
}

/// The one port of the top that no item of the clock description names and that such an item may name. None where there
/// are several or none, or the top isn't clear.
pub fn free_port<'a>(
    alloc: Global,
    text: &'a [u8],
    clock: &[u8],
    item: Item,
) -> Result<Option<&'a [u8]>, OutOfMemory> {
    let Some(top) = top_module(alloc, text, clock)? else {
        return Ok(None);
    };
    let ports = ports_declared(alloc, text, &top, direction_of(item))?;
    let named = ports_named(alloc, clock)?;
    let Some(port) = lone_port(&ports, &named) else {
        return Ok(None);
    };
    if may_be_named(alloc, text, &top, port, item)? {
        Ok(Some(port))
    } else {
        Ok(None)
    }
}
