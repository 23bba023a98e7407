//! Bits that are driven twice, as far as the netlist alone tells.
ghost use Rattle.std.specs.Prelude.{◌≡◌, ◌<◌, ◌≤◌, IfOk, IfSome, length};
ghost use Rattle.mintcx_finders.specs.Places.{HasEarlierName, IsInside, bare, part};

use crate::connections::{Connection, next_connection};
use crate::found::{Class, Fault, Found, found_inside, name_of};
use crate::walk::{
    class_of, is_name, is_sign, is_word, module_around, module_name, next_outer, range_of,
};
use mintc_text::{Bytes, OutOfMemory};
use mintc_text_names::NameSet;
use mintc_vlex::{Token, next_token, statement_end};
use mintcx_places::Range;
use std::alloc::Global;

/// A name that is driven, and a place in its statement behind which the next one is looked for.
#[derive(Clone, Copy)]
struct Drive {
    name: Range,
    to: usize,
}

/// The name that stands alone in the parentheses of a connection.
pub(crate) fn name_alone(text: &[u8], connection: &Connection) -> Option<Range> {
    let name = next_token(text, connection.bits.from)?;
    if is_name(&name) && name.to == connection.bits.to {
        Some(range_of(&name))
    } else {
        None
    }
}

/// A port's name behind that of its module.
pub(crate) fn port_key(alloc: Global, module: &[u8], port: &[u8]) -> Result<Bytes, OutOfMemory> {
    let mut key = Vec::from_slice(alloc, module)?;
    key.push(b' ')?;
    key.extend_from_slice(port)?;
    Ok(Bytes::new(key))
}

/// Takes in the outputs of a module that a statement declares.
fn add_outputs(
    alloc: Global,
    text: &[u8],
    module: &[u8],
    first: &Token,
    outputs: &mut NameSet,
) -> Result<(), OutOfMemory> {
    let mut at = first.to;
    while let Some(name) = next_outer(text, at) {
        let key = port_key(alloc, module, name_of(text, &range_of(&name)))?;
        let _added = outputs.add(alloc, key.items())?;
        at = name.to;
    }
    Ok(())
}

/// The outputs of all modules that declare them by statements of their own.
fn outputs_of(alloc: Global, text: &[u8]) -> Result<NameSet, OutOfMemory> {
    let mut outputs = NameSet::new(alloc);
    let mut module: &[u8] = b"";
    let mut from = 0;
    while let Some(first) = next_token(text, from) {
        if is_word(text, &first, b"module") {
            module = module_name(text, &first);
        }
        if is_word(text, &first, b"output") {
            add_outputs(alloc, text, module, &first, &mut outputs)?;
        }
        from = statement_end(text, &first);
    }
    Ok(outputs)
}

/// The next name of a statement that is an output of its cell's, connected by name.
fn next_output(
    alloc: Global,
    text: &[u8],
    cell: &[u8],
    outputs: &NameSet,
    from: usize,
) -> Result<Option<Drive>, OutOfMemory>
    ensures behind { IfOk result (λ o. IfSome o (λ d. from < d.to)) }
    ensures within { IfOk result (λ o. IfSome o (λ d. d.to ≤ length text.now)) }
{
    let mut at = from;
    while let Some(connection) = next_connection(text, at) {
        at = connection.to;
        if let Some(name) = name_alone(text, &connection) {
            let key = port_key(alloc, cell, name_of(text, &connection.port))?;
            if outputs.find(key.items()).is_some() {
                return Ok(Some(Drive { name, to: at }));
            }
        }
    }
    Ok(None)
}

/// The next name of a declaration.
fn next_input(text: &[u8], from: usize) -> Option<Drive>
    ensures behind { IfSome result (λ d. from < d.to) }
    ensures within { IfSome result (λ d. d.to ≤ length text.now) }
{
    let name = next_outer(text, from)?;
    Some(Drive {
        name: range_of(&name),
        to: name.to,
    })
}

/// The next name alone at the left of an `=`.
fn next_assigned(text: &[u8], from: usize) -> Option<Drive>
    ensures behind { IfSome result (λ d. from < d.to) }
    ensures within { IfSome result (λ d. d.to ≤ length text.now) }
{
    let mut at = from;
    while let Some(name) = next_outer(text, at) {
        at = name.to;
        let next = next_token(text, at)?;
        if is_sign(text, &next, b'=') {
            return Some(Drive {
                name: range_of(&name),
                to: at,
            });
        }
    }
    None
}

/// The next name behind a place that a statement drives.
fn next_drive(
    alloc: Global,
    text: &[u8],
    first: &Token,
    outputs: &NameSet,
    from: usize,
) -> Result<Option<Drive>, OutOfMemory>
    ensures behind { IfOk result (λ o. IfSome o (λ d. from < d.to)) }
    ensures within { IfOk result (λ o. IfSome o (λ d. d.to ≤ length text.now)) }
{
    if is_word(text, first, b"input") {
        Ok(next_input(text, from))
    } else if is_word(text, first, b"assign") {
        Ok(next_assigned(text, from))
    } else if class_of(text, first) == Some(Class::Instance) {
        next_output(alloc, text, name_of(text, &range_of(first)), outputs, from)
    } else {
        Ok(None)
    }
}

/// Takes in the names that a statement drives. The first of them that is there already ends that.
fn add_driven(
    alloc: Global,
    text: &[u8],
    first: &Token,
    outputs: &NameSet,
    driven: &mut NameSet,
) -> Result<Option<Range>, OutOfMemory> {
    let mut at = first.to;
    while let Some(drive) = next_drive(alloc, text, first, outputs, at)? {
        if !driven.add(alloc, name_of(text, &drive.name))? {
            return Ok(Some(drive.name));
        }
        at = drive.to;
    }
    Ok(None)
}

/// The first name that statements drive again, from a place to the statement at another.
fn driven_again(
    alloc: Global,
    text: &[u8],
    outputs: &NameSet,
    body: usize,
    last: usize,
) -> Result<Option<Range>, OutOfMemory> {
    let mut driven = NameSet::new(alloc);
    let mut from = body;
    while let Some(first) = next_token(text, from) {
        if first.from > last {
            return Ok(None);
        }
        let range = add_driven(alloc, text, &first, outputs, &mut driven)?;
        if range.is_some() {
            return Ok(range);
        }
        from = statement_end(text, &first);
    }
    Ok(None)
}

/// Where a statement drives a name.
fn driven_in(
    alloc: Global,
    text: &[u8],
    first: &Token,
    outputs: &NameSet,
    name: &[u8],
) -> Result<Option<Range>, OutOfMemory>
    ensures { IfOk result (λ o. IfSome o (λ range. bare (part text.now range) ≡ name.now)) }
{
    let mut at = first.to;
    while let Some(drive) = next_drive(alloc, text, first, outputs, at)? {
        if name_of(text, &drive.name) == name {
            return Ok(Some(drive.name));
        }
        at = drive.to;
    }
    Ok(None)
}

/// Where statements drive a name first, from a place on.
fn first_driven(
    alloc: Global,
    text: &[u8],
    outputs: &NameSet,
    body: usize,
    name: &[u8],
) -> Result<Option<Range>, OutOfMemory>
    ensures { IfOk result (λ o. IfSome o (λ range. bare (part text.now range) ≡ name.now)) }
{
    let mut from = body;
    while let Some(first) = next_token(text, from) {
        let range = driven_in(alloc, text, &first, outputs, name)?;
        if range.is_some() {
            return Ok(range);
        }
        from = statement_end(text, &first);
    }
    Ok(None)
}

/// The name that a statement drives again, and the place where it is driven first, among input ports, names alone that
/// are assigned, and those that are connected by name to outputs of modules of the netlist.
pub fn two_drivers(
    alloc: Global,
    text: &[u8],
    statement: &Range,
) -> Result<Option<Found>, OutOfMemory>
    ensures inside { IfOk result (λ o. IfSome o (λ found. IsInside statement.now found.range)) }
    ensures name { IfOk result (λ o. IfSome o (HasEarlierName text.now)) }
{
    let Some(module) = module_around(text, statement.from) else {
        return Ok(None);
    };
    let outputs = outputs_of(alloc, text)?;
    let Some(range) = driven_again(alloc, text, &outputs, module.body, statement.from)? else {
        return Ok(None);
    };
    match first_driven(alloc, text, &outputs, module.body, name_of(text, &range))? {
        Some(earlier) => Ok(found_inside(statement, range, Fault::Driven { earlier })),
        None => Ok(None),
    }
}
