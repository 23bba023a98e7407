//! Modules that may be the top.
ghost use Rattle.std.specs.Prelude.{IfOk, IfSome};
ghost use Rattle.mintcx_finders.specs.Places.{IsRange};

use crate::found::{Class, Fault, Found, MOST_PLACES, Places, bytes_of, found_anywhere, name_of};
use crate::pins::module_of;
use crate::quoting::inside_quotes;
use crate::sections::{entry_of, head_section};
use crate::walk::{class_of, next_outer, range_of};
use mintc_text::OutOfMemory;
use mintc_text_names::NameSet;
use mintc_vlex::{next_token, statement_end};
use mintcx_places::Range;
use std::alloc::Global;

/// The cells of all instances of a netlist.
fn cells_used(alloc: Global, text: &[u8]) -> Result<NameSet, OutOfMemory> {
    let mut names = NameSet::new(alloc);
    let mut from = 0;
    while let Some(first) = next_token(text, from) {
        if class_of(text, &first) == Some(Class::Instance) {
            let _added = names.add(alloc, name_of(text, &range_of(&first)))?;
        }
        from = statement_end(text, &first);
    }
    Ok(names)
}

/// The name of the next module from a place on that isn't among the cells of instances.
fn next_top(text: &[u8], used: &NameSet, begin: usize) -> Option<Range> {
    let mut from = begin;
    while let Some(first) = next_token(text, from) {
        if class_of(text, &first) == Some(Class::Module) {
            let name = range_of(&next_outer(text, first.to)?);
            if used.find(name_of(text, &name)).is_none() {
                return Some(name);
            }
        }
        from = statement_end(text, &first);
    }
    None
}

/// The names of the first modules that aren't among the cells of instances.
fn first_tops(text: &[u8], used: &NameSet) -> Places {
    let mut places = [None; MOST_PLACES];
    let mut from = 0;
    for place in 0..MOST_PLACES {
        let Some(name) = next_top(text, used, from) else {
            return places;
        };
        places[place] = Some(name);
        from = name.to;
    }
    places
}

/// The name of the top that a clock description says.
fn top_said(clock: &[u8]) -> Option<&[u8]> {
    let head = head_section(clock);
    let value = entry_of(clock, &head, b"top")?.value;
    let name = inside_quotes(clock, &value)?;
    Some(bytes_of(clock, &name))
}

/// The name of the module that is the top: the one that a clock description says, or the only one that no module
/// instantiates. None where several may be, or none is.
pub(crate) fn top_module(
    alloc: Global,
    text: &[u8],
    clock: &[u8],
) -> Result<Option<Range>, OutOfMemory> {
    if let Some(name) = top_said(clock) {
        return match module_of(text, name) {
            Some(module) => Ok(Some(range_of(&module))),
            None => Ok(None),
        };
    }
    let used = cells_used(alloc, text)?;
    let tops = first_tops(text, &used);
    Ok(if tops[1].is_some() { None } else { tops[0] })
}

/// The name of the first module of a netlist that no module instantiates, and with it those of the next ones.
pub fn possible_tops(alloc: Global, text: &[u8]) -> Result<Option<Found>, OutOfMemory>
    ensures { IfOk result (λ o. IfSome o (λ found. IsRange text.now found.range)) }
{
    let used = cells_used(alloc, text)?;
    let modules = first_tops(text, &used);
    Ok(found_anywhere(text, modules[0], Fault::Tops { modules }))
}
