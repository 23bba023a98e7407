//! Latches and flops as they stand in the hierarchy.
ghost use Rattle.std.specs.Prelude.{◌≤◌, ◌<◌, IfSome, length};

use crate::found::{Class, name_of};
use crate::kinds::{CellKind, Kinds};
use crate::walk::{class_of, is_word, next_outer, range_of};
use mintc_text::OutOfMemory;
use mintc_text_names::NameSet;
use mintc_vlex::{is_endmodule, next_token, statement_end};
use mintcx_places::Range;
use std::alloc::Global;

/// How many steps a walk takes at most: more than a design may have instances and ends of modules.
const MOST_STEPS: u32 = 5_000_000;

/// How many modules stand in one another at most.
const MOST_DEEP: usize = 64;

/// A place in a module's statements: where a statement begins, and a place in it behind which the next instance is
/// looked for.
#[derive(Clone, Copy)]
pub(crate) struct Cursor {
    statement: usize,
    at: usize,
}

/// An instance: its statement's first token, which is its cell, and its name.
#[derive(Clone, Copy, Debug)]
pub(crate) struct Instance {
    pub(crate) cell: Range,
    pub(crate) name: Range,
}

/// An instance of a module that a walk is inside of, or the top, which has no instance; and where in the module it is.
#[derive(Clone, Copy)]
pub(crate) struct Level {
    pub(crate) instance: Option<Instance>,
    pub(crate) module: Range,
    cursor: Cursor,
}

/// A latch or flop, and what it stands inside of, from the top on.
#[derive(Drop)]
pub(crate) struct Element {
    pub(crate) levels: Vec<Level>,
    pub(crate) instance: Instance,
    pub(crate) kind: CellKind,
}

/// The modules of a netlist: their names, and where these stand, in the same order.
#[derive(Drop)]
struct Modules {
    names: NameSet,
    places: Vec<Range>,
}

/// The modules of a netlist.
fn modules_of(alloc: Global, text: &[u8]) -> Result<Modules, OutOfMemory> {
    let mut modules = Modules {
        names: NameSet::new(alloc),
        places: Vec::new(alloc),
    };
    let mut from = 0;
    while let Some(first) = next_token(text, from) {
        if is_word(text, &first, b"module") {
            if let Some(name) = next_outer(text, first.to) {
                let range = range_of(&name);
                if modules.names.add(alloc, name_of(text, &range))? {
                    modules.places.push(range)?;
                }
            }
        }
        from = statement_end(text, &first);
    }
    Ok(modules)
}

/// The name of the module that a cell is, where the netlist gives it.
fn module_named(modules: &Modules, name: &[u8]) -> Option<Range> {
    let place = modules.names.find(name)?;
    match modules.places.get(place) {
        Some(range) => Some(*range),
        None => None,
    }
}

/// The place before all instances of a module, whose name stands there.
pub(crate) fn start_of(module: &Range) -> Cursor {
    Cursor {
        statement: module.to,
        at: module.to,
    }
}

/// A level at the start of its module, whose name stands there.
fn level_of(instance: Option<Instance>, module: Range) -> Level {
    Level {
        instance,
        module,
        cursor: start_of(&module),
    }
}

/// The next instance of a module, and the place behind it.
pub(crate) fn next_instance(text: &[u8], cursor: &Cursor) -> Option<(Instance, Cursor)> {
    let mut statement = cursor.statement;
    let mut at = cursor.at;
    while let Some(first) = next_token(text, statement) {
        if is_endmodule(text, &first) {
            return None;
        }
        if class_of(text, &first) == Some(Class::Instance) {
            if let Some(name) = next_outer(text, at.max(first.to)) {
                let instance = Instance {
                    cell: range_of(&first),
                    name: range_of(&name),
                };
                let at = name.to;
                return Some((instance, Cursor { statement, at }));
            }
        }
        statement = statement_end(text, &first);
        at = statement;
    }
    None
}

/// The next instance on the way of a walk. None where a module has no more, which is left then.
fn step(text: &[u8], levels: &mut Vec<Level>) -> Option<Instance> {
    if levels.is_empty() {
        return None;
    }
    let last = levels.len() - 1;
    let level = levels[last];
    match next_instance(text, &level.cursor) {
        Some((instance, cursor)) => {
            levels[last] = Level { cursor, ..level };
            Some(instance)
        }
        None => {
            let _left = levels.pop();
            None
        }
    }
}

/// Goes into the module of an instance, if it is of one.
fn enter(
    text: &[u8],
    modules: &Modules,
    instance: Instance,
    levels: &mut Vec<Level>,
) -> Result<(), OutOfMemory> {
    match module_named(modules, name_of(text, &instance.cell)) {
        Some(module) if levels.len() < MOST_DEEP => {
            levels.push(level_of(Some(instance), module))?;
            Ok(())
        }
        _ => Ok(()),
    }
}

/// The kind of a latch or flop.
fn kind_of_element(kinds: &Kinds, cell: &[u8]) -> Option<CellKind> {
    match kinds.kind(cell) {
        Some(CellKind::Latch) => Some(CellKind::Latch),
        Some(CellKind::Flop) => Some(CellKind::Flop),
        _ => None,
    }
}

/// The latch or flop of a number from 0 on, in the order of a walk, which stops there.
fn seek(
    text: &[u8],
    kinds: &Kinds,
    modules: &Modules,
    number: u32,
    levels: &mut Vec<Level>,
) -> Result<Option<(Instance, CellKind)>, OutOfMemory> {
    let mut count = 0u32;
    for _step in 0..MOST_STEPS {
        if levels.is_empty() {
            return Ok(None);
        }
        if let Some(instance) = step(text, levels) {
            let cell = name_of(text, &instance.cell);
            if let Some(kind) = kind_of_element(kinds, cell) {
                if count == number {
                    return Ok(Some((instance, kind)));
                }
                count = count.saturating_add(1);
            } else if kinds.kind(cell).is_none() {
                enter(text, modules, instance, levels)?;
            }
        }
    }
    Ok(None)
}

/// The latch or flop of a number from 0 on, in the order of a walk from the top, whose module's name stands there. None
/// where it isn't found.
pub(crate) fn element_at(
    alloc: Global,
    text: &[u8],
    kinds: &Kinds,
    top: Range,
    number: u32,
) -> Result<Option<Element>, OutOfMemory> {
    let modules = modules_of(alloc, text)?;
    let mut levels = Vec::new(alloc);
    levels.push(level_of(None, top))?;
    match seek(text, kinds, &modules, number, &mut levels)? {
        Some((instance, kind)) => Ok(Some(Element {
            levels,
            instance,
            kind,
        })),
        None => Ok(None),
    }
}
