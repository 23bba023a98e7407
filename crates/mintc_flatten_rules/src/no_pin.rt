//! Ports and pins that aren't there.
ghost use Rattle.std.specs.Prelude.{◌≡◌, ◌<◌, [], false, not, length, map, IfOk, OnOk};
ghost use Rattle.std.specs.Option.{option_map_or};
ghost use Rattle.std.specs.List.{fold, flat_map, list_any};
ghost use Rattle.mintc_cells.specs.Entries.{cell_at};
ghost use Rattle.mintc_cells.specs.Rules.{pins};
ghost use Rattle.mintc_text_names.specs.Names.{is_among, with_name};
ghost use Rattle.mintc_netlist.specs.Nets.{port_names};
ghost use Rattle.mintc_netlist.specs.Connections.{named_pins};
ghost use Rattle.mintc_netlist.specs.Statements.{statement_of, first_at_fault};
ghost use Rattle.mintc_flatten_hierarchy.specs.Sources.{source_of, binding_in, bindings_in, modules_of};
ghost use Rattle.mintc_flatten_hierarchy.specs.Faults.{misses, is_no_pin};
ghost use Rattle.mintc_flatten_rules.specs.Firsts.{first_in, first_after};
ghost use Rattle.mintc_flatten_rules.specs.Lacking.{name_set, port_set, declared_set, lacks_any, is_pin, takes_fewer};
ghost use Rattle.mintc_flatten_rules.specs.Lacking.{lacks_item};
ghost use Rattle.mintc_flatten_binding.specs.Orders.{IsThere};

use mintc_cells::Cells;
use mintc_flatten_binding::BindingList;
use mintc_flatten_hierarchy::Binding;
use mintc_netlist::{Connection, Item, Module, entry};
use mintc_text::{Name, OutOfMemory};
use mintc_text_names::NameSet;
use std::alloc::Global;

/// Takes in names.
fn add_names(alloc: Global, set: &mut NameSet, names: &[Name]) -> Result<(), OutOfMemory>
    ensures { OnOk result (set.new ≡ fold with_name set.old names.now) }
{
    for name in names {
        set.add(alloc, name.bytes())?;
    }
    Ok(())
}

/// Takes in the names that an item declares as ports.
fn add_declared(alloc: Global, set: &mut NameSet, item: &Item) -> Result<(), OutOfMemory>
    ensures { OnOk result (set.new ≡ fold with_name set.old (port_names item.now)) }
{
    match item {
        Item::Port { names, .. } => add_names(alloc, set, names.items()),
        _ => Ok(()),
    }
}

/// The names of a module's port list.
fn port_set(alloc: Global, part: &Module) -> Result<NameSet, OutOfMemory>
    ensures { IfOk result (λ set. set ≡ port_set part.now) }
{
    let mut set = NameSet::new(alloc);
    add_names(alloc, &mut set, part.ports.items())?;
    Ok(set)
}

/// The names that the items of a module declare as ports.
fn declared_set(alloc: Global, part: &Module) -> Result<NameSet, OutOfMemory>
    ensures { IfOk result (λ set. set ≡ declared_set part.now) }
{
    let mut set = NameSet::new(alloc);
    for item in part.items.items() {
        add_declared(alloc, &mut set, item)?;
    }
    Ok(set)
}

/// The names of each module's port list.
fn port_sets(alloc: Global, modules: &[Module]) -> Result<Vec<NameSet>, OutOfMemory>
    ensures { IfOk result (λ sets. sets.items ≡ map port_set modules.now) }
{
    let mut sets = Vec::new(alloc);
    for part in modules {
        let set = port_set(alloc, part)?;
        sets.push(set)?;
    }
    Ok(sets)
}

/// Whether a name is there.
fn has(set: &NameSet, name: &[u8]) -> bool
    ensures { result ≡ is_among name.now set.now }
{
    set.find(name).is_some()
}

/// Whether some of the wanted names aren't there.
fn lacks_any(set: &NameSet, wanted: &[Name]) -> bool
    ensures { result ≡ lacks_any set.now wanted.now }
{
    for name in wanted {
        if !has(set, name.bytes()) {
            return true;
        }
    }
    false
}

/// Whether some port of a module's port list has no direction.
fn lacks_direction(alloc: Global, part: &Module) -> Result<bool, OutOfMemory>
    ensures { IfOk result (λ lacks. lacks ≡ lacks_any (declared_set part.now) part.now.ports) }
{
    let declared = declared_set(alloc, part)?;
    Ok(lacks_any(&declared, part.ports.items()))
}

/// Whether a cell has a pin of a name.
fn is_cell_pin(cells: &Cells, cell: u32, name: &[u8]) -> bool
    requires { cell < length cells.now }
    ensures { result ≡ is_among name.now (pins (cell_at cells.now cell)) }
{
    for number in 0..cells.pin_count(cell) {
        if name == cells.pin(cell, number).bytes() {
            return true;
        }
    }
    false
}

/// The cells and the modules of a netlist, with the names of each module's port list.
#[derive(Clone, Copy)]
struct PortNames<'a> {
    cells: &'a Cells,
    modules: &'a [Module],
    ports: &'a [NameSet],
    ghost are_of: { ports.now ≡ map port_set modules.now },
}

/// Whether what an item is an instance of has a pin of a name.
fn is_pin(netlist: &PortNames<'_>, binding: Binding, name: &[u8]) -> bool
    requires { IsThere (source_of netlist.now.cells.now netlist.now.modules.now) binding }
    ensures { result ≡ is_pin (source_of netlist.now.cells.now netlist.now.modules.now) binding name.now }
{
    match binding {
        Binding::OfCell(number) => is_cell_pin(netlist.cells, number, name),
        Binding::OfModule(number) => has(&netlist.ports[number as usize], name),
        Binding::OfNothing => false,
    }
}

/// Whether a connection names a pin that isn't there.
fn names_none(netlist: &PortNames<'_>, binding: Binding, connection: &Connection) -> bool
    requires { IsThere (source_of netlist.now.cells.now netlist.now.modules.now) binding }
    ensures { result ≡ option_map_or
        (λ name. not (is_pin (source_of netlist.now.cells.now netlist.now.modules.now) binding name))
        connection.now.pin false }
{
    match &connection.pin {
        Some(name) => !is_pin(netlist, binding, name.bytes()),
        None => false,
    }
}

/// Whether some connection names a pin that isn't there.
fn names_missing(netlist: &PortNames<'_>, binding: Binding, connections: &[Connection]) -> bool
    requires { IsThere (source_of netlist.now.cells.now netlist.now.modules.now) binding }
    ensures { result ≡ list_any
        (λ name. not (is_pin (source_of netlist.now.cells.now netlist.now.modules.now) binding name))
        (named_pins connections.now) }
{
    for connection in connections {
        if names_none(netlist, binding, connection) {
            return true;
        }
    }
    false
}

/// Whether what an item is an instance of takes fewer ordered connections than there are.
fn takes_fewer(cells: &Cells, modules: &[Module], binding: Binding, count: usize) -> bool
    requires { IsThere (source_of cells.now modules.now) binding }
    ensures { result ≡ takes_fewer (source_of cells.now modules.now) binding count }
{
    match binding {
        Binding::OfModule(number) => modules[number as usize].ports.items().len() < count,
        _ => count > 0,
    }
}

/// Whether an item of a module lacks a port or pin.
fn lacks(
    netlist: &PortNames<'_>,
    part: &Module,
    own: &NameSet,
    item: &Item,
    binding: Binding,
) -> bool
    requires own { own.now ≡ port_set part.now }
    requires binding { binding ≡ binding_in (source_of netlist.now.cells.now netlist.now.modules.now) item.now }
    requires there { IsThere (source_of netlist.now.cells.now netlist.now.modules.now) binding }
    ensures { result ≡ lacks_item (source_of netlist.now.cells.now netlist.now.modules.now) part.now item.now }
{
    match item {
        Item::Port { names, .. } => lacks_any(own, names.items()),
        Item::Instance {
            by_name,
            connections,
            ..
        } => {
            let connections = connections.items();
            if *by_name {
                names_missing(netlist, binding, connections)
            } else {
                takes_fewer(netlist.cells, netlist.modules, binding, connections.len())
            }
        }
        _ => false,
    }
}

/// The first item of a module that lacks a port or pin.
fn first_lacking(
    netlist: &PortNames<'_>,
    part: &Module,
    own: &NameSet,
    bindings: &[Binding],
) -> Option<u32>
    requires own { own.now ≡ port_set part.now }
    requires bindings { bindings.now ≡
        bindings_in (source_of netlist.now.cells.now netlist.now.modules.now) part.now }
    ensures { result ≡ first_after (is_no_pin (source_of netlist.now.cells.now netlist.now.modules.now))
        part.now [] part.now.items }
{
    let items = part.items.items();
    for (number, item) in items.iter().enumerate() {
        if lacks(netlist, part, own, item, bindings[number]) {
            return Some(entry(item));
        }
    }
    None
}

/// The first statement of a module that lacks a port or pin: its own, or that of one of its items.
fn first_in_module(
    alloc: Global,
    netlist: &PortNames<'_>,
    part: &Module,
    own: &NameSet,
    bindings: &[Binding],
) -> Result<Option<u32>, OutOfMemory>
    requires own { own.now ≡ port_set part.now }
    requires bindings { bindings.now ≡
        bindings_in (source_of netlist.now.cells.now netlist.now.modules.now) part.now }
    ensures { IfOk result
        (λ first. first ≡ first_in (is_no_pin (source_of netlist.now.cells.now netlist.now.modules.now)) part.now) }
{
    if lacks_direction(alloc, part)? {
        return Ok(Some(part.entry));
    }
    Ok(first_lacking(netlist, part, own, bindings))
}

/// The first statement that names a port or pin that isn't there.
pub(crate) fn no_pin(
    alloc: Global,
    cells: &Cells,
    modules: &[Module],
    bindings: &[BindingList],
) -> Result<Option<u32>, OutOfMemory>
    requires { bindings.now ≡ map (bindings_in (source_of cells.now modules.now)) modules.now }
    ensures { IfOk result
        (λ entry. entry ≡ first_at_fault (is_no_pin (source_of cells.now modules.now))
        (modules_of (source_of cells.now modules.now))) }
{
    let ports = port_sets(alloc, modules)?;
    let netlist = PortNames {
        cells,
        modules,
        ports: &ports,
    };
    for (number, part) in modules.iter().enumerate() {
        if cells.find(part.name.bytes()).is_some() {
            continue;
        }
        let own = &ports[number];
        let list = bindings[number].items();
        let first = first_in_module(alloc, &netlist, part, own, list)?;
        if first.is_some() {
            return Ok(first);
        }
    }
    Ok(None)
}
